ghost use Rattle.std.specs.Prelude.{◌≡◌, ◌-◌, ◌≤◌, length, IfOk};
ghost use Rattle.pol_relation.specs.Instances.{Fits};
ghost use Rattle.pol_optable.specs.Operations.{IsPolymorphism};
ghost use Rattle.pol_optable.specs.Identities.{IsNearUnanimity};
ghost use Rattle.pol_nogood.specs.Answers.{YesSolves, NoOnlyWithoutSolution, NoHasCertificate};

use crate::covering::cover_all;
use crate::store::Store;
use crate::sweeping::delete_all;
use crate::values::assignment;
use pol_base::NoMemory;
use pol_nogood::LogAnswer;
use pol_optable::OpTable;
use pol_relation::{Instance, Language};
use std::alloc::Global;

/// Answers an instance over a language with a near-unanimity operation of three or four arguments: a
/// solution, or a log which shows that there is none, of nogoods of at most two or three pairs. By strong
/// consistency: nogoods are deleted until each that is left has a case of each constraint and a value of
/// each further variable; what is left then holds a solution, which is taken value by value. No cell of the
/// operation is looked at; it stands for the promise. Takes memory for a number for each nogood over the
/// variables, 33 megabytes at 40 variables of 5 values and four arguments, and for the log.
///
/// (P. Jeavons, D. Cohen and M. Cooper, Constraints, consistency and closure, Artificial Intelligence 101,
/// 1998.)
pub fn solve_nu<const K: usize>(
    alloc: Global,
    lang: &Language,
    inst: &Instance,
    op: &OpTable<K>,
) -> Result<LogAnswer, NoMemory>
    requires some_arguments { 3 ≤ K }
    requires few_arguments { K ≤ 4 }
    requires near_unanimity { IsNearUnanimity op.now }
    requires polymorphism { IsPolymorphism op.now lang.now }
    requires domain { op.now.domain ≡ lang.now.domain }
    requires fits { Fits lang.now inst.now }
    requires few_variables { length inst.now.variables ≤ 40 }
    ensures yes { IfOk result (YesSolves lang.now inst.now) }
    ensures no_only_without_solution { IfOk result (NoOnlyWithoutSolution lang.now inst.now) }
    ensures certificate { IfOk result (NoHasCertificate (K - 1) lang.now inst.now) }
{
    // for its clause that the table is one of an operation
    let _domain = op.domain();
    let mut store = Store::new(alloc, inst.variables(), lang.domain(), K as u32 - 1)?;
    if cover_all(alloc, lang, inst, &mut store)? {
        return Ok(LogAnswer::No(store.log()));
    }
    if delete_all(alloc, lang, inst, &mut store)? {
        return Ok(LogAnswer::No(store.log()));
    }
    Ok(LogAnswer::Yes(assignment(alloc, lang, inst, store.steps())?))
}
