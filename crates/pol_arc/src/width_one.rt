ghost use Rattle.std.specs.Prelude.{◌≡◌, ◌≤◌, length, map, IfOk};
ghost use Rattle.pol_base.specs.Masks.{AreMasks};
ghost use Rattle.pol_relation.specs.Instances.{Fits};
ghost use Rattle.pol_optable.specs.SetFunctions.{value_of_set, IsSetPolymorphism};
ghost use Rattle.pol_nogood.specs.Answers.{YesSolves, NoOnlyWithoutSolution, NoHasCertificate};

use crate::{Consistency, arc};
use pol_base::{NoMemory, Values};
use pol_nogood::LogAnswer;
use pol_optable::SetFn;
use pol_relation::{Instance, Language};
use std::alloc::Global;

/// Answers the instance, where the set function preserves each relation of the language. A solution
/// gives each variable the value of the set that arc consistency leaves to it. Where it leaves some
/// variable no value there is none, and the log that shows it has nogoods of at most one pair.
///
/// (V. Dalmau and J. Pearson, Closure functions and width 1 problems, CP 1999; T. Feder and M. Y. Vardi,
/// The computational structure of monotone monadic SNP and constraint satisfaction, SIAM Journal on
/// Computing 28, 1998.)
pub fn solve_width_one(
    alloc: Global,
    lang: &Language,
    inst: &Instance,
    g: &SetFn,
) -> Result<LogAnswer, NoMemory>
    requires fits { Fits lang.now inst.now }
    requires few_variables { length inst.now.variables ≤ 40 }
    requires domain { g.now.domain ≡ lang.now.domain }
    requires preserves { IsSetPolymorphism g.now lang.now }
    ensures yes { IfOk result (YesSolves lang.now inst.now) }
    ensures no_only_without_solution { IfOk result (NoOnlyWithoutSolution lang.now inst.now) }
    ensures certificate { IfOk result (NoHasCertificate 1 lang.now inst.now) }
{
    // for their clauses on what a language and a set function are
    let _domains = (lang.domain(), g.domain());
    match arc(alloc, lang, inst)? {
        Consistency::Domains(masks) => Ok(LogAnswer::Yes(values_of(alloc, g, masks.as_slice())?)),
        Consistency::Wiped(log) => Ok(LogAnswer::No(log)),
    }
}

/// The values of the sets.
fn values_of(alloc: Global, g: &SetFn, masks: &[u8]) -> Result<Values, NoMemory>
    requires masks { AreMasks g.now.domain masks.now }
    ensures values { IfOk result (λ values. values ≡ map (value_of_set g.now) masks.now) }
{
    let mut values = Values::new(alloc);
    for mask in masks {
        values.push(g.apply(*mask))?;
    }
    Ok(values)
}
