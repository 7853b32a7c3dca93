ghost use Rattle.std.specs.Prelude.{◌≡◌, [], length, replicate, IfOk, IfSome, IfNone};
ghost use Rattle.pol_base.specs.declared.class_name.ClassName.TheVariants.{Constant};
ghost use Rattle.pol_optable.specs.ClassLines.{IsTableOf};
ghost use Rattle.pol_solve.specs.Solving.{IsFirstEmpty, NoRestsOnFirstEmpty};
ghost use Rattle.pol_relation.specs.Relations.{rows_of};
ghost use Rattle.pol_relation.specs.Instances.{Fits, UsesRows, constraint_of};
ghost use Rattle.pol_nogood.specs.Logs.{breaking_log};
ghost use Rattle.pol_nogood.specs.Answers.{YesSolves, NoOnlyWithoutSolution, NoHasCertificate};

use pol_base::{NoMemory, Numbers, Values};
use pol_nogood::{Log, LogAnswer, Nogood, Step};
use pol_optable::OpTable;
use pol_relation::{Instance, Language};
use std::alloc::Global;

/// Solves an instance over a language that a constant operation preserves: the constant assignment is
/// a solution, unless a constraint uses an empty relation. Then the log has one step, by the first
/// such constraint.
///
/// (P. Jeavons, D. Cohen and M. Gyssens, Closure properties of constraints, Journal of the ACM 44, 1997.)
pub fn solve_constant(
    alloc: Global,
    lang: &Language,
    inst: &Instance,
    op: &OpTable<1>,
) -> Result<LogAnswer, NoMemory>
    requires fits { Fits lang.now inst.now }
    requires table { IsTableOf Constant lang.now op.now.cells }
    ensures yes { IfOk result (YesSolves lang.now inst.now) }
    ensures no_only_without_solution { IfOk result (NoOnlyWithoutSolution lang.now inst.now) }
    ensures certificate { IfOk result (NoHasCertificate 1 lang.now inst.now) }
    ensures first { IfOk result (NoRestsOnFirstEmpty lang.now inst.now) }
{
    let _domain = lang.domain();
    let value = op.cells()[0];
    match first_without_rows(lang, inst) {
        Some(c) => Ok(LogAnswer::No(breaking_log(alloc, c)?)),
        None => Ok(LogAnswer::Yes(constant_assignment(alloc, inst.variables(), value)?)),
    }
}

/// The first constraint whose relation is empty.
fn first_without_rows(lang: &Language, inst: &Instance) -> Option<u32>
    requires fits { Fits lang.now inst.now }
    ensures first { IfSome result (IsFirstEmpty lang.now inst.now) }
    ensures none { IfNone result (UsesRows lang.now inst.now) }
{
    for c in 0..inst.constraints() {
        if lang.relation(inst.relation_of(c)).is_empty() {
            return Some(c);
        }
    }
    None
}

/// The log of one step by the constraint, without pairs and references.
fn breaking_log(alloc: Global, c: u32) -> Result<Log, NoMemory>
    ensures log { IfOk result (λ log. log ≡ breaking_log c) }
{
    let mut log = Log::new(alloc);
    log.push(Step::ByConstraint {
        c,
        nogood: Nogood::new(),
        refs: Numbers::new(alloc),
    })?;
    Ok(log)
}

fn constant_assignment(alloc: Global, variables: u32, value: u8) -> Result<Values, NoMemory>
    ensures values { IfOk result (λ values. values ≡ replicate variables value) }
{
    let mut values = Values::new(alloc);
    for _ in 0..variables {
        values.push(value)?;
    }
    Ok(values)
}
