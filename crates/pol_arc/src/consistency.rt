ghost use Rattle.std.specs.Prelude.{◌≡◌, ◌≢◌, ℕ, ◌<◌, ◌≤◌, ◌^◌, [], length, All, IfOk, IfSome, IfNone, slice_index};
ghost use Rattle.pol_relation.specs.Instances.{Fits};
ghost use Rattle.pol_nogood.specs.Logs.{value_cases};
ghost use Rattle.pol_nogood.specs.ValidLogs.{HasReferences};
ghost use Rattle.pol_arc.specs.Answers.{DomainsAreGreatest, WipedOnlyWhereEmpty, WipedHasCertificate};
ghost use Rattle.pol_arc.specs.Arcs.{IsSettled};
ghost use Rattle.pol_arc.specs.Pruned.{IsDeleted, IsPruned, IsWipedLog};

use crate::pruning::Pruning;
use crate::supports::step_of;
use pol_base::{NoMemory, Numbers, Values};
use pol_nogood::{Log, Nogood, Step};
use pol_relation::{Instance, Language};
use std::alloc::Global;

/// What arc consistency leaves to the variables of an instance.
#[derive(Debug, Drop)]
pub enum Consistency {
    /// The greatest arc-consistent masks, one for each variable in their order, each with some value. The bit
    /// of weight 2^v of a mask stands for the value v.
    Domains(Values),
    /// The log of an instance that has no solution, since some variable has no value left.
    Wiped(Log),
}

/// The greatest arc-consistent masks of the instance, one for each variable, or a log that shows that
/// there is no solution, where they leave some variable no value.
///
/// A row of a constraint's relation supports a value at a variable of the scope where it has the value
/// at every place of the variable, reads one value for each variable that repeats, and has at each place
/// a value of the mask of the variable there. Masks are arc-consistent where each of their values is
/// supported by some row of each constraint that has its variable in the scope. (A. K. Mackworth,
/// Consistency in networks of relations, Artificial Intelligence 8, 1977; for constraints of any arity.)
pub fn arc(alloc: Global, lang: &Language, inst: &Instance) -> Result<Consistency, NoMemory>
    requires fits { Fits lang.now inst.now }
    requires few_variables { length inst.now.variables ≤ 40 }
    ensures domains { IfOk result (DomainsAreGreatest lang.now inst.now) }
    ensures wiped_only_where_empty { IfOk result (WipedOnlyWhereEmpty lang.now inst.now) }
    ensures certificate { IfOk result (WipedHasCertificate lang.now inst.now) }
{
    let mut pruning = Pruning::new(alloc, lang, inst)?;
    pruning.settle(alloc, lang, inst)?;
    let Pruning { masks, log, .. } = pruning;
    answer(alloc, lang, inst, masks.as_slice(), log)
}

/// The answer for pruned masks that are arc-consistent, if each of them has a value.
fn answer(
    alloc: Global,
    lang: &Language,
    inst: &Instance,
    masks: &[u8],
    log: Log,
) -> Result<Consistency, NoMemory>
    requires few_variables { length inst.now.variables ≤ 40 }
    requires pruned { IsPruned lang.now inst.now masks.now log }
    requires settled { IsSettled lang.now inst.now masks.now }
    ensures domains { IfOk result (DomainsAreGreatest lang.now inst.now) }
    ensures wiped_only_where_empty { IfOk result (WipedOnlyWhereEmpty lang.now inst.now) }
    ensures certificate { IfOk result (WipedHasCertificate lang.now inst.now) }
{
    let d = lang.domain();
    let size = d.size();
    match first_empty(masks) {
        None => Ok(Consistency::Domains(Values::from_slice(alloc, masks)?)),
        Some(v) => Ok(Consistency::Wiped(wiped_log(alloc, size, log, v as u32)?)),
    }
}

/// The first variable that has no value left.
fn first_empty(masks: &[u8]) -> Option<usize>
    ensures known { IfSome result (λ v. v < length masks.now) }
    ensures empty { IfSome result (λ v. slice_index masks.now v ≡ 0) }
    ensures none { IfNone result (All (λ m. m ≢ 0) masks.now) }
{
    for v in 0..masks.len() {
        if masks[v] == 0 {
            return Some(v);
        }
    }
    None
}

/// The log of a variable that has no value left.
fn wiped_log(alloc: Global, d: u8, mut log: Log, v: u32) -> Result<Log, NoMemory>
    requires deleted { (a : ℕ) → a < d → IsDeleted log v a }
    requires room { length log < 2 ^ 31 }
    ensures log { IfOk result (IsWipedLog log v d) }
{
    let refs = value_references(alloc, d, &log, v)?;
    log.push(Step::ByVariable {
        v,
        nogood: Nogood::new(),
        refs,
    })?;
    Ok(log)
}

/// The references of the values of a variable that has none left.
fn value_references(alloc: Global, d: u8, log: &Log, v: u32) -> Result<Numbers, NoMemory>
    requires deleted { (a : ℕ) → a < d → IsDeleted log.now v a }
    ensures referred { IfOk result (HasReferences log.now [] (value_cases v d)) }
{
    let mut references = Numbers::new(alloc);
    for a in 0..d {
        references.push(step_of(log, v, a))?;
    }
    Ok(references)
}
