ghost use Rattle.std.specs.Prelude.{◌≡◌, ℕ, ◌≤◌, false, length, map, All, IfOk};
ghost use Rattle.pol_relation.specs.Relations.{LanguageView};
ghost use Rattle.pol_relation.specs.Instances.{InstanceView};
ghost use Rattle.pol_nogood.specs.Logs.{FitsMost};
ghost use Rattle.pol_nogood.specs.Steps.{step_named};
ghost use Rattle.pol_nogood.specs.ValidLogs.{IsValidLog};
ghost use Rattle.pol_nogood.specs.Trims.{IsTrimmed, AreReferredTo};
ghost use Rattle.pol_nogood.specs.Marks.{AreMarks, MarksToo, copy_by, renumbered};

use crate::{Log, Step};
use pol_base::{NoMemory, Numbers};
use std::alloc::Global;

/// The part of the log that its last step leads to by references: its steps in their order, with their
/// references renumbered. What a log shows it shows with these steps alone. A reference that is not to
/// an earlier step leads to none and stays as it is. Goes twice over the log.
pub fn trimmed(alloc: Global, log: &Log) -> Result<Log, NoMemory>
    ensures part { IfOk result (IsTrimmed log.now) }
    ensures valid { IfOk result (λ part. (lang : LanguageView) (inst : InstanceView)
        → IsValidLog lang inst log.now → IsValidLog lang inst part) }
    ensures shorter { IfOk result (λ part. length part ≤ length log.now) }
    ensures fits { IfOk result (λ part. (most : ℕ) → FitsMost most log.now → FitsMost most part) }
    ensures needed { IfOk result AreReferredTo }
{
    let mut marks = vec![in alloc; false; log.len() as usize]?;
    mark_needed(log, &mut marks);
    copy_marked(alloc, log, &marks)
}

/// Marks the steps that are needed, where none is marked.
fn mark_needed(log: &Log, marks: &mut [bool])
    requires as_many { length marks.old ≡ length log.now }
    requires unmarked { All (λ mark. mark ≡ false) marks.old }
    ensures marks { AreMarks log.now marks.new }
{
    if let Some(last) = marks.last_mut() {
        *last = true;
    }
    for s in (0..log.len()).rev() {
        if marks[s as usize] {
            mark_earlier(&mut marks[..s as usize], log.step(s).references());
        }
    }
}

/// Marks what is referred to, as far as there are marks.
fn mark_earlier(marks: &mut [bool], references: &[u32])
    ensures marks { MarksToo references.now marks.old marks.new }
{
    for reference in references {
        let place = *reference as usize;
        if place < marks.len() {
            marks[place] = true;
        }
    }
}

/// The steps that are marked, with their references renumbered.
fn copy_marked(alloc: Global, log: &Log, marks: &[bool]) -> Result<Log, NoMemory>
    requires marks { AreMarks log.now marks.now }
    ensures part { IfOk result (IsTrimmed log.now) }
{
    let mut part = Log::new(alloc);
    let mut numbers = Numbers::new(alloc);
    for s in 0..log.len() {
        let number = part.len();
        if marks[s as usize] {
            part.push(copied(alloc, log.step(s), numbers.as_slice())?)?;
        }
        numbers.push(number)?;
    }
    Ok(part)
}

/// The step with new numbers for the steps that it refers to.
fn copied(alloc: Global, step: &Step, numbers: &[u32]) -> Result<Step, NoMemory>
    ensures copy { IfOk result (λ copy. step_named copy ≡ copy_by numbers.now (step_named step.now)) }
{
    let refs = renumbered(alloc, step.references(), numbers)?;
    Ok(match step {
        Step::ByConstraint { c, nogood, .. } => Step::ByConstraint {
            c: *c,
            nogood: nogood.copy(),
            refs,
        },
        Step::ByVariable { v, nogood, .. } => Step::ByVariable {
            v: *v,
            nogood: nogood.copy(),
            refs,
        },
    })
}

/// The new numbers that stand at the references. A reference to none stays as it is.
fn renumbered(alloc: Global, references: &[u32], numbers: &[u32]) -> Result<Numbers, NoMemory>
    ensures new { IfOk result (λ new. new ≡ map (renumbered numbers.now) references.now) }
{
    let mut new = Numbers::new(alloc);
    for reference in references {
        new.push(*numbers.get(*reference as usize).unwrap_or(reference))?;
    }
    Ok(new)
}
