ghost use Rattle.std.specs.Prelude.{◌≡◌, ◌≤◌, IfOk};
ghost use Rattle.pol_modp.specs.Parts.{part_named};
ghost use Rattle.pol_nogood.specs.Steps.{step_named};
ghost use Rattle.pol_report.specs.Limits.{most_steps, most_parts};
ghost use Rattle.pol_report.specs.Certificates.{step_from, part_from, sizes_from};
ghost use Rattle.pol_report.specs.Grammar.{line_from, lines_from};
ghost use Rattle.pol_report.specs.Reading.{TookLines, itself};

use crate::certificate_lines::{part_line, sizes_line, step_line};
use crate::text::{Text, refused};
use pol_base::{Numbers, Values};
use pol_modp::{Combination, Part};
use pol_nogood::{Log, Step};
use pol_text::{LineFail, Lines, ReadFail, Word};
use std::alloc::Global;

/// The step on the next line.
fn take_step(alloc: Global, text: &Text<'_>, lines: &mut Lines<'_>) -> Result<Step, ReadFail>
    ensures step { TookLines step_named result lines.new (line_from text.now step_from lines.old) }
{
    let Some(line) = lines.next() else {
        return Err(text.ended(Word::Ended));
    };
    match step_line(alloc, &line) {
        Ok(step) => Ok(step),
        Err(LineFail::Refused(word)) => Err(refused(line.number(), word)),
        Err(LineFail::NoMemory) => Err(ReadFail::NoMemory),
    }
}

/// The steps on so many next lines.
pub(crate) fn take_steps(
    alloc: Global,
    text: &Text<'_>,
    lines: &mut Lines<'_>,
    count: u32,
) -> Result<Log, ReadFail>
    requires few { count ≤ most_steps }
    ensures steps { TookLines itself result lines.new (lines_from text.now step_from count lines.old) }
{
    let mut log = Log::new(alloc);
    for _ in 0..count {
        let step = take_step(alloc, text, lines)?;
        log.push(step)?;
    }
    Ok(log)
}

/// The part on the next line.
fn take_part(alloc: Global, text: &Text<'_>, lines: &mut Lines<'_>) -> Result<Part, ReadFail>
    ensures part { TookLines part_named result lines.new (line_from text.now part_from lines.old) }
{
    let Some(line) = lines.next() else {
        return Err(text.ended(Word::Ended));
    };
    match part_line(alloc, &line) {
        Ok(part) => Ok(part),
        Err(LineFail::Refused(word)) => Err(refused(line.number(), word)),
        Err(LineFail::NoMemory) => Err(ReadFail::NoMemory),
    }
}

/// The labels, with the parts on so many next lines.
pub(crate) fn take_parts(
    alloc: Global,
    text: &Text<'_>,
    lines: &mut Lines<'_>,
    labels: &Values,
    count: u32,
) -> Result<Combination, ReadFail>
    requires few { count ≤ most_parts }
    ensures parts { TookLines (λ sum. sum.parts) result lines.new
        (lines_from text.now part_from count lines.old) }
    ensures labels { IfOk result (λ sum. sum.labels ≡ labels.now) }
{
    let mut combination = Combination::new(alloc, labels.as_slice())?;
    for _ in 0..count {
        let part = take_part(alloc, text, lines)?;
        combination.push(part)?;
    }
    Ok(combination)
}

/// The sizes on the next line.
pub(crate) fn take_sizes(
    alloc: Global,
    text: &Text<'_>,
    lines: &mut Lines<'_>,
) -> Result<Numbers, ReadFail>
    ensures sizes { TookLines itself result lines.new (line_from text.now sizes_from lines.old) }
{
    let Some(line) = lines.next() else {
        return Err(text.ended(Word::Ended));
    };
    match sizes_line(alloc, &line) {
        Ok(sizes) => Ok(sizes),
        Err(LineFail::Refused(word)) => Err(refused(line.number(), word)),
        Err(LineFail::NoMemory) => Err(ReadFail::NoMemory),
    }
}
