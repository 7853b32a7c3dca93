ghost use Rattle.std.specs.Prelude.{◌≡◌, ◌≤◌, IfOk};
ghost use Rattle.pol_report.specs.Limits.{most_steps};
ghost use Rattle.pol_report.specs.Tokens.{one};
ghost use Rattle.pol_report.specs.Openings.{as_answer, as_subject, table_from, class_from, yes_from, refutation_from, no_from, answer_from, instance_from, subject_from, opening_from};
ghost use Rattle.pol_report.specs.Reading.{Took, Takes, itself, OpensFew};

use crate::Item;
use crate::limits::{MOST_CELLS, MOST_LABELS, MOST_PARTS, MOST_VARIABLES};
use crate::opening::{Answer, Opening, Subject};
use crate::taking::{is_done, some_values, take, take_class, take_count, take_name, values_from};
use pol_base::{ClassName, Values};
use pol_text::{Line, LineFail, Tokens, Word};
use std::alloc::Global;

/// Behind `class CLASS`.
#[tactic(auto, unfolding(crate::specs::Openings::table_from))]
fn table(alloc: Global, kind: ClassName, mut tokens: Tokens<'_>) -> Result<Opening, LineFail>
    ensures opening { Takes itself result (table_from kind tokens.entry) }
    ensures few { IfOk result OpensFew }
{
    let token = take(&mut tokens)?;
    if token == b"none".as_slice() {
        if !is_done(tokens) {
            return Err(LineFail::Refused(Word::BadLine));
        }
        return Ok(Opening::Whole(Item::ClassNone { kind }));
    }
    if token == b"beyond".as_slice() && kind == ClassName::Nu4 {
        if !is_done(tokens) {
            return Err(LineFail::Refused(Word::BadLine));
        }
        return Ok(Opening::Whole(Item::ClassBeyond));
    }
    let cells = values_from(alloc, token, tokens, MOST_CELLS)?;
    Ok(Opening::Whole(Item::ClassTable { kind, cells }))
}

/// Behind `class`.
#[tactic(auto, unfolding(crate::specs::Openings::class_from))]
fn class(alloc: Global, mut tokens: Tokens<'_>) -> Result<Opening, LineFail>
    ensures opening { Takes itself result (class_from tokens.entry) }
    ensures few { IfOk result OpensFew }
{
    let kind = take_class(&mut tokens)?;
    table(alloc, kind, tokens)
}

/// Behind `instance NAME yes`.
#[tactic(auto, unfolding(crate::specs::Openings::yes_from))]
fn yes(alloc: Global, name: Values, mut tokens: Tokens<'_>) -> Result<Opening, LineFail>
    ensures opening { Takes itself result (yes_from name tokens.entry) }
    ensures few { IfOk result OpensFew }
{
    let kind = take_class(&mut tokens)?;
    let values = some_values(alloc, tokens, MOST_VARIABLES)?;
    Ok(match kind {
        ClassName::Maltsev => Opening::SizesOfYes { name, values },
        _ => Opening::Whole(Item::Yes { name, kind, values }),
    })
}

/// Behind `instance NAME no CLASS`, where so many steps may still be read.
#[tactic(auto, unfolding(crate::specs::Openings::refutation_from))]
fn refutation(
    alloc: Global,
    left: u32,
    name: Values,
    kind: ClassName,
    mut tokens: Tokens<'_>,
) -> Result<Opening, LineFail>
    requires left { left ≤ most_steps }
    ensures opening { Takes itself result (refutation_from left name kind tokens.entry) }
    ensures few { IfOk result OpensFew }
{
    match kind {
        ClassName::Maltsev => {
            if !is_done(tokens) {
                return Err(LineFail::Refused(Word::BadLine));
            }
            Ok(Opening::SizesOfNo { name })
        }
        ClassName::Affine => {
            let count = take_count(&mut tokens, MOST_PARTS, Word::TooManyParts)?;
            let labels = some_values(alloc, tokens, MOST_LABELS)?;
            Ok(Opening::Parts {
                name,
                labels,
                count,
            })
        }
        _ => {
            let count = take_count(&mut tokens, left, Word::TooManySteps)?;
            if !is_done(tokens) {
                return Err(LineFail::Refused(Word::BadLine));
            }
            Ok(Opening::Steps { name, kind, count })
        }
    }
}

/// Behind `instance NAME no`, where so many steps may still be read.
#[tactic(auto, unfolding(crate::specs::Openings::no_from))]
fn no(alloc: Global, left: u32, name: Values, mut tokens: Tokens<'_>) -> Result<Opening, LineFail>
    requires left { left ≤ most_steps }
    ensures opening { Takes itself result (no_from left name tokens.entry) }
    ensures few { IfOk result OpensFew }
{
    let kind = take_class(&mut tokens)?;
    refutation(alloc, left, name, kind, tokens)
}

/// `undecided`, `yes` or `no`.
#[tactic(auto, unfolding(crate::specs::Openings::as_answer))]
fn take_answer(tokens: &mut Tokens<'_>) -> Result<Answer, LineFail>
    ensures took { Took itself result tokens.new (one as_answer tokens.old) }
{
    let token = take(tokens)?;
    if token == b"undecided".as_slice() {
        return Ok(Answer::Undecided);
    }
    if token == b"yes".as_slice() {
        return Ok(Answer::Yes);
    }
    if token == b"no".as_slice() {
        return Ok(Answer::No);
    }
    Err(LineFail::Refused(Word::BadLine))
}

/// Behind the answer, where so many steps may still be read.
fn behind_answer(
    alloc: Global,
    left: u32,
    name: Values,
    answer: Answer,
    tokens: Tokens<'_>,
) -> Result<Opening, LineFail>
    requires left { left ≤ most_steps }
    ensures opening { Takes itself result (answer_from left name answer tokens.entry) }
    ensures few { IfOk result OpensFew }
{
    match answer {
        Answer::Undecided => {
            if !is_done(tokens) {
                return Err(LineFail::Refused(Word::BadLine));
            }
            Ok(Opening::Whole(Item::Undecided { name }))
        }
        Answer::Yes => yes(alloc, name, tokens),
        Answer::No => no(alloc, left, name, tokens),
    }
}

/// Behind `instance`, where so many steps may still be read.
#[tactic(auto, unfolding(crate::specs::Openings::instance_from))]
fn instance(alloc: Global, left: u32, mut tokens: Tokens<'_>) -> Result<Opening, LineFail>
    requires left { left ≤ most_steps }
    ensures opening { Takes itself result (instance_from left tokens.entry) }
    ensures few { IfOk result OpensFew }
{
    let name = take_name(&mut tokens)?;
    let answer = take_answer(&mut tokens)?;
    let name = Values::from_slice(alloc, name)?;
    behind_answer(alloc, left, name, answer, tokens)
}

/// `class` or `instance`.
#[tactic(auto, unfolding(crate::specs::Openings::as_subject))]
fn take_subject(tokens: &mut Tokens<'_>) -> Result<Subject, LineFail>
    ensures took { Took itself result tokens.new (one as_subject tokens.old) }
{
    let token = take(tokens)?;
    if token == b"class".as_slice() {
        return Ok(Subject::Class);
    }
    if token == b"instance".as_slice() {
        return Ok(Subject::Instance);
    }
    Err(LineFail::Refused(Word::BadLine))
}

/// The first line of an item, where an item may still be read or not, and so many steps.
#[tactic(auto, unfolding(crate::specs::Openings::opening_from))]
pub(crate) fn first_line(
    alloc: Global,
    room: bool,
    left: u32,
    line: &Line<'_>,
) -> Result<Opening, LineFail>
    requires left { left ≤ most_steps }
    ensures opening { Takes itself result (opening_from room left line.now.tokens) }
    ensures few { IfOk result OpensFew }
{
    let mut tokens = line.tokens();
    let subject = take_subject(&mut tokens)?;
    if !room {
        return Err(LineFail::Refused(Word::TooManyItems));
    }
    match subject {
        Subject::Class => class(alloc, tokens),
        Subject::Instance => instance(alloc, left, tokens),
    }
}
