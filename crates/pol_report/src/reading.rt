ghost use Rattle.std.specs.Prelude.{◌≡◌, ◌+◌, ◌≤◌, ◌^◌, List, length, Ok};
ghost use Rattle.pol_text.specs.Reading.{Reads, Judges, after_line, end_line};
ghost use Rattle.pol_report.specs.Limits.{most_items, most_steps};
ghost use Rattle.pol_report.specs.declared.item.Item.{Item};
ghost use Rattle.pol_report.specs.Reports.{steps_of, report_text, ArePrintableItems};
ghost use Rattle.pol_report.specs.Grammar.{item_from, items_from, items_of, report_header, nothing_behind};
ghost use Rattle.pol_report.specs.Reading.{TookLines, Ends, itself, OpensFew};

use crate::first_lines::first_line;
use crate::further_lines::{take_parts, take_sizes, take_steps};
use crate::limits::{MOST_ITEMS, MOST_STEPS};
use crate::opening::Opening;
use crate::text::{Text, refused};
use crate::{Item, Items};
use pol_text::{Line, LineFail, Lines, ReadFail, Word, number, significant};
use std::alloc::Global;

/// The items of the report that the text is, whose first line has the number `line`, or its first
/// refusal: `NoHeader` where there is no significant line and `Ended` where the `end` line is missing,
/// both at the number of the line that would come next. docs/FORMATS.md has the table of all words.
#[tactic(auto, unfolding(crate::specs::Grammar::items_of))]
pub fn read_items(alloc: Global, bytes: &[u8], line: u32) -> Result<Items, ReadFail>
    requires few { length bytes.now ≤ 2 ^ 28 }
    requires line { line ≤ 2 ^ 28 + 1 }
    ensures reads { Reads itself result (items_of bytes.now line) }
    // What is printed of items is read again.
    ensures again { (items : List Item) → ArePrintableItems items → bytes.now ≡ report_text items
        → Reads itself result (Ok items) }
{
    let text = Text::new(bytes, line);
    let mut lines = significant(bytes, line);
    let Some(header) = lines.next() else {
        return Err(text.ended(Word::NoHeader));
    };
    match report_header(&header) {
        Ok(_) => items_to_end(alloc, &text, lines),
        Err(word) => Err(refused(header.number(), word)),
    }
}

/// `polyanna-report 1`, which gives the version.
#[tactic(auto, unfolding(crate::specs::Grammar::report_header))]
fn report_header(line: &Line<'_>) -> Result<u32, Word>
    ensures judged { Judges result (report_header line.now.tokens) }
{
    if !line.begins_with(b"polyanna-report") {
        return Err(Word::NoHeader);
    }
    if line.count() != 2 {
        return Err(Word::BadVersion);
    }
    match number(line.token(1).unwrap_or(b"")) {
        Some(1) => Ok(1),
        _ => Err(Word::BadVersion),
    }
}

/// The items up to the line `end`.
fn items_to_end(alloc: Global, text: &Text<'_>, mut lines: Lines<'_>) -> Result<Items, ReadFail>
    ensures reads { Reads itself result (items_from text.now most_items most_steps lines.entry) }
{
    let mut items = Items::new(alloc);
    let mut left = MOST_STEPS;
    while let Some(line) = lines.next() {
        if line.begins_with(b"end") {
            nothing_behind(&line, lines)?;
            return Ok(items);
        }
        let opening = match first_line(alloc, items.len() < MOST_ITEMS, left, &line) {
            Ok(opening) => opening,
            Err(LineFail::Refused(word)) => return Err(refused(line.number(), word)),
            Err(LineFail::NoMemory) => return Err(ReadFail::NoMemory),
        };
        let item = take_item(alloc, text, &mut lines, opening)?;
        left = left.saturating_sub(steps_of(&item));
        items.push(item)?;
    }
    Err(text.ended(Word::Ended))
}

/// `end` alone, behind which no line is significant.
fn nothing_behind(end: &Line<'_>, mut lines: Lines<'_>) -> Result<(), ReadFail>
    ensures nothing { Ends result
        (after_line end.now (end_line end.now.tokens) (λ _. nothing_behind lines.entry)) }
{
    if end.count() != 1 {
        return Err(refused(end.number(), Word::BadLine));
    }
    match lines.next() {
        Some(line) => Err(refused(line.number(), Word::AfterEnd)),
        None => Ok(()),
    }
}

/// The item with the lines behind its first one.
fn take_item(
    alloc: Global,
    text: &Text<'_>,
    lines: &mut Lines<'_>,
    opening: Opening,
) -> Result<Item, ReadFail>
    requires few { OpensFew opening }
    ensures item { TookLines itself result lines.new (item_from text.now opening lines.old) }
{
    match opening {
        Opening::Whole(item) => Ok(item),
        Opening::Steps { name, kind, count } => {
            let log = take_steps(alloc, text, lines, count)?;
            Ok(Item::NoLog { name, kind, log })
        }
        Opening::Parts {
            name,
            labels,
            count,
        } => {
            let combination = take_parts(alloc, text, lines, &labels, count)?;
            Ok(Item::NoSum { name, combination })
        }
        Opening::SizesOfYes { name, values } => {
            let sizes = take_sizes(alloc, text, lines)?;
            Ok(Item::YesSizes {
                name,
                values,
                sizes,
            })
        }
        Opening::SizesOfNo { name } => {
            let sizes = take_sizes(alloc, text, lines)?;
            Ok(Item::NoSizes { name, sizes })
        }
    }
}

/// How many steps the item has.
fn steps_of(item: &Item) -> u32
    ensures steps { result ≡ steps_of item.now }
{
    match item {
        Item::NoLog { log, .. } => log.len(),
        _ => 0,
    }
}
