ghost use Rattle.std.specs.Prelude.{◌↔◌, IsTrue};
ghost use Rattle.pol_modp.specs.Parts.{part_named};
ghost use Rattle.pol_nogood.specs.Steps.{step_named};
ghost use Rattle.pol_report.specs.Printable.{AreValues, IsShort, HasPlainYes, HasLogs, ArePrintablePairs, ArePrintableReferences, IsPrintableStep, IsPrintableLog, IsPrintablePart, ArePrintableParts, IsPrintableCombination, ArePrintableSizes, IsPrintable};

use crate::Item;
use pol_base::ClassName;
use pol_modp::{Combination, Part};
use pol_nogood::{Log, Nogood, Step};
use pol_text::is_name;

pub(crate) const MOST_ITEMS: u32 = 64;

pub(crate) const MOST_CELLS: usize = 625;

pub(crate) const MOST_VARIABLES: usize = 40;

pub(crate) const MOST_STEPS: u32 = 10_037_608;

pub(crate) const MOST_REFERENCES: usize = 128;

pub(crate) const MOST_LABELS: usize = 5;

pub(crate) const MOST_PARTS: u32 = 4096;

pub(crate) const MOST_COEFFICIENTS: usize = 6;

pub(crate) const MOST_SIZES: usize = 257;

pub(crate) const LARGEST_VALUE: u8 = 4;

const LARGEST_NUMBER: u32 = 999_999_999;

/// Whether the item is one that a report may have: its name is a name, its class is one that its form
/// allows, and its values, steps, references, parts, sizes and numbers are within the bounds of the format. Takes no
/// memory.
pub fn printable(item: &Item) -> bool
    ensures printable { IsTrue result ↔ IsPrintable item.now }
{
    match item {
        Item::ClassTable { cells, .. } => are_values(cells.as_slice(), MOST_CELLS),
        Item::ClassNone { .. } | Item::ClassBeyond => true,
        Item::Yes { name, kind, values } => {
            is_name(name.as_slice())
                && has_plain_yes(*kind)
                && are_values(values.as_slice(), MOST_VARIABLES)
        }
        Item::YesSizes {
            name,
            values,
            sizes,
        } => {
            is_name(name.as_slice())
                && are_values(values.as_slice(), MOST_VARIABLES)
                && are_printable_sizes(sizes.as_slice())
        }
        Item::NoLog { name, kind, log } => {
            is_name(name.as_slice()) && has_logs(*kind) && is_printable_log(log)
        }
        Item::NoSum { name, combination } => {
            is_name(name.as_slice()) && is_printable_combination(combination)
        }
        Item::NoSizes { name, sizes } => {
            is_name(name.as_slice()) && are_printable_sizes(sizes.as_slice())
        }
        Item::Undecided { name } => is_name(name.as_slice()),
    }
}

/// Whether there is a value, there are at most so many, and each is one of some domain.
fn are_values(values: &[u8], most: usize) -> bool
    ensures values { IsTrue result ↔ AreValues most values.now }
{
    !values.is_empty() && values.len() <= most && values.iter().all(|value| *value <= LARGEST_VALUE)
}

/// Whether the number has at most nine digits.
fn is_short(number: u32) -> bool
    ensures short { IsTrue result ↔ IsShort number }
{
    number <= LARGEST_NUMBER
}

/// Whether a Yes of the class is its values alone.
fn has_plain_yes(class: ClassName) -> bool
    ensures plain { IsTrue result ↔ HasPlainYes class }
{
    class != ClassName::Maltsev
}

/// Whether a No of the class is a log.
fn has_logs(class: ClassName) -> bool
    ensures logs { IsTrue result ↔ HasLogs class }
{
    class != ClassName::Affine && class != ClassName::Maltsev
}

fn is_printable_log(log: &Log) -> bool
    ensures printable { IsTrue result ↔ IsPrintableLog log.now }
{
    if log.len() > MOST_STEPS {
        return false;
    }
    for s in 0..log.len() {
        if !is_printable_step(log.step(s)) {
            return false;
        }
    }
    true
}

fn is_printable_step(step: &Step) -> bool
    ensures printable { IsTrue result ↔ IsPrintableStep (step_named step.now) }
{
    let number = match step {
        Step::ByConstraint { c, .. } => *c,
        Step::ByVariable { v, .. } => *v,
    };
    is_short(number)
        && are_printable_pairs(step.nogood())
        && are_printable_references(step.references())
}

fn are_printable_pairs(nogood: &Nogood) -> bool
    ensures printable { IsTrue result ↔ ArePrintablePairs nogood.now }
{
    for i in 0..nogood.len() {
        let (variable, value) = nogood.pair(i);
        if !is_short(variable) || value > LARGEST_VALUE {
            return false;
        }
    }
    true
}

/// Whether the numbers are not more than a step may refer to, and have at most nine digits.
fn are_printable_references(references: &[u32]) -> bool
    ensures printable { IsTrue result ↔ ArePrintableReferences references.now }
{
    references.len() <= MOST_REFERENCES && references.iter().all(|reference| is_short(*reference))
}

fn is_printable_combination(combination: &Combination) -> bool
    ensures printable { IsTrue result ↔ IsPrintableCombination combination.now }
{
    are_values(combination.labels(), MOST_LABELS) && are_printable_parts(combination)
}

fn are_printable_parts(combination: &Combination) -> bool
    ensures printable { IsTrue result ↔ ArePrintableParts combination.now.parts }
{
    if combination.len() > MOST_PARTS {
        return false;
    }
    for i in 0..combination.len() {
        if !is_printable_part(combination.part(i)) {
            return false;
        }
    }
    true
}

fn is_printable_part(part: &Part) -> bool
    ensures printable { IsTrue result ↔ IsPrintablePart (part_named part.now) }
{
    is_short(part.c)
        && part.multiplier <= LARGEST_VALUE
        && part.right <= LARGEST_VALUE
        && are_values(part.coefs.as_slice(), MOST_COEFFICIENTS)
}

/// Whether there is a size, there are at most so many as a run has, and each has at most nine digits.
fn are_printable_sizes(sizes: &[u32]) -> bool
    ensures printable { IsTrue result ↔ ArePrintableSizes sizes.now }
{
    !sizes.is_empty() && sizes.len() <= MOST_SIZES && sizes.iter().all(|size| is_short(*size))
}
