ghost use Rattle.std.specs.Prelude.{◌≡◌, ◌-◌, ◌∷◌, ◌<◌, ◌≤◌, length, Ok, IfOk};
ghost use Rattle.pol_report.specs.Tokens.{one, counted, listed, to_end, some_to_end, is_done, as_number, as_value, as_count, as_name, as_class, as_keyword};
ghost use Rattle.pol_report.specs.Certificates.{pair_from};
ghost use Rattle.pol_report.specs.Reading.{Took, Takes, itself, all_behind, pair_named};

use crate::limits::{LARGEST_VALUE, MOST_REFERENCES};
use pol_base::{ClassName, Numbers, Values, class_of};
use pol_nogood::Nogood;
use pol_text::{LineFail, Tokens, Word, is_name, number};
use std::alloc::Global;

/// The token that is next.
pub(crate) fn take<'a>(tokens: &mut Tokens<'a>) -> Result<&'a [u8], LineFail>
    ensures took { Took (λ t. t.now) result tokens.new (one (λ t. Ok t) tokens.old) }
{
    tokens.next().ok_or(LineFail::Refused(Word::BadLine))
}

/// Whether no token is left.
pub(crate) fn is_done(mut tokens: Tokens<'_>) -> bool
    ensures done { result ≡ is_done tokens.entry }
{
    tokens.next().is_none()
}

/// The keyword.
#[tactic(auto, unfolding(crate::specs::Tokens::as_keyword))]
pub(crate) fn take_keyword<'a>(
    tokens: &mut Tokens<'a>,
    keyword: &[u8],
) -> Result<&'a [u8], LineFail>
    ensures took { Took (λ t. t.now) result tokens.new (one (as_keyword keyword.now) tokens.old) }
{
    let token = take(tokens)?;
    if token != keyword {
        return Err(LineFail::Refused(Word::BadLine));
    }
    Ok(token)
}

/// A name.
#[tactic(auto, unfolding(crate::specs::Tokens::as_name))]
pub(crate) fn take_name<'a>(tokens: &mut Tokens<'a>) -> Result<&'a [u8], LineFail>
    ensures took { Took (λ t. t.now) result tokens.new (one as_name tokens.old) }
{
    let Some(token) = tokens.next() else {
        return Err(LineFail::Refused(Word::BadLine));
    };
    if is_name(token) {
        Ok(token)
    } else {
        Err(LineFail::Refused(Word::BadName))
    }
}

/// The word of a class.
pub(crate) fn take_class(tokens: &mut Tokens<'_>) -> Result<ClassName, LineFail>
    ensures took { Took itself result tokens.new (one as_class tokens.old) }
{
    let token = take(tokens)?;
    match class_of(token) {
        Some(kind) => Ok(kind),
        None => Err(LineFail::Refused(Word::BadLine)),
    }
}

/// The number that the token writes.
#[tactic(auto, unfolding(crate::specs::Tokens::as_number))]
fn number_in(token: &[u8]) -> Result<u32, LineFail>
    ensures number { Takes itself result (as_number token.now) }
{
    number(token).ok_or(LineFail::Refused(Word::BadNumber))
}

/// A number.
#[tactic(auto, unfolding(crate::specs::Tokens::as_number))]
pub(crate) fn take_number(tokens: &mut Tokens<'_>) -> Result<u32, LineFail>
    ensures took { Took itself result tokens.new (one as_number tokens.old) }
{
    match tokens.next_number() {
        Some(Some(n)) => Ok(n),
        Some(None) => Err(LineFail::Refused(Word::BadNumber)),
        None => Err(LineFail::Refused(Word::BadLine)),
    }
}

/// The value that the token writes.
#[tactic(auto, unfolding(crate::specs::Tokens::as_value))]
fn value_in(token: &[u8]) -> Result<u8, LineFail>
    ensures value { Takes itself result (as_value token.now) }
{
    match number(token) {
        Some(n) if n <= u32::from(LARGEST_VALUE) => Ok(n as u8),
        Some(_) => Err(LineFail::Refused(Word::ValueOutside)),
        None => Err(LineFail::Refused(Word::BadNumber)),
    }
}

/// A value.
#[tactic(auto, unfolding(crate::specs::Tokens::as_value))]
pub(crate) fn take_value(tokens: &mut Tokens<'_>) -> Result<u8, LineFail>
    ensures took { Took itself result tokens.new (one as_value tokens.old) }
{
    match tokens.next_number() {
        Some(Some(n)) if n <= u32::from(LARGEST_VALUE) => Ok(n as u8),
        Some(Some(_)) => Err(LineFail::Refused(Word::ValueOutside)),
        Some(None) => Err(LineFail::Refused(Word::BadNumber)),
        None => Err(LineFail::Refused(Word::BadLine)),
    }
}

/// A number that is at most so great, and else the word.
#[tactic(auto, unfolding(crate::specs::Tokens::as_count))]
pub(crate) fn take_count(tokens: &mut Tokens<'_>, most: u32, word: Word) -> Result<u32, LineFail>
    ensures took { Took itself result tokens.new (one (as_count most word) tokens.old) }
    ensures few { IfOk result (λ n. n ≤ most) }
{
    match tokens.next_number() {
        Some(Some(n)) if n <= most => Ok(n),
        Some(Some(_)) => Err(LineFail::Refused(word)),
        Some(None) => Err(LineFail::Refused(Word::BadNumber)),
        None => Err(LineFail::Refused(Word::BadLine)),
    }
}

/// A variable and a value.
fn take_pair(tokens: &mut Tokens<'_>) -> Result<(u32, u8), LineFail>
    ensures took { Took pair_named result tokens.new (pair_from tokens.old) }
{
    let variable = take_number(tokens)?;
    let value = take_value(tokens)?;
    Ok((variable, value))
}

/// So many pairs.
fn take_pairs(tokens: &mut Tokens<'_>, count: u32) -> Result<Nogood, LineFail>
    requires few { count ≤ 3 }
    ensures took { Took itself result tokens.new (counted pair_from count tokens.old) }
{
    let mut nogood = Nogood::new();
    for _ in 0..count {
        let (variable, value) = take_pair(tokens)?;
        let _added = nogood.push(variable, value);
    }
    Ok(nogood)
}

/// The number of pairs, and the pairs.
pub(crate) fn take_nogood(tokens: &mut Tokens<'_>) -> Result<Nogood, LineFail>
    ensures took { Took itself result tokens.new (listed 3 pair_from tokens.old) }
{
    let count = take_count(tokens, 3, Word::BadLine)?;
    take_pairs(tokens, count)
}

/// So many numbers.
fn take_numbers(alloc: Global, tokens: &mut Tokens<'_>, count: u32) -> Result<Numbers, LineFail>
    ensures took { Took itself result tokens.new (counted (one as_number) count tokens.old) }
{
    let mut numbers = Numbers::new(alloc);
    for _ in 0..count {
        numbers.push(take_number(tokens)?)?;
    }
    Ok(numbers)
}

/// The number of references, and the references.
pub(crate) fn take_references(alloc: Global, tokens: &mut Tokens<'_>) -> Result<Numbers, LineFail>
    ensures took { Took itself result tokens.new (listed 128 (one as_number) tokens.old) }
{
    let count = take_count(tokens, MOST_REFERENCES as u32, Word::BadLine)?;
    take_numbers(alloc, tokens, count)
}

/// The values, and behind them those of the tokens, at most so many in all.
fn more_values(mut values: Values, tokens: Tokens<'_>, most: usize) -> Result<Values, LineFail>
    requires few { length values ≤ most }
    ensures values { Takes itself result
        (all_behind values (to_end as_value (most - length values) tokens.entry)) }
{
    for token in tokens {
        if values.as_slice().len() == most {
            return Err(LineFail::Refused(Word::BadLine));
        }
        values.push(value_in(token)?)?;
    }
    Ok(values)
}

/// The token and those behind it, at most so many, each a value.
pub(crate) fn values_from(
    alloc: Global,
    first: &[u8],
    tokens: Tokens<'_>,
    most: usize,
) -> Result<Values, LineFail>
    requires some { 1 ≤ most }
    ensures values { Takes itself result (to_end as_value most (first.now ∷ tokens.entry)) }
{
    let mut values = Values::new(alloc);
    values.push(value_in(first)?)?;
    more_values(values, tokens, most)
}

/// The tokens that are left, at least one and at most so many, each a value.
pub(crate) fn some_values(
    alloc: Global,
    mut tokens: Tokens<'_>,
    most: usize,
) -> Result<Values, LineFail>
    requires some { 1 ≤ most }
    ensures values { Takes itself result (some_to_end as_value most tokens.entry) }
{
    match tokens.next() {
        Some(first) => values_from(alloc, first, tokens, most),
        None => Err(LineFail::Refused(Word::BadLine)),
    }
}

/// The numbers, and behind them those of the tokens, at most so many in all.
fn more_numbers(mut numbers: Numbers, tokens: Tokens<'_>, most: usize) -> Result<Numbers, LineFail>
    requires few { length numbers ≤ most }
    ensures numbers { Takes itself result
        (all_behind numbers (to_end as_number (most - length numbers) tokens.entry)) }
{
    for token in tokens {
        if numbers.as_slice().len() == most {
            return Err(LineFail::Refused(Word::BadLine));
        }
        numbers.push(number_in(token)?)?;
    }
    Ok(numbers)
}

/// The tokens that are left, at least one and at most so many, each a number.
pub(crate) fn some_numbers(
    alloc: Global,
    mut tokens: Tokens<'_>,
    most: usize,
) -> Result<Numbers, LineFail>
    requires some { 1 ≤ most }
    ensures numbers { Takes itself result (some_to_end as_number most tokens.entry) }
{
    let Some(first) = tokens.next() else {
        return Err(LineFail::Refused(Word::BadLine));
    };
    let mut numbers = Numbers::new(alloc);
    numbers.push(number_in(first)?)?;
    more_numbers(numbers, tokens, most)
}
