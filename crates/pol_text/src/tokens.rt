ghost use Rattle.std.specs.Prelude.{◌≡◌, ◌≤◌, ◌++◌, ℕ, List, codes, length, drop, not, option_map, slice_get, Some, IfSome, OnErr, OnOk};
ghost use Rattle.pol_outside.specs.Faults.{Rose};
ghost use Rattle.std.specs.Iterator.{YieldsFirstBy, item_count};
ghost use Rattle.std.specs.List.{position_or_len};
ghost use Rattle.pol_text.specs.Lines.{tokens_of, is_blank, begins_solid, number_of};
ghost use Rattle.pol_text.specs.Texts.{PutsIn};

use crate::Text;
use crate::decimals::{MOST_DIGITS, leading_number};
use std::marker::Model;

/// The tokens of a line, from left to right.
#[derive(Drop)]
pub struct Tokens<'a> {
    rest: &'a [u8],
}

impl<'a> Model for Tokens<'a> {
    ghost Value = { List (List ℕ) };

    ghost view = { λ t. tokens_of t.rest.now };
}

impl<'a> Tokens<'a> {
    /// Of a line without its end.
    pub(crate) fn new(text: &'a [u8]) -> Tokens<'a>
        ensures tokens { result ≡ tokens_of text.now }
    {
        Tokens { rest: text }
    }

    /// The number that the next token writes, as `number` reads it: `Some(None)` where it writes none, and
    /// None where no token is left. Reads each digit once.
    pub fn next_number(&mut self) -> Option<Option<u32>>
        ensures next { (result ≡ option_map number_of (slice_get self.old 0)) × (self.new ≡ drop 1 self.old) }
    {
        match lone_digit(self.rest) {
            Some((value, rest)) => {
                self.rest = rest;
                Some(Some(value))
            }
            None => self.any_number(),
        }
    }

    /// As `next_number`, whatever comes first.
    #[inline(never)]
    fn any_number(&mut self) -> Option<Option<u32>>
        ensures next { (result ≡ option_map number_of (slice_get self.old 0)) × (self.new ≡ drop 1 self.old) }
    {
        let (_, behind) = self.rest.split_at(blank_length(self.rest));
        if behind.is_empty() {
            return None;
        }
        let (value, length) = leading_number(behind);
        let (_, rest) = behind.split_at(length);
        if length <= MOST_DIGITS && !begins_solid(rest) {
            self.rest = rest;
            return Some(Some(value));
        }
        let (_, rest) = behind.split_at(solid_length(behind));
        self.rest = rest;
        Some(None)
    }
}

impl<'a> Iterator for Tokens<'a> {
    type Item = &'a [u8];

    ghost next_gives = { YieldsFirstBy (λ token. token.now) (λ t. t) };

    ghost remaining = { item_count (λ t. t) };

    fn next(&mut self) -> Option<&'a [u8]> {
        let (_, behind) = self.rest.split_at(blank_length(self.rest));
        if behind.is_empty() {
            return None;
        }
        let (token, rest) = behind.split_at(solid_length(behind));
        self.rest = rest;
        Some(token)
    }
}

/// The number of a first token that is one digit behind one blank, as in a log most are, and what comes behind it.
/// None also where another number comes first.
fn lone_digit(text: &[u8]) -> Option<(u32, &[u8])>
    ensures number { IfSome result (λ found. option_map number_of (slice_get (tokens_of text.now) 0) ≡ Some (Some found.0)) }
    ensures rest { IfSome result (λ found. tokens_of found.1.now ≡ drop 1 (tokens_of text.now)) }
{
    let [blank, digit, rest @ ..] = text else {
        return None;
    };
    if is_blank(*blank) && digit.is_ascii_digit() && !begins_solid(rest) {
        return Some((u32::from(*digit - b'0'), rest));
    }
    None
}

/// How many blanks stand at the front.
pub(crate) fn blank_length(text: &[u8]) -> usize
    ensures length { result ≡ position_or_len (λ b. not (is_blank b)) text.now }
    ensures within { result ≤ length text.now }
{
    text.iter()
        .position(|byte| !is_blank(*byte))
        .unwrap_or(text.len())
}

/// How long the token is that stands at the front.
fn solid_length(text: &[u8]) -> usize
    ensures length { result ≡ position_or_len is_blank text.now }
    ensures within { result ≤ length text.now }
{
    text.iter()
        .position(|byte| is_blank(*byte))
        .unwrap_or(text.len())
}

/// Whether a byte comes first that is no blank.
fn begins_solid(text: &[u8]) -> bool
    ensures solid { result ≡ begins_solid text.now }
{
    match text.first() {
        Some(byte) => !is_blank(*byte),
        None => false,
    }
}

/// A space or a tab.
fn is_blank(byte: u8) -> bool
    ensures blank { result ≡ is_blank byte }
{
    byte == b' ' || byte == b'\t'
}

/// Appends a space and the token. Where the text takes no more, a front of them is appended.
pub fn put_token<T: Text>(out: &mut T, token: &[u8]) -> Result<(), T::Fault>
    ensures puts { PutsIn result (T.bytes out.old) (T.bytes out.new) (codes " " ++ token.now) }
    ensures place { T.place out.new ≡ T.place out.old }
    ensures sent { T.sent out.old ≤ T.sent out.new }
    ensures calm { OnOk result (T.faults out.new ≡ T.faults out.old) }
    ensures fault { OnErr result (Rose (T.faults out.old) (T.faults out.new)) }
{
    out.append(b" ")?;
    out.append(token)
}
