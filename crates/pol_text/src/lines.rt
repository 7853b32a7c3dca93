ghost use Rattle.std.specs.Prelude.{◌≡◌, ℕ, ◌+◌, ◌<◌, ◌≤◌, ◌==◌, ◌^◌, List, ◌∷◌, length, take, drop, count_by, slice_get, option_map};
ghost use Rattle.std.specs.Iterator.{YieldsFirst, item_count};
ghost use Rattle.pol_text.specs.Lines.{LineView, lines_of, without_last, line_text, tokens_of, is_significant, significant_among, significant_lines};
ghost use Rattle.pol_text.specs.Reading.{begins_with};

use crate::Tokens;
use crate::tokens::blank_length;
use memchr::memchr;
use std::marker::Model;

const LF: u8 = b'\n';

const CR: u8 = b'\r';

/// A significant line: it has a token, and its first token does not begin with `#`.
#[derive(Drop)]
pub struct Line<'a> {
    number: u32,
    text: &'a [u8],
    after: usize,
}

impl<'a> Model for Line<'a> {
    ghost Value = { LineView };

    ghost view = { λ l. record { number = l.number; tokens = tokens_of l.text.now; after = l.after } };

    ghost invariant = { λ l. l.number + 1 < 2 ^ 32 };
}

impl<'a> Line<'a> {
    /// The number of the line, where the lines before it count too.
    pub fn number(&self) -> u32
        ensures number { result ≡ self.now.number }
    {
        self.number
    }

    /// The number of the line behind this one.
    pub fn next_number(&self) -> u32
        ensures number { result ≡ self.now.number + 1 }
    {
        self.number + 1
    }

    /// The place behind the line in the text that it is a line of, its LF included.
    pub fn after(&self) -> usize
        ensures place { result ≡ self.now.after }
    {
        self.after
    }

    /// The tokens, from left to right.
    pub fn tokens(&self) -> Tokens<'a>
        ensures tokens { result ≡ self.now.tokens }
        ensures few { length result < 2 ^ 64 }
    {
        Tokens::new(self.text)
    }

    /// How many tokens there are. Goes over the whole line.
    pub fn count(&self) -> usize
        ensures tokens { result ≡ length self.now.tokens }
    {
        self.tokens().count()
    }

    /// The token at place `i`, counted from 0. None where there are no more than `i` tokens. Goes over the line
    /// up to it.
    pub fn token(&self, i: usize) -> Option<&'a [u8]>
        ensures token { option_map (λ t. t.now) result ≡ slice_get self.now.tokens i }
    {
        self.tokens().nth(i)
    }

    /// Whether the first token is the keyword.
    pub fn begins_with(&self, keyword: &[u8]) -> bool
        ensures begins { result ≡ begins_with keyword.now self.now.tokens }
    {
        match self.token(0) {
            Some(token) => token == keyword,
            None => keyword.is_empty(),
        }
    }
}

/// The significant lines that are left of a text, in their order.
#[derive(Drop)]
pub struct Lines<'a> {
    rest: &'a [u8],
    number: u32,
    place: usize,
}

impl<'a> Model for Lines<'a> {
    ghost Value = { List LineView };

    ghost view = { λ l. significant_among l.number l.place (lines_of l.rest.now) };

    ghost invariant = { λ l. (l.number + length l.rest.now < 2 ^ 32) × (l.place + length l.rest.now < 2 ^ 64) };
}

/// The significant lines of the text, whose first line has the number `first`: those with a token, of which
/// the first does not begin with `#`. Takes no memory, and finds each line when it is asked for.
pub fn significant(bytes: &[u8], first: u32) -> Lines<'_>
    requires room { first + length bytes.now < 2 ^ 32 }
    ensures lines { result ≡ significant_lines first bytes.now }
{
    Lines {
        rest: bytes,
        number: first,
        place: 0,
    }
}

impl<'a> Iterator for Lines<'a> {
    type Item = Line<'a>;

    ghost next_gives = { YieldsFirst (λ l. l) };

    ghost remaining = { item_count (λ l. l) };

    fn next(&mut self) -> Option<Line<'a>> {
        while !self.rest.is_empty() {
            let (line, rest) = self.rest.split_at(line_length(self.rest));
            let number = self.number;
            self.rest = rest;
            self.number += 1;
            self.place += line.len();
            let text = without_end(line);
            if begins_significant(text) {
                return Some(Line {
                    number,
                    text,
                    after: self.place,
                });
            }
        }
        None
    }
}

/// How many lines the text has. What stands behind the last LF is a line where it is not empty.
pub fn count_lines(bytes: &[u8]) -> u32
    requires room { length bytes.now < 2 ^ 32 }
    ensures lines { result ≡ length (lines_of bytes.now) }
{
    let Some(last) = bytes.last() else {
        return 0;
    };
    let ended = line_ends(bytes) as u32;
    if *last == LF { ended } else { ended + 1 }
}

/// How many bytes are an LF.
fn line_ends(bytes: &[u8]) -> usize
    ensures ends { result ≡ count_by (λ b. b == 10) bytes.now }
{
    bytes.iter().filter(|byte| **byte == LF).count()
}

/// How long the first line is, its LF included.
fn line_length(bytes: &[u8]) -> usize
    ensures within { result ≤ length bytes.now }
    ensures some { 0 < length bytes.now → 0 < result }
    ensures first { 0 < length bytes.now
        → lines_of bytes.now ≡ take result bytes.now ∷ lines_of (drop result bytes.now) }
{
    match memchr(LF, bytes) {
        Some(place) => place + 1,
        None => bytes.len(),
    }
}

/// The line without its LF, and without one CR at its end.
fn without_end(line: &[u8]) -> &[u8]
    ensures text { result.now ≡ line_text line.now }
{
    without_last(without_last(line, LF), CR)
}

/// The bytes without the last one, where that is this byte.
fn without_last(bytes: &[u8], byte: u8) -> &[u8]
    ensures front { result.now ≡ without_last byte bytes.now }
{
    bytes.strip_suffix(&[byte]).unwrap_or(bytes)
}

/// Whether a line of this text is significant: it has a token, and the first one begins no comment.
fn begins_significant(text: &[u8]) -> bool
    ensures significant { result ≡ is_significant (tokens_of text.now) }
{
    let (_, behind) = text.split_at(blank_length(text));
    match behind.first() {
        Some(byte) => *byte != b'#',
        None => false,
    }
}
