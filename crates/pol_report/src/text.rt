ghost use Rattle.std.specs.Prelude.{◌≡◌, ◌+◌, ◌≤◌, ◌^◌, length};
ghost use Rattle.pol_text.specs.Lines.{lines_of};

use pol_text::{ReadFail, Refusal, Word, count_lines};
use std::marker::Model;

/// The whole text that is read, seen as the number of the line that would come next behind it.
/// Its lines are counted only where it ends too early.
#[derive(Drop)]
pub(crate) struct Text<'a> {
    bytes: &'a [u8],
    first: u32,
}

impl<'a> Model for Text<'a> {
    ghost use Rattle.std.specs.Prelude.{ℕ, ◌+◌, ◌≤◌, ◌^◌, length};
    ghost use Rattle.pol_text.specs.Lines.{lines_of};

    ghost Value = { ℕ };

    ghost view = { λ t. t.first + length (lines_of t.bytes.now) };

    ghost invariant = { λ t. (length t.bytes.now ≤ 2 ^ 28) × (t.first ≤ 2 ^ 28 + 1) };
}

impl<'a> Text<'a> {
    /// The text whose first line has the number `first`.
    pub(crate) fn new(bytes: &'a [u8], first: u32) -> Text<'a>
        requires few { length bytes.now ≤ 2 ^ 28 }
        requires line { first ≤ 2 ^ 28 + 1 }
        ensures last { result ≡ first + length (lines_of bytes.now) }
    {
        Text { bytes, first }
    }

    /// The refusal of a text that ends too early.
    pub(crate) fn ended(&self, word: Word) -> ReadFail
        ensures refused { result ≡ ReadFail.Refused (record { line = self.now; word = word }) }
    {
        refused(self.first + count_lines(self.bytes), word)
    }
}

pub(crate) fn refused(line: u32, word: Word) -> ReadFail
    ensures refused { result ≡ ReadFail.Refused (record { line = line; word = word }) }
{
    ReadFail::Refused(Refusal { line, word })
}
