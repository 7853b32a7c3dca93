ghost use Rattle.std.specs.Prelude.{◌≡◌, ℕ, ◌+◌, ◌≤◌, min, Some, None, List, length, IfOk, IsOk};
ghost use Rattle.std.specs.Io.{ReadsAtMost, WritesAtMost};
ghost use Rattle.std.specs.Io.KnownBytes.{ReadConsumes, WriteAppends};
ghost use Rattle.pol_outside.specs.Faults.{HasCause};
ghost use Rattle.pol_outside.specs.Memory.{CalmView};

use crate::{Failed, Sink, Source};
use std::marker::Model;

/// A source over bytes in memory, which gives them in pieces and never fails.
#[derive(Debug, Drop)]
pub struct CalmSource<'a> {
    left: &'a [u8],
    chunk: usize,
}

impl<'a> Model for CalmSource<'a> {
    ghost Value = { CalmView };

    ghost view = { λ s. record { left = s.left.now; chunk = s.chunk } };

    ghost invariant = { λ s. 1 ≤ s.chunk };
}

impl<'a> CalmSource<'a> {
    /// The source of these bytes. A read gives as many as there are and fit, but at most `chunk`, which is to
    /// be at least 1.
    pub fn new(bytes: &'a [u8], chunk: usize) -> CalmSource<'a>
        requires chunk { 1 ≤ chunk }
        ensures made { result ≡ record { left = bytes.now; chunk = chunk } }
    {
        CalmSource { left: bytes, chunk }
    }
}

impl<'a> Source for CalmSource<'a> {
    ghost left = { λ s. Some s.left };

    ghost faults = { λ _. 0 };

    fn read(&mut self, into: &mut [u8]) -> Result<usize, Failed>
        ensures bound { ReadsAtMost result into.new }
        ensures bytes { ReadConsumes (Some self.old.left) (Some self.new.left) result into.new }
        ensures cause { HasCause 0 0 result }
        ensures gives { IfOk result (λ n. n ≡ min self.old.chunk (min (length into.new) (length self.old.left))) }
        ensures chunk { self.new.chunk ≡ self.old.chunk }
    {
        let count = self.chunk.min(into.len()).min(self.left.len());
        into[..count].copy_from_slice(&self.left[..count]);
        self.left = &self.left[count..];
        Ok(count)
    }
}

/// A sink that takes every piece whole, keeps nothing and never fails.
#[derive(Clone, Copy, Debug, PartialEq, Eq)]
pub struct QuietSink;

impl QuietSink {
    /// The sink. It has no state, so there is nothing to choose, and one stands for any other.
    pub fn new() -> QuietSink
        ensures made { result ≡ record {} }
    {
        QuietSink
    }
}

impl Sink for QuietSink {
    ghost written = { λ _. None };

    ghost faults = { λ _. 0 };

    fn write(&mut self, piece: &[u8]) -> Result<usize, Failed>
        ensures bound { WritesAtMost result piece.now }
        ensures moves { IfOk result (λ n. 1 ≤ length piece.now → 1 ≤ n) }
        ensures bytes { WriteAppends None None result piece.now }
        ensures cause { HasCause 0 0 result }
        ensures whole { IfOk result (λ n. n ≡ length piece.now) }
    {
        Ok(piece.len())
    }
}
