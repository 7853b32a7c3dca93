ghost use Rattle.std.specs.Prelude.{◌≡◌, ℕ, ◌+◌, ◌-◌, ◌<◌, ◌≤◌, ◌⊎◌, ◌↔◌, min, Some, List, [], length, IfOk, IsErr, IsTrue, vec_len, vec_capacity};
ghost use Rattle.std.specs.Io.{ReadsAtMost, WritesAtMost};
ghost use Rattle.std.specs.Io.KnownBytes.{ReadConsumes, WriteAppends};
ghost use Rattle.pol_outside.specs.Faults.{HasCause, one_more, faults_after};
ghost use Rattle.pol_outside.specs.Memory.{SourceView, SinkView, fails_at, fault_count};

use crate::streams::count_fault;
use crate::{Failed, Sink, Source};
use pol_base::NoMemory;
use std::alloc::Global;
use std::marker::Model;

/// A source over bytes in memory, which gives them in pieces and fails at given calls. For tests of what
/// is done where a read is short or fails.
#[derive(Debug, Drop)]
pub struct MemorySource<'a> {
    left: &'a [u8],
    chunk: usize,
    failing: &'a [u32],
    calls: u64,
}

impl<'a> Model for MemorySource<'a> {
    ghost Value = { SourceView };

    ghost view = { λ s. record { left = s.left.now; chunk = s.chunk; failing = s.failing.now; calls = s.calls } };

    ghost invariant = { λ s. 0 < s.chunk };
}

impl<'a> MemorySource<'a> {
    /// The source of these bytes. A read gives as many as there are and fit, but at most `chunk`, which is to
    /// be at least 1. It fails, and takes nothing, exactly where its number is in `failing`. Reads are
    /// numbered from 0, those that fail and those for an empty buffer too.
    pub fn new(bytes: &'a [u8], chunk: usize, failing: &'a [u32]) -> MemorySource<'a>
        requires chunk { 1 ≤ chunk }
        ensures made { result ≡ record { left = bytes.now; chunk = chunk; failing = failing.now; calls = 0 } }
    {
        MemorySource {
            left: bytes,
            chunk,
            failing,
            calls: 0,
        }
    }
}

impl<'a> Source for MemorySource<'a> {
    ghost left = { λ s. Some s.left };

    ghost faults = { λ s. fault_count s.failing s.calls };

    fn read(&mut self, into: &mut [u8]) -> Result<usize, Failed>
        ensures bound { ReadsAtMost result into.new }
        ensures bytes { ReadConsumes (Some self.old.left) (Some self.new.left) result into.new }
        ensures cause { HasCause (fault_count self.old.failing self.old.calls)
            (fault_count self.new.failing self.new.calls) result }
        ensures fails { IsErr result ↔ IsTrue (fails_at self.old.failing self.old.calls) }
        ensures gives { IfOk result (λ n. n ≡ min self.old.chunk (min (length into.new) (length self.old.left))) }
        ensures number { self.new.calls ≡ one_more self.old.calls }
        ensures chunk { self.new.chunk ≡ self.old.chunk }
        ensures failing { self.new.failing ≡ self.old.failing }
    {
        let number = self.calls;
        self.calls = number.saturating_add(1);
        if is_failing(self.failing, number) {
            return Err(Failed);
        }
        let count = self.chunk.min(into.len()).min(self.left.len());
        into[..count].copy_from_slice(&self.left[..count]);
        self.left = &self.left[count..];
        Ok(count)
    }
}

/// A sink in memory, which takes bytes in pieces up to its room and fails at given calls. For tests of
/// what is done where a write is short or fails.
#[derive(Debug, Drop)]
pub struct MemorySink<'a> {
    bytes: Vec<u8>,
    room: usize,
    chunk: usize,
    failing: &'a [u32],
    calls: u64,
    faults: u64,
}

impl<'a> Model for MemorySink<'a> {
    ghost Value = { SinkView };

    ghost view = { λ s. record {
      bytes = s.bytes.items;
      room = s.room;
      chunk = s.chunk;
      failing = s.failing.now;
      calls = s.calls;
      faults = s.faults;
    } };

    ghost invariant = { λ s. (0 < s.chunk) × (vec_len s.bytes + s.room ≤ vec_capacity s.bytes) };
}

impl<'a> MemorySink<'a> {
    /// The empty sink with room for `room` bytes. A write takes at most `chunk`, which is to be at least 1.
    /// It fails exactly where its piece is not empty and no room is left or its number is in `failing`.
    /// Writes are numbered from 0, those that fail and those of an empty piece too; of an empty piece one
    /// takes 0. The memory for all the room is taken here, and no write takes any.
    pub fn new(
        alloc: Global,
        room: usize,
        chunk: usize,
        failing: &'a [u32],
    ) -> Result<MemorySink<'a>, NoMemory>
        requires chunk { 1 ≤ chunk }
        ensures made { IfOk result (λ sink. sink ≡ record {
          bytes = [];
          room = room;
          chunk = chunk;
          failing = failing.now;
          calls = 0;
          faults = 0;
        }) }
    {
        Ok(MemorySink {
            bytes: Vec::with_capacity(alloc, room)?,
            room,
            chunk,
            failing,
            calls: 0,
            faults: 0,
        })
    }

    /// All that was written so far, in its order.
    pub fn bytes(&self) -> &[u8]
        ensures bytes { result.now ≡ self.now.bytes }
    {
        self.bytes.as_slice()
    }
}

impl<'a> Sink for MemorySink<'a> {
    ghost written = { λ s. Some s.bytes };

    ghost faults = { λ s. s.faults };

    fn write(&mut self, piece: &[u8]) -> Result<usize, Failed>
        ensures bound { WritesAtMost result piece.now }
        ensures moves { IfOk result (λ n. 0 < length piece.now → 0 < n) }
        ensures bytes { WriteAppends (Some self.old.bytes) (Some self.new.bytes) result piece.now }
        ensures cause { HasCause self.old.faults self.new.faults result }
        ensures fails { IsErr result
            ↔ ((0 < length piece.now)
            × ((self.old.room ≡ 0) ⊎ IsTrue (fails_at self.old.failing self.old.calls))) }
        ensures takes { IfOk result (λ n. n ≡ min self.old.chunk (min (length piece.now) self.old.room)) }
        ensures room { self.new.room + length self.new.bytes ≡ self.old.room + length self.old.bytes }
        ensures count { self.new.faults ≡ faults_after result self.old.faults }
        ensures number { self.new.calls ≡ one_more self.old.calls }
        ensures chunk { self.new.chunk ≡ self.old.chunk }
        ensures failing { self.new.failing ≡ self.old.failing }
    {
        let number = self.calls;
        self.calls = number.saturating_add(1);
        if !piece.is_empty() && (self.room == 0 || is_failing(self.failing, number)) {
            return Err(count_fault(&mut self.faults));
        }
        let count = self.chunk.min(piece.len()).min(self.room);
        self.bytes.extend_from_slice(&piece[..count]).unwrap();
        self.room -= count;
        Ok(count)
    }
}

fn is_failing(failing: &[u32], number: u64) -> bool
    ensures failing { result ≡ fails_at failing.now number }
{
    match u32::try_from(number) {
        Ok(number) => failing.contains(&number),
        Err(_) => false,
    }
}
