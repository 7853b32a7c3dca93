ghost use Rattle.std.specs.Prelude.{◌≡◌, ℕ, ◌<◌, None, length, IfOk};
ghost use Rattle.std.specs.Io.{ReadsAtMost, WritesAtMost};
ghost use Rattle.std.specs.Io.KnownBytes.{Keeps, ReadConsumes, WriteAppends};
ghost use Rattle.pol_outside.specs.Faults.{HasCause, faults_after};
ghost use Rattle.pol_outside.specs.Adapters.{Counted};

use crate::streams::count_fault;
use crate::{Failed, Sink, Source};
use std::io::{Read, Write};
use std::marker::Model;

/// A source over any reader. It tells nothing of what is left, but where the reader tells what remains, its
/// reads say what they took of that. A read that the reader fails is a fault.
#[derive(Debug, Drop)]
pub struct ReaderSource<R> {
    reader: R,
    faults: u64,
}

impl<R> Model for ReaderSource<R> {
    ghost Value = { Counted R };

    ghost view = { λ s. record { stream = s.reader; faults = s.faults } };
}

impl<R: Read> ReaderSource<R> {
    /// The source over the reader, without a fault so far.
    pub fn new(reader: R) -> ReaderSource<R>
        ensures made { result ≡ record { stream = reader; faults = 0 } }
    {
        ReaderSource { reader, faults: 0 }
    }
}

impl<R: Read> Source for ReaderSource<R> {
    ghost left = { λ _. None };

    ghost faults = { λ s. s.faults };

    fn read(&mut self, into: &mut [u8]) -> Result<usize, Failed>
        ensures bound { ReadsAtMost result into.new }
        ensures bytes { ReadConsumes None None result into.new }
        ensures cause { HasCause self.old.faults self.new.faults result }
        ensures stream { ReadConsumes (R.remaining self.old.stream) (R.remaining self.new.stream) result into.new }
        ensures count { self.new.faults ≡ faults_after result self.old.faults }
    {
        match self.reader.read(into) {
            Ok(count) => Ok(count),
            Err(_) => Err(count_fault(&mut self.faults)),
        }
    }
}

/// A sink over any writer. It tells nothing of what was written, but where the writer tells what it holds, its
/// writes say what they added to that. A write that the writer fails is a fault, and so is one that takes none
/// of some bytes.
#[derive(Debug, Drop)]
pub struct WriterSink<W> {
    writer: W,
    faults: u64,
}

impl<W> Model for WriterSink<W> {
    ghost Value = { Counted W };

    ghost view = { λ s. record { stream = s.writer; faults = s.faults } };
}

impl<W: Write> WriterSink<W> {
    /// The sink over the writer, without a fault so far.
    pub fn new(writer: W) -> WriterSink<W>
        ensures made { result ≡ record { stream = writer; faults = 0 } }
    {
        WriterSink { writer, faults: 0 }
    }

    /// Flushes the writer. Where that fails it answers `Failed` and counts a fault. To be called once all is
    /// written.
    pub fn finish(&mut self) -> Result<(), Failed>
        ensures cause { HasCause self.old.faults self.new.faults result }
        ensures stream { Keeps (W.contents self.old.stream) (W.contents self.new.stream) }
        ensures count { self.new.faults ≡ faults_after result self.old.faults }
    {
        match self.writer.flush() {
            Ok(()) => Ok(()),
            Err(_) => Err(count_fault(&mut self.faults)),
        }
    }
}

impl<W: Write> Sink for WriterSink<W> {
    ghost written = { λ _. None };

    ghost faults = { λ s. s.faults };

    // a writer that takes none of some bytes would be asked for ever
    fn write(&mut self, piece: &[u8]) -> Result<usize, Failed>
        ensures bound { WritesAtMost result piece.now }
        ensures moves { IfOk result (λ n. 0 < length piece.now → 0 < n) }
        ensures bytes { WriteAppends None None result piece.now }
        ensures cause { HasCause self.old.faults self.new.faults result }
        ensures stream { WriteAppends (W.contents self.old.stream) (W.contents self.new.stream) result piece.now }
        ensures count { self.new.faults ≡ faults_after result self.old.faults }
    {
        match self.writer.write(piece) {
            Ok(count) if count > 0 || piece.is_empty() => Ok(count),
            _ => Err(count_fault(&mut self.faults)),
        }
    }
}
