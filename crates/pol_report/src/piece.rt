ghost use Rattle.std.specs.Prelude.{◌≡◌, ◌≤◌, [], drop, OnOk, OnErr};
ghost use Rattle.std.specs.Io.KnownBytes.{append_known, Keeps};
ghost use Rattle.arrayvec.specs.ArrayVec.{array_vec_len};
ghost use Rattle.pol_outside.specs.Faults.{Rose};
ghost use Rattle.pol_report.specs.Pieces.{known_length, piece_bytes};

use arrayvec::ArrayVec;
use pol_outside::{Sink, WriteFault, write_all};
use pol_text::Text;

/// The most bytes of a piece.
const ROOM: usize = 4096;

/// A text on its way to a sink, which is written piece by piece. Takes no memory.
#[derive(Drop)]
pub(crate) struct Piece<'a, O> {
    sink: &'a mut O,
    held: ArrayVec<u8, ROOM>,
    // how many of the held bytes are written
    from: usize,
    ghost within: { from ≤ array_vec_len held },
}

impl<'a, O: Sink> Piece<'a, O> {
    /// Nothing is on its way.
    pub(crate) fn new(sink: &'a mut O) -> Piece<'a, O>
        ensures same_reference { result.sink.ghost_name ≡ sink.entry.ghost_name }
        ensures sink { result.sink.now ≡ sink.old }
        ensures empty { drop result.from result.held.items ≡ [] }
    {
        Piece {
            sink,
            held: ArrayVec::new(),
            from: 0,
        }
    }

    /// Writes what is held.
    pub(crate) fn flush(&mut self) -> Result<(), WriteFault>
        ensures same_reference { self.new.sink.ghost_name ≡ self.old.sink.ghost_name }
        ensures bytes { Keeps (piece_bytes (O.written self.old.sink.now) self.old.from self.old.held.items)
            (piece_bytes (O.written self.new.sink.now) self.new.from self.new.held.items) }
        ensures empty { OnOk result (drop self.new.from self.new.held.items ≡ []) }
        ensures sent { known_length (O.written self.old.sink.now) ≤ known_length (O.written self.new.sink.now) }
        ensures calm { OnOk result (O.faults self.new.sink.now ≡ O.faults self.old.sink.now) }
        ensures fault { OnErr result (Rose (O.faults self.old.sink.now) (O.faults self.new.sink.now)) }
    {
        while self.from < self.held.len() {
            let (_, rest) = self.held.as_slice().split_at(self.from);
            let Ok(count) = self.sink.write(rest) else {
                return Err(WriteFault);
            };
            self.from += count;
        }
        self.from = 0;
        self.held.clear();
        Ok(())
    }
}

impl<'a, O: Sink> Text for Piece<'a, O> {
    type Fault = WriteFault;

    ghost bytes = { λ p. piece_bytes (O.written p.sink.now) p.from p.held.items };

    ghost place = { λ p. p.sink.ghost_name };

    ghost sent = { λ p. known_length (O.written p.sink.now) };

    ghost faults = { λ p. O.faults p.sink.now };

    fn append(&mut self, more: &[u8]) -> Result<(), WriteFault> {
        if self.held.try_extend_from_slice(more).is_ok() {
            return Ok(());
        }
        self.flush()?;
        if self.held.try_extend_from_slice(more).is_ok() {
            return Ok(());
        }
        write_all(self.sink, more)
    }
}
