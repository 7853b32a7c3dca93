ghost use Rattle.std.specs.Prelude.{◌≡◌, ℕ, ◌<◌, ◌≤◌, List, length, Option, IfOk};
ghost use Rattle.std.specs.Io.{ReadsAtMost, WritesAtMost};
ghost use Rattle.std.specs.Io.KnownBytes.{ReadConsumes, WriteAppends};
ghost use Rattle.pol_outside.specs.Faults.{HasCause, one_more};

/// A read, a write or the flush of a writer failed, and moved no byte. The cause is not kept.
#[derive(Clone, Copy, Debug, PartialEq, Eq)]
pub struct Failed;

/// Where bytes come from, in pieces of any size. Its count of faults never falls, and rises, up to 2^64 - 1,
/// at each read that fails and at no other.
pub trait Source {
    // what is left, where the source tells it
    ghost left: { Self → Option (List ℕ) };
    // a count that never falls, and rises at each read that fails and at no other
    ghost faults: { Self → ℕ };

    /// Puts the first of what is left at the front of the buffer and answers how many bytes those are, which
    /// may be fewer than fit. That is 0 only at the end, or for an empty buffer. A read that fails takes
    /// none.
    fn read(&mut self, into: &mut [u8]) -> Result<usize, Failed>
        ensures bound { ReadsAtMost result into.new }
        ensures bytes { ReadConsumes (left self.old) (left self.new) result into.new }
        ensures cause { HasCause (faults self.old) (faults self.new) result };
}

/// Where bytes go, in pieces of any size. Its count of faults never falls, and rises, up to 2^64 - 1, at
/// each write that fails and at no other.
pub trait Sink {
    // what was written, where the sink tells it
    ghost written: { Self → Option (List ℕ) };
    // a count that never falls, and rises at each write that fails and at no other
    ghost faults: { Self → ℕ };

    /// Takes some bytes from the front of the piece and answers how many those are, at least one of a piece
    /// that is not empty. A write that fails takes none.
    fn write(&mut self, piece: &[u8]) -> Result<usize, Failed>
        ensures bound { WritesAtMost result piece.now }
        ensures moves { IfOk result (λ n. 0 < length piece.now → 0 < n) }
        ensures bytes { WriteAppends (written self.old) (written self.new) result piece.now }
        ensures cause { HasCause (faults self.old) (faults self.new) result };
}

// Counts a fault.
pub(crate) fn count_fault(faults: &mut u64) -> Failed
    ensures count { faults.new ≡ one_more faults.old }
    ensures later { faults.old ≤ faults.new }
{
    *faults = faults.saturating_add(1);
    Failed
}
