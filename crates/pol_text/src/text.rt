ghost use Rattle.std.specs.Prelude.{◌≡◌, ℕ, ◌-◌, ◌^◌, ◌≤◌, List, Option, Some, OnOk, OnErr};
ghost use Rattle.pol_outside.specs.Faults.{Rose};
ghost use Rattle.pol_text.specs.Texts.{PutsIn};

use pol_base::{NoMemory, Values};

/// A text that grows at its end: bytes in memory, or what is on its way to a sink.
pub trait Text {
    /// Why a text takes no more.
    type Fault;

    // what was appended, where it is told
    ghost bytes: { Self → Option (List ℕ) };

    // the reference behind which it stands, if any
    ghost place: { Self → ℕ };

    // how many of the bytes have been written, where that is told
    ghost sent: { Self → ℕ };

    // a count of faults, which may stand at 2^64 - 1
    ghost faults: { Self → ℕ };

    /// Appends the bytes.
    fn append(&mut self, more: &[u8]) -> Result<(), Self::Fault>
        ensures puts { PutsIn result (bytes self.old) (bytes self.new) more.now }
        ensures place { place self.new ≡ place self.old }
        ensures sent { sent self.old ≤ sent self.new }
        ensures calm { OnOk result (faults self.new ≡ faults self.old) }
        ensures fault { OnErr result (Rose (faults self.old) (faults self.new)) };
}

// Bytes in memory count no faults: want of memory is none.
impl Text for Values {
    type Fault = NoMemory;

    ghost bytes = { λ values. Some values };

    ghost place = { λ _. 0 };

    ghost sent = { λ _. 0 };

    ghost faults = { λ _. 2 ^ 64 - 1 };

    fn append(&mut self, more: &[u8]) -> Result<(), NoMemory> {
        self.append(more)
    }
}
