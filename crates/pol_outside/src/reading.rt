ghost use Rattle.std.specs.Prelude.{◌≡◌, ℕ, ◌+◌, ◌-◌, ◌*◌, ◌^◌, ◌<◌, ◌≤◌, ◌++◌, List, length, IfOk, OnOk, OnErr, IsErrOf};
ghost use Rattle.std.specs.Io.KnownBytes.{Consumes, IsAtEnd};
ghost use Rattle.pol_outside.specs.Contents.{Takes, TakesAtMost};
ghost use Rattle.pol_outside.specs.Faults.{Rose};

use crate::Source;
use pol_base::{NoMemory, Values};
use std::alloc::Global;

/// Why `read_all` did not answer what a source has. The bytes that were taken are lost.
#[derive(Clone, Copy, Debug, PartialEq, Eq)]
pub enum TakeFault {
    /// A read failed. At most `limit` bytes were taken before it.
    ReadFault,
    /// There are more than `limit` bytes; `limit` + 1 of them were taken.
    TooLong,
    /// No memory was found for the bytes. At most `limit` + 1 of them were taken.
    NoMemory,
}

impl From<NoMemory> for TakeFault {
    ghost use Rattle.pol_outside.specs.declared.reading.TakeFault.TheVariants.{NoMemory};

    ghost from_gives = { λ _ fault. fault ≡ NoMemory };

    fn from(_error: NoMemory) -> TakeFault {
        TakeFault::NoMemory
    }
}

// the most that one read is asked for
const PIECE: usize = 16_384;

/// Takes all bytes of the source up to its end, and answers them where they are at most `limit`, which is to
/// be at most 2^28. A read that fails ends it, and so does the first byte beyond the limit.
pub fn read_all<S: Source>(alloc: Global, source: &mut S, limit: u64) -> Result<Values, TakeFault>
    requires limit { limit ≤ 2 ^ 28 }
    ensures bytes { IfOk result (Consumes (S.left source.old) (S.left source.new)) }
    ensures end { OnOk result (IsAtEnd (S.left source.new)) }
    ensures within { IfOk result (λ taken. length taken ≤ limit) }
    ensures later { S.faults source.old ≤ S.faults source.new }
    ensures read_fault { IsErrOf result TakeFault.ReadFault → Rose (S.faults source.old) (S.faults source.new) }
    ensures taken { IsErrOf result TakeFault.ReadFault
        → TakesAtMost (S.left source.old) (S.left source.new) limit }
    ensures too_long { IsErrOf result TakeFault.TooLong
        → Takes (S.left source.old) (S.left source.new) (limit + 1) }
    ensures no_memory { IsErrOf result TakeFault.NoMemory
        → TakesAtMost (S.left source.old) (S.left source.new) (limit + 1) }
    ensures calm { ¬ IsErrOf result TakeFault.ReadFault → S.faults source.new ≡ S.faults source.old }
{
    let mut taken = Values::new(alloc);
    loop {
        if take_more(source, &mut taken, limit)? == 0 {
            return Ok(taken);
        }
    }
}

// Takes what one read gives, at most one byte beyond the limit, and answers how many bytes it took.
fn take_more<S: Source>(source: &mut S, taken: &mut Values, limit: u64) -> Result<usize, TakeFault>
    requires limit { limit ≤ 2 ^ 28 }
    requires held { length taken.old ≤ limit }
    ensures bytes { IfOk result (λ n. (more : List ℕ) × Consumes (S.left source.old) (S.left source.new) more
        × (length more ≡ n) × (taken.new ≡ taken.old ++ more)) }
    ensures end { IfOk result (λ n. n ≡ 0 → IsAtEnd (S.left source.new)) }
    ensures within { OnOk result (length taken.new ≤ limit) }
    ensures later { S.faults source.old ≤ S.faults source.new }
    ensures read_fault { IsErrOf result TakeFault.ReadFault → Rose (S.faults source.old) (S.faults source.new) }
    ensures none_taken { IsErrOf result TakeFault.ReadFault → Takes (S.left source.old) (S.left source.new) 0 }
    ensures too_long { IsErrOf result TakeFault.TooLong
        → Takes (S.left source.old) (S.left source.new) (limit + 1 - length taken.old) }
    ensures no_memory { IsErrOf result TakeFault.NoMemory
        → TakesAtMost (S.left source.old) (S.left source.new) (limit - length taken.old) }
    ensures calm { ¬ IsErrOf result TakeFault.ReadFault → S.faults source.new ≡ S.faults source.old }
{
    let room = limit as usize - taken.as_slice().len();
    let mut buffer = [0u8; PIECE];
    let wanted = PIECE.min(room + 1);
    let Ok(count) = source.read(&mut buffer[..wanted]) else {
        return Err(TakeFault::ReadFault);
    };
    if count > room {
        return Err(TakeFault::TooLong);
    }
    taken.append(&buffer[..count])?;
    Ok(count)
}
