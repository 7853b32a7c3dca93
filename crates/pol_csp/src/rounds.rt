ghost use Rattle.std.specs.Prelude.{◌≡◌, ◌<◌, ◌≤◌, length, All, IfOk};
ghost use Rattle.std.specs.Bool.{OnTrue, OnFalse};
ghost use Rattle.std.specs.List.{sum};
ghost use Rattle.pol_base.specs.Masks.{AreMasks};
ghost use Rattle.pol_relation.specs.Instances.{FitsAt};
ghost use Rattle.pol_csp.specs.Narrowing.{MeetsAll, Narrows, Rejects};

use crate::Pool;
use crate::hints::Hints;
use crate::index::Index;
use crate::queue::{Queue, masks_at};
use pol_base::NoMemory;

/// Revises the constraint with a number.
fn revise_at(pool: &Pool, index: &Index<'_>, c: usize, masks: &mut [u8]) -> bool
    requires known { c < length pool.now }
    requires masks { AreMasks 5 masks.old }
    requires fits { All (FitsAt index.now (length masks.old)) pool.now }
    ensures narrows { OnTrue result (Narrows (MeetsAll index.now pool.now) masks.old masks.new) }
    ensures wiped { OnFalse result (Rejects (MeetsAll index.now pool.now) masks.old) }
{
    index.revise(pool.relation_of(c), pool.scope(c), masks)
}

/// Revises the constraint with a number; those that read a cell whose mask changed wait.
fn revise_waiting(
    pool: &Pool,
    index: &Index<'_>,
    c: usize,
    queue: &mut Queue,
    masks: &mut [u8],
) -> Result<bool, NoMemory>
    requires known { c < length pool.now }
    requires masks { AreMasks 5 masks.old }
    requires fits { All (FitsAt index.now (length masks.old)) pool.now }
    ensures narrows { IfOk result (λ yes. OnTrue yes (Narrows (MeetsAll index.now pool.now) masks.old masks.new)) }
    ensures wiped { IfOk result (λ yes. OnFalse yes (Rejects (MeetsAll index.now pool.now) masks.old)) }
{
    let before = masks_at(pool.scope(c), masks);
    if !revise_at(pool, index, c, masks) {
        return Ok(false);
    }
    queue.touch_changed(pool.scope(c), &before, masks)?;
    Ok(true)
}

/// Revises the constraint that failed last, if there is one; those that read a cell whose mask changed wait.
pub(crate) fn revise_last(
    pool: &Pool,
    index: &Index<'_>,
    hints: &mut Hints,
    masks: &mut [u8],
) -> Result<bool, NoMemory>
    requires masks { AreMasks 5 masks.old }
    requires fits { All (FitsAt index.now (length masks.old)) pool.now }
    ensures narrows { IfOk result (λ yes. OnTrue yes (Narrows (MeetsAll index.now pool.now) masks.old masks.new)) }
    ensures wiped { IfOk result (λ yes. OnFalse yes (Rejects (MeetsAll index.now pool.now) masks.old)) }
{
    if hints.last < pool.len() {
        return revise_waiting(pool, index, hints.last, &mut hints.queue, masks);
    }
    Ok(true)
}

/// Revises once each constraint that waits, up to one that fails.
fn round(
    pool: &Pool,
    index: &Index<'_>,
    hints: &mut Hints,
    masks: &mut [u8],
) -> Result<bool, NoMemory>
    requires masks { AreMasks 5 masks.old }
    requires fits { All (FitsAt index.now (length masks.old)) pool.now }
    ensures narrows { IfOk result (λ yes. OnTrue yes (Narrows (MeetsAll index.now pool.now) masks.old masks.new)) }
    ensures wiped { IfOk result (λ yes. OnFalse yes (Rejects (MeetsAll index.now pool.now) masks.old)) }
{
    let count = hints.queue.turn();
    for place in 0..count {
        let c = hints.queue.take(place);
        if c >= pool.len() {
            continue;
        }
        let kept = revise_waiting(pool, index, c, &mut hints.queue, masks)?;
        if !kept {
            hints.last = c;
            hints.queue.clear();
            return Ok(false);
        }
    }
    Ok(true)
}

/// The sum of the masks as numbers, which falls where a value is dropped.
fn total(masks: &[u8]) -> u32
    requires few { length masks.now ≤ 4096 }
    ensures sum { result ≡ sum masks.now }
{
    let mut total = 0u32;
    for mask in masks {
        total += *mask as u32;
    }
    total
}

/// Revises the constraints that wait, and those from the number `seen` on, in rounds until nothing changes,
/// and answers whether each cell keeps a value.
pub(crate) fn propagate(
    pool: &Pool,
    index: &Index<'_>,
    hints: &mut Hints,
    seen: usize,
    masks: &mut [u8],
) -> Result<bool, NoMemory>
    requires few { length masks.old ≤ 4096 }
    requires masks { AreMasks 5 masks.old }
    requires fits { All (FitsAt index.now (length masks.old)) pool.now }
    ensures narrows { IfOk result (λ yes. OnTrue yes (Narrows (MeetsAll index.now pool.now) masks.old masks.new)) }
    ensures wiped { IfOk result (λ yes. OnFalse yes (Rejects (MeetsAll index.now pool.now) masks.old)) }
{
    hints.queue.learn(pool, seen)?;
    let mut before = total(masks);
    'rounds: loop {
        let kept = round(pool, index, hints, masks)?;
        if !kept {
            return Ok(false);
        }
        let after = total(masks);
        if after == before {
            return Ok(true);
        }
        before = after;
    }
}

/// Propagates at the masks above all branches. Where a wanted list within them is known, the answer is yes.
pub(crate) fn propagate_above(
    pool: &Pool,
    index: &Index<'_>,
    hints: &mut Hints,
    masks: &mut [u8],
) -> Result<bool, NoMemory>
    requires few { length masks.old ≤ 4096 }
    requires masks { AreMasks 5 masks.old }
    requires fits { All (FitsAt index.now (length masks.old)) pool.now }
    ensures narrows { IfOk result (λ yes. OnTrue yes (Narrows (MeetsAll index.now pool.now) masks.old masks.new)) }
    ensures wiped { IfOk result (λ yes. OnFalse yes (Rejects (MeetsAll index.now pool.now) masks.old)) }
{
    let seen = hints.seen;
    hints.seen = pool.len();
    propagate(pool, index, hints, seen, masks)
}
