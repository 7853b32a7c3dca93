ghost use Rattle.std.specs.Prelude.{◌≡◌, ℕ, ◌^◌, ◌<◌, length, IfOk};
ghost use Rattle.std.specs.Prelude.{IfSome, IfNone, IsTrue, IsBitSet, slice_index, slice_set};
ghost use Rattle.std.specs.Bool.{OnTrue, OnFalse};
ghost use Rattle.std.specs.List.{sum};
ghost use Rattle.pol_base.specs.Masks.{IsMask, AreMasks, IsWithin};
ghost use Rattle.pol_csp.specs.Narrowing.{HasBit, IsElse, Narrows, Rejects};
ghost use Rattle.pol_csp.specs.Searching.{IsSettled};

use pol_base::{NoMemory, Values, lowest_value, value_mask, without};
use std::alloc::Global;

/// Keeps of a cell's mask what another mask has, and answers whether that is anything.
pub(crate) fn meet(masks: &mut [u8], cell: usize, mask: u8) -> bool
    requires cell { cell < length masks.old }
    ensures narrows { OnTrue result (Narrows (HasBit cell mask) masks.old masks.new) }
    ensures wiped { OnFalse result (Rejects (HasBit cell mask) masks.old) }
{
    let left = masks[cell] & mask;
    if left == 0 {
        return false;
    }
    masks[cell] = left;
    true
}

/// Takes a value from a cell, and answers whether one is left.
pub(crate) fn drop_value(masks: &mut [u8], cell: usize, value: u8) -> bool
    requires cell { cell < length masks.old }
    requires value { value < 8 }
    ensures narrows { OnTrue result (Narrows (IsElse cell value) masks.old masks.new) }
    ensures falls { OnTrue result (IsBitSet (slice_index masks.old cell) value → sum masks.new < sum masks.old) }
    ensures wiped { OnFalse result (Rejects (IsElse cell value) masks.old) }
{
    let left = without(masks[cell], value);
    if left == 0 {
        return false;
    }
    masks[cell] = left;
    true
}

/// Whether a mask has more than one value.
pub(crate) fn is_open(mask: u8) -> bool
    requires mask { IsMask 5 mask }
    ensures open { IsTrue result → (v : ℕ) → ¬ (mask ≡ 2 ^ v) }
    ensures single { ¬ IsTrue result → (u v : ℕ) → IsBitSet mask u → IsBitSet mask v → u ≡ v }
{
    mask != value_mask(lowest_value(mask))
}

/// A cell with more than one value, one of those given if there is one, else the first.
pub(crate) fn open_cell(masks: &[u8], given: &[usize; 8]) -> Option<usize>
    requires masks { AreMasks 5 masks.now }
    ensures cell { IfSome result (λ cell. cell < length masks.now) }
    ensures open { IfSome result (λ cell. (v : ℕ) → ¬ (slice_index masks.now cell ≡ 2 ^ v)) }
    ensures settled { IfNone result (IsSettled masks.now (length masks.now)) }
{
    for i in 0..8 {
        let cell = given[i];
        if cell < masks.len() && is_open(masks[cell]) {
            return Some(cell);
        }
    }
    for cell in 0..masks.len() {
        if is_open(masks[cell]) {
            return Some(cell);
        }
    }
    None
}

/// The least value of each mask.
pub(crate) fn lowest_values(alloc: Global, masks: &[u8]) -> Result<Values, NoMemory>
    requires masks { AreMasks 5 masks.now }
    ensures within { IfOk result (λ values. IsWithin masks.now values) }
{
    let mut values = Values::new(alloc);
    for mask in masks {
        values.push(lowest_value(*mask))?;
    }
    Ok(values)
}

/// The masks with one value left to a cell.
pub(crate) fn branch_of(
    alloc: Global,
    masks: &[u8],
    cell: usize,
    value: u8,
) -> Result<Vec<u8>, NoMemory>
    requires cell { cell < length masks.now }
    requires value { value < 8 }
    ensures branch { IfOk result (λ branch. branch.items ≡ slice_set masks.now cell (2 ^ value)) }
{
    let mut branch = Vec::from_slice(alloc, masks)?;
    branch[cell] = value_mask(value);
    Ok(branch)
}
