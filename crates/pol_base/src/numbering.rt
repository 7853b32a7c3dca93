ghost use Rattle.std.specs.Prelude.{◌≡◌, ℕ, ◌<◌, ◌≤◌, ◌^◌, ◌↔◌, length, All, IsNone, IfSome, slice_index};
ghost use Rattle.pol_base.specs.Tuples.{IsDomain, IsTuple, cell_of, digits_of};
ghost use Rattle.pol_base.specs.Laws.{DigitsWriteTheCell, CellHasTheDigits};

use crate::Domain;

const MOST_CELLS: u32 = 15_625;

/// The number d^`k` of cells of a table of `k` arguments. None exactly where it is above 15,625.
pub fn cells(d: Domain, k: u32) -> Option<u32>
    ensures none { IsNone result ↔ (15625 < d ^ k) }
    ensures power { IfSome result (λ n. n ≡ d ^ k) }
{
    let size = u32::from(d.size());
    if size == 1 {
        return Some(1);
    }
    let mut power = 1u32;
    for _ in 0..k {
        power *= size;
        if power > MOST_CELLS {
            return None;
        }
    }
    Some(power)
}

/// The cell of the arguments: the number that they write in base d, the first one most significant.
/// There are to be at most 15,625 cells.
pub fn cell_of(d: Domain, digits: &[u8]) -> u32
    requires tuple { IsTuple d (length digits.now) digits.now }
    requires few { d ^ length digits.now ≤ 15625 }
    requires short { length digits.now ≤ 15625 }
    ensures cell { result ≡ cell_of d digits.now }
    ensures within { result < d ^ length digits.now }
{
    let size = u32::from(d.size());
    let mut cell = 0u32;
    for digit in digits {
        cell = cell * size + u32::from(*digit);
    }
    cell
}

/// The digit of the cell at a place, in base d. The places are `k`, and place 0 is the most significant.
/// There are to be at most 15,625 cells.
pub fn digit(d: Domain, k: u32, cell: u32, place: u32) -> u8
    requires place { place < k }
    requires few { d ^ k ≤ 15625 }
    requires short { k ≤ 15625 }
    requires cell { cell < d ^ k }
    ensures digit { result ≡ slice_index (digits_of d k cell) place }
    ensures below { result < d }
{
    let size = u32::from(d.size());
    let mut rest = cell;
    for _ in place + 1..k {
        rest /= size;
    }
    (rest % size) as u8
}

/// Cells and digits are inverse to each other: the digits of a cell write it, and the cell of a tuple has
/// the tuple as its digits. The contract is all there is; a call does nothing.
pub fn inverse_laws()
    ensures digits_write { DigitsWriteTheCell }
    ensures cell_has { CellHasTheDigits }
{}
