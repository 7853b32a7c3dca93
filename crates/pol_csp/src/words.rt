ghost use Rattle.std.specs.Prelude.{◌≡◌, ℕ, ◌+◌, ◌*◌, ◌^◌, ◌<◌, ◌≤◌};
ghost use Rattle.std.specs.Prelude.{[], length, All, IfOk, IsTrue, IsBitSet, slice_index, slice_index_or};
ghost use Rattle.pol_base.specs.Masks.{AreMasks};
ghost use Rattle.pol_csp.specs.Narrowing.{LiesIn};
ghost use Rattle.pol_csp.specs.Words.{TellReads, TellEquals, IsSameAtRepeats, AreWords};

use pol_base::{NoMemory, has_value, lowest_value, value_mask, without};
use pol_relation::Relation;
use std::alloc::Global;

/// The bit of a row.
fn row_bit(row: u32) -> u128
    requires small { row < 128 }
    ensures bit { result ≡ 2 ^ row }
{
    1 << row
}

/// The rows that read a value of the mask at the place.
fn rows_with(r: &Relation, place: usize, mask: u8) -> u128
    requires few { length r.now.rows ≤ 128 }
    requires place { place < r.now.arity }
    ensures reads { (row : ℕ) → row < length r.now.rows
        → IsBitSet mask (slice_index (slice_index_or r.now.rows row []) place) → IsBitSet result row }
{
    let _domain = r.domain();
    let mut word = 0u128;
    for row in 0..r.len() {
        if has_value(mask, r.row(row)[place]) {
            word |= row_bit(row);
        }
    }
    word
}

/// The rows that read a value of the mask at the place, by the words of the places and masks before.
fn next_word(r: &Relation, withs: &[u128], place: usize, mask: u8) -> u128
    requires few { length r.now.rows ≤ 128 }
    requires place { place < r.now.arity }
    requires mask { mask < 32 }
    requires counted { length withs.now ≡ place * 32 + mask }
    requires reads { TellReads r.now.rows withs.now }
    ensures reads { (row : ℕ) → row < length r.now.rows
        → IsBitSet mask (slice_index (slice_index_or r.now.rows row []) place) → IsBitSet result row }
{
    if mask == 0 {
        return 0;
    }
    let value = lowest_value(mask);
    let others = without(mask, value);
    if others == 0 {
        return rows_with(r, place, mask);
    }
    withs[place * 32 + others as usize] | withs[place * 32 + value_mask(value) as usize]
}

/// For each place and mask the rows that read a value of the mask there.
pub(crate) fn withs_of(alloc: Global, r: &Relation) -> Result<Vec<u128>, NoMemory>
    requires few { length r.now.rows ≤ 128 }
    ensures counted { IfOk result (λ withs. length withs.items ≡ r.now.arity * 32) }
    ensures reads { IfOk result (λ withs. TellReads r.now.rows withs.items) }
{
    let _relation = r.arity();
    let mut withs = Vec::new(alloc);
    let count = r.arity() as usize * 32;
    for k in 0..count {
        let word = next_word(r, &withs, k / 32, (k % 32) as u8);
        withs.push(word)?;
    }
    Ok(withs)
}

/// Whether the row has one value at two places.
fn reads_equal(row: &[u8], first: usize, second: usize) -> bool
    ensures equal { slice_index row.now first ≡ slice_index row.now second → IsTrue result }
{
    first >= row.len() || second >= row.len() || row[first] == row[second]
}

/// The rows that read one value at two places.
fn rows_equal(r: &Relation, first: usize, second: usize) -> u128
    requires few { length r.now.rows ≤ 128 }
    ensures equal { (row : ℕ) → row < length r.now.rows
        → slice_index (slice_index_or r.now.rows row []) first ≡ slice_index (slice_index_or r.now.rows row []) second
        → IsBitSet result row }
{
    let mut word = 0u128;
    for row in 0..r.len() {
        if reads_equal(r.row(row), first, second) {
            word |= row_bit(row);
        }
    }
    word
}

/// For each two places the rows that read one value there.
pub(crate) fn equals_of(alloc: Global, r: &Relation) -> Result<Vec<u128>, NoMemory>
    requires few { length r.now.rows ≤ 128 }
    ensures counted { IfOk result (λ equals. length equals.items ≡ 36) }
    ensures equal { IfOk result (λ equals. TellEquals r.now.rows equals.items) }
{
    let mut equals = Vec::new(alloc);
    for k in 0..36 {
        equals.push(rows_equal(r, k / 6, k % 6))?;
    }
    Ok(equals)
}

/// The rows within the masks, which read one value where the scope repeats a cell.
pub(crate) fn alive(
    r: &Relation,
    withs: &[u128],
    equals: &[u128],
    scope: &[u32],
    masks: &[u8],
) -> u128
    requires long { length scope.now ≡ r.now.arity }
    requires cells { All (λ c. c < length masks.now) scope.now }
    requires masks { AreMasks 5 masks.now }
    requires words { AreWords r.now.rows r.now.arity withs.now equals.now }
    ensures alive { (row : ℕ) → row < length r.now.rows → LiesIn masks.now scope.now (slice_index_or r.now.rows row [])
        → IsSameAtRepeats scope.now (slice_index_or r.now.rows row []) → IsBitSet result row }
{
    let _arity = r.arity();
    let mut alive = u128::MAX;
    for place in 0..scope.len() {
        alive &= withs[place * 32 + masks[scope[place] as usize] as usize];
        for other in 0..place {
            if scope[other] == scope[place] {
                alive &= equals[other * 6 + place];
            }
        }
    }
    alive
}

/// The values that rows of a word read at the place.
pub(crate) fn values_at(r: &Relation, withs: &[u128], place: usize, word: u128) -> u8
    requires place { place < r.now.arity }
    requires counted { length withs.now ≡ r.now.arity * 32 }
    requires reads { TellReads r.now.rows withs.now }
    ensures values { (row : ℕ) → row < length r.now.rows → IsBitSet word row
        → IsBitSet result (slice_index (slice_index_or r.now.rows row []) place) }
{
    let _domain = r.domain();
    let size = r.domain().size();
    let mut found = 0u8;
    for value in 0..size {
        let mask = value_mask(value);
        if word & withs[place * 32 + mask as usize] != 0 {
            found |= mask;
        }
    }
    found
}
