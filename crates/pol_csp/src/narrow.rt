ghost use Rattle.std.specs.Prelude.{◌≡◌, ℕ, ◌<◌, ◌≤◌, List, length, All, Contains, IsTrue, IsBitSet, slice_index};
ghost use Rattle.std.specs.Bool.{OnTrue, OnFalse};
ghost use Rattle.pol_relation.specs.Instances.{read_at};
ghost use Rattle.pol_csp.specs.Narrowing.{LiesIn, Narrows, Rejects};

use crate::values::meet;
use pol_base::has_value;
use pol_relation::Relation;

/// Whether the row's values are in the masks of the scope's cells.
fn lies(row: &[u8], scope: &[u32], masks: &[u8]) -> bool
    requires long { length row.now ≡ length scope.now }
    requires cells { All (λ c. c < length masks.now) scope.now }
    requires below { All (λ v. v < 8) row.now }
    ensures lies { LiesIn masks.now scope.now row.now → IsTrue result }
{
    for place in 0..row.len() {
        if !has_value(masks[scope[place] as usize], row[place]) {
            return false;
        }
    }
    true
}

/// Joins the row's values to the masks of the places.
fn join(found: &mut [u8; 6], row: &[u8])
    requires long { length row.now ≤ 6 }
    requires below { All (λ v. v < 8) row.now }
    ensures row { (j : ℕ) → j < length row.now → IsBitSet (slice_index found.new j) (slice_index row.now j) }
    ensures kept { (j v : ℕ) → IsBitSet (slice_index found.old j) v → IsBitSet (slice_index found.new j) v }
{
    for place in 0..row.len() {
        found[place] |= 1 << row[place];
    }
}

/// For each place the values of the rows that lie in the masks.
fn supports(r: &Relation, scope: &[u32], masks: &[u8]) -> [u8; 6]
    requires long { length scope.now ≡ r.now.arity }
    requires cells { All (λ c. c < length masks.now) scope.now }
    ensures supports { (t : List ℕ) → Contains r.now.rows t → LiesIn masks.now scope.now t
        → (j : ℕ) → j < length scope.now → IsBitSet (slice_index result j) (slice_index t j) }
{
    let _arity = r.arity();
    let _domain = r.domain();
    let mut found = [0u8; 6];
    for i in 0..r.len() {
        let row = r.row(i);
        if lies(row, scope, masks) {
            join(&mut found, row);
        }
    }
    found
}

/// Drops the values that no row within the masks supports.
pub(crate) fn revise(r: &Relation, scope: &[u32], masks: &mut [u8]) -> bool
    requires long { length scope.now ≡ r.now.arity }
    requires cells { All (λ c. c < length masks.old) scope.now }
    ensures narrows { OnTrue result (Narrows (λ xs. Contains r.now.rows (read_at xs scope.now)) masks.old masks.new) }
    ensures wiped { OnFalse result (Rejects (λ xs. Contains r.now.rows (read_at xs scope.now)) masks.old) }
{
    let _arity = r.arity();
    let found = supports(r, scope, masks);
    for place in 0..scope.len() {
        if !meet(masks, scope[place] as usize, found[place]) {
            return false;
        }
    }
    true
}
