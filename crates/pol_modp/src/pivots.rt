ghost use Rattle.std.specs.Prelude.{◌≡◌, ◌≢◌, ℕ, ◌+◌, ◌*◌, ◌%◌, ◌<◌, ◌≤◌, ◌↔◌, List, length, map, replicate, All, slice_index};
ghost use Rattle.pol_modp.specs.Equations.{dot};
ghost use Rattle.pol_modp.specs.Rows.{PivotView, Vanishes, AllVanish, IsEchelon};

use crate::arithmetic::plus_times;
use crate::row_steps::{add_multiple, dot_of};
use std::marker::Model;

/// A row of the echelon: its numbers, the place of its pivot, and the number of its equation.
#[derive(Drop)]
pub struct PivotRow {
    cells: Vec<u8>,
    pivot: u32,
    source: u32,
}

impl Model for PivotRow {
    ghost Value = { PivotView };

    ghost view = { λ r. record { cells = r.cells.items; pivot = r.pivot; source = r.source } };
}

impl PivotRow {
    /// The row of these numbers.
    pub fn new(cells: Vec<u8>, pivot: u32, source: u32) -> PivotRow
        ensures row { result ≡ record { cells = cells.items; pivot = pivot; source = source } }
    {
        PivotRow {
            cells,
            pivot,
            source,
        }
    }

    /// Its numbers.
    pub fn cells(&self) -> &[u8]
        ensures cells { result.now ≡ self.now.cells }
    {
        self.cells.as_slice()
    }

    /// The place of its pivot.
    pub fn pivot(&self) -> u32
        ensures pivot { result ≡ self.now.pivot }
    {
        self.pivot
    }

    /// The number of the equation that it came from.
    pub fn source(&self) -> u32
        ensures source { result ≡ self.now.source }
    {
        self.source
    }
}

/// Takes multiples of the rows away until the row has 0 at each pivot.
pub fn reduce(p: u8, n: u32, basis: &[PivotRow], row: &mut [u8])
    requires positive { 1 ≤ p }
    requires echelon { IsEchelon p n basis.now }
    requires long { length row.old ≡ n + 1 + (length basis.now + 1) }
    requires below { All (λ v. v < p) row.old }
    ensures below { All (λ v. v < p) row.new }
    ensures zeros { All (λ b. slice_index row.new b.pivot ≡ 0) basis.now }
    ensures same { (ys : List ℕ) → AllVanish p basis.now ys → (Vanishes p row.old ys ↔ Vanishes p row.new ys) }
{
    for j in 0..basis.len() {
        let pivot_row = &basis[j];
        let cell = row[pivot_row.pivot() as usize];
        if cell != 0 {
            add_multiple(p, row, p - cell, pivot_row.cells());
        }
    }
}

/// From the last row to the first, changes the value at the pivot until the row vanishes.
pub fn substitute(p: u8, n: u32, basis: &[PivotRow], ys: &mut [u8])
    requires positive { 1 ≤ p }
    requires echelon { IsEchelon p n basis.now }
    requires long { length ys.old ≡ n + 1 }
    requires below { All (λ v. v < p) ys.old }
    ensures below { All (λ v. v < p) ys.new }
    ensures last { slice_index ys.new n ≡ slice_index ys.old n }
    ensures vanish { AllVanish p basis.now ys.new }
    ensures free { (c : ℕ) → All (λ b. b.pivot ≢ c) basis.now → slice_index ys.new c ≡ slice_index ys.old c }
{
    let mut j = basis.len();
    while j > 0 {
        j -= 1;
        let pivot_row = &basis[j];
        let pivot = pivot_row.pivot() as usize;
        let rest = dot_of(p, pivot_row.cells(), ys);
        ys[pivot] = plus_times(p, ys[pivot], 1, p - rest);
    }
}

/// Adds each multiplier at the number of its source.
pub fn spread(p: u8, basis: &[PivotRow], multipliers: &[u8], out: &mut [u8])
    requires positive { 1 ≤ p }
    requires many { length basis.now ≤ length multipliers.now }
    requires sources { All (λ b. b.source < length out.old) basis.now }
    requires nothing { out.old ≡ replicate (length out.old) 0 }
    ensures below { All (λ v. v < p) out.new }
    ensures spread { (values : List ℕ) → dot values out.new % p ≡ dot multipliers.now (map (λ b. slice_index values b.source) basis.now) % p }
{
    for j in 0..basis.len() {
        let source = basis[j].source() as usize;
        out[source] = plus_times(p, out[source], 1, multipliers[j]);
    }
}
