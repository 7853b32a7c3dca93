ghost use Rattle.std.specs.Prelude.{◌≡◌, ◌≢◌, ℕ, ◌+◌, ◌<◌, ◌≤◌, [], List, length, map, All, Any, Contains, IfOk};
ghost use Rattle.std.specs.Prelude.{slice_index, replicate};
ghost use Rattle.std.specs.Bool.{OnTrue, OnFalse};
ghost use Rattle.pol_base.specs.Tuples.{IsTuple};
ghost use Rattle.pol_modp.specs.Equations.{EquationView, IsEquation, IsSmallPrime, MeetsEquation};
ghost use Rattle.pol_modp.specs.AffineSets.{IsAffineSet};
ghost use Rattle.pol_modp.specs.Rows.{PivotView, IsBasis, IsEchelon};
ghost use Rattle.pol_modp.specs.Nulls.{IsContradiction, row_equation, IsFreeAt, IsNullAt, HasNulls};

use crate::Equation;
use crate::elimination::{normalized, reduced};
use crate::pivots::{PivotRow, substitute};
use crate::row_steps::first_nonzero;
use pol_base::{NoMemory, Values};
use std::alloc::Global;

/// Equations over `n` variables modulo the prime `p` that all of the rows meet, at most `n + 1`, with
/// numbers below `p`. Where the rows are an affine set, one that has x - y + z with any x, y and z, no
/// other `n` numbers below `p` meet them all; without rows one of them says that 0 is equal to another
/// number. Their coefficients with their right sides are solutions of the rows with -1 behind them: one for
/// each place that the echelon of these has no pivot at.
///
/// `p` is to be 2, 3 or 5 and `n` at most 40. There are to be at most 15,625 rows, of `n` numbers below `p`.
pub fn null_space(alloc: Global, p: u8, n: u32, rows: &[Values]) -> Result<Vec<Equation>, NoMemory>
    requires prime { IsSmallPrime p }
    requires few_variables { n ≤ 40 }
    requires few { length rows.now ≤ 15625 }
    requires rows { All (IsTuple p n) rows.now }
    ensures equations { IfOk result (λ equations. All (IsEquation p n) equations.items) }
    ensures few { IfOk result (λ equations. length equations.items ≤ n + 1) }
    ensures rows_meet { IfOk result (λ equations. All (λ x. All (MeetsEquation p x) equations.items) rows.now) }
    ensures only_rows { IfOk result (λ equations.
        IsAffineSet p n (Contains rows.now)
        → (x : List ℕ) → IsTuple p n x → All (MeetsEquation p x) equations.items → Contains rows.now x) }
    ensures without_rows { IfOk result (λ equations.
        rows.now ≡ [] → Any (IsContradiction p n) equations.items) }
{
    let system = row_equations(alloc, p, rows)?;
    let basis = echelon_of(alloc, p, n + 1, &system)?;
    orthogonal(alloc, p, n, &basis)
}

/// Each row as an equation on the coefficients and the right side of an equation that it meets.
fn row_equations(alloc: Global, p: u8, rows: &[Values]) -> Result<Vec<Equation>, NoMemory>
    requires positive { 1 ≤ p }
    ensures equations { IfOk result (λ equations. equations.items ≡ map (row_equation p) rows.now) }
{
    let mut equations = Vec::new(alloc);
    for row in rows {
        let mut coefs = row.copy()?;
        coefs.push(p - 1)?;
        equations.push(Equation::new(alloc, coefs.as_slice(), 0)?)?;
    }
    Ok(equations)
}

/// The echelon of equations without right sides.
fn echelon_of(
    alloc: Global,
    p: u8,
    n: u32,
    equations: &[Equation],
) -> Result<Vec<PivotRow>, NoMemory>
    requires prime { IsSmallPrime p }
    requires few_variables { n ≤ 41 }
    requires few { length equations.now ≤ 15625 }
    requires equations { All (IsEquation p n) equations.now }
    requires homogeneous { All (λ e. e.right ≡ 0) equations.now }
    ensures basis { IfOk result (λ basis. IsBasis p n equations.now (length equations.now) basis.items) }
{
    let mut basis = Vec::new(alloc);
    for i in 0..equations.len() {
        let row = reduced(alloc, p, n, equations, i, &basis)?;
        match first_nonzero(&row, n) {
            Some(pivot) => basis.push(normalized(p, row, pivot, i as u32))?,
            None => {}
        }
    }
    Ok(basis)
}

/// An equation for each place without pivot, which all rows of the echelon meet.
fn orthogonal(alloc: Global, p: u8, n: u32, basis: &[PivotRow]) -> Result<Vec<Equation>, NoMemory>
    requires positive { 2 ≤ p }
    requires few_variables { n ≤ 40 }
    requires echelon { IsEchelon p (n + 1) basis.now }
    ensures nulls { IfOk result (λ equations. HasNulls p n basis.now (n + 1) equations.items) }
{
    let mut equations = Vec::new(alloc);
    for f in 0..n + 1 {
        if !is_pivot(basis, f) {
            equations.push(null_equation(alloc, p, n, basis, f)?)?;
        }
    }
    Ok(equations)
}

/// Whether some row has its pivot there.
fn is_pivot(basis: &[PivotRow], f: u32) -> bool
    ensures pivot { OnTrue result (¬ All (λ b. b.pivot ≢ f) basis.now) }
    ensures free { OnFalse result (All (λ b. b.pivot ≢ f) basis.now) }
{
    for j in 0..basis.len() {
        if basis[j].pivot() == f {
            return true;
        }
    }
    false
}

/// The equation of the place `f`, which is no pivot.
fn null_equation(
    alloc: Global,
    p: u8,
    n: u32,
    basis: &[PivotRow],
    f: u32,
) -> Result<Equation, NoMemory>
    requires positive { 2 ≤ p }
    requires few_variables { n ≤ 40 }
    requires echelon { IsEchelon p (n + 1) basis.now }
    requires within { f < n + 1 }
    requires apart { All (λ b. b.pivot ≢ f) basis.now }
    ensures null { IfOk result (IsNullAt p n basis.now f) }
{
    let mut ys = vec![in alloc; 0u8; n as usize + 2]?;
    solve_free(p, n + 1, basis, f, &mut ys);
    Equation::new(alloc, &ys[..n as usize], ys[n as usize])
}

/// Makes of zeros numbers with 1 at `f` and 0 at the other places without pivot, at which all rows vanish.
fn solve_free(p: u8, n: u32, basis: &[PivotRow], f: u32, ys: &mut [u8])
    requires positive { 2 ≤ p }
    requires few_variables { n ≤ 41 }
    requires echelon { IsEchelon p n basis.now }
    requires within { f < n }
    requires apart { All (λ b. b.pivot ≢ f) basis.now }
    requires nothing { ys.old ≡ replicate (n + 1) 0 }
    ensures free { IsFreeAt p n basis.now f ys.new }
    ensures below { All (λ v. v < p) ys.new }
    ensures last { slice_index ys.new n ≡ 0 }
{
    ys[f as usize] = 1;
    substitute(p, n, basis, ys);
}
