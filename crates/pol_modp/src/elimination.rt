ghost use Rattle.std.specs.Prelude.{◌≡◌, ℕ, ◌+◌, ◌-◌, ◌<◌, ◌≤◌, length, replicate, All, IfOk, slice_index};
ghost use Rattle.pol_modp.specs.Equations.{EquationView, IsEquation, IsSmallPrime, IsCommonSolution, IsClash};
ghost use Rattle.pol_modp.specs.Rows.{PivotView, AllVanish, IsEchelon, IsBasis, IsReduced, IsNormal, equation_at};
ghost use Rattle.pol_modp.specs.Answers.{ValuesSolve, ClashOnlyWithoutValues, ClashIsShown};

use crate::Equation;
use crate::arithmetic::{inverse, plus_times};
use crate::pivots::{PivotRow, reduce, spread, substitute};
use crate::row_steps::{first_nonzero, long_row, scale};
use pol_base::{NoMemory, Values};
use std::alloc::Global;

/// What an elimination comes to.
#[derive(Debug, Drop)]
pub enum Elim {
    /// A value below the modulus for each variable: they meet all equations.
    Values(Values),
    /// A multiplier below the modulus for each equation: the sum of multiplier times equation says that 0
    /// is equal to another number.
    Clash(Values),
}

/// Solves equations over `n` variables modulo the prime `p`, by Gaussian elimination that carries the
/// multipliers along. Answers a clash exactly where no values meet all equations. Goes for each equation
/// over at most `n` rows, of at most `2n + 2` numbers, and keeps these rows and one more. `p` is to be 2, 3
/// or 5, `n` at most 40, and there are to be at most 4,096 equations, of `n` coefficients, with numbers
/// below `p`.
pub fn eliminate(alloc: Global, p: u8, n: u32, equations: &[Equation]) -> Result<Elim, NoMemory>
    requires prime { IsSmallPrime p }
    requires few_variables { n ≤ 40 }
    requires few { length equations.now ≤ 4096 }
    requires equations { All (IsEquation p n) equations.now }
    ensures values { IfOk result (ValuesSolve p n equations.now) }
    ensures clash { IfOk result (ClashIsShown p n equations.now) }
    ensures clash_only_without_values { IfOk result (ClashOnlyWithoutValues p equations.now) }
{
    let mut basis = Vec::new(alloc);
    for i in 0..equations.len() {
        let row = reduced(alloc, p, n, equations, i, &basis)?;
        match first_nonzero(&row, n) {
            Some(pivot) => basis.push(normalized(p, row, pivot, i as u32))?,
            None if row[n as usize] != 0 => {
                return Ok(Elim::Clash(multipliers(alloc, p, n, equations, i, &basis, &row)?));
            }
            None => {}
        }
    }
    Ok(Elim::Values(solution(alloc, p, n, equations, &basis)?))
}

/// The equation, with multiples of the rows taken away.
pub(crate) fn reduced(
    alloc: Global,
    p: u8,
    n: u32,
    equations: &[Equation],
    i: usize,
    basis: &[PivotRow],
) -> Result<Vec<u8>, NoMemory>
    requires positive { 2 ≤ p }
    requires known { i < length equations.now }
    requires equations { All (IsEquation p n) equations.now }
    requires basis { IsBasis p n equations.now i basis.now }
    ensures reduced { IfOk result (λ row. IsReduced p n (equation_at equations.now i) basis.now row.items) }
{
    let mut row = long_row(alloc, p, &equations[i], basis.len())?;
    reduce(p, n, basis, &mut row);
    Ok(row)
}

/// The reduced row as one more of the echelon, with a 1 at its pivot.
pub(crate) fn normalized(p: u8, row: Vec<u8>, pivot: u32, source: u32) -> PivotRow
    requires prime { IsSmallPrime p }
    requires below { All (λ v. v < p) row.items }
    requires known { pivot < length row.items }
    requires some { 1 ≤ slice_index row.items pivot }
    ensures normal { IsNormal p row.items pivot source result }
{
    let mut cells = row;
    let factor = inverse(p, cells[pivot as usize]);
    scale(p, &mut cells, factor);
    PivotRow::new(cells, pivot, source)
}

/// The multipliers of the equations, from those of the sources.
fn multipliers(
    alloc: Global,
    p: u8,
    n: u32,
    equations: &[Equation],
    i: usize,
    basis: &[PivotRow],
    row: &[u8],
) -> Result<Values, NoMemory>
    requires positive { 2 ≤ p }
    requires known { i < length equations.now }
    requires equations { All (IsEquation p n) equations.now }
    requires basis { IsBasis p n equations.now i basis.now }
    requires reduced { IsReduced p n (equation_at equations.now i) basis.now row.now }
    requires zeros { (c : ℕ) → c < n → slice_index row.now c ≡ 0 }
    requires right { 1 ≤ slice_index row.now n }
    ensures clash { IfOk result (IsClash p n equations.now) }
{
    let mut out = vec![in alloc; 0u8; equations.len()]?;
    add_up(p, n, equations, i, basis, row, &mut out);
    Values::from_slice(alloc, &out)
}

/// The same, in numbers that are 0.
fn add_up(
    p: u8,
    n: u32,
    equations: &[Equation],
    i: usize,
    basis: &[PivotRow],
    row: &[u8],
    out: &mut [u8],
)
    requires positive { 2 ≤ p }
    requires known { i < length equations.now }
    requires equations { All (IsEquation p n) equations.now }
    requires basis { IsBasis p n equations.now i basis.now }
    requires reduced { IsReduced p n (equation_at equations.now i) basis.now row.now }
    requires zeros { (c : ℕ) → c < n → slice_index row.now c ≡ 0 }
    requires right { 1 ≤ slice_index row.now n }
    requires nothing { out.old ≡ replicate (length equations.now) 0 }
    ensures clash { IsClash p n equations.now out.new }
{
    let own = &row[n as usize + 1..];
    spread(p, basis, own, out);
    out[i] = plus_times(p, out[i], 1, own[basis.len()]);
}

/// Values at which all rows vanish.
fn solution(
    alloc: Global,
    p: u8,
    n: u32,
    equations: &[Equation],
    basis: &[PivotRow],
) -> Result<Values, NoMemory>
    requires positive { 2 ≤ p }
    requires few { n ≤ 40 }
    requires equations { All (IsEquation p n) equations.now }
    requires basis { IsBasis p n equations.now (length equations.now) basis.now }
    ensures solution { IfOk result (IsCommonSolution p n equations.now) }
{
    let mut ys = vec![in alloc; 0u8; n as usize + 1]?;
    settle(p, n, basis, &mut ys);
    Values::from_slice(alloc, &ys[..n as usize])
}

/// Values at which all rows vanish, with -1 behind them, in numbers that are 0.
fn settle(p: u8, n: u32, basis: &[PivotRow], ys: &mut [u8])
    requires positive { 2 ≤ p }
    requires few { n ≤ 40 }
    requires echelon { IsEchelon p n basis.now }
    requires nothing { ys.old ≡ replicate (n + 1) 0 }
    ensures below { All (λ v. v < p) ys.new }
    ensures last { slice_index ys.new n ≡ p - 1 }
    ensures vanish { AllVanish p basis.now ys.new }
{
    ys[n as usize] = p - 1;
    substitute(p, n, basis, ys);
}
