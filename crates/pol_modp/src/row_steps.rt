ghost use Rattle.std.specs.Prelude.{◌≡◌, ℕ, ◌+◌, ◌*◌, ◌%◌, ◌<◌, ◌≤◌, length, IfOk, IfSome, IfNone, slice_index};
ghost use Rattle.pol_modp.specs.Equations.{EquationView, dot};
ghost use Rattle.pol_modp.specs.Rows.{plus_multiple, multiple, long_row};

use crate::Equation;
use crate::arithmetic::plus_times;
use pol_base::NoMemory;
use std::alloc::Global;

/// Adds `k` times the other row, as far as it goes.
pub fn add_multiple(p: u8, row: &mut [u8], k: u8, other: &[u8])
    requires positive { 1 ≤ p }
    requires within { length other.now ≤ length row.old }
    ensures added { row.new ≡ plus_multiple p row.old k other.now }
{
    for i in 0..other.len() {
        row[i] = plus_times(p, row[i], k, other[i]);
    }
}

/// Takes the row `k` times.
pub fn scale(p: u8, row: &mut [u8], k: u8)
    requires positive { 1 ≤ p }
    ensures scaled { row.new ≡ multiple p k row.old }
{
    for i in 0..row.len() {
        row[i] = plus_times(p, 0, k, row[i]);
    }
}

/// The sum of the products modulo `p`.
pub fn dot_of(p: u8, row: &[u8], ys: &[u8]) -> u8
    requires positive { 1 ≤ p }
    requires within { length ys.now ≤ length row.now }
    ensures dot { result ≡ dot row.now ys.now % p }
    ensures below { result < p }
{
    let mut sum = 0;
    for i in 0..ys.len() {
        sum = plus_times(p, sum, row[i], ys[i]);
    }
    sum
}

/// The first of the first `n` places that is not 0.
pub fn first_nonzero(row: &[u8], n: u32) -> Option<u32>
    requires within { n ≤ length row.now }
    ensures found { IfSome result (λ c. (c < n) × (1 ≤ slice_index row.now c)) }
    ensures none { IfNone result ((c : ℕ) → c < n → slice_index row.now c ≡ 0) }
{
    for c in 0..n {
        if row[c as usize] != 0 {
            return Some(c);
        }
    }
    None
}

/// The coefficients and the right side, and behind them the place among the sources.
pub fn long_row(alloc: Global, p: u8, equation: &Equation, k: usize) -> Result<Vec<u8>, NoMemory>
    requires positive { 1 ≤ p }
    ensures ok { IfOk result (λ row. row.items ≡ long_row p equation.now k) }
{
    let mut row = Vec::new(alloc);
    row.extend_from_slice(equation.coefs())?;
    row.push(equation.right())?;
    for _ in 0..k {
        row.push(0)?;
    }
    row.push(p - 1)?;
    Ok(row)
}
