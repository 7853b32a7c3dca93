//! Elimination beside all assignments, and the equations of rows beside all tuples.
ghost use Rattle.std.specs.Prelude.{◌≤◌, IsTrue};
ghost use Rattle.pol_base.specs.Tuples.{IsTuple};
ghost use Rattle.pol_modp.specs.Equations.{IsEquation, IsSmallPrime};

use pol_base::{NoMemory, Values};
use pol_modp::{Elim, Equation, eliminate, null_space};
use std::alloc::Global;
use std::process::Abort;
use std::test::Fail;

/// An equation as it is written: its coefficients and its right side.
type Written = (&'static [u8], u8);

/// x + 2y = 3 and y = 1 modulo 5.
static SOLVED: [Written; 2] = [(&[1, 2], 3), (&[0, 1], 1)];

/// x + 2y = 3 and 2x + 4y = 2 modulo 5: twice the first and four times the second give 0 = 4.
static CLASHING: [Written; 2] = [(&[1, 2], 3), (&[2, 4], 2)];

fn solved_equations() -> &'static [Written] {
    &SOLVED
}

fn clashing_equations() -> &'static [Written] {
    &CLASHING
}

#[test]
fn two_equations_modulo_five(rt: HostRuntime) -> Result<(), Fail> {
    let alloc = rt.alloc();
    let equations = equations_of(alloc, solved_equations())?;
    match eliminated(&rt, alloc, 5, 2, &equations)? {
        Elim::Values(values) => assert_eq!(rt; values.as_slice(), [1, 1].as_slice()),
        Elim::Clash(_) => assert!(rt; false),
    }
    let clashing = equations_of(alloc, clashing_equations())?;
    match eliminated(&rt, alloc, 5, 2, &clashing)? {
        Elim::Values(_) => assert!(rt; false),
        Elim::Clash(multipliers) => assert!(rt;
            shows_clash(5, 2, &clashing, multipliers.as_slice())
        ),
    }
    Ok(())
}

/// Systems of one to six equations over three variables, each decided by all assignments.
#[test]
fn systems_are_decided_as_by_all_assignments(rt: HostRuntime) -> Result<(), Fail> {
    for p in [2, 3] {
        let mut solved = 0u32;
        let mut clashes = 0u32;
        for number in 0..60u32 {
            let equations = system(rt.alloc(), p, number)?;
            if has_values(&rt, rt.alloc(), p, &equations)? {
                solved = solved.wrapping_add(1);
            } else {
                clashes = clashes.wrapping_add(1);
            }
        }
        assert!(rt;
            solved >= 10 && clashes >= 10,
            "{solved} solved, {clashes} clashes modulo {p}"
        );
    }
    Ok(())
}

/// The rows whose sum is 1 modulo 3 are all that their equations admit.
#[test]
fn the_equations_of_rows_admit_nothing_else(rt: HostRuntime) -> Result<(), Fail> {
    let alloc = rt.alloc();
    let mut rows = Vec::new(alloc);
    for x in 0..3u8 {
        for y in 0..3u8 {
            rows.push(Values::from_slice(alloc, &[x, y, (7 - x - y) % 3])?)?;
        }
    }
    assert!(rt; rows.len() == 9);
    let equations = null_space_of(&rt, alloc, 3, 3, &rows)?;
    assert!(rt; equations.len() == 1);
    for x in 0..3u8 {
        for y in 0..3u8 {
            for z in 0..3u8 {
                assert_eq!(rt; meets_all(3, &equations, &[x, y, z]), (x + y + z) % 3 == 1);
            }
        }
    }
    Ok(())
}

/// Two rows modulo 5 have the line through them, and no row has what nothing meets.
#[test]
fn a_line_and_nothing(rt: HostRuntime) -> Result<(), Fail> {
    let alloc = rt.alloc();
    let mut rows = Vec::new(alloc);
    let nothing = null_space_of(&rt, alloc, 5, 2, &rows)?;
    assert!(rt; nothing.len() == 3);
    rows.push(Values::from_slice(alloc, &[0, 1])?)?;
    rows.push(Values::from_slice(alloc, &[2, 2])?)?;
    let line = null_space_of(&rt, alloc, 5, 2, &rows)?;
    for x in 0..5u8 {
        for y in 0..5u8 {
            assert!(rt; !meets_all(5, &nothing, &[x, y]));
            assert_eq!(rt; meets_all(5, &line, &[x, y]), (2 * y) % 5 == (x + 2) % 5);
        }
    }
    Ok(())
}

/// Whether some values meet the equations over three variables modulo `p`, as `eliminate` says. What it
/// shows is tested against all assignments.
fn has_values(rt: &impl Abort, alloc: Global, p: u8, equations: &[Equation]) -> Result<bool, Fail>
    requires prime { IsSmallPrime p }
{
    match eliminated(rt, alloc, p, 3, equations)? {
        Elim::Values(values) => {
            assert!(rt; values.as_slice().len() == 3);
            assert!(rt; meets_all(p, equations, values.as_slice()));
            Ok(true)
        }
        Elim::Clash(multipliers) => {
            assert!(rt; !has_assignment(p, equations));
            assert!(rt; shows_clash(p, 3, equations, multipliers.as_slice()));
            Ok(false)
        }
    }
}

/// Whether some assignment of three variables meets the equations.
fn has_assignment(p: u8, equations: &[Equation]) -> bool
    requires positive { 1 ≤ p }
{
    for x in 0..p {
        for y in 0..p {
            for z in 0..p {
                if meets_all(p, equations, &[x, y, z]) {
                    return true;
                }
            }
        }
    }
    false
}

/// One to six equations over three variables modulo `p`, from a sequence of numbers.
fn system(alloc: Global, p: u8, number: u32) -> Result<Vec<Equation>, NoMemory>
    requires positive { 1 ≤ p }
{
    let mut seed = number.wrapping_mul(97).wrapping_add(1);
    let mut equations = Vec::new(alloc);
    for _ in 0..number % 6 + 1 {
        let mut numbers = [0; 4];
        for place in numbers.iter_mut() {
            seed = seed.wrapping_mul(1664525).wrapping_add(1013904223);
            *place = ((seed >> 16) % u32::from(p)) as u8;
        }
        equations.push(Equation::new(alloc, &numbers[..3], numbers[3])?)?;
    }
    Ok(equations)
}

fn equations_of(alloc: Global, written: &[Written]) -> Result<Vec<Equation>, NoMemory> {
    let mut equations = Vec::new(alloc);
    for (coefs, right) in written {
        equations.push(Equation::new(alloc, coefs, *right)?)?;
    }
    Ok(equations)
}

/// `eliminate`, once it is seen that they are equations over `n` variables modulo `p`.
fn eliminated(
    rt: &impl Abort,
    alloc: Global,
    p: u8,
    n: u32,
    equations: &[Equation],
) -> Result<Elim, Fail>
    requires prime { IsSmallPrime p }
    requires few_variables { n ≤ 40 }
{
    assert!(rt; equations.len() <= 4096);
    assert!(rt; equations.iter().all(|equation| is_equation(p, n, equation)));
    Ok(eliminate(alloc, p, n, equations)?)
}

fn is_equation(p: u8, n: u32, equation: &Equation) -> bool
    ensures equation { IsTrue result → IsEquation p n equation.now }
{
    let coefs = equation.coefs();
    equation.right() < p && coefs.len() == n as usize && coefs.iter().all(|a| *a < p)
}

fn is_row(p: u8, n: u32, row: &Values) -> bool
    ensures row { IsTrue result → IsTuple p n row.now }
{
    let values = row.as_slice();
    values.len() == n as usize && values.iter().all(|value| *value < p)
}

/// `null_space`, once it is seen that the rows are `n` numbers below `p`.
fn null_space_of(
    rt: &impl Abort,
    alloc: Global,
    p: u8,
    n: u32,
    rows: &[Values],
) -> Result<Vec<Equation>, Fail>
    requires prime { IsSmallPrime p }
    requires few_variables { n ≤ 40 }
{
    assert!(rt; rows.len() <= 15625);
    assert!(rt; rows.iter().all(|row| is_row(p, n, row)));
    Ok(null_space(alloc, p, n, rows)?)
}

/// Whether the values meet all equations modulo `p`.
fn meets_all(p: u8, equations: &[Equation], values: &[u8]) -> bool
    requires positive { 1 ≤ p }
{
    equations.iter().all(|equation| {
        let right = u32::from(equation.right());
        sum_of_products(equation.coefs(), values) % u32::from(p) == right
    })
}

fn sum_of_products(numbers: &[u8], others: &[u8]) -> u32 {
    let mut sum = 0u32;
    for (a, b) in numbers.iter().zip(others) {
        sum = sum.wrapping_add(u32::from(*a) * u32::from(*b));
    }
    sum
}

/// Whether the multipliers take the equations to coefficients 0 and a right side other than 0.
fn shows_clash(p: u8, n: u32, equations: &[Equation], multipliers: &[u8]) -> bool
    requires positive { 1 ≤ p }
{
    let p = u32::from(p);
    let coefs_zero = (0..n).all(|v| sum_at(equations, multipliers, v) % p == 0);
    let mut right = 0u32;
    for (equation, multiplier) in equations.iter().zip(multipliers) {
        right = right.wrapping_add(u32::from(*multiplier) * u32::from(equation.right()));
    }
    multipliers.len() == equations.len() && coefs_zero && right % p != 0
}

/// The sum of multiplier times coefficient of the variable.
fn sum_at(equations: &[Equation], multipliers: &[u8], v: u32) -> u32 {
    let mut sum = 0u32;
    for (equation, multiplier) in equations.iter().zip(multipliers) {
        if let Some(a) = equation.coefs().get(v as usize) {
            sum = sum.wrapping_add(u32::from(*multiplier) * u32::from(*a));
        }
    }
    sum
}
