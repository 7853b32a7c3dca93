//! The solver of near-unanimity operations of three and four arguments, over two values.
ghost use Rattle.std.specs.Prelude.{◌≤◌};

use crate::fixtures::{Listed, On, instance, language, preserves};
use pol_identity::{Identity, NearUnanimity};
use pol_nogood::LogAnswer;
use pol_optable::OpTable;
use pol_relation::Language;
use pol_strong::solve_nu;
use std::alloc::Global;
use std::process::Abort;
use std::test::Fail;

/// The majority of three of two values.
static MAJORITY: [u8; 8] = [0, 0, 0, 1, 0, 1, 1, 1];

/// Whether two of four are 1.
static TWO_OF_FOUR: [u8; 16] = [0, 0, 0, 1, 0, 1, 1, 1, 0, 1, 1, 1, 1, 1, 1, 1];

/// Relations that the majority preserves: 0 says that the values differ, 1 that one is 1, 2 that the
/// second is 1 where the first is, 3 that both are 0, 4 nothing that can be.
const PAIRS: [Listed; 5] = [
    (2, &[0, 1, 1, 0]),
    (2, &[0, 1, 1, 0, 1, 1]),
    (2, &[0, 0, 0, 1, 1, 1]),
    (2, &[0, 0]),
    (2, &[]),
];

/// Relations that a near-unanimity operation of four arguments preserves: 0 says that one of three values
/// is 1, 1 that both are 0.
const TRIPLES: [Listed; 2] = [
    (
        3,
        &[
            0, 0, 1, 0, 1, 0, 0, 1, 1, 1, 0, 0, 1, 0, 1, 1, 1, 0, 1, 1, 1,
        ],
    ),
    (2, &[0, 0]),
];

/// Constraints of `PAIRS` over three variables, and whether there is a solution.
static OF_PAIRS: [(&'static [On], bool); 7] = [
    (&[], true),
    (&[(0, &[0, 1]), (0, &[1, 2])], true),
    (&[(0, &[0, 1]), (0, &[1, 2]), (0, &[2, 0])], false),
    (&[(0, &[1, 1])], false),
    (&[(1, &[0, 1]), (4, &[1, 2])], false),
    (&[(1, &[0, 1]), (2, &[0, 2]), (2, &[1, 2])], true),
    (
        &[(1, &[0, 1]), (2, &[0, 2]), (2, &[1, 2]), (3, &[2, 2])],
        false,
    ),
];

/// The same of `TRIPLES`.
static OF_TRIPLES: [(&'static [On], bool); 4] = [
    (&[(0, &[0, 1, 2])], true),
    (&[(0, &[0, 1, 2]), (1, &[0, 1])], true),
    (&[(0, &[0, 1, 2]), (1, &[0, 1]), (1, &[2, 2])], false),
    (&[(0, &[2, 0, 2]), (1, &[2, 0])], false),
];

fn of_pairs() -> &'static [(&'static [On], bool)] {
    &OF_PAIRS
}

fn of_triples() -> &'static [(&'static [On], bool)] {
    &OF_TRIPLES
}

#[test]
fn pairs_are_decided_by_the_majority(rt: HostRuntime) -> Result<(), Fail> {
    let alloc = rt.alloc();
    let language = language(&rt, alloc, 2, &PAIRS)?;
    for (constraints, solvable) in of_pairs() {
        let answer = has_solution::<3>(&rt, alloc, &language, &MAJORITY, constraints)?;
        assert_eq!(rt; answer, *solvable);
    }
    Ok(())
}

#[test]
fn triples_are_decided_by_two_of_four(rt: HostRuntime) -> Result<(), Fail> {
    let alloc = rt.alloc();
    let language = language(&rt, alloc, 2, &TRIPLES)?;
    for (constraints, solvable) in of_triples() {
        let answer = has_solution::<4>(&rt, alloc, &language, &TWO_OF_FOUR, constraints)?;
        assert_eq!(rt; answer, *solvable);
    }
    Ok(())
}

/// Whether the instance of three variables with these constraints has a solution, by the operation with
/// these cells.
fn has_solution<const K: usize>(
    rt: &impl Abort,
    alloc: Global,
    language: &Language,
    cells: &[u8],
    constraints: &[On],
) -> Result<bool, Fail>
    requires some_arguments { 3 ≤ K }
    requires few_arguments { K ≤ 4 }
{
    let op = OpTable::<K>::from_cells(alloc, language.domain(), cells)?.expect(rt, "a table");
    assert!(rt; NearUnanimity.holds(&op) && preserves(&op, language));
    let instance = instance(rt, alloc, 3, constraints)?;
    assert!(rt; instance.fits(language) && instance.variables() <= 40);
    match solve_nu(alloc, language, &instance, &op)? {
        LogAnswer::Yes(_) => Ok(true),
        LogAnswer::No(_) => Ok(false),
    }
}
