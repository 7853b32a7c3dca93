//! Compact representations, and the solver of Mal'tsev operations, by the sum of three values modulo 2.
ghost use Rattle.std.specs.Prelude.{IfOk};
ghost use Rattle.pol_optable.specs.Identities.{IsMaltsev};
ghost use Rattle.pol_maltsev.specs.Compacts.{IsCompact};

use crate::fixtures::{Listed, On, instance, is_solution, language, preserves, relation};
use pol_base::Domain;
use pol_identity::{Identity, Maltsev};
use pol_maltsev::{Compact, MaltsevAnswer, solve_maltsev};
use pol_optable::OpTable;
use pol_relation::{Instance, Language};
use pol_rows::Rows;
use std::alloc::Global;
use std::process::Abort;
use std::test::Fail;

/// The relations, the number of variables, the constraints, and the sizes.
type Sized = (&'static [Listed], u32, &'static [On], &'static [u32]);

const UNEQUAL: Listed = (2, &[0, 1, 1, 0]);

const ZERO: Listed = (1, &[0]);

const ONE: Listed = (1, &[1]);

const EVEN: Listed = (3, &[0, 0, 0, 0, 1, 1, 1, 0, 1, 1, 1, 0]);

const ALL_ZERO: Listed = (6, &[0, 0, 0, 0, 0, 0]);

/// Sizes that are counted by hand. The last is 0 where no assignment meets all constraints.
static SIZED: [Sized; 8] = [
    (&[], 1, &[], &[4]),
    (&[], 3, &[], &[12]),
    (&[UNEQUAL], 2, &[(0, &[0, 1])], &[8, 6]),
    (&[UNEQUAL], 2, &[(0, &[0, 0])], &[8, 0]),
    (&[ZERO, ONE], 1, &[(0, &[0]), (1, &[0])], &[4, 1, 0]),
    (
        &[UNEQUAL],
        3,
        &[(0, &[0, 1]), (0, &[2, 1]), (0, &[2, 0]), (0, &[0, 1])],
        &[12, 10, 8, 0, 0],
    ),
    (
        &[ALL_ZERO],
        2,
        &[(0, &[1, 1, 1, 1, 1, 1]), (0, &[1, 0, 1, 0, 1, 0])],
        &[8, 5, 2],
    ),
    (
        &[EVEN, ONE],
        3,
        &[(0, &[2, 0, 1]), (1, &[2]), (0, &[0, 0, 1])],
        &[12, 10, 7, 3],
    ),
];

fn sized() -> &'static [Sized] {
    &SIZED
}

/// The sum of three values modulo 2.
fn sum(rt: &impl Abort, alloc: Global) -> Result<OpTable<3>, Fail>
    ensures maltsev { IfOk result IsMaltsev }
{
    let d = Domain::new(2).expect(rt, "two values");
    let sum = OpTable::<3>::from_cells(alloc, d, &[0, 1, 1, 0, 1, 0, 0, 1])?;
    let sum = sum.expect(rt, "a table");
    assert!(rt; Maltsev.holds(&sum));
    Ok(sum)
}

/// What the rows read at the places is what is listed.
fn read(rt: &impl Abort, rows: &Rows, places: &[u32], lists: &[&[u8]]) {
    assert_eq!(rt; rows.len() as usize, lists.len());
    for (i, list) in lists.iter().enumerate() {
        assert!(rt; i < rows.len() as usize);
        let row = rows.row(i as u32);
        assert_eq!(rt; list.len(), places.len());
        for (place, value) in places.iter().zip(*list) {
            assert_eq!(rt; row.get(*place as usize), Some(value));
        }
    }
}

#[test]
fn pairs_have_a_signature_of_eight_triples(rt: HostRuntime) -> Result<(), Fail> {
    let sum = sum(&rt, rt.alloc())?;
    let pairs = Compact::full(rt.alloc(), &sum, 2)?;
    assert!(rt; !pairs.is_empty());
    assert_eq!(rt; pairs.rows().signature_size(), 8);
    Ok(())
}

#[test]
fn a_place_that_repeats_is_read_twice(rt: HostRuntime) -> Result<(), Fail> {
    let sum = sum(&rt, rt.alloc())?;
    let pairs = Compact::full(rt.alloc(), &sum, 2)?;
    let reached = pairs.reach(rt.alloc(), &sum, &[0, 0])?;
    read(&rt, &reached, &[0, 0], &[&[0, 0], &[1, 1]]);
    Ok(())
}

#[test]
fn lists_ascend_in_the_order_of_the_places(rt: HostRuntime) -> Result<(), Fail> {
    let sum = sum(&rt, rt.alloc())?;
    let triples = Compact::full(rt.alloc(), &sum, 3)?;
    let reached = triples.reach(rt.alloc(), &sum, &[2, 0, 2])?;
    let lists: [&[u8]; 4] = [&[0, 0, 0], &[0, 1, 0], &[1, 0, 1], &[1, 1, 1]];
    read(&rt, &reached, &[2, 0, 2], &lists);
    Ok(())
}

#[test]
fn a_front_leaves_five_triples_of_eight(rt: HostRuntime) -> Result<(), Fail> {
    let sum = sum(&rt, rt.alloc())?;
    let pairs = Compact::full(rt.alloc(), &sum, 2)?;
    let fixed = fix(&rt, rt.alloc(), &pairs, &sum, &[1])?;
    assert_eq!(rt; fixed.rows().signature_size(), 5);
    let same = fix(&rt, rt.alloc(), &fixed, &sum, &[])?;
    assert_eq!(rt; same.rows().signature_size(), 5);
    let one = fix(&rt, rt.alloc(), &fixed, &sum, &[1, 0])?;
    assert_eq!(rt; one.rows().signature_size(), 2);
    let none = fix(&rt, rt.alloc(), &fixed, &sum, &[0, 0])?;
    assert!(rt; none.is_empty() && none.rows().width() == 2);
    Ok(())
}

fn fix(
    rt: &impl Abort,
    alloc: Global,
    set: &Compact,
    op: &OpTable<3>,
    front: &[u8],
) -> Result<Compact, Fail>
    requires compact { IsCompact op.now set.now }
    ensures compact { IfOk result (IsCompact op.now) }
{
    let d = set.rows().domain().size();
    assert!(rt; front.len() <= set.rows().width() as usize);
    assert!(rt; front.iter().all(|value| *value < d));
    Ok(set.fix(alloc, op, front)?)
}

#[test]
fn unequal_pairs_have_six_triples(rt: HostRuntime) -> Result<(), Fail> {
    let sum = sum(&rt, rt.alloc())?;
    let pairs = Compact::full(rt.alloc(), &sum, 2)?;
    let (arity, rows) = UNEQUAL;
    let unequal = relation(&rt, rt.alloc(), sum.domain(), arity, rows)?;
    assert!(rt; unequal.arity() == 2 && sum.preserves(&unequal));
    let next = pairs.next(rt.alloc(), &sum, &[0, 1], &unequal)?;
    assert_eq!(rt; next.rows().signature_size(), 6);
    let none = next.next(rt.alloc(), &sum, &[1, 1], &unequal)?;
    assert!(rt; none.is_empty() && none.rows().width() == 2);
    Ok(())
}

#[test]
fn sizes_are_those_that_are_counted_by_hand(rt: HostRuntime) -> Result<(), Fail> {
    let sum = sum(&rt, rt.alloc())?;
    for (relations, variables, constraints, sizes) in sized() {
        let language = language(&rt, rt.alloc(), 2, relations)?;
        let instance = instance(&rt, rt.alloc(), *variables, constraints)?;
        let answer = answer(&rt, rt.alloc(), &language, &instance, &sum)?;
        assert_eq!(rt; answer.sizes.as_slice(), *sizes, "at {constraints:?}");
        assert_eq!(rt;
            answer.solution.is_some(),
            sizes.last() != Some(&0),
            "at {constraints:?}"
        );
    }
    Ok(())
}

/// The answer of the solver, whose solution is tested.
fn answer(
    rt: &impl Abort,
    alloc: Global,
    language: &Language,
    instance: &Instance,
    op: &OpTable<3>,
) -> Result<MaltsevAnswer, Fail> {
    assert!(rt; Maltsev.holds(op) && op.domain() == language.domain());
    assert!(rt; preserves(op, language));
    assert!(rt; instance.fits(language));
    assert!(rt; 1 <= instance.variables() && instance.variables() <= 40);
    let answer = solve_maltsev(alloc, language, instance, op)?;
    if let Some(values) = &answer.solution {
        assert!(rt; is_solution(rt, language, instance, values.as_slice()));
    }
    Ok(answer)
}
