//! Equations of relations, and the solver of affine operations, beside loops over all assignments.
ghost use Rattle.std.specs.Prelude.{◌≡◌, IfOk};

use crate::fixtures::{Listed, On, add, instance, is_solution, language, preserves, relation};
use pol_affine::{Equations, SumAnswer, equations_of, solve_affine};
use pol_base::{Domain, Values};
use pol_identity::Affine;
use pol_modp::{Equation, check_combination};
use pol_relation::{Instance, Language, Relation};
use std::alloc::Global;
use std::process::Abort;
use std::test::Fail;

/// Labels, the size of the domain, the relations, the number of variables, and the constraints.
type Written = ([u8; 5], u32, &'static [Listed], u32, &'static [On]);

const NATURAL: [u8; 5] = [0, 1, 2, 3, 4];

const NO_ROWS: Listed = (2, &[]);

const EVEN: Listed = (3, &[0, 0, 0, 0, 1, 1, 1, 0, 1, 1, 1, 0]);

const ODD: Listed = (3, &[0, 0, 1, 0, 1, 0, 1, 0, 0, 1, 1, 1]);

/// The three values that add up to 0 modulo 3, and those that add up to 1.
const SUM_IS_0: Listed = (
    3,
    &[
        0, 0, 0, 0, 1, 2, 0, 2, 1, 1, 0, 2, 1, 1, 1, 1, 2, 0, 2, 0, 1, 2, 1, 0, 2, 2, 2,
    ],
);

const SUM_IS_1: Listed = (
    3,
    &[
        0, 0, 1, 0, 1, 0, 0, 2, 2, 1, 0, 0, 1, 1, 2, 1, 2, 1, 2, 0, 2, 2, 1, 1, 2, 2, 0,
    ],
);

/// Labels 3 and 4 change places.
const TURNED: [u8; 5] = [0, 1, 2, 4, 3];

/// The pairs whose labels add up to 0 modulo 5, where 3 and 4 have the labels 4 and 3.
const OPPOSITE: Listed = (2, &[0, 0, 1, 3, 2, 4, 3, 1, 4, 2]);

/// Labels, and relations that their operations preserve.
static DESCRIBED: [([u8; 5], u32, Listed); 8] = [
    (NATURAL, 2, EVEN),
    (NATURAL, 2, NO_ROWS),
    ([0, 1, 2, 0, 0], 3, SUM_IS_1),
    ([1, 0, 2, 0, 0], 3, SUM_IS_1),
    (
        NATURAL,
        3,
        (2, &[0, 0, 0, 1, 0, 2, 1, 0, 1, 1, 1, 2, 2, 0, 2, 1, 2, 2]),
    ),
    (NATURAL, 5, (1, &[3])),
    (TURNED, 5, OPPOSITE),
    (NATURAL, 5, (2, &[0, 1, 1, 3, 2, 0, 3, 2, 4, 4])),
];

/// Instances with one solution, and that solution.
static SOLVED: [(Written, &'static [u8]); 5] = [
    ((NATURAL, 2, &[], 0, &[]), &[]),
    (
        (
            NATURAL,
            2,
            &[ODD, (1, &[1])],
            2,
            &[(0, &[0, 0, 1]), (1, &[0])],
        ),
        &[1, 1],
    ),
    (
        (
            NATURAL,
            3,
            &[SUM_IS_0, SUM_IS_1, (1, &[2])],
            3,
            &[(2, &[2]), (0, &[0, 1, 2]), (1, &[0, 0, 1])],
        ),
        &[0, 1, 2],
    ),
    (
        (
            TURNED,
            5,
            &[OPPOSITE, (1, &[1])],
            2,
            &[(1, &[0]), (0, &[0, 1])],
        ),
        &[1, 3],
    ),
    (
        (
            TURNED,
            5,
            &[OPPOSITE, (1, &[4])],
            3,
            &[(0, &[0, 1]), (0, &[1, 2]), (1, &[2])],
        ),
        &[4, 2, 4],
    ),
];

/// Instances without a solution.
static UNSOLVED: [Written; 5] = [
    (NATURAL, 2, &[NO_ROWS], 2, &[(0, &[0, 1])]),
    (
        NATURAL,
        2,
        &[NO_ROWS, EVEN],
        3,
        &[(1, &[0, 1, 2]), (0, &[0, 0])],
    ),
    (
        NATURAL,
        2,
        &[EVEN, (1, &[1])],
        2,
        &[(0, &[0, 0, 1]), (1, &[1])],
    ),
    (
        NATURAL,
        3,
        &[SUM_IS_0, SUM_IS_1],
        3,
        &[(0, &[0, 1, 2]), (1, &[2, 0, 1])],
    ),
    (
        TURNED,
        5,
        &[OPPOSITE, (1, &[1])],
        1,
        &[(0, &[0, 0]), (1, &[0])],
    ),
];

/// Scopes of three places over three variables.
static SCOPES: [&'static [u32]; 6] = [
    &[0, 1, 2],
    &[2, 0, 1],
    &[0, 0, 1],
    &[1, 2, 2],
    &[1, 1, 1],
    &[2, 1, 2],
];

fn described() -> &'static [([u8; 5], u32, Listed)] {
    &DESCRIBED
}

fn solved() -> &'static [(Written, &'static [u8])] {
    &SOLVED
}

fn unsolved() -> &'static [Written] {
    &UNSOLVED
}

fn scopes() -> &'static [&'static [u32]] {
    &SCOPES
}

#[test]
fn the_equations_have_the_rows_alone_as_solutions(rt: HostRuntime) -> Result<(), Fail> {
    for (labels, size, rows) in described() {
        same_rows(&rt, rt.alloc(), *labels, *size, rows)?;
    }
    Ok(())
}

#[test]
fn finds_the_one_solution(rt: HostRuntime) -> Result<(), Fail> {
    for (written, values) in solved() {
        let found = solution(&rt, rt.alloc(), written)?.ok_or("a solution")?;
        assert_eq!(rt; found.as_slice(), *values, "not {values:?}");
    }
    Ok(())
}

#[test]
fn without_a_solution_there_is_a_combination(rt: HostRuntime) -> Result<(), Fail> {
    for written in unsolved() {
        assert!(rt; solution(&rt, rt.alloc(), written)?.is_none());
    }
    Ok(())
}

#[test]
fn decides_as_all_assignments_do(rt: HostRuntime) -> Result<(), Fail> {
    let systems: [(u32, &'static [Listed]); 2] = [(2, &[EVEN, ODD]), (3, &[SUM_IS_0, SUM_IS_1])];
    for (size, relations) in systems {
        let language = language(&rt, rt.alloc(), size, relations)?;
        for first in scopes() {
            for second in scopes() {
                for third in scopes() {
                    let constraints = [(0, *first), (1, *second), (1, *third)];
                    decides(&rt, rt.alloc(), &language, &constraints)?;
                }
            }
        }
    }
    Ok(())
}

#[test]
fn goes_to_the_limits(rt: HostRuntime) -> Result<(), Fail> {
    let alloc = rt.alloc();
    let d = Domain::new(5).expect(&rt, "five values");
    let mut language = Language::new(alloc, d);
    language.add(b"zero", sums_of_four(&rt, alloc, d, 0)?)?;
    language.add(b"one", sums_of_four(&rt, alloc, d, 1)?)?;
    let mut wide = instance(&rt, alloc, 40, &[])?;
    for c in 0..255u32 {
        let scope = [c % 40, (c + 1) % 40, (c * 7 + 2) % 40, (c / 40 + 3) % 40];
        add(&rt, &mut wide, 1, &scope)?;
    }
    let values = answer(&rt, alloc, &language, &wide, NATURAL)?.ok_or("a solution")?;
    assert!(rt; is_solution(&rt, &language, &wide, values.as_slice()));
    add(&rt, &mut wide, 0, &[0, 1, 2, 3])?;
    assert!(rt; answer(&rt, alloc, &language, &wide, NATURAL)?.is_none());
    Ok(())
}

/// The four values with this sum modulo 5.
fn sums_of_four(rt: &impl Abort, alloc: Global, d: Domain, right: u8) -> Result<Relation, Fail>
    ensures domain { IfOk result (λ r. r.domain ≡ d) }
{
    let mut rows = Values::new(alloc);
    for number in 0..125u8 {
        let (x, y, z) = (number / 25, number / 5 % 5, number % 5);
        rows.append(&[x, y, z, (right % 5 + 15 - x - y - z) % 5])?;
    }
    relation(rt, alloc, d, 4, rows.as_slice())
}

/// That the instance of three variables is decided as by all its assignments.
fn decides(
    rt: &impl Abort,
    alloc: Global,
    language: &Language,
    constraints: &[On],
) -> Result<(), Fail> {
    let instance = instance(rt, alloc, 3, constraints)?;
    let found = answer(rt, alloc, language, &instance, NATURAL)?;
    let size = language.domain().size();
    let mut solvable = false;
    for x in 0..size {
        for y in 0..size {
            for z in 0..size {
                if is_solution(rt, language, &instance, &[x, y, z]) {
                    solvable = true;
                }
            }
        }
    }
    match found {
        Some(values) => assert!(rt; is_solution(rt, language, &instance, values.as_slice())),
        None => assert!(rt; !solvable, "at {constraints:?}"),
    }
    Ok(())
}

/// The solution of the instance. None where there is none, and the combination shows it.
fn solution(rt: &impl Abort, alloc: Global, written: &Written) -> Result<Option<Values>, Fail> {
    let (labels, size, relations, variables, constraints) = written;
    let language = language(rt, alloc, *size, relations)?;
    let instance = instance(rt, alloc, *variables, constraints)?;
    answer(rt, alloc, &language, &instance, *labels)
}

fn answer(
    rt: &impl Abort,
    alloc: Global,
    language: &Language,
    instance: &Instance,
    labels: [u8; 5],
) -> Result<Option<Values>, Fail> {
    let affine = Affine::new(language.domain(), labels).ok_or("a labelling")?;
    let op = affine.table(alloc)?;
    assert!(rt; op.domain() == language.domain());
    assert!(rt; preserves(&op, language));
    assert!(rt; instance.fits(language));
    assert!(rt; instance.variables() <= 40);
    assert!(rt; instance.constraints() <= 256);
    match solve_affine(alloc, language, instance, &op)? {
        SumAnswer::Yes(values) => Ok(Some(values)),
        SumAnswer::No(combination) => {
            assert_eq!(rt; check_combination(language, instance, &combination), Ok(()));
            for i in 0..combination.len() {
                assert!(rt; combination.part(i).multiplier != 0);
            }
            Ok(None)
        }
    }
}

/// That of all tuples exactly the rows meet the equations.
fn same_rows(
    rt: &impl Abort,
    alloc: Global,
    labels: [u8; 5],
    size: u32,
    rows: &Listed,
) -> Result<(), Fail> {
    let d = Domain::new(size).expect(rt, "a domain");
    let (arity, rows) = rows;
    let relation = relation(rt, alloc, d, *arity, rows)?;
    let equations = equations(rt, alloc, &relation, labels)?;
    assert!(rt; 1 <= *arity && *arity <= 3);
    for x in 0..d.size() {
        for y in 0..d.size() {
            for z in 0..d.size() {
                let tuple = &[x, y, z][..*arity as usize];
                assert!(rt; tuple.iter().all(|value| *value < d.size()));
                assert!(rt; tuple.len() == relation.arity() as usize && relation.domain() == d);
                let meets = are_met(rt, d.size(), &equations, labels, tuple);
                assert_eq!(rt; meets, relation.has(tuple), "at {tuple:?}");
            }
        }
    }
    Ok(())
}

/// The equations of the relation, which the operation of the labels has to preserve.
fn equations(
    rt: &impl Abort,
    alloc: Global,
    relation: &Relation,
    labels: [u8; 5],
) -> Result<Equations, Fail> {
    let affine = Affine::new(relation.domain(), labels).ok_or("a labelling")?;
    let op = affine.table(alloc)?;
    assert!(rt; op.domain() == relation.domain());
    assert!(rt; op.preserves(relation));
    Ok(equations_of(alloc, relation, labels)?)
}

/// Whether the labels of the tuple meet all equations.
fn are_met(
    rt: &impl Abort,
    size: u8,
    equations: &Equations,
    labels: [u8; 5],
    tuple: &[u8],
) -> bool {
    for i in 0..equations.len() {
        if !is_met(rt, size, equations.get(i), labels, tuple) {
            return false;
        }
    }
    true
}

/// Whether the labels of the tuple meet the equation.
fn is_met(rt: &impl Abort, size: u8, equation: &Equation, labels: [u8; 5], tuple: &[u8]) -> bool {
    let mut sum = 0u32;
    for (i, value) in tuple.iter().enumerate() {
        assert!(rt; i < equation.coefs().len() && *value < 5 && sum < 1000);
        sum += u32::from(equation.coefs()[i]) * u32::from(labels[*value as usize]);
    }
    assert!(rt; 0 < size);
    sum % u32::from(size) == u32::from(equation.right())
}
