//! Arc consistency, and the solver of set functions, on instances whose answers were found by hand.
ghost use Rattle.std.specs.Prelude.{◌≡◌, IsTrue};
ghost use Rattle.pol_optable.specs.SetFunctions.{IsSetPolymorphism};

use crate::fixtures::{Listed, On, add, instance, language};
use pol_arc::{Consistency, arc, solve_width_one};
use pol_base::Values;
use pol_nogood::{LogAnswer, check_log};
use pol_optable::SetFn;
use pol_relation::{Instance, Language};
use std::alloc::Global;
use std::process::Abort;
use std::test::Fail;

/// An instance: the size of the domain, the relations, the number of variables, and the constraints.
type Written = (u32, &'static [Listed], u32, &'static [On]);

const LESS: Listed = (2, &[0, 1, 0, 2, 1, 2]);

const UNEQUAL: Listed = (2, &[0, 1, 1, 0]);

const IMPLIES: Listed = (2, &[0, 0, 0, 1, 1, 1]);

/// Instances, and the values that have supports in them.
static LEFT: [(Written, &'static [u8]); 14] = [
    ((2, &[], 0, &[]), &[]),
    ((3, &[], 2, &[]), &[7, 7]),
    ((1, &[], 2, &[]), &[1, 1]),
    ((1, &[(2, &[0, 0])], 2, &[(0, &[1, 0])]), &[1, 1]),
    // a row that reads two values for a variable is no support
    (
        (
            3,
            &[(6, &[0, 0, 0, 0, 0, 0, 1, 1, 1, 1, 1, 2, 2, 2, 2, 2, 2, 2])],
            1,
            &[(0, &[0, 0, 0, 0, 0, 0])],
        ),
        &[5],
    ),
    (
        (3, &[(2, &[0, 1, 1, 1, 2, 0])], 2, &[(0, &[1, 1])]),
        &[7, 2],
    ),
    (
        (
            3,
            &[(3, &[0, 0, 1, 0, 1, 2, 1, 1, 0])],
            2,
            &[(0, &[0, 0, 1])],
        ),
        &[3, 3],
    ),
    // a value that is gone takes away the supports of others
    ((3, &[LESS], 2, &[(0, &[0, 1])]), &[3, 6]),
    ((3, &[LESS], 3, &[(0, &[0, 1]), (0, &[1, 2])]), &[1, 2, 4]),
    ((3, &[LESS], 3, &[(0, &[1, 2]), (0, &[0, 1])]), &[1, 2, 4]),
    (
        (
            3,
            &[(2, &[0, 0, 1, 1, 2, 2]), (1, &[0, 2])],
            3,
            &[(0, &[0, 1]), (0, &[1, 2]), (1, &[2])],
        ),
        &[5, 5, 5],
    ),
    // the last row supports what no other does
    (
        (3, &[(2, &[0, 0, 1, 0, 2, 1])], 2, &[(0, &[0, 1])]),
        &[7, 3],
    ),
    // values that no solution has, but that have supports
    (
        (
            2,
            &[UNEQUAL],
            3,
            &[(0, &[0, 1]), (0, &[1, 2]), (0, &[2, 0])],
        ),
        &[3, 3, 3],
    ),
    (
        (2, &[IMPLIES, (1, &[1])], 2, &[(0, &[0, 1]), (1, &[1])]),
        &[3, 2],
    ),
];

/// Instances with a variable to which arc consistency leaves no value.
static WIPED: [Written; 6] = [
    (3, &[LESS, (1, &[])], 2, &[(0, &[0, 1]), (1, &[1])]),
    (1, &[(1, &[])], 1, &[(0, &[0])]),
    (3, &[LESS], 2, &[(0, &[0, 1]), (0, &[1, 0])]),
    (3, &[LESS], 1, &[(0, &[0, 0])]),
    (3, &[LESS], 4, &[(0, &[0, 1]), (0, &[1, 2]), (0, &[2, 3])]),
    (
        3,
        &[(6, &[0, 0, 0, 0, 0, 1])],
        1,
        &[(0, &[0, 0, 0, 0, 0, 0])],
    ),
];

/// Instances, set functions that preserve their relations, and the solutions that these give.
static SOLVED: [(Written, &'static [u8], &'static [u8]); 3] = [
    // the least value of a set
    (
        (3, &[LESS], 3, &[(0, &[1, 2])]),
        &[0, 1, 0, 2, 0, 1, 0],
        &[0, 0, 1],
    ),
    // the greatest value of a set
    (
        (3, &[LESS], 3, &[(0, &[1, 2])]),
        &[0, 1, 1, 2, 2, 2, 2],
        &[2, 1, 2],
    ),
    (
        (2, &[(2, &[0, 1, 1, 0, 1, 1])], 2, &[(0, &[0, 1])]),
        &[0, 1, 1],
        &[1, 1],
    ),
];

static UNSOLVED: [Written; 2] = [
    (3, &[LESS], 2, &[(0, &[0, 1]), (0, &[1, 0])]),
    (3, &[LESS], 4, &[(0, &[0, 1]), (0, &[1, 2]), (0, &[2, 3])]),
];

fn solved() -> &'static [(Written, &'static [u8], &'static [u8])] {
    &SOLVED
}

fn unsolved() -> &'static [Written] {
    &UNSOLVED
}

fn left() -> &'static [(Written, &'static [u8])] {
    &LEFT
}

fn wiped() -> &'static [Written] {
    &WIPED
}

#[test]
fn leaves_the_values_that_have_supports(rt: HostRuntime) -> Result<(), Fail> {
    for (written, masks) in left() {
        let found = consistency(&rt, rt.alloc(), written)?.ok_or("masks")?;
        assert_eq!(rt; found.as_slice(), *masks, "for {masks:?}");
    }
    Ok(())
}

#[test]
fn a_variable_without_a_value_has_a_log(rt: HostRuntime) -> Result<(), Fail> {
    for written in wiped() {
        assert!(rt; consistency(&rt, rt.alloc(), written)?.is_none());
    }
    Ok(())
}

#[test]
fn goes_through_forty_variables(rt: HostRuntime) -> Result<(), Fail> {
    let alloc = rt.alloc();
    let relations: [Listed; 3] = [IMPLIES, (1, &[0]), (1, &[1])];
    let language = language(&rt, alloc, 2, &relations)?;
    let mut chain = instance(&rt, alloc, 40, &[])?;
    for x in 0..39 {
        // against the order in which they have to be looked at
        add(&rt, &mut chain, 0, &[38 - x, 39 - x])?;
    }
    let free = masks_of(&rt, alloc, &language, &chain)?.ok_or("masks")?;
    assert_eq!(rt; free.as_slice(), [3; 40].as_slice());
    add(&rt, &mut chain, 2, &[0])?;
    let forced = masks_of(&rt, alloc, &language, &chain)?.ok_or("masks")?;
    assert_eq!(rt; forced.as_slice(), [2; 40].as_slice());
    add(&rt, &mut chain, 1, &[39])?;
    assert!(rt; masks_of(&rt, alloc, &language, &chain)?.is_none());
    Ok(())
}

#[test]
fn a_set_function_gives_the_values_of_a_solution(rt: HostRuntime) -> Result<(), Fail> {
    for (written, cells, values) in solved() {
        let found = solution(&rt, rt.alloc(), written, cells)?.ok_or("a solution")?;
        assert_eq!(rt; found.as_slice(), *values, "by {cells:?}");
    }
    Ok(())
}

#[test]
fn without_a_solution_there_is_a_log(rt: HostRuntime) -> Result<(), Fail> {
    for written in unsolved() {
        assert!(rt; solution(&rt, rt.alloc(), written, &[0, 1, 0, 2, 0, 1, 0])?.is_none());
    }
    Ok(())
}

/// The solution by the set function with these cells. None where there is none, and the log shows it.
fn solution(
    rt: &impl Abort,
    alloc: Global,
    written: &Written,
    cells: &[u8],
) -> Result<Option<Values>, Fail> {
    let (size, relations, variables, constraints) = written;
    let language = language(rt, alloc, *size, relations)?;
    let instance = instance(rt, alloc, *variables, constraints)?;
    solved_by(rt, alloc, &language, &instance, cells)
}

fn solved_by(
    rt: &impl Abort,
    alloc: Global,
    language: &Language,
    instance: &Instance,
    cells: &[u8],
) -> Result<Option<Values>, Fail> {
    let g = SetFn::from_cells(alloc, language.domain(), cells)?.ok_or("a set function")?;
    assert!(rt; g.domain() == language.domain());
    assert!(rt; preserves(&g, language));
    assert!(rt; instance.fits(language));
    assert!(rt; instance.variables() <= 40);
    match solve_width_one(alloc, language, instance, &g)? {
        LogAnswer::Yes(values) => Ok(Some(values)),
        LogAnswer::No(log) => {
            assert_eq!(rt; check_log(language, instance, &log), Ok(()));
            Ok(None)
        }
    }
}

/// The masks of the instance. None where some variable has no value left, and the log shows it.
fn consistency(rt: &impl Abort, alloc: Global, written: &Written) -> Result<Option<Values>, Fail> {
    let (size, relations, variables, constraints) = written;
    let language = language(rt, alloc, *size, relations)?;
    let instance = instance(rt, alloc, *variables, constraints)?;
    masks_of(rt, alloc, &language, &instance)
}

fn masks_of(
    rt: &impl Abort,
    alloc: Global,
    language: &Language,
    instance: &Instance,
) -> Result<Option<Values>, Fail> {
    assert!(rt; instance.fits(language));
    assert!(rt; instance.variables() <= 40);
    match arc(alloc, language, instance)? {
        Consistency::Domains(masks) => Ok(Some(masks)),
        Consistency::Wiped(log) => {
            assert_eq!(rt; check_log(language, instance, &log), Ok(()));
            Ok(None)
        }
    }
}

/// Whether the set function preserves each relation of the language.
fn preserves(g: &SetFn, language: &Language) -> bool
    requires domain { g.now.domain ≡ language.now.domain }
    ensures preserves { IsTrue result → IsSetPolymorphism g.now language.now }
{
    for i in 0..language.len() {
        if !g.preserves(language.relation(i)) {
            return false;
        }
    }
    true
}
