//! The log of a triangle of unequal values and its changes, and what trimming leaves of a log.
ghost use Rattle.std.specs.Prelude.{◌≡◌, ◌+◌, ◌^◌, ◌≤◌, length, OnOk};

use pol_base::{Domain, NoMemory, Numbers};
use pol_nogood::{Log, LogFault, Nogood, Step, Why, check_log, trimmed};
use pol_relation::{Instance, Language, Relation};
use std::alloc::Global;
use std::mem::size_of;
use std::process::Abort;
use std::test::Fail;

/// What a step rests on.
#[derive(Clone, Copy)]
enum By {
    Constraint(u32),
    Variable(u32),
}

/// A step as it is written: what it rests on, its pairs, its references.
type Written = (By, &'static [(u32, u8)], &'static [u32]);

/// The log of the triangle of unequal values. Two equal values of a constraint's variables are refuted
/// by the constraint, and then one variable after another is left out.
static TRIANGLE: [Written; 11] = [
    (By::Constraint(0), &[(0, 0), (1, 0)], &[]),
    (By::Constraint(0), &[(0, 1), (1, 1)], &[]),
    (By::Constraint(1), &[(1, 0), (2, 0)], &[]),
    (By::Constraint(1), &[(1, 1), (2, 1)], &[]),
    (By::Constraint(2), &[(0, 0), (2, 0)], &[]),
    (By::Constraint(2), &[(0, 1), (2, 1)], &[]),
    (By::Variable(1), &[(0, 0), (2, 1)], &[0, 3]),
    (By::Variable(2), &[(0, 0)], &[4, 6]),
    (By::Variable(1), &[(0, 1), (2, 0)], &[2, 1]),
    (By::Variable(2), &[(0, 1)], &[8, 5]),
    (By::Variable(0), &[], &[7, 9]),
];

/// Steps in place of those with these numbers, and the faults that are there then.
static CHANGED: [(usize, &'static [Written], Why); 11] = [
    (
        0,
        &[(By::Constraint(3), &[(0, 0), (1, 0)], &[])],
        Why::BadPlace,
    ),
    (
        0,
        &[(By::Constraint(0), &[(1, 0), (0, 0)], &[])],
        Why::BadPlace,
    ),
    (
        0,
        &[(By::Constraint(0), &[(0, 2), (1, 0)], &[])],
        Why::BadPlace,
    ),
    (0, &[(By::Constraint(0), &[], &[])], Why::WrongCount),
    (
        6,
        &[(By::Variable(3), &[(0, 0), (2, 1)], &[0, 3])],
        Why::BadPlace,
    ),
    (
        6,
        &[(By::Variable(1), &[(0, 0), (2, 1)], &[0, 10])],
        Why::BadReference,
    ),
    (
        6,
        &[(By::Variable(1), &[(0, 0), (2, 1)], &[0, 6])],
        Why::BadReference,
    ),
    (
        6,
        &[(By::Variable(1), &[(0, 0), (2, 1)], &[3, 0])],
        Why::NotContained,
    ),
    (
        6,
        &[(By::Variable(1), &[(0, 0), (2, 1)], &[0])],
        Why::WrongCount,
    ),
    (
        6,
        &[(By::Variable(1), &[(0, 0), (2, 1)], &[0, 3, 0])],
        Why::WrongCount,
    ),
    (7, &[(By::Variable(0), &[(0, 0)], &[4, 6])], Why::BadPlace),
];

/// The last step does not lead to steps 1 and 4, and refers to a step that is not there.
static LOOSE: [Written; 6] = [
    (By::Constraint(0), &[(0, 0), (1, 0)], &[]),
    (By::Constraint(1), &[(0, 1)], &[]),
    (By::Constraint(2), &[(2, 0)], &[]),
    (By::Variable(1), &[(3, 1)], &[0, 2]),
    (By::Variable(2), &[], &[1, 3]),
    (By::Variable(0), &[(4, 2)], &[3, 2, 9]),
];

/// What the last step of that log leads to.
static KEPT: [Written; 4] = [
    (By::Constraint(0), &[(0, 0), (1, 0)], &[]),
    (By::Constraint(2), &[(2, 0)], &[]),
    (By::Variable(1), &[(3, 1)], &[0, 1]),
    (By::Variable(0), &[(4, 2)], &[2, 1, 9]),
];

fn loose() -> &'static [Written]
    ensures steps { length result.now ≡ 6 }
{
    &LOOSE
}

fn kept() -> &'static [Written]
    ensures steps { length result.now ≡ 4 }
{
    &KEPT
}

fn triangle() -> &'static [Written]
    ensures steps { length result.now ≡ 11 }
{
    &TRIANGLE
}

fn changed_steps() -> &'static [(usize, &'static [Written], Why)] {
    &CHANGED
}

#[test]
fn a_changed_step_has_its_fault(rt: HostRuntime) -> Result<(), Fail> {
    let steps = triangle();
    for (place, step, why) in changed_steps() {
        assert!(rt; *place < steps.len());
        let (before, behind) = (&steps[..*place], &steps[*place + 1..]);
        let answer = checked(&rt, rt.alloc(), 3, before, step, behind)?;
        assert_eq!(rt; answer, fault(*place as u32, *why), "at {place}");
    }
    Ok(())
}

#[test]
fn a_log_ends_with_the_empty_nogood(rt: HostRuntime) -> Result<(), Fail> {
    let steps = triangle();
    let (front, last) = steps.split_at(10);
    let nothing = checked(&rt, rt.alloc(), 3, &[], &[], &[])?;
    assert_eq!(rt; nothing, fault(0, Why::NoEmptyEnd));
    let shortened = checked(&rt, rt.alloc(), 3, front, &[], &[])?;
    assert_eq!(rt; shortened, fault(10, Why::NoEmptyEnd));
    let whole = checked(&rt, rt.alloc(), 3, front, last, &[])?;
    assert_eq!(rt; whole, Ok(()));
    let longer = checked(&rt, rt.alloc(), 3, front, last, last)?;
    assert_eq!(rt; longer, Ok(()));
    Ok(())
}

#[test]
fn two_constraints_are_not_refuted_by_the_log(rt: HostRuntime) -> Result<(), Fail> {
    let answer = checked(&rt, rt.alloc(), 2, triangle(), &[], &[])?;
    assert_eq!(rt; answer, fault(4, Why::BadPlace));
    Ok(())
}

#[test]
fn a_nogood_takes_16_bytes(rt: HostRuntime) -> Result<(), Fail> {
    assert_eq!(rt; size_of::<Nogood>(), 16);
    Ok(())
}

#[test]
fn steps_that_the_last_does_not_lead_to_are_left_out(rt: HostRuntime) -> Result<(), Fail> {
    let mut log = Log::new(rt.alloc());
    assert!(rt; trimmed(rt.alloc(), &log)?.is_empty());
    push_steps(rt.alloc(), &mut log, loose())?;
    let part = trimmed(rt.alloc(), &log)?;
    assert_eq!(rt; part.len() as usize, kept().len());
    for (s, written) in kept().iter().enumerate() {
        assert!(rt; is_written(part.step(s as u32), written), "at {s}");
    }
    Ok(())
}

fn fault(step: u32, why: Why) -> Result<(), LogFault> {
    Err(LogFault { step, why })
}

/// Checks the log of these steps, one list behind another, for the first constraints of the triangle.
fn checked(
    rt: &impl Abort,
    alloc: Global,
    constraints: usize,
    before: &[Written],
    step: &[Written],
    behind: &[Written],
) -> Result<Result<(), LogFault>, Fail> {
    let d = Domain::new(2).expect(rt, "two values");
    let mut language = Language::new(alloc, d);
    language.add(b"neq", Relation::from_rows(alloc, d, 2, &[0, 1, 1, 0])?)?;
    let instance = triangle_of(rt, alloc, constraints)?;
    assert!(rt; instance.fits(&language));
    let mut log = Log::new(alloc);
    assert!(rt; before.len() < 100 && step.len() < 100 && behind.len() < 100);
    push_steps(alloc, &mut log, before)?;
    push_steps(alloc, &mut log, step)?;
    push_steps(alloc, &mut log, behind)?;
    Ok(check_log(&language, &instance, &log))
}

fn triangle_of(rt: &impl Abort, alloc: Global, constraints: usize) -> Result<Instance, Fail> {
    let mut instance = Instance::new(alloc, b"tri")?;
    for name in [b"x", b"y", b"z"] {
        assert!(rt; instance.variables() < 3);
        instance.add_variable(name)?;
    }
    for scope in [[0, 1], [1, 2], [2, 0]].iter().take(constraints) {
        assert!(rt; instance.constraints() < 3);
        assert!(rt; scope[0] < instance.variables() && scope[1] < instance.variables());
        instance.add_constraint(0, scope)?;
    }
    Ok(instance)
}

fn push_steps(alloc: Global, log: &mut Log, steps: &[Written]) -> Result<(), NoMemory>
    requires few { length log.old + length steps.now ≤ 2 ^ 31 }
    ensures ok { OnOk result (length log.new ≡ length log.old + length steps.now) }
{
    for (by, pairs, references) in steps {
        let nogood = nogood_of(pairs);
        let refs = Numbers::from_slice(alloc, references)?;
        log.push(match *by {
            By::Constraint(c) => Step::ByConstraint { c, nogood, refs },
            By::Variable(v) => Step::ByVariable { v, nogood, refs },
        })?;
    }
    Ok(())
}

fn nogood_of(pairs: &[(u32, u8)]) -> Nogood {
    let mut nogood = Nogood::new();
    for (variable, value) in pairs {
        nogood.push(*variable, *value);
    }
    nogood
}

/// Whether the step is the one that is written.
fn is_written(step: &Step, written: &Written) -> bool {
    let (by, pairs, references) = *written;
    let same_basis = match (step, by) {
        (Step::ByConstraint { c, .. }, By::Constraint(number)) => *c == number,
        (Step::ByVariable { v, .. }, By::Variable(number)) => *v == number,
        _ => false,
    };
    same_basis && step.references() == references && has_pairs(step.nogood(), pairs)
}

/// Whether the nogood has these pairs in their order.
fn has_pairs(nogood: &Nogood, pairs: &[(u32, u8)]) -> bool {
    if nogood.len() as usize != pairs.len() {
        return false;
    }
    for (i, pair) in pairs.iter().enumerate() {
        if nogood.pair(i as u32) != *pair {
            return false;
        }
    }
    true
}
