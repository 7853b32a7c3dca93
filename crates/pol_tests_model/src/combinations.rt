//! Changes of a combination of two sums modulo 3, each with its fault.
use pol_base::{Domain, Values};
use pol_modp::{CombFault, Combination, Part, check_combination};
use pol_relation::{Instance, Language, Relation};
use std::alloc::Global;
use std::process::Abort;
use std::test::Fail;

/// A part as it is written: its constraint, multiplier, right side and coefficients.
type Written = (u32, u8, u8, &'static [u8]);

/// The rows whose sum is 0 modulo 3, and those whose sum is 1.
static SUM_IS_0: [u8; 27] = [
    0, 0, 0, 0, 1, 2, 0, 2, 1, 1, 0, 2, 1, 1, 1, 1, 2, 0, 2, 0, 1, 2, 1, 0, 2, 2, 2,
];

static SUM_IS_1: [u8; 27] = [
    0, 0, 1, 0, 1, 0, 0, 2, 2, 1, 0, 0, 1, 1, 2, 1, 2, 1, 2, 0, 2, 2, 1, 1, 2, 2, 0,
];

/// Three variables whose sum is 0, and is 1: once the first equation and twice the second give 0 = 2.
static SUMS: [Written; 2] = [(0, 1, 0, &[1, 1, 1]), (1, 2, 1, &[1, 1, 1])];

/// Labels and parts in place of those, and what is found then.
static CHANGED: [(&'static [u8], &'static [Written], Option<CombFault>); 13] = [
    (
        &[0, 1],
        &[(0, 1, 0, &[1, 1, 1]), (1, 2, 1, &[1, 1, 1])],
        Some(CombFault::BadLabels),
    ),
    (
        &[0, 1, 3],
        &[(0, 1, 0, &[1, 1, 1]), (1, 2, 1, &[1, 1, 1])],
        Some(CombFault::BadLabels),
    ),
    (
        &[0, 0, 0],
        &[(0, 1, 0, &[1, 1, 1]), (1, 2, 1, &[1, 1, 1])],
        Some(CombFault::NotImplied { part: 1 }),
    ),
    (
        &[0, 1, 2],
        &[(2, 1, 0, &[1, 1, 1]), (1, 2, 1, &[1, 1, 1])],
        Some(CombFault::BadPlace { part: 0 }),
    ),
    (
        &[0, 1, 2],
        &[(0, 1, 0, &[1, 1]), (1, 2, 1, &[1, 1, 1])],
        Some(CombFault::BadPlace { part: 0 }),
    ),
    (
        &[0, 1, 2],
        &[(0, 1, 3, &[1, 1, 1]), (1, 2, 1, &[1, 1, 1])],
        Some(CombFault::BadPlace { part: 0 }),
    ),
    (
        &[0, 1, 2],
        &[(0, 0, 0, &[1, 1, 1]), (1, 2, 1, &[1, 1, 1])],
        Some(CombFault::Remainder { variable: 0 }),
    ),
    (
        &[0, 1, 2],
        &[(0, 0, 0, &[1, 1, 1]), (1, 0, 1, &[1, 1, 1])],
        Some(CombFault::ZeroRight),
    ),
    (
        &[0, 1, 2],
        &[(0, 1, 0, &[1, 1, 1]), (1, 2, 0, &[1, 1, 1])],
        Some(CombFault::NotImplied { part: 1 }),
    ),
    (
        &[0, 1, 2],
        &[(0, 1, 1, &[1, 1, 1]), (1, 2, 1, &[1, 1, 1])],
        Some(CombFault::NotImplied { part: 0 }),
    ),
    (
        &[0, 1, 2],
        &[(0, 1, 0, &[1, 1, 1]), (1, 1, 1, &[1, 1, 1])],
        Some(CombFault::Remainder { variable: 0 }),
    ),
    (&[0, 1, 2], &[], Some(CombFault::ZeroRight)),
    (
        &[0, 1, 2],
        &[
            (0, 1, 0, &[1, 1, 1]),
            (1, 2, 1, &[1, 1, 1]),
            (1, 0, 1, &[1, 1, 1]),
        ],
        None,
    ),
];

fn sums() -> &'static [Written] {
    &SUMS
}

fn changed() -> &'static [(&'static [u8], &'static [Written], Option<CombFault>)] {
    &CHANGED
}

#[test]
fn a_changed_combination_has_its_fault(rt: HostRuntime) -> Result<(), Fail> {
    let alloc = rt.alloc();
    let language = sums_language(&rt, alloc)?;
    let instance = instance_of(&rt, alloc, &[b"x", b"y", b"z"], &[0, 1])?;
    for (place, (labels, parts, fault)) in changed().iter().enumerate() {
        let answer = checked(&rt, alloc, &language, &instance, labels, parts)?;
        assert_eq!(rt; answer.err(), *fault, "at {place}");
    }
    Ok(())
}

#[test]
fn a_missing_constraint_is_not_refuted(rt: HostRuntime) -> Result<(), Fail> {
    let alloc = rt.alloc();
    let language = sums_language(&rt, alloc)?;
    let both = instance_of(&rt, alloc, &[b"x", b"y", b"z"], &[0, 1])?;
    assert_eq!(rt;
        checked(&rt, alloc, &language, &both, &[0, 1, 2], sums())?,
        Ok(())
    );
    let one = instance_of(&rt, alloc, &[b"x", b"y", b"z"], &[0])?;
    let answer = checked(&rt, alloc, &language, &one, &[0, 1, 2], sums())?;
    assert_eq!(rt; answer, Err(CombFault::BadPlace { part: 1 }));
    Ok(())
}

/// Of four values, the even ones have the label 0 and the odd ones 2: x = 0 and x = 2 give 0 = 2.
#[test]
fn labels_need_not_be_one_to_one(rt: HostRuntime) -> Result<(), Fail> {
    let alloc = rt.alloc();
    let four = Domain::new(4).expect(&rt, "four values");
    let mut language = Language::new(alloc, four);
    add_rows(&rt, alloc, &mut language, b"even", 1, &[0, 2])?;
    add_rows(&rt, alloc, &mut language, b"odd", 1, &[1, 3])?;
    let instance = instance_of(&rt, alloc, &[b"x"], &[0, 1])?;
    let parts = parity_parts();
    let answer = checked(&rt, alloc, &language, &instance, &[0, 2, 0, 2], parts)?;
    assert_eq!(rt; answer, Ok(()));
    for value in 0..4 {
        assert!(rt;
            !is_solution(&rt, &language, &instance, &[value]),
            "value {value}"
        );
    }
    let distinct = checked(&rt, alloc, &language, &instance, &[0, 1, 2, 3], parts)?;
    assert_eq!(rt; distinct, Err(CombFault::NotImplied { part: 0 }));
    Ok(())
}

static PARITY_PARTS: [Written; 2] = [(0, 3, 0, &[1]), (1, 1, 2, &[1])];

fn parity_parts() -> &'static [Written] {
    &PARITY_PARTS
}

#[test]
fn one_value_is_never_refuted(rt: HostRuntime) -> Result<(), Fail> {
    let alloc = rt.alloc();
    let one = Domain::new(1).expect(&rt, "one value");
    let mut language = Language::new(alloc, one);
    language.add(b"none", Relation::new(alloc, one, 1))?;
    let instance = instance_of(&rt, alloc, &[b"x"], &[0])?;
    let nothing = checked(&rt, alloc, &language, &instance, &[0], zero_part())?;
    assert_eq!(rt; nothing, Err(CombFault::ZeroRight));
    let label = checked(&rt, alloc, &language, &instance, &[1], zero_part())?;
    assert_eq!(rt; label, Err(CombFault::BadLabels));
    Ok(())
}

static ZERO_PART: [Written; 1] = [(0, 0, 0, &[0])];

fn zero_part() -> &'static [Written] {
    &ZERO_PART
}

#[test]
fn parts_stand_in_their_order(rt: HostRuntime) -> Result<(), Fail> {
    let combination = combination_of(&rt, rt.alloc(), &[0, 1, 2], sums())?;
    assert_eq!(rt; combination.labels(), [0, 1, 2].as_slice());
    assert!(rt; !combination.is_empty() && combination.len() == 2);
    let part = combination.part(1);
    assert_eq!(rt; (part.c, part.multiplier, part.right), (1, 2, 1));
    assert_eq!(rt; part.coefs.as_slice(), [1, 1, 1].as_slice());
    Ok(())
}

/// The relations of the sums 0 and 1 modulo 3.
fn sums_language(rt: &impl Abort, alloc: Global) -> Result<Language, Fail> {
    let three = Domain::new(3).expect(rt, "three values");
    let mut language = Language::new(alloc, three);
    add_rows(rt, alloc, &mut language, b"s0", 3, &SUM_IS_0)?;
    add_rows(rt, alloc, &mut language, b"s1", 3, &SUM_IS_1)?;
    Ok(language)
}

/// Adds the relation of rows that stand one behind another.
fn add_rows(
    rt: &impl Abort,
    alloc: Global,
    language: &mut Language,
    name: &[u8],
    arity: u32,
    rows: &[u8],
) -> Result<(), Fail> {
    let d = language.domain();
    let size = d.size();
    assert!(rt; 1 <= arity && arity <= 6 && rows.len() % arity as usize == 0);
    assert!(rt; rows.iter().all(|value| *value < size) && language.len() < 4096);
    language.add(name, Relation::from_rows(alloc, d, arity, rows)?)?;
    Ok(())
}

/// Constraints of these relations, each on all of the variables.
fn instance_of(
    rt: &impl Abort,
    alloc: Global,
    names: &[&[u8]],
    relations: &[u32],
) -> Result<Instance, Fail> {
    let mut instance = Instance::new(alloc, b"i")?;
    let mut scope = Vec::new(alloc);
    for name in names {
        assert!(rt; instance.variables() < 6);
        scope.push(instance.add_variable(name)?)?;
    }
    let variables = instance.variables();
    assert!(rt; 1 <= scope.len() && scope.len() <= 6 && scope.iter().all(|x| *x < variables));
    for relation in relations {
        assert!(rt; instance.constraints() < 4096 && instance.variables() == variables);
        instance.add_constraint(*relation, &scope)?;
    }
    Ok(instance)
}

fn is_solution(rt: &impl Abort, language: &Language, instance: &Instance, values: &[u8]) -> bool {
    let size = language.domain().size();
    assert!(rt; instance.fits(language) && values.len() == instance.variables() as usize);
    assert!(rt; values.iter().all(|value| *value < size));
    instance.is_solution(language, values)
}

fn combination_of(
    rt: &impl Abort,
    alloc: Global,
    labels: &[u8],
    parts: &[Written],
) -> Result<Combination, Fail> {
    let mut combination = Combination::new(alloc, labels)?;
    for (c, multiplier, right, coefs) in parts {
        assert!(rt; combination.len() < 100);
        combination.push(Part {
            c: *c,
            multiplier: *multiplier,
            right: *right,
            coefs: Values::from_slice(alloc, coefs)?,
        })?;
    }
    Ok(combination)
}

fn checked(
    rt: &impl Abort,
    alloc: Global,
    language: &Language,
    instance: &Instance,
    labels: &[u8],
    parts: &[Written],
) -> Result<Result<(), CombFault>, Fail> {
    let combination = combination_of(rt, alloc, labels, parts)?;
    assert!(rt; instance.fits(language));
    Ok(check_combination(language, instance, &combination))
}
