//! Relations, languages and instances as they are made, and the solutions of small instances.
ghost use Rattle.std.specs.Prelude.{◌≡◌, IfOk};

use pol_base::{Domain, Values};
use pol_relation::{AddFault, Instance, Language, Relation};
use std::alloc::Global;
use std::process::Abort;
use std::test::Fail;

#[test]
fn rows_stand_in_order_each_once(rt: HostRuntime) -> Result<(), Fail> {
    let d = Domain::new(3).expect(&rt, "three values");
    let cases = [
        (1u32, [].as_slice(), [].as_slice()),
        (1, [2, 0, 2].as_slice(), [0, 2].as_slice()),
        (
            2,
            [2, 0, 0, 1, 2, 0, 0, 0].as_slice(),
            [0, 0, 0, 1, 2, 0].as_slice(),
        ),
        (
            6,
            [2, 1, 0, 2, 1, 0, 2, 1, 0, 2, 0, 1].as_slice(),
            [2, 1, 0, 2, 0, 1, 2, 1, 0, 2, 1, 0].as_slice(),
        ),
    ];
    for (arity, tuples, rows) in cases {
        assert!(rt; 1 <= arity && arity <= 6);
        assert!(rt; tuples.len() % arity as usize == 0);
        assert!(rt; tuples.iter().all(|value| *value < d.size()));
        let relation = Relation::from_rows(rt.alloc(), d, arity, tuples)?;
        let mut read = Values::new(rt.alloc());
        for i in 0..relation.len() {
            assert!(rt; relation.has(relation.row(i)));
            read.append(relation.row(i))?;
        }
        assert_eq!(rt; read.as_slice(), rows, "at {tuples:?}");
        assert_eq!(rt; relation.is_empty(), rows.is_empty(), "at {tuples:?}");
    }
    Ok(())
}

#[test]
fn has_its_rows_alone(rt: HostRuntime) -> Result<(), Fail> {
    let d = Domain::new(3).expect(&rt, "three values");
    let mut relation = Relation::from_rows(rt.alloc(), d, 2, &[2, 0])?;
    relation.insert(&[0, 1])?;
    let copy = relation.copy()?;
    for x in 0..3 {
        for y in 0..3 {
            let is_row = (x, y) == (2, 0) || (x, y) == (0, 1);
            assert_eq!(rt; copy.has(&[x, y]), is_row, "at {x} {y}");
        }
    }
    Ok(())
}

#[test]
fn numbers_its_relations_as_they_come(rt: HostRuntime) -> Result<(), Fail> {
    let alloc = rt.alloc();
    let d = Domain::new(2).expect(&rt, "two values");
    let mut language = Language::new(alloc, d);
    for (name, arity, number) in [
        (b"neq".as_slice(), 2, Ok(0)),
        (b"ne".as_slice(), 1, Ok(1)),
        (b"neq".as_slice(), 3, Err(AddFault::Repeated)),
    ] {
        assert!(rt; language.len() < 4096 && language.domain() == d);
        let relation = relation(&rt, alloc, d, arity, &[])?;
        assert_eq!(rt; language.add(name, relation), number, "at {name:?} {arity}");
    }
    assert_eq!(rt; language.len(), 2);
    assert_eq!(rt; language.name(1), b"ne".as_slice());
    assert_eq!(rt; language.relation(0).arity(), 2);
    for (name, number) in [
        (b"neq".as_slice(), Some(0)),
        (b"ne".as_slice(), Some(1)),
        (b"n".as_slice(), None),
    ] {
        assert_eq!(rt; language.find(name), number, "at {name:?}");
    }
    Ok(())
}

#[test]
fn a_tuple_goes_into_the_last_relation(rt: HostRuntime) -> Result<(), Fail> {
    let alloc = rt.alloc();
    let d = Domain::new(2).expect(&rt, "two values");
    let mut language = Language::new(alloc, d);
    language.add(b"none", Relation::from_rows(alloc, d, 1, &[])?)?;
    language.add(b"all", Relation::from_rows(alloc, d, 1, &[1])?)?;
    language.insert(&[0])?;
    language.insert(&[1])?;
    assert_eq!(rt; language.relation(0).len(), 0);
    assert_eq!(rt; language.relation(1).len(), 2);
    assert_eq!(rt; language.relation(1).row(0), [0].as_slice());
    Ok(())
}

fn relation(
    rt: &impl Abort,
    alloc: Global,
    d: Domain,
    arity: u32,
    rows: &[u8],
) -> Result<Relation, Fail>
    ensures domain { IfOk result (λ r. r.domain ≡ d) }
{
    let size = d.size();
    assert!(rt; 1 <= arity && arity <= 6);
    assert!(rt; rows.len() % arity as usize == 0);
    assert!(rt; rows.iter().all(|value| *value < size));
    Ok(Relation::from_rows(alloc, d, arity, rows)?)
}

#[test]
fn the_sums_over_two_relations(rt: HostRuntime) -> Result<(), Fail> {
    let alloc = rt.alloc();
    let d = Domain::new(4).expect(&rt, "four values");
    let pairs = [
        0, 0, 0, 1, 0, 2, 0, 3, 1, 0, 1, 1, 1, 2, 1, 3, 2, 0, 2, 1, 2, 2, 2, 3, 3, 0, 3, 1, 3, 2,
        3, 3,
    ];
    let mut language = Language::new(alloc, d);
    language.add(b"all", relation(&rt, alloc, d, 2, &pairs)?)?;
    language.add(b"two", relation(&rt, alloc, d, 1, &[1, 3])?)?;
    assert_eq!(rt; language.weight(1), 18);
    assert_eq!(rt; language.weight(3), 4104);
    assert_eq!(rt; language.weight(16), u64::MAX);
    assert_eq!(rt; language.subset_weight(), 240);
    Ok(())
}

#[test]
fn numbers_its_variables_as_they_come(rt: HostRuntime) -> Result<(), Fail> {
    let mut instance = Instance::new(rt.alloc(), b"small")?;
    assert_eq!(rt; instance.add_variable(b"x"), Ok(0));
    assert_eq!(rt; instance.add_variable(b"y"), Ok(1));
    assert_eq!(rt; instance.add_variable(b"x"), Err(AddFault::Repeated));
    assert_eq!(rt; instance.name(), b"small".as_slice());
    assert_eq!(rt; instance.variables(), 2);
    assert_eq!(rt; instance.variable(1), b"y".as_slice());
    for (name, number) in [
        (b"x".as_slice(), Some(0)),
        (b"y".as_slice(), Some(1)),
        (b"z".as_slice(), None),
    ] {
        assert_eq!(rt; instance.find_variable(name), number, "at {name:?}");
    }
    Ok(())
}

#[test]
fn numbers_its_constraints_as_they_come(rt: HostRuntime) -> Result<(), Fail> {
    let mut instance = Instance::new(rt.alloc(), b"small")?;
    instance.add_variable(b"x")?;
    instance.add_variable(b"y")?;
    instance.add_constraint(3, &[1, 0, 1])?;
    instance.add_constraint(0, &[0])?;
    assert_eq!(rt; instance.constraints(), 2);
    for (c, relation, scope) in [(0, 3, [1, 0, 1].as_slice()), (1, 0, [0].as_slice())] {
        assert!(rt; c < instance.constraints());
        assert_eq!(rt; instance.relation_of(c), relation, "at {c}");
        assert_eq!(rt; instance.scope(c), scope, "at {c}");
    }
    Ok(())
}

/// Two values, relation 0 of the pairs of different values, and relation 1 of three triples.
fn language(rt: &impl Abort, alloc: Global) -> Result<Language, Fail> {
    let d = Domain::new(2).expect(rt, "two values");
    let mut language = Language::new(alloc, d);
    language.add(b"neq", Relation::from_rows(alloc, d, 2, &[0, 1, 1, 0])?)?;
    let triples = Relation::from_rows(alloc, d, 3, &[0, 0, 1, 0, 1, 0, 1, 1, 0])?;
    language.add(b"triples", triples)?;
    Ok(language)
}

/// Three variables under these constraints.
fn instance(
    rt: &impl Abort,
    alloc: Global,
    constraints: &[(u32, &[u32])],
) -> Result<Instance, Fail> {
    let mut instance = Instance::new(alloc, b"small")?;
    instance.add_variable(b"x")?;
    instance.add_variable(b"y")?;
    instance.add_variable(b"z")?;
    for (relation, scope) in constraints {
        add_constraint(rt, &mut instance, *relation, scope)?;
    }
    Ok(instance)
}

fn add_constraint(
    rt: &impl Abort,
    instance: &mut Instance,
    relation: u32,
    scope: &[u32],
) -> Result<(), Fail> {
    let variables = instance.variables();
    assert!(rt; instance.constraints() < 4096);
    assert!(rt; 1 <= scope.len() && scope.len() <= 6);
    assert!(rt; scope.iter().all(|variable| *variable < variables));
    instance.add_constraint(relation, scope)?;
    Ok(())
}

fn is_solution(
    rt: &impl Abort,
    language: &Language,
    instance: &Instance,
    assignment: &[u8],
) -> bool {
    let d = language.domain().size();
    assert!(rt; instance.fits(language));
    assert!(rt; assignment.len() == instance.variables() as usize);
    assert!(rt; assignment.iter().all(|value| *value < d));
    instance.is_solution(language, assignment)
}

/// The solutions among all assignments of three variables, one behind another.
fn solutions(
    rt: &impl Abort,
    alloc: Global,
    language: &Language,
    instance: &Instance,
) -> Result<Values, Fail> {
    let mut solutions = Values::new(alloc);
    for number in 0u8..8 {
        let assignment = [number / 4, number / 2 % 2, number % 2];
        if is_solution(rt, language, instance, &assignment) {
            solutions.append(&assignment)?;
        }
    }
    Ok(solutions)
}

#[test]
fn all_solutions_of_small_instances(rt: HostRuntime) -> Result<(), Fail> {
    let alloc = rt.alloc();
    let language = language(&rt, alloc)?;
    let path = [(0, [0, 1].as_slice()), (0, [1, 2].as_slice())];
    let triangle = [
        (0, [0, 1].as_slice()),
        (0, [1, 2].as_slice()),
        (0, [2, 0].as_slice()),
    ];
    let repeated = [(1, [0, 1, 0].as_slice())];
    let cases = [
        (path.as_slice(), [0, 1, 0, 1, 0, 1].as_slice()),
        (triangle.as_slice(), [].as_slice()),
        (repeated.as_slice(), [0, 1, 0, 0, 1, 1].as_slice()),
    ];
    for (constraints, by_hand) in cases {
        let instance = instance(&rt, alloc, constraints)?;
        let solutions = solutions(&rt, alloc, &language, &instance)?;
        assert_eq!(rt; solutions.as_slice(), by_hand, "at {constraints:?}");
    }
    Ok(())
}

#[test]
fn fits_by_its_relations_and_their_arities(rt: HostRuntime) -> Result<(), Fail> {
    let alloc = rt.alloc();
    let language = language(&rt, alloc)?;
    let cases = [
        (0, [0, 2].as_slice(), true),
        (0, [0].as_slice(), false),
        (1, [2, 2, 1].as_slice(), true),
        (1, [0, 1].as_slice(), false),
        (2, [0, 1].as_slice(), false),
    ];
    for (relation, scope, fits) in cases {
        let instance = instance(&rt, alloc, &[(relation, scope)])?;
        assert_eq!(rt; instance.fits(&language), fits, "at {relation} {scope:?}");
    }
    Ok(())
}
