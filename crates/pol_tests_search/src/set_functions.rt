//! The fold of a minimum, and the least set functions of small languages.
use pol_base::Domain;
use pol_identity::{Identity, Semilattice};
use pol_optable::OpTable;
use pol_relation::{Language, Relation};
use pol_setfn::{fold, least_setfn};
use std::test::Fail;

#[test]
fn folds_the_minimum_of_three_values(rt: HostRuntime) -> Result<(), Fail> {
    let d = Domain::new(3).expect(&rt, "a domain");
    let minimum = OpTable::<2>::from_cells(rt.alloc(), d, &[0, 0, 0, 0, 1, 1, 0, 1, 2])?;
    let minimum = minimum.ok_or("a table")?;
    assert!(rt; Semilattice.holds(&minimum));
    let least = fold(rt.alloc(), &minimum)?;
    assert_eq!(rt; least.cells(), [0, 1, 0, 2, 0, 1, 0].as_slice());
    Ok(())
}

#[test]
fn the_least_set_function_of_two_relations(rt: HostRuntime) -> Result<(), Fail> {
    let alloc = rt.alloc();
    let d = Domain::new(3).expect(&rt, "a domain");
    let mut language = Language::new(alloc, d);
    let pp = Relation::from_rows(alloc, d, 3, &[0, 0, 0, 0, 2, 2, 2, 0, 2, 2, 2, 0])?;
    language.add(b"pp", pp)?;
    language.add(b"one", Relation::from_rows(alloc, d, 1, &[1])?)?;
    let least = least_setfn(alloc, &language, false)?.ok_or("a set function")?;
    assert_eq!(rt; least.cells(), [0, 1, 0, 0, 0, 0, 0].as_slice());
    assert!(rt; least_setfn(alloc, &language, true)?.is_none());
    Ok(())
}

#[test]
fn without_relations_the_first_set_function_and_the_first_idempotent_one(
    rt: HostRuntime,
) -> Result<(), Fail> {
    let d = Domain::new(2).expect(&rt, "a domain");
    let language = Language::new(rt.alloc(), d);
    let first = least_setfn(rt.alloc(), &language, false)?.ok_or("a set function")?;
    assert_eq!(rt; first.cells(), [0, 0, 0].as_slice());
    let idempotent = least_setfn(rt.alloc(), &language, true)?.ok_or("a set function")?;
    assert_eq!(rt; idempotent.cells(), [0, 1, 0].as_slice());
    Ok(())
}

#[test]
fn the_set_of_the_second_value_has_an_idempotent_set_function(rt: HostRuntime) -> Result<(), Fail> {
    let d = Domain::new(2).expect(&rt, "a domain");
    let mut language = Language::new(rt.alloc(), d);
    language.add(b"one", Relation::from_rows(rt.alloc(), d, 1, &[1])?)?;
    let idempotent = least_setfn(rt.alloc(), &language, true)?.ok_or("a set function")?;
    assert_eq!(rt; idempotent.cells(), [0, 1, 0].as_slice());
    Ok(())
}

#[test]
fn inequality_has_no_set_function(rt: HostRuntime) -> Result<(), Fail> {
    let d = Domain::new(2).expect(&rt, "a domain");
    let mut language = Language::new(rt.alloc(), d);
    language.add(
        b"neq",
        Relation::from_rows(rt.alloc(), d, 2, &[0, 1, 1, 0])?,
    )?;
    assert!(rt; least_setfn(rt.alloc(), &language, false)?.is_none());
    Ok(())
}
