//! What tables and set functions preserve, and the least rows and sets that show a break.
use pol_base::Domain;
use pol_optable::{OpTable, RowMarks, SetFn, ValueMarks};
use pol_relation::Relation;
use std::test::Fail;

#[test]
fn majority_preserves_what_the_minimum_breaks(rt: HostRuntime) -> Result<(), Fail> {
    let d = Domain::new(2).expect(&rt, "two values");
    let unequal = Relation::from_rows(rt.alloc(), d, 2, &[0, 1, 1, 0])?;
    let majority = OpTable::<3>::from_cells(rt.alloc(), d, &[0, 0, 0, 1, 0, 1, 1, 1])?;
    let majority = majority.expect(&rt, "a table of three arguments");
    assert!(rt; majority.preserves(&unequal));
    assert_eq!(rt; majority.breaks(&unequal), None);
    let minimum = OpTable::<2>::from_cells(rt.alloc(), d, &[0, 0, 0, 1])?;
    let minimum = minimum.expect(&rt, "a table of two arguments");
    assert!(rt; !minimum.preserves(&unequal));
    assert_eq!(rt; minimum.breaks(&unequal), Some([0, 1]));
    Ok(())
}

#[test]
fn rows_may_repeat(rt: HostRuntime) -> Result<(), Fail> {
    let d = Domain::new(2).expect(&rt, "two values");
    let zero = Relation::from_rows(rt.alloc(), d, 1, &[0])?;
    let unequal = Relation::from_rows(rt.alloc(), d, 2, &[0, 1, 1, 0])?;
    let none = OpTable::<3>::from_cells(rt.alloc(), d, &[1, 0, 0, 0, 0, 0, 0, 0])?;
    let none = none.expect(&rt, "whether no argument is 1");
    assert_eq!(rt; none.breaks(&zero), Some([0, 0, 0]));
    let all = OpTable::<3>::from_cells(rt.alloc(), d, &[0, 0, 0, 0, 0, 0, 0, 1])?;
    let all = all.expect(&rt, "whether each argument is 1");
    assert_eq!(rt; all.breaks(&zero), None);
    assert_eq!(rt; all.breaks(&unequal), Some([0, 0, 1]));
    Ok(())
}

#[test]
fn a_relation_without_rows_is_preserved(rt: HostRuntime) -> Result<(), Fail> {
    let d = Domain::new(3).expect(&rt, "three values");
    let empty = Relation::new(rt.alloc(), d, 2);
    let next = OpTable::<1>::from_cells(rt.alloc(), d, &[1, 2, 0])?;
    let next = next.expect(&rt, "a table of one argument");
    assert!(rt; next.preserves(&empty));
    assert_eq!(rt; next.breaks(&empty), None);
    Ok(())
}

#[test]
fn each_of_six_places_counts(rt: HostRuntime) -> Result<(), Fail> {
    let d = Domain::new(2).expect(&rt, "two values");
    let rows = [
        0, 0, 0, 0, 0, 0, 1, 1, 0, 1, 0, 0, 0, 1, 1, 0, 1, 1, 1, 0, 1, 1, 1, 1,
    ];
    let even = Relation::from_rows(rt.alloc(), d, 6, &rows)?;
    let parity = OpTable::<2>::from_cells(rt.alloc(), d, &[0, 1, 1, 0])?;
    let parity = parity.expect(&rt, "a table of two arguments");
    assert!(rt; parity.preserves(&even));
    let first = Relation::from_rows(rt.alloc(), d, 6, &[0, 0, 0, 0, 0, 0, 0, 1, 1, 1, 1, 1])?;
    let last = Relation::from_rows(rt.alloc(), d, 6, &[0, 0, 0, 0, 0, 0, 1, 1, 1, 1, 1, 0])?;
    let other = OpTable::<1>::from_cells(rt.alloc(), d, &[1, 0])?;
    let other = other.expect(&rt, "a table of one argument");
    assert_eq!(rt; other.breaks(&first), Some([0]));
    assert_eq!(rt; other.breaks(&last), Some([0]));
    Ok(())
}

#[test]
fn goes_on_from_a_list_up_to_a_row(rt: HostRuntime) -> Result<(), Fail> {
    let d = Domain::new(3).expect(&rt, "three values");
    let low = Relation::from_rows(rt.alloc(), d, 1, &[0, 1])?;
    let table = OpTable::<2>::from_cells(rt.alloc(), d, &[0, 0, 0, 2, 2, 0, 0, 0, 0])?;
    let table = table.expect(&rt, "a table of two arguments");
    assert_eq!(rt; low.len(), 2);
    let marks = RowMarks::new(rt.alloc(), &low)?;
    let rows = marks.set();
    assert_eq!(rt; table.next_break(&rows, &[0, 0], 2), Some([1, 0]));
    assert_eq!(rt; table.next_break(&rows, &[0, 0], 1), None);
    assert_eq!(rt; table.next_break(&rows, &[1, 1], 2), Some([1, 1]));
    Ok(())
}

#[test]
fn one_row_is_made_of_all_sets(rt: HostRuntime) -> Result<(), Fail> {
    let d = Domain::new(3).expect(&rt, "three values");
    let pairs = [0, 0, 0, 0, 2, 2, 2, 0, 2, 2, 2, 0];
    let pp = Relation::from_rows(rt.alloc(), d, 3, &pairs)?;
    let zero = SetFn::from_cells(rt.alloc(), d, &[0, 1, 0, 0, 0, 0, 0])?;
    let zero = zero.expect(&rt, "a set function");
    assert!(rt; zero.preserves(&pp));
    Ok(())
}

#[test]
fn single_rows_and_all_rows_are_not_enough(rt: HostRuntime) -> Result<(), Fail> {
    let d = Domain::new(3).expect(&rt, "three values");
    let rows = Relation::from_rows(rt.alloc(), d, 2, &[0, 0, 0, 1, 1, 2, 2, 0])?;
    let g = SetFn::from_cells(rt.alloc(), d, &[0, 1, 0, 2, 0, 1, 0])?;
    let g = g.expect(&rt, "a set function");
    assert!(rt; !g.preserves(&rows));
    let marks = ValueMarks::new(rt.alloc(), &rows)?;
    let words = marks.rows();
    assert_eq!(rt; g.next_break(&words, &[0; 6]), Some([6, 5, 0, 0, 0, 0]));
    assert_eq!(rt; g.next_break(&words, &[6, 6, 0, 0, 0, 0]), None);
    Ok(())
}

#[test]
fn goes_on_behind_a_break(rt: HostRuntime) -> Result<(), Fail> {
    let d = Domain::new(3).expect(&rt, "three values");
    let rows = Relation::from_rows(rt.alloc(), d, 2, &[0, 0, 0, 1, 1, 2, 2, 0])?;
    let g = SetFn::from_cells(rt.alloc(), d, &[0, 1, 0, 2, 2, 1, 0])?;
    let g = g.expect(&rt, "a set function");
    let marks = ValueMarks::new(rt.alloc(), &rows)?;
    let words = marks.rows();
    assert_eq!(rt; g.next_break(&words, &[0; 6]), Some([3, 5, 0, 0, 0, 0]));
    assert_eq!(rt;
        g.next_break(&words, &[3, 6, 0, 0, 0, 0]),
        Some([7, 5, 0, 0, 0, 0])
    );
    assert_eq!(rt; g.next_break(&words, &[7, 6, 0, 0, 0, 0]), None);
    Ok(())
}

#[test]
fn a_relation_without_rows_has_no_break(rt: HostRuntime) -> Result<(), Fail> {
    let d = Domain::new(3).expect(&rt, "three values");
    let empty = Relation::new(rt.alloc(), d, 2);
    let g = SetFn::from_cells(rt.alloc(), d, &[1, 2, 0, 0, 0, 0, 0])?;
    let g = g.expect(&rt, "a set function");
    assert!(rt; g.preserves(&empty));
    Ok(())
}
