//! The least tables of small languages, and majority tables beside a plain enumeration.
use pol_base::{Domain, Values};
use pol_csp::{NoFilter, least};
use pol_identity::{Constant, Maltsev, NearUnanimity};
use pol_indicator::{least_op, problem};
use pol_relation::{Language, Relation};
use std::alloc::Global;
use std::process::Abort;
use std::test::Fail;

/// The language of one relation.
fn language(
    rt: &impl Abort,
    alloc: Global,
    size: u32,
    arity: u32,
    rows: &[u8],
) -> Result<Language, Fail> {
    let d = Domain::new(size).expect(rt, "a domain");
    assert!(rt; 1 <= arity && arity <= 6);
    assert!(rt; rows.len() % arity as usize == 0);
    assert!(rt; rows.iter().all(|value| *value < d.size()));
    let mut language = Language::new(alloc, d);
    language.add(b"r", Relation::from_rows(alloc, d, arity, rows)?)?;
    Ok(language)
}

#[test]
fn the_problem_of_two_unequal_values(rt: HostRuntime) -> Result<(), Fail> {
    let alloc = rt.alloc();
    let unequal = language(&rt, alloc, 2, 2, &[0, 1, 1, 0])?;
    assert!(rt; unequal.domain().size() == 2 && unequal.weight(3) == 8);
    let problem = problem(alloc, &unequal, &Maltsev)?;
    assert_eq!(rt; problem.constraints(), 8);
    let values = least(alloc, &problem, &unequal, &NoFilter)?.ok_or("a list")?;
    assert_eq!(rt; values.as_slice(), [0, 1, 0, 0, 1, 1, 0, 1].as_slice());
    Ok(())
}

#[test]
fn the_least_tables_that_preserve_an_order(rt: HostRuntime) -> Result<(), Fail> {
    let alloc = rt.alloc();
    let order = language(&rt, alloc, 2, 2, &[0, 0, 0, 1, 1, 1])?;
    assert!(rt; order.domain().size() == 2);
    let constant = least_op::<1, _>(alloc, &order, &Constant)?.ok_or("a constant")?;
    assert_eq!(rt; constant.cells(), [0, 0].as_slice());
    let majority = least_op::<3, _>(alloc, &order, &NearUnanimity)?.ok_or("a majority")?;
    assert_eq!(rt; majority.cells(), [0, 0, 0, 1, 0, 1, 1, 1].as_slice());
    assert!(rt; least_op::<3, _>(alloc, &order, &Maltsev)?.is_none());
    Ok(())
}

#[test]
fn inequality_of_three_values_has_no_table(rt: HostRuntime) -> Result<(), Fail> {
    let alloc = rt.alloc();
    let unequal = language(&rt, alloc, 3, 2, &[0, 1, 0, 2, 1, 0, 1, 2, 2, 0, 2, 1])?;
    assert!(rt; unequal.domain().size() == 3);
    assert!(rt; least_op::<1, _>(alloc, &unequal, &Constant)?.is_none());
    assert!(rt; least_op::<3, _>(alloc, &unequal, &NearUnanimity)?.is_none());
    assert!(rt; least_op::<3, _>(alloc, &unequal, &Maltsev)?.is_none());
    Ok(())
}

/// The value of a table of three arguments over three values.
fn value_at(table: &[u8; 27], x: u8, y: u8, z: u8) -> Option<u8> {
    let cell = 9 * usize::from(x) + 3 * usize::from(y) + usize::from(z);
    table.get(cell).copied()
}

/// Whether the table makes of each three pairs one of the pairs.
fn keeps(table: &[u8; 27], pairs: &[[u8; 2]]) -> bool {
    for [a, b] in pairs {
        for [c, d] in pairs {
            for [e, f] in pairs {
                let image = (value_at(table, *a, *c, *e), value_at(table, *b, *d, *f));
                if !pairs.iter().any(|[x, y]| image == (Some(*x), Some(*y))) {
                    return false;
                }
            }
        }
    }
    true
}

/// The cells of three different arguments, where the majority of three values is open.
const OPEN_CELLS: [usize; 6] = [5, 7, 11, 15, 19, 21];

/// The next table with other values in the open cells.
fn advance_open(table: &mut [u8; 27]) {
    for i in 0..6 {
        let cell = OPEN_CELLS[5 - i];
        if let Some(value) = table.get_mut(cell) {
            if *value < 2 {
                *value += 1;
                return;
            }
            *value = 0;
        }
    }
}

/// The first of all majority tables, in the order of their cells, that keeps the pairs.
fn first_majority(pairs: &[[u8; 2]]) -> Option<[u8; 27]> {
    let mut table = [
        0, 0, 0, 0, 1, 0, 0, 0, 2, 0, 1, 0, 1, 1, 1, 0, 1, 2, 0, 0, 2, 0, 1, 2, 2, 2, 2,
    ];
    for _ in 0..729 {
        if keeps(&table, pairs) {
            return Some(table);
        }
        advance_open(&mut table);
    }
    None
}

/// The pairs of three values that the bits of a number choose.
fn chosen_pairs(alloc: Global, chosen: u32) -> Result<Vec<[u8; 2]>, Fail> {
    let mut pairs = Vec::new(alloc);
    for i in 0..9u8 {
        if chosen >> u32::from(i) & 1 == 1 {
            pairs.push([i / 3, i % 3])?;
        }
    }
    Ok(pairs)
}

/// The least majority table that the search finds.
fn found_majority(
    rt: &impl Abort,
    alloc: Global,
    pairs: &[[u8; 2]],
) -> Result<Option<Values>, Fail> {
    let mut rows = Values::new(alloc);
    for pair in pairs {
        rows.append(pair)?;
    }
    let language = language(rt, alloc, 3, 2, rows.as_slice())?;
    assert!(rt; language.domain().size() == 3);
    match least_op::<3, _>(alloc, &language, &NearUnanimity)? {
        Some(table) => Ok(Some(Values::from_slice(alloc, table.cells())?)),
        None => Ok(None),
    }
}

/// Whether the two are the same table, or both are none.
fn is_same(found: &Option<Values>, first: &Option<[u8; 27]>) -> bool {
    match (found, first) {
        (Some(found), Some(first)) => found.as_slice() == first.as_slice(),
        (None, None) => true,
        _ => false,
    }
}

#[test]
fn majority_over_each_binary_relation_of_three_values(rt: HostRuntime) -> Result<(), Fail> {
    for chosen in 0u32..512 {
        let pairs = chosen_pairs(rt.alloc(), chosen)?;
        let found = found_majority(&rt, rt.alloc(), pairs.as_slice())?;
        let first = first_majority(pairs.as_slice());
        assert!(rt; is_same(&found, &first), "at {chosen}");
    }
    Ok(())
}
