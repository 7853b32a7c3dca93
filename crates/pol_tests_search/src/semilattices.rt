//! The least semilattice operation over each language of sets of three values, beside a plain enumeration.
use pol_base::{Domain, Values};
use pol_identity::Semilattice;
use pol_indicator::least_op;
use pol_relation::{Language, Relation};
use std::alloc::Global;
use std::process::Abort;
use std::test::Fail;

/// The commutative and idempotent table whose values at (0, 1), (0, 2) and (1, 2) are the digits of a
/// number in base 3.
fn table_of(number: u8) -> [u8; 9] {
    let (a, b, c) = (number / 9, number / 3 % 3, number % 3);
    [0, a, b, a, 1, c, b, c, 2]
}

fn value_at(table: &[u8; 9], x: u8, y: u8) -> u8 {
    let cell = 3 * usize::from(x % 3) + usize::from(y % 3);
    table.get(cell).copied().unwrap_or(0)
}

fn is_associative(table: &[u8; 9]) -> bool {
    for x in 0..3 {
        for y in 0..3 {
            for z in 0..3 {
                let right = value_at(table, x, value_at(table, y, z));
                if value_at(table, value_at(table, x, y), z) != right {
                    return false;
                }
            }
        }
    }
    true
}

/// Whether the value is one of the set, which is the bits of a number.
fn has(set: u32, value: u8) -> bool {
    set >> (value % 3) & 1 == 1
}

/// Whether the table makes of two values of each set one of the set.
fn keeps(table: &[u8; 9], sets: u32) -> bool {
    for set in 0u32..8 {
        for x in 0u8..3 {
            for y in 0u8..3 {
                let within = has(set, x) && has(set, y);
                if sets >> set & 1 == 1 && within && !has(set, value_at(table, x, y)) {
                    return false;
                }
            }
        }
    }
    true
}

/// The first of all tables of semilattice operations, in the order of their cells, that keeps the sets.
fn first_table(sets: u32) -> Option<[u8; 9]> {
    for number in 0..27 {
        let table = table_of(number);
        if is_associative(&table) && keeps(&table, sets) {
            return Some(table);
        }
    }
    None
}

/// The language of the sets.
fn language_of(rt: &impl Abort, alloc: Global, sets: u32) -> Result<Language, Fail> {
    let d = Domain::new(3).expect(rt, "three values");
    let mut language = Language::new(alloc, d);
    for set in 0u8..8 {
        if sets >> u32::from(set) & 1 == 0 {
            continue;
        }
        let mut rows = Values::new(alloc);
        for value in 0u8..3 {
            if set >> value & 1 == 1 {
                rows.push(value)?;
            }
        }
        assert!(rt; rows.as_slice().iter().all(|value| *value < d.size()));
        assert!(rt; language.len() < 8 && language.domain() == d);
        let relation = Relation::from_rows(alloc, d, 1, rows.as_slice())?;
        language.add(&[b'a' + set], relation)?;
    }
    Ok(language)
}

#[test]
fn semilattices_over_each_language_of_sets(rt: HostRuntime) -> Result<(), Fail> {
    for sets in 0u32..256 {
        let language = language_of(&rt, rt.alloc(), sets)?;
        assert!(rt; language.domain().size() == 3);
        let found = least_op::<2, _>(rt.alloc(), &language, &Semilattice)?;
        let found = found.ok_or("a table")?;
        let first = first_table(sets).ok_or("a first table")?;
        assert_eq!(rt; found.cells(), first.as_slice(), "at {sets}");
    }
    Ok(())
}
