//! Sizes of signatures and least pairs, by hand and by trying all pairs in their order.
use pol_base::Domain;
use pol_optable::OpTable;
use pol_rows::Rows;
use std::alloc::Global;
use std::process::Abort;
use std::test::Fail;

/// Rows of a width over so many values, and how many triples their signature has.
type Sized = (u32, u32, &'static [&'static [u8]], u32);

/// All tuples of two values have the signature of the first three; those that begin with 1; unequal values.
static SIZES: [Sized; 9] = [
    (2, 2, &[], 0),
    (1, 3, &[&[0, 0, 0]], 3),
    (1, 3, &[&[0, 0, 0], &[0, 0, 0]], 3),
    (2, 2, &[&[0, 0], &[1, 0], &[0, 1]], 8),
    (2, 2, &[&[1, 1], &[1, 0]], 5),
    (2, 2, &[&[1, 0], &[0, 1]], 6),
    (3, 2, &[&[1, 2], &[0, 0]], 6),
    (2, 3, &[&[1, 1, 0], &[0, 0, 1], &[0, 0, 0]], 10),
    (5, 1, &[&[4], &[2], &[0]], 9),
];

/// A place, two values, and the least pair of rows that shows them.
type Shown = (u32, u8, u8, Option<(u32, u32)>);

static REPEATED: [&'static [u8]; 5] = [&[1, 1], &[0, 0], &[0, 1], &[0, 0], &[0, 1]];

static REPEATED_PAIRS: [Shown; 8] = [
    (0, 0, 0, Some((1, 1))),
    (0, 0, 1, Some((1, 0))),
    (0, 1, 0, Some((0, 1))),
    (0, 1, 1, Some((0, 0))),
    (1, 0, 0, Some((1, 1))),
    (1, 0, 1, Some((1, 2))),
    (1, 1, 0, Some((2, 1))),
    (1, 1, 1, Some((0, 0))),
];

static UNEQUAL: [&'static [u8]; 2] = [&[1, 0], &[0, 1]];

static UNEQUAL_PAIRS: [Shown; 4] = [
    (0, 1, 0, Some((0, 1))),
    (1, 0, 0, Some((0, 0))),
    (1, 0, 1, None),
    (1, 1, 0, None),
];

static MIXED: [&'static [u8]; 4] = [&[1, 0], &[0, 1], &[1, 1], &[0, 0]];

static MIXED_PAIRS: [Shown; 2] = [(1, 0, 1, Some((0, 2))), (1, 1, 0, Some((1, 3)))];

fn sizes() -> &'static [Sized] {
    &SIZES
}

#[test]
fn signatures_have_the_sizes_that_are_counted_by_hand(rt: HostRuntime) -> Result<(), Fail> {
    for (d, n, tuples, size) in sizes() {
        let rows = rows_of(&rt, rt.alloc(), *d, *n, tuples)?;
        assert_eq!(rt; rows.signature_size(), *size, "at {tuples:?}");
    }
    Ok(())
}

#[test]
fn the_least_pair_is_found_in_any_run(rt: HostRuntime) -> Result<(), Fail> {
    look_for_pairs(&rt, rt.alloc(), &REPEATED, &REPEATED_PAIRS)?;
    look_for_pairs(&rt, rt.alloc(), &UNEQUAL, &UNEQUAL_PAIRS)?;
    look_for_pairs(&rt, rt.alloc(), &MIXED, &MIXED_PAIRS)
}

#[test]
fn three_rows_agree_with_the_definition(rt: HostRuntime) -> Result<(), Fail> {
    let tuples: [[u8; 2]; 4] = [[0, 0], [0, 1], [1, 0], [1, 1]];
    for one in tuples {
        for two in tuples {
            for three in tuples {
                let rows = rows_of(&rt, rt.alloc(), 2, 2, &[&one, &two, &three])?;
                let mut size = 0u32;
                for (i, a, b) in [
                    (0, 0, 0),
                    (0, 0, 1),
                    (0, 1, 0),
                    (0, 1, 1),
                    (1, 0, 0),
                    (1, 0, 1),
                    (1, 1, 0),
                    (1, 1, 1),
                ] {
                    let plain = plain_pair(&[one, two, three], i, a, b);
                    size = size.saturating_add(u32::from(plain.is_some()));
                    assert!(rt; (i as u32) < rows.width());
                    assert_eq!(rt; rows.pair_for(i as u32, a, b), plain, "at {i} {a} {b}");
                }
                assert_eq!(rt; rows.signature_size(), size);
            }
        }
    }
    Ok(())
}

#[test]
fn the_sum_of_three_rows(rt: HostRuntime) -> Result<(), Fail> {
    let d = Domain::new(2).expect(&rt, "two values");
    let sum = OpTable::<3>::from_cells(rt.alloc(), d, &[0, 1, 1, 0, 1, 0, 0, 1])?;
    let sum = sum.expect(&rt, "a table");
    let rows = rows_of(&rt, rt.alloc(), 2, 2, &[&[1, 0], &[0, 0], &[0, 1]])?;
    assert!(rt; rows.len() == 3 && rows.width() == 2);
    assert_eq!(rt; rows.domain(), sum.domain());
    let mut out = [0; 2];
    rows.apply3_into(&sum, 0, 1, 2, &mut out);
    assert_eq!(rt; out, [1, 1]);
    assert_eq!(rt; rows.row(2), [0, 1].as_slice());
    Ok(())
}

/// Looks for the pairs in rows of two places over two values.
fn look_for_pairs(
    rt: &impl Abort,
    alloc: Global,
    tuples: &[&[u8]],
    shown: &[Shown],
) -> Result<(), Fail> {
    let rows = rows_of(rt, alloc, 2, 2, tuples)?;
    for (i, a, b, pair) in shown {
        assert!(rt; *i < rows.width());
        assert_eq!(rt; rows.pair_for(*i, *a, *b), *pair, "at {i} {a} {b}");
    }
    Ok(())
}

/// The least pair, by trying all in their order.
fn plain_pair(rows: &[[u8; 2]; 3], i: usize, a: u8, b: u8) -> Option<(u32, u32)> {
    for (p, one) in rows.iter().enumerate() {
        for (q, other) in rows.iter().enumerate() {
            let same_before = i == 0 || one[0] == other[0];
            if same_before && one.get(i) == Some(&a) && other.get(i) == Some(&b) {
                return Some((p as u32, q as u32));
            }
        }
    }
    None
}

fn rows_of(rt: &impl Abort, alloc: Global, d: u32, n: u32, tuples: &[&[u8]]) -> Result<Rows, Fail> {
    let d = Domain::new(d).expect(rt, "a domain");
    assert!(rt; 1 <= n && n <= 4096);
    let mut rows = Rows::new(alloc, d, n);
    for tuple in tuples {
        assert!(rt; tuple.len() == rows.width() as usize);
        assert!(rt; tuple.iter().all(|value| *value < rows.domain().size()));
        assert!(rt; rows.len() < 1000);
        rows.push(tuple)?;
    }
    Ok(rows)
}
