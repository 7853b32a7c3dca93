//! Rules of single cells, tables with an identity and without, parts, and labels.
ghost use Rattle.std.specs.Prelude.{ℕ, ◌≤◌};

use pol_base::{Domain, NoMemory, cells};
use pol_identity::{
    Affine, CellRule, Constant, Identity, Maltsev, NearUnanimity, Semilattice, affine_labels,
};
use pol_optable::{OpTable, PartTable};
use std::alloc::Global;
use std::test::Fail;

fn rule_in<const K: usize, I: Identity<K>>(identity: &I, size: u32, cell: u32) -> Option<CellRule>
    requires suited { (d : ℕ) → I.suits identity.now d }
    requires few { K ≤ 4096 }
{
    let d = Domain::new(size)?;
    let number = cells(d, K as u32)?;
    if number <= 4096 && cell < number {
        Some(identity.rule(d, cell))
    } else {
        None
    }
}

fn holds_in<const K: usize, I: Identity<K>>(
    alloc: Global,
    identity: &I,
    size: u32,
    cells: &[u8],
) -> Result<Option<bool>, NoMemory>
    requires suited { (d : ℕ) → I.suits identity.now d }
{
    let Some(d) = Domain::new(size) else {
        return Ok(None);
    };
    match OpTable::<K>::from_cells(alloc, d, cells)? {
        Some(t) => Ok(Some(identity.holds(&t))),
        None => Ok(None),
    }
}

fn fails_in<const K: usize, I: Identity<K>>(identity: &I, size: u32, masks: &[u8]) -> Option<bool>
    requires suited { (d : ℕ) → I.suits identity.now d }
{
    let d = Domain::new(size)?;
    let part = PartTable::<K>::new(d, masks)?;
    Some(identity.fails(&part))
}

fn affine_rule_in(size: u32, labels: [u8; 5], cell: u32) -> Option<CellRule> {
    let d = Domain::new(size)?;
    let affine = Affine::new(d, labels)?;
    let number = cells(d, 3)?;
    if number <= 4096 && cell < number {
        Some(affine.rule(d, cell))
    } else {
        None
    }
}

/// The least labels of the table over so many values.
fn labels_in(alloc: Global, size: u32, cells: &[u8]) -> Result<Option<[u8; 5]>, NoMemory> {
    let Some(d) = Domain::new(size) else {
        return Ok(None);
    };
    match OpTable::<3>::from_cells(alloc, d, cells)? {
        Some(t) => Ok(affine_labels(&t)),
        None => Ok(None),
    }
}

#[test]
fn rules_of_constant(rt: HostRuntime) {
    let cases = [
        (2, 0, CellRule::Free),
        (2, 1, CellRule::SameAs(0)),
        (3, 0, CellRule::Free),
        (3, 2, CellRule::SameAs(0)),
    ];
    for (size, cell, rule) in cases {
        assert_eq!(rt;
            rule_in::<1, Constant>(&Constant, size, cell),
            Some(rule),
            "at {cell}"
        );
    }
}

#[test]
fn rules_of_maltsev(rt: HostRuntime) {
    let cases = [
        (2, 0b000, CellRule::Value(0)),
        (2, 0b001, CellRule::Value(1)),
        (2, 0b010, CellRule::Free),
        (2, 0b011, CellRule::Value(0)),
        (2, 0b100, CellRule::Value(1)),
        (2, 0b101, CellRule::Free),
        (2, 0b110, CellRule::Value(0)),
        (2, 0b111, CellRule::Value(1)),
        (3, 5, CellRule::Free),
        (3, 14, CellRule::Value(2)),
        (3, 22, CellRule::Value(2)),
    ];
    for (size, cell, rule) in cases {
        assert_eq!(rt;
            rule_in::<3, Maltsev>(&Maltsev, size, cell),
            Some(rule),
            "at {cell}"
        );
    }
}

#[test]
fn rules_of_near_unanimity(rt: HostRuntime) {
    let near = NearUnanimity;
    let of_three = [
        (2, 0b000, CellRule::Value(0)),
        (2, 0b001, CellRule::Value(0)),
        (2, 0b010, CellRule::Value(0)),
        (2, 0b011, CellRule::Value(1)),
        (3, 5, CellRule::Free),
        (3, 14, CellRule::Value(1)),
        (3, 23, CellRule::Value(2)),
    ];
    for (size, cell, rule) in of_three {
        assert_eq!(rt;
            rule_in::<3, NearUnanimity>(&near, size, cell),
            Some(rule),
            "at {cell}"
        );
    }
    let of_four = [
        (2, 0b0011, CellRule::Free),
        (2, 0b0100, CellRule::Value(0)),
        (2, 0b1110, CellRule::Value(1)),
        (3, 15, CellRule::Free),
        (3, 74, CellRule::Value(2)),
    ];
    for (size, cell, rule) in of_four {
        assert_eq!(rt;
            rule_in::<4, NearUnanimity>(&near, size, cell),
            Some(rule),
            "at {cell}"
        );
    }
}

#[test]
fn rules_of_affine(rt: HostRuntime) {
    let cases = [
        (2, [1, 0, 9, 9, 9], 0b110, Some(CellRule::Value(0))),
        (3, [0, 2, 1, 0, 0], 3, Some(CellRule::Value(2))),
        (5, [0, 1, 3, 4, 2], 38, Some(CellRule::Value(4))),
        (1, [0, 0, 0, 0, 0], 0, None),
        (3, [0, 1, 1, 2, 0], 0, None),
        (3, [1, 2, 3, 0, 0], 0, None),
        (4, [0, 1, 2, 3, 0], 0, None),
    ];
    for (size, labels, cell, rule) in cases {
        assert_eq!(rt; affine_rule_in(size, labels, cell), rule, "at {size}");
    }
}

#[test]
fn least_labels(rt: HostRuntime) -> Result<(), NoMemory> {
    let alloc = rt.alloc();
    let two = [0, 1, 1, 0, 1, 0, 0, 1];
    let three = [
        0, 1, 2, 2, 0, 1, 1, 2, 0, 1, 2, 0, 0, 1, 2, 2, 0, 1, 2, 0, 1, 1, 2, 0, 0, 1, 2,
    ];
    let majority = [0, 0, 0, 1, 0, 1, 1, 1];
    assert_eq!(rt; labels_in(alloc, 2, &two)?, Some([0, 1, 0, 0, 0]));
    assert_eq!(rt; labels_in(alloc, 3, &three)?, Some([0, 1, 2, 0, 0]));
    assert_eq!(rt; labels_in(alloc, 2, &majority)?, None);
    assert_eq!(rt; labels_in(alloc, 1, &[0])?, None);
    Ok(())
}

#[test]
fn least_labels_of_four_and_five_values(rt: HostRuntime) -> Result<(), NoMemory> {
    let labels = [3, 0, 4, 1, 2];
    let values = [1, 3, 4, 0, 2];
    let mut five = [0; 125];
    let mut four = [0; 64];
    assert!(rt; labels.iter().all(|label| *label < 5));
    for x in 0..5 {
        for y in 0..5 {
            for z in 0..5 {
                let sum = (labels[x] + 5 - labels[y] + labels[z]) % 5;
                five[25 * x + 5 * y + z] = values[sum];
                if x < 4 && y < 4 && z < 4 {
                    four[16 * x + 4 * y + z] = ((x + 4 - y + z) % 4) as u8;
                }
            }
        }
    }
    let alloc = rt.alloc();
    assert_eq!(rt; labels_in(alloc, 5, &five)?, Some([0, 1, 3, 4, 2]));
    assert_eq!(rt; labels_in(alloc, 4, &four)?, None);
    Ok(())
}

#[test]
fn the_table_of_labels(rt: HostRuntime) -> Result<(), Fail> {
    let d = Domain::new(3).expect(&rt, "three values");
    let affine = Affine::new(d, [1, 0, 2, 0, 0]).ok_or("a labelling")?;
    let table = affine.table(rt.alloc())?;
    let three = [
        0, 1, 2, 2, 0, 1, 1, 2, 0, 1, 2, 0, 0, 1, 2, 2, 0, 1, 2, 0, 1, 1, 2, 0, 0, 1, 2,
    ];
    assert_eq!(rt; table.cells(), three.as_slice());
    assert!(rt; affine.holds(&table));
    Ok(())
}

#[test]
fn tables_that_satisfy(rt: HostRuntime) -> Result<(), NoMemory> {
    let majority = [0, 0, 0, 1, 0, 1, 1, 1];
    let sum = [0, 1, 1, 0, 1, 0, 0, 1];
    let first = [0, 0, 0, 0, 1, 1, 1, 1];
    let last = [0, 1, 0, 1, 0, 1, 0, 1];
    let three_of_four = [0, 0, 0, 0, 0, 0, 0, 1, 0, 0, 0, 1, 0, 1, 1, 1];
    let all_of_four = [0, 0, 0, 0, 0, 0, 0, 0, 0, 0, 0, 0, 0, 0, 0, 1];
    let alloc = rt.alloc();
    for (cells, holds) in [([2u8, 2, 2], true), ([2, 2, 1], false)] {
        assert_eq!(rt;
            holds_in::<1, Constant>(alloc, &Constant, 3, &cells)?,
            Some(holds)
        );
    }
    for (cells, holds) in [(sum, true), (first, false), (last, false)] {
        assert_eq!(rt;
            holds_in::<3, Maltsev>(alloc, &Maltsev, 2, &cells)?,
            Some(holds)
        );
    }
    let near = NearUnanimity;
    for (cells, holds) in [(majority, true), (sum, false)] {
        assert_eq!(rt;
            holds_in::<3, NearUnanimity>(alloc, &near, 2, &cells)?,
            Some(holds)
        );
    }
    for (cells, holds) in [(three_of_four, true), (all_of_four, false)] {
        assert_eq!(rt;
            holds_in::<4, NearUnanimity>(alloc, &near, 2, &cells)?,
            Some(holds)
        );
    }
    Ok(())
}

#[test]
fn rules_of_semilattice(rt: HostRuntime) {
    let cases = [
        (2, 0b00, CellRule::Value(0)),
        (2, 0b01, CellRule::Free),
        (2, 0b10, CellRule::SameAs(0b01)),
        (2, 0b11, CellRule::Value(1)),
        (3, 5, CellRule::Free),
        (3, 7, CellRule::SameAs(5)),
    ];
    for (size, cell, rule) in cases {
        assert_eq!(rt;
            rule_in::<2, Semilattice>(&Semilattice, size, cell),
            Some(rule),
            "at {cell}"
        );
    }
}

#[test]
fn tables_of_semilattices(rt: HostRuntime) -> Result<(), NoMemory> {
    let minimum = [0, 0, 0, 0, 1, 1, 0, 1, 2];
    // rock, paper, scissors: f(0, f(1, 2)) = f(0, 2) = 0, and f(f(0, 1), 2) = f(1, 2) = 2
    let winner = [0, 1, 0, 1, 1, 2, 0, 2, 2];
    let first = [0, 0, 0, 1, 1, 1, 2, 2, 2];
    let sum = [0, 1, 2, 1, 2, 0, 2, 0, 1];
    let cases = [
        (minimum, true),
        (winner, false),
        (first, false),
        (sum, false),
    ];
    for (cells, holds) in cases {
        assert_eq!(rt;
            holds_in::<2, Semilattice>(rt.alloc(), &Semilattice, 3, &cells)?,
            Some(holds)
        );
    }
    Ok(())
}

#[test]
fn parts_of_semilattices(rt: HostRuntime) {
    let open = [7, 7, 7, 7, 7, 7, 7, 7, 7];
    let minimum = [1, 1, 1, 1, 2, 2, 1, 2, 4];
    let winner = [1, 2, 1, 2, 2, 4, 1, 4, 4];
    let three_of_winner = [7, 2, 1, 7, 7, 4, 7, 7, 7];
    let cases = [
        (open, false),
        (minimum, false),
        (winner, true),
        (three_of_winner, true),
    ];
    for (masks, fails) in cases {
        assert_eq!(rt;
            fails_in::<2, Semilattice>(&Semilattice, 3, &masks),
            Some(fails)
        );
    }
}

#[test]
fn parts_that_do_not_fail(rt: HostRuntime) {
    let near = NearUnanimity;
    let open = [3u8; 8];
    let open_of_four = [3u8; 16];
    assert_eq!(rt; fails_in::<1, Constant>(&Constant, 2, &[1, 2]), Some(false));
    assert_eq!(rt; fails_in::<3, Maltsev>(&Maltsev, 2, &open), Some(false));
    assert_eq!(rt; fails_in::<3, NearUnanimity>(&near, 2, &open), Some(false));
    assert_eq!(rt;
        fails_in::<4, NearUnanimity>(&near, 2, &open_of_four),
        Some(false)
    );
}
