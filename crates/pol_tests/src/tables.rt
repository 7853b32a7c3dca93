//! The verdict on each table that differs in one cell from a table of its class, over two values, beside loops
//! over the definition of the class.
use crate::harness::{lines, run_on};
use pol_base::{ClassName, NoMemory, Values};
use pol_text::put_number;
use std::alloc::Global;
use std::process::Abort;
use std::test::Fail;

const ONE: &[u8] = b"polyanna 1|domain 2|relation one 1|tuple 1|end|";

const UNEQUAL: &[u8] = b"polyanna 1|domain 2|relation neq 2|tuple 0 1|tuple 1 0|end|";

const KEEP_ONE: [(ClassName, &[u8]); 7] = [
    (ClassName::Constant, &[1, 1]),
    (ClassName::Semilattice, &[0, 0, 0, 1]),
    (ClassName::SetFunction, &[0, 1, 0]),
    (ClassName::Majority, &[0, 0, 0, 1, 0, 1, 1, 1]),
    (
        ClassName::Nu4,
        &[0, 0, 0, 0, 0, 0, 0, 1, 0, 0, 0, 1, 0, 1, 1, 1],
    ),
    (ClassName::Affine, &[0, 1, 1, 0, 1, 0, 0, 1]),
    (ClassName::Maltsev, &[0, 1, 0, 0, 1, 0, 0, 1]),
];

#[test]
fn changed_tables_that_keep_one(rt: HostRuntime) -> Result<(), Fail> {
    for (class, cells) in KEEP_ONE {
        for cell in 0..cells.len() {
            let changed = with_change(rt.alloc(), cells, cell)?;
            let preserved = keeps_one(class, changed.as_slice());
            assert_judged(&rt, rt.alloc(), ONE, class, changed.as_slice(), preserved)?;
        }
    }
    Ok(())
}

const KEEP_UNEQUAL: [(ClassName, &[u8]); 4] = [
    (ClassName::Majority, &[0, 0, 0, 1, 0, 1, 1, 1]),
    (
        ClassName::Nu4,
        &[0, 0, 0, 0, 0, 0, 0, 1, 0, 1, 1, 1, 1, 1, 1, 1],
    ),
    (ClassName::Affine, &[0, 1, 1, 0, 1, 0, 0, 1]),
    (ClassName::Maltsev, &[0, 1, 0, 0, 1, 1, 0, 1]),
];

#[test]
fn changed_tables_that_keep_unequal(rt: HostRuntime) -> Result<(), Fail> {
    for (class, cells) in KEEP_UNEQUAL {
        for cell in 0..cells.len() {
            let changed = with_change(rt.alloc(), cells, cell)?;
            let preserved = keeps_unequal(changed.as_slice());
            assert_judged(
                &rt,
                rt.alloc(),
                UNEQUAL,
                class,
                changed.as_slice(),
                preserved,
            )?;
        }
    }
    Ok(())
}

/// `check` writes for the file and a report of the table that it is accepted, or the first reason why not.
fn assert_judged(
    rt: &impl Abort,
    alloc: Global,
    file: &[u8],
    class: ClassName,
    cells: &[u8],
    preserved: bool,
) -> Result<(), Fail> {
    let (verdict, status): (&[u8], u8) = if !has_identities(class, cells) {
        (b" rejected identity|end|", 1)
    } else if !preserved {
        (b" rejected breaks 0|end|", 1)
    } else {
        (b" accepted|end|", 0)
    };
    let mut input = lines(alloc, file)?;
    input.append(b"polyanna-report 1\nclass ")?;
    input.append(class.word())?;
    for value in cells {
        input.append(b" ")?;
        put_number(&mut input, *value as u64)?;
    }
    input.append(b"\nend\n")?;
    let mut written = Values::from_slice(alloc, b"class ")?;
    written.append(class.word())?;
    written.append(lines(alloc, verdict)?.as_slice())?;
    let done = run_on(alloc, &["check"], input.as_slice())?;
    assert_eq!(rt; done.text.as_slice(), written.as_slice(), "at {cells:?}");
    assert_eq!(rt; done.status, status, "at {cells:?}");
    Ok(())
}

/// The table with the other value at the cell.
fn with_change(alloc: Global, cells: &[u8], cell: usize) -> Result<Values, NoMemory> {
    let mut changed = Values::new(alloc);
    for k in 0..cells.len() {
        let other = if cells[k] == 0 { 1 } else { 0 };
        changed.push(if k == cell { other } else { cells[k] })?;
    }
    Ok(changed)
}

/// The value of the cell, and 2 where there is no such cell.
fn at(cells: &[u8], cell: usize) -> u8 {
    match cells.get(cell) {
        Some(value) => *value,
        None => 2,
    }
}

fn has_identities(class: ClassName, cells: &[u8]) -> bool {
    match class {
        ClassName::Constant => at(cells, 0) == at(cells, 1),
        ClassName::Semilattice => is_semilattice(cells),
        ClassName::SetFunction => true,
        ClassName::Majority => is_near_unanimous(cells, &[4, 2, 1], 7),
        ClassName::Nu4 => is_near_unanimous(cells, &[8, 4, 2, 1], 15),
        ClassName::Affine => is_sum(cells),
        ClassName::Maltsev => is_maltsev(cells),
    }
}

/// f(x, x) = x, f(x, y) = f(y, x), f(x, f(y, z)) = f(f(x, y), z).
fn is_semilattice(cells: &[u8]) -> bool {
    let commutative = at(cells, 0) == 0 && at(cells, 3) == 1 && at(cells, 1) == at(cells, 2);
    let mut associative = true;
    for number in 0..8usize {
        let (x, y, z) = (number / 4, number / 2 % 2, number % 2);
        let (front, back) = (at(cells, 2 * x + y) as usize, at(cells, 2 * y + z) as usize);
        associative &= at(cells, 2 * x + back) == at(cells, 2 * front + z);
    }
    commutative && associative
}

/// f = x where all arguments, or all but one, are x. One argument that is 1 makes the number of the cell its
/// weight, and one that is 0 takes its weight away from that of the last cell.
fn is_near_unanimous(cells: &[u8], weights: &[usize], last: usize) -> bool {
    let mut most = at(cells, 0) == 0 && at(cells, last) == 1;
    for weight in weights {
        most &= at(cells, *weight) == 0 && at(cells, last.saturating_sub(*weight)) == 1;
    }
    most
}

/// f(x, y, z) = x - y + z modulo 2; the other labelling of two values says the same.
fn is_sum(cells: &[u8]) -> bool {
    let mut sums = true;
    for number in 0..8usize {
        let sum = number / 4 + number / 2 % 2 + number % 2;
        sums &= at(cells, number) as usize == sum % 2;
    }
    sums
}

/// f(x, y, y) = x and f(y, y, x) = x.
fn is_maltsev(cells: &[u8]) -> bool {
    let mut found = true;
    for number in 0..4usize {
        let (x, y) = (number / 2, number % 2);
        found &= at(cells, 4 * x + 3 * y) as usize == x && at(cells, 6 * y + x) as usize == x;
    }
    found
}

/// The tuple 1 goes to itself, and the set of it to 1.
fn keeps_one(class: ClassName, cells: &[u8]) -> bool {
    match class {
        ClassName::SetFunction => at(cells, 1) == 1,
        _ => at(cells, cells.len().saturating_sub(1)) == 1,
    }
}

/// Tuples of unequal values have the arguments of a cell at their first place and those of its opposite at their
/// second.
fn keeps_unequal(cells: &[u8]) -> bool {
    let mut unequal = true;
    for cell in 0..cells.len() {
        unequal &= cells[cell] != cells[cells.len() - 1 - cell];
    }
    unequal
}
