//! Domains and their cells, words of classes, lists, masks, and lists in their order.
use pol_base::{
    ClassName, Domain, NoMemory, Numbers, Values, advance, cell_of, cells, class_of, digit,
    full_mask, has_value, lowest_value, value_mask, without,
};
use std::test::Fail;

#[test]
fn sizes_of_domains(rt: HostRuntime) {
    for (n, size) in [
        (0, None),
        (1, Some(1)),
        (5, Some(5)),
        (6, None),
        (256, None),
    ] {
        assert_eq!(rt; Domain::new(n).map(Domain::size), size, "at {n}");
    }
}

#[test]
fn numbers_of_cells(rt: HostRuntime) -> Result<(), Fail> {
    let cases = [
        (2, 0, Some(1)),
        (2, 13, Some(8192)),
        (2, 14, None),
        (5, 6, Some(15_625)),
        (5, 7, None),
        (1, 4_000_000_000, Some(1)),
    ];
    for (size, k, number) in cases {
        let d = Domain::new(size).ok_or("a domain")?;
        assert_eq!(rt; cells(d, k), number, "at {size} and {k}");
    }
    Ok(())
}

#[test]
fn a_cell_and_its_digits(rt: HostRuntime) -> Result<(), Fail> {
    let d = Domain::new(3).ok_or("a domain")?;
    assert_eq!(rt; d.size(), 3);
    let digits = [2u8, 0, 1];
    assert!(rt; digits.iter().all(|value| *value < d.size()));
    assert_eq!(rt; cells(d, 3), Some(27));
    assert_eq!(rt; cell_of(d, &digits), 19);
    assert_eq!(rt; digit(d, 3, 19, 0), 2);
    assert_eq!(rt; digit(d, 3, 19, 1), 0);
    assert_eq!(rt; digit(d, 3, 19, 2), 1);
    Ok(())
}

#[test]
fn words_of_classes(rt: HostRuntime) {
    let cases: [(&[u8], Option<ClassName>); 10] = [
        (b"constant", Some(ClassName::Constant)),
        (b"semilattice", Some(ClassName::Semilattice)),
        (b"set-function", Some(ClassName::SetFunction)),
        (b"majority", Some(ClassName::Majority)),
        (b"nu4", Some(ClassName::Nu4)),
        (b"affine", Some(ClassName::Affine)),
        (b"maltsev", Some(ClassName::Maltsev)),
        (b"Maltsev", None),
        (b"nu", None),
        (b"", None),
    ];
    for (word, class) in cases {
        assert_eq!(rt; class_of(word), class);
    }
}

#[test]
fn lists_grow(rt: HostRuntime) -> Result<(), NoMemory> {
    let mut values = Values::new(rt.alloc());
    values.append(&[0, 4])?;
    values.push(2)?;
    assert_eq!(rt; values, Values::from_slice(rt.alloc(), &[0, 4, 2])?);
    assert!(rt; values < Values::from_slice(rt.alloc(), &[1])?);
    assert_eq!(rt; values.copy()?, values);
    let mut numbers = Numbers::from_slice(rt.alloc(), &[7])?;
    numbers.push(70_000)?;
    assert_eq!(rt; numbers.as_slice(), [7, 70_000].as_slice());
    assert_eq!(rt; numbers.copy()?.as_slice(), numbers.as_slice());
    assert_eq!(rt; Numbers::new(rt.alloc()).as_slice(), [].as_slice());
    Ok(())
}

#[test]
fn values_of_a_mask(rt: HostRuntime) -> Result<(), Fail> {
    for (size, all) in [(1, 1), (2, 3), (5, 31)] {
        let d = Domain::new(size).ok_or("a domain")?;
        assert_eq!(rt; full_mask(d), all, "at {size}");
    }
    let mask = 0b10110u8;
    assert_eq!(rt; lowest_value(mask), 1);
    assert!(rt; has_value(mask, 2) && !has_value(mask, 3));
    assert_eq!(rt; without(mask, 4), 0b00110);
    assert_eq!(rt; without(mask, 3), mask);
    assert_eq!(rt; value_mask(4), 0b10000);
    Ok(())
}

#[test]
fn lists_in_their_order(rt: HostRuntime) {
    let mut digits = [0u32, 1];
    for (next, more) in [
        ([1, 0], true),
        ([1, 1], true),
        ([0, 0], false),
        ([0, 1], true),
    ] {
        assert!(rt; digits.iter().all(|digit| *digit < 2));
        assert_eq!(rt; advance(&mut digits, 2), more);
        assert_eq!(rt; digits, next);
    }
    assert_eq!(rt; advance(&mut [], 0), false);
}
