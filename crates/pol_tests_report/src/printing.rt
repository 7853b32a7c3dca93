//! The lines of each item of a report, and which items may be printed.
use pol_base::{ClassName, NoMemory, Numbers, Values};
use pol_modp::{Combination, Part};
use pol_nogood::{Log, Nogood, Step};
use pol_report::{Item, printable, put_head, put_item, put_last};
use std::alloc::Global;
use std::test::Fail;

#[test]
fn a_report_begins_with_its_head_and_ends_with_its_last_line(rt: HostRuntime) -> Result<(), Fail> {
    let mut out = Values::new(rt.alloc());
    put_head(&mut out)?;
    put_last(&mut out)?;
    assert_eq!(rt; out.as_slice(), b"polyanna-report 1\nend\n".as_slice());
    Ok(())
}

#[test]
fn lines_of_classes(rt: HostRuntime) -> Result<(), Fail> {
    let cells = Values::from_slice(rt.alloc(), &[0, 1, 4])?;
    let kind = ClassName::SetFunction;
    let table = Item::ClassTable { kind, cells };
    assert!(rt; prints(rt.alloc(), table, b"class set-function 0 1 4\n")?);
    let none = Item::ClassNone {
        kind: ClassName::Affine,
    };
    assert!(rt; prints(rt.alloc(), none, b"class affine none\n")?);
    assert!(rt; prints(rt.alloc(), Item::ClassBeyond, b"class nu4 beyond\n")?);
    Ok(())
}

#[test]
fn lines_of_a_solution(rt: HostRuntime) -> Result<(), Fail> {
    let yes = yes(rt.alloc(), b"i_0-a", ClassName::Majority, &[0, 4, 1])?;
    assert!(rt; prints(rt.alloc(), yes, b"instance i_0-a yes majority 0 4 1\n")?);
    Ok(())
}

#[test]
fn lines_of_instances_without_steps(rt: HostRuntime) -> Result<(), Fail> {
    let undecided = undecided(rt.alloc(), b"x")?;
    assert!(rt; prints(rt.alloc(), undecided, b"instance x undecided\n")?);
    let no = no(rt.alloc(), ClassName::Constant, Log::new(rt.alloc()))?;
    assert!(rt; prints(rt.alloc(), no, b"instance a no constant 0\n")?);
    Ok(())
}

#[test]
fn lines_of_steps(rt: HostRuntime) -> Result<(), Fail> {
    let mut log = Log::new(rt.alloc());
    log.push(by_constraint(rt.alloc(), 2, &[], &[])?)?;
    assert!(rt; log.len() < 3);
    log.push(by_variable(rt.alloc(), 39, &[(0, 4), (7, 0)], &[0, 0])?)?;
    assert!(rt; log.len() < 3);
    log.push(by_constraint(rt.alloc(), 2, &[(2, 0)], &[0, 0, 1])?)?;
    let no = no(rt.alloc(), ClassName::Nu4, log)?;
    let text = b"instance a no nu4 3\nc 2 0 0\nv 39 2 0 4 7 0 2 0 0\nc 2 1 2 0 3 0 0 1\n";
    assert!(rt; prints(rt.alloc(), no, text)?);
    Ok(())
}

#[test]
fn names_that_are_none_are_not_printed(rt: HostRuntime) -> Result<(), Fail> {
    for (name, is) in [
        (b"".as_slice(), false),
        (b"0a".as_slice(), false),
        (b"a b".as_slice(), false),
        (b"abcdefghijklmnopqrstuvwxyz012345".as_slice(), true),
        (b"abcdefghijklmnopqrstuvwxyz0123456".as_slice(), false),
    ] {
        let yes = yes(rt.alloc(), name, ClassName::Constant, &[0])?;
        let undecided = undecided(rt.alloc(), name)?;
        assert_eq!(rt; printable(&yes), is, "at {name:?}");
        assert_eq!(rt; printable(&undecided), is, "at {name:?}");
    }
    Ok(())
}

#[test]
fn a_yes_is_of_six_classes_and_a_log_of_five(rt: HostRuntime) -> Result<(), Fail> {
    for (kind, has_yes, has_log) in [
        (ClassName::Constant, true, true),
        (ClassName::Semilattice, true, true),
        (ClassName::SetFunction, true, true),
        (ClassName::Majority, true, true),
        (ClassName::Nu4, true, true),
        (ClassName::Affine, true, false),
        (ClassName::Maltsev, false, false),
    ] {
        let yes = yes(rt.alloc(), b"a", kind, &[0])?;
        let no = no(rt.alloc(), kind, Log::new(rt.alloc()))?;
        assert_eq!(rt; printable(&yes), has_yes, "at {kind:?}");
        assert_eq!(rt; printable(&no), has_log, "at {kind:?}");
    }
    Ok(())
}

#[test]
fn values_are_few_and_small(rt: HostRuntime) -> Result<(), Fail> {
    for (count, value, table, solution) in [
        (0, 0, false, false),
        (1, 4, true, true),
        (1, 5, false, false),
        (40, 4, true, true),
        (41, 0, true, false),
        (625, 4, true, false),
        (626, 0, false, false),
    ] {
        let values = [value; 626];
        let values = values.get(..count).ok_or("values")?;
        let yes = yes(rt.alloc(), b"a", ClassName::Affine, values)?;
        let kind = ClassName::Maltsev;
        let cells = Values::from_slice(rt.alloc(), values)?;
        assert_eq!(rt;
            printable(&Item::ClassTable { kind, cells }),
            table,
            "at {count}"
        );
        assert_eq!(rt; printable(&yes), solution, "at {count}");
    }
    Ok(())
}

#[test]
fn numbers_of_a_step_are_few_and_small(rt: HostRuntime) -> Result<(), Fail> {
    let references = [7u32; 129];
    let alloc = rt.alloc();
    let steps = [
        (by_constraint(alloc, 999_999_999, &[], &[])?, true),
        (by_constraint(alloc, 1_000_000_000, &[], &[])?, false),
        (by_variable(alloc, 999_999_999, &[], &[])?, true),
        (by_variable(alloc, 1_000_000_000, &[], &[])?, false),
        (
            by_variable(alloc, 0, &[(0, 4), (999_999_999, 0)], &[])?,
            true,
        ),
        (
            by_variable(alloc, 0, &[(0, 4), (1_000_000_000, 0)], &[])?,
            false,
        ),
        (by_variable(alloc, 0, &[(0, 5)], &[])?, false),
        (by_variable(alloc, 0, &[], &[999_999_999])?, true),
        (by_variable(alloc, 0, &[], &[0, 1_000_000_000])?, false),
        (by_variable(alloc, 0, &[], &references[..128])?, true),
        (by_variable(alloc, 0, &[], &references)?, false),
    ];
    for (step, is) in steps {
        let mut log = Log::new(alloc);
        log.push(step)?;
        let no = no(alloc, ClassName::Majority, log)?;
        assert_eq!(rt; printable(&no), is);
    }
    Ok(())
}

/// Once x + y + z = 0 and twice x + y + z = 1 give 0 = 2 modulo 3.
#[test]
fn lines_of_parts(rt: HostRuntime) -> Result<(), Fail> {
    let mut sums = Combination::new(rt.alloc(), &[0, 1, 2])?;
    assert!(rt; sums.len() < 2);
    sums.push(part(rt.alloc(), 0, 1, 0, &[1, 1, 1])?)?;
    assert!(rt; sums.len() < 2);
    sums.push(part(rt.alloc(), 1, 2, 1, &[1, 1, 1])?)?;
    let no = no_sum(rt.alloc(), b"i", sums)?;
    let text = b"instance i no affine 2 0 1 2\npart 0 1 0 1 1 1\npart 1 2 1 1 1 1\n";
    assert!(rt; prints(rt.alloc(), no, text)?);
    let none = no_sum(rt.alloc(), b"a_1", Combination::new(rt.alloc(), &[4])?)?;
    assert!(rt; prints(rt.alloc(), none, b"instance a_1 no affine 0 4\n")?);
    Ok(())
}

#[test]
fn labels_are_few_and_small(rt: HostRuntime) -> Result<(), Fail> {
    for (labels, is) in [
        (b"".as_slice(), false),
        (b"\x04".as_slice(), true),
        (b"\x05".as_slice(), false),
        (b"\0\x01\x02\x03\x04".as_slice(), true),
        (b"\0\x01\x02\x03\x05".as_slice(), false),
        (b"\0\0\0\0\0\0".as_slice(), false),
    ] {
        let no = no_sum(rt.alloc(), b"a", Combination::new(rt.alloc(), labels)?)?;
        assert_eq!(rt; printable(&no), is, "at {labels:?}");
    }
    let unnamed = no_sum(rt.alloc(), b"0", Combination::new(rt.alloc(), &[0])?)?;
    assert!(rt; !printable(&unnamed));
    Ok(())
}

#[test]
fn numbers_of_a_part_are_few_and_small(rt: HostRuntime) -> Result<(), Fail> {
    let alloc = rt.alloc();
    let parts = [
        (part(alloc, 999_999_999, 4, 4, &[4, 4, 4, 4, 4, 4])?, true),
        (part(alloc, 1_000_000_000, 0, 0, &[0])?, false),
        (part(alloc, 0, 5, 0, &[0])?, false),
        (part(alloc, 0, 0, 5, &[0])?, false),
        (part(alloc, 0, 0, 0, &[5])?, false),
        (part(alloc, 0, 0, 0, &[0, 0, 0, 0, 0, 5])?, false),
        (part(alloc, 0, 0, 0, &[])?, false),
        (part(alloc, 0, 0, 0, &[0])?, true),
        (part(alloc, 0, 0, 0, &[0, 0, 0, 0, 0, 0, 0])?, false),
    ];
    for (part, is) in parts {
        let mut sum = Combination::new(alloc, &[0])?;
        sum.push(part)?;
        let no = no_sum(alloc, b"a", sum)?;
        assert_eq!(rt; printable(&no), is);
    }
    Ok(())
}

#[test]
fn parts_are_few(rt: HostRuntime) -> Result<(), Fail> {
    let alloc = rt.alloc();
    for (count, is) in [(4096, true), (4097, false)] {
        let mut sum = Combination::new(alloc, &[0])?;
        for _ in 0..count {
            assert!(rt; sum.len() < 4097);
            sum.push(part(alloc, 0, 0, 0, &[0])?)?;
        }
        let no = no_sum(alloc, b"a", sum)?;
        assert_eq!(rt; printable(&no), is, "at {count}");
    }
    Ok(())
}

#[test]
fn lines_of_a_solution_with_sizes(rt: HostRuntime) -> Result<(), Fail> {
    let yes = yes_sizes(rt.alloc(), b"i_0-a", &[0, 4, 1], &[75, 13, 4])?;
    let text = b"instance i_0-a yes maltsev 0 4 1\nsizes 75 13 4\n";
    assert!(rt; prints(rt.alloc(), yes, text)?);
    Ok(())
}

#[test]
fn lines_of_a_no_with_sizes(rt: HostRuntime) -> Result<(), Fail> {
    let no = no_sizes(rt.alloc(), b"x", &[27, 10, 0])?;
    assert!(rt; prints(rt.alloc(), no, b"instance x no maltsev\nsizes 27 10 0\n")?);
    let one = no_sizes(rt.alloc(), b"y", &[999_999_999])?;
    assert!(rt; prints(rt.alloc(), one, b"instance y no maltsev\nsizes 999999999\n")?);
    Ok(())
}

#[test]
fn sizes_are_few_and_small(rt: HostRuntime) -> Result<(), Fail> {
    let sizes = [7u32; 258];
    for (sizes, is) in [
        ([].as_slice(), false),
        ([0].as_slice(), true),
        ([0, 999_999_999].as_slice(), true),
        ([0, 1_000_000_000].as_slice(), false),
        (&sizes[..257], true),
        (sizes.as_slice(), false),
    ] {
        let no = no_sizes(rt.alloc(), b"a", sizes)?;
        assert_eq!(rt; printable(&no), is, "at {sizes:?}");
    }
    Ok(())
}

#[test]
fn a_yes_with_sizes_has_a_name_and_few_small_values(rt: HostRuntime) -> Result<(), Fail> {
    let values = [0; 41];
    for (name, values, sizes, is) in [
        (b"a".as_slice(), [4].as_slice(), [1].as_slice(), true),
        (b"0".as_slice(), [4].as_slice(), [1].as_slice(), false),
        (b"a".as_slice(), [].as_slice(), [1].as_slice(), false),
        (b"a".as_slice(), [5].as_slice(), [1].as_slice(), false),
        (b"a".as_slice(), [4].as_slice(), [].as_slice(), false),
        (b"a".as_slice(), &values[..40], [1].as_slice(), true),
        (b"a".as_slice(), values.as_slice(), [1].as_slice(), false),
    ] {
        let yes = yes_sizes(rt.alloc(), name, values, sizes)?;
        assert_eq!(rt; printable(&yes), is, "at {name:?}");
    }
    Ok(())
}

/// Whether the item is printable, and this is its text.
fn prints(alloc: Global, item: Item, text: &[u8]) -> Result<bool, NoMemory> {
    if !printable(&item) {
        return Ok(false);
    }
    let mut out = Values::new(alloc);
    put_item(&mut out, &item)?;
    Ok(out.as_slice() == text)
}

fn undecided(alloc: Global, name: &[u8]) -> Result<Item, NoMemory> {
    let name = Values::from_slice(alloc, name)?;
    Ok(Item::Undecided { name })
}

fn yes(alloc: Global, name: &[u8], kind: ClassName, values: &[u8]) -> Result<Item, NoMemory> {
    let name = Values::from_slice(alloc, name)?;
    let values = Values::from_slice(alloc, values)?;
    Ok(Item::Yes { name, kind, values })
}

fn no(alloc: Global, kind: ClassName, log: Log) -> Result<Item, NoMemory> {
    let name = Values::from_slice(alloc, b"a")?;
    Ok(Item::NoLog { name, kind, log })
}

fn no_sum(alloc: Global, name: &[u8], combination: Combination) -> Result<Item, NoMemory> {
    let name = Values::from_slice(alloc, name)?;
    Ok(Item::NoSum { name, combination })
}

fn yes_sizes(alloc: Global, name: &[u8], values: &[u8], sizes: &[u32]) -> Result<Item, NoMemory> {
    let name = Values::from_slice(alloc, name)?;
    let values = Values::from_slice(alloc, values)?;
    let sizes = Numbers::from_slice(alloc, sizes)?;
    Ok(Item::YesSizes {
        name,
        values,
        sizes,
    })
}

fn no_sizes(alloc: Global, name: &[u8], sizes: &[u32]) -> Result<Item, NoMemory> {
    let name = Values::from_slice(alloc, name)?;
    let sizes = Numbers::from_slice(alloc, sizes)?;
    Ok(Item::NoSizes { name, sizes })
}

fn part(alloc: Global, c: u32, multiplier: u8, right: u8, coefs: &[u8]) -> Result<Part, NoMemory> {
    let coefs = Values::from_slice(alloc, coefs)?;
    Ok(Part {
        c,
        multiplier,
        right,
        coefs,
    })
}

fn by_constraint(
    alloc: Global,
    c: u32,
    pairs: &[(u32, u8)],
    references: &[u32],
) -> Result<Step, NoMemory> {
    let nogood = nogood_of(pairs);
    let refs = Numbers::from_slice(alloc, references)?;
    Ok(Step::ByConstraint { c, nogood, refs })
}

fn by_variable(
    alloc: Global,
    v: u32,
    pairs: &[(u32, u8)],
    references: &[u32],
) -> Result<Step, NoMemory> {
    let nogood = nogood_of(pairs);
    let refs = Numbers::from_slice(alloc, references)?;
    Ok(Step::ByVariable { v, nogood, refs })
}

fn nogood_of(pairs: &[(u32, u8)]) -> Nogood {
    let mut nogood = Nogood::new();
    for (variable, value) in pairs {
        nogood.push(*variable, *value);
    }
    nogood
}
