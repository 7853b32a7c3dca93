//! Verdicts found by hand, on tables, solutions and certificates, and the lines of verdicts.
ghost use Rattle.std.specs.Prelude.{◌≡◌};

use pol_base::{ClassName, Domain, Numbers, Values};
use pol_checker::{Cause, Verdict, check_item, put_verdict};
use pol_lang::File;
use pol_modp::{CombFault, Combination, Part};
use pol_nogood::{Log, LogFault, Nogood, Step, Why};
use pol_relation::{Instance, Language, Relation};
use pol_report::Item;
use std::alloc::Global;
use std::process::Abort;
use std::test::Fail;

const BROKEN: Verdict = Verdict::Rejected(Cause::Breaks { relation: 1 });

const FAILED: Verdict = Verdict::Rejected(Cause::Identity);

const UNSIZED: Verdict = Verdict::Rejected(Cause::Size);

const UNKNOWN: Verdict = Verdict::Rejected(Cause::Unknown);

/// Where two values are not both 1.
static NOT_BOTH: [(ClassName, &'static [u8], Verdict); 12] = [
    (ClassName::Constant, &[0, 0], Verdict::Accepted),
    (ClassName::Constant, &[0, 1], FAILED),
    (ClassName::Constant, &[1, 1], BROKEN),
    (ClassName::Constant, &[0], UNSIZED),
    (ClassName::Constant, &[0, 2], UNSIZED),
    (ClassName::Semilattice, &[0, 0, 0, 1], Verdict::Accepted),
    (ClassName::Semilattice, &[0, 1, 0, 1], FAILED),
    (ClassName::Semilattice, &[0, 1, 1, 1], BROKEN),
    (ClassName::SetFunction, &[0, 1, 0], Verdict::Accepted),
    (ClassName::SetFunction, &[0, 1, 1], BROKEN),
    (ClassName::SetFunction, &[0, 1], UNSIZED),
    (ClassName::SetFunction, &[0, 1, 2], UNSIZED),
];

/// Where two values are unequal.
static UNEQUAL: [(ClassName, &'static [u8], Verdict); 9] = [
    (
        ClassName::Majority,
        &[0, 0, 0, 1, 0, 1, 1, 1],
        Verdict::Accepted,
    ),
    (ClassName::Majority, &[0, 0, 0, 1, 0, 1, 1, 0], FAILED),
    (
        ClassName::Nu4,
        &[0, 0, 0, 0, 0, 0, 0, 1, 0, 1, 1, 1, 1, 1, 1, 1],
        Verdict::Accepted,
    ),
    (
        ClassName::Nu4,
        &[0, 0, 0, 0, 0, 0, 0, 1, 0, 1, 1, 1, 1, 1, 1, 0],
        FAILED,
    ),
    (ClassName::Nu4, &[0, 0, 0, 1, 0, 1, 1, 1], UNSIZED),
    (
        ClassName::Affine,
        &[0, 1, 1, 0, 1, 0, 0, 1],
        Verdict::Accepted,
    ),
    (ClassName::Affine, &[0, 1, 1, 0, 1, 0, 0, 0], FAILED),
    (
        ClassName::Maltsev,
        &[0, 1, 0, 0, 1, 1, 0, 1],
        Verdict::Accepted,
    ),
    (ClassName::Maltsev, &[0, 0, 0, 0, 1, 1, 0, 1], FAILED),
];

/// Where one of three values is 1.
static ONE_IN_THREE: [(ClassName, &'static [u8], Verdict); 4] = [
    (ClassName::Majority, &[0, 0, 0, 1, 0, 1, 1, 1], BROKEN),
    (
        ClassName::Nu4,
        &[0, 0, 0, 0, 0, 0, 0, 1, 0, 1, 1, 1, 1, 1, 1, 1],
        BROKEN,
    ),
    (ClassName::Affine, &[0, 1, 1, 0, 1, 0, 0, 1], BROKEN),
    (ClassName::Maltsev, &[0, 1, 1, 0, 1, 0, 0, 1], BROKEN),
];

/// The file of two values without instances whose relation 0 holds both, and whose relation 1 is this one.
fn file_of(rt: &impl Abort, alloc: Global, relation: Relation) -> Result<File, Fail>
    requires two { relation.domain ≡ 2 }
{
    let d = Domain::new(2).expect(rt, "two values");
    let mut language = Language::new(alloc, d);
    language.add(b"any", Relation::from_rows(alloc, d, 1, &[0, 1])?)?;
    language.add(b"r", relation)?;
    Ok(File::new(alloc, language).expect(rt, "a file"))
}

fn table_verdict(
    alloc: Global,
    file: &File,
    kind: ClassName,
    cells: &[u8],
) -> Result<Verdict, Fail> {
    let cells = Values::from_slice(alloc, cells)?;
    Ok(check_item(alloc, file, &Item::ClassTable { kind, cells })?)
}

#[test]
fn tables_where_two_values_are_not_both_one(rt: HostRuntime) -> Result<(), Fail> {
    let alloc = rt.alloc();
    let d = Domain::new(2).expect(&rt, "two values");
    let relation = Relation::from_rows(alloc, d, 2, &[0, 0, 0, 1, 1, 0])?;
    let file = file_of(&rt, alloc, relation)?;
    for (kind, cells, verdict) in NOT_BOTH {
        assert_eq!(rt;
            table_verdict(alloc, &file, kind, cells)?,
            verdict,
            "at {kind:?}"
        );
    }
    Ok(())
}

#[test]
fn tables_where_two_values_are_unequal(rt: HostRuntime) -> Result<(), Fail> {
    let alloc = rt.alloc();
    let d = Domain::new(2).expect(&rt, "two values");
    let relation = Relation::from_rows(alloc, d, 2, &[0, 1, 1, 0])?;
    let file = file_of(&rt, alloc, relation)?;
    for (kind, cells, verdict) in UNEQUAL {
        assert_eq!(rt;
            table_verdict(alloc, &file, kind, cells)?,
            verdict,
            "at {kind:?}"
        );
    }
    Ok(())
}

#[test]
fn tables_where_one_of_three_values_is_one(rt: HostRuntime) -> Result<(), Fail> {
    let alloc = rt.alloc();
    let d = Domain::new(2).expect(&rt, "two values");
    let relation = Relation::from_rows(alloc, d, 3, &[0, 0, 1, 0, 1, 0, 1, 0, 0])?;
    let file = file_of(&rt, alloc, relation)?;
    for (kind, cells, verdict) in ONE_IN_THREE {
        assert_eq!(rt;
            table_verdict(alloc, &file, kind, cells)?,
            verdict,
            "at {kind:?}"
        );
    }
    Ok(())
}

#[test]
fn a_table_of_one_value_is_not_affine(rt: HostRuntime) -> Result<(), Fail> {
    let alloc = rt.alloc();
    let d = Domain::new(1).expect(&rt, "one value");
    let file = File::new(alloc, Language::new(alloc, d)).expect(&rt, "a file");
    assert_eq!(rt;
        table_verdict(alloc, &file, ClassName::Affine, &[0])?,
        FAILED
    );
    Ok(())
}

/// x, and another value y, twice.
fn pair(alloc: Global) -> Result<Instance, Fail> {
    let mut inst = Instance::new(alloc, b"p")?;
    inst.add_variable(b"x")?;
    inst.add_variable(b"y")?;
    inst.add_constraint(0, &[0])?;
    inst.add_constraint(1, &[0, 1])?;
    inst.add_constraint(1, &[1, 0])?;
    Ok(inst)
}

/// x, which is another value than itself.
fn twice(alloc: Global) -> Result<Instance, Fail> {
    let mut inst = Instance::new(alloc, b"t")?;
    inst.add_variable(b"x")?;
    inst.add_constraint(1, &[0, 0])?;
    Ok(inst)
}

/// Both instances, where relation 1 is that of unequal values.
fn file_of_pairs(rt: &impl Abort, alloc: Global) -> Result<File, Fail> {
    let d = Domain::new(2).expect(rt, "two values");
    let relation = Relation::from_rows(alloc, d, 2, &[0, 1, 1, 0])?;
    let mut file = file_of(rt, alloc, relation)?;
    file.add(pair(alloc)?)?;
    file.add(twice(alloc)?)?;
    Ok(file)
}

/// Solutions, and what is found of them.
static SOLUTIONS: [(&'static [u8], &'static [u8], Verdict); 6] = [
    (b"p", &[0, 1], Verdict::Accepted),
    (b"p", &[0], Verdict::Rejected(Cause::Assignment)),
    (b"p", &[0, 2], Verdict::Rejected(Cause::Assignment)),
    (b"p", &[1, 1], Verdict::Rejected(Cause::Constraint { c: 1 })),
    (b"t", &[0], Verdict::Rejected(Cause::Constraint { c: 0 })),
    (b"q", &[0], UNKNOWN),
];

fn yes_of(alloc: Global, name: &[u8], values: &[u8]) -> Result<Item, Fail> {
    let name = Values::from_slice(alloc, name)?;
    let values = Values::from_slice(alloc, values)?;
    let kind = ClassName::Majority;
    Ok(Item::Yes { name, kind, values })
}

fn yes_sizes_of(alloc: Global, name: &[u8], values: &[u8]) -> Result<Item, Fail> {
    let name = Values::from_slice(alloc, name)?;
    let values = Values::from_slice(alloc, values)?;
    let sizes = Numbers::new(alloc);
    Ok(Item::YesSizes {
        name,
        values,
        sizes,
    })
}

#[test]
fn a_yes_is_a_solution_or_rejected(rt: HostRuntime) -> Result<(), Fail> {
    let alloc = rt.alloc();
    let file = file_of_pairs(&rt, alloc)?;
    for (name, values, verdict) in SOLUTIONS {
        let yes = yes_of(alloc, name, values)?;
        assert_eq!(rt; check_item(alloc, &file, &yes)?, verdict, "at {values:?}");
    }
    Ok(())
}

#[test]
fn so_is_one_with_sizes(rt: HostRuntime) -> Result<(), Fail> {
    let alloc = rt.alloc();
    let file = file_of_pairs(&rt, alloc)?;
    for (name, values, verdict) in SOLUTIONS {
        let yes = yes_sizes_of(alloc, name, values)?;
        assert_eq!(rt; check_item(alloc, &file, &yes)?, verdict, "at {values:?}");
    }
    Ok(())
}

/// The log of one step: by the constraint, without cases.
fn log_of(alloc: Global, name: &[u8], c: u32) -> Result<Item, Fail> {
    let name = Values::from_slice(alloc, name)?;
    let mut log = Log::new(alloc);
    let nogood = Nogood::new();
    let refs = Numbers::new(alloc);
    log.push(Step::ByConstraint { c, nogood, refs })?;
    let kind = ClassName::Constant;
    Ok(Item::NoLog { name, kind, log })
}

/// Modulo 2 the values at the two places of the constraint have the sum 1.
fn sum_of(alloc: Global, name: &[u8], c: u32) -> Result<Item, Fail> {
    let name = Values::from_slice(alloc, name)?;
    let coefs = Values::from_slice(alloc, &[1, 1])?;
    let mut combination = Combination::new(alloc, &[0, 1])?;
    combination.push(Part {
        c,
        multiplier: 1,
        right: 1,
        coefs,
    })?;
    Ok(Item::NoSum { name, combination })
}

const NOT_COVERED: Cause = Cause::BadLog(LogFault {
    step: 0,
    why: Why::WrongCount,
});

const LEFT: Cause = Cause::BadSum(CombFault::Remainder { variable: 0 });

/// Names and constraints, and what is found of the log and of the combination.
static CERTIFICATES: [(&'static [u8], u32, Verdict, Verdict); 3] = [
    (b"t", 0, Verdict::Accepted, Verdict::Accepted),
    (
        b"p",
        1,
        Verdict::Rejected(NOT_COVERED),
        Verdict::Rejected(LEFT),
    ),
    (b"q", 0, UNKNOWN, UNKNOWN),
];

#[test]
fn a_log_is_valid_or_rejected(rt: HostRuntime) -> Result<(), Fail> {
    let alloc = rt.alloc();
    let file = file_of_pairs(&rt, alloc)?;
    for (name, c, verdict, _) in CERTIFICATES {
        let no = log_of(alloc, name, c)?;
        assert_eq!(rt; check_item(alloc, &file, &no)?, verdict, "at {name:?}");
    }
    Ok(())
}

#[test]
fn a_combination_is_valid_or_rejected(rt: HostRuntime) -> Result<(), Fail> {
    let alloc = rt.alloc();
    let file = file_of_pairs(&rt, alloc)?;
    for (name, c, _, verdict) in CERTIFICATES {
        let no = sum_of(alloc, name, c)?;
        assert_eq!(rt; check_item(alloc, &file, &no)?, verdict, "at {name:?}");
    }
    Ok(())
}

#[test]
fn an_answer_without_certificate_is_not_checked(rt: HostRuntime) -> Result<(), Fail> {
    let alloc = rt.alloc();
    let file = file_of_pairs(&rt, alloc)?;
    for (name, verdict) in [(b"t", Verdict::Unchecked), (b"q", UNKNOWN)] {
        let name = Values::from_slice(alloc, name)?;
        let undecided = Item::Undecided { name };
        assert_eq!(rt; check_item(alloc, &file, &undecided)?, verdict);
    }
    Ok(())
}

#[test]
fn a_no_of_sizes_is_not_checked(rt: HostRuntime) -> Result<(), Fail> {
    let alloc = rt.alloc();
    let file = file_of_pairs(&rt, alloc)?;
    for (name, verdict) in [(b"t", Verdict::Unchecked), (b"q", UNKNOWN)] {
        let name = Values::from_slice(alloc, name)?;
        let sizes = Numbers::new(alloc);
        let no = Item::NoSizes { name, sizes };
        assert_eq!(rt; check_item(alloc, &file, &no)?, verdict);
    }
    Ok(())
}

/// The causes of rejections, as they are printed.
static CAUSES: [(Cause, &'static [u8]); 16] = [
    (Cause::Unknown, b"instance i rejected unknown\n"),
    (Cause::Size, b"instance i rejected size\n"),
    (Cause::Identity, b"instance i rejected identity\n"),
    (
        Cause::Breaks { relation: 31 },
        b"instance i rejected breaks 31\n",
    ),
    (Cause::Assignment, b"instance i rejected assignment\n"),
    (
        Cause::Constraint { c: 255 },
        b"instance i rejected constraint 255\n",
    ),
    (
        Cause::BadLog(LogFault {
            step: 0,
            why: Why::BadPlace,
        }),
        b"instance i rejected log 0 BadPlace\n",
    ),
    (
        Cause::BadLog(LogFault {
            step: 6,
            why: Why::BadReference,
        }),
        b"instance i rejected log 6 BadReference\n",
    ),
    (
        Cause::BadLog(LogFault {
            step: 6,
            why: Why::NotContained,
        }),
        b"instance i rejected log 6 NotContained\n",
    ),
    (
        Cause::BadLog(LogFault {
            step: 6,
            why: Why::WrongCount,
        }),
        b"instance i rejected log 6 WrongCount\n",
    ),
    (
        Cause::BadLog(LogFault {
            step: 10,
            why: Why::NoEmptyEnd,
        }),
        b"instance i rejected log 10 NoEmptyEnd\n",
    ),
    (
        Cause::BadSum(CombFault::BadLabels),
        b"instance i rejected combination BadLabels\n",
    ),
    (
        Cause::BadSum(CombFault::BadPlace { part: 0 }),
        b"instance i rejected combination BadPlace 0\n",
    ),
    (
        Cause::BadSum(CombFault::NotImplied { part: 1 }),
        b"instance i rejected combination NotImplied 1\n",
    ),
    (
        Cause::BadSum(CombFault::Remainder { variable: 39 }),
        b"instance i rejected combination Remainder 39\n",
    ),
    (
        Cause::BadSum(CombFault::ZeroRight),
        b"instance i rejected combination ZeroRight\n",
    ),
];

/// The line of the verdict on an instance of the name `i`.
fn line_of(alloc: Global, verdict: Verdict) -> Result<Values, Fail> {
    let mut out = Values::new(alloc);
    let name = Values::from_slice(alloc, b"i")?;
    put_verdict(&mut out, &Item::Undecided { name }, &verdict)?;
    Ok(out)
}

#[test]
fn lines_of_causes(rt: HostRuntime) -> Result<(), Fail> {
    let alloc = rt.alloc();
    for (cause, text) in CAUSES {
        let line = line_of(alloc, Verdict::Rejected(cause))?;
        assert_eq!(rt; line.as_slice(), text, "at {cause:?}");
    }
    Ok(())
}

#[test]
fn lines_of_classes(rt: HostRuntime) -> Result<(), Fail> {
    let mut out = Values::new(rt.alloc());
    put_verdict(&mut out, &Item::ClassBeyond, &Verdict::Unchecked)?;
    let kind = ClassName::SetFunction;
    put_verdict(&mut out, &Item::ClassNone { kind }, &Verdict::Accepted)?;
    let text = b"class nu4 unchecked\nclass set-function accepted\n";
    assert_eq!(rt; out.as_slice(), text.as_slice());
    Ok(())
}
