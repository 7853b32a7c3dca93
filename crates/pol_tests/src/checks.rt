use crate::harness::{lines, run_on};
use pol_base::{NoMemory, Values};
use std::alloc::Global;
use std::process::Abort;
use std::test::Fail;

/// A triangle whose neighbours have unequal values, of two.
const TRIANGLE: &[u8] =
    b"polyanna 1|domain 2|relation neq 2|tuple 0 1|tuple 1 0|instance tri x y z|constraint neq x y|constraint neq y z|constraint neq z x|end|";

const TRIANGLE_CLASSES: &[u8] =
    b"polyanna-report 1|class constant none|class semilattice none|class set-function none|class majority 0 0 0 1 0 1 1 1|class nu4 0 0 0 0 0 0 0 1 0 1 1 1 1 1 1 1|class affine 0 1 1 0 1 0 0 1|class maltsev 0 1 0 0 1 1 0 1|";

const TRIANGLE_ITEM: &[u8] =
    b"instance tri no majority 11|c 0 2 0 0 1 0 0|c 0 2 0 1 1 1 0|c 1 2 1 0 2 0 0|c 1 2 1 1 2 1 0|c 2 2 0 0 2 0 0|c 2 2 0 1 2 1 0|v 1 2 0 0 2 1 2 0 3|v 2 1 0 0 2 4 6|v 1 2 0 1 2 0 2 2 1|v 2 1 0 1 2 8 5|v 0 0 2 7 9|";

const TRIANGLE_VERDICTS: &[u8] =
    b"class constant unchecked|class semilattice unchecked|class set-function unchecked|class majority accepted|class nu4 accepted|class affine accepted|class maltsev accepted|instance tri ";

/// Sums modulo 3, with an instance that asks for two sums of the same variables and one that has a solution.
const SUMS: &[u8] =
    b"polyanna 1|domain 3|relation s0 3|tuple 0 0 0|tuple 0 1 2|tuple 0 2 1|tuple 1 0 2|tuple 1 1 1|tuple 1 2 0|tuple 2 0 1|tuple 2 1 0|tuple 2 2 2|relation s1 3|tuple 0 0 1|tuple 0 1 0|tuple 0 2 2|tuple 1 0 0|tuple 1 1 2|tuple 1 2 1|tuple 2 0 2|tuple 2 1 1|tuple 2 2 0|relation zero 1|tuple 0|instance i x y z|constraint s0 x y z|constraint s1 x y z|instance j x y|constraint zero x|constraint s1 x x y|end|";

const SUMS_CLASSES: &[u8] =
    b"polyanna-report 1|class constant none|class semilattice none|class set-function none|class majority none|class nu4 none|class affine 0 1 2 2 0 1 1 2 0 1 2 0 0 1 2 2 0 1 2 0 1 1 2 0 0 1 2|class maltsev 0 1 2 2 0 1 1 2 0 1 2 0 0 1 2 2 0 1 2 0 1 1 2 0 0 1 2|";

const SUMS_ITEM: &[u8] = b"instance i no affine 2 0 1 2|part 0 1 0 1 1 1|part 1 2 1 1 1 1|";

const SUMS_VERDICTS: &[u8] =
    b"class constant unchecked|class semilattice unchecked|class set-function unchecked|class majority unchecked|class nu4 unchecked|class affine accepted|class maltsev accepted|instance i ";

/// A file and a report of it, with an item that is to be changed, and the verdicts around that of the item.
#[derive(Drop)]
struct Reported {
    file: &'static [u8],
    classes: &'static [u8],
    item: &'static [u8],
    after: &'static [u8],
    verdicts_before: &'static [u8],
    verdicts_after: &'static [u8],
}

const CHANGED_LOGS: [(&[u8], &[u8], &[u8]); 20] = [
    (b"", b"", b"accepted"),
    (
        b"c 0 2 0 0 1 0 0|",
        b"c 3 2 0 0 1 0 0|",
        b"rejected log 0 BadPlace",
    ),
    (
        b"c 0 2 0 0 1 0 0|",
        b"c 0 2 1 0 0 0 0|",
        b"rejected log 0 BadPlace",
    ),
    (
        b"c 0 2 0 0 1 0 0|",
        b"c 0 2 0 0 1 2 0|",
        b"rejected log 0 BadPlace",
    ),
    (
        b"c 0 2 0 0 1 0 0|",
        b"c 0 0 0|",
        b"rejected log 0 WrongCount",
    ),
    (
        b"v 1 2 0 0 2 1 2 0 3|",
        b"v 3 2 0 0 2 1 2 0 3|",
        b"rejected log 6 BadPlace",
    ),
    (
        b"v 1 2 0 0 2 1 2 0 3|",
        b"v 1 2 0 0 2 1 2 0 6|",
        b"rejected log 6 BadReference",
    ),
    (
        b"v 1 2 0 0 2 1 2 0 3|",
        b"v 1 2 0 0 2 1 2 0 10|",
        b"rejected log 6 BadReference",
    ),
    (
        b"v 1 2 0 0 2 1 2 0 3|",
        b"v 1 2 0 0 2 1 2 3 0|",
        b"rejected log 6 NotContained",
    ),
    (
        b"v 1 2 0 0 2 1 2 0 3|",
        b"v 1 2 0 0 2 1 1 0|",
        b"rejected log 6 WrongCount",
    ),
    (
        b"v 1 2 0 0 2 1 2 0 3|",
        b"v 1 2 0 0 2 1 3 0 3 0|",
        b"rejected log 6 WrongCount",
    ),
    (
        b"v 2 1 0 0 2 4 6|",
        b"v 0 1 0 0 2 4 6|",
        b"rejected log 7 BadPlace",
    ),
    (
        b"v 0 0 2 7 9|",
        b"v 0 0 2 7 9|v 0 0 2 7 9|",
        b"refused 31 BadLine",
    ),
    (b"majority 11|", b"semilattice 11|", b"accepted"),
    (
        b"majority 11|",
        b"majority 999999999|",
        b"refused 19 TooManySteps",
    ),
    (b"majority 11|", b"majority 12|", b"refused 31 BadLine"),
    (
        b"c 0 2 0 0 1 0 0|",
        b"c 0 4 0 0 1 0 2 0 2 1 0|",
        b"refused 20 BadLine",
    ),
    (
        b"c 0 2 0 0 1 0 0|",
        b"c 0 2 0 5 1 0 0|",
        b"refused 20 ValueOutside",
    ),
    (b"majority 11|", b"affine 11|", b"refused 19 BadLine"),
    (
        TRIANGLE_ITEM,
        b"instance tri no majority 0|",
        b"rejected log 0 NoEmptyEnd",
    ),
];

#[test]
fn logs_with_a_change(rt: HostRuntime) -> Result<(), Fail> {
    let alloc = rt.alloc();
    for (from, to, verdict) in CHANGED_LOGS {
        assert_judged(&rt, alloc, &triangle(), from, to, verdict)?;
    }
    Ok(())
}

const ENDED_LOGS: [(&[u8], &[u8]); 2] = [
    (
        b"instance tri no majority 10|c 0 2 0 0 1 0 0|c 0 2 0 1 1 1 0|c 1 2 1 0 2 0 0|c 1 2 1 1 2 1 0|c 2 2 0 0 2 0 0|c 2 2 0 1 2 1 0|v 1 2 0 0 2 1 2 0 3|v 2 1 0 0 2 4 6|v 1 2 0 1 2 0 2 2 1|v 2 1 0 1 2 8 5|",
        b"rejected log 10 NoEmptyEnd",
    ),
    (
        b"instance tri no majority 12|c 0 2 0 0 1 0 0|c 0 2 0 1 1 1 0|c 1 2 1 0 2 0 0|c 1 2 1 1 2 1 0|c 2 2 0 0 2 0 0|c 2 2 0 1 2 1 0|v 1 2 0 0 2 1 2 0 3|v 2 1 0 0 2 4 6|v 1 2 0 1 2 0 2 2 1|v 2 1 0 1 2 8 5|v 0 0 2 7 9|v 0 0 2 7 9|",
        b"accepted",
    ),
];

#[test]
fn logs_with_another_end(rt: HostRuntime) -> Result<(), Fail> {
    let alloc = rt.alloc();
    for (to, verdict) in ENDED_LOGS {
        assert_judged(&rt, alloc, &triangle(), TRIANGLE_ITEM, to, verdict)?;
    }
    Ok(())
}

const CHANGED_COMBINATIONS: [(&[u8], &[u8], &[u8]); 15] = [
    (b"", b"", b"accepted"),
    (b"2 0 1 2|", b"2 0 1|", b"rejected combination BadLabels"),
    (b"2 0 1 2|", b"2 0 1 3|", b"rejected combination BadLabels"),
    (
        b"2 0 1 2|",
        b"2 0 0 0|",
        b"rejected combination NotImplied 1",
    ),
    (
        b"part 0 1 0 1 1 1|",
        b"part 2 1 0 1 1 1|",
        b"rejected combination BadPlace 0",
    ),
    (
        b"part 0 1 0 1 1 1|",
        b"part 0 1 0 1 1|",
        b"rejected combination BadPlace 0",
    ),
    (
        b"part 0 1 0 1 1 1|",
        b"part 0 1 3 1 1 1|",
        b"rejected combination BadPlace 0",
    ),
    (
        b"part 0 1 0 1 1 1|",
        b"part 0 0 0 1 1 1|",
        b"rejected combination Remainder 0",
    ),
    (
        b"part 0 1 0 1 1 1|",
        b"part 0 1 1 1 1 1|",
        b"rejected combination NotImplied 0",
    ),
    (
        b"part 1 2 1 1 1 1|",
        b"part 1 1 1 1 1 1|",
        b"rejected combination Remainder 0",
    ),
    (
        b"part 1 2 1 1 1 1|",
        b"part 1 2 0 1 1 1|",
        b"rejected combination NotImplied 1",
    ),
    (
        SUMS_ITEM,
        b"instance i no affine 2 0 1 2|part 0 0 0 1 1 1|part 1 0 1 1 1 1|",
        b"rejected combination ZeroRight",
    ),
    (
        SUMS_ITEM,
        b"instance i no affine 0 0 1 2|",
        b"rejected combination ZeroRight",
    ),
    (
        SUMS_ITEM,
        b"instance i no affine 3 0 1 2|part 0 1 0 1 1 1|part 1 2 1 1 1 1|part 1 0 1 1 1 1|",
        b"accepted",
    ),
    (b"affine 2 ", b"affine 4097 ", b"refused 40 TooManyParts"),
];

#[test]
fn combinations_with_a_change(rt: HostRuntime) -> Result<(), Fail> {
    let alloc = rt.alloc();
    for (from, to, verdict) in CHANGED_COMBINATIONS {
        assert_judged(&rt, alloc, &sums(), from, to, verdict)?;
    }
    Ok(())
}

const NO_REPORTS: [(&[u8], &[u8]); 14] = [
    (b"", b"refused 7 NoHeader|"),
    (b"# a comment||", b"refused 9 NoHeader|"),
    (b"class constant none|", b"refused 7 NoHeader|"),
    (b"polyanna-report|", b"refused 7 BadVersion|"),
    (b"polyanna-report 2|", b"refused 7 BadVersion|"),
    (b"polyanna-report 1|", b"refused 8 Ended|"),
    (
        b"polyanna-report 1|class constant none",
        b"refused 9 Ended|",
    ),
    (
        b"polyanna-report 1|instance q maybe|",
        b"refused 8 BadLine|",
    ),
    (
        b"polyanna-report 1|instance 2q undecided|",
        b"refused 8 BadName|",
    ),
    (
        b"polyanna-report 1|class affine beyond|",
        b"refused 8 BadNumber|",
    ),
    (
        b"polyanna-report 1|class constant 7 x|",
        b"refused 8 ValueOutside|",
    ),
    (
        b"polyanna-report 1|instance q no maltsev|end|",
        b"refused 9 BadLine|",
    ),
    (b"polyanna-report 1|end now|", b"refused 8 BadLine|"),
    (b"polyanna-report 1|end|# x|class", b"refused 10 AfterEnd|"),
];

#[test]
fn texts_that_are_no_report(rt: HostRuntime) -> Result<(), Fail> {
    let alloc = rt.alloc();
    for (report, refusal) in NO_REPORTS {
        let mut input = Values::new(alloc);
        input.append(b"polyanna 1|domain 2|relation one 1|tuple 1|tuple 1|end|")?;
        input.append(report)?;
        let input = lines(alloc, input.as_slice())?;
        let done = run_on(alloc, &["check"], input.as_slice())?;
        assert_eq!(rt;
            done.text.as_slice(),
            lines(alloc, refusal)?.as_slice(),
            "at {report:?}"
        );
        assert_eq!(rt; done.status, 3, "at {report:?}");
    }
    Ok(())
}

fn triangle() -> Reported {
    Reported {
        file: TRIANGLE,
        classes: TRIANGLE_CLASSES,
        item: TRIANGLE_ITEM,
        after: b"end|",
        verdicts_before: TRIANGLE_VERDICTS,
        verdicts_after: b"end|",
    }
}

fn sums() -> Reported {
    Reported {
        file: SUMS,
        classes: SUMS_CLASSES,
        item: SUMS_ITEM,
        after: b"instance j yes affine 0 1|end|",
        verdicts_before: SUMS_VERDICTS,
        verdicts_after: b"instance j accepted|end|",
    }
}

/// With `to` in place of `from` in the item, `check` writes the verdict, or a refusal, and ends with its status.
fn assert_judged(
    rt: &impl Abort,
    alloc: Global,
    reported: &Reported,
    from: &[u8],
    to: &[u8],
    verdict: &[u8],
) -> Result<(), Fail> {
    let input = with_item(
        alloc,
        reported,
        replaced(alloc, reported.item, from, to)?.as_slice(),
    )?;
    let done = run_on(alloc, &["check"], input.as_slice())?;
    let written = with_verdict(alloc, reported, verdict)?;
    assert_eq!(rt; done.text.as_slice(), written.as_slice(), "at {to:?}");
    assert_eq!(rt; done.status, status_of(verdict), "at {to:?}");
    Ok(())
}

/// The file with its report, in which this is the item.
fn with_item(alloc: Global, reported: &Reported, item: &[u8]) -> Result<Values, NoMemory> {
    let mut text = Values::new(alloc);
    text.append(reported.file)?;
    text.append(reported.classes)?;
    text.append(item)?;
    text.append(reported.after)?;
    lines(alloc, text.as_slice())
}

/// What `check` writes where this is the verdict on the item, or the refusal.
fn with_verdict(alloc: Global, reported: &Reported, verdict: &[u8]) -> Result<Values, NoMemory> {
    let mut text = Values::new(alloc);
    if verdict.starts_with(b"refused ") {
        text.append(verdict)?;
        text.append(b"|")?;
    } else {
        text.append(reported.verdicts_before)?;
        text.append(verdict)?;
        text.append(b"|")?;
        text.append(reported.verdicts_after)?;
    }
    lines(alloc, text.as_slice())
}

fn status_of(verdict: &[u8]) -> u8 {
    if verdict.starts_with(b"refused ") {
        3
    } else if verdict.starts_with(b"rejected ") {
        1
    } else {
        0
    }
}

/// The text with `to` in place of the first place where `from` stands.
fn replaced(alloc: Global, text: &[u8], from: &[u8], to: &[u8]) -> Result<Values, NoMemory> {
    let mut bytes = Values::new(alloc);
    for place in 0..text.len() {
        if let Some(behind) = text[place..].strip_prefix(from) {
            bytes.append(&text[..place])?;
            bytes.append(to)?;
            bytes.append(behind)?;
            return Ok(bytes);
        }
    }
    Ok(bytes)
}
