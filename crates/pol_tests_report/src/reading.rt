//! Reports that are read again, and the refusals of texts that are none.
use pol_base::{NoMemory, Values};
use pol_report::{Items, printable, put_head, put_item, put_last, read_items};
use pol_text::{ReadFail, Refusal, Word};
use std::alloc::Global;
use std::test::Fail;

#[test]
fn reads_again_what_is_printed(rt: HostRuntime) -> Result<(), Fail> {
    let items = [
        b"".as_slice(),
        b"class constant none\nclass nu4 beyond\nclass nu4 none\nclass set-function 0 4\n".as_slice(),
        b"instance i0 undecided\ninstance i0 yes majority 0 1 1\n".as_slice(),
        b"instance i0 yes maltsev 0 1\nsizes 2 3 1\ninstance i1 no maltsev\nsizes 0\n".as_slice(),
        b"instance i0 no affine 1 0 1\npart 3 1 0 1 1\ninstance i1 no affine 0 4\n".as_slice(),
        b"instance i0 no nu4 2\nc 2 1 2 0 3 0 0 1\nv 3 0 0\ninstance i1 no constant 0\n".as_slice(),
    ];
    for text in items {
        let bytes = report(rt.alloc(), text)?;
        assert!(rt; is_read_again(rt.alloc(), bytes.as_slice())?, "at {text:?}");
    }
    Ok(())
}

#[test]
fn passes_over_comments_zeros_and_blanks(rt: HostRuntime) -> Result<(), Fail> {
    let text = b"# a report\n\n polyanna-report\t01\r\nclass  majority  00 1\n#\nend".as_slice();
    let items = read_items(rt.alloc(), text, 7)?;
    assert_eq!(rt; items.len(), 1);
    assert!(rt; prints(rt.alloc(), &items, b"class majority 0 1\n")?);
    Ok(())
}

#[test]
fn a_text_that_ends_early_is_refused_at_the_line_that_would_come_next(rt: HostRuntime) {
    let cases = [
        (b"".as_slice(), 1, Word::NoHeader),
        (b"\n#\n".as_slice(), 3, Word::NoHeader),
        (b"polyanna-report 1".as_slice(), 2, Word::Ended),
        (
            b"polyanna-report 1\ninstance i no nu4 1\n\n".as_slice(),
            4,
            Word::Ended,
        ),
        (
            b"polyanna-report 1\ninstance i no maltsev\n".as_slice(),
            3,
            Word::Ended,
        ),
        (
            b"polyanna-report 1\nend\n\n#\nend\n".as_slice(),
            5,
            Word::AfterEnd,
        ),
        (b"polyanna-report 1\nend end\n".as_slice(), 2, Word::BadLine),
    ];
    for (text, line, word) in cases {
        assert_eq!(rt;
            refusal(rt.alloc(), text, 1),
            Some(Refusal { line, word }),
            "at {text:?}"
        );
    }
}

#[test]
fn the_first_line_is_the_head_of_version_1(rt: HostRuntime) {
    let cases = [
        (b"polyanna 1\n".as_slice(), Word::NoHeader),
        (b"polyanna-report\n".as_slice(), Word::BadVersion),
        (b"polyanna-report 2\n".as_slice(), Word::BadVersion),
        (b"polyanna-report 1 1\n".as_slice(), Word::BadVersion),
    ];
    for (text, word) in cases {
        assert_eq!(rt;
            refusal(rt.alloc(), text, 9),
            Some(Refusal { line: 9, word }),
            "at {text:?}"
        );
    }
}

#[test]
fn the_first_token_that_does_not_fit_is_refused(rt: HostRuntime) -> Result<(), Fail> {
    let cases = [
        (b"sizes 1\n".as_slice(), Word::BadLine),
        (b"class\n".as_slice(), Word::BadLine),
        (b"class dual 0\n".as_slice(), Word::BadLine),
        (b"class affine\n".as_slice(), Word::BadLine),
        (b"class affine none 0\n".as_slice(), Word::BadLine),
        (b"class affine beyond\n".as_slice(), Word::BadNumber),
        (b"class affine 0 none\n".as_slice(), Word::BadNumber),
        (b"class affine 0 5 none\n".as_slice(), Word::ValueOutside),
        (b"instance 9 undecided\n".as_slice(), Word::BadName),
        (b"instance i open\n".as_slice(), Word::BadLine),
        (b"instance i undecided 0\n".as_slice(), Word::BadLine),
        (b"instance i yes affine\n".as_slice(), Word::BadLine),
        (
            b"instance i no affine 4097 5\n".as_slice(),
            Word::TooManyParts,
        ),
        (
            b"instance i no affine 1 0 0 0 0 0 x\n".as_slice(),
            Word::BadLine,
        ),
        (
            b"instance i no affine 1 0 0 0 5 0 x\n".as_slice(),
            Word::ValueOutside,
        ),
        (b"instance i no nu4 x 0\n".as_slice(), Word::BadNumber),
        (b"instance i no nu4 1 0\n".as_slice(), Word::BadLine),
        (
            b"instance i no nu4 10037609 0\n".as_slice(),
            Word::TooManySteps,
        ),
        (b"instance i no nu4 10037608 0\n".as_slice(), Word::BadLine),
    ];
    for (text, word) in cases {
        let bytes = report(rt.alloc(), text)?;
        let expected = Some(Refusal { line: 2, word });
        assert_eq!(rt;
            refusal(rt.alloc(), bytes.as_slice(), 1),
            expected,
            "at {text:?}"
        );
    }
    Ok(())
}

#[test]
fn the_first_token_of_a_further_line_that_does_not_fit_is_refused(
    rt: HostRuntime,
) -> Result<(), Fail> {
    let cases = [
        (b"instance i no nu4 1\nend\n".as_slice(), Word::BadLine),
        (b"instance i no nu4 1\nc 0 4\n".as_slice(), Word::BadLine),
        (
            b"instance i no nu4 1\nc 0 1 0 5\n".as_slice(),
            Word::ValueOutside,
        ),
        (
            b"instance i no nu4 1\nv 0 0 129\n".as_slice(),
            Word::BadLine,
        ),
        (
            b"instance i no nu4 1\nv 0 0 2 0\n".as_slice(),
            Word::BadLine,
        ),
        (
            b"instance i no nu4 1\nv 0 0 1 0 x\n".as_slice(),
            Word::BadLine,
        ),
        (
            b"instance i no nu4 1\nv 0 0 1 1234567890\n".as_slice(),
            Word::BadNumber,
        ),
        (
            b"instance i no affine 1 0\npart 0 1 5 x\n".as_slice(),
            Word::ValueOutside,
        ),
        (
            b"instance i no affine 1 0\npart 0 1 1 0 0 0 0 0 0 x\n".as_slice(),
            Word::BadLine,
        ),
        (b"instance i no maltsev\nsizes\n".as_slice(), Word::BadLine),
        (
            b"instance i no maltsev\nsizes 5 x\n".as_slice(),
            Word::BadNumber,
        ),
    ];
    for (text, word) in cases {
        let bytes = report(rt.alloc(), text)?;
        let expected = Some(Refusal { line: 3, word });
        assert_eq!(rt;
            refusal(rt.alloc(), bytes.as_slice(), 1),
            expected,
            "at {text:?}"
        );
    }
    Ok(())
}

#[test]
fn items_and_the_steps_of_all_logs_are_few(rt: HostRuntime) -> Result<(), Fail> {
    let steps = b"instance i no nu4 1\nc 0 0 0\ninstance i no nu4 10037608\n";
    let bytes = report(rt.alloc(), steps)?;
    let expected = Refusal {
        line: 4,
        word: Word::TooManySteps,
    };
    assert_eq!(rt; refusal(rt.alloc(), bytes.as_slice(), 1), Some(expected));
    let mut items = Values::new(rt.alloc());
    for _ in 0..64 {
        items.append(b"class nu4 none\n")?;
    }
    let bytes = report(rt.alloc(), items.as_slice())?;
    assert!(rt; is_read_again(rt.alloc(), bytes.as_slice())?);
    items.append(b"class x\n")?;
    let bytes = report(rt.alloc(), items.as_slice())?;
    let expected = Refusal {
        line: 66,
        word: Word::TooManyItems,
    };
    assert_eq!(rt; refusal(rt.alloc(), bytes.as_slice(), 1), Some(expected));
    Ok(())
}

/// The lines of items between the head and the last line.
fn report(alloc: Global, items: &[u8]) -> Result<Values, NoMemory> {
    let mut text = Values::new(alloc);
    put_head(&mut text)?;
    text.append(items)?;
    put_last(&mut text)?;
    Ok(text)
}

const MOST_BYTES: usize = 2000;

/// The refusal of a short text whose first line has the number.
fn refusal(alloc: Global, text: &[u8], line: u32) -> Option<Refusal> {
    if text.len() > MOST_BYTES || line > 100 {
        return None;
    }
    match read_items(alloc, text, line) {
        Err(ReadFail::Refused(refusal)) => Some(refusal),
        _ => None,
    }
}

/// Whether the short text is that of the items that it is read as.
fn is_read_again(alloc: Global, text: &[u8]) -> Result<bool, NoMemory> {
    if text.len() > MOST_BYTES {
        return Ok(false);
    }
    match read_items(alloc, text, 1) {
        Ok(items) => {
            let mut out = Values::new(alloc);
            put_head(&mut out)?;
            let printed = put_items(&mut out, &items)?;
            put_last(&mut out)?;
            Ok(printed && out.as_slice() == text)
        }
        Err(_) => Ok(false),
    }
}

/// Whether the lines of the items are these.
fn prints(alloc: Global, items: &Items, lines: &[u8]) -> Result<bool, NoMemory> {
    let mut out = Values::new(alloc);
    let printed = put_items(&mut out, items)?;
    Ok(printed && out.as_slice() == lines)
}

/// Appends the lines of the items, unless one may not be printed.
fn put_items(out: &mut Values, items: &Items) -> Result<bool, NoMemory> {
    for i in 0..items.len() {
        let item = items.get(i);
        if !printable(item) {
            return Ok(false);
        }
        put_item(out, item)?;
    }
    Ok(true)
}
