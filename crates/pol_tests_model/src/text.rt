//! Lines, tokens, numbers, names and refusals, on texts worked out by hand.
use pol_base::Values;
use pol_text::{
    Refusal, Word, count_lines, is_name, number, put_numbers, put_refusal, put_values, significant,
};
use std::test::Fail;

#[test]
fn counts_the_last_line_without_an_lf(rt: HostRuntime) {
    let cases = [
        (b"".as_slice(), 0),
        (b"\n\n\n".as_slice(), 3),
        (b"a\nb".as_slice(), 2),
        (b"a\r\nb\r\n".as_slice(), 2),
        (b"\r".as_slice(), 1),
    ];
    for (text, lines) in cases {
        assert_eq!(rt; count_lines(text), lines, "at {text:?}");
    }
}

#[test]
fn passes_over_comments_and_blank_lines(rt: HostRuntime) {
    let text = b"# head\n a\tb  c \r\n\r\n\r\r\nx\0y z\n\t#no\nend #t";
    let mut lines = significant(text, 1);
    let expected = [
        (2, 3, Some(b"a".as_slice()), 17),
        (4, 1, Some(b"\r".as_slice()), 22),
        (5, 2, Some(b"x\0y".as_slice()), 28),
        (7, 2, Some(b"end".as_slice()), 39),
    ];
    for line in expected {
        let found = lines.next().map(|found| (
            found.number(),
            found.count(),
            found.token(0),
            found.after(),
        ));
        assert_eq!(rt; found, Some(line));
    }
    assert!(rt; lines.next().is_none());
}

const LINE: &[u8] = b" 7\t007  1234567890 12x 999999999 x -1";

const NUMBERS: [Option<Option<u32>>; 8] = [
    Some(Some(7)),
    Some(Some(7)),
    Some(None),
    Some(None),
    Some(Some(999_999_999)),
    Some(None),
    Some(None),
    None,
];

#[test]
fn reads_the_number_of_each_token(rt: HostRuntime) {
    let line = significant(LINE, 1).next().expect(&rt, "a line");
    let mut tokens = line.tokens();
    for number in NUMBERS {
        assert_eq!(rt; tokens.next_number(), number);
    }
}

#[test]
fn reads_one_to_nine_digits(rt: HostRuntime) {
    let cases = [
        (b"".as_slice(), None),
        (b"0".as_slice(), Some(0)),
        (b"007".as_slice(), Some(7)),
        (b"999999999".as_slice(), Some(999_999_999)),
        (b"0000000001".as_slice(), None),
        (b"1a".as_slice(), None),
        (b"-1".as_slice(), None),
    ];
    for (token, value) in cases {
        assert_eq!(rt; number(token), value, "at {token:?}");
    }
}

#[test]
fn prints_numbers_behind_spaces(rt: HostRuntime) -> Result<(), Fail> {
    let mut out = Values::new(rt.alloc());
    put_values(&mut out, &[0, 4, 255])?;
    put_numbers(&mut out, &[15_625, 0, u32::MAX])?;
    put_values(&mut out, &[])?;
    assert_eq!(rt; out.as_slice(), b" 0 4 255 15625 0 4294967295".as_slice());
    Ok(())
}

#[test]
fn names_begin_with_a_letter_and_have_at_most_32_bytes(rt: HostRuntime) {
    let cases = [
        (b"".as_slice(), false),
        (b"a".as_slice(), true),
        (b"9a".as_slice(), false),
        (b"a-b_c9".as_slice(), true),
        (b"abcdefghijklmnopqrstuvwxyz012345".as_slice(), true),
        (b"abcdefghijklmnopqrstuvwxyz0123456".as_slice(), false),
    ];
    for (token, is) in cases {
        assert_eq!(rt; is_name(token), is, "at {token:?}");
    }
}

#[test]
fn prints_the_line_and_the_word(rt: HostRuntime) {
    let mut out = Values::new(rt.alloc());
    let refusal = Refusal {
        line: 3,
        word: Word::BadLine,
    };
    assert_eq!(rt; put_refusal(&mut out, refusal), Ok(()));
    assert_eq!(rt; out.as_slice(), b"refused 3 BadLine\n".as_slice());
}
