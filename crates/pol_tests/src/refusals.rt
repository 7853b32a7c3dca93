use crate::harness::{assert_written, lines};
use pol_base::{NoMemory, Values};
use pol_text::{put_number, put_spaced};
use std::alloc::Global;
use std::test::Fail;

/// Each beginning of a file that is shorter than its last line, by ranges of lengths.
const BEGINNINGS: [(u32, u32, &[u8]); 28] = [
    (0, 7, b"refused 1 NoHeader|"),
    (8, 9, b"refused 1 BadVersion|"),
    (10, 11, b"refused 2 Ended|"),
    (12, 18, b"refused 2 BadLine|"),
    (19, 20, b"refused 3 Ended|"),
    (21, 33, b"refused 3 BadLine|"),
    (34, 35, b"refused 4 Ended|"),
    (36, 39, b"refused 4 BadLine|"),
    (40, 43, b"refused 4 ShortTuple|"),
    (44, 45, b"refused 5 Ended|"),
    (46, 49, b"refused 5 BadLine|"),
    (50, 53, b"refused 5 ShortTuple|"),
    (54, 55, b"refused 6 Ended|"),
    (56, 68, b"refused 6 BadLine|"),
    (69, 74, b"refused 7 Ended|"),
    (75, 85, b"refused 7 BadLine|"),
    (86, 87, b"refused 7 UnknownRelation|"),
    (88, 91, b"refused 7 BadArity|"),
    (92, 93, b"refused 8 Ended|"),
    (94, 104, b"refused 8 BadLine|"),
    (105, 106, b"refused 8 UnknownRelation|"),
    (107, 110, b"refused 8 BadArity|"),
    (111, 112, b"refused 9 Ended|"),
    (113, 123, b"refused 9 BadLine|"),
    (124, 125, b"refused 9 UnknownRelation|"),
    (126, 129, b"refused 9 BadArity|"),
    (130, 131, b"refused 10 Ended|"),
    (132, 133, b"refused 10 BadLine|"),
];

#[test]
fn beginnings_of_a_file(rt: HostRuntime) -> Result<(), Fail> {
    let alloc = rt.alloc();
    let file = lines(
        alloc,
        b"polyanna 1|domain 2|relation neq 2|tuple 0 1|tuple 1 0|instance tri x y z|constraint neq x y|constraint neq y z|constraint neq z x|end|",
    )?;
    for (first, last, refusal) in BEGINNINGS {
        for length in first..=last {
            let front = file.as_slice().get(..length as usize).ok_or("a beginning")?;
            assert_written(&rt, alloc, front, refusal)?;
        }
    }
    Ok(())
}

const LANGUAGES: [(&[u8], &[u8]); 24] = [
    (b"", b"refused 1 NoHeader|"),
    (b"|||", b"refused 4 NoHeader|"),
    (b"# only|# comments", b"refused 3 NoHeader|"),
    (b"\r", b"refused 2 NoHeader|"),
    (b"polyanna 9|", b"refused 1 BadVersion|"),
    (b"polyanna 0000000001|", b"refused 1 BadVersion|"),
    (b"polyanna 1|domain 6|", b"refused 2 BadDomain|"),
    (b"polyanna 1|domain two|", b"refused 2 BadNumber|"),
    (b"polyanna 1|domain 2|", b"refused 3 Ended|"),
    (b"polyanna 1|domain 2", b"refused 3 Ended|"),
    (b"polyanna 1|domain 2|tuple 0|", b"refused 3 BadLine|"),
    (b"polyanna 1|domain 2|relation 2r 1|", b"refused 3 BadName|"),
    (
        b"polyanna 1|domain 2|relation r\0 1|",
        b"refused 3 BadName|",
    ),
    (
        b"polyanna 1|domain 2|relation abcdefghijklmnopqrstuvwxyz0123456 1|",
        b"refused 3 BadName|",
    ),
    (
        b"polyanna 1|domain 2|relation r 1|relation r 2|",
        b"refused 4 RepeatedName|",
    ),
    (b"polyanna 1|domain 2|relation r 7|", b"refused 3 BadArity|"),
    (
        b"polyanna 1|domain 2|relation r 2|tuple 0|",
        b"refused 4 ShortTuple|",
    ),
    (
        b"polyanna 1|domain 2|relation r 2|tuple 0 1 0|",
        b"refused 4 LongTuple|",
    ),
    (
        b"polyanna 1|domain 2|relation r 2|tuple 0 2|",
        b"refused 4 ValueOutside|",
    ),
    (
        b"polyanna 1|domain 2|relation r 2|tuple 2 x|",
        b"refused 4 ValueOutside|",
    ),
    (
        b"polyanna 1|domain 5|relation r 5|",
        b"refused 3 SubsetLimit|",
    ),
    (b"polyanna 1|domain 2|end|x|", b"refused 4 AfterEnd|"),
    (b"polyanna 1|domain 2|end|# x||y", b"refused 6 AfterEnd|"),
    (b"polyanna 1|domain 2|end x|", b"refused 3 BadLine|"),
];

#[test]
fn refusals_of_languages(rt: HostRuntime) -> Result<(), Fail> {
    let alloc = rt.alloc();
    for (input, refusal) in LANGUAGES {
        assert_written(&rt, alloc, lines(alloc, input)?.as_slice(), refusal)?;
    }
    Ok(())
}

const INSTANCES: [(&[u8], &[u8]); 10] = [
    (
        b"polyanna 1|domain 2|instance i x|constraint s x|",
        b"refused 4 UnknownRelation|",
    ),
    (
        b"polyanna 1|domain 2|instance i x|constraint s y|",
        b"refused 4 UnknownRelation|",
    ),
    (
        b"polyanna 1|domain 2|relation r 1|instance i x|constraint r y|",
        b"refused 5 UnknownVariable|",
    ),
    (
        b"polyanna 1|domain 2|relation r 1|instance i x|constraint r|",
        b"refused 5 BadArity|",
    ),
    (
        b"polyanna 1|domain 2|instance i x|constraint|",
        b"refused 4 BadLine|",
    ),
    (b"polyanna 1|domain 2|instance i|", b"refused 3 BadLine|"),
    (
        b"polyanna 1|domain 2|instance i x x|",
        b"refused 3 RepeatedName|",
    ),
    (
        b"polyanna 1|domain 2|instance i x|instance i x|",
        b"refused 4 RepeatedName|",
    ),
    (
        b"polyanna 1|domain 2|instance i x|relation r 1|",
        b"refused 4 BadLine|",
    ),
    (
        b"polyanna 1|domain 2|constraint r x|",
        b"refused 3 BadLine|",
    ),
];

#[test]
fn refusals_of_instances(rt: HostRuntime) -> Result<(), Fail> {
    let alloc = rt.alloc();
    for (input, refusal) in INSTANCES {
        assert_written(&rt, alloc, lines(alloc, input)?.as_slice(), refusal)?;
    }
    Ok(())
}

/// A line for each of so many numbers: the front, the number, and what is behind it.
fn put_numbered(
    text: &mut Values,
    count: u32,
    front: &[u8],
    behind: &[u8],
) -> Result<(), NoMemory> {
    for number in 0..count {
        text.append(front)?;
        put_number(text, u64::from(number))?;
        text.append(behind)?;
    }
    Ok(())
}

/// The tuples of the numbers below the count, written with so many digits in the base.
fn put_tuples(text: &mut Values, count: u32, base: u32, arity: u32) -> Result<(), NoMemory> {
    for number in 0..count {
        text.append(b"tuple")?;
        for place in 0..arity {
            let digit = number / base.saturating_pow(arity - 1 - place).max(1) % base.max(1);
            put_spaced(text, u64::from(digit))?;
        }
        text.append(b"\n")?;
    }
    Ok(())
}

/// Relations of one arity on two values, each with the tuples of the numbers below the count.
fn put_relations(
    text: &mut Values,
    first: u32,
    end: u32,
    arity: u32,
    tuples: u32,
) -> Result<(), NoMemory> {
    for number in first..end {
        text.append(b"relation r")?;
        put_number(text, u64::from(number))?;
        put_spaced(text, u64::from(arity))?;
        text.append(b"\n")?;
        put_tuples(text, tuples, 2, arity)?;
    }
    Ok(())
}

#[test]
fn refusals_at_the_limits_on_numbers(rt: HostRuntime) -> Result<(), Fail> {
    let alloc = rt.alloc();
    let mut relations = lines(alloc, b"polyanna 1|domain 2|")?;
    put_numbered(&mut relations, 33, b"relation r", b" 1\n")?;
    let mut instances = lines(alloc, b"polyanna 1|domain 2|")?;
    put_numbered(&mut instances, 9, b"instance i", b" x\n")?;
    let mut variables = lines(alloc, b"polyanna 1|domain 2|instance i")?;
    put_numbered(&mut variables, 41, b" x", b"")?;
    let mut constraints = lines(
        alloc,
        b"polyanna 1|domain 2|relation r 1|tuple 0|instance i x|",
    )?;
    for _ in 0..257 {
        constraints.append(b"constraint r x\n")?;
    }
    let cases: [(&Values, &[u8]); 4] = [
        (&relations, b"refused 35 TooManyRelations|"),
        (&instances, b"refused 11 TooManyInstances|"),
        (&variables, b"refused 3 TooManyVariables|"),
        (&constraints, b"refused 262 TooManyConstraints|"),
    ];
    for (input, refusal) in cases {
        assert_written(&rt, alloc, input.as_slice(), refusal)?;
    }
    Ok(())
}

const TUPLES: [(&[u8], u32, u32, u32, &[u8], &[u8]); 6] = [
    (
        b"polyanna 1|domain 2|relation r 6|",
        38,
        2,
        6,
        b"end|",
        b"polyanna-report 1|class constant 0 0|class semilattice 0 0 0 1|class set-function 0 0 0|class majority none|class nu4 0 0 0 0 0 0 0 1 0 0 0 1 0 1 1 1|class affine none|class maltsev none|end|",
    ),
    (
        b"polyanna 1|domain 2|relation r 6|",
        39,
        2,
        6,
        b"end|",
        b"polyanna-report 1|class constant 0 0|class semilattice 0 0 0 1|class set-function 0 0 0|class majority none|class nu4 beyond|class affine none|class maltsev none|end|",
    ),
    (
        b"polyanna 1|domain 2|relation r 6|",
        39,
        2,
        6,
        b"relation one 1|tuple 1|instance a u v w x y z|constraint one u|constraint r u v w x y z|instance b u v w x y z|constraint one u|constraint one v|constraint r u v w x y z|end|",
        b"polyanna-report 1|class constant none|class semilattice 0 0 0 1|class set-function 0 1 0|class majority none|class nu4 beyond|class affine none|class maltsev none|instance a yes semilattice 1 0 0 0 0 0|instance b no semilattice 4|c 0 1 0 0 0|c 1 1 1 0 0|c 2 1 0 1 7 1 1 1 1 1 1 1|v 0 0 2 0 2|end|",
    ),
    (
        b"polyanna 1|domain 3|relation r 5|",
        128,
        3,
        5,
        b"end|",
        b"polyanna-report 1|class constant 0 0 0|class semilattice 0 0 0 0 1 0 0 0 2|class set-function 0 0 0 0 0 0 0|class majority none|class nu4 beyond|class affine none|class maltsev none|end|",
    ),
    (
        b"polyanna 1|domain 3|relation r 5|",
        129,
        3,
        5,
        b"end|",
        b"refused 132 TooManyTuples|",
    ),
    (
        b"polyanna 1|domain 3|relation r 5|",
        128,
        3,
        5,
        b"relation b 1|tuple 0|end|",
        b"refused 133 TripleLimit|",
    ),
];

#[test]
fn limits_on_tuples(rt: HostRuntime) -> Result<(), Fail> {
    let alloc = rt.alloc();
    for (front, count, base, arity, behind, written) in TUPLES {
        let mut input = lines(alloc, front)?;
        put_tuples(&mut input, count, base, arity)?;
        input.append(lines(alloc, behind)?.as_slice())?;
        assert_written(&rt, alloc, input.as_slice(), written)?;
    }
    Ok(())
}

#[test]
fn limits_on_sums_of_32_relations(rt: HostRuntime) -> Result<(), Fail> {
    let alloc = rt.alloc();
    // 2 * 15^5 + 11 * 15^4 + 6 * 15^3 + 5 * 15^2 + 7 * 15 is 47 below 2^21
    let mut subsets = lines(alloc, b"polyanna 1|domain 4|")?;
    put_relations(&mut subsets, 0, 2, 5, 0)?;
    put_relations(&mut subsets, 2, 13, 4, 0)?;
    put_relations(&mut subsets, 13, 19, 3, 0)?;
    put_relations(&mut subsets, 19, 24, 2, 0)?;
    put_relations(&mut subsets, 24, 31, 1, 0)?;
    // 31 * 40^3 + 48^3 is 2560 below 2^21, and 49^3 is 7057 above 48^3
    let mut triples = lines(alloc, b"polyanna 1|domain 2|")?;
    put_relations(&mut triples, 0, 31, 6, 40)?;
    put_relations(&mut triples, 31, 32, 6, 48)?;
    let cases: [(&Values, &[u8], &[u8]); 4] = [
        (
            &subsets,
            b"relation last 1|end|",
            b"polyanna-report 1|class constant 0 0 0 0|class semilattice 0 0 0 0 0 1 0 0 0 0 2 0 0 0 0 3|class set-function 0 0 0 0 0 0 0 0 0 0 0 0 0 0 0|class majority 0 0 0 0 0 1 0 0 0 0 2 0 0 0 0 3 0 1 0 0 1 1 1 1 0 1 2 0 0 1 0 3 0 0 2 0 0 1 2 0 2 2 2 2 0 0 2 3 0 0 0 3 0 1 0 3 0 0 2 3 3 3 3 3|class nu4 0 0 0 0 0 0 0 0 0 0 0 0 0 0 0 0 0 0 0 0 0 1 0 0 0 0 0 0 0 0 0 0 0 0 0 0 0 0 0 0 0 0 2 0 0 0 0 0 0 0 0 0 0 0 0 0 0 0 0 0 0 0 0 3 0 0 0 0 0 1 0 0 0 0 0 0 0 0 0 0 0 1 0 0 1 1 1 1 0 1 0 0 0 1 0 0 0 0 0 0 0 1 0 0 0 0 2 0 0 0 0 0 0 0 0 0 0 1 0 0 0 0 0 0 0 0 0 3 0 0 0 0 0 0 0 0 0 0 2 0 0 0 0 0 0 0 0 0 0 1 0 0 0 0 2 0 0 0 0 0 0 0 2 0 0 0 2 0 2 2 2 2 0 0 2 0 0 0 0 0 0 0 0 0 0 0 2 0 0 0 0 3 0 0 0 0 0 0 0 0 0 0 0 0 0 0 0 3 0 0 0 0 0 1 0 0 0 0 0 0 0 0 0 3 0 0 0 0 0 0 0 0 0 0 2 0 0 0 0 3 0 0 0 3 0 0 0 3 0 0 0 3 3 3 3 3|class affine none|class maltsev 0 1 2 3 0 0 0 0 0 0 0 0 0 0 0 0 1 0 0 0 0 1 2 3 0 0 1 0 0 0 0 1 2 0 0 0 0 2 0 0 0 1 2 3 0 0 0 2 3 0 0 0 0 3 0 0 0 0 3 0 0 1 2 3|end|",
        ),
        (
            &subsets,
            b"relation last 2|end|",
            b"refused 34 SubsetLimit|",
        ),
        (
            &triples,
            b"end|",
            b"polyanna-report 1|class constant 0 0|class semilattice 0 0 0 1|class set-function 0 0 0|class majority 0 0 0 1 0 1 1 1|class nu4 beyond|class affine none|class maltsev none|end|",
        ),
        (
            &triples,
            b"tuple 1 1 0 0 0 0|end|",
            b"refused 1323 TripleLimit|",
        ),
    ];
    for (front, behind, written) in cases {
        let mut input = Values::from_slice(alloc, front.as_slice())?;
        input.append(lines(alloc, behind)?.as_slice())?;
        assert_written(&rt, alloc, input.as_slice(), written)?;
    }
    Ok(())
}
