use crate::harness::{assert_written, lines};
use pol_base::Values;
use std::test::Fail;

const SMALL_FILES: [(&[u8], &[u8]); 14] = [
    (
        b"polyanna 1|domain 2|end|",
        b"polyanna-report 1|class constant 0 0|class semilattice 0 0 0 1|class set-function 0 0 0|class majority 0 0 0 1 0 1 1 1|class nu4 0 0 0 0 0 0 0 1 0 0 0 1 0 1 1 1|class affine 0 1 1 0 1 0 0 1|class maltsev 0 1 0 0 1 0 0 1|end|",
    ),
    (
        b"polyanna 1|domain 2|relation one 1|tuple 1|end|",
        b"polyanna-report 1|class constant 1 1|class semilattice 0 0 0 1|class set-function 0 1 0|class majority 0 0 0 1 0 1 1 1|class nu4 0 0 0 0 0 0 0 1 0 0 0 1 0 1 1 1|class affine 0 1 1 0 1 0 0 1|class maltsev 0 1 0 0 1 0 0 1|end|",
    ),
    (
        b"polyanna 1|domain 2|relation neq 2|tuple 0 1|tuple 1 0|end|",
        b"polyanna-report 1|class constant none|class semilattice none|class set-function none|class majority 0 0 0 1 0 1 1 1|class nu4 0 0 0 0 0 0 0 1 0 1 1 1 1 1 1 1|class affine 0 1 1 0 1 0 0 1|class maltsev 0 1 0 0 1 1 0 1|end|",
    ),
    (
        b"polyanna 1|domain 1|relation r 1|tuple 0|instance u x|constraint r x|end|",
        b"polyanna-report 1|class constant 0|class semilattice 0|class set-function 0|class majority 0|class nu4 0|class affine none|class maltsev 0|instance u yes constant 0|end|",
    ),
    (
        b"polyanna 1|domain 2|relation e 1|instance z x|constraint e x|end|",
        b"polyanna-report 1|class constant 0 0|class semilattice 0 0 0 1|class set-function 0 0 0|class majority 0 0 0 1 0 1 1 1|class nu4 0 0 0 0 0 0 0 1 0 0 0 1 0 1 1 1|class affine 0 1 1 0 1 0 0 1|class maltsev 0 1 0 0 1 0 0 1|instance z no constant 1|c 0 0 0|end|",
    ),
    (
        b"polyanna 1\r|domain 2\r|relation one 1\r|tuple 1\r|tuple 1\r|end\r|",
        b"polyanna-report 1|class constant 1 1|class semilattice 0 0 0 1|class set-function 0 1 0|class majority 0 0 0 1 0 1 1 1|class nu4 0 0 0 0 0 0 0 1 0 0 0 1 0 1 1 1|class affine 0 1 1 0 1 0 0 1|class maltsev 0 1 0 0 1 0 0 1|end|",
    ),
    (
        b"polyanna 1|domain 2|relation neq 2|tuple 0 1|tuple 1 0|relation zero 1|tuple 0|instance p x y|constraint zero x|constraint neq x y|end|",
        b"polyanna-report 1|class constant none|class semilattice none|class set-function none|class majority 0 0 0 1 0 1 1 1|class nu4 0 0 0 0 0 0 0 1 0 1 1 1 1 1 1 1|class affine 0 1 1 0 1 0 0 1|class maltsev 0 1 0 0 1 1 0 1|instance p yes majority 0 1|end|",
    ),
    (
        b"polyanna 1|domain 3|relation le 2|tuple 2 2|tuple 1 1|relation e 1|instance a x y|constraint le x y|instance b x|constraint le x x|constraint e x|constraint e x|end|",
        b"polyanna-report 1|class constant 1 1 1|class semilattice 0 0 0 0 1 1 0 1 2|class set-function 0 1 0 1 0 1 0|class majority 0 0 0 0 1 0 0 0 2 0 1 0 1 1 1 0 1 2 0 0 2 0 1 2 2 2 2|class nu4 0 0 0 0 0 0 0 0 0 0 0 0 0 1 0 0 0 0 0 0 0 0 0 0 0 0 2 0 0 0 0 1 0 0 0 0 0 1 0 1 1 1 0 1 1 0 0 0 0 1 1 0 1 2 0 0 0 0 0 0 0 0 2 0 0 0 0 1 1 0 1 2 0 0 2 0 1 2 2 2 2|class affine none|class maltsev 0 1 2 0 0 0 0 0 0 1 0 0 0 1 2 0 1 1 2 0 0 0 2 1 0 1 2|instance a yes constant 1 1|instance b no constant 1|c 1 0 0|end|",
    ),
    (
        b"# a comment||polyanna 1|\t domain\t2|  # another|relation r 0002|tuple 1 1|instance i x|end",
        b"polyanna-report 1|class constant 1 1|class semilattice 0 0 0 1|class set-function 0 1 0|class majority 0 0 0 1 0 1 1 1|class nu4 0 0 0 0 0 0 0 1 0 0 0 1 0 1 1 1|class affine 0 1 1 0 1 0 0 1|class maltsev 0 1 0 0 1 0 0 1|instance i yes constant 1|end|",
    ),
    (
        b"polyanna 1|domain 2|relation neq 2|tuple 0 1|tuple 1 0|instance tri x y z|constraint neq x y|constraint neq y z|constraint neq z x|end|",
        b"polyanna-report 1|class constant none|class semilattice none|class set-function none|class majority 0 0 0 1 0 1 1 1|class nu4 0 0 0 0 0 0 0 1 0 1 1 1 1 1 1 1|class affine 0 1 1 0 1 0 0 1|class maltsev 0 1 0 0 1 1 0 1|instance tri no majority 11|c 0 2 0 0 1 0 0|c 0 2 0 1 1 1 0|c 1 2 1 0 2 0 0|c 1 2 1 1 2 1 0|c 2 2 0 0 2 0 0|c 2 2 0 1 2 1 0|v 2 2 0 0 1 1 2 4 3|v 2 2 0 1 1 0 2 2 5|v 0 1 1 0 2 0 7|v 0 1 1 1 2 6 1|v 1 0 2 8 9|end|",
    ),
    (
        b"polyanna 1|domain 3|relation neq 2|tuple 0 1|tuple 0 2|tuple 1 0|tuple 1 2|tuple 2 0|tuple 2 1|instance one x y|constraint neq x y|end|",
        b"polyanna-report 1|class constant none|class semilattice none|class set-function none|class majority none|class nu4 none|class affine none|class maltsev none|instance one undecided|end|",
    ),
    (
        b"polyanna 1|domain 2|relation h 3|tuple 0 0 0|tuple 0 0 1|tuple 0 1 0|tuple 0 1 1|tuple 1 0 0|tuple 1 0 1|tuple 1 1 1|relation zero 1|tuple 0|relation one 1|tuple 1|instance a p q r|constraint one p|constraint one q|constraint h p q r|constraint zero r|instance b p q r|constraint one p|constraint one q|constraint h p q r|end|",
        b"polyanna-report 1|class constant none|class semilattice 0 0 0 1|class set-function 0 1 0|class majority none|class nu4 none|class affine none|class maltsev none|instance a no semilattice 5|c 0 1 0 0 0|c 1 1 1 0 0|c 2 1 2 0 3 0 0 1|c 3 1 2 1 0|v 2 0 2 2 3|instance b yes semilattice 1 1 1|end|",
    ),
    (
        b"polyanna 1|domain 3|relation s0 3|tuple 0 0 0|tuple 0 1 2|tuple 0 2 1|tuple 1 0 2|tuple 1 1 1|tuple 1 2 0|tuple 2 0 1|tuple 2 1 0|tuple 2 2 2|relation s1 3|tuple 0 0 1|tuple 0 1 0|tuple 0 2 2|tuple 1 0 0|tuple 1 1 2|tuple 1 2 1|tuple 2 0 2|tuple 2 1 1|tuple 2 2 0|relation zero 1|tuple 0|instance i x y z|constraint s0 x y z|constraint s1 x y z|instance j x y|constraint zero x|constraint s1 x x y|end|",
        b"polyanna-report 1|class constant none|class semilattice none|class set-function none|class majority none|class nu4 none|class affine 0 1 2 2 0 1 1 2 0 1 2 0 0 1 2 2 0 1 2 0 1 1 2 0 0 1 2|class maltsev 0 1 2 2 0 1 1 2 0 1 2 0 0 1 2 2 0 1 2 0 1 1 2 0 0 1 2|instance i no affine 2 0 1 2|part 0 1 0 1 1 1|part 1 2 1 1 1 1|instance j yes affine 0 1|end|",
    ),
    (
        b"polyanna 1|domain 3|relation parity 3|tuple 0 0 0|tuple 0 1 1|tuple 1 0 1|tuple 1 1 0|relation swap 2|tuple 0 1|tuple 1 0|tuple 2 2|relation two 1|tuple 2|end|",
        b"polyanna-report 1|class constant none|class semilattice none|class set-function none|class majority none|class nu4 none|class affine none|class maltsev 0 1 2 1 0 0 0 0 0 1 0 1 0 1 2 1 1 1 2 0 0 1 2 1 0 1 2|end|",
    ),
];

#[test]
fn reports_of_small_files(rt: HostRuntime) -> Result<(), Fail> {
    let alloc = rt.alloc();
    for (input, report) in SMALL_FILES {
        assert_written(&rt, alloc, lines(alloc, input)?.as_slice(), report)?;
    }
    Ok(())
}

const FURTHER_CLASSES: [(&[u8], &[u8]); 4] = [
    (
        b"polyanna 1|domain 2|relation r 6|tuple 0 0 0 0 0 0|tuple 0 0 0 0 0 1|tuple 0 0 0 0 1 0|tuple 0 0 0 0 1 1|tuple 0 0 0 1 0 0|tuple 0 0 0 1 0 1|tuple 0 0 0 1 1 0|tuple 0 0 0 1 1 1|tuple 0 0 1 0 0 0|tuple 0 0 1 0 0 1|tuple 0 0 1 0 1 0|tuple 0 0 1 0 1 1|tuple 0 0 1 1 0 0|tuple 0 0 1 1 0 1|tuple 0 0 1 1 1 0|tuple 0 0 1 1 1 1|tuple 0 1 0 0 0 0|tuple 0 1 0 0 0 1|tuple 0 1 0 0 1 0|tuple 0 1 0 0 1 1|tuple 0 1 0 1 0 0|tuple 0 1 0 1 0 1|tuple 0 1 0 1 1 0|tuple 0 1 0 1 1 1|tuple 0 1 1 0 0 0|tuple 0 1 1 0 0 1|tuple 0 1 1 0 1 0|tuple 0 1 1 0 1 1|tuple 0 1 1 1 0 0|tuple 0 1 1 1 0 1|tuple 0 1 1 1 1 0|tuple 0 1 1 1 1 1|tuple 1 0 0 0 0 0|tuple 1 0 0 0 0 1|tuple 1 0 0 0 1 0|tuple 1 0 0 0 1 1|tuple 1 0 0 1 0 0|tuple 1 0 0 1 0 1|end|",
        b"polyanna-report 1|class constant 0 0|class semilattice 0 0 0 1|class set-function 0 0 0|class majority none|class nu4 0 0 0 0 0 0 0 1 0 0 0 1 0 1 1 1|class affine none|class maltsev none|end|",
    ),
    (
        b"polyanna 1|domain 2|relation r 6|tuple 0 0 0 0 0 0|tuple 0 0 0 0 0 1|tuple 0 0 0 0 1 0|tuple 0 0 0 0 1 1|tuple 0 0 0 1 0 0|tuple 0 0 0 1 0 1|tuple 0 0 0 1 1 0|tuple 0 0 0 1 1 1|tuple 0 0 1 0 0 0|tuple 0 0 1 0 0 1|tuple 0 0 1 0 1 0|tuple 0 0 1 0 1 1|tuple 0 0 1 1 0 0|tuple 0 0 1 1 0 1|tuple 0 0 1 1 1 0|tuple 0 0 1 1 1 1|tuple 0 1 0 0 0 0|tuple 0 1 0 0 0 1|tuple 0 1 0 0 1 0|tuple 0 1 0 0 1 1|tuple 0 1 0 1 0 0|tuple 0 1 0 1 0 1|tuple 0 1 0 1 1 0|tuple 0 1 0 1 1 1|tuple 0 1 1 0 0 0|tuple 0 1 1 0 0 1|tuple 0 1 1 0 1 0|tuple 0 1 1 0 1 1|tuple 0 1 1 1 0 0|tuple 0 1 1 1 0 1|tuple 0 1 1 1 1 0|tuple 0 1 1 1 1 1|tuple 1 0 0 0 0 0|tuple 1 0 0 0 0 1|tuple 1 0 0 0 1 0|tuple 1 0 0 0 1 1|tuple 1 0 0 1 0 0|tuple 1 0 0 1 0 1|tuple 1 0 0 1 1 0|end|",
        b"polyanna-report 1|class constant 0 0|class semilattice 0 0 0 1|class set-function 0 0 0|class majority none|class nu4 beyond|class affine none|class maltsev none|end|",
    ),
    (
        b"polyanna 1|domain 3|relation pp 3|tuple 0 0 0|tuple 0 2 2|tuple 2 0 2|tuple 2 2 0|relation one 1|tuple 1|instance a x|constraint one x|instance b x y|constraint one x|constraint pp x y y|end|",
        b"polyanna-report 1|class constant none|class semilattice none|class set-function 0 1 0 0 0 0 0|class majority none|class nu4 none|class affine none|class maltsev 0 1 2 0 0 0 2 0 0 1 0 0 0 1 2 0 0 1 2 0 0 0 2 0 0 1 2|instance a yes set-function 1|instance b no set-function 4|c 0 1 0 0 0|c 0 1 0 2 0|c 1 1 0 1 0|v 0 0 3 0 2 1|end|",
    ),
    (
        b"polyanna 1|domain 3|relation qq 3|tuple 0 0 0|tuple 0 0 1|tuple 0 1 0|tuple 0 1 1|tuple 1 0 0|tuple 1 0 1|tuple 1 1 0|relation nn 2|tuple 0 2|tuple 2 0|instance a x y|constraint qq x x x|constraint nn x y|instance b x|constraint qq x x x|constraint nn x x|end|",
        b"polyanna-report 1|class constant none|class semilattice none|class set-function none|class majority none|class nu4 0 0 0 0 0 0 0 0 0 0 0 0 0 1 0 0 0 0 0 0 0 0 0 0 0 0 2 0 0 0 0 1 0 0 0 0 0 1 0 1 1 1 0 1 0 0 0 0 0 1 0 0 0 2 0 0 2 0 0 0 2 0 2 0 0 0 0 1 0 0 0 2 2 0 2 0 0 2 2 2 2|class affine none|class maltsev none|instance a yes nu4 0 2|instance b no nu4 4|c 0 1 0 1 0|c 0 1 0 2 0|c 1 1 0 0 0|v 0 0 3 2 0 1|end|",
    ),
];

#[test]
fn reports_of_further_classes(rt: HostRuntime) -> Result<(), Fail> {
    let alloc = rt.alloc();
    for (input, report) in FURTHER_CLASSES {
        assert_written(&rt, alloc, lines(alloc, input)?.as_slice(), report)?;
    }
    Ok(())
}

/// The sizes are counted by hand, over the list of all assignments.
const MALTSEV_LANGUAGES: [(&[u8], &[u8]); 3] = [
    (
        b"polyanna 1|domain 3|relation parity 3|tuple 0 0 0|tuple 0 1 1|tuple 1 0 1|tuple 1 1 0|relation swap 2|tuple 0 1|tuple 1 0|tuple 2 2|relation two 1|tuple 2|instance q a b c|constraint parity a b c|constraint swap a b|constraint parity c c c|instance r e|constraint two e|end|",
        b"polyanna-report 1|class constant none|class semilattice none|class set-function none|class majority none|class nu4 none|class affine none|class maltsev 0 1 2 1 0 0 0 0 0 1 0 1 0 1 2 1 1 1 2 0 0 1 2 1 0 1 2|instance q no maltsev|sizes 27 10 7 0|instance r yes maltsev 2|sizes 9 1|end|",
    ),
    (
        b"polyanna 1|domain 3|relation parity 3|tuple 0 0 0|tuple 0 1 1|tuple 1 0 1|tuple 1 1 0|relation swap 2|tuple 0 1|tuple 1 0|tuple 2 2|relation two 1|tuple 2|relation never 1|relation low 6|tuple 0 0 0 0 0 0|tuple 1 1 1 1 1 1|relation flip 2|tuple 0 1|tuple 1 0|instance a x|constraint never x|instance b x y|constraint low x x x x x x|constraint swap x y|constraint two y|instance c x|constraint flip x x|constraint two x|instance d x y|constraint low x x x x x x|constraint two y|constraint parity x x x|end|",
        b"polyanna-report 1|class constant none|class semilattice none|class set-function none|class majority none|class nu4 none|class affine none|class maltsev 0 1 2 1 0 0 0 0 0 1 0 1 0 1 2 1 1 1 2 0 0 1 2 1 0 1 2|instance a no maltsev|sizes 9 0|instance b no maltsev|sizes 18 13 6 0|instance c no maltsev|sizes 9 0 0|instance d yes maltsev 0 2|sizes 18 13 5 2|end|",
    ),
    (
        b"polyanna 1|domain 4|relation sum 3|tuple 0 0 0|tuple 0 1 3|tuple 0 2 2|tuple 0 3 1|tuple 1 0 3|tuple 1 1 2|tuple 1 2 1|tuple 1 3 0|tuple 2 0 2|tuple 2 1 1|tuple 2 2 0|tuple 2 3 3|tuple 3 0 1|tuple 3 1 0|tuple 3 2 3|tuple 3 3 2|relation one 1|tuple 1|instance a x y z|constraint sum x y z|constraint one x|constraint one y|constraint one z|instance b x y z|constraint sum x y z|constraint one x|constraint one y|end|",
        b"polyanna-report 1|class constant none|class semilattice none|class set-function none|class majority none|class nu4 none|class affine none|class maltsev 0 1 2 3 3 0 1 2 2 3 0 1 1 2 3 0 1 2 3 0 0 1 2 3 3 0 1 2 2 3 0 1 2 3 0 1 1 2 3 0 0 1 2 3 3 0 1 2 3 0 1 2 2 3 0 1 1 2 3 0 0 1 2 3|instance a no maltsev|sizes 48 36 21 3 0|instance b yes maltsev 1 1 2|sizes 48 36 21 3|end|",
    ),
];

#[test]
fn reports_of_maltsev_languages(rt: HostRuntime) -> Result<(), Fail> {
    let alloc = rt.alloc();
    for (input, report) in MALTSEV_LANGUAGES {
        assert_written(&rt, alloc, lines(alloc, input)?.as_slice(), report)?;
    }
    Ok(())
}

const LIMITS: [(&[u8], &[u8]); 3] = [
    (
        b"polyanna 1|domain 1|relation r 2|tuple 0 0|relation e 1|instance a x y|instance b x y|constraint r y x|constraint r x x|instance c x|constraint r x x|constraint e x|end|",
        b"polyanna-report 1|class constant 0|class semilattice 0|class set-function 0|class majority 0|class nu4 0|class affine none|class maltsev 0|instance a yes constant 0 0|instance b yes constant 0 0|instance c no constant 1|c 1 0 0|end|",
    ),
    (
        b"polyanna 1|domain 2|relation s 6|tuple 0 1 1 1 1 0|tuple 0 1 1 1 1 1|tuple 1 1 1 1 1 0|relation c 6|tuple 0 0 0 0 0 0|tuple 1 1 1 1 1 1|instance a x|constraint c x x x x x x|instance b x|constraint c x x x x x x|constraint s x x x x x x|end|",
        b"polyanna-report 1|class constant none|class semilattice 0 0 0 1|class set-function 0 1 0|class majority 0 0 0 1 0 1 1 1|class nu4 0 0 0 0 0 0 0 1 0 0 0 1 0 1 1 1|class affine none|class maltsev none|instance a yes semilattice 0|instance b no semilattice 3|c 1 1 0 0 0|c 1 1 0 1 0|v 0 0 2 0 1|end|",
    ),
    (
        b"polyanna 1|domain 3|relation qq 3|tuple 0 0 0|tuple 0 0 1|tuple 0 1 0|tuple 0 1 1|tuple 1 0 0|tuple 1 0 1|tuple 1 1 0|relation nn 2|tuple 0 2|tuple 2 0|instance forty x0 x1 x2 x3 x4 x5 x6 x7 x8 x9 x10 x11 x12 x13 x14 x15 x16 x17 x18 x19 x20 x21 x22 x23 x24 x25 x26 x27 x28 x29 x30 x31 x32 x33 x34 x35 x36 x37 x38 x39|end|",
        b"polyanna-report 1|class constant none|class semilattice none|class set-function none|class majority none|class nu4 0 0 0 0 0 0 0 0 0 0 0 0 0 1 0 0 0 0 0 0 0 0 0 0 0 0 2 0 0 0 0 1 0 0 0 0 0 1 0 1 1 1 0 1 0 0 0 0 0 1 0 0 0 2 0 0 2 0 0 0 2 0 2 0 0 0 0 1 0 0 0 2 2 0 2 0 0 2 2 2 2|class affine none|class maltsev none|instance forty yes nu4 0 0 0 0 0 0 0 0 0 0 0 0 0 0 0 0 0 0 0 0 0 0 0 0 0 0 0 0 0 0 0 0 0 0 0 0 0 0 0 0|end|",
    ),
];

#[test]
fn answers_at_the_limits(rt: HostRuntime) -> Result<(), Fail> {
    let alloc = rt.alloc();
    for (input, report) in LIMITS {
        assert_written(&rt, alloc, lines(alloc, input)?.as_slice(), report)?;
    }
    Ok(())
}

#[test]
fn an_empty_relation_behind_255_constraints(rt: HostRuntime) -> Result<(), Fail> {
    let alloc = rt.alloc();
    let mut input = lines(
        alloc,
        b"polyanna 1|domain 2|relation neq 2|tuple 0 1|tuple 1 0|relation e 1|instance z x y|",
    )?;
    for _ in 0..255 {
        input.append(b"constraint neq x y\n")?;
    }
    input.append(b"constraint e x\nend\n")?;
    assert_written(
        &rt,
        alloc,
        input.as_slice(),
        b"polyanna-report 1|class constant none|class semilattice none|class set-function none|class majority 0 0 0 1 0 1 1 1|class nu4 0 0 0 0 0 0 0 1 0 1 1 1 1 1 1 1|class affine 0 1 1 0 1 0 0 1|class maltsev 0 1 0 0 1 1 0 1|instance z no majority 3|c 255 1 0 0 0|c 255 1 0 1 0|v 0 0 2 0 1|end|",
    )
}

/// The exchange leaves 9 triples at x and 3 at y of 18, however often it is asked for.
#[test]
fn sizes_of_the_same_constraint_256_times(rt: HostRuntime) -> Result<(), Fail> {
    let alloc = rt.alloc();
    let mut input = lines(
        alloc,
        b"polyanna 1|domain 3|relation parity 3|tuple 0 0 0|tuple 0 1 1|tuple 1 0 1|tuple 1 1 0|relation swap 2|tuple 0 1|tuple 1 0|tuple 2 2|relation two 1|tuple 2|instance s x y|",
    )?;
    let mut text = Values::from_slice(
        alloc,
        b"polyanna-report 1|class constant none|class semilattice none|class set-function none|class majority none|class nu4 none|class affine none|class maltsev 0 1 2 1 0 0 0 0 0 1 0 1 0 1 2 1 1 1 2 0 0 1 2 1 0 1 2|instance s yes maltsev 0 1|sizes 18",
    )?;
    for _ in 0..256 {
        input.append(b"constraint swap x y\n")?;
        text.append(b" 12")?;
    }
    input.append(b"end\n")?;
    text.append(b"|end|")?;
    assert_written(&rt, alloc, input.as_slice(), text.as_slice())
}
