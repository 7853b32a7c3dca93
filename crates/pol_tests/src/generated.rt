use crate::harness::{lines, run_on};
use pol_base::{NoMemory, Values};
use pol_classify::classify;
use pol_gen::make;
use pol_lang::put_file;
use pol_solve::{InstanceAnswer, answer};
use std::alloc::Global;
use std::test::Fail;

/// A number, which of the instances of its file have a solution, and its summary.
#[derive(Drop)]
struct Summarized {
    number: u64,
    token: &'static str,
    answers: &'static [u8],
    text: &'static [u8],
}

const SUMMARIES: [Summarized; 9] = [
    Summarized {
        number: 0,
        token: "0",
        answers: b"ynynynyy",
        text: b"gen 0|chosen semilattice|classes 2|yes 5|no 3|undecided 0|end|",
    },
    Summarized {
        number: 1,
        token: "1",
        answers: b"ynynynyy",
        text: b"gen 1|chosen majority|classes 2|yes 5|no 3|undecided 0|end|",
    },
    Summarized {
        number: 2,
        token: "2",
        answers: b"ynynynyy",
        text: b"gen 2|chosen affine|classes 2|yes 5|no 3|undecided 0|end|",
    },
    Summarized {
        number: 3,
        token: "3",
        answers: b"ynynynyy",
        text: b"gen 3|chosen maltsev|classes 1|yes 5|no 3|undecided 0|end|",
    },
    Summarized {
        number: 4,
        token: "000000004",
        answers: b"uuuuuuuu",
        text: b"gen 4|chosen none|classes 0|yes 0|no 0|undecided 8|end|",
    },
    Summarized {
        number: 150,
        token: "150",
        answers: b"ynynynnn",
        text: b"gen 150|chosen semilattice|classes 2|yes 3|no 5|undecided 0|end|",
    },
    Summarized {
        number: 151,
        token: "151",
        answers: b"ynynynyy",
        text: b"gen 151|chosen majority|classes 2|yes 5|no 3|undecided 0|end|",
    },
    Summarized {
        number: 152,
        token: "152",
        answers: b"ynynynyy",
        text: b"gen 152|chosen affine|classes 2|yes 5|no 3|undecided 0|end|",
    },
    Summarized {
        number: 153,
        token: "153",
        answers: b"ynynynnn",
        text: b"gen 153|chosen maltsev|classes 1|yes 3|no 5|undecided 0|end|",
    },
];

#[test]
fn summaries_of_numbers(rt: HostRuntime) -> Result<(), Fail> {
    let alloc = rt.alloc();
    for case in &SUMMARIES {
        let done = run_on(alloc, &["gen", case.token], b"no file")?;
        assert_eq!(rt; done.text.as_slice(), lines(alloc, case.text)?.as_slice());
        assert_eq!(rt; done.status, 0);
        assert_eq!(rt; answers(alloc, case.number)?.as_slice(), case.answers);
    }
    Ok(())
}

/// For each instance of the file that the number makes whether it has a solution, has none, or is
/// undecided.
fn answers(alloc: Global, number: u64) -> Result<Values, NoMemory> {
    let file = make(alloc, number)?;
    let classes = classify(alloc, file.lang())?;
    let mut answers = Values::new(alloc);
    for i in 0..file.instances() {
        let given = answer(alloc, file.lang(), file.instance(i), &classes)?;
        answers.push(match given {
            InstanceAnswer::Yes(_) | InstanceAnswer::YesSizes(_, _) => b'y',
            InstanceAnswer::NoLog(_) | InstanceAnswer::NoSum(_) | InstanceAnswer::NoSizes(_) =>
                b'n',
            InstanceAnswer::Undecided => b'u',
        })?;
    }
    Ok(answers)
}

#[test]
fn made_files_are_reported_and_checked(rt: HostRuntime) -> Result<(), Fail> {
    let alloc = rt.alloc();
    for number in [0u64, 1, 2, 3, 4, 150, 153] {
        let mut text = Values::new(alloc);
        put_file(&mut text, &make(alloc, number)?)?;
        let reported = run_on(alloc, &["report"], text.as_slice())?;
        assert_eq!(rt; reported.status, 0, "at {number}");
        text.append(reported.text.as_slice())?;
        let checked = run_on(alloc, &["check"], text.as_slice())?;
        assert_eq!(rt; checked.status, 0, "at {number}");
    }
    Ok(())
}
