use crate::harness::{run_on, words};
use pol_cli::{Ended, ending_without_words, run};
use pol_outside::{CalmSource, Failed, MemorySink, MemorySource, QuietSink};
use pol_text::{Refusal, Word};
use std::io::ErrorKind;
use std::test::Fail;

const FILE: &[u8] =
    b"polyanna 1\ndomain 2\nrelation neq 2\ntuple 0 1\ntuple 1 0\nrelation zero 1\ntuple 0\ninstance p x y\nconstraint zero x\nconstraint neq x y\nend\n";

/// Its report.
const REPORT: &[u8] =
    b"polyanna-report 1\nclass constant none\nclass semilattice none\nclass set-function none\nclass majority 0 0 0 1 0 1 1 1\nclass nu4 0 0 0 0 0 0 0 1 0 1 1 1 1 1 1 1\nclass affine 0 1 1 0 1 0 0 1\nclass maltsev 0 1 0 0 1 1 0 1\ninstance p yes majority 0 1\nend\n";

/// As many reads as the file has bytes, and the one that finds its end.
const READS: u32 = 136;

/// As many writes as the report has bytes.
const WRITES: u32 = 249;

const USAGE: &[u8] = b"usage: polyanna report | polyanna check | polyanna gen N\n";

const UNKNOWN_WORDS: [&[&str]; 17] = [
    &[],
    &[""],
    &["Report"],
    &["report "],
    &["report", "extra"],
    &["report", "report"],
    &["report extra"],
    &["Check"],
    &["check", "extra"],
    &["gen"],
    &["gen", "12x"],
    &["gen", "1234567890"],
    &["gen", ""],
    &["gen", "1", "2"],
    &["Gen", "1"],
    &["gen 1"],
    &["--help"],
];

#[test]
fn words_that_are_no_command(rt: HostRuntime) -> Result<(), Fail> {
    let alloc = rt.alloc();
    for line in UNKNOWN_WORDS {
        let done = run_on(alloc, line, FILE)?;
        assert_eq!(rt; done.text.as_slice(), USAGE, "at {line:?}");
        assert_eq!(rt; done.status, 2, "at {line:?}");
    }
    Ok(())
}

#[test]
fn words_that_are_no_command_read_nothing(rt: HostRuntime) -> Result<(), Fail> {
    let alloc = rt.alloc();
    let mut source = MemorySource::new(FILE, 1, &[0]);
    let mut sink = MemorySink::new(alloc, 100, 1, &[])?;
    assert_eq!(rt; run(alloc, &[], &mut source, &mut sink), Ended::Usage);
    assert_eq!(rt; sink.bytes(), USAGE);
    Ok(())
}

#[test]
fn faults_in_mid_stream(rt: HostRuntime) -> Result<(), Fail> {
    let alloc = rt.alloc();
    let words = words(alloc, &["report"])?;
    let mut source = MemorySource::new(FILE, 8, &[1]);
    let mut sink = MemorySink::new(alloc, 1024, 64, &[])?;
    assert_eq!(rt;
        run(alloc, &words, &mut source, &mut sink),
        Ended::ReadFault
    );
    assert_eq!(rt; sink.bytes(), b"".as_slice());
    let mut source = MemorySource::new(FILE, 8, &[]);
    let mut sink = MemorySink::new(alloc, 10, 64, &[])?;
    assert_eq!(rt;
        run(alloc, &words, &mut source, &mut sink),
        Ended::WriteFault
    );
    assert_eq!(rt; sink.bytes(), b"polyanna-r".as_slice());
    Ok(())
}

/// With one byte a read, none of which fails, the report follows, and with one that fails nothing.
#[test]
fn every_read_that_fails(rt: HostRuntime) -> Result<(), Fail> {
    let alloc = rt.alloc();
    let words = words(alloc, &["report"])?;
    for number in 0..=READS {
        let failing = [number];
        let mut source = MemorySource::new(FILE, 1, &failing);
        let mut sink = MemorySink::new(alloc, 1024, 64, &[])?;
        let (ended, text) = if number < READS {
            (Ended::ReadFault, b"".as_slice())
        } else {
            (Ended::Done, REPORT)
        };
        assert_eq!(rt;
            run(alloc, &words, &mut source, &mut sink),
            ended,
            "at {number}"
        );
        assert_eq!(rt; sink.bytes(), text, "at {number}");
    }
    Ok(())
}

/// With one byte a write, those before the one that fails are written, and none behind it.
#[test]
fn every_write_that_fails(rt: HostRuntime) -> Result<(), Fail> {
    let alloc = rt.alloc();
    let words = words(alloc, &["report"])?;
    assert_eq!(rt; REPORT.len(), WRITES as usize);
    for number in 0..=WRITES {
        let failing = [number];
        let mut source = CalmSource::new(FILE, 7);
        let mut sink = MemorySink::new(alloc, 1024, 1, &failing)?;
        let ended = if number < WRITES {
            Ended::WriteFault
        } else {
            Ended::Done
        };
        assert_eq!(rt;
            run(alloc, &words, &mut source, &mut sink),
            ended,
            "at {number}"
        );
        assert_eq!(rt;
            Some(sink.bytes()),
            REPORT.get(..number as usize),
            "at {number}"
        );
    }
    Ok(())
}

#[test]
fn runs_without_faults(rt: HostRuntime) -> Result<(), Fail> {
    let alloc = rt.alloc();
    let words = words(alloc, &["report"])?;
    let mut source = CalmSource::new(FILE, 7);
    let mut sink = QuietSink::new();
    assert_eq!(rt; run(alloc, &words, &mut source, &mut sink), Ended::Done);
    Ok(())
}

/// A line that is refused.
const NO_HEADER: Refusal = Refusal {
    line: 1,
    word: Word::NoHeader,
};

const STATUSES: [(Ended, u8, u8); 7] = [
    (Ended::Done, 0, 5),
    (Ended::Rejected, 1, 5),
    (Ended::Usage, 2, 5),
    (Ended::Refused(NO_HEADER), 3, 5),
    (Ended::ReadFault, 4, 4),
    (Ended::WriteFault, 5, 5),
    (Ended::NoMemory, 6, 6),
];

#[test]
fn statuses_behind_a_flush(rt: HostRuntime) {
    for (ended, flushed, failed) in STATUSES {
        assert_eq!(rt; ended.status_after(Ok(())), flushed);
        assert_eq!(rt; ended.status_after(Err(Failed)), failed);
    }
}

#[test]
fn words_that_could_not_be_had(rt: HostRuntime) -> Result<(), Fail> {
    let cases = [
        (ErrorKind::OutOfMemory, Some(Ended::NoMemory)),
        (ErrorKind::InvalidData, None),
    ];
    for (kind, ended) in cases {
        assert_eq!(rt; ending_without_words(kind), ended);
    }
    Ok(())
}
