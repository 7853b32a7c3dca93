//! One run over memory.
use pol_base::{NoMemory, Values};
use pol_cli::run;
use pol_outside::{MemorySink, MemorySource};
use std::alloc::Global;
use std::process::Abort;
use std::test::Fail;

/// What was written, and the status.
#[derive(Debug, Drop)]
pub(crate) struct Outcome {
    pub(crate) text: Values,
    pub(crate) status: u8,
}

/// The words of a command line.
pub(crate) fn words(alloc: Global, words: &[&str]) -> Result<Vec<String>, NoMemory> {
    let mut owned = Vec::new(alloc);
    for word in words {
        owned.push(String::from_str(alloc, word)?)?;
    }
    Ok(owned)
}

/// Runs with these words of the command line.
pub(crate) fn run_on(alloc: Global, line: &[&str], input: &[u8]) -> Result<Outcome, NoMemory> {
    let words = words(alloc, line)?;
    let mut source = MemorySource::new(input, 64, &[]);
    let mut sink = MemorySink::new(alloc, 65_536, 64, &[])?;
    let ended = run(alloc, &words, &mut source, &mut sink);
    Ok(Outcome {
        text: Values::from_slice(alloc, sink.bytes())?,
        status: ended.status(),
    })
}

/// The text with an LF for each bar, so that a text of several lines stands on one.
pub(crate) fn lines(alloc: Global, text: &[u8]) -> Result<Values, NoMemory> {
    let mut bytes = Values::new(alloc);
    for byte in text {
        bytes.push(if *byte == b'|' { b'\n' } else { *byte })?;
    }
    Ok(bytes)
}

/// For the input `report` writes the text, given with bars for its LF, and ends with the status of a
/// refusal or of a report.
pub(crate) fn assert_written(
    rt: &impl Abort,
    alloc: Global,
    input: &[u8],
    text: &[u8],
) -> Result<(), Fail> {
    let done = run_on(alloc, &["report"], input)?;
    assert_eq!(rt;
        done.text.as_slice(),
        lines(alloc, text)?.as_slice(),
        "at {input:?}"
    );
    let status = if text.starts_with(b"refused ") { 3 } else { 0 };
    assert_eq!(rt; done.status, status, "at {input:?}");
    Ok(())
}
