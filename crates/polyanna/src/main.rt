//! The program: hands the words of the command line and the two standard streams to the top call.
#![tactic(auto)]

use pol_cli::{ending_without_words, run};
use pol_outside::{ReaderSource, WriterSink};
use std::process::ExitCode;
use std::{env, io};

fn main(rt: HostRuntime) -> ExitCode {
    let words = match words(&rt) {
        Ok(words) => words,
        Err(error) => match ending_without_words(error.kind()) {
            Some(ended) => return ExitCode::from(ended.status()),
            None => Vec::new(rt.alloc()),
        },
    };
    let mut source = ReaderSource::new(rt.stdin());
    let mut sink = WriterSink::new(rt.stdout());
    let ended = run(rt.alloc(), &words, &mut source, &mut sink);
    ExitCode::from(ended.status_after(sink.finish()))
}

/// The words behind the program's name.
fn words(rt: &HostRuntime) -> io::Result<Vec<String>> {
    let mut words = Vec::new(rt.alloc());
    for word in env::args(rt)?.skip(1) {
        words.push(word)?;
    }
    Ok(words)
}
