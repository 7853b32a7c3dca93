ghost use Rattle.std.specs.Prelude.{◌≡◌, ◌≤◌, ◌+◌, ◌⊎◌, length, IfOk, OnOk, IsErrOf};
ghost use Rattle.std.specs.Io.KnownBytes.{IsAtEnd};
ghost use Rattle.pol_outside.specs.Contents.{Takes, TakesAtMost};
ghost use Rattle.pol_outside.specs.Faults.{Rose};
ghost use Rattle.pol_text.specs.Refusals.{refusal_line};
ghost use Rattle.pol_lang.specs.Limits.{most_bytes};
ghost use Rattle.pol_lang.specs.Reading.{parsed_of};
ghost use Rattle.pol_cli.specs.Due.{AreKnown, AskInput, Begin, input_words, report_words, check_words};
ghost use Rattle.pol_cli.specs.Runs.{texts_of, IsAnswer, WritesDue, WritesFront, HasRead, Writes, Reports};
ghost use Rattle.pol_cli.specs.Checks.{IsChecked};
ghost use Rattle.pol_cli.specs.Outputs.{IsOutput, IsOutputFor, IsTextOf, OutputNotTooLong, OutputHasRead, Delivers};

use crate::Ended;
use crate::check::checked;
use crate::report::{Cut, send_report};
use crate::summary::summary;
use crate::words::{InputTask, Task, asked};
use pol_base::{NoMemory, Values};
use pol_lang::{File, Rest, nothing_more, read_file};
use pol_outside::{Sink, Source, TakeFault, WriteFault, read_all, write_all};
use pol_report::{Items, read_items};
use pol_text::{ReadFail, Refusal, Word, put_refusal};
use std::alloc::Global;

/// The most bytes of an input that is accepted.
const MOST_BYTES: u64 = 1 << 28;

const USAGE: &[u8] = b"usage: polyanna report | polyanna check | polyanna gen N\n";

/// Does what the words of the command line ask for. The words are those behind the program's name,
/// and known where they are `report` alone, `check` alone, or `gen` and a token of 1 to 9 decimal
/// digits: the first asks for the report of the file that is the input, the second for the verdicts
/// on the items of the report that stands behind the file, and the last for the summary of the file
/// that the number makes.
///
/// An input is read to its end, or one byte beyond what is accepted, before anything is written. Where the
/// words are not known the usage line is written and nothing is read.
///
/// `ReadFault` and `WriteFault` come only where the count of faults of the source or of the sink rose in this
/// call, or stands at 2^64 - 1, and `NoMemory` only under known words. What stands written then is a front of
/// what was due.
#[tactic(auto, using(crate::proofs::WordLemmas::words_ask, crate::proofs::WordLemmas::input_alone))]
pub fn run<S: Source, O: Sink>(
    alloc: Global,
    words: &[String],
    source: &mut S,
    sink: &mut O,
) -> Ended
    // The answer and the appended text are due.
    ensures due { IsAnswer result
        → WritesDue (texts_of words.now) (S.left source.old) (O.written sink.old) (O.written sink.new) result }

    // What is left of the input.
    ensures read { AskInput (texts_of words.now) → HasRead result (S.left source.old) (S.left source.new) }
    ensures unread { ¬ AskInput (texts_of words.now) → source.new ≡ source.old }

    // What cuts a run off, and what stands written then.
    ensures read_fault { result ≡ Ended.ReadFault → Rose (S.faults source.old) (S.faults source.new) }
    ensures read_fault_asked { result ≡ Ended.ReadFault → AskInput (texts_of words.now) × (sink.new ≡ sink.old) }
    ensures write_fault { result ≡ Ended.WriteFault → Rose (O.faults sink.old) (O.faults sink.new) }
    ensures write_fault_front { result ≡ Ended.WriteFault
        → WritesFront (texts_of words.now) (S.left source.old) (O.written sink.old) (O.written sink.new) }
    ensures no_memory { result ≡ Ended.NoMemory → AreKnown (texts_of words.now) }
    ensures no_memory_front { result ≡ Ended.NoMemory
        → WritesFront (texts_of words.now) (S.left source.old) (O.written sink.old) (O.written sink.new) }
    ensures no_memory_early { result ≡ Ended.NoMemory → AskInput (texts_of words.now)
        → IsAtEnd (S.left source.new) ⊎ (sink.new ≡ sink.old) }

    // A fault is told.
    ensures read_calm { ¬ (result ≡ Ended.ReadFault) → S.faults source.new ≡ S.faults source.old }
    ensures write_calm { ¬ (result ≡ Ended.WriteFault) → O.faults sink.new ≡ O.faults sink.old }

    // Where no count rose, the answer is due, or memory ran out.
    ensures complete { ¬ Rose (S.faults source.old) (S.faults source.new)
        → ¬ Rose (O.faults sink.old) (O.faults sink.new)
        → IsAnswer result ⊎ (result ≡ Ended.NoMemory) }
{
    match asked(words) {
        Some(Task::Input(task)) => match prepare(alloc, task, source) {
            Ok(output) => deliver(alloc, sink, output),
            Err(Stop::ReadFault) => Ended::ReadFault,
            Err(Stop::NoMemory) => Ended::NoMemory,
        },
        Some(Task::Gen(number)) => match summary(alloc, number) {
            Ok(text) => write(sink, text.as_slice(), Ended::Done),
            Err(NoMemory) => Ended::NoMemory,
        },
        None => write(sink, USAGE, Ended::Usage),
    }
}

/// Writes the text, and ends so where it was written.
fn write<O: Sink>(sink: &mut O, text: &[u8], ended: Ended) -> Ended
    ensures writes { Writes ended result text.now
        (O.written sink.old) (O.written sink.new) (O.faults sink.old) (O.faults sink.new) }
{
    match write_all(sink, text) {
        Ok(()) => ended,
        Err(WriteFault) => Ended::WriteFault,
    }
}

/// What is written for an input.
#[derive(Drop)]
enum Output {
    /// A text that was made, and how a run ends that writes it.
    Text { text: Values, ended: Ended },
    /// The report of the file, which is made while it is written.
    Report { file: File },
}

/// Writes the output.
fn deliver<O: Sink>(alloc: Global, sink: &mut O, output: Output) -> Ended
    ensures delivers { Delivers output result
        (O.written sink.old) (O.written sink.new) (O.faults sink.old) (O.faults sink.new) }
{
    match output {
        Output::Text { text, ended } => write(sink, text.as_slice(), ended),
        Output::Report { file } => report(alloc, sink, &file),
    }
}

/// Writes the report of the file.
fn report<O: Sink>(alloc: Global, sink: &mut O, file: &File) -> Ended
    ensures reports { Reports file.now result
        (O.written sink.old) (O.written sink.new) (O.faults sink.old) (O.faults sink.new) }
{
    match send_report(alloc, sink, file) {
        Ok(()) => Ended::Done,
        Err(Cut::WriteFault) => Ended::WriteFault,
        Err(Cut::NoMemory) => Ended::NoMemory,
    }
}

/// Why there is nothing to write.
#[derive(Clone, Copy, Debug, PartialEq, Eq)]
enum Stop {
    ReadFault,
    NoMemory,
}

impl From<NoMemory> for Stop {
    ghost use Rattle.std.specs.Prelude.{◌≡◌};
    ghost use Rattle.pol_cli.specs.declared.top.Stop.TheVariants.{NoMemory as OutOfMemory};

    ghost from_gives = { λ _ stop. stop ≡ OutOfMemory };

    fn from(_error: NoMemory) -> Stop {
        Stop::NoMemory
    }
}

/// Reads the input to its end, and answers what is to be written for it.
fn prepare<S: Source>(alloc: Global, task: InputTask, source: &mut S) -> Result<Output, Stop>
    ensures due { IfOk result (IsOutputFor (input_words task) (S.left source.old)) }
    ensures read { IfOk result (λ output. OutputHasRead output (S.left source.old) (S.left source.new)) }
    ensures taken { OnOk result (IsAtEnd (S.left source.new)
        ⊎ Takes (S.left source.old) (S.left source.new) (most_bytes + 1)) }
    ensures taken_most { OnOk result (TakesAtMost (S.left source.old) (S.left source.new) (most_bytes + 1)) }
    ensures read_fault { IsErrOf result Stop.ReadFault → Rose (S.faults source.old) (S.faults source.new) }
    ensures read_fault_taken { IsErrOf result Stop.ReadFault
        → TakesAtMost (S.left source.old) (S.left source.new) most_bytes }
    ensures no_memory { IsErrOf result Stop.NoMemory
        → TakesAtMost (S.left source.old) (S.left source.new) (most_bytes + 1) }
    ensures calm { ¬ IsErrOf result Stop.ReadFault → S.faults source.new ≡ S.faults source.old }
{
    match read_all(alloc, source, MOST_BYTES) {
        Ok(bytes) => Ok(made(alloc, task, bytes.as_slice())?),
        Err(TakeFault::TooLong) => Ok(refused(
            alloc,
            Refusal {
                line: 0,
                word: Word::TooLong,
            },
        )?),
        Err(TakeFault::ReadFault) => Err(Stop::ReadFault),
        Err(TakeFault::NoMemory) => Err(Stop::NoMemory),
    }
}

/// What the task writes for the input.
fn made(alloc: Global, task: InputTask, bytes: &[u8]) -> Result<Output, NoMemory>
    requires few { length bytes.now ≤ most_bytes }
    ensures due { IfOk result (IsOutput (input_words task) bytes.now) }
    ensures word { IfOk result OutputNotTooLong }
{
    let (file, rest) = match read_file(alloc, bytes) {
        Ok(read) => read,
        Err(ReadFail::Refused(refusal)) => return refused(alloc, refusal),
        Err(ReadFail::NoMemory) => return Err(NoMemory),
    };
    match task {
        InputTask::Report => alone(alloc, bytes, file, rest),
        InputTask::Check => check(alloc, bytes, &file, rest),
    }
}

/// The report of the file, where no significant line stands behind it.
fn alone(alloc: Global, bytes: &[u8], file: File, rest: Rest) -> Result<Output, NoMemory>
    requires begins { Begin bytes.now (parsed_of (file, rest)) }
    requires place { rest.place ≤ length bytes.now }
    requires line { rest.line ≤ most_bytes + 1 }
    ensures due { IfOk result (IsOutput report_words bytes.now) }
    ensures word { IfOk result OutputNotTooLong }
{
    match nothing_more(bytes, rest) {
        Ok(()) => Ok(Output::Report { file }),
        Err(refusal) => refused(alloc, refusal),
    }
}

/// The verdicts on the items of the report that stands behind the file.
fn check(alloc: Global, bytes: &[u8], file: &File, rest: Rest) -> Result<Output, NoMemory>
    requires begins { Begin bytes.now (parsed_of (file.now, rest)) }
    requires place { rest.place ≤ length bytes.now }
    requires line { rest.line ≤ most_bytes + 1 }
    ensures due { IfOk result (IsOutput check_words bytes.now) }
    ensures word { IfOk result OutputNotTooLong }
{
    match read_items(alloc, &bytes[rest.place..], rest.line) {
        Ok(items) => verdicts(alloc, file, &items),
        Err(ReadFail::Refused(refusal)) => refused(alloc, refusal),
        Err(ReadFail::NoMemory) => Err(NoMemory),
    }
}

/// The verdicts on the items.
fn verdicts(alloc: Global, file: &File, items: &Items) -> Result<Output, NoMemory>
    ensures made { IfOk result (IsTextOf (IsChecked file.now items.now)) }
{
    let (text, ended) = checked(alloc, file, items)?;
    Ok(Output::Text { text, ended })
}

/// The line of the refusal.
fn refused(alloc: Global, refusal: Refusal) -> Result<Output, NoMemory>
    ensures refused { IfOk result (λ output. output ≡ Output.Text (refusal_line refusal) (Ended.Refused refusal)) }
{
    let mut text = Values::new(alloc);
    put_refusal(&mut text, refusal)?;
    Ok(Output::Text {
        text,
        ended: Ended::Refused(refusal),
    })
}
