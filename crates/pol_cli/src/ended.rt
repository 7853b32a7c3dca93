ghost use Rattle.std.specs.Prelude.{◌≡◌};
ghost use Rattle.pol_cli.specs.Runs.{status_of, status_after, ending_without_words};

use pol_outside::Failed;
use pol_text::Refusal;
use std::io::ErrorKind;

/// How a run ends.
#[derive(Clone, Copy, Debug, PartialEq, Eq)]
pub enum Ended {
    /// The report, the verdicts of which none is rejected, or the summary was written.
    Done,
    /// The verdicts were written, and one is rejected.
    Rejected,
    /// The words are not known; the usage line was written.
    Usage,
    /// The text is refused; the line that says so was written.
    Refused(Refusal),
    /// The input could not be read; nothing was written.
    ReadFault,
    /// The output could not be written; the beginning of what was due may stand there.
    WriteFault,
    /// Memory ran out; the beginning of what was due may stand there.
    NoMemory,
}

impl Ended {
    /// The exit status: 0 to 6, in the order in which the endings are declared.
    pub fn status(self) -> u8
        ensures status { result ≡ status_of self }
    {
        match self {
            Ended::Done => 0,
            Ended::Rejected => 1,
            Ended::Usage => 2,
            Ended::Refused(_) => 3,
            Ended::ReadFault => 4,
            Ended::WriteFault => 5,
            Ended::NoMemory => 6,
        }
    }

    /// The exit status of a run behind which the output was flushed with this result. A text that was not
    /// flushed was not written, so the status is then that of a `WriteFault`.
    pub fn status_after(self, flushed: Result<(), Failed>) -> u8
        ensures status { result ≡ status_after self flushed }
    {
        match (flushed, self) {
            (Err(_), Ended::Done | Ended::Rejected | Ended::Usage | Ended::Refused(_)) => {
                Ended::WriteFault.status()
            }
            _ => self.status(),
        }
    }
}

/// How the program ends, without a run, where the words of the command line could not be had for such an
/// error: for want of memory. Words that are no text are no reason to end: they count as no words.
pub fn ending_without_words(kind: ErrorKind) -> Option<Ended>
    ensures ending { result ≡ ending_without_words kind }
{
    match kind {
        ErrorKind::OutOfMemory => Some(Ended::NoMemory),
        _ => None,
    }
}
