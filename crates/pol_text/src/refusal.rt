ghost use Rattle.std.specs.Prelude.{◌≡◌, ◌++◌, OnOk, OnErr};
ghost use Rattle.pol_text.specs.Refusals.{refusal_line};
ghost use Rattle.pol_text.specs.Texts.{Puts};

use crate::{Word, put_number};
use pol_base::{NoMemory, Values};

/// Where and why a text is refused. Lines count from 1; line 0 stands for the whole text.
#[derive(Clone, Copy, Debug, PartialEq, Eq)]
pub struct Refusal {
    pub line: u32,
    pub word: Word,
}

/// Why a text was not read.
#[derive(Clone, Copy, Debug, PartialEq, Eq)]
pub enum ReadFail {
    /// The first refusal of the text.
    Refused(Refusal),
    NoMemory,
}

impl From<NoMemory> for ReadFail {
    ghost use Rattle.pol_text.specs.declared.refusal.ReadFail.TheVariants.{NoMemory as OutOfMemory};

    ghost from_gives = { λ _ e. e ≡ OutOfMemory };

    fn from(_error: NoMemory) -> ReadFail {
        ReadFail::NoMemory
    }
}

/// Why a line was not read.
#[derive(Clone, Copy, Debug, PartialEq, Eq)]
pub enum LineFail {
    /// The first word for which the line is refused.
    Refused(Word),
    NoMemory,
}

impl From<Word> for LineFail {
    ghost use Rattle.pol_text.specs.declared.refusal.LineFail.TheVariants.{Refused};

    ghost from_gives = { λ word fail. fail ≡ Refused word };

    fn from(word: Word) -> LineFail {
        LineFail::Refused(word)
    }
}

impl From<NoMemory> for LineFail {
    ghost use Rattle.pol_text.specs.declared.refusal.LineFail.TheVariants.{NoMemory as OutOfMemory};

    ghost from_gives = { λ _ fail. fail ≡ OutOfMemory };

    fn from(_error: NoMemory) -> LineFail {
        LineFail::NoMemory
    }
}

/// Appends `refused LINE WORD` and LF. Where memory runs out, a front of them is appended.
pub fn put_refusal(out: &mut Values, refusal: Refusal) -> Result<(), NoMemory>
    ensures puts { Puts result out.old out.new (refusal_line refusal) }
{
    out.append(b"refused ")?;
    put_number(out, u64::from(refusal.line))?;
    out.append(b" ")?;
    out.append(refusal.word.text())?;
    out.append(b"\n")
}
