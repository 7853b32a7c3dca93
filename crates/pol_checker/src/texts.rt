ghost use Rattle.std.specs.Prelude.{◌≡◌, ◌++◌, [], ◌∷◌, codes, decimal};
ghost use Rattle.pol_base.specs.Names.{class_word};
ghost use Rattle.pol_text.specs.Texts.{Puts, spaced_texts};
ghost use Rattle.pol_checker.specs.VerdictTexts.{subject_word, subject_name, why_word, sum_fault_tokens, cause_tokens, verdict_tokens, verdict_line};

use crate::{Cause, Verdict};
use pol_base::{ClassName, NoMemory, Values};
use pol_modp::CombFault;
use pol_nogood::{LogFault, Why};
use pol_report::Item;
use pol_text::{put_spaced, put_token};

/// Appends the line `class CLASS VERDICT` or `instance NAME VERDICT`. Where memory runs out, a front of it
/// is appended.
pub fn put_verdict(out: &mut Values, item: &Item, verdict: &Verdict) -> Result<(), NoMemory>
    ensures puts { Puts result out.old out.new (verdict_line item.now verdict.now) }
{
    put_subject(out, item)?;
    put_words(out, verdict)?;
    out.append(b"\n")
}

/// Appends `class` and the class, or `instance` and the name.
fn put_subject(out: &mut Values, item: &Item) -> Result<(), NoMemory>
    ensures puts { Puts result out.old out.new
        (subject_word item.now ++ spaced_texts (subject_name item.now ∷ [])) }
{
    match item {
        Item::ClassTable { kind, .. } => put_class(out, *kind),
        Item::ClassNone { kind } => put_class(out, *kind),
        Item::ClassBeyond => put_class(out, ClassName::Nu4),
        Item::Yes { name, .. } => put_instance(out, name.as_slice()),
        Item::YesSizes { name, .. } => put_instance(out, name.as_slice()),
        Item::NoLog { name, .. } => put_instance(out, name.as_slice()),
        Item::NoSum { name, .. } => put_instance(out, name.as_slice()),
        Item::NoSizes { name, .. } => put_instance(out, name.as_slice()),
        Item::Undecided { name } => put_instance(out, name.as_slice()),
    }
}

fn put_class(out: &mut Values, class: ClassName) -> Result<(), NoMemory>
    ensures puts { Puts result out.old out.new (codes "class" ++ spaced_texts (class_word class ∷ [])) }
{
    out.append(b"class")?;
    put_token(out, class.word())
}

fn put_instance(out: &mut Values, name: &[u8]) -> Result<(), NoMemory>
    ensures puts { Puts result out.old out.new (codes "instance" ++ spaced_texts (name.now ∷ [])) }
{
    out.append(b"instance")?;
    put_token(out, name)
}

/// Appends the words of the verdict, each behind a space.
fn put_words(out: &mut Values, verdict: &Verdict) -> Result<(), NoMemory>
    ensures puts { Puts result out.old out.new (spaced_texts (verdict_tokens verdict.now)) }
{
    match verdict {
        Verdict::Accepted => put_token(out, b"accepted"),
        Verdict::Unchecked => put_token(out, b"unchecked"),
        Verdict::Rejected(cause) => put_rejected(out, cause),
    }
}

fn put_rejected(out: &mut Values, cause: &Cause) -> Result<(), NoMemory>
    ensures puts { Puts result out.old out.new (spaced_texts (codes "rejected" ∷ cause_tokens cause.now)) }
{
    put_token(out, b"rejected")?;
    put_cause(out, cause)
}

fn put_cause(out: &mut Values, cause: &Cause) -> Result<(), NoMemory>
    ensures puts { Puts result out.old out.new (spaced_texts (cause_tokens cause.now)) }
{
    match cause {
        Cause::Unknown => put_token(out, b"unknown"),
        Cause::Size => put_token(out, b"size"),
        Cause::Identity => put_token(out, b"identity"),
        Cause::Breaks { relation } => put_numbered(out, b"breaks", *relation),
        Cause::Assignment => put_token(out, b"assignment"),
        Cause::Constraint { c } => put_numbered(out, b"constraint", *c),
        Cause::BadLog(fault) => put_log_fault(out, *fault),
        Cause::BadSum(fault) => put_sum_fault(out, *fault),
    }
}

/// Appends a word and the number behind it.
fn put_numbered(out: &mut Values, word: &[u8], number: u32) -> Result<(), NoMemory>
    ensures puts { Puts result out.old out.new (spaced_texts (word.now ∷ decimal number ∷ [])) }
{
    put_token(out, word)?;
    put_spaced(out, u64::from(number))
}

/// Appends the step of the fault of a log, and why it is none.
fn put_log_fault(out: &mut Values, fault: LogFault) -> Result<(), NoMemory>
    ensures puts { Puts result out.old out.new
        (spaced_texts (codes "log" ∷ decimal fault.step ∷ why_word fault.why ∷ [])) }
{
    put_numbered(out, b"log", fault.step)?;
    put_token(out, word_of(fault.why))
}

fn word_of(why: Why) -> &'static [u8]
    ensures word { result.now ≡ why_word why }
{
    match why {
        Why::BadPlace => b"BadPlace",
        Why::BadReference => b"BadReference",
        Why::NotContained => b"NotContained",
        Why::WrongCount => b"WrongCount",
        Why::NoEmptyEnd => b"NoEmptyEnd",
    }
}

fn put_sum_fault(out: &mut Values, fault: CombFault) -> Result<(), NoMemory>
    ensures puts { Puts result out.old out.new (spaced_texts (codes "combination" ∷ sum_fault_tokens fault)) }
{
    put_token(out, b"combination")?;
    put_sum_words(out, fault)
}

/// Appends the fault of a combination, and the part or the variable that has it.
fn put_sum_words(out: &mut Values, fault: CombFault) -> Result<(), NoMemory>
    ensures puts { Puts result out.old out.new (spaced_texts (sum_fault_tokens fault)) }
{
    match fault {
        CombFault::BadLabels => put_token(out, b"BadLabels"),
        CombFault::BadPlace { part } => put_numbered(out, b"BadPlace", part),
        CombFault::NotImplied { part } => put_numbered(out, b"NotImplied", part),
        CombFault::Remainder { variable } => put_numbered(out, b"Remainder", variable),
        CombFault::ZeroRight => put_token(out, b"ZeroRight"),
    }
}
