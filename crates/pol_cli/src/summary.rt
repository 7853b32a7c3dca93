ghost use Rattle.std.specs.Prelude.{◌≡◌, ◌+◌, ◌<◌, ◌++◌, IfOk, OnOk};
ghost use Rattle.pol_optable.specs.ClassLines.{all_classes};
ghost use Rattle.pol_optable.specs.Choices.{AreLines, HasTable};
ghost use Rattle.pol_cli.specs.Summaries.{Counts, IsSummary, chosen_line, count_line, summary_text};
ghost use Rattle.pol_cli.specs.Tallies.{AddsAnswer, IsTallyByFirst, tallied};

use pol_base::{ClassName, NoMemory, Values};
use pol_classify::classify;
use pol_gen::make;
use pol_lang::File;
use pol_optable::{CLASSES, Classes};
use pol_report::put_last;
use pol_solve::{InstanceAnswer, answer};
use pol_text::{put_spaced, put_token};
use std::alloc::Global;

/// How many instances have a solution, how many have none, and how many are undecided.
#[derive(Clone, Copy, Debug, PartialEq, Eq)]
struct Tally {
    yes: u32,
    no: u32,
    undecided: u32,
}

/// The summary of the file that the number makes.
pub(crate) fn summary(alloc: Global, number: u32) -> Result<Values, NoMemory>
    ensures summary { IfOk result (IsSummary number) }
{
    let file = make(alloc, u64::from(number))?;
    let classes = classify(alloc, file.lang())?;
    let tally = tally_of(alloc, &file, &classes)?;
    let mut text = Values::new(alloc);
    put_summary(&mut text, number, classes.first(), tables(&classes), tally)?;
    Ok(text)
}

/// Of how many classes a table was found.
fn tables(classes: &Classes) -> u32
    ensures count { Counts (HasTable classes.now) all_classes result }
{
    let mut count = 0;
    for class in CLASSES {
        if classes.has_table(class) {
            count += 1;
        }
    }
    count
}

/// The tally of the instances of the file, each by its answer.
fn tally_of(alloc: Global, file: &File, classes: &Classes) -> Result<Tally, NoMemory>
    requires lines { AreLines file.now.language classes.now }
    ensures tally { IfOk result (IsTallyByFirst file.now.language classes.now file.now.instances) }
{
    let mut tally = Tally {
        yes: 0,
        no: 0,
        undecided: 0,
    };
    for i in 0..file.instances() {
        let given = answer(alloc, file.lang(), file.instance(i), classes)?;
        tally = with_answer(tally, &given);
    }
    Ok(tally)
}

/// The tally with an instance more, of which this is the answer.
fn with_answer(tally: Tally, given: &InstanceAnswer) -> Tally
    requires few { tallied tally < 4096 }
    ensures adds { AddsAnswer given.now tally result }
    ensures one_more { tallied result ≡ tallied tally + 1 }
{
    match given {
        InstanceAnswer::Yes(_) | InstanceAnswer::YesSizes(_, _) => Tally {
            yes: tally.yes + 1,
            ..tally
        },
        InstanceAnswer::NoLog(_) | InstanceAnswer::NoSum(_) | InstanceAnswer::NoSizes(_) => Tally {
            no: tally.no + 1,
            ..tally
        },
        InstanceAnswer::Undecided => Tally {
            undecided: tally.undecided + 1,
            ..tally
        },
    }
}

/// Appends the lines of the summary.
fn put_summary(
    out: &mut Values,
    number: u32,
    chosen: Option<ClassName>,
    classes: u32,
    tally: Tally,
) -> Result<(), NoMemory>
    ensures ok { OnOk result (out.new ≡ out.old ++ summary_text number chosen classes tally) }
{
    put_count(out, b"gen", number)?;
    put_chosen(out, chosen)?;
    put_count(out, b"classes", classes)?;
    put_count(out, b"yes", tally.yes)?;
    put_count(out, b"no", tally.no)?;
    put_count(out, b"undecided", tally.undecided)?;
    put_last(out)
}

/// Appends the line of the chosen class.
fn put_chosen(out: &mut Values, chosen: Option<ClassName>) -> Result<(), NoMemory>
    ensures ok { OnOk result (out.new ≡ out.old ++ chosen_line chosen) }
{
    let word = match &chosen {
        Some(class) => class.word(),
        None => b"none",
    };
    out.append(b"chosen")?;
    put_token(out, word)?;
    out.append(b"\n")
}

/// Appends the line of a word and a number.
fn put_count(out: &mut Values, word: &[u8], n: u32) -> Result<(), NoMemory>
    ensures ok { OnOk result (out.new ≡ out.old ++ count_line word.now n) }
{
    out.append(word)?;
    put_spaced(out, u64::from(n))?;
    out.append(b"\n")
}
