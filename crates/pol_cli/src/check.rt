ghost use Rattle.std.specs.Prelude.{◌≡◌, IfOk, [], if◌then◌else◌};
ghost use Rattle.pol_cli.specs.Checks.{IsChecked, AreJudged, AppendsVerdict, is_rejected};

use crate::Ended;
use pol_base::{NoMemory, Values};
use pol_checker::{Verdict, check_item, put_verdict};
use pol_lang::File;
use pol_report::{Item, Items, put_last};
use std::alloc::Global;

/// The verdicts on the items, a line for each and a last line, and how a run ends that writes them.
pub(crate) fn checked(
    alloc: Global,
    file: &File,
    items: &Items,
) -> Result<(Values, Ended), NoMemory>
    ensures checked { IfOk result (λ made. IsChecked file.now items.now made.0 made.1) }
{
    let mut text = Values::new(alloc);
    let rejected = put_verdicts(alloc, &mut text, file, items)?;
    put_last(&mut text)?;
    Ok((text, ending(rejected)))
}

/// How a run ends that writes verdicts of which one is rejected, or none.
fn ending(rejected: bool) -> Ended
    ensures ending { result ≡ (if rejected then Ended.Rejected else Ended.Done) }
{
    if rejected {
        Ended::Rejected
    } else {
        Ended::Done
    }
}

/// Appends the line of the verdict on each item, in their order. Whether one of them is rejected.
fn put_verdicts(
    alloc: Global,
    text: &mut Values,
    file: &File,
    items: &Items,
) -> Result<bool, NoMemory>
    requires begun { text.old ≡ [] }
    ensures judged { IfOk result (AreJudged file.now items.now text.new) }
{
    let mut rejected = false;
    for i in 0..items.len() {
        let one = put_verdict_of(alloc, text, file, items.get(i))?;
        rejected = rejected || one;
    }
    Ok(rejected)
}

/// Appends the line of the verdict on the item. Whether it is rejected.
fn put_verdict_of(
    alloc: Global,
    text: &mut Values,
    file: &File,
    item: &Item,
) -> Result<bool, NoMemory>
    ensures judged { IfOk result (AppendsVerdict file.now item.now text.old text.new) }
{
    let verdict = check_item(alloc, file, item)?;
    put_verdict(text, item, &verdict)?;
    Ok(is_rejected(&verdict))
}

fn is_rejected(verdict: &Verdict) -> bool
    ensures rejected { result ≡ is_rejected verdict.now }
{
    matches!(verdict, Verdict::Rejected(_))
}
