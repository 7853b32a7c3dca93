ghost use Rattle.std.specs.Prelude.{IfOk};
ghost use Rattle.pol_checker.specs.Verdicts.{IsVerdict};

use crate::Verdict;
use crate::answers::{check_combination_of, check_log_of, check_named, check_values_of};
use crate::tables::check_table;
use pol_base::NoMemory;
use pol_lang::File;
use pol_report::Item;
use std::alloc::Global;

/// The verdict on the item: whether what it holds is what it says of the file. Rejected for the first cause
/// that applies, in the order of `Cause`; where none does, unchecked if it holds nothing that could be checked,
/// and else accepted. No table and no solution is sought.
pub fn check_item(alloc: Global, file: &File, item: &Item) -> Result<Verdict, NoMemory>
    ensures verdict { IfOk result (IsVerdict file.now item.now) }
{
    match item {
        Item::ClassTable { kind, cells } => {
            check_table(alloc, file.lang(), *kind, cells.as_slice())
        }
        Item::ClassNone { .. } | Item::ClassBeyond => Ok(Verdict::Unchecked),
        Item::Yes { name, values, .. } => {
            Ok(check_values_of(file, name.as_slice(), values.as_slice()))
        }
        Item::YesSizes { name, values, .. } => {
            Ok(check_values_of(file, name.as_slice(), values.as_slice()))
        }
        Item::NoLog { name, log, .. } => Ok(check_log_of(file, name.as_slice(), log)),
        Item::NoSum { name, combination } => {
            Ok(check_combination_of(file, name.as_slice(), combination))
        }
        Item::NoSizes { name, .. } => Ok(check_named(file, name.as_slice())),
        Item::Undecided { name } => Ok(check_named(file, name.as_slice())),
    }
}
