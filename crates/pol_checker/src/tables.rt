ghost use Rattle.std.specs.Prelude.{◌≡◌, ◌≤◌, ◌↔◌, length, IsTrue, IfOk, IfSome, IfNone};
ghost use Rattle.pol_optable.specs.Operations.{IsPolymorphism};
ghost use Rattle.pol_optable.specs.SetFunctions.{IsSetPolymorphism};
ghost use Rattle.pol_optable.specs.Identities.{IsAffine};
ghost use Rattle.pol_checker.specs.Verdicts.{IsFirstWithout, Keeps, KeepsSets, IsOperationVerdict, IsSetVerdict, IsTableVerdict};

use crate::{Cause, Verdict};
use pol_base::{ClassName, NoMemory};
use pol_identity::{Constant, Identity, Maltsev, NearUnanimity, Semilattice, affine_labels};
use pol_optable::{OpTable, SetFn};
use pol_relation::Language;
use std::alloc::Global;

/// The verdict on the cells of a table of the class.
pub(crate) fn check_table(
    alloc: Global,
    lang: &Language,
    class: ClassName,
    cells: &[u8],
) -> Result<Verdict, NoMemory>
    ensures verdict { IfOk result (IsTableVerdict class lang.now cells.now) }
{
    match class {
        ClassName::Constant => check_operation::<1, Constant>(alloc, lang, &Constant, cells),
        ClassName::Semilattice => {
            check_operation::<2, Semilattice>(alloc, lang, &Semilattice, cells)
        }
        ClassName::SetFunction => check_set_function(alloc, lang, cells),
        ClassName::Majority => {
            check_operation::<3, NearUnanimity>(alloc, lang, &NearUnanimity, cells)
        }
        ClassName::Nu4 => check_operation::<4, NearUnanimity>(alloc, lang, &NearUnanimity, cells),
        ClassName::Affine => check_affine(alloc, lang, cells),
        ClassName::Maltsev => check_operation::<3, Maltsev>(alloc, lang, &Maltsev, cells),
    }
}

/// The verdict on the cells of an operation of `K` arguments with the identity.
fn check_operation<const K: usize, I: Identity<K>>(
    alloc: Global,
    lang: &Language,
    identity: &I,
    cells: &[u8],
) -> Result<Verdict, NoMemory>
    requires suited { I.suits identity.now lang.now.domain }
    requires some_arguments { 1 ≤ K }
    requires few_arguments { K ≤ 4 }
    ensures verdict { IfOk result (IsOperationVerdict (I.satisfies identity.now) K lang.now cells.now) }
{
    let Some(table) = OpTable::<K>::from_cells(alloc, lang.domain(), cells)? else {
        return Ok(Verdict::Rejected(Cause::Size));
    };
    if !identity.holds(&table) {
        return Ok(Verdict::Rejected(Cause::Identity));
    }
    match first_broken(lang, &table) {
        None => Ok(Verdict::Accepted),
        Some(relation) => Ok(Verdict::Rejected(Cause::Breaks { relation })),
    }
}

/// The verdict on the cells of an affine operation.
fn check_affine(alloc: Global, lang: &Language, cells: &[u8]) -> Result<Verdict, NoMemory>
    ensures verdict { IfOk result (IsOperationVerdict IsAffine 3 lang.now cells.now) }
{
    let Some(table) = OpTable::<3>::from_cells(alloc, lang.domain(), cells)? else {
        return Ok(Verdict::Rejected(Cause::Size));
    };
    if !is_affine(&table) {
        return Ok(Verdict::Rejected(Cause::Identity));
    }
    match first_broken(lang, &table) {
        None => Ok(Verdict::Accepted),
        Some(relation) => Ok(Verdict::Rejected(Cause::Breaks { relation })),
    }
}

/// Whether some labelling turns the operation into x - y + z.
fn is_affine(table: &OpTable<3>) -> bool
    ensures affine { IsTrue result ↔ IsAffine table.now }
{
    affine_labels(table).is_some()
}

/// The verdict on the cells of a set function.
fn check_set_function(alloc: Global, lang: &Language, cells: &[u8]) -> Result<Verdict, NoMemory>
    ensures verdict { IfOk result (IsSetVerdict lang.now cells.now) }
{
    let Some(table) = SetFn::from_cells(alloc, lang.domain(), cells)? else {
        return Ok(Verdict::Rejected(Cause::Size));
    };
    match first_broken_sets(lang, &table) {
        None => Ok(Verdict::Accepted),
        Some(relation) => Ok(Verdict::Rejected(Cause::Breaks { relation })),
    }
}

/// The first relation that the operation does not preserve.
fn first_broken<const K: usize>(lang: &Language, table: &OpTable<K>) -> Option<u32>
    requires domain { table.now.domain ≡ lang.now.domain }
    ensures first { IfSome result (IsFirstWithout (Keeps lang.now table.now) (length lang.now.relations)) }
    ensures none { IfNone result (IsPolymorphism table.now lang.now) }
{
    for i in 0..lang.len() {
        if !table.preserves(lang.relation(i)) {
            return Some(i);
        }
    }
    None
}

/// The first relation that the set function does not preserve.
fn first_broken_sets(lang: &Language, table: &SetFn) -> Option<u32>
    requires domain { table.now.domain ≡ lang.now.domain }
    ensures first { IfSome result (IsFirstWithout (KeepsSets lang.now table.now) (length lang.now.relations)) }
    ensures none { IfNone result (IsSetPolymorphism table.now lang.now) }
{
    for i in 0..lang.len() {
        if !table.preserves(lang.relation(i)) {
            return Some(i);
        }
    }
    None
}
