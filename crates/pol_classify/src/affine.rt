ghost use Rattle.std.specs.Prelude.{◌≡◌, ℕ, ◌+◌, ◌<◌, ◌^◌, ◌↔◌, length, take, option_map, IsTrue, IfOk, IfSome, IfNone};
ghost use Rattle.pol_base.specs.Tuples.{IsBefore, digits_of};
ghost use Rattle.pol_base.specs.Least.{AnswersLeast};
ghost use Rattle.pol_optable.specs.Operations.{IsPolymorphism};
ghost use Rattle.pol_optable.specs.Identities.{IsAffine};
ghost use Rattle.pol_optable.specs.ClassLines.{IsTable};
ghost use Rattle.pol_classify.specs.AffineTables.{IsTableBy, IsTableBelow, IsAhead};
ghost use Rattle.pol_identity.specs.Labels.{IsChoice};

use pol_base::{Domain, NoMemory};
use pol_identity::{Affine, label_list, label_lists};
use pol_optable::OpTable;
use pol_relation::Language;
use std::alloc::Global;

/// Whether the first of two lists of one length comes before the other.
fn comes_before(xs: &[u8], ys: &[u8]) -> bool
    requires long { length xs.now ≡ length ys.now }
    ensures before { IsTrue result ↔ IsBefore xs.now ys.now }
{
    xs.cmp(ys).is_lt()
}

/// The table of the labels with the number. None where they are no labelling.
fn table_of(alloc: Global, d: Domain, number: u32) -> Result<Option<OpTable<3>>, NoMemory>
    requires known { number < d ^ d }
    ensures made { IfOk result (λ made. IfSome made (IsTableBy d (digits_of d d number))) }
    ensures none { IfOk result (λ made. IfNone made (¬ IsChoice d (digits_of d d number))) }
{
    let labels = label_list(d, number);
    let Some(affine) = Affine::new(d, labels) else {
        return Ok(None);
    };
    Ok(Some(affine.table(alloc)?))
}

/// Whether the operation preserves each relation.
fn preserves_all(table: &OpTable<3>, lang: &Language) -> bool
    requires domain { table.now.domain ≡ lang.now.domain }
    ensures preserves { IsTrue result ↔ IsPolymorphism table.now lang.now }
{
    for i in 0..lang.len() {
        if !table.preserves(lang.relation(i)) {
            return false;
        }
    }
    true
}

/// Whether the table comes before the best one so far, in order of cells.
fn is_ahead(table: &OpTable<3>, best: &Option<OpTable<3>>) -> bool
    requires domain { IfSome best.now (λ other. other.domain ≡ table.now.domain) }
    ensures ahead { IsTrue result ↔ IsAhead table.now.cells (option_map (λ other. other.cells) best.now) }
{
    match best {
        Some(other) => comes_before(table.cells(), other.cells()),
        None => true,
    }
}

/// The lesser of the best table so far and the one of the labels with the number, if it preserves
/// every relation.
fn better(
    alloc: Global,
    lang: &Language,
    number: u32,
    best: Option<OpTable<3>>,
) -> Result<Option<OpTable<3>>, NoMemory>
    requires known { number < lang.now.domain ^ lang.now.domain }
    requires least { AnswersLeast (IsTableBelow lang.now number) (option_map (λ t. t.cells) best) }
    requires domain { IfSome best (λ t. t.domain ≡ lang.now.domain) }
    ensures least { IfOk result (λ answer.
        AnswersLeast (IsTableBelow lang.now (number + 1)) (option_map (λ t. t.cells) answer)) }
    ensures domain { IfOk result (λ answer. IfSome answer (λ t. t.domain ≡ lang.now.domain)) }
{
    let table = match table_of(alloc, lang.domain(), number)? {
        Some(table) => table,
        None => return Ok(best),
    };
    if !is_ahead(&table, &best) {
        return Ok(best);
    }
    if !preserves_all(&table, lang) {
        return Ok(best);
    }
    Ok(Some(table))
}

/// The least table that is affine under some labelling and preserves every relation. None exactly
/// where there is none. A table is tested only where it comes before the best one so far, since several
/// labellings have one table.
pub(crate) fn least_affine(alloc: Global, lang: &Language) -> Result<Option<OpTable<3>>, NoMemory>
    ensures least { IfOk result (λ answer.
        AnswersLeast (IsTable IsAffine 3 lang.now) (option_map (λ t. t.cells) answer)) }
    ensures domain { IfOk result (λ answer. IfSome answer (λ t. t.domain ≡ lang.now.domain)) }
{
    let mut best = None;
    for number in 0..label_lists(lang.domain()) {
        best = better(alloc, lang, number, best)?;
    }
    Ok(best)
}
