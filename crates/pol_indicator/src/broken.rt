ghost use Rattle.std.specs.Prelude.{◌≡◌, ℕ, ◌+◌, ◌-◌, ◌^◌, ◌<◌, ◌≤◌, ◌↔◌, List, length, IsTrue, IfOk, IfSome, IfNone, OnOk};
ghost use Rattle.std.specs.Bool.{OnFalse};
ghost use Rattle.pol_base.specs.Tuples.{IsTuple};
ghost use Rattle.pol_relation.specs.Relations.{rows_of};
ghost use Rattle.pol_optable.specs.Operations.{IsPolymorphism};
ghost use Rattle.pol_optable.specs.Breaks.{IsBroken};
ghost use Rattle.pol_indicator.specs.Closing.{AddsListed, KeepsBetween, KeepsPart};

use crate::row_sets::RowSets;
use crate::scope::scope_at;
use pol_base::{NoMemory, advance};
use pol_csp::{Place, Pool};
use pol_optable::{OpTable, RowSet};
use pol_relation::Language;

/// How many constraints are added for one table at most.
const MOST_ADDED: usize = 50;

/// The lists of rows of a relation that begin with a row from `first` on and before `end`.
#[derive(Clone, Copy, Debug)]
struct Part {
    relation: u32,
    first: u32,
    end: u32,
}

impl Part {
    /// The lists of the part that begin with its first row.
    fn beginning(self) -> Part
        ensures relation { result.relation ≡ self.relation }
    {
        Part {
            end: self.end.min(self.first.saturating_add(1)),
            ..self
        }
    }
}

/// Whether the operation preserves each relation. If it does not, some constraints that it breaks are
/// added; the look for them begins at the place, goes around, and leaves the place where it ended.
pub(crate) fn add_broken<const K: usize>(
    rows: &RowSets<'_>,
    table: &OpTable<K>,
    place: &mut Place,
    pool: &mut Pool,
) -> Result<bool, NoMemory>
    requires domain { table.now.domain ≡ rows.now.domain }
    requires few_arguments { K ≤ 16 }
    ensures added { IfOk result (λ _. AddsListed rows.now K pool.old pool.new) }
    ensures preserves { IfOk result (λ yes. IsTrue yes ↔ IsPolymorphism table.now rows.now) }
{
    // for its clause that there is an argument
    let _table = table.domain();
    let from = pool.len();
    let start = *place;
    let turn = start.relation.min(rows.len());
    let behind = Part {
        relation: turn,
        first: start.row,
        end: u32::MAX,
    };
    let before = Part {
        relation: turn,
        first: 0,
        end: start.row,
    };
    let behind_kept = add_part(rows, table, behind, from, place, pool)?;
    let later_kept = add_relations(rows, table, turn + 1, rows.len(), from, place, pool)?;
    let earlier_kept = add_relations(rows, table, 0, turn, from, place, pool)?;
    let before_kept = add_part(rows, table, before, from, place, pool)?;
    Ok(behind_kept && later_kept && earlier_kept && before_kept)
}

/// The same of some relations alone, where the pool had `from` constraints when the look began.
fn add_relations<const K: usize>(
    rows: &RowSets<'_>,
    table: &OpTable<K>,
    first: u32,
    end: u32,
    from: usize,
    place: &mut Place,
    pool: &mut Pool,
) -> Result<bool, NoMemory>
    requires domain { table.now.domain ≡ rows.now.domain }
    requires few_arguments { K ≤ 16 }
    requires from { from ≤ length pool.old }
    requires begun { from < length pool.old → ¬ IsPolymorphism table.now rows.now }
    ensures from { IfOk result (λ _. from ≤ length pool.new) }
    ensures begun { IfOk result (λ _. from < length pool.new → ¬ IsPolymorphism table.now rows.now) }
    ensures added { IfOk result (λ _. AddsListed rows.now K pool.old pool.new) }
    ensures kept { IfOk result (λ yes. IsTrue yes → (relation : ℕ) → first ≤ relation → relation < end
        → KeepsPart table.now rows.now relation 0 (2 ^ 32 - 1)) }
    ensures broken { IfOk result (λ yes. OnFalse yes (¬ IsPolymorphism table.now rows.now)) }
{
    let mut kept = true;
    for relation in first..end {
        let whole = Part {
            relation,
            first: 0,
            end: u32::MAX,
        };
        let part_kept = add_part(rows, table, whole, from, place, pool)?;
        kept = kept && part_kept;
    }
    Ok(kept)
}

/// The same of a part of the lists of rows. Where the look has added constraints, only the beginning of the part is
/// looked at: to go over all lists of a relation that is kept costs more than one table more.
fn add_part<const K: usize>(
    rows: &RowSets<'_>,
    table: &OpTable<K>,
    part: Part,
    from: usize,
    place: &mut Place,
    pool: &mut Pool,
) -> Result<bool, NoMemory>
    requires domain { table.now.domain ≡ rows.now.domain }
    requires few_arguments { K ≤ 16 }
    requires from { from ≤ length pool.old }
    requires begun { from < length pool.old → ¬ IsPolymorphism table.now rows.now }
    ensures from { IfOk result (λ _. from ≤ length pool.new) }
    ensures begun { IfOk result (λ _. from < length pool.new → ¬ IsPolymorphism table.now rows.now) }
    ensures added { IfOk result (λ _. AddsListed rows.now K pool.old pool.new) }
    ensures kept { IfOk result (λ yes. IsTrue yes
        → KeepsPart table.now rows.now part.relation part.first part.end) }
    ensures broken { IfOk result (λ yes. OnFalse yes (¬ IsPolymorphism table.now rows.now)) }
{
    let set = match rows.get(part.relation) {
        Some(set) => set,
        None => return Ok(true),
    };
    let added = pool.len() - from;
    if added >= MOST_ADDED {
        return Ok(false);
    }
    // for its clause that the relation is one over the domain
    let _relation = rows.language().relation(part.relation);
    let looked_at = if added == 0 { part } else { part.beginning() };
    match first_broken(&set, table, looked_at) {
        None => Ok(added == 0),
        Some(numbers) => {
            add_lists(rows, table, looked_at, numbers, place, pool)?;
            Ok(false)
        }
    }
}

/// The first list of row numbers of the part of whose rows the operation makes no row.
fn first_broken<const K: usize>(
    set: &RowSet<'_>,
    table: &OpTable<K>,
    part: Part,
) -> Option<[u32; K]>
    requires domain { table.now.domain ≡ set.now.domain }
    ensures broken { IfSome result (IsBroken table.now set.now) }
    ensures none { IfNone result (KeepsBetween table.now set.now part.first part.end) }
{
    // for its clause that there is an argument
    let _table = table.domain();
    if part.first >= set.relation().len() {
        return None;
    }
    let mut first = [0u32; K];
    first[0] = part.first;
    table.next_break(set, &first, part.end)
}

/// Adds constraints of lists of rows of the part that are broken, from a list on.
fn add_lists<const K: usize>(
    rows: &RowSets<'_>,
    table: &OpTable<K>,
    part: Part,
    broken: [u32; K],
    place: &mut Place,
    pool: &mut Pool,
) -> Result<(), NoMemory>
    requires domain { table.now.domain ≡ rows.now.domain }
    requires few_arguments { K ≤ 16 }
    requires known { part.relation < length rows.now.relations }
    requires rows { IsTuple (length (rows_of rows.now part.relation)) K broken }
    ensures more { OnOk result (length pool.old ≤ length pool.new) }
    ensures added { OnOk result (AddsListed rows.now K pool.old pool.new) }
{
    let set = match rows.get(part.relation) {
        Some(set) => set,
        None => return Ok(()),
    };
    // for their clauses that the cells are few, and that the relation is one over the domain
    let _table = table.domain();
    let _relation = rows.language().relation(part.relation);
    let count = set.relation().len();
    let mut numbers = broken;
    for _ in 0..MOST_ADDED {
        add_list(rows.language(), part.relation, &numbers, pool)?;
        if !advance(&mut numbers, count) {
            return Ok(());
        }
        match table.next_break(&set, &numbers, part.end) {
            Some(next) => numbers = next,
            None => return Ok(()),
        }
    }
    *place = Place {
        relation: part.relation,
        row: numbers[0],
    };
    Ok(())
}

/// Adds the constraint of the rows with these numbers.
fn add_list<const K: usize>(
    lang: &Language,
    relation: u32,
    numbers: &[u32; K],
    pool: &mut Pool,
) -> Result<(), NoMemory>
    requires few_arguments { K ≤ 16 }
    requires few_cells { lang.now.domain ^ K ≤ 4096 }
    requires known { relation < length lang.now.relations }
    requires rows { IsTuple (length (rows_of lang.now relation)) K numbers.now }
    ensures more { OnOk result (length pool.new ≡ length pool.old + 1) }
    ensures added { OnOk result (AddsListed lang.now K pool.old pool.new) }
{
    let r = lang.relation(relation);
    let scope = scope_at(r, numbers);
    pool.add(relation, &scope[..r.arity() as usize])
}
