ghost use Rattle.std.specs.Prelude.{◌≡◌, ℕ, ◌+◌, ◌-◌, ◌<◌, ◌≤◌, ◌↔◌, length, take, map, IsTrue, IfOk, IfSome, IfNone, OnOk};
ghost use Rattle.pol_relation.specs.Relations.{relation_of};
ghost use Rattle.pol_optable.specs.SetFunctions.{IsSetPolymorphism};
ghost use Rattle.pol_optable.specs.SetBreaks.{IsProjection};
ghost use Rattle.pol_setfn.specs.Projected.{AddsProjected, IsBrokenAt, KeepsFrom, PreservesAmong};

use crate::value_sets::ValueSets;
use pol_base::NoMemory;
use pol_csp::{Place, Pool};
use pol_optable::SetFn;
use pol_relation::Language;

/// How many constraints are added for one set function at most.
const MOST_ADDED: usize = 50;

/// The sets of values at the places of some rows of a relation, as masks. Those behind its arity are 0.
#[derive(Clone, Copy, Debug)]
struct Broken {
    relation: u32,
    masks: [u8; 6],
}

/// Whether the set function preserves each relation. If it does not, some constraints that it breaks are
/// added, of one relation; the look for it begins at the place, goes around, and leaves the place where it
/// ended.
pub(crate) fn add_broken(
    sets: &ValueSets<'_>,
    g: &SetFn,
    place: &mut Place,
    pool: &mut Pool,
) -> Result<bool, NoMemory>
    requires domain { g.now.domain ≡ sets.now.domain }
    ensures added { IfOk result (λ _. AddsProjected sets.now pool.old pool.new) }
    ensures preserves { IfOk result (λ yes. IsTrue yes ↔ IsSetPolymorphism g.now sets.now) }
{
    match first_broken(sets, g, *place) {
        None => Ok(true),
        Some(broken) => {
            add_vectors(sets, g, broken, place, pool)?;
            Ok(false)
        }
    }
}

/// The first sets that are broken, from the place on and around.
fn first_broken(sets: &ValueSets<'_>, g: &SetFn, place: Place) -> Option<Broken>
    requires domain { g.now.domain ≡ sets.now.domain }
    ensures broken { IfSome result (λ b. IsBrokenAt g.now sets.now b.relation b.masks) }
    ensures none { IfNone result (IsSetPolymorphism g.now sets.now) }
{
    let count = sets.len();
    let relation = place.relation.min(count);
    let from = [place.row.min(31) as u8, 0, 0, 0, 0, 0];
    if let Some(masks) = broken_from(sets, g, relation, &from) {
        return Some(Broken { relation, masks });
    }
    if let Some(broken) = broken_among(sets, g, relation + 1, count) {
        return Some(broken);
    }
    broken_among(sets, g, 0, relation + 1)
}

/// The first sets that are broken, of some relations alone.
fn broken_among(sets: &ValueSets<'_>, g: &SetFn, first: u32, end: u32) -> Option<Broken>
    requires domain { g.now.domain ≡ sets.now.domain }
    ensures broken { IfSome result (λ b. IsBrokenAt g.now sets.now b.relation b.masks) }
    ensures none { IfNone result (PreservesAmong g.now sets.now first end) }
{
    for relation in first..end {
        if let Some(masks) = broken_from(sets, g, relation, &[0; 6]) {
            return Some(Broken { relation, masks });
        }
    }
    None
}

/// The first sets of one relation that are broken, from some masks on. None where there is no such
/// relation.
fn broken_from(sets: &ValueSets<'_>, g: &SetFn, relation: u32, from: &[u8; 6]) -> Option<[u8; 6]>
    requires domain { g.now.domain ≡ sets.now.domain }
    ensures broken { IfSome result (IsBrokenAt g.now sets.now relation) }
    ensures none { IfNone result (KeepsFrom g.now sets.now relation from.now) }
{
    let rows = sets.get(relation)?;
    g.next_break(&rows, from)
}

/// Adds constraints of sets of the relation that are broken, from the given ones on.
fn add_vectors(
    sets: &ValueSets<'_>,
    g: &SetFn,
    broken: Broken,
    place: &mut Place,
    pool: &mut Pool,
) -> Result<(), NoMemory>
    requires domain { g.now.domain ≡ sets.now.domain }
    requires broken { IsBrokenAt g.now sets.now broken.relation broken.masks }
    ensures added { OnOk result (AddsProjected sets.now pool.old pool.new) }
{
    let Some(rows) = sets.get(broken.relation) else {
        return Ok(());
    };
    // for its clause that the relations are few
    let _count = sets.len();
    let last = sets.language().relation(broken.relation).arity() as usize - 1;
    let mut masks = broken.masks;
    for _ in 0..MOST_ADDED {
        add_vector(sets.language(), broken.relation, &masks, pool)?;
        masks[last] += 1;
        match g.next_break(&rows, &masks) {
            Some(next) => masks = next,
            None => {
                *place = Place {
                    relation: broken.relation + 1,
                    row: 0,
                };
                return Ok(());
            }
        }
    }
    *place = Place {
        relation: broken.relation,
        row: u32::from(masks[0]),
    };
    Ok(())
}

/// Adds the constraint of the sets with these masks.
fn add_vector(
    lang: &Language,
    relation: u32,
    masks: &[u8; 6],
    pool: &mut Pool,
) -> Result<(), NoMemory>
    requires known { relation < length lang.now.relations }
    requires projection { IsProjection (relation_of lang.now relation)
        (take (relation_of lang.now relation).arity masks.now) }
    ensures added { OnOk result (AddsProjected lang.now pool.old pool.new) }
{
    let scope = cells_of(masks);
    let arity = lang.relation(relation).arity() as usize;
    pool.add(relation, &scope[..arity])
}

/// The cells of the sets with the masks, and 0 where the mask is 0.
fn cells_of(masks: &[u8; 6]) -> [u32; 6]
    ensures cells { result ≡ map (λ mask. mask - 1) masks.now }
{
    let mut cells = [0u32; 6];
    for place in 0..6 {
        cells[place] = u32::from(masks[place]).saturating_sub(1);
    }
    cells
}
