ghost use Rattle.std.specs.Prelude.{◌≡◌, ℕ, ◌<◌, ◌≤◌, length, All, IfOk, IfSome};
ghost use Rattle.pol_relation.specs.Relations.{IsRelation};
ghost use Rattle.pol_relation.specs.Instances.{Fits, IsSolution};

use pol_base::{NoMemory, Values, has_value, value_mask};
use pol_relation::{Instance, Language, Relation};
use std::alloc::Global;

const MOST_VARIABLES: usize = 40;

const MOST_PLACES: usize = 6;

/// A mask loses at most five values, and there are 40.
const MOST_PASSES: u32 = 200;

/// Whether each value of the row is in the mask of the variable at its place.
fn lies_in(scope: &[u32], row: &[u8], masks: &[u8; MOST_VARIABLES]) -> bool
    requires long { length row.now ≡ length scope.now }
    requires variables { All (λ x. x < 40) scope.now }
    requires values { All (λ v. v < 8) row.now }
{
    for j in 0..scope.len() {
        if !has_value(masks[scope[j] as usize], row[j]) {
            return false;
        }
    }
    true
}

/// Adds the values of the row to those that were seen at its places.
fn see(row: &[u8], seen: &mut [u8; MOST_PLACES])
    requires places { length row.now ≤ 6 }
    requires values { All (λ v. v < 8) row.now }
{
    for j in 0..row.len() {
        seen[j] |= value_mask(row[j]);
    }
}

/// The values at the places of the rows that lie in the masks.
fn seen_values(
    relation: &Relation,
    scope: &[u32],
    masks: &[u8; MOST_VARIABLES],
) -> [u8; MOST_PLACES]
    requires relation { IsRelation relation.now }
    requires long { length scope.now ≡ relation.now.arity }
    requires variables { All (λ x. x < 40) scope.now }
{
    let mut seen = [0; MOST_PLACES];
    for r in 0..relation.len() {
        let row = relation.row(r);
        if lies_in(scope, row, masks) {
            see(row, &mut seen);
        }
    }
    seen
}

/// Leaves the variables of the scope the values that were seen. Which variables lost a value, as bits.
fn keep(scope: &[u32], seen: &[u8; MOST_PLACES], masks: &mut [u8; MOST_VARIABLES]) -> u64
    requires places { length scope.now ≤ 6 }
    requires variables { All (λ x. x < 40) scope.now }
{
    let mut changed = 0;
    for j in 0..scope.len() {
        let x = scope[j] as usize;
        let left = masks[x] & seen[j];
        if left != masks[x] {
            masks[x] = left;
            changed |= 1 << x;
        }
    }
    changed
}

/// Whether a variable of the scope is among those of the bits.
fn touches(scope: &[u32], variables: u64) -> bool
    requires variables { All (λ x. x < 40) scope.now }
{
    for j in 0..scope.len() {
        if (variables >> scope[j]) & 1 == 1 {
            return true;
        }
    }
    false
}

/// Goes over the constraints of variables that lost a value. Which variables lose one then, as bits.
fn pass(lang: &Language, inst: &Instance, masks: &mut [u8; MOST_VARIABLES], changed: u64) -> u64
    requires fits { Fits lang.now inst.now }
    requires few_variables { length inst.now.variables ≤ 40 }
{
    let mut next = 0;
    for c in 0..inst.constraints() {
        let scope = inst.scope(c);
        if touches(scope, changed | next) {
            let seen = seen_values(lang.relation(inst.relation_of(c)), scope, masks);
            next |= keep(scope, &seen, masks);
        }
    }
    next
}

/// Goes over the constraints until no variable loses a value, beginning with those of one variable.
fn settle(lang: &Language, inst: &Instance, masks: &mut [u8; MOST_VARIABLES], x: u32)
    requires fits { Fits lang.now inst.now }
    requires few_variables { length inst.now.variables ≤ 40 }
    requires variable { x < 40 }
{
    let mut changed = 1 << x;
    for _ in 0..MOST_PASSES {
        if changed != 0 {
            changed = pass(lang, inst, masks, changed);
        }
    }
}

/// What is left where the variable takes the value, unless some variable then has no value.
fn with_value(
    lang: &Language,
    inst: &Instance,
    masks: &[u8; MOST_VARIABLES],
    x: u32,
    a: u8,
) -> Option<[u8; MOST_VARIABLES]>
    requires fits { Fits lang.now inst.now }
    requires few_variables { length inst.now.variables ≤ 40 }
    requires variable { x < 40 }
    requires value { a < 8 }
{
    let mut left = *masks;
    left[x as usize] = value_mask(a);
    settle(lang, inst, &mut left, x);
    if left.contains(&0) {
        return None;
    }
    Some(left)
}

/// What is left where the variable takes its first value that leaves each variable one.
fn choose(
    lang: &Language,
    inst: &Instance,
    masks: &[u8; MOST_VARIABLES],
    x: u32,
) -> Option<[u8; MOST_VARIABLES]>
    requires fits { Fits lang.now inst.now }
    requires few_variables { length inst.now.variables ≤ 40 }
    requires variable { x < 40 }
{
    for a in 0..lang.domain().size() {
        if has_value(masks[x as usize], a) {
            if let Some(left) = with_value(lang, inst, masks, x, a) {
                return Some(left);
            }
        }
    }
    None
}

/// The same for each variable in turn.
fn choose_all(
    lang: &Language,
    inst: &Instance,
    masks: &[u8; MOST_VARIABLES],
) -> Option<[u8; MOST_VARIABLES]>
    requires fits { Fits lang.now inst.now }
    requires few_variables { length inst.now.variables ≤ 40 }
{
    let mut left = *masks;
    for x in 0..inst.variables() {
        left = choose(lang, inst, &left, x)?;
    }
    Some(left)
}

/// The first masks, and behind them masks of one value.
fn first_masks(masks: &[u8]) -> [u8; MOST_VARIABLES]
    requires few { length masks.now ≤ 40 }
{
    let mut first = [1; MOST_VARIABLES];
    for x in 0..masks.len() {
        first[x] = masks[x];
    }
    first
}

/// The least value of each of the first masks.
fn least_values(alloc: Global, masks: &[u8; MOST_VARIABLES], count: u32) -> Result<Values, NoMemory>
    requires few { count ≤ 40 }
    ensures long { IfOk result (λ values. length values ≡ count) }
{
    let mut values = Values::new(alloc);
    for x in 0..count {
        values.push(masks[x as usize].trailing_zeros() as u8)?;
    }
    Ok(values)
}

/// A solution, where one is found by choosing: each variable in turn takes the first of its values
/// behind which arc consistency leaves each variable some. None says nothing.
pub(crate) fn chosen_solution(
    alloc: Global,
    lang: &Language,
    inst: &Instance,
    masks: &[u8],
) -> Result<Option<Values>, NoMemory>
    requires fits { Fits lang.now inst.now }
    requires few_variables { length inst.now.variables ≤ 40 }
    requires long { length masks.now ≡ length inst.now.variables }
    ensures solution { IfOk result (λ found. IfSome found (IsSolution lang.now inst.now)) }
{
    let d = lang.domain().size();
    let left = match choose_all(lang, inst, &first_masks(masks)) {
        Some(left) => left,
        None => return Ok(None),
    };
    let values = least_values(alloc, &left, inst.variables())?;
    if values.as_slice().iter().all(|value| *value < d)
        && inst.is_solution(lang, values.as_slice())
    {
        return Ok(Some(values));
    }
    Ok(None)
}
