ghost use Rattle.std.specs.Prelude.{◌≡◌, ℕ, ◌+◌, ◌^◌, ◌<◌, ◌≤◌, length, IfOk, slice_index, slice_set, IsBitSet};
ghost use Rattle.std.specs.Bool.{OnTrue, OnFalse};
ghost use Rattle.std.specs.List.{sum};
ghost use Rattle.pol_base.specs.Least.{AnswersLeast, IsLeast};
ghost use Rattle.pol_base.specs.Masks.{AreMasks};
ghost use Rattle.pol_csp.specs.Narrowing.{Narrows, Rejects};
ghost use Rattle.pol_csp.specs.Searching.{FollowFrom, IsFound, AnswersSome, IsSettled, Leads};

use crate::hints::Hints;
use crate::index::Index;
use crate::rounds::{propagate, propagate_above, revise_last};
use crate::values::{branch_of, drop_value, lowest_values, open_cell};
use crate::{Conditions, Pool};
use pol_base::{NoMemory, Values, lowest_value, value_mask};
use pol_relation::Language;
use std::alloc::Global;

/// What is looked for: lists that are wanted, over a language.
#[derive(Drop)]
struct Task<'a, C> {
    alloc: Global,
    lang: &'a Language,
    index: Index<'a>,
    conditions: &'a C,
}

/// What is known so far: constraints that the wanted lists meet, and hints.
#[derive(Drop)]
struct State {
    pool: Pool,
    hints: Hints,
}

/// The one list that the masks leave, if it is wanted. Else constraints that it breaks may go into the pool.
fn leaf<C: Conditions>(
    task: &Task<'_, C>,
    state: &mut State,
    masks: &[u8],
) -> Result<Option<Values>, NoMemory>
    requires taken { C.takes task.now.conditions.now task.now.lang.now (length masks.now) }
    requires masks { AreMasks task.now.lang.now.domain masks.now }
    requires settled { IsSettled masks.now (length masks.now) }
    requires follow { FollowFrom (C.wanted task.now.conditions.now task.now.lang.now) task.now.lang.now
        (length masks.now) state.old.pool }
    ensures follow { IfOk result (λ _. FollowFrom (C.wanted task.now.conditions.now task.now.lang.now)
        task.now.lang.now (length masks.now) state.new.pool) }
    ensures found { IfOk result (λ answer.
        AnswersSome (C.wanted task.now.conditions.now task.now.lang.now) masks.now answer) }
{
    let _size = task.lang.domain().size();
    let values = lowest_values(task.alloc, masks)?;
    let wanted = task.conditions.more(
        task.alloc,
        task.lang,
        values.as_slice(),
        &mut state.hints.place,
        &mut state.pool,
    )?;
    if wanted {
        return Ok(Some(values));
    }
    Ok(None)
}

/// Narrows the masks by the constraints, and answers whether a wanted list may be left. Those from the number
/// `seen` on wait.
fn narrow<C: Conditions>(
    task: &Task<'_, C>,
    pool: &Pool,
    hints: &mut Hints,
    seen: usize,
    masks: &mut [u8],
) -> Result<bool, NoMemory>
    requires same { task.now.index ≡ task.now.lang.now }
    requires few { length masks.old ≤ 4096 }
    requires taken { C.takes task.now.conditions.now task.now.lang.now (length masks.old) }
    requires masks { AreMasks task.now.lang.now.domain masks.old }
    requires follow { FollowFrom (C.wanted task.now.conditions.now task.now.lang.now) task.now.lang.now
        (length masks.old) pool.now }
    ensures narrows { IfOk result (λ yes.
        OnTrue yes (Narrows (C.wanted task.now.conditions.now task.now.lang.now) masks.old masks.new)) }
    ensures wiped { IfOk result (λ yes.
        OnFalse yes (Rejects (C.wanted task.now.conditions.now task.now.lang.now) masks.old)) }
{
    let _size = task.lang.domain().size();
    let kept = propagate(pool, &task.index, hints, seen, masks)?;
    if !kept {
        return Ok(false);
    }
    if task.conditions.fails(task.lang, masks) {
        return Ok(false);
    }
    hints.at_once = false;
    Ok(true)
}

/// Takes from a cell a value with which no wanted list is left, and narrows the masks by the constraint that failed
/// last. Answers whether a wanted list may be left.
fn exclude<C: Conditions>(
    task: &Task<'_, C>,
    pool: &Pool,
    hints: &mut Hints,
    cell: usize,
    value: u8,
    masks: &mut [u8],
) -> Result<bool, NoMemory>
    requires same { task.now.index ≡ task.now.lang.now }
    requires masks { AreMasks task.now.lang.now.domain masks.old }
    requires follow { FollowFrom (C.wanted task.now.conditions.now task.now.lang.now) task.now.lang.now
        (length masks.old) pool.now }
    requires cell { cell < length masks.old }
    requires small { value < 8 }
    requires value { IsBitSet (slice_index masks.old cell) value }
    requires failed { Rejects (C.wanted task.now.conditions.now task.now.lang.now)
        (slice_set masks.old cell (2 ^ value)) }
    ensures narrows { IfOk result (λ yes.
        OnTrue yes (Narrows (C.wanted task.now.conditions.now task.now.lang.now) masks.old masks.new)) }
    ensures falls { IfOk result (λ yes. OnTrue yes (sum masks.new < sum masks.old)) }
    ensures wiped { IfOk result (λ yes.
        OnFalse yes (Rejects (C.wanted task.now.conditions.now task.now.lang.now) masks.old)) }
{
    let _size = task.lang.domain().size();
    hints.note(cell);
    if !drop_value(masks, cell, value) {
        return Ok(false);
    }
    let kept = revise_last(pool, &task.index, hints, masks)?;
    if !kept {
        return Ok(false);
    }
    hints.queue.touch(cell)?;
    Ok(true)
}

/// Some wanted list within the masks, which are narrowed. The constraints from the number `seen` on wait.
fn find<C: Conditions>(
    task: &Task<'_, C>,
    state: &mut State,
    seen: usize,
    masks: &mut [u8],
) -> Result<Option<Values>, NoMemory>
    requires same { task.now.index ≡ task.now.lang.now }
    requires few { length masks.old ≤ 4096 }
    requires taken { C.takes task.now.conditions.now task.now.lang.now (length masks.old) }
    requires masks { AreMasks task.now.lang.now.domain masks.old }
    requires follow { FollowFrom (C.wanted task.now.conditions.now task.now.lang.now) task.now.lang.now
        (length masks.old) state.old.pool }
    ensures follow { IfOk result (λ _. FollowFrom (C.wanted task.now.conditions.now task.now.lang.now)
        task.now.lang.now (length masks.old) state.new.pool) }
    ensures found { IfOk result (λ answer.
        AnswersSome (C.wanted task.now.conditions.now task.now.lang.now) masks.old answer) }
{
    let _size = task.lang.domain().size();
    state.hints.at_once = true;
    let mut known = seen;
    'branches: loop {
        let kept = narrow(task, &state.pool, &mut state.hints, known, masks)?;
        if !kept {
            return Ok(None);
        }
        known = state.pool.len();
        let cell = match open_cell(masks, &state.hints.failed) {
            Some(cell) => cell,
            None => return leaf(task, state, masks),
        };
        let value = lowest_value(masks[cell]);
        let mut branch = branch_of(task.alloc, masks, cell, value)?;
        state.hints.queue.touch(cell)?;
        let answer = find(task, state, known, &mut branch)?;
        if let Some(values) = answer {
            return Ok(Some(values));
        }
        let open = exclude(task, &state.pool, &mut state.hints, cell, value, masks)?;
        if !open {
            return Ok(None);
        }
    }
}

/// Leaves to a cell the value that a wanted list has there, the least one of its mask; that list.
fn fix<C: Conditions>(
    task: &Task<'_, C>,
    state: &mut State,
    cell: usize,
    masks: &mut [u8],
    found: Values,
) -> Result<Values, NoMemory>
    requires same { task.now.index ≡ task.now.lang.now }
    requires few { length masks.old ≤ 4096 }
    requires masks { AreMasks task.now.lang.now.domain masks.old }
    requires follow { FollowFrom (C.wanted task.now.conditions.now task.now.lang.now) task.now.lang.now
        (length masks.old) state.old.pool }
    requires cell { cell < length masks.old }
    requires settled { IsSettled masks.old cell }
    requires found { IsFound (C.wanted task.now.conditions.now task.now.lang.now) masks.old found }
    requires least { (v : ℕ) → IsBitSet (slice_index masks.old cell) v → slice_index found cell ≤ v }
    ensures follow { IfOk result (λ _. FollowFrom (C.wanted task.now.conditions.now task.now.lang.now)
        task.now.lang.now (length masks.old) state.new.pool) }
    ensures leads { IfOk result (λ _.
        Leads (C.wanted task.now.conditions.now task.now.lang.now) masks.old masks.new) }
    ensures settled { IfOk result (λ _. IsSettled masks.new (cell + 1)) }
    ensures found { IfOk result (λ best.
        IsFound (C.wanted task.now.conditions.now task.now.lang.now) masks.new best) }
{
    let _size = task.lang.domain().size();
    masks[cell] = value_mask(found.as_slice()[cell]);
    state.hints.queue.touch(cell)?;
    propagate_above(&state.pool, &task.index, &mut state.hints, masks)?;
    Ok(found)
}

/// Leaves to a cell the least value that some wanted list within the masks has there; that list.
fn settle<C: Conditions>(
    task: &Task<'_, C>,
    state: &mut State,
    cell: usize,
    masks: &mut [u8],
    found: Values,
) -> Result<Values, NoMemory>
    requires same { task.now.index ≡ task.now.lang.now }
    requires few { length masks.old ≤ 4096 }
    requires taken { C.takes task.now.conditions.now task.now.lang.now (length masks.old) }
    requires masks { AreMasks task.now.lang.now.domain masks.old }
    requires follow { FollowFrom (C.wanted task.now.conditions.now task.now.lang.now) task.now.lang.now
        (length masks.old) state.old.pool }
    requires cell { cell < length masks.old }
    requires settled { IsSettled masks.old cell }
    requires found { IsFound (C.wanted task.now.conditions.now task.now.lang.now) masks.old found }
    ensures follow { IfOk result (λ _. FollowFrom (C.wanted task.now.conditions.now task.now.lang.now)
        task.now.lang.now (length masks.old) state.new.pool) }
    ensures leads { IfOk result (λ _.
        Leads (C.wanted task.now.conditions.now task.now.lang.now) masks.old masks.new) }
    ensures settled { IfOk result (λ _. IsSettled masks.new (cell + 1)) }
    ensures found { IfOk result (λ best.
        IsFound (C.wanted task.now.conditions.now task.now.lang.now) masks.new best) }
{
    let _size = task.lang.domain().size();
    'values: loop {
        let value = lowest_value(masks[cell]);
        if found.as_slice()[cell] == value {
            return fix(task, state, cell, masks, found);
        }
        let mut branch = branch_of(task.alloc, masks, cell, value)?;
        state.hints.queue.touch(cell)?;
        let answer = find(task, state, state.hints.seen, &mut branch)?;
        if let Some(better) = answer {
            return fix(task, state, cell, masks, better);
        }
        exclude(task, &state.pool, &mut state.hints, cell, value, masks)?;
        propagate_above(&state.pool, &task.index, &mut state.hints, masks)?;
    }
}

/// The least wanted list within the masks, from some wanted list.
fn descend<C: Conditions>(
    task: &Task<'_, C>,
    state: &mut State,
    masks: &mut [u8],
    found: Values,
) -> Result<Values, NoMemory>
    requires same { task.now.index ≡ task.now.lang.now }
    requires few { length masks.old ≤ 4096 }
    requires taken { C.takes task.now.conditions.now task.now.lang.now (length masks.old) }
    requires masks { AreMasks task.now.lang.now.domain masks.old }
    requires follow { FollowFrom (C.wanted task.now.conditions.now task.now.lang.now) task.now.lang.now
        (length masks.old) state.old.pool }
    requires found { IsFound (C.wanted task.now.conditions.now task.now.lang.now) masks.old found }
    ensures least { IfOk result (λ best.
        IsLeast (IsFound (C.wanted task.now.conditions.now task.now.lang.now) masks.old) best) }
{
    let _size = task.lang.domain().size();
    propagate_above(&state.pool, &task.index, &mut state.hints, masks)?;
    let mut best = found;
    for cell in 0..masks.len() {
        best = settle(task, state, cell, masks, best)?;
    }
    Ok(best)
}

/// The least list within the masks that is wanted, and none exactly where there is none.
pub(crate) fn least_within<C: Conditions>(
    alloc: Global,
    lang: &Language,
    conditions: &C,
    masks: &[u8],
) -> Result<Option<Values>, NoMemory>
    requires few { length masks.now ≤ 4096 }
    requires taken { C.takes conditions.now lang.now (length masks.now) }
    requires masks { AreMasks lang.now.domain masks.now }
    ensures least { IfOk result (λ answer.
        AnswersLeast (IsFound (C.wanted conditions.now lang.now) masks.now) answer) }
{
    let task = Task {
        alloc,
        lang,
        index: Index::new(alloc, lang)?,
        conditions,
    };
    let mut state = State {
        pool: Pool::new(alloc),
        hints: Hints::new(alloc, masks.len())?,
    };
    let mut whole = Vec::from_slice(alloc, masks)?;
    let mut branch = Vec::from_slice(alloc, masks)?;
    match find(&task, &mut state, 0, &mut branch)? {
        Some(found) => Ok(Some(descend(&task, &mut state, &mut whole, found)?)),
        None => Ok(None),
    }
}
