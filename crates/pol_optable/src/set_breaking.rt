ghost use Rattle.std.specs.Prelude.{◌≡◌, ◌↔◌, ◌⊎◌, ℕ, ◌-◌, ◌*◌, ◌^◌, ◌<◌, ◌≤◌, List, [], ◌∷◌, length, take, drop};
ghost use Rattle.std.specs.Prelude.{replicate, slice_index, Bool, true, IsTrue, IfSome, IfNone};
ghost use Rattle.std.specs.Bool.{OnTrue, OnFalse};
ghost use Rattle.pol_base.specs.Tuples.{IsDomain, IsBefore};
ghost use Rattle.pol_base.specs.Least.{IsLeast};
ghost use Rattle.pol_base.specs.Masks.{IsMask};
ghost use Rattle.pol_optable.specs.SetFunctions.{PreservesSets};
ghost use Rattle.pol_optable.specs.SetBreaks.{IsBrokenSets, GoesOnBroken};
ghost use Rattle.pol_optable.specs.ValueWords.{AreChosen, HaveImage, word_count};

use crate::{SetFn, ValueRows};
use pol_base::full_mask;
use pol_relation::Relation;

impl SetFn {
    /// Whether the set function preserves the relation, over the same domain: whether the image of every
    /// nonempty set of rows is a row. (V. Dalmau and J. Pearson, Closure functions and width 1 problems, CP
    /// 1999.) Takes no memory.
    pub fn preserves(&self, r: &Relation) -> bool
        requires domain { self.now.domain ≡ r.now.domain }
        ensures preserves { IsTrue result ↔ PreservesSets self.now r.now }
    {
        if r.len() > 128 {
            return self.preserves_many(r);
        }
        let mut words = [0; 30];
        let rows = ValueRows::in_room(r, &mut words);
        self.next_break(&rows, &[0; 6]).is_none()
    }

    /// The same of a relation of many rows, which takes much room on the stack.
    fn preserves_many(&self, r: &Relation) -> bool
        requires domain { self.now.domain ≡ r.now.domain }
        ensures preserves { IsTrue result ↔ PreservesSets self.now r.now }
    {
        // for its clause that the rows are few
        let _count = r.len();
        let mut words = [0; 3690];
        let rows = ValueRows::in_room(r, &mut words);
        self.next_break(&rows, &[0; 6]).is_none()
    }

    /// The least vector of masks, one for each place, from the vector `from` on, that is the projection of
    /// some nonempty list of rows and of which the set function makes no row; behind the arity it has zeros,
    /// and `from` is not read. None exactly where there is none from that one on. Takes no memory.
    pub fn next_break(&self, rows: &ValueRows<'_>, from: &[u8; 6]) -> Option<[u8; 6]>
        requires domain { self.now.domain ≡ rows.now.domain }
        ensures broken { IfSome result (λ masks. IsBrokenSets self.now rows.now (take rows.now.arity masks)) }
        ensures from { IfSome result (λ masks.
            ¬ IsBefore (take rows.now.arity masks) (take rows.now.arity from.now)) }
        ensures least { IfSome result (λ masks. (other : List ℕ) → IsBrokenSets self.now rows.now other
            → ¬ IsBefore other (take rows.now.arity from.now)
            → ¬ IsBefore other (take rows.now.arity masks)) }
        ensures none { IfNone result ((other : List ℕ) → IsBrokenSets self.now rows.now other
            → IsBefore other (take rows.now.arity from.now)) }
        ensures zeros { IfSome result (λ masks.
            drop rows.now.arity masks ≡ replicate (6 - rows.now.arity) 0) }
    {
        let arity = rows.relation().arity() as usize;
        let mut masks = [0; 6];
        if self.seek_from(rows, &from[..arity], &mut masks[..arity]) {
            Some(masks)
        } else {
            None
        }
    }

    /// Seeks the least masks of which no row is made, from the given ones on.
    fn seek_from(&self, rows: &ValueRows<'_>, from: &[u8], masks: &mut [u8]) -> bool
        requires domain { self.now.domain ≡ rows.now.domain }
        requires from { length from.now ≡ rows.now.arity }
        requires places { length masks.old ≡ rows.now.arity }
        ensures found { OnTrue result (IsLeast (GoesOnBroken self.now rows.now [] true from.now) masks.new) }
        ensures none { OnFalse result ((other : List ℕ) → ¬ GoesOnBroken self.now rows.now [] true from.now other) }
    {
        if rows.word_count() > 1 {
            return self.seek_among_many(rows, from, masks);
        }
        let mut room = [0; 13];
        self.seek_in_room(rows, from, masks, &mut room)
    }

    /// The same among many rows, which takes much room on the stack.
    fn seek_among_many(&self, rows: &ValueRows<'_>, from: &[u8], masks: &mut [u8]) -> bool
        requires domain { self.now.domain ≡ rows.now.domain }
        requires from { length from.now ≡ rows.now.arity }
        requires places { length masks.old ≡ rows.now.arity }
        ensures found { OnTrue result (IsLeast (GoesOnBroken self.now rows.now [] true from.now) masks.new) }
        ensures none { OnFalse result ((other : List ℕ) → ¬ GoesOnBroken self.now rows.now [] true from.now other) }
    {
        // for its clause that the words are few
        let _count = rows.word_count();
        let mut room = [0; 1599];
        self.seek_in_room(rows, from, masks, &mut room)
    }

    /// The same, where there is room for the words of all rows, and for twice as many a place.
    fn seek_in_room(
        &self,
        rows: &ValueRows<'_>,
        from: &[u8],
        masks: &mut [u8],
        room: &mut [u128],
    ) -> bool
        requires domain { self.now.domain ≡ rows.now.domain }
        requires from { length from.now ≡ rows.now.arity }
        requires places { length masks.old ≡ rows.now.arity }
        requires room { word_count rows.now * 13 ≤ length room.old }
        ensures found { OnTrue result (IsLeast (GoesOnBroken self.now rows.now [] true from.now) masks.new) }
        ensures none { OnFalse result ((other : List ℕ) → ¬ GoesOnBroken self.now rows.now [] true from.now other) }
    {
        // for its clause that there are one to six places
        let _relation = rows.relation();
        let (all, rest) = room.split_at_mut(rows.word_count());
        rows.put_all(all);
        self.seek(rows, from, true, masks, all, all, rest)
    }

    /// Seeks the least masks for the places that are left, so that of the chosen ones and these no row is made.
    /// Where they are bound, from the given ones on. `alive` has the rows in the chosen masks, `hit` those that
    /// begin with what the set function makes of them.
    fn seek(
        &self,
        rows: &ValueRows<'_>,
        from: &[u8],
        bound: bool,
        masks: &mut [u8],
        alive: &[u128],
        hit: &[u128],
        room: &mut [u128],
    ) -> bool
        requires domain { self.now.domain ≡ rows.now.domain }
        requires some { 1 ≤ length from.now }
        requires from { length from.now ≤ rows.now.arity }
        requires places { length masks.old ≡ rows.now.arity }
        requires alive { AreChosen rows.now (take (rows.now.arity - length from.now) masks.old) alive.now }
        requires hit { HaveImage self.now rows.now (take (rows.now.arity - length from.now) masks.old) hit.now }
        requires room { length from.now * (word_count rows.now * 2) ≤ length room.old }
        ensures kept { take (rows.now.arity - length from.now) masks.new
            ≡ take (rows.now.arity - length from.now) masks.old }
        ensures found { OnTrue result (IsLeast
            (GoesOnBroken self.now rows.now (take (rows.now.arity - length from.now) masks.old) bound from.now)
            (drop (rows.now.arity - length from.now) masks.new)) }
        ensures none { OnFalse result ((other : List ℕ) → ¬ GoesOnBroken self.now rows.now
            (take (rows.now.arity - length from.now) masks.old) bound from.now other) }
    {
        let first = from[0];
        let behind = &from[1..];
        if behind.is_empty() {
            return self.seek_last(rows, first, bound, masks, alive, hit, room);
        }
        // for its clause that the rows are tuples
        let _relation = rows.relation();
        let place = masks.len() - from.len();
        let values = rows.values_at(alive, place);
        let (alive_below, rest) = room.split_at_mut(alive.len());
        let (hit_below, rest) = rest.split_at_mut(hit.len());
        for mask in first_mask(bound, first)..self.set_count() {
            masks[place] = mask;
            let chosen = &masks[..place + 1];
            if !rows.choose(chosen, values, alive, alive_below) {
                continue;
            }
            self.keep_image(rows, chosen, hit, hit_below);
            let next_bound = is_bound(bound, mask, first);
            if self.seek(
                rows,
                behind,
                next_bound,
                masks,
                alive_below,
                hit_below,
                rest,
            ) {
                return true;
            }
        }
        false
    }

    /// The same where the last place is left. A mask with which a row is made is passed at once, whether or not
    /// rows have the masks.
    fn seek_last(
        &self,
        rows: &ValueRows<'_>,
        first: u8,
        bound: bool,
        masks: &mut [u8],
        alive: &[u128],
        hit: &[u128],
        room: &mut [u128],
    ) -> bool
        requires domain { self.now.domain ≡ rows.now.domain }
        requires places { length masks.old ≡ rows.now.arity }
        requires alive { AreChosen rows.now (take (rows.now.arity - 1) masks.old) alive.now }
        requires hit { HaveImage self.now rows.now (take (rows.now.arity - 1) masks.old) hit.now }
        requires room { word_count rows.now ≤ length room.old }
        ensures kept { take (rows.now.arity - 1) masks.new ≡ take (rows.now.arity - 1) masks.old }
        ensures found { OnTrue result (IsLeast
            (GoesOnBroken self.now rows.now (take (rows.now.arity - 1) masks.old) bound (first ∷ []))
            (drop (rows.now.arity - 1) masks.new)) }
        ensures none { OnFalse result ((other : List ℕ) → ¬ GoesOnBroken self.now rows.now
            (take (rows.now.arity - 1) masks.old) bound (first ∷ []) other) }
    {
        // for its clause that there is a place
        let _relation = rows.relation();
        let place = masks.len() - 1;
        let values = rows.values_at(alive, place);
        let (alive_below, _) = room.split_at_mut(alive.len());
        for mask in first_mask(bound, first)..self.set_count() {
            masks[place] = mask;
            if rows.reads(hit, place, self.apply(mask)) {
                continue;
            }
            if rows.choose(masks, values, alive, alive_below) {
                return true;
            }
        }
        false
    }

    /// How many sets of values there are, with the empty one.
    fn set_count(&self) -> u8
        ensures count { result ≡ 2 ^ self.now.domain }
        ensures domain { IsDomain self.now.domain }
    {
        full_mask(self.domain()) + 1
    }

    /// Goes on from the rows that begin with what the set function makes of chosen masks to those of one mask
    /// more, the last.
    fn keep_image(&self, rows: &ValueRows<'_>, masks: &[u8], from: &[u128], to: &mut [u128])
        requires domain { self.now.domain ≡ rows.now.domain }
        requires some { 1 ≤ length masks.now }
        requires places { length masks.now ≤ rows.now.arity }
        requires mask { IsMask rows.now.domain (slice_index masks.now (length masks.now - 1)) }
        requires image { HaveImage self.now rows.now (take (length masks.now - 1) masks.now) from.now }
        requires to { length to.old ≡ word_count rows.now }
        ensures image { HaveImage self.now rows.now masks.now to.new }
    {
        // for its clause that the domain has at most five values
        let _domain = self.domain();
        let place = masks.len() - 1;
        rows.keep(place, self.apply(masks[place]), from, to);
    }
}

/// The first mask that is tried at a place: the masks before it are empty, or come before the first one given.
fn first_mask(bound: bool, first: u8) -> u8
    ensures some { 1 ≤ result }
    ensures first { IsTrue bound → first ≤ result }
    ensures before { (mask : ℕ) → mask < result → (mask ≡ 0) ⊎ (IsTrue bound × (mask < first)) }
{
    if bound && first > 1 { first } else { 1 }
}

/// Whether the masks behind a mask are bound too, since up to there they are those given.
fn is_bound(bound: bool, mask: u8, first: u8) -> bool
    ensures bound { IsTrue result ↔ (IsTrue bound × (mask ≡ first)) }
{
    bound && mask == first
}
