ghost use Rattle.std.specs.Prelude.{◌≡◌, ◌↔◌, ◌<◌, ◌≤◌, ◌+◌, ◌∷◌, [], ℕ, List, length, take, slice_index, All, IfOk, IfSome, IfNone};
ghost use Rattle.pol_base.specs.Tuples.{IsTuple};
ghost use Rattle.pol_maltsev.specs.Compacts.{IsCompact, Members, AreReached};
ghost use Rattle.pol_maltsev.specs.Listings.{IsRowOf};
ghost use Rattle.pol_maltsev.specs.Orders.{InFront};
ghost use Rattle.pol_maltsev.specs.Restrictions.{IsRestricted};
ghost use Rattle.pol_maltsev.specs.Tables.{IsMoved};
ghost use Rattle.pol_maltsev.specs.Views.{InTable, IsSoundTable, root_in};

use crate::compact::Compact;
use crate::row::Row;
use crate::scoping::first_places;
use crate::table::Table;
use pol_base::{Domain, NoMemory};
use pol_optable::OpTable;
use pol_rows::Rows;
use std::alloc::Global;

impl Table {
    /// The row of the least value that a member has at the place. None exactly where no member has one.
    fn least_row(&self, p: u32) -> Option<&[u8]>
        requires place { p < self.now.width }
        ensures row { IfSome result (λ row. IsRowOf self.now row.now) }
        ensures none { IfNone result ((a : ℕ) → a < self.now.domain → ¬ (root_in self.now p a < self.now.domain)) }
    {
        for a in 0..self.domain().size() {
            if self.same(p, a, a) {
                return Some(self.row(p, a));
            }
        }
        None
    }

    /// A member, if there is one.
    fn some_member(&self, alloc: Global, op: &OpTable<3>) -> Result<Vec<Row>, NoMemory>
        requires sound { IsSoundTable op.now self.now }
        ensures reached { IfOk result (λ found. AreReached (InTable op.now self.now) (take 0 self.now.order) found.items) }
    {
        let mut found = Vec::new(alloc);
        if let Some(row) = self.least_row(0) {
            found.push(Row::from_slice(alloc, row)?)?;
        }
        Ok(found)
    }

    /// A member with the value at position `k` of the order that agrees with this one before. None exactly
    /// where there is none.
    fn moved(
        &self,
        alloc: Global,
        op: &OpTable<3>,
        k: u32,
        t: &[u8],
        v: u8,
    ) -> Result<Option<Row>, NoMemory>
        requires sound { IsSoundTable op.now self.now }
        requires position { k < self.now.width }
        requires member { InTable op.now self.now t.now }
        requires value { v < self.now.domain }
        ensures moved { IfOk result (λ found. IfSome found (IsMoved (InTable op.now self.now)
            (InFront self.now.order k) (slice_index self.now.order k) v t.now)) }
        ensures none { IfOk result (λ found. IfNone found ((u : List ℕ) → ¬ IsMoved (InTable op.now self.now)
            (InFront self.now.order k) (slice_index self.now.order k) v t.now u)) }
    {
        let p = self.place(k);
        if !self.same(p, t[p as usize], v) {
            return Ok(None);
        }
        Ok(Some(self.step(alloc, op, p, t, v)?))
    }

    /// Of the members that agree with this one at the first `k` places of the order, one for each value that
    /// they have at the next, in ascending order of these values.
    fn branches(
        &self,
        alloc: Global,
        op: &OpTable<3>,
        k: u32,
        t: &[u8],
    ) -> Result<Vec<Row>, NoMemory>
        requires sound { IsSoundTable op.now self.now }
        requires position { k < self.now.width }
        requires member { InTable op.now self.now t.now }
        ensures reached { IfOk result (λ found. AreReached
            (IsRestricted (InTable op.now self.now) (t.now ∷ []) self.now.order k)
            (take (k + 1) self.now.order) found.items) }
    {
        let mut found = Vec::new(alloc);
        for v in 0..self.domain().size() {
            if let Some(member) = self.moved(alloc, op, k, t, v)? {
                found.push(member)?;
            }
        }
        Ok(found)
    }

    /// One member for each list that members have at the first `k + 1` places of the order, by one for each
    /// list at the first `k`.
    fn longer(
        &self,
        alloc: Global,
        op: &OpTable<3>,
        k: u32,
        shorter: &[Row],
    ) -> Result<Vec<Row>, NoMemory>
        requires sound { IsSoundTable op.now self.now }
        requires position { k < self.now.width }
        requires shorter { AreReached (InTable op.now self.now) (take k self.now.order) shorter.now }
        ensures reached { IfOk result (λ found. AreReached (InTable op.now self.now)
            (take (k + 1) self.now.order) found.items) }
    {
        let mut found = Vec::new(alloc);
        for t in shorter {
            found.append(&mut self.branches(alloc, op, k, t.as_slice())?)?;
        }
        Ok(found)
    }

    /// One member for each list that members have at the first `q` places of the order, in ascending order
    /// of these lists.
    fn fronts(&self, alloc: Global, op: &OpTable<3>, q: u32) -> Result<Vec<Row>, NoMemory>
        requires sound { IsSoundTable op.now self.now }
        requires few { q ≤ self.now.width }
        ensures reached { IfOk result (λ found. AreReached (InTable op.now self.now)
            (take q self.now.order) found.items) }
    {
        let mut found = self.some_member(alloc, op)?;
        for k in 0..q {
            found = self.longer(alloc, op, k, found.as_slice())?;
        }
        Ok(found)
    }
}

impl Table {
    /// One member for each list that members read at the places, in ascending order of these lists. Brings
    /// the places to the front of the order.
    fn reach(
        &mut self,
        alloc: Global,
        op: &OpTable<3>,
        places: &[u32],
    ) -> Result<Vec<Row>, NoMemory>
        requires sound { IsSoundTable op.now self.old }
        requires few { length places.now ≤ 7 }
        requires below { All (λ p. p < self.old.width) places.now }
        ensures reached { IfOk result (λ found. AreReached (InTable op.now self.old) places.now found.items) }
    {
        let first = first_places(alloc, places)?;
        let front = first.places.as_slice();
        self.to_front(alloc, op, front)?;
        self.fronts(alloc, op, front.len() as u32)
    }
}

/// Tuples of `n` values as rows.
fn rows_of(alloc: Global, d: Domain, n: u32, tuples: &[Row]) -> Result<Rows, NoMemory>
    requires some_places { 1 ≤ n }
    requires few_places { n ≤ 4096 }
    requires tuples { All (IsTuple d n) tuples.now }
    requires few { length tuples.now ≤ 1048576 }
    ensures rows { IfOk result (λ r. r ≡ record { domain = d; width = n; rows = tuples.now }) }
{
    let mut rows = Rows::new(alloc, d, n);
    for tuple in tuples {
        rows.push(tuple.as_slice())?;
    }
    Ok(rows)
}

impl Compact {
    /// For each list that a member reads at the places one member that reads it, a whole tuple, in
    /// ascending order of these lists; no rows exactly where there is no member. The places are to be from
    /// 1 to 7, each below the width; one may repeat.
    pub fn reach(&self, alloc: Global, op: &OpTable<3>, places: &[u32]) -> Result<Rows, NoMemory>
        requires compact { IsCompact op.now self.now }
        requires some { 1 ≤ length places.now }
        requires few { length places.now ≤ 7 }
        requires below { All (λ p. p < self.now.width) places.now }
        ensures width { IfOk result (λ r. r.width ≡ self.now.width) }
        ensures domain { IfOk result (λ r. r.domain ≡ self.now.domain) }
        ensures reached { IfOk result (λ r. AreReached (Members op.now self.now) places.now r.rows) }
    {
        let rows = self.rows();
        let found = Table::of_rows(alloc, op, rows)?.reach(alloc, op, places)?;
        rows_of(alloc, rows.domain(), rows.width(), found.as_slice())
    }
}
