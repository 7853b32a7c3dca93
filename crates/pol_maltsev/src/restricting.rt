ghost use Rattle.std.specs.Prelude.{◌≡◌, ℕ, ◌<◌, ◌≤◌, List, length, slice_index, All, IsTrue, ◌↔◌, IfOk, IfSome, IfNone};
ghost use Rattle.pol_base.specs.Tuples.{IsTuple};
ghost use Rattle.pol_maltsev.specs.Representations.{IsPreserved};
ghost use Rattle.pol_maltsev.specs.Orders.{InFront};
ghost use Rattle.pol_maltsev.specs.Tables.{Agree};
ghost use Rattle.pol_maltsev.specs.Restrictions.{HasListed, SharesBase, IsFirstWith, IsSharer, IsJoinedTo, IsEarlyClass, IsRestricted, first_row};
ghost use Rattle.pol_maltsev.specs.Samples.{Restriction, IsRestriction, AreRestricted, AreRestrictedBefore};
ghost use Rattle.pol_maltsev.specs.Views.{AreMade, HaveOneShape, InTable, IsMade, IsSoundTable};

use crate::classes::ValueClasses;
use crate::row::Row;
use crate::table::Table;
use pol_base::NoMemory;
use pol_optable::OpTable;
use std::alloc::Global;

/// The number of the first row that has the value at the place.
fn first_with(rows: &[Row], j: u32, b: u8) -> Option<usize>
    requires place { All (λ row. j < length row) rows.now }
    ensures first { IfSome result (IsFirstWith rows.now j b) }
    ensures none { IfNone result (¬ HasListed rows.now j b) }
{
    for (i, row) in rows.iter().enumerate() {
        if row.as_slice()[j as usize] == b {
            return Some(i);
        }
    }
    None
}

impl Table {
    /// Whether both tuples agree at the first `k` places of the order.
    fn agrees(&self, k: u32, one: &[u8], other: &[u8]) -> bool
        requires position { k ≤ self.now.width }
        requires one { length one.now ≡ self.now.width }
        requires other { length other.now ≡ self.now.width }
        ensures agrees { IsTrue result ↔ Agree (InFront self.now.order k) one.now other.now }
    {
        for e in 0..k {
            let p = self.place(e) as usize;
            if one[p] != other[p] {
                return false;
            }
        }
        true
    }

    /// The number of a row that has the value at the place, and agrees with the base at the first `k` places
    /// of the order.
    fn sharer(&self, rows: &[Row], k: u32, j: u32, c: u8, base: &[u8]) -> Option<usize>
        requires position { k ≤ self.now.width }
        requires place { j < self.now.width }
        requires rows { All (λ row. length row ≡ self.now.width) rows.now }
        requires base { length base.now ≡ self.now.width }
        ensures shares { IfSome result (IsSharer rows.now (InFront self.now.order k) j c base.now) }
        ensures none { IfNone result ((i : ℕ) → ¬ IsSharer rows.now (InFront self.now.order k) j c base.now i) }
    {
        for (i, row) in rows.iter().enumerate() {
            let row = row.as_slice();
            if row[j as usize] == c && self.agrees(k, row, base) {
                return Some(i);
            }
        }
        None
    }

    /// The number of a row that has `c` at the place at position `k` of the order, and agrees before it with
    /// the first row that has `b` there.
    fn joined_to(&self, rows: &[Row], k: u32, b: u8, c: u8) -> Option<usize>
        requires position { k < self.now.width }
        requires rows { All (IsTuple self.now.domain self.now.width) rows.now }
        ensures joined { IfSome result
            (IsJoinedTo rows.now (InFront self.now.order k) (slice_index self.now.order k) b c) }
        ensures none { IfNone result (¬ SharesBase rows.now (InFront self.now.order k)
            (slice_index self.now.order k) (first_row rows.now (slice_index self.now.order k)) c b) }
    {
        let j = self.place(k);
        match first_with(rows, j, b) {
            Some(base) => self.sharer(rows, k, j, c, rows[base].as_slice()),
            None => None,
        }
    }

    /// After a restriction to what the rows begin with: the row and the root of a value of the place at
    /// position `k` of the order.
    fn early_class(&self, alloc: Global, rows: &[Row], k: u32, c: u8) -> Result<(Row, u8), NoMemory>
        requires position { k < self.now.width }
        requires value { c < self.now.domain }
        requires rows { All (IsTuple self.now.domain self.now.width) rows.now }
        ensures made { IfOk result (λ m. IsMade (IsEarlyClass self.now.domain rows.now
            (InFront self.now.order k) (slice_index self.now.order k))
            self.now.domain self.now.width c m.0 m.1) }
    {
        let d = self.domain().size();
        for b in 0..c + 1 {
            if let Some(i) = self.joined_to(rows, k, b, c) {
                return Ok((Row::from_slice(alloc, rows[i].as_slice())?, b));
            }
        }
        Ok((Row::unit(alloc, self.width(), self.place(k), c)?, d))
    }

    /// The same for each value.
    pub(crate) fn early_classes(
        &self,
        alloc: Global,
        rows: &[Row],
        k: u32,
    ) -> Result<ValueClasses, NoMemory>
        requires position { k < self.now.width }
        requires rows { All (IsTuple self.now.domain self.now.width) rows.now }
        ensures made { IfOk result (λ m. AreMade (IsEarlyClass self.now.domain rows.now
            (InFront self.now.order k) (slice_index self.now.order k))
            self.now.domain self.now.width self.now.domain m) }
    {
        let mut made = ValueClasses::new(alloc);
        for c in 0..self.domain().size() {
            let (row, root) = self.early_class(alloc, rows, k, c)?;
            made.push(row, root)?;
        }
        Ok(made)
    }
}

/// For each of n places the classes of no value.
fn no_places(alloc: Global, n: u32) -> Result<Vec<ValueClasses>, NoMemory>
    ensures long { IfOk result (λ places. length places.items ≡ n) }
{
    let mut places = Vec::with_capacity(alloc, n as usize)?;
    for _p in 0..n {
        places.push(ValueClasses::new(alloc))?;
    }
    Ok(places)
}

impl Table {
    /// After a restriction: the classes of the place at position `k`, by those of the places before it.
    fn restricted_classes(
        &self,
        alloc: Global,
        op: &OpTable<3>,
        q: u32,
        found: &[Row],
        k: u32,
        places: &[ValueClasses],
    ) -> Result<ValueClasses, NoMemory>
        ghost kept: { Restriction }
        requires restriction { IsRestriction op.now self.now kept }
        requires rows { kept.rows ≡ found.now }
        requires first { kept.first ≡ q }
        requires position { k < self.now.width }
        requires before { AreRestrictedBefore op.now self.now kept k places.now }
        ensures restricted { IfOk result (AreRestricted op.now self.now kept k places.now) }
    {
        if k < q {
            self.early_classes(alloc, found, k)
        } else {
            self.late_classes(alloc, op, k, places)
        }
    }

    /// The members that agree with one of the given ones at the first `q` places of the order.
    pub(crate) fn restrict(
        &self,
        alloc: Global,
        op: &OpTable<3>,
        q: u32,
        found: &[Row],
    ) -> Result<Table, NoMemory>
        requires sound { IsSoundTable op.now self.now }
        requires some { 1 ≤ q }
        requires few { q ≤ self.now.width }
        requires inside { All (InTable op.now self.now) found.now }
        requires kept { IsPreserved op.now self.now.width
            (IsRestricted (InTable op.now self.now) found.now self.now.order q) }
        ensures shape { IfOk result (λ t. HaveOneShape self.now t) }
        ensures order { IfOk result (λ t. t.order ≡ self.now.order) }
        ensures sound { IfOk result (IsSoundTable op.now) }
        ensures set { IfOk result (λ t. (u : List ℕ) → InTable op.now t u
            ↔ IsRestricted (InTable op.now self.now) found.now self.now.order q u) }
    {
        let mut places = no_places(alloc, self.width())?;
        for k in 0..self.width() {
            let classes = self.restricted_classes(alloc, op, q, found, k, places.as_slice())?;
            places[self.place(k) as usize] = classes;
        }
        Ok(Table {
            domain: self.domain(),
            width: self.width(),
            order: Vec::from_slice(alloc, self.order.as_slice())?,
            places,
        })
    }
}
