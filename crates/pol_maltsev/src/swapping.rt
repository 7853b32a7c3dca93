ghost use Rattle.std.specs.Prelude.{◌≡◌, ◌≢◌, ◌↔◌, ℕ, ◌<◌, ◌≤◌, ◌+◌, length, slice_index, IsTrue, IfOk, OnOk, OnErr};
ghost use Rattle.pol_base.specs.Tuples.{IsTuple};
ghost use Rattle.pol_optable.specs.Tables.{IsOpTable};
ghost use Rattle.pol_maltsev.specs.Orders.{IsSwapped};
ghost use Rattle.pol_maltsev.specs.Tables.{IsLeastOf, SameRoot};
ghost use Rattle.pol_maltsev.specs.Swaps.{StayTogether, LeadsTo, led, IsLateAt, IsEarlyAt, IsLed, IsWay};
ghost use Rattle.pol_maltsev.specs.Views.{AreClasses, AreMade, IsMade, IsSoundTable, IsTableView, IsReplaced, HaveOneShape, HaveOneSet, root_in, sides_at};

use crate::classes::ValueClasses;
use crate::row::Row;
use crate::table::Table;
use pol_base::NoMemory;
use pol_optable::OpTable;
use std::alloc::Global;

impl Table {
    /// Whether both values of the place at position `k` stay in one class where the next place comes
    /// before it.
    fn stay_together(&self, k: u32, a: u8, b: u8) -> bool
        requires position { k + 1 < self.now.width }
        requires first { a < self.now.domain }
        requires second { b < self.now.domain }
        ensures together { IsTrue result ↔ StayTogether self.now.domain (sides_at self.now k) a b }
    {
        let x = self.place(k);
        let y = self.place(k + 1);
        if !self.same(x, a, b) {
            return false;
        }
        self.same(y, self.row(x, a)[y as usize], self.row(x, b)[y as usize])
    }

    /// The least value that stays in one class with a value of the place at position `k`.
    fn late_root(&self, k: u32, a: u8) -> u8
        requires position { k + 1 < self.now.width }
        requires value { a < self.now.domain }
        requires itself { StayTogether self.now.domain (sides_at self.now k) a a }
        ensures root { IsLeastOf self.now.domain (StayTogether self.now.domain (sides_at self.now k) a) result }
    {
        for b in 0..a {
            if self.stay_together(k, a, b) {
                return b;
            }
        }
        a
    }

    /// The value at the place at position `k + 1` that leads on from `c` where the place before it goes
    /// from `p` to `q`.
    fn led(&self, op: &OpTable<3>, k: u32, c: u8, p: u8, q: u8) -> u8
        requires domain { self.now.domain ≡ op.now.domain }
        requires position { k + 1 < self.now.width }
        requires value { c < self.now.domain }
        requires from { p < self.now.domain }
        requires to { q < self.now.domain }
        ensures led { result ≡ led op.now (sides_at self.now k) c p q }
        ensures below { result < self.now.domain }
    {
        let x = self.place(k);
        let y = self.place(k + 1) as usize;
        op.apply(&[c, self.row(x, p)[y], self.row(x, q)[y]])
    }
}

impl Table {
    /// The row and the root of a value of the place at position `k`, where the next place comes before it.
    fn late_value(
        &self,
        alloc: Global,
        op: &OpTable<3>,
        k: u32,
        a: u8,
    ) -> Result<(Row, u8), NoMemory>
        requires sound { IsSoundTable op.now self.now }
        requires position { k + 1 < self.now.width }
        requires value { a < self.now.domain }
        ensures made { IfOk result (λ m. IsMade (IsLateAt op.now self.now.width (sides_at self.now k))
            self.now.domain self.now.width a m.0 m.1) }
    {
        let x = self.place(k);
        let y = self.place(k + 1);
        let d = self.domain().size();
        let row = self.row(x, a);
        if self.root(x, a) == d {
            return Ok((Row::from_slice(alloc, row)?, d));
        }
        let root = self.late_root(k, a);
        let moved = self.step(alloc, op, y, row, self.row(x, root)[y as usize])?;
        Ok((moved, root))
    }

    /// The classes of the place at position `k`, where the next place comes before it.
    fn late(&self, alloc: Global, op: &OpTable<3>, k: u32) -> Result<ValueClasses, NoMemory>
        requires sound { IsSoundTable op.now self.now }
        requires position { k + 1 < self.now.width }
        ensures made { IfOk result (λ m. AreMade (IsLateAt op.now self.now.width (sides_at self.now k))
            self.now.domain self.now.width self.now.domain m) }
    {
        let mut made = ValueClasses::new(alloc);
        for a in 0..self.domain().size() {
            let (row, root) = self.late_value(alloc, op, k, a)?;
            made.push(row, root)?;
        }
        Ok(made)
    }
}

impl Table {
    /// The least root of a value that `c`, of the place at position `k + 1`, leads to where the place
    /// before it changes its value.
    fn early_root(&self, op: &OpTable<3>, k: u32, c: u8) -> u8
        requires sound { IsSoundTable op.now self.now }
        requires position { k + 1 < self.now.width }
        requires value { c < self.now.domain }
        requires present { (sides_at self.now k).cy c < self.now.domain }
        ensures root { IsLeastOf self.now.domain (LeadsTo op.now (sides_at self.now k) c) result }
    {
        let x = self.place(k);
        let y = self.place(k + 1);
        let p = self.row(y, c)[x as usize];
        let mut least = self.root(y, c);
        for q in 0..self.domain().size() {
            if self.same(x, p, q) {
                least = least.min(self.root(y, self.led(op, k, c, p, q)));
            }
        }
        least
    }

    /// A value to which the place at position `k` may go from the row of `b`, so that the next place
    /// comes into the class of `c`.
    fn way(&self, op: &OpTable<3>, k: u32, b: u8, c: u8) -> u8
        requires domain { self.now.domain ≡ op.now.domain }
        requires position { k + 1 < self.now.width }
        requires from { b < self.now.domain }
        requires to { c < self.now.domain }
        requires present { (sides_at self.now k).cy c < self.now.domain }
        requires leads { LeadsTo op.now (sides_at self.now k) b ((sides_at self.now k).cy c) }
        ensures way { IsWay op.now (sides_at self.now k) b c result }
    {
        let x = self.place(k);
        let y = self.place(k + 1);
        let p = self.row(y, b)[x as usize];
        for q in 0..self.domain().size() {
            if self.same(x, p, q) && self.same(y, self.led(op, k, b, p, q), c) {
                return q;
            }
        }
        // not reached: some value is such
        0
    }
}

impl Table {
    /// The row of `c` at the place at position `k + 1`, where it comes before the other: its own where its
    /// class has `b`, and else one that is made of the row of `b`.
    fn early_row(
        &self,
        alloc: Global,
        op: &OpTable<3>,
        k: u32,
        b: u8,
        c: u8,
    ) -> Result<Row, NoMemory>
        requires table { IsOpTable 3 op.now }
        requires domain { self.now.domain ≡ op.now.domain }
        requires position { k + 1 < self.now.width }
        requires from { b < self.now.domain }
        requires to { c < self.now.domain }
        requires present { (sides_at self.now k).cy c < self.now.domain }
        requires leads { LeadsTo op.now (sides_at self.now k) b ((sides_at self.now k).cy c) }
        ensures tuple { IfOk result (IsTuple self.now.domain self.now.width) }
        ensures kept { SameRoot self.now.domain (sides_at self.now k).cy b c
            → IfOk result (λ r. r ≡ (sides_at self.now k).ry c) }
        ensures moved { ¬ SameRoot self.now.domain (sides_at self.now k).cy b c
            → IfOk result (IsLed op.now self.now.width (sides_at self.now k) b c) }
    {
        let x = self.place(k);
        let y = self.place(k + 1);
        if self.same(y, b, c) {
            return Row::from_slice(alloc, self.row(y, c));
        }
        let row = self.row(y, b);
        let q = self.way(op, k, b, c);
        let led = Row::image(alloc, op, row, self.row(x, row[x as usize]), self.row(x, q))?;
        self.step(alloc, op, y, led.as_slice(), c)
    }

    /// The row and the root of a value of the place at position `k + 1`, where it comes before the other.
    fn early_value(
        &self,
        alloc: Global,
        op: &OpTable<3>,
        k: u32,
        c: u8,
    ) -> Result<(Row, u8), NoMemory>
        requires sound { IsSoundTable op.now self.now }
        requires position { k + 1 < self.now.width }
        requires value { c < self.now.domain }
        ensures made { IfOk result (λ m. IsMade (IsEarlyAt op.now self.now.width (sides_at self.now k))
            self.now.domain self.now.width c m.0 m.1) }
    {
        let y = self.place(k + 1);
        let d = self.domain().size();
        if self.root(y, c) == d {
            return Ok((Row::from_slice(alloc, self.row(y, c))?, d));
        }
        let root = self.early_root(op, k, c);
        let row = self.early_row(alloc, op, k, root, c)?;
        Ok((row, root))
    }

    /// The classes of the place at position `k + 1`, where it comes before the other.
    fn early(&self, alloc: Global, op: &OpTable<3>, k: u32) -> Result<ValueClasses, NoMemory>
        requires sound { IsSoundTable op.now self.now }
        requires position { k + 1 < self.now.width }
        ensures made { IfOk result (λ m. AreMade (IsEarlyAt op.now self.now.width (sides_at self.now k))
            self.now.domain self.now.width self.now.domain m) }
    {
        let mut made = ValueClasses::new(alloc);
        for c in 0..self.domain().size() {
            let (row, root) = self.early_value(alloc, op, k, c)?;
            made.push(row, root)?;
        }
        Ok(made)
    }
}

impl Table {
    #[tactic(auto, using(crate::proofs::SwapTables::replaced_view, crate::proofs::SwapTables::replaced_is))]
    /// Puts classes in the place of those at positions `k` and `k + 1`, and changes the order of both.
    fn replace(&mut self, k: u32, late: ValueClasses, early: ValueClasses)
        requires position { k + 1 < self.old.width }
        requires apart { slice_index self.old.order k ≢ slice_index self.old.order (k + 1) }
        requires late { AreClasses self.old.domain self.old.width late }
        requires early { AreClasses self.old.domain self.old.width early }
        ensures replaced { IsReplaced k late early self.old self.new }
        ensures view { IsTableView self.new }
    {
        let x = self.place(k);
        let y = self.place(k + 1);
        self.places[x as usize] = late;
        self.places[y as usize] = early;
        self.order[k as usize] = y;
        self.order[k as usize + 1] = x;
    }

    /// The same set, where the places at positions `k` and `k + 1` change their order.
    pub(crate) fn swap(&mut self, alloc: Global, op: &OpTable<3>, k: u32) -> Result<(), NoMemory>
        requires sound { IsSoundTable op.now self.old }
        requires position { k + 1 < self.old.width }
        ensures shape { HaveOneShape self.old self.new }
        ensures sound { IsSoundTable op.now self.new }
        ensures set { HaveOneSet op.now self.old self.new }
        ensures order { OnOk result (IsSwapped k self.old.order self.new.order) }
        ensures err { OnErr result (self.new ≡ self.old) }
    {
        let late = self.late(alloc, op, k)?;
        let early = self.early(alloc, op, k)?;
        self.replace(k, late, early);
        Ok(())
    }
}
