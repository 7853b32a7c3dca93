ghost use Rattle.std.specs.Prelude.{◌≡◌, ◌<◌, ◌+◌, ◌↔◌, ℕ, List, length, Contains, IfOk, OnOk, IfSome, IfNone};
ghost use Rattle.pol_rows.specs.Signatures.{InSignature};
ghost use Rattle.pol_maltsev.specs.Compacts.{IsCompact, Members};
ghost use Rattle.pol_maltsev.specs.FromRows.{IsLeader, IsValueOfRows};
ghost use Rattle.pol_maltsev.specs.Listings.{AreRowsOf, AreRowsBefore, HaveSameShape};
ghost use Rattle.pol_maltsev.specs.Orders.{IsNatural};
ghost use Rattle.pol_maltsev.specs.Views.{AreMade, InTable, IsMade, IsSoundTable, row_of};

use crate::classes::ValueClasses;
use crate::full::natural_order;
use crate::row::Row;
use crate::table::Table;
use pol_base::NoMemory;
use pol_optable::OpTable;
use pol_rows::Rows;
use std::alloc::Global;

impl Table {
    /// Adds the rows of the values that members have at the place.
    fn list_place(&self, p: u32, rows: &mut Rows) -> Result<(), NoMemory>
        requires place { p < self.now.width }
        requires before { AreRowsBefore self.now p 0 rows.old }
        ensures listed { OnOk result (AreRowsBefore self.now (p + 1) 0 rows.new) }
    {
        for a in 0..self.domain().size() {
            if self.same(p, a, a) {
                rows.push(self.row(p, a))?;
            }
        }
        Ok(())
    }

    /// The rows of the table: in the natural order of its places a compact representation of its set.
    pub(crate) fn to_rows(&self, alloc: Global) -> Result<Rows, NoMemory>
        ensures rows { IfOk result (AreRowsOf self.now) }
    {
        let mut rows = Rows::new(alloc, self.domain(), self.width());
        for p in 0..self.width() {
            self.list_place(p, &mut rows)?;
        }
        Ok(rows)
    }
}

/// The least value that follows the front of a row with `a` at place `i`, and the numbers of two rows that
/// agree before the place and have both values there. None exactly where no row has `a` there.
fn leader(rows: &Rows, i: u32, a: u8) -> Option<(u8, u32, u32)>
    requires place { i < rows.now.width }
    requires value { a < rows.now.domain }
    ensures leads { IfSome result (λ l. IsLeader rows.now.domain rows.now.rows i a l.0 l.1 l.2) }
    ensures none { IfNone result (¬ InSignature (Contains rows.now.rows) i a a) }
{
    for b in 0..rows.domain().size() {
        if let Some((one, other)) = rows.pair_for(i, b, a) {
            return Some((b, one, other));
        }
    }
    None
}

/// The row and the root of a value at a place, of what rows stand for: a row that they list where the value is
/// a root, and else one that is made of the row of the root. Those of the smaller values are made.
fn value_of_rows(
    alloc: Global,
    op: &OpTable<3>,
    rows: &Rows,
    i: u32,
    made: &ValueClasses,
    a: u8,
) -> Result<(Row, u8), NoMemory>
    requires compact { IsCompact op.now rows.now }
    requires place { i < rows.now.width }
    requires value { a < rows.now.domain }
    requires smaller { AreMade (IsValueOfRows op.now rows.now.width i rows.now.rows (row_of made.now))
        rows.now.domain rows.now.width a made.now }
    ensures made { IfOk result (λ m. IsMade (IsValueOfRows op.now rows.now.width i rows.now.rows (row_of made.now))
        rows.now.domain rows.now.width a m.0 m.1) }
{
    let Some((root, one, other)) = leader(rows, i, a) else {
        return Ok((Row::unit(alloc, rows.width(), i, a)?, rows.domain().size()));
    };
    if root == a {
        return Ok((Row::from_slice(alloc, rows.row(one))?, a));
    }
    let row = Row::image(alloc, op, made.row(root), rows.row(one), rows.row(other))?;
    Ok((row, root))
}

/// The classes of a place, of what rows stand for.
fn classes_of_rows(
    alloc: Global,
    op: &OpTable<3>,
    rows: &Rows,
    i: u32,
) -> Result<ValueClasses, NoMemory>
    requires compact { IsCompact op.now rows.now }
    requires place { i < rows.now.width }
    ensures made { IfOk result (λ made. AreMade (IsValueOfRows op.now rows.now.width i rows.now.rows (row_of made))
        rows.now.domain rows.now.width rows.now.domain made) }
{
    let mut made = ValueClasses::new(alloc);
    for a in 0..rows.domain().size() {
        let (row, root) = value_of_rows(alloc, op, rows, i, &made, a)?;
        made.push(row, root)?;
    }
    Ok(made)
}

impl Table {
    /// The table of what rows stand for, in the natural order of the places.
    pub(crate) fn of_rows(alloc: Global, op: &OpTable<3>, rows: &Rows) -> Result<Table, NoMemory>
        requires compact { IsCompact op.now rows.now }
        ensures shape { IfOk result (λ v. HaveSameShape v rows.now) }
        ensures sound { IfOk result (IsSoundTable op.now) }
        ensures natural { IfOk result (λ v. IsNatural v.width v.order) }
        ensures set { IfOk result (λ v. (t : List ℕ) → InTable op.now v t ↔ Members op.now rows.now t) }
    {
        let width = rows.width();
        let mut places = Vec::with_capacity(alloc, width as usize)?;
        for i in 0..width {
            places.push(classes_of_rows(alloc, op, rows, i)?)?;
        }
        Ok(Table {
            domain: rows.domain(),
            width,
            order: natural_order(alloc, width)?,
            places,
        })
    }
}
