ghost use Rattle.std.specs.Prelude.{◌≡◌, ℕ, ◌<◌, ◌≤◌, [], ◌∷◌, ◌++◌, length, slice_index, OnOk, OnErr};
ghost use Rattle.pol_base.specs.Tuples.{IsTuple, cell_of};
ghost use Rattle.pol_optable.specs.Operations.{image};
ghost use Rattle.pol_rows.specs.RowLists.{RowsView, IsRows, row_of};
ghost use Rattle.pol_rows.specs.RowOrders.{AreAscending, IsOrder, IsPlaceFor};

use pol_base::{Domain, NoMemory, Values};
use pol_optable::OpTable;
use std::alloc::Global;
use std::marker::Model;

/// At most 2^20 tuples of one width, from 1 to 4,096, over one domain, in the order in which they came; one
/// may repeat. Beside them stand their numbers in ascending order of the rows, where rows that agree on
/// their first places are neighbours.
#[derive(Debug, Drop)]
pub struct Rows {
    domain: Domain,
    width: u32,
    len: u32,
    values: Values,
    order: Vec<u32>,
}

impl Model for Rows {
    ghost use Rattle.pol_rows.specs.RowLists.{RowsView, rows_in};
    ghost use Rattle.pol_rows.specs.RowOrders.{AreStored};

    ghost Value = { RowsView };

    ghost view = { λ r. rows_in r.domain r.width r.len r.values };

    ghost invariant = { λ r. AreStored r.domain r.width r.len r.values r.order.items };
}

impl Rows {
    /// No rows, of `n` values of the domain each, where `n` is to be from 1 to 4,096. Takes no memory.
    pub fn new(alloc: Global, d: Domain, n: u32) -> Rows
        requires some_places { 1 ≤ n }
        requires few_places { n ≤ 4096 }
        ensures empty { result ≡ record { domain = d; width = n; rows = [] } }
    {
        // for its clause that a domain has 1 to 5 values
        let _size = d.size();
        Rows {
            domain: d,
            width: n,
            len: 0,
            values: Values::new(alloc),
            order: Vec::new(alloc),
        }
    }

    /// Adds a row, of as many values of the domain as the width, behind the others. There are to be fewer
    /// than 2^20. Where no memory is found the rows are as they were. Compares it with about log m of m
    /// rows, and moves at most m numbers.
    pub fn push(&mut self, row: &[u8]) -> Result<(), NoMemory>
        requires tuple { IsTuple self.old.domain self.old.width row.now }
        requires room { length self.old.rows < 1048576 }
        ensures ok { OnOk result (self.new ≡ record {
          domain = self.old.domain;
          width = self.old.width;
          rows = self.old.rows ++ row.now ∷ [];
        }) }
        ensures err { OnErr result (self.new ≡ self.old) }
    {
        let place = self.place_for(&self.order, row);
        self.order.reserve(1)?;
        self.values.append(row)?;
        // there is room
        self.order.insert(place, self.len).unwrap();
        self.len += 1;
        Ok(())
    }

    /// The numbers of the rows in ascending order of the rows.
    pub(crate) fn order(&self) -> &[u32]
        ensures order { IsOrder self.now.domain self.now.rows result.now }
        ensures rows { IsRows self.now }
    {
        self.order.as_slice()
    }

    /// The place of the row among numbers of rows that ascend, behind those of equal rows.
    fn place_for(&self, numbers: &[u32], row: &[u8]) -> usize
        requires tuple { IsTuple self.now.domain self.now.width row.now }
        requires ascending { AreAscending self.now.domain self.now.rows numbers.now }
        ensures place { IsPlaceFor self.now.domain self.now.rows numbers.now row.now result }
    {
        let mut low = 0;
        let mut high = numbers.len();
        while low < high {
            let middle = low + (high - low) / 2;
            if row.cmp(self.row(numbers[middle])).is_lt() {
                high = middle;
            } else {
                low = middle + 1;
            }
        }
        low
    }

    /// The domain of the values.
    pub fn domain(&self) -> Domain
        ensures domain { result ≡ self.now.domain }
        ensures rows { IsRows self.now }
    {
        self.domain
    }

    /// How many values a row has, from 1 to 4,096.
    pub fn width(&self) -> u32
        ensures width { result ≡ self.now.width }
        ensures rows { IsRows self.now }
    {
        self.width
    }

    /// How many rows there are, at most 2^20. Equal rows count each.
    pub fn len(&self) -> u32
        ensures rows { result ≡ length self.now.rows }
        ensures few { IsRows self.now }
    {
        self.len
    }

    /// The row with the number `i`, counted from 0 in the order in which they came.
    pub fn row(&self, i: u32) -> &[u8]
        requires known { i < length self.now.rows }
        ensures row { result.now ≡ row_of self.now.rows i }
        ensures tuple { IsTuple self.now.domain self.now.width result.now }
    {
        let width = self.width as usize;
        let start = i as usize * width;
        &self.values.as_slice()[start..start + width]
    }

    /// Writes what the operation, one on the domain of the rows, makes of the rows with the numbers `i`,
    /// `j` and `k`, place by place. `out` is to be as long as a row. Takes no memory.
    pub fn apply3_into(&self, op: &OpTable<3>, i: u32, j: u32, k: u32, out: &mut [u8])
        requires domain { op.now.domain ≡ self.now.domain }
        requires first { i < length self.now.rows }
        requires second { j < length self.now.rows }
        requires third { k < length self.now.rows }
        requires room { length out.old ≡ self.now.width }
        ensures image { out.new ≡ image op.now self.now.width
            (row_of self.now.rows i ∷ row_of self.now.rows j ∷ row_of self.now.rows k ∷ []) }
    {
        let one = self.row(i);
        let two = self.row(j);
        let three = self.row(k);
        for (place, value) in out.iter_mut().enumerate() {
            *value = op.apply(&[one[place], two[place], three[place]]);
        }
    }
}
