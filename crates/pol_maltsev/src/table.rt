ghost use Rattle.std.specs.Prelude.{◌≡◌, ◌↔◌, ℕ, ◌<◌, ◌≤◌, length, slice_index, IsTrue, IfOk};
ghost use Rattle.pol_base.specs.Tuples.{IsTuple};
ghost use Rattle.pol_optable.specs.Tables.{IsOpTable};
ghost use Rattle.pol_maltsev.specs.Tables.{SameRoot, step};
ghost use Rattle.pol_maltsev.specs.Views.{TableView, IsTableView, row_in, root_in, same_in};

use crate::classes::ValueClasses;
use crate::row::Row;
use pol_base::{Domain, NoMemory};
use pol_optable::OpTable;
use std::alloc::Global;
use std::marker::Model;

/// A set of tuples, for an order of their places: at each place a row for each value that a member has
/// there, and which of these values stand together behind one front.
#[derive(Debug, Drop)]
pub(crate) struct Table {
    pub(crate) domain: Domain,
    pub(crate) width: u32,
    pub(crate) order: Vec<u32>,
    pub(crate) places: Vec<ValueClasses>,
}

impl Model for Table {
    ghost use Rattle.pol_maltsev.specs.Views.{TableView, IsTableView};

    ghost Value = { TableView };

    ghost view = { λ t. record {
      domain = t.domain;
      width = t.width;
      order = t.order.items;
      places = t.places.items;
    } };

    ghost invariant = { λ t. IsTableView (record {
      domain = t.domain;
      width = t.width;
      order = t.order.items;
      places = t.places.items;
    }) };
}

impl Table {
    pub(crate) fn domain(&self) -> Domain
        ensures domain { result ≡ self.now.domain }
        ensures view { IsTableView self.now }
    {
        self.domain
    }

    pub(crate) fn width(&self) -> u32
        ensures width { result ≡ self.now.width }
        ensures view { IsTableView self.now }
    {
        self.width
    }

    /// The place at a position of the order.
    pub(crate) fn place(&self, k: u32) -> u32
        requires position { k < self.now.width }
        ensures place { result ≡ slice_index self.now.order k }
        ensures below { result < self.now.width }
        ensures view { IsTableView self.now }
    {
        self.order[k as usize]
    }

    pub(crate) fn row(&self, p: u32, a: u8) -> &[u8]
        requires place { p < self.now.width }
        requires value { a < self.now.domain }
        ensures row { result.now ≡ row_in self.now p a }
        ensures tuple { IsTuple self.now.domain self.now.width result.now }
    {
        self.places[p as usize].row(a)
    }

    pub(crate) fn root(&self, p: u32, a: u8) -> u8
        requires place { p < self.now.width }
        requires value { a < self.now.domain }
        ensures root { result ≡ root_in self.now p a }
        ensures most { result ≤ self.now.domain }
    {
        self.places[p as usize].root(a)
    }

    /// Whether both values are in one class at the place.
    pub(crate) fn same(&self, p: u32, a: u8, b: u8) -> bool
        requires place { p < self.now.width }
        requires first { a < self.now.domain }
        requires second { b < self.now.domain }
        ensures same { IsTrue result ↔ SameRoot self.now.domain (root_in self.now p) a b }
        ensures test { result ≡ same_in self.now p a b }
    {
        self.places[p as usize].same(self.domain, a, b)
    }

    /// The tuple moved to the value at the place, by the rows of both values.
    pub(crate) fn step(
        &self,
        alloc: Global,
        op: &OpTable<3>,
        p: u32,
        t: &[u8],
        v: u8,
    ) -> Result<Row, NoMemory>
        requires table { IsOpTable 3 op.now }
        requires domain { self.now.domain ≡ op.now.domain }
        requires place { p < self.now.width }
        requires tuple { IsTuple self.now.domain self.now.width t.now }
        requires value { v < self.now.domain }
        ensures tuple { IfOk result (IsTuple self.now.domain self.now.width) }
        ensures step { IfOk result (λ r. r ≡ step op.now self.now.width p (row_in self.now p) t.now v) }
    {
        let from = t[p as usize];
        if from == v {
            return Row::from_slice(alloc, t);
        }
        Row::image(alloc, op, t, self.row(p, from), self.row(p, v))
    }
}
