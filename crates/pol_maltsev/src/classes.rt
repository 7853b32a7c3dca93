ghost use Rattle.std.specs.Prelude.{◌≡◌, ◌↔◌, ◌<◌, length, IsTrue, OnOk, ◌==◌, ◌&&◌, nat_lt};
ghost use Rattle.pol_maltsev.specs.Tables.{SameRoot};
ghost use Rattle.pol_maltsev.specs.Views.{no_classes, row_of, root_of, with_value};
ghost use Rattle.pol_maltsev.specs.Samples.{HasSample, set_value};

use crate::row::Row;
use pol_base::{Domain, NoMemory};
use std::alloc::Global;
use std::marker::Model;

/// What a table keeps of one place: for each value a row, and the root of the class of the value.
#[derive(Debug, Drop)]
pub(crate) struct ValueClasses {
    rows: Vec<Row>,
    roots: Vec<u8>,
}

impl Model for ValueClasses {
    ghost use Rattle.pol_maltsev.specs.Views.{ClassesView};

    ghost Value = { ClassesView };

    ghost view = { λ c. record { rows = c.rows.items; roots = c.roots.items } };
}

impl ValueClasses {
    /// Of no value. Takes no memory.
    pub(crate) fn new(alloc: Global) -> ValueClasses
        ensures empty { result ≡ no_classes }
    {
        ValueClasses {
            rows: Vec::new(alloc),
            roots: Vec::new(alloc),
        }
    }

    /// Adds what is kept for the next value.
    pub(crate) fn push(&mut self, row: Row, root: u8) -> Result<(), NoMemory>
        ensures ok { OnOk result (self.new ≡ with_value self.old row root) }
    {
        self.rows.push(row)?;
        self.roots.push(root)?;
        Ok(())
    }

    /// Puts another row and root for a value.
    pub(crate) fn set(&mut self, a: u8, row: Row, root: u8)
        requires row { a < length self.old.rows }
        requires root { a < length self.old.roots }
        ensures set { self.new ≡ set_value self.old a row root }
    {
        self.rows[a as usize] = row;
        self.roots[a as usize] = root;
    }

    pub(crate) fn row(&self, a: u8) -> &[u8]
        requires kept { a < length self.now.rows }
        ensures row { result.now ≡ row_of self.now a }
    {
        self.rows[a as usize].as_slice()
    }

    pub(crate) fn root(&self, a: u8) -> u8
        requires kept { a < length self.now.roots }
        ensures root { result ≡ root_of self.now a }
    {
        self.roots[a as usize]
    }

    /// Whether a root is known for the value.
    pub(crate) fn has(&self, d: Domain, a: u8) -> bool
        requires value { a < d }
        requires kept { a < length self.now.roots }
        ensures has { IsTrue result ↔ HasSample d self.now a }
    {
        self.root(a) < d.size()
    }

    /// Whether both values are in one class.
    pub(crate) fn same(&self, d: Domain, a: u8, b: u8) -> bool
        requires first { a < length self.now.roots }
        requires second { b < length self.now.roots }
        ensures same { IsTrue result ↔ SameRoot d (root_of self.now) a b }
        ensures test { result ≡ ((root_of self.now a == root_of self.now b) && nat_lt (root_of self.now a) d) }
    {
        let root = self.root(a);
        root == self.root(b) && root < d.size()
    }
}
