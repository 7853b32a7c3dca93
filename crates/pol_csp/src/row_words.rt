ghost use Rattle.std.specs.Prelude.{◌≡◌, ◌<◌, ◌≤◌, length, All, Contains, IfOk};
ghost use Rattle.std.specs.Bool.{OnTrue, OnFalse};
ghost use Rattle.pol_base.specs.Masks.{AreMasks};
ghost use Rattle.pol_relation.specs.Instances.{read_at};
ghost use Rattle.pol_csp.specs.Narrowing.{Narrows, Rejects};
ghost use Rattle.pol_csp.specs.Words.{IsReadBy};

use crate::values::{is_open, meet};
use crate::words::{alive, equals_of, values_at, withs_of};
use pol_base::NoMemory;
use pol_relation::Relation;
use std::alloc::Global;
use std::marker::Model;

/// A relation of at most 128 rows, with sets of its rows as words.
#[derive(Drop)]
pub(crate) struct RowWords<'a> {
    relation: &'a Relation,
    withs: Vec<u128>,
    equals: Vec<u128>,
}

impl<'a> Model for RowWords<'a> {
    ghost use Rattle.pol_relation.specs.Relations.{RelationView};
    ghost use Rattle.pol_csp.specs.Words.{AreWords};

    ghost Value = { RelationView };

    ghost view = { λ w. w.relation.now };

    ghost invariant = { λ w. AreWords w.relation.now.rows w.relation.now.arity w.withs.items w.equals.items };
}

impl<'a> RowWords<'a> {
    pub(crate) fn new(alloc: Global, relation: &'a Relation) -> Result<RowWords<'a>, NoMemory>
        requires few { length relation.now.rows ≤ 128 }
        ensures same { IfOk result (λ words. words ≡ relation.now) }
    {
        Ok(RowWords {
            relation,
            withs: withs_of(alloc, relation)?,
            equals: equals_of(alloc, relation)?,
        })
    }

    /// Keeps of a cell's mask the values that rows of a word read at the place.
    fn keep(&self, place: usize, word: u128, cell: usize, masks: &mut [u8]) -> bool
        requires place { place < self.now.arity }
        requires cell { cell < length masks.old }
        requires masks { AreMasks 5 masks.old }
        ensures narrows { OnTrue result (Narrows (IsReadBy self.now.rows word place cell) masks.old masks.new) }
        ensures wiped { OnFalse result (Rejects (IsReadBy self.now.rows word place cell) masks.old) }
    {
        if !is_open(masks[cell]) {
            return true;
        }
        let found = values_at(self.relation, &self.withs, place, word);
        meet(masks, cell, found)
    }

    /// Drops the values that no row within the masks supports.
    pub(crate) fn revise(&self, scope: &[u32], masks: &mut [u8]) -> bool
        requires long { length scope.now ≡ self.now.arity }
        requires cells { All (λ c. c < length masks.old) scope.now }
        requires masks { AreMasks 5 masks.old }
        ensures narrows { OnTrue result
            (Narrows (λ xs. Contains self.now.rows (read_at xs scope.now)) masks.old masks.new) }
        ensures wiped { OnFalse result (Rejects (λ xs. Contains self.now.rows (read_at xs scope.now)) masks.old) }
    {
        let _arity = self.relation.arity();
        let word = alive(self.relation, &self.withs, &self.equals, scope, masks);
        if word == 0 {
            return false;
        }
        for place in 0..scope.len() {
            if !self.keep(place, word, scope[place] as usize, masks) {
                return false;
            }
        }
        true
    }
}
