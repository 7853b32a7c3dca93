ghost use Rattle.std.specs.Prelude.{◌≡◌, ℕ, ◌^◌, ◌<◌, ◌≤◌, ◌/◌, ◌↔◌, [], length, take, drop, slice_index_or, Contains, IsTrue, IfOk};
ghost use Rattle.pol_base.specs.Tuples.{IsTuple, IsDomain, cell_of, digits_of};
ghost use Rattle.pol_relation.specs.Relations.{RelationView, IsRelation};
ghost use Rattle.pol_optable.specs.RowSets.{IsRoom, IsRowSet};

use pol_base::{Domain, NoMemory, cell_of, cells};
use pol_relation::Relation;
use std::alloc::Global;
use std::marker::Model;

/// A relation with its rows as a set of cells, so that a tuple is tested at one look, and with the numbers
/// that the two halves of each row write. Seen in contracts as the relation.
#[derive(Drop)]
pub struct RowSet<'a> {
    relation: &'a Relation,
    marks: &'a [bool],
    fronts: &'a [u8],
    backs: &'a [u8],
}

impl<'a> Model for RowSet<'a> {
    ghost use Rattle.pol_relation.specs.Relations.{RelationView};
    ghost use Rattle.pol_optable.specs.RowSets.{IsRowSet};

    ghost Value = { RelationView };

    ghost view = { λ s. s.relation.now };

    ghost invariant = { λ s. IsRowSet s.relation.now s.marks.now s.fronts.now s.backs.now };
}

impl<'a> RowSet<'a> {
    /// The set of the rows, written into room where no cell is marked.
    pub(crate) fn in_room(
        relation: &'a Relation,
        marks: &'a mut [bool],
        fronts: &'a mut [u8],
        backs: &'a mut [u8],
    ) -> RowSet<'a>
        requires room { IsRoom relation.now marks.old fronts.old backs.old }
        ensures same { result ≡ relation.now }
    {
        mark_rows(relation, marks, fronts, backs);
        RowSet {
            relation,
            marks,
            fronts,
            backs,
        }
    }

    /// The relation whose rows these are.
    pub fn relation(&self) -> &Relation
        ensures same { result.now ≡ self.now }
        ensures relation { IsRelation self.now }
    {
        // for its clause that the rows are tuples
        let _domain = self.relation.domain();
        self.relation
    }

    /// Whether the tuple that writes the cell in base d, its first value most significant, is a row.
    pub fn has_cell(&self, cell: u32) -> bool
        requires known { cell < self.now.domain ^ self.now.arity }
        ensures row { IsTrue result ↔ Contains self.now.rows (digits_of self.now.domain self.now.arity cell) }
    {
        // for its clause that a tuple writes each cell
        let _domain = self.relation.domain();
        self.marks[cell as usize]
    }

    /// The number that the first half of the places of a row writes, the shorter one.
    pub(crate) fn front(&self, i: u32) -> u8
        requires known { i < length self.now.rows }
        ensures front { result ≡ cell_of self.now.domain (take (self.now.arity / 2) (slice_index_or self.now.rows i [])) }
    {
        // for its clause that the rows are few
        let _count = self.relation.len();
        self.fronts[i as usize]
    }

    /// The number that the other half writes.
    pub(crate) fn back(&self, i: u32) -> u8
        requires known { i < length self.now.rows }
        ensures back { result ≡ cell_of self.now.domain (drop (self.now.arity / 2) (slice_index_or self.now.rows i [])) }
    {
        // for its clause that the rows are few
        let _count = self.relation.len();
        self.backs[i as usize]
    }
}

/// What a `RowSet` reads, made once for a relation: memory for as many marks as there are tuples of its
/// arity, and for two numbers a row. Seen in contracts as the relation.
#[derive(Drop)]
pub struct RowMarks<'a> {
    relation: &'a Relation,
    marks: Vec<bool>,
    fronts: Vec<u8>,
    backs: Vec<u8>,
}

impl<'a> Model for RowMarks<'a> {
    ghost use Rattle.pol_relation.specs.Relations.{RelationView};
    ghost use Rattle.pol_optable.specs.RowSets.{IsRowSet};

    ghost Value = { RelationView };

    ghost view = { λ m. m.relation.now };

    ghost invariant = { λ m. IsRowSet m.relation.now m.marks.items m.fronts.items m.backs.items };
}

impl<'a> RowMarks<'a> {
    /// The marks and numbers of the rows of the relation.
    pub fn new(alloc: Global, relation: &'a Relation) -> Result<RowMarks<'a>, NoMemory>
        ensures same { IfOk result (λ rows. rows ≡ relation.now) }
    {
        let count = relation.len() as usize;
        let cell_count = cells(relation.domain(), relation.arity()).unwrap();
        let mut marks = vec![in alloc; false; cell_count as usize]?;
        let mut fronts = vec![in alloc; 0u8; count]?;
        let mut backs = vec![in alloc; 0u8; count]?;
        mark_rows(relation, &mut marks, &mut fronts, &mut backs);
        Ok(RowMarks {
            relation,
            marks,
            fronts,
            backs,
        })
    }

    /// The set of the rows, for as long as the marks stand.
    pub fn set(&self) -> RowSet<'_>
        ensures same { result ≡ self.now }
    {
        RowSet {
            relation: self.relation,
            marks: &self.marks,
            fronts: &self.fronts,
            backs: &self.backs,
        }
    }
}

/// Writes the rows into room where no cell is marked.
fn mark_rows(relation: &Relation, marks: &mut [bool], fronts: &mut [u8], backs: &mut [u8])
    requires room { IsRoom relation.now marks.old fronts.old backs.old }
    ensures set { IsRowSet relation.now marks.new fronts.new backs.new }
{
    let d = relation.domain();
    let half = relation.arity() as usize / 2;
    for i in 0..relation.len() {
        let row = relation.row(i);
        marks[cell_of(d, row) as usize] = true;
        fronts[i as usize] = half_number(d, &row[..half]);
        backs[i as usize] = half_number(d, &row[half..]);
    }
}

/// The number that at most three values write.
fn half_number(d: Domain, half: &[u8]) -> u8
    requires tuple { IsTuple d (length half.now) half.now }
    requires short { length half.now ≤ 3 }
    ensures number { result ≡ cell_of d half.now }
{
    // for its clause that a domain has at most five values
    let _size = d.size();
    cell_of(d, half) as u8
}
