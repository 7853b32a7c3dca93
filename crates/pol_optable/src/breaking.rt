ghost use Rattle.std.specs.Prelude.{◌≡◌, ℕ, ◌+◌, ◌-◌, ◌*◌, ◌/◌, ◌%◌, ◌^◌, ◌<◌, ◌≤◌, ◌⊎◌, ◌↔◌, List, length, slice_index, All, IsTrue, IsNone, IfSome, IfNone};
ghost use Rattle.pol_base.specs.Tuples.{IsTuple, cell_of};
ghost use Rattle.pol_base.specs.Least.{IsLeast, AnswersLeast};
ghost use Rattle.pol_optable.specs.Operations.{Preserves, column};
ghost use Rattle.pol_optable.specs.Breaks.{IsBroken, IsBrokenFrom, TellImages, AreImagesTuples, rows_at, with_last, values_from};

use crate::{OpTable, RowSet};
use pol_base::advance;
use pol_relation::Relation;

impl<const K: usize> OpTable<K> {
    /// Whether the operation preserves the relation, over the same domain: whether the image of every list of
    /// `K` rows, repeats allowed, is a row. (P. Jeavons, D. Cohen and M. Gyssens, Closure properties of
    /// constraints, Journal of the ACM 44, 1997.) Takes no memory.
    pub fn preserves(&self, r: &Relation) -> bool
        requires domain { self.now.domain ≡ r.now.domain }
        ensures preserves { IsTrue result ↔ Preserves self.now r.now }
    {
        // for its clause that the arguments are few
        let _table = self.domain();
        self.breaks(r).is_none()
    }

    /// The least list of `K` numbers of rows, repeats allowed, of which the operation makes no row; the
    /// relation is over the same domain. None exactly where the operation preserves the relation. Takes no
    /// memory.
    pub fn breaks(&self, r: &Relation) -> Option<[u32; K]>
        requires domain { self.now.domain ≡ r.now.domain }
        ensures least { AnswersLeast (IsBroken self.now r.now) result }
        ensures none { IsNone result ↔ Preserves self.now r.now }
    {
        // for its clause that there is an argument
        let _table = self.domain();
        if r.is_empty() {
            return None;
        }
        let count = r.len();
        let mut marks = [false; 15_625];
        let mut fronts = [0; 15_625];
        let mut backs = [0; 15_625];
        let rows = RowSet::in_room(r, &mut marks, &mut fronts, &mut backs);
        self.next_break(&rows, &[0; K], count)
    }

    /// The least list of `K` numbers of rows, from the list `from` of such on, of which the operation makes
    /// no row; the relation is over the same domain. None only where each such list begins with a row from
    /// `end` on: the look ends there. Takes no memory.
    pub fn next_break(&self, rows: &RowSet<'_>, from: &[u32; K], end: u32) -> Option<[u32; K]>
        requires domain { self.now.domain ≡ rows.now.domain }
        requires from { IsTuple (length rows.now.rows) K from.now }
        ensures least { IfSome result (IsLeast (IsBrokenFrom self.now rows.now from.now)) }
        ensures none { IfNone result
            ((numbers : List ℕ) → IsBrokenFrom self.now rows.now from.now numbers → end ≤ slice_index numbers 0) }
    {
        // for its clause that there is an argument
        let _table = self.domain();
        let count = rows.relation().len();
        let mut numbers = *from;
        let mut front_cells = [0; 125];
        let mut back_cells = [0; 125];
        'fronts: loop {
            if let Some(last) = self.break_behind(
                rows,
                &numbers,
                &mut front_cells,
                &mut back_cells,
            ) {
                numbers[K - 1] = last;
                return Some(numbers);
            }
            numbers[K - 1] = count - 1;
            if !advance(&mut numbers, count) || end <= numbers[0] {
                return None;
            }
        }
    }

    /// The least last number, from that of the list on, with which the list is broken. The arrays are room.
    fn break_behind(
        &self,
        rows: &RowSet<'_>,
        numbers: &[u32; K],
        front_cells: &mut [u32; 125],
        back_cells: &mut [u32; 125],
    ) -> Option<u32>
        requires domain { self.now.domain ≡ rows.now.domain }
        requires numbers { IsTuple (length rows.now.rows) K numbers.now }
        ensures from { IfSome result (λ last. slice_index numbers.now (K - 1) ≤ last) }
        ensures broken { IfSome result (λ last. IsBroken self.now rows.now (with_last numbers.now last)) }
        ensures first { IfSome result (λ last. (l : ℕ) → slice_index numbers.now (K - 1) ≤ l → l < last
            → ¬ IsBroken self.now rows.now (with_last numbers.now l)) }
        ensures none { IfNone result ((l : ℕ) → slice_index numbers.now (K - 1) ≤ l
            → ¬ IsBroken self.now rows.now (with_last numbers.now l)) }
    {
        // for its clause that there is an argument
        let _table = self.domain();
        let relation = rows.relation();
        self.image_cells(relation, &numbers[..K - 1], front_cells, back_cells);
        for last in numbers[K - 1]..relation.len() {
            let front_cell = front_cells[rows.front(last) as usize];
            let back_cell = back_cells[rows.back(last) as usize];
            if !rows.has_cell(front_cell + back_cell) {
                return Some(last);
            }
        }
        None
    }

    /// Makes the tables that tell, for the rows of a front, the cell of the image with each row behind them.
    fn image_cells(
        &self,
        relation: &Relation,
        front: &[u32],
        front_cells: &mut [u32; 125],
        back_cells: &mut [u32; 125],
    )
        requires domain { self.now.domain ≡ relation.now.domain }
        requires front { All (λ i. i < length relation.now.rows) front.now }
        requires long { length front.now + 1 ≡ K }
        ensures images { TellImages self.now relation.now front.now front_cells.new back_cells.new }
        ensures tuples { AreImagesTuples self.now relation.now front.now }
    {
        // for its clause that the domain has at most five values
        let _table = self.domain();
        let arity = relation.arity() as usize;
        let half = arity / 2;
        let firsts = self.first_cells(relation, front);
        let weight = self.half_cells(&firsts[half..arity], 1, back_cells);
        self.half_cells(&firsts[..half], weight, front_cells);
    }

    /// For each place, the first of the cells whose arguments begin with what the rows of the front have there.
    fn first_cells(&self, relation: &Relation, front: &[u32]) -> [u32; 6]
        requires domain { self.now.domain ≡ relation.now.domain }
        requires front { All (λ i. i < length relation.now.rows) front.now }
        requires long { length front.now + 1 ≡ K }
        ensures cells { (place : ℕ) → place < relation.now.arity → slice_index result place
            ≡ cell_of self.now.domain (column (rows_at relation.now front.now) place) * self.now.domain }
        ensures within { (place : ℕ) → place < relation.now.arity
            → slice_index result place + self.now.domain ≤ self.now.domain ^ K }
        ensures long { length result ≡ 6 }
    {
        // for its clause that there are at most six places
        let _arity = relation.arity();
        let size = u32::from(self.domain().size());
        let mut firsts = [0; 6];
        for number in front {
            read_row(&mut firsts, relation.row(*number), size);
        }
        firsts
    }

    /// For each list of values at the places of these first cells, the number that the values of the
    /// operation behind them write, times the weight of the last place. Answers the weight of the place before.
    fn half_cells(&self, firsts: &[u32], weight: u32, cells: &mut [u32; 125]) -> u32
        requires short { length firsts.now ≤ 3 }
        requires within { (place : ℕ) → place < length firsts.now
            → slice_index firsts.now place + self.now.domain ≤ self.now.domain ^ K }
        requires some { 1 ≤ weight }
        requires few { weight * self.now.domain ^ length firsts.now ≤ 15625 }
        ensures cells { (values : List ℕ) → IsTuple self.now.domain (length firsts.now) values
            → slice_index cells.new (cell_of self.now.domain values)
            ≡ cell_of self.now.domain (values_from self.now firsts.now values) * weight }
        ensures weight { result ≡ weight * self.now.domain ^ length firsts.now }
    {
        let size = u32::from(self.domain().size());
        let mut place = firsts.len();
        if place == 0 {
            cells[0] = 0;
            return weight;
        }
        place -= 1;
        self.last_cells(firsts[place], weight, cells);
        let mut count = size;
        let mut place_weight = weight * size;
        while place > 0 {
            place -= 1;
            self.lengthen(firsts[place], place_weight, count, cells);
            count *= size;
            place_weight *= size;
        }
        place_weight
    }

    /// For each value at one place, the value of the operation behind the first cell, times the weight.
    fn last_cells(&self, first: u32, weight: u32, cells: &mut [u32; 125])
        requires within { first + self.now.domain ≤ self.now.domain ^ K }
        requires some { 1 ≤ weight }
        requires few { weight * self.now.domain ≤ 15625 }
        ensures cells { (v : ℕ) → v < self.now.domain → slice_index cells.new v
            ≡ slice_index self.now.cells (first + v) * weight }
        ensures small { (v : ℕ) → v < self.now.domain → slice_index cells.new v < weight * self.now.domain }
        ensures long { length cells.new ≡ 125 }
    {
        let values = self.cells();
        for value in 0..u32::from(self.domain().size()) {
            cells[value as usize] = u32::from(values[(first + value) as usize]) * weight;
        }
    }

    /// Makes of the numbers for the lists of some places those for the lists with one place before them.
    fn lengthen(&self, first: u32, weight: u32, count: u32, cells: &mut [u32; 125])
        requires within { first + self.now.domain ≤ self.now.domain ^ K }
        requires some { 1 ≤ count }
        requires few_lists { count * self.now.domain ≤ 125 }
        requires few { weight * self.now.domain ≤ 15625 }
        requires small { (i : ℕ) → i < count → slice_index cells.old i < weight }
        ensures cells { (i : ℕ) → i < count * self.now.domain → slice_index cells.new i
            ≡ slice_index cells.old (i % count) + slice_index self.now.cells (first + i / count) * weight }
        ensures small { (i : ℕ) → i < count * self.now.domain → slice_index cells.new i < weight * self.now.domain }
    {
        let values = self.cells();
        let mut value = u32::from(self.domain().size());
        while value > 0 {
            value -= 1;
            let more = u32::from(values[(first + value) as usize]) * weight;
            put_raised(cells, value * count, count, more);
        }
    }
}

/// Goes on from the first cells behind some rows to those behind one row more.
fn read_row(firsts: &mut [u32; 6], row: &[u8], size: u32)
    requires short { length row.now ≤ 6 }
    requires fits { (place : ℕ) → place < length row.now
        → (slice_index firsts.old place + slice_index row.now place) * size < 2 ^ 32 }
    requires some { 1 ≤ size }
    ensures read { (place : ℕ) → place < length row.now
        → slice_index firsts.new place ≡ (slice_index firsts.old place + slice_index row.now place) * size }
    ensures long { length firsts.new ≡ 6 }
{
    for place in 0..row.len() {
        firsts[place] = (firsts[place] + u32::from(row[place])) * size;
    }
}

/// Puts the first numbers behind the place, each raised by the same.
fn put_raised(cells: &mut [u32; 125], at: u32, count: u32, more: u32)
    requires apart { (at ≡ 0) ⊎ (count ≤ at) }
    requires room { at + count ≤ 125 }
    requires fits { (i : ℕ) → i < count → slice_index cells.old i + more < 2 ^ 32 }
    ensures raised { (i : ℕ) → i < count → slice_index cells.new (at + i) ≡ slice_index cells.old i + more }
    ensures kept { (i : ℕ) → (i < at) ⊎ (at + count ≤ i) → slice_index cells.new i ≡ slice_index cells.old i }
    ensures long { length cells.new ≡ 125 }
{
    for i in 0..count {
        cells[(at + i) as usize] = cells[i as usize] + more;
    }
}
