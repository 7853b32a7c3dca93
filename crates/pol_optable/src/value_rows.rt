ghost use Rattle.std.specs.Prelude.{◌≡◌, ◌↔◌, ◌⊎◌, ℕ, ◌+◌, ◌-◌, ◌*◌, ◌/◌, ◌%◌, ◌^◌, ◌<◌, ◌≤◌, List, ◌++◌, length};
ghost use Rattle.std.specs.Prelude.{take, All, IfOk, IsTrue, IsBitSet, slice_index};
ghost use Rattle.std.specs.Bool.{OnTrue, OnFalse};
ghost use Rattle.pol_base.specs.Masks.{IsMask};
ghost use Rattle.pol_base.specs.Tuples.{IsTuple};
ghost use Rattle.pol_relation.specs.Relations.{RelationView, IsRelation};
ghost use Rattle.pol_optable.specs.ValueWords.{word_count, AreValueWords, HasNumber, HasValue, HasValueOf};
ghost use Rattle.pol_optable.specs.ValueWords.{IsReadIn, IsReadAt, AreAllRead, AreChosen};
ghost use Rattle.pol_optable.specs.SetBreaks.{IsProjection};

use pol_base::{NoMemory, has_value, value_mask};
use pol_relation::Relation;
use std::alloc::Global;
use std::marker::Model;

/// The rows of a relation by the values that they have at each place, as words of 128 bits, a bit for each
/// row. Seen in contracts as the relation.
#[derive(Drop)]
pub struct ValueRows<'a> {
    relation: &'a Relation,
    words: &'a [u128],
}

impl<'a> Model for ValueRows<'a> {
    ghost use Rattle.pol_relation.specs.Relations.{RelationView};
    ghost use Rattle.pol_optable.specs.ValueWords.{AreValueWords};

    ghost Value = { RelationView };

    ghost view = { λ s. s.relation.now };

    ghost invariant = { λ s. AreValueWords s.relation.now s.words.now };
}

impl<'a> ValueRows<'a> {
    /// The rows by their values, written into room where no bit is set.
    pub(crate) fn in_room(relation: &'a Relation, words: &'a mut [u128]) -> ValueRows<'a>
        requires room { word_count relation.now * 30 ≤ length words.old }
        requires blank { All (λ word. word ≡ 0) words.old }
        ensures same { result ≡ relation.now }
    {
        mark_values(relation, words);
        ValueRows { relation, words }
    }

    /// The relation whose rows these are.
    pub fn relation(&self) -> &Relation
        ensures same { result.now ≡ self.now }
        ensures relation { IsRelation self.now }
    {
        // for its clause that the rows are tuples
        let _domain = self.relation.domain();
        self.relation
    }

    /// How many words have a bit for each row.
    pub(crate) fn word_count(&self) -> usize
        ensures count { result ≡ word_count self.now }
        ensures few { result ≤ 123 }
    {
        count_words(self.relation)
    }

    /// Of the rows of one word, those that have the value at the place.
    fn word(&self, i: usize, place: usize, value: u8) -> u128
        requires word { i < word_count self.now }
        requires place { place < self.now.arity }
        requires value { value < 5 }
        ensures rows { (row : ℕ) → row / 128 ≡ i → IsBitSet result (row % 128) ↔ HasValue self.now place value row }
    {
        // for its clause that there are at most six places
        let _arity = self.relation.arity();
        self.words[i * 30 + place * 5 + value as usize]
    }

    /// Of the rows of one word, those that have a value of the mask at the place.
    fn word_within(&self, i: usize, place: usize, mask: u8) -> u128
        requires word { i < word_count self.now }
        requires place { place < self.now.arity }
        ensures rows { (row : ℕ) → row / 128 ≡ i → IsBitSet result (row % 128)
            ↔ HasValueOf self.now place mask row }
    {
        // for its clause that the rows are tuples
        let _domain = self.relation.domain();
        let mut word = 0u128;
        for value in 0..5 {
            if has_value(mask, value) {
                word |= self.word(i, place, value);
            }
        }
        word
    }

    /// Writes the words that have all rows.
    pub(crate) fn put_all(&self, to: &mut [u128])
        requires counted { length to.old ≡ word_count self.now }
        ensures rows { (row : ℕ) → HasNumber to.new row ↔ (row < length self.now.rows) }
    {
        // for its clause that there is a place
        let _arity = self.relation.arity();
        for i in 0..to.len() {
            to[i] = self.word_within(i, 0, 31);
        }
    }

    /// Writes the words that have, of the rows of others, those with the value at the place.
    pub(crate) fn keep(&self, place: usize, value: u8, from: &[u128], to: &mut [u128])
        requires place { place < self.now.arity }
        requires value { value < 5 }
        requires from { length from.now ≡ word_count self.now }
        requires to { length to.old ≡ word_count self.now }
        ensures rows { (row : ℕ) → HasNumber to.new row
            ↔ (HasNumber from.now row × HasValue self.now place value row) }
    {
        for i in 0..from.len() {
            to[i] = from[i] & self.word(i, place, value);
        }
    }

    /// Writes the words that have, of the rows of others, those with a value of the mask at the place.
    fn narrow(&self, place: usize, mask: u8, from: &[u128], to: &mut [u128])
        requires place { place < self.now.arity }
        requires from { length from.now ≡ word_count self.now }
        requires to { length to.old ≡ word_count self.now }
        ensures rows { (row : ℕ) → HasNumber to.new row
            ↔ (HasNumber from.now row × HasValueOf self.now place mask row) }
    {
        for i in 0..from.len() {
            to[i] = from[i] & self.word_within(i, place, mask);
        }
    }

    /// Whether a row of the words has the value at the place.
    pub(crate) fn reads(&self, words: &[u128], place: usize, value: u8) -> bool
        requires words { length words.now ≡ word_count self.now }
        requires place { place < self.now.arity }
        requires value { value < 5 }
        ensures reads { IsTrue result ↔ IsReadAt self.now words.now place value }
    {
        for i in 0..words.len() {
            if words[i] & self.word(i, place, value) != 0 {
                return true;
            }
        }
        false
    }

    /// The mask of the values that the rows of one of the words have at the place.
    fn values_in(&self, i: usize, word: u128, place: usize) -> u8
        requires word { i < word_count self.now }
        requires place { place < self.now.arity }
        ensures values { (value : ℕ) → IsBitSet result value ↔ IsReadIn self.now i word place value }
    {
        // for its clause that the rows are tuples
        let _domain = self.relation.domain();
        let mut found = 0u8;
        for value in 0..5 {
            if word & self.word(i, place, value) != 0 {
                found |= value_mask(value);
            }
        }
        found
    }

    /// The mask of the values that the rows of the words have at the place.
    pub(crate) fn values_at(&self, words: &[u128], place: usize) -> u8
        requires words { length words.now ≡ word_count self.now }
        requires place { place < self.now.arity }
        ensures values { (value : ℕ) → IsBitSet result value ↔ IsReadAt self.now words.now place value }
    {
        let mut found = 0u8;
        for i in 0..words.len() {
            found |= self.values_in(i, words[i], place);
        }
        found
    }

    /// Whether rows of the words have each value of the masks, one mask a place.
    fn read_all(&self, words: &[u128], masks: &[u8]) -> bool
        requires words { length words.now ≡ word_count self.now }
        requires places { length masks.now ≤ self.now.arity }
        ensures all { IsTrue result ↔ AreAllRead self.now words.now masks.now }
    {
        for place in 0..masks.len() {
            if !lies_in(masks[place], self.values_at(words, place)) {
                return false;
            }
        }
        true
    }

    /// Goes on from the rows in chosen masks to those in one mask more, the last. False where no list of rows
    /// has these masks and any behind them. The values are those that the rows have at the last place.
    pub(crate) fn choose(&self, masks: &[u8], values: u8, from: &[u128], to: &mut [u128]) -> bool
        requires some { 1 ≤ length masks.now }
        requires places { length masks.now ≤ self.now.arity }
        requires mask { IsMask self.now.domain (slice_index masks.now (length masks.now - 1)) }
        requires chosen { AreChosen self.now (take (length masks.now - 1) masks.now) from.now }
        requires values { (value : ℕ) → IsBitSet values value
            ↔ IsReadAt self.now from.now (length masks.now - 1) value }
        requires to { length to.old ≡ word_count self.now }
        ensures chosen { OnTrue result (AreChosen self.now masks.now to.new) }
        ensures none { OnFalse result ((behind : List ℕ) → ¬ IsProjection self.now (masks.now ++ behind)) }
    {
        let place = masks.len() - 1;
        let mask = masks[place];
        if !lies_in(mask, values) {
            return false;
        }
        self.narrow(place, mask, from, to);
        self.read_all(to, &masks[..place])
    }
}

/// What a `ValueRows` reads, made once for a relation: memory for 30 words of 128 bits, one for each of 6
/// places and 5 values, for each 128 rows. Seen in contracts as the relation.
#[derive(Drop)]
pub struct ValueMarks<'a> {
    relation: &'a Relation,
    words: Vec<u128>,
}

impl<'a> Model for ValueMarks<'a> {
    ghost use Rattle.pol_relation.specs.Relations.{RelationView};
    ghost use Rattle.pol_optable.specs.ValueWords.{AreValueWords};

    ghost Value = { RelationView };

    ghost view = { λ m. m.relation.now };

    ghost invariant = { λ m. AreValueWords m.relation.now m.words.items };
}

impl<'a> ValueMarks<'a> {
    /// The rows of the relation by their values.
    pub fn new(alloc: Global, relation: &'a Relation) -> Result<ValueMarks<'a>, NoMemory>
        ensures same { IfOk result (λ marks. marks ≡ relation.now) }
    {
        let mut words = vec![in alloc; 0u128; count_words(relation) * 30]?;
        mark_values(relation, &mut words);
        Ok(ValueMarks { relation, words })
    }

    /// The rows, for as long as the words stand.
    pub fn rows(&self) -> ValueRows<'_>
        ensures same { result ≡ self.now }
    {
        ValueRows {
            relation: self.relation,
            words: &self.words,
        }
    }
}

/// How many words have a bit for each row.
fn count_words(relation: &Relation) -> usize
    ensures count { result ≡ word_count relation.now }
    ensures few { result ≤ 123 }
{
    (relation.len() as usize + 127) / 128
}

/// Whether each value of the mask is one of the others.
fn lies_in(mask: u8, others: u8) -> bool
    ensures within { IsTrue result ↔ ((value : ℕ) → IsBitSet mask value → IsBitSet others value) }
{
    mask | others == others
}

/// Writes the rows into room where no bit is set.
fn mark_values(relation: &Relation, words: &mut [u128])
    requires room { word_count relation.now * 30 ≤ length words.old }
    requires blank { All (λ word. word ≡ 0) words.old }
    ensures words { AreValueWords relation.now words.new }
{
    for i in 0..relation.len() {
        mark_row(i as usize, relation.row(i), words);
    }
}

/// Sets the bit of a row in the word of each of its values.
fn mark_row(i: usize, row: &[u8], words: &mut [u128])
    requires tuple { IsTuple 5 (length row.now) row.now }
    requires short { length row.now ≤ 6 }
    requires room { i / 128 * 30 + 30 ≤ length words.old }
    ensures long { length words.new ≡ length words.old }
    ensures marked { (place value k : ℕ) → place < length row.now → value < 5
        → IsBitSet (slice_index words.new (k / 128 * 30 + place * 5 + value)) (k % 128)
        ↔ (IsBitSet (slice_index words.old (k / 128 * 30 + place * 5 + value)) (k % 128)
        ⊎ ((k ≡ i) × (slice_index row.now place ≡ value))) }
{
    for place in 0..row.len() {
        words[i / 128 * 30 + place * 5 + row[place] as usize] |= row_bit(i);
    }
}

/// The bit of a row in its word.
fn row_bit(i: usize) -> u128
    ensures bit { result ≡ 2 ^ (i % 128) }
{
    1 << (i % 128)
}
