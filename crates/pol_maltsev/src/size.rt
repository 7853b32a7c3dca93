ghost use Rattle.std.specs.Prelude.{◌≡◌, ℕ, ◌<◌, ◌≤◌, ◌*◌, cond};
ghost use Rattle.pol_rows.specs.Signatures.{sum_below, count_pairs, count_triples};
ghost use Rattle.pol_maltsev.specs.Views.{same_in};

use crate::table::Table;

impl Table {
    /// How many values stand in the class of a value at the place.
    fn class_size(&self, i: u32, a: u8) -> u32
        requires place { i < self.now.width }
        requires value { a < self.now.domain }
        ensures count { result ≡ sum_below self.now.domain (λ b. cond (same_in self.now i a b) 1 0) }
        ensures few { result ≤ self.now.domain }
    {
        let mut count = 0;
        for b in 0..self.domain().size() {
            count += self.same(i, a, b) as u32;
        }
        count
    }

    /// How many pairs of values stand in one class at the place.
    fn pairs(&self, i: u32) -> u32
        requires place { i < self.now.width }
        ensures count { result ≡ count_pairs self.now.domain (same_in self.now i) }
        ensures few { result ≤ self.now.domain * self.now.domain }
    {
        let mut count = 0;
        for a in 0..self.domain().size() {
            count += self.class_size(i, a);
        }
        count
    }

    /// How many pairs of values stand in one class, over all places: in the natural order of the places the
    /// size of the signature.
    pub(crate) fn size(&self) -> u32
        ensures count { result ≡ count_triples self.now.width self.now.domain (same_in self.now) }
        ensures few { result ≤ self.now.width * (self.now.domain * self.now.domain) }
    {
        let mut count = 0;
        for i in 0..self.width() {
            count += self.pairs(i);
        }
        count
    }
}
