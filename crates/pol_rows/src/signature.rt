ghost use Rattle.std.specs.Prelude.{◌≡◌, ℕ, ◌<◌, ◌≤◌, ◌*◌, ◌↔◌, ◌⊎◌, slice_index, Contains, IsBitSet, IsNone, IfSome};
ghost use Rattle.std.specs.Int.{bit_at};
ghost use Rattle.pol_rows.specs.RowLists.{IsLeastPair};
ghost use Rattle.pol_rows.specs.Signatures.{InSignature, IsSignatureSize, sum_below, count_pairs};
ghost use Rattle.pol_rows.specs.Counts.{in_signature};

use crate::Rows;
use crate::runs::lesser_pair;
use pol_base::{Domain, has_value};

impl Rows {
    /// The least pair of numbers of rows, by the first number and then by the second, that agree before
    /// place `i` and have `a` and `b` there; both may be one row. None exactly where the triple of `i`, `a`
    /// and `b` is not in the signature of the rows. Takes no memory. Goes once over the rows in ascending
    /// order, and compares each with the first of its run before the place. `i` is to be below the width.
    /// (Signatures: A. Bulatov and V. Dalmau, A simple algorithm for Mal'tsev constraints, SIAM Journal on
    /// Computing 36, 2006.)
    pub fn pair_for(&self, i: u32, a: u8, b: u8) -> Option<(u32, u32)>
        requires place { i < self.now.width }
        ensures least { IfSome result (λ pair. IsLeastPair self.now.rows i a b pair.0 pair.1) }
        ensures none { IsNone result ↔ ¬ InSignature (Contains self.now.rows) i a b }
    {
        let mut least = None;
        let mut rest = self.order();
        while !rest.is_empty() {
            let (run, behind) = rest.split_at(self.run_len(rest, i));
            if let Some(pair) = self.least_with_each(run, i, a, b) {
                least = Some(lesser_pair(least, pair));
            }
            rest = behind;
        }
        least
    }

    /// How many triples of a place and two values the signature of the rows has, as a set: at most n d d,
    /// for n places and d values. Takes no memory. Goes for each place once over the rows, as `pair_for`
    /// does for one: linear in the rows, at most quadratic in the places. (Signatures: as at `pair_for`.)
    pub fn signature_size(&self) -> u32
        ensures size { IsSignatureSize self.now.width self.now.domain (Contains self.now.rows) result }
        ensures few { result ≤ self.now.width * (self.now.domain * self.now.domain) }
    {
        let mut size = 0;
        for i in 0..self.width() {
            size += self.count_at(i);
        }
        size
    }

    /// How many triples of the signature are of place `i`.
    fn count_at(&self, i: u32) -> u32
        requires place { i < self.now.width }
        ensures count { result ≡ count_pairs self.now.domain (in_signature self.now.rows i) }
        ensures few { result ≤ self.now.domain * self.now.domain }
    {
        let d = self.domain();
        let followers = self.followers(i);
        let mut count = 0;
        for values in &followers[..d.size() as usize] {
            count += count_values(*values, d);
        }
        count
    }

    /// For each value, the values that follow it in the triples of the signature that are of place `i`, as a mask.
    fn followers(&self, i: u32) -> [u8; 5]
        requires place { i < self.now.width }
        ensures followers { (a b : ℕ) → a < 5
            → IsBitSet (slice_index result a) b ↔ InSignature (Contains self.now.rows) i a b }
    {
        let mut followers = [0; 5];
        let mut rest = self.order();
        while !rest.is_empty() {
            let (run, behind) = rest.split_at(self.run_len(rest, i));
            follow_each(&mut followers, self.values_at(run, i));
            rest = behind;
        }
        followers
    }
}

/// Lets each of the values follow each of them.
fn follow_each(followers: &mut [u8; 5], values: u8)
    ensures followers { (a b : ℕ) → a < 5 → IsBitSet (slice_index followers.new a) b
        ↔ (IsBitSet (slice_index followers.old a) b ⊎ (IsBitSet values a × IsBitSet values b)) }
{
    for (value, behind) in followers.iter_mut().enumerate() {
        if has_value(values, value as u8) {
            *behind |= values;
        }
    }
}

/// How many values of the domain are in the mask.
fn count_values(mask: u8, d: Domain) -> u32
    ensures count { result ≡ sum_below d (λ value. bit_at mask value) }
    ensures few { result ≤ d }
{
    let mut count = 0;
    for value in 0..d.size() {
        if has_value(mask, value) {
            count += 1;
        }
    }
    count
}
