ghost use Rattle.std.specs.Prelude.{◌≡◌, ◌<◌, ◌≤◌, ◌%◌, length, All};
ghost use Rattle.pol_relation.specs.Instances.{Fits};
ghost use Rattle.pol_modp.specs.Equations.{dot};
ghost use Rattle.pol_modp.specs.Combinations.{labels_of, weight_at, sum_at, sum_right};
ghost use Rattle.pol_modp.specs.ValidCombinations.{IsPlaced};

use crate::Combination;
use crate::arithmetic::plus_times;
use pol_relation::{Instance, Language};

/// The sum of coefficient times label of the row's value, modulo `d`.
pub fn left_side(d: u8, labels: &[u8], coefs: &[u8], row: &[u8]) -> u8
    requires positive { 1 ≤ d }
    requires within { All (λ v. v < length labels.now) row.now }
    requires as_many { length coefs.now ≤ length row.now }
    ensures side { result ≡ dot coefs.now (labels_of labels.now row.now) % d }
{
    let mut sum = 0;
    for i in 0..coefs.len() {
        sum = plus_times(d, sum, coefs[i], labels[row[i] as usize]);
    }
    sum
}

/// The coefficient of the variable `v` in the sum of the parts, modulo `d`.
pub fn sum_at(d: u8, lang: &Language, inst: &Instance, combination: &Combination, v: u32) -> u8
    requires positive { 1 ≤ d }
    requires fits { Fits lang.now inst.now }
    requires placed { All (IsPlaced lang.now inst.now) combination.now.parts }
    ensures sum { result ≡ sum_at inst.now combination.now.parts v % d }
{
    let mut sum = 0;
    for i in 0..combination.len() {
        let part = combination.part(i);
        let weight = weight_at(d, v, inst.scope(part.c), part.coefs.as_slice());
        sum = plus_times(d, sum, part.multiplier, weight);
    }
    sum
}

/// The sum of the coefficients at the places where the variable `v` stands, modulo `d`.
fn weight_at(d: u8, v: u32, scope: &[u32], coefs: &[u8]) -> u8
    requires positive { 1 ≤ d }
    requires as_many { length coefs.now ≤ length scope.now }
    ensures weight { result ≡ weight_at v scope.now coefs.now % d }
{
    let mut sum = 0;
    for i in 0..coefs.len() {
        if scope[i] == v {
            sum = plus_times(d, sum, 1, coefs[i]);
        }
    }
    sum
}

/// The right side of the sum of the parts, modulo `d`.
pub fn sum_right(d: u8, combination: &Combination) -> u8
    requires positive { 1 ≤ d }
    ensures sum { result ≡ sum_right combination.now.parts % d }
{
    let mut sum = 0;
    for i in 0..combination.len() {
        let part = combination.part(i);
        sum = plus_times(d, sum, part.multiplier, part.right);
    }
    sum
}
