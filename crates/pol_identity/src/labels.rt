ghost use Rattle.std.specs.Prelude.{◌≡◌, ◌-◌, ◌^◌, ◌<◌, ◌↔◌, length, take, drop, replicate, option_map, IsTrue, IfSome};
ghost use Rattle.pol_base.specs.Tuples.{IsTuple, digits_of};
ghost use Rattle.pol_base.specs.Least.{AnswersLeast};
ghost use Rattle.pol_optable.specs.Identities.{IsLabelling, IsAffineSize, IsAffineBy, affine_sum};
ghost use Rattle.pol_identity.specs.Labels.{IsChoice, IsAffineLabelling};

use pol_base::{Domain, digit};
use pol_optable::OpTable;

/// Whether affine operations are sought on the domain: whether its size is 2, 3 or 5.
pub(crate) fn is_affine_size(d: Domain) -> bool
    ensures size { IsTrue result ↔ IsAffineSize d }
{
    let size = d.size();
    size == 2 || size == 3 || size == 5
}

/// Whether the labels are the numbers below d in some order.
fn is_labelling(d: Domain, labels: &[u8]) -> bool
    requires long { length labels.now ≡ d }
    ensures labelling { IsTrue result ↔ IsLabelling d labels.now }
{
    let size = d.size();
    for y in 0..size {
        if labels[y as usize] >= size {
            return false;
        }
        for x in 0..y {
            if labels[x as usize] == labels[y as usize] {
                return false;
            }
        }
    }
    true
}

/// Whether the labels are a labelling of a domain on which affine operations are sought.
pub(crate) fn is_choice(d: Domain, labels: &[u8]) -> bool
    requires long { length labels.now ≡ d }
    ensures choice { IsTrue result ↔ IsChoice d labels.now }
{
    is_affine_size(d) && is_labelling(d, labels)
}

/// x - y + z modulo d.
pub(crate) fn affine_sum(d: Domain, x: u8, y: u8, z: u8) -> u8
    requires x { x < d }
    requires y { y < d }
    requires z { z < d }
    ensures sum { result ≡ affine_sum d x y z }
    ensures below { result < d }
{
    let size = d.size();
    (x + (size - y) + z) % size
}

/// Whether the labels turn the operation into x - y + z modulo d.
pub(crate) fn is_affine_by(t: &OpTable<3>, labels: &[u8]) -> bool
    requires labels { IsTuple t.now.domain t.now.domain labels.now }
    ensures affine { IsTrue result ↔ IsAffineBy labels.now t.now }
{
    let d = t.domain();
    for x in 0..d.size() {
        for y in 0..d.size() {
            for z in 0..d.size() {
                let sum = affine_sum(
                    d,
                    labels[x as usize],
                    labels[y as usize],
                    labels[z as usize],
                );
                if labels[t.apply(&[x, y, z]) as usize] != sum {
                    return false;
                }
            }
        }
    }
    true
}

/// Whether the first d labels are a labelling that turns the operation into x - y + z modulo d.
fn is_affine_labelling(t: &OpTable<3>, labels: &[u8; 5]) -> bool
    ensures affine { IsTrue result ↔ IsAffineLabelling t.now (take t.now.domain labels.now) }
{
    let d = t.domain();
    let labels = &labels[..usize::from(d.size())];
    is_choice(d, labels) && is_affine_by(t, labels)
}

/// The number d^d of lists of a label for each value, each label a number below d.
pub fn label_lists(d: Domain) -> u32
    ensures count { result ≡ d ^ d }
{
    let size = u32::from(d.size());
    size.pow(size)
}

/// The list with a number below d^d, in lexicographic order: the label of value v at place v, and zeros from
/// place d on. Not each list is a labelling: labels may repeat.
pub fn label_list(d: Domain, number: u32) -> [u8; 5]
    requires known { number < d ^ d }
    ensures labels { take d result ≡ digits_of d d number }
    ensures zeros { drop d result ≡ replicate (5 - d) 0 }
{
    let size = u32::from(d.size());
    let mut labels = [0; 5];
    for place in 0..size {
        labels[place as usize] = digit(d, size, number, place);
    }
    labels
}

/// The least labelling, in lexicographic order, that turns the operation into x - y + z modulo d: the label
/// of value v at place v, and zeros from place d on. None exactly where there is none, as where d is not 2, 3
/// or 5.
pub fn affine_labels(t: &OpTable<3>) -> Option<[u8; 5]>
    ensures least { AnswersLeast (IsAffineLabelling t.now) (option_map (λ labels. take t.now.domain labels) result) }
    ensures zeros { IfSome result (λ labels. drop t.now.domain labels ≡ replicate (5 - t.now.domain) 0) }
{
    let d = t.domain();
    for number in 0..label_lists(d) {
        let labels = label_list(d, number);
        if is_affine_labelling(t, &labels) {
            return Some(labels);
        }
    }
    None
}
