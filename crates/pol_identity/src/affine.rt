ghost use Rattle.std.specs.Prelude.{◌≡◌, ◌<◌, ◌≤◌, ◌^◌, take, IfOk, IfSome, IfNone};
ghost use Rattle.pol_base.specs.Tuples.{digits_of};
ghost use Rattle.pol_optable.specs.Operations.{operation_of};
ghost use Rattle.pol_optable.specs.Tables.{IsOpTable};
ghost use Rattle.pol_optable.specs.Identities.{IsLabelling, IsAffineBy};
ghost use Rattle.pol_identity.specs.Labels.{IsChoice, IsAffineLabelling, labelled};
ghost use Rattle.pol_identity.specs.AffineRule.{AffineView, SuitsLabels, affine_rule, sum_at};
ghost use Rattle.pol_identity.specs.AffineLaws.{affine_ruled, affine_obeys};

use crate::identity::{CellRule, Identity};
use crate::labels::{affine_sum, is_affine_by, is_choice};
use pol_base::{Domain, NoMemory, digit};
use pol_optable::OpTable;
use std::alloc::Global;
use std::marker::Model;

/// An affine operation with given labels, on a domain of 2, 3 or 5 values: the label of f(x, y, z) is that of
/// x, less that of y, plus that of z, modulo d. The label of value v stands at place v.
#[derive(Debug, Drop)]
pub struct Affine {
    domain: Domain,
    labels: [u8; 5],
}

impl Model for Affine {
    ghost use Rattle.std.specs.Prelude.{take};
    ghost use Rattle.pol_identity.specs.Labels.{IsChoice};
    ghost use Rattle.pol_identity.specs.AffineRule.{AffineView};

    ghost Value = { AffineView };

    ghost view = { λ a. record { domain = a.domain; labels = take a.domain a.labels } };

    ghost invariant = { λ a. IsChoice a.domain (take a.domain a.labels) };
}

/// The value that has the label.
fn value_of(d: Domain, labels: &[u8], label: u8) -> u8
    requires labelling { IsLabelling d labels.now }
    requires label { label < d }
    ensures value { result ≡ labelled labels.now label }
{
    for value in 0..d.size() {
        if labels[value as usize] == label {
            return value;
        }
    }
    0
}

/// The value at the arguments of the cell.
fn value_in(d: Domain, labels: &[u8], cell: u32) -> u8
    requires labelling { IsLabelling d labels.now }
    requires few { d ^ 3 ≤ 4096 }
    requires known { cell < d ^ 3 }
    ensures value { result ≡ labelled labels.now (sum_at labels.now d (digits_of d 3 cell)) }
{
    let x = digit(d, 3, cell, 0);
    let y = digit(d, 3, cell, 1);
    let z = digit(d, 3, cell, 2);
    let sum = affine_sum(
        d,
        labels[x as usize],
        labels[y as usize],
        labels[z as usize],
    );
    value_of(d, labels, sum)
}

/// The value in each cell of the operation that is affine with the labels, and zeros behind them.
fn affine_cells(d: Domain, labels: &[u8]) -> [u8; 125]
    requires labelling { IsLabelling d labels.now }
    ensures table { IsOpTable 3 (operation_of d 3 (take (d ^ 3) result)) }
    ensures affine { IsAffineBy labels.now (operation_of d 3 (take (d ^ 3) result)) }
{
    let size = u32::from(d.size());
    let mut cells = [0; 125];
    for cell in 0..size * size * size {
        cells[cell as usize] = value_in(d, labels, cell);
    }
    cells
}

impl Affine {
    /// The identity of these labels, of which the first d are read. None exactly where d is not 2, 3 or 5, or
    /// they are not 0 to d - 1 in some order.
    pub fn new(d: Domain, labels: [u8; 5]) -> Option<Affine>
        ensures made { IfSome result (λ a. a ≡ record { domain = d; labels = take d labels }) }
        ensures some { IfSome result (λ a. IsChoice d (take d labels)) }
        ensures none { IfNone result (¬ IsChoice d (take d labels)) }
    {
        if is_choice(d, &labels[..usize::from(d.size())]) {
            Some(Affine { domain: d, labels })
        } else {
            None
        }
    }

    /// The label of each value.
    fn labels(&self) -> &[u8]
        ensures labels { result.now ≡ self.now.labels }
        ensures choice { IsChoice self.now.domain self.now.labels }
    {
        &self.labels[..usize::from(self.domain.size())]
    }

    /// The one operation that is affine with these labels, of d^3 cells.
    pub fn table(&self, alloc: Global) -> Result<OpTable<3>, NoMemory>
        ensures domain { IfOk result (λ t. t.domain ≡ self.now.domain) }
        ensures table { IfOk result (IsOpTable 3) }
        ensures affine { IfOk result (λ t. IsAffineLabelling t self.now.labels) }
    {
        let cells = affine_cells(self.domain, self.labels());
        let size = usize::from(self.domain.size());
        let table = OpTable::from_cells(alloc, self.domain, &cells[..size * size * size])?;
        Ok(table.unwrap())
    }
}

impl Identity<3> for Affine {
    ghost satisfies = { λ it f. IsAffineBy it.labels f };

    ghost suits = { λ it d. SuitsLabels it d };

    ghost rule_of = { λ it d cell. affine_rule it.labels d cell };

    ghost ruled = { λ it d cell some suited _. affine_ruled it.labels d cell some suited.is_labelling };

    ghost obeys = { λ it f is suited affine. affine_obeys it.labels f is suited.is_labelling affine };

    fn rule(&self, d: Domain, cell: u32) -> CellRule {
        CellRule::Value(value_in(d, self.labels(), cell))
    }

    fn fails_in(&self, _d: Domain, _masks: &[u8]) -> bool {
        false
    }

    fn holds(&self, t: &OpTable<3>) -> bool {
        is_affine_by(t, self.labels())
    }
}
