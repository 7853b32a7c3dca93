ghost use Rattle.std.specs.Prelude.{◌≡◌, ℕ, ◌+◌, ◌<◌, ◌≤◌, ◌↔◌, [], take, map, length, All, Any, IfOk, IsTrue, slice_index_or};
ghost use Rattle.pol_optable.specs.Identities.{IsLabelling, IsAffineSize};
ghost use Rattle.pol_modp.specs.Equations.{EquationView, IsEquation};
ghost use Rattle.pol_modp.specs.Nulls.{IsContradiction};
ghost use Rattle.pol_modp.specs.Combinations.{labels_of};
ghost use Rattle.pol_modp.specs.Rows.{no_equation};
ghost use Rattle.pol_affine.specs.RelationEquations.{IsPreservedBy, RowsMeetAlone};

use pol_base::{NoMemory, Values};
use pol_modp::{Equation, null_space};
use pol_relation::Relation;
use std::alloc::Global;
use std::marker::Model;

/// The equations of a relation, at most seven, each with a coefficient for each place of the relation. They
/// are numbered from 0, and what they are equations of is said at `equations_of`.
#[derive(Debug, Drop)]
pub struct Equations {
    items: Vec<Equation>,
}

impl Model for Equations {
    ghost use Rattle.std.specs.Prelude.{◌≤◌, List, length};
    ghost use Rattle.pol_modp.specs.Equations.{EquationView};

    ghost Value = { List EquationView };

    ghost view = { λ e. e.items.items };

    ghost invariant = { λ e. length e.items.items ≤ 7 };
}

impl Equations {
    /// No equations. Takes no memory.
    pub(crate) fn none(alloc: Global) -> Equations
        ensures none { result ≡ [] }
    {
        Equations {
            items: Vec::new(alloc),
        }
    }

    /// How many equations there are, at most seven.
    pub fn len(&self) -> u32
        ensures equations { result ≡ length self.now }
        ensures few { result ≤ 7 }
    {
        self.items.len() as u32
    }

    /// Whether there are no equations.
    pub fn is_empty(&self) -> bool
        ensures empty { IsTrue result ↔ (self.now ≡ []) }
    {
        self.items.is_empty()
    }

    /// The equation with the number `i`, which is to be below their number.
    pub fn get(&self, i: u32) -> &Equation
        requires known { i < length self.now }
        ensures equation { result.now ≡ slice_index_or self.now i no_equation }
    {
        &self.items[i as usize]
    }
}

/// Equations modulo d, the size of the domain, on the labels of the values of a tuple, with a coefficient
/// for each place of the relation, and numbers below d. The tuples whose labels meet them all are exactly
/// the rows. There are at most as many as places and one more; where the relation has no rows, one says
/// that 0 is equal to another number.
///
/// d is to be 2, 3 or 5, the first d labels to be the numbers below d in some order, the label of value 0
/// first, and the operation that they turn into x - y + z to preserve the relation. The other labels count
/// for nothing.
///
/// The rows are closed under the operation that the labels turn into x - y + z, so that their labels are a
/// coset of a linear subspace, and the equations span what vanishes on it. (P. Jeavons, D. Cohen and
/// M. Gyssens, Closure properties of constraints, Journal of the ACM 44, 1997.)
pub fn equations_of(alloc: Global, r: &Relation, labels: [u8; 5]) -> Result<Equations, NoMemory>
    requires size { IsAffineSize r.now.domain }
    requires labelling { IsLabelling r.now.domain (take r.now.domain labels) }
    requires preserved { IsPreservedBy (take r.now.domain labels) r.now }
    ensures equations { IfOk result (λ equations. All (IsEquation r.now.domain r.now.arity) equations) }
    ensures few { IfOk result (λ equations. length equations ≤ r.now.arity + 1) }
    ensures rows { IfOk result (λ equations. RowsMeetAlone (take r.now.domain labels) r.now equations) }
    ensures without_rows { IfOk result (λ equations.
        r.now.rows ≡ [] → Any (IsContradiction r.now.domain r.now.arity) equations) }
{
    let size = r.domain().size();
    let rows = label_rows(alloc, r, &labels[..usize::from(size)])?;
    Ok(Equations {
        items: null_space(alloc, size, r.arity(), &rows)?,
    })
}

/// The labels of the values of each row.
fn label_rows(alloc: Global, r: &Relation, labels: &[u8]) -> Result<Vec<Values>, NoMemory>
    requires labelling { IsLabelling r.now.domain labels.now }
    ensures rows { IfOk result (λ rows. rows.items ≡ map (labels_of labels.now) r.now.rows) }
{
    let mut rows = Vec::new(alloc);
    for i in 0..r.len() {
        rows.push(labels_of(alloc, labels, r.row(i))?)?;
    }
    Ok(rows)
}

/// The label of each of the values.
fn labels_of(alloc: Global, labels: &[u8], values: &[u8]) -> Result<Values, NoMemory>
    requires known { All (λ v. v < length labels.now) values.now }
    ensures labels { IfOk result (λ found. found ≡ labels_of labels.now values.now) }
{
    let mut found = Values::new(alloc);
    for value in values {
        found.push(labels[*value as usize])?;
    }
    Ok(found)
}
