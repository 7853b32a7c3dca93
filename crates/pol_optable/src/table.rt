ghost use Rattle.std.specs.Prelude.{◌≡◌, ℕ, ◌<◌, All, IfOk, IfSome, IfNone};
ghost use Rattle.pol_optable.specs.Operations.{Operation, operation_of, value_at};
ghost use Rattle.pol_optable.specs.Tables.{IsOpTable};

use crate::sizes::table_size;
use pol_base::{Domain, NoMemory, Values, cell_of};
use std::alloc::Global;
use std::marker::Model;

/// An operation of `K` arguments, by its values in the order of the cells: the numbers that the arguments
/// write in base d, the first argument most significant. It has at most 4,096 cells.
#[derive(Debug, Drop)]
pub struct OpTable<const K: usize> {
    domain: Domain,
    cells: Values,
}

impl<const K: usize> Model for OpTable<K> {
    ghost use Rattle.pol_optable.specs.Operations.{Operation, operation_of};
    ghost use Rattle.pol_optable.specs.Tables.{IsOpTable};

    ghost Value = { Operation };

    ghost view = { λ t. operation_of t.domain K t.cells };

    ghost invariant = { λ t. IsOpTable K (operation_of t.domain K t.cells) };
}

impl<const K: usize> OpTable<K> {
    /// The operation with these values, in the order of the cells. None exactly where they are no table of
    /// `K` arguments: where `K` is 0, their number is not d^`K` or is above 4,096, or one is no value of the
    /// domain.
    pub fn from_cells(
        alloc: Global,
        d: Domain,
        cells: &[u8],
    ) -> Result<Option<OpTable<K>>, NoMemory>
        ensures made { IfOk result (λ made. IfSome made (λ t. t ≡ operation_of d K cells.now)) }
        ensures table { IfOk result (λ made. IfSome made (IsOpTable K)) }
        ensures none { IfOk result (λ made. IfNone made (¬ IsOpTable K (operation_of d K cells.now))) }
    {
        let size = d.size();
        if table_size(d, K) != Some(cells.len()) || !cells.iter().all(|value| *value < size) {
            return Ok(None);
        }
        Ok(Some(OpTable {
            domain: d,
            cells: Values::from_slice(alloc, cells)?,
        }))
    }

    /// The domain of the arguments and of the values.
    pub fn domain(&self) -> Domain
        ensures domain { result ≡ self.now.domain }
        ensures table { IsOpTable K self.now }
    {
        self.domain
    }

    /// The d^`K` values in the order of the cells.
    pub fn cells(&self) -> &[u8]
        ensures cells { result.now ≡ self.now.cells }
        ensures table { IsOpTable K self.now }
    {
        self.cells.as_slice()
    }

    /// The value at the arguments, which are to be values of the domain.
    pub fn apply(&self, arguments: &[u8; K]) -> u8
        requires below { All (λ v. v < self.now.domain) arguments.now }
        ensures value { result ≡ value_at self.now arguments.now }
        ensures below { result < self.now.domain }
    {
        let cell = cell_of(self.domain, arguments);
        self.cells.as_slice()[cell as usize]
    }

    /// An equal operation, in memory of its own.
    pub fn copy(&self) -> Result<OpTable<K>, NoMemory>
        ensures ok { IfOk result (λ t. t ≡ self.now) }
    {
        Ok(OpTable {
            domain: self.domain,
            cells: self.cells.copy()?,
        })
    }
}
