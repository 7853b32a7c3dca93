ghost use Rattle.std.specs.Prelude.{◌≡◌, ℕ, ◌-◌, ◌^◌, ◌<◌, length, IfOk, IfSome, IfNone};
ghost use Rattle.pol_base.specs.Tuples.{IsDomain};
ghost use Rattle.pol_optable.specs.SetFunctions.{SetFunctionView, IsSetFunction, value_of_set};

use pol_base::{Domain, NoMemory, Values};
use std::alloc::Global;
use std::marker::Model;

/// A function from the nonempty sets of values to values. The value of mask m stands in cell m - 1.
/// (V. Dalmau and J. Pearson, Closure functions and width 1 problems, CP 1999.)
#[derive(Debug, Drop)]
pub struct SetFn {
    domain: Domain,
    cells: Values,
}

impl Model for SetFn {
    ghost use Rattle.pol_base.specs.Tuples.{IsDomain};
    ghost use Rattle.pol_optable.specs.SetFunctions.{SetFunctionView, IsSetFunction};

    ghost Value = { SetFunctionView };

    ghost view = { λ g. record { domain = g.domain; cells = g.cells } };

    ghost invariant = { λ g.
        IsDomain g.domain × IsSetFunction (record { domain = g.domain; cells = g.cells }) };
}

impl SetFn {
    /// The set function with these values, in the order of the masks from 1 on. None exactly where they are
    /// those of none: where their number is not 2^d - 1, or one is no value of the domain.
    pub fn from_cells(alloc: Global, d: Domain, cells: &[u8]) -> Result<Option<SetFn>, NoMemory>
        ensures made { IfOk result (λ made. IfSome made (λ g. g ≡ record { domain = d; cells = cells.now })) }
        ensures none { IfOk result (λ made.
            IfNone made (¬ IsSetFunction (record { domain = d; cells = cells.now }))) }
    {
        let size = d.size();
        let count = (1usize << size) - 1;
        if cells.len() != count || !cells.iter().all(|value| *value < size) {
            return Ok(None);
        }
        Ok(Some(SetFn {
            domain: d,
            cells: Values::from_slice(alloc, cells)?,
        }))
    }

    /// The domain of the members of the sets and of the values.
    pub fn domain(&self) -> Domain
        ensures domain { result ≡ self.now.domain }
        ensures is_domain { IsDomain self.now.domain }
        ensures set_function { IsSetFunction self.now }
    {
        self.domain
    }

    /// The 2^d - 1 values in the order of the masks, from mask 1 on.
    pub fn cells(&self) -> &[u8]
        ensures cells { result.now ≡ self.now.cells }
        ensures set_function { IsSetFunction self.now }
    {
        self.cells.as_slice()
    }

    /// The value of the set with the mask, which is not to be empty and to have values of the domain alone.
    pub fn apply(&self, mask: u8) -> u8
        requires some { 0 < mask }
        requires within { mask < 2 ^ self.now.domain }
        ensures value { result ≡ value_of_set self.now mask }
        ensures below { result < self.now.domain }
    {
        self.cells.as_slice()[usize::from(mask) - 1]
    }

    /// An equal set function, in memory of its own.
    pub fn copy(&self) -> Result<SetFn, NoMemory>
        ensures ok { IfOk result (λ g. g ≡ self.now) }
    {
        Ok(SetFn {
            domain: self.domain,
            cells: self.cells.copy()?,
        })
    }
}
