ghost use Rattle.std.specs.Prelude.{◌≡◌, IfOk};
ghost use Rattle.pol_modp.specs.Equations.{EquationView};

use pol_base::{NoMemory, Values};
use std::alloc::Global;
use std::marker::Model;

/// A linear equation: the coefficients of the variables, and the right side that the sum of coefficient
/// times value is to be equal to. The modulus is not kept.
#[derive(Debug, Drop)]
pub struct Equation {
    coefs: Values,
    right: u8,
}

impl Model for Equation {
    ghost Value = { EquationView };

    ghost view = { λ e. record { coefs = e.coefs; right = e.right } };
}

impl Equation {
    /// The equation with these coefficients, one for each variable, which are copied, and this right side.
    /// They may be any numbers.
    pub fn new(alloc: Global, coefs: &[u8], right: u8) -> Result<Equation, NoMemory>
        ensures ok { IfOk result (λ e. e ≡ record { coefs = coefs.now; right = right }) }
    {
        Ok(Equation {
            coefs: Values::from_slice(alloc, coefs)?,
            right,
        })
    }

    /// The coefficients, one for each variable, in the order of the variables.
    pub fn coefs(&self) -> &[u8]
        ensures coefs { result.now ≡ self.now.coefs }
    {
        self.coefs.as_slice()
    }

    /// The right side, as it was given.
    pub fn right(&self) -> u8
        ensures right { result ≡ self.now.right }
    {
        self.right
    }
}
