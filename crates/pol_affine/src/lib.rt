//! Equations of relations that an affine operation preserves, and the solver of their instances.
#![tactic(auto)]

mod equations;
mod placing;
mod solving;

pub use equations::{Equations, equations_of};
pub use solving::{SumAnswer, solve_affine};
