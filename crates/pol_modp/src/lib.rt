//! Equations modulo 2, 3 and 5, their elimination, combinations, and the checker of combinations.
#![tactic(auto)]

mod arithmetic;
mod checking;
mod combination;
mod complement;
mod elimination;
mod equation;
mod laws;
mod pivots;
mod row_steps;
mod sums;

pub use checking::{CombFault, check_combination};
pub use combination::{Combination, Part};
pub use complement::null_space;
pub use elimination::{Elim, eliminate};
pub use equation::Equation;
pub use laws::{clash_laws, fault_laws};
