//! Arc consistency of instances, with its log, and the solver of languages that a set function
//! preserves.
#![tactic(auto)]

mod consistency;
mod pruning;
mod supports;
mod width_one;

pub use consistency::{Consistency, arc};
pub use width_one::solve_width_one;
