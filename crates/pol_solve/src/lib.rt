//! Sends an instance to the solver of the first class that serves its language.
#![tactic(auto)]

mod answering;
mod choosing;
mod constant;

pub use answering::{InstanceAnswer, answer};
pub use constant::solve_constant;
