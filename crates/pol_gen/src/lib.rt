//! Files of made instances: some with a known solution, some without one, some left to chance.
#![tactic(auto)]

mod draws;
mod kinds;
mod making;

pub use making::make;
