//! Sets of tuples that a Mal'tsev operation preserves, by compact representations, and the solver of
//! languages that such an operation preserves.
#![tactic(auto)]

mod classes;
mod compact;
mod fixing;
mod full;
mod listing;
mod meeting;
mod ordering;
mod reaching;
mod reading;
mod restricting;
mod row;
mod sampling;
mod scoping;
mod size;
mod solving;
mod swapping;
mod table;
mod walking;

pub use compact::Compact;
pub use solving::{MaltsevAnswer, solve_maltsev};
