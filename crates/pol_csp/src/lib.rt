//! The least list of values that a problem over cells admits, with constraints that are made where a
//! list breaks them.
#![tactic(auto)]

mod conditions;
mod filter;
mod given;
mod hints;
mod index;
mod narrow;
mod pool;
mod problem;
mod queue;
mod rounds;
mod row_words;
mod search;
mod solve;
mod tied;
mod values;
mod variables;
mod words;

pub use conditions::{Conditions, Place};
pub use filter::{Filter, NoFilter};
pub use pool::Pool;
pub use problem::Problem;
pub use solve::{least, least_wanted};
