//! Indicator problems: the problem over the cells of a table whose solutions are the polymorphisms of a
//! language, and the least of them that satisfies an identity.
#![tactic(auto)]

mod broken;
mod closed;
mod indicated;
mod least;
mod row_sets;
mod rules;
mod scope;

pub use indicated::problem;
pub use least::least_op;
