//! Set functions: the fold of a semilattice operation, and the least set function that preserves a
//! language.
#![tactic(auto)]

mod broken;
mod closed;
mod folding;
mod laws;
mod least;
mod open_cells;
mod value_sets;

pub use folding::fold;
pub use laws::fold_laws;
pub use least::least_setfn;
