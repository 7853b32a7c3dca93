//! Rows of one width, and their signatures.
#![tactic(auto)]

mod laws;
mod rows;
mod runs;
mod signature;

pub use laws::signature_laws;
pub use rows::Rows;
