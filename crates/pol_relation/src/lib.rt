//! Relations, the languages that they make, and constraint instances over them.
#![tactic(auto)]

mod instance;
mod language;
mod relation;
mod solutions;

pub use instance::Instance;
pub use language::{AddFault, Language};
pub use relation::Relation;
