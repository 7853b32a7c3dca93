//! The least table of each class for a language.
#![tactic(auto)]

mod affine;
mod finding;

pub use finding::{classify, find_line, nothing_found};
