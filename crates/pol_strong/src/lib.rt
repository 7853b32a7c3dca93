//! Instances over a language with a near-unanimity operation, solved by strong consistency with a log
//! of its deletions.
#![tactic(auto)]

mod closing;
mod covering;
mod masks;
mod nogoods;
mod parts;
mod scopes;
mod solving;
mod store;
mod sweeping;
mod values;

pub use solving::solve_nu;
