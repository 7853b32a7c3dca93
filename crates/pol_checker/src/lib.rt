//! Verdicts on the items of a report.
#![tactic(auto)]

mod answers;
mod checking;
mod laws;
mod tables;
mod texts;
mod verdict;

pub use checking::check_item;
pub use laws::{acceptance_laws, verdict_laws};
pub use texts::put_verdict;
pub use verdict::{Cause, Verdict};
