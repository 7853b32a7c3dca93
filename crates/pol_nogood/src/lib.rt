//! Nogoods, deletion logs, and the checker of logs.
#![tactic(auto)]

mod cases;
mod checking;
mod laws;
mod log;
mod nogood;
mod trimming;

pub use cases::is_case;
pub use checking::{LogFault, Why, check_log};
pub use laws::{fault_laws, log_laws};
pub use log::{Log, LogAnswer, Step};
pub use nogood::Nogood;
pub use trimming::trimmed;
