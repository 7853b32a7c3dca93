//! The commands: from the words of the command line and the bytes of the input to the bytes of the
//! output and the exit status.
#![tactic(auto)]

mod check;
mod ended;
mod laws;
mod report;
mod summary;
mod top;
mod words;

pub use ended::{Ended, ending_without_words};
pub use laws::{check_laws, report_laws, run_laws, summary_laws};
pub use top::run;
