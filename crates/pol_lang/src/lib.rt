//! Files: a constraint language and instances over it, read from a text and written as one.
#![tactic(auto)]

mod entries;
mod file;
mod instance_lines;
mod language_lines;
mod limits;
mod reading;
mod writing;

pub use file::{File, FileFault, Rest};
pub use reading::{nothing_more, read_file};
pub use writing::{canonical_laws, put_file};
