//! The way to the outside: sources of bytes and sinks, each with a count of its faults.
#![tactic(auto)]

mod adapters;
mod faultless;
mod memory;
mod reading;
mod streams;
mod writing;

pub use adapters::{ReaderSource, WriterSink};
pub use faultless::{CalmSource, QuietSink};
pub use memory::{MemorySink, MemorySource};
pub use reading::{TakeFault, read_all};
pub use streams::{Failed, Sink, Source};
pub use writing::{WriteFault, write_all};
