//! Where bytes come from and where they go: sources, sinks, and reading and writing a whole.
#![tactic(auto)]

mod calls;
mod end;
mod memory_sink;
mod memory_source;
mod reading;
mod sink;
mod source;
mod std_sink;
mod std_source;
mod writing;

pub use end::{Failed, ReadEnd, WriteFault};
pub use memory_sink::MemorySink;
pub use memory_source::MemorySource;
pub use reading::read_all;
pub use sink::Sink;
pub use source::Source;
pub use std_sink::StdSink;
pub use std_source::StdSource;
pub use writing::{write_all, write_each};
