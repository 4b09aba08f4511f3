//! The outside: sources of bytes and sinks for them, which count their faults, and all that a program does with them.
#![tactic(auto)]

pub mod clear_sink;
pub mod clear_source;
pub mod mem_sink;
pub mod mem_source;
pub mod sink;
pub mod source;

pub use clear_sink::ClearSink;
pub use clear_source::ClearSource;
pub use mem_sink::MemSink;
pub use mem_source::MemSource;
pub use sink::{Sink, WriteFault, write_all};
pub use source::{Failed, ReadAll, Source, read_all};
