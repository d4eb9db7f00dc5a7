//! Sources of bytes by name and sinks for bytes, with their fakes in memory and their adapters over
//! files and standard streams; and gates, by which tests hold threads.
//!
//! The contract above this crate: a call answers [`Failed`] only where its object's count of faults
//! rose, and on every other answer it says exactly which bytes moved, where they are known.
#![tactic(auto)]

mod copies;
mod failed;
mod file_source;
mod gate;
mod mem_sink;
mod mem_source;
mod out_sink;
mod sink;
mod source;

pub use copies::{ReadAll, fill, put_all, read_all};
pub use failed::Failed;
pub use file_source::FileSource;
pub use gate::{Gate, OpenGate};
pub use mem_sink::MemSink;
pub use mem_source::MemSource;
pub use out_sink::{OutSink, Stream};
pub use sink::Sink;
pub use source::Source;

#[cfg(test)]
mod tests;
