//! The commands of the program: their words, what they write, and the status that they end with.
//!
//! The contract above this crate is that of [`sysview`]: of every file there are bytes, those that
//! its source tells where it tells them, and the answer of a command is the one that these bytes
//! fix, as far as devices and memory let it come. A recording's text is that of the pieces that
//! were read of it; a workload's recording is the stream of a legal journal of it in the order of a
//! simulation. The report of a run in threads is that of the stream of its journal, which is legal
//! and whole whatever the threads did. [`offline`] has the commands that never wait.
#![tactic(auto)]

mod generate;
mod make;
mod number;
mod play;
mod reading;
mod run;
mod shown;
mod simulate;
mod status;
mod top;

pub use status::{Status, say};
pub use sv_view::timeline_lines;
pub use top::{offline, sysview};
