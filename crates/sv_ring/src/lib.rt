//! Rings of bytes: what a writer that never waits and a reader promise each other, and a ring for
//! one thread.
//!
//! The contract above this crate: a block is stored whole or refused, it is refused exactly where
//! it is longer than the room, and a reader takes the bytes in the order in which they were stored.
//!
//! Commands of the host go the other way, in a ring of their own, and come out byte by byte in the
//! order in which they were sent.
//!
//! The rules are those of an up buffer of SEGGER RTT in the mode "no block, skip": a buffer of S
//! bytes holds at most S - 1, and a write with too little room is left out.
#![tactic(auto)]

mod dock;
mod down_reader;
mod down_writer;
mod log_dock;
mod log_ends;
mod plain_down;
mod plain_ring;
mod story;
mod up_reader;
mod up_writer;
mod wrote;

pub use dock::{Dock, Ends};
pub use down_reader::DownReader;
pub use down_writer::DownWriter;
pub use log_dock::LogDock;
pub use log_ends::{LogDown, LogHost, LogTarget, LogUp};
pub use plain_down::PlainDown;
pub use plain_ring::PlainRing;
pub use story::{Log, Story};
pub use up_reader::UpReader;
pub use up_writer::UpWriter;
pub use wrote::Wrote;
