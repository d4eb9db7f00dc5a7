//! How the stream of a recorder's journal reads.
//!
//! The contract above this crate is that of [`reads_as_sent`]: the stream of a legal journal with a
//! start is read to a clean end, as the packets of its stored items and as nothing else. Whether a
//! journal has a start is told by [`has_start`].
#![tactic(auto)]

mod laws;
mod start;

pub use laws::reads_as_sent;
pub use start::has_start;
