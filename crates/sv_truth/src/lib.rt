//! What a recorder's stream names is true of all calls, also of those that were refused or ignored.
//!
//! The contract above this crate is that of [`named_truly`]: each context and each latency that a
//! report of the stream names is the one by all calls. It rests on [`segments_whole`]: between two
//! breaks every call is stored. Nothing is said of gaps, and of what the stream leaves unknown.
#![tactic(auto)]

mod laws;

pub use laws::{named_truly, segments_whole};
