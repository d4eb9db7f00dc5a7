//! The target's side of the protocol: a recorder that forms packets, stores them in a ring, and
//! keeps the journal of what it did.
//!
//! The contract above this crate is what [`Recorder`] keeps: its journal is legal for the workload
//! that it plays, and the bytes that it sent are the stream of that journal. A legal journal has
//! each call's group whole and in order; each packet is stored exactly where there was room, those
//! that were refused are counted in an overflow before the next that is stored, and only a stored
//! packet moves the moment that the next delta counts from (UM08027: packets, overflow events, time
//! stamps).
#![tactic(auto)]

mod answer;
mod book;
mod inbox;
mod packet;
mod recorder;
mod replies;
mod section;

pub use answer::Answer;
pub use recorder::{Finished, Recorder};
