//! Runs of a workload in threads: one for each writer, beside the host, which reads the ring without
//! a lock and analyses what it took.
//!
//! The contract above this crate is that of [`run`]: whatever the threads did, the journal is legal
//! and whole, the ring has sent and given exactly the stream of the journal, and the analyser stands
//! for it.
#![tactic(auto)]

mod host;
mod named;
mod rest;
mod threads;
mod whole;

pub use whole::run;
