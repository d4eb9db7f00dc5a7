//! The history of a recorder: its items in the order in which its lock was held.
//!
//! What stands above this crate are definitions: which journals a recorder of a workload may keep
//! (legal: each call's group whole and in order, each packet stored exactly where there was room,
//! refused packets counted in an overflow before the next that is stored), which are whole, and
//! the stream of bytes that a journal is (UM08027: packets, overflow events, time stamps).
#![tactic(auto)]

mod journal;

pub use journal::{Item, Journal, Kind, Origin, Outcome};
