//! One loop over a recording: all events that are whole in what came so far, and the marks of
//! damaged places among them, go to one who gathers.
//!
//! The contract above this crate: [`Gather`] takes the entries one after another and appends what
//! it makes of each to a list, and [`drain_entries`] gives it all that a decoder has whole.
#![tactic(auto)]

mod drain;
mod gather;

pub use drain::drain_entries;
pub use gather::Gather;
