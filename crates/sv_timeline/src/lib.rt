//! Which context each tick of a recording has, and the runs of equal ones.
//!
//! The contract above this crate: events at their times have one timeline, as the laws
//! [`timeline_once`] and [`timeline_is`] say; [`Timeline`] gives its runs as they end, and
//! [`Timeline::load`] the ticks of each context. It keeps no event.
#![tactic(auto)]

mod laws;
mod span;
mod timeline;
mod totals;

pub use laws::{runs_grow, same_for_events, ticks_stay, timeline_is, timeline_once};
pub use span::Span;
pub use timeline::Timeline;
