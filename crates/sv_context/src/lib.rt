//! What runs after each event: a task, an interrupt, a timer, or what is known of neither.
//!
//! The contract above this crate: [`Contexts`] stands for the events that it was given, and its
//! [`now`] is the context after them, which is told by counting enters and exits. It keeps the open
//! frames as a stack, and no event.
//!
//! [`now`]: Contexts::now
#![tactic(auto)]

mod change;
mod context;
mod contexts;

pub use context::Context;
pub use contexts::Contexts;
