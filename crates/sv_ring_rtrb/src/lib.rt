//! Rings of bytes between two threads, over the queue of the crate `rtrb`: its slots hold one byte
//! each.
//!
//! The contract above this crate: a call does what the traits of `sv_ring` say, without a lock and
//! without waiting. Which bytes the other end has stored or taken is known as far as the queue tells
//! it, and how fresh that is no contract says.
#![tactic(auto)]

mod dock;
mod down;
mod host;
mod up;

pub use dock::RtrbDock;
pub use down::{RtrbDown, RtrbTarget};
pub use host::RtrbHost;
pub use up::RtrbUp;
