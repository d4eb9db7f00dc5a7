//! Rings of bytes whose two ends live in threads of their own: a write offset, a read offset and
//! byte cells, all words of one table that changes in single atomic steps.
//!
//! The contract above this crate: whatever the other end does beside it, a call does what the
//! traits of `sv_ring` say, without a lock and without waiting, and what an end knows of the other
//! is what its own load of the other's offset gave.
//!
//! The layout is that of an up buffer of SEGGER RTT: the writer alone moves the write offset, the
//! reader alone moves the read offset, and the ring is empty where the two are equal.
#![tactic(auto)]

mod dock;
mod down;
mod host;
mod offset;
mod plays;
mod read_end;
mod up;
mod view;
mod whole;
mod write_end;

pub use dock::RttDock;
pub use down::{RttDown, RttTarget};
pub use host::RttHost;
pub use up::RttUp;
