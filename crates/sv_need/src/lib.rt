//! A history is within the need of its workload.
//!
//! Memory for a journal and the numbers of a ring are taken by the need, before a run. It is
//! enough, whatever the writers, the ring and the host do ([`within_need`]), and that at each point
//! of a run ([`room_ahead`], [`packet_room`]).
#![tactic(auto)]

mod need;

pub use need::{packet_room, room_ahead, ticks_ahead, within_need};
