//! Packets of the trace protocol: which events there are, and how each is spelled.
//!
//! The contract above this crate: [`decode`] says of any bytes whether they begin with a packet,
//! end inside one, or break off at which byte and why. [`spelled_once`] is the law that there is
//! one such answer for any bytes. [`encode`] and [`encode_flat`] form what a recorder takes, as
//! [`recordable`] tells, and [`spell`] any valid event; [`spelled_as`] is the law that what they
//! form is its one spelling.
#![tactic(auto)]

mod building;
mod counted;
mod decoding;
mod encoding;
mod event;
mod event_ref;
mod flat;
mod forming;
mod laws;
mod measuring;
mod numbers_ref;
mod packing;
mod pen;
mod reader;
mod recording;
mod shape;
mod spelling;

pub use decoding::{decode, decode_ref};
pub use encoding::encode;
pub use event::{Event, Packet, TimedEvent};
pub use event_ref::{EventRef, PacketRef};
pub use flat::encode_flat;
pub use laws::{read_back, spelled_as, spelled_once};
pub use measuring::spelled_len;
pub use numbers_ref::NumbersRef;
pub use recording::recordable;
pub use spelling::spell;
