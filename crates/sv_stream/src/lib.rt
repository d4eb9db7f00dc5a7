//! Recordings as a stream of bytes: where their packets begin, which they are, and how they end.
//!
//! The contract above this crate: an input is junk, ten zero bytes or more, packets one after
//! another and a rest; where the rest breaks off that place is marked, and from it on the input is
//! read so again. It is so in exactly one way, which is the law [`read_once`]. [`Decoder`] gives
//! the events of those packets, the marks among them and the end, whatever the pieces in which the
//! input comes.
#![tactic(auto)]

mod decoder;
mod end;
mod front;
mod held;
mod laws;
mod mark;
mod seen;
mod stage;

pub use decoder::Decoder;
pub use end::End;
pub use front::Front;
pub use laws::{given_first, marks_stop, read_on, read_once, read_undamaged};
pub use mark::Mark;
pub use seen::Seen;
