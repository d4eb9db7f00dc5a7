//! Numbers and texts as the trace protocol spells them, and what can be told of the front of some
//! bytes.
//!
//! The contract above this crate: [`get_u32`] and [`get_text`] say of any bytes whether they begin
//! with a number or a text, end inside one, or break off at which byte; nothing else could be said
//! of them. [`put_u32`] and [`put_text`] add the spelling that a function gives, and
//! [`number_spelled`] is the law that a number has no other. That a text has no other is no law of
//! this crate: it is proved above, of the texts in whole packets. Beside them stands the arithmetic
//! of ticks ([`delta`]) and of identifiers ([`shrink`], [`unshrink`], [`aligned`]).
#![tactic(auto)]

mod buf;
mod bytes;
mod got;
mod identifiers;
mod laws;
mod memory;
mod number;
mod numbers;
mod text;
mod ticks;

pub use buf::Buf;
pub use bytes::Bytes;
pub use got::{Got, Reason};
pub use identifiers::{aligned, shrink, unshrink};
pub use laws::number_spelled;
pub use memory::NoMemory;
pub use number::{get_u32, put_u32};
pub use numbers::Numbers;
pub use text::{TextAt, get_text, put_text};
pub use ticks::delta;

#[cfg(test)]
mod tests;
