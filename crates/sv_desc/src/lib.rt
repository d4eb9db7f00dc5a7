//! What a target tells of itself: lines, its time, and the modules that registered.
//!
//! The contract above this crate: a stored callback answers what its type keeps of it
//! ([`Describes`]), and each module has the event identifiers after those of the modules before it
//! ([`Modules::register`]).
#![tactic(auto)]

mod describe;
mod modules;
mod plain;

pub use describe::{Describe, Describes};
pub use modules::{Full, Module, Modules};
pub use plain::{micros_of, put_line};

#[cfg(test)]
mod tests;
