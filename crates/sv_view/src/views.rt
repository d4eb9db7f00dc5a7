//! Each view in a room of its own.
pub mod check;
pub mod events;
pub mod report;
pub mod timeline;
