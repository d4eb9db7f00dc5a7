//! Texts of lines and words: cut at line feeds and at spaces, and words that are numbers.
//!
//! The contract above this crate: [`first_line`] cuts a text's lines off one after another,
//! [`Words`] those of a line, and a word is a number in decimal or none ([`capped_number`],
//! [`number_up_to`]). What is written as lines and in decimal is read back so.
#![tactic(auto)]

mod laws;
mod lines;
mod number;
mod words;

pub use laws::{lines_are_read_back, numbers_are_read_back};
pub use lines::{first_line, is_remark};
pub use number::{capped_number, number_up_to};
pub use words::Words;
