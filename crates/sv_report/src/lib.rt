//! The lines that the commands print: of an event at its time, of a run of ticks, of the end of a
//! recording, and of a report.
//!
//! The contract above this crate: [`event_line`], [`mark_line`], [`span_line`] and [`end_line`] add
//! exactly the line of their definition to a buffer, or leave the buffer as it was where memory is wanting;
//! [`text`] is the text of a report, [`put_report`] adds it, and [`short_text`] is that of its counts.
#![tactic(auto)]

mod ends;
mod events;
mod head;
mod labels;
mod report;
mod spans;
mod table;
mod texts;

pub use ends::{end_line, mark_line, reason_number};
pub use events::event_line;
pub use report::{put_count, put_marks, put_report, short_text, text};
pub use spans::span_line;
