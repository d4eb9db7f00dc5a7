//! Workloads: what the writers of a run do, and in which order.
//!
//! `parse` reads a `text` by its `lines`. A line is cut at its spaces (`cut_line`), and its
//! `keyword` says which `form` it has, by which its `fields` are read in one pass: that is a
//! `read_line`. It is checked for itself, and then against the `draft` of the lines before it
//! (`check`). A line without a fault makes a step, a task, a command or a turn (`parts`), which
//! the draft takes up (`add`).
//!
//! `generated` makes a workload of any size from a number (`generator`).
#![tactic(auto)]

mod acts;
mod add;
mod check;
mod command_words;
mod cut_line;
mod draft;
mod fault;
mod fields;
mod form;
mod generator;
mod keyword;
mod laws;
mod line_text;
mod numbers;
mod parts;
mod range;
mod read_line;
mod settings;
mod text;

pub use fault::{LineFault, WorkFault};
pub use generator::generated;
pub use laws::{generated_is_said, the_first_fault};
pub use sv_load::{Act, Action, Command, Need, Step, Task, Workload};
pub use text::parse;
