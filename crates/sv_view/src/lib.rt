//! What is made of a recording as it is read: a view shows it event by event, and one loop reads its
//! file in pieces, gives each event to the view, and writes what the view makes of it.
//!
//! The contract above this crate: [`scan_file`] writes exactly what the text of a [`View`] says of
//! the bytes that were taken, and [`live_file`] the report of each prefix of them, as far as
//! devices and memory let them, and both say how the recording ends or why it was cut.
#![tactic(auto)]

mod cut;
mod live;
mod scan;
mod showing;
mod view;
pub mod views;

pub use cut::Cut;
pub use live::live_file;
pub use scan::{MOST_BYTES, scan_file};
pub use view::View;
pub use views::timeline::timeline_lines;
