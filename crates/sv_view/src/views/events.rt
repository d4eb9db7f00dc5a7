//! The command `events`: a line for each event and each damaged place.
ghost use Rattle.sv_view.specs.texts.Events.{events_text};

use crate::view::View;
use sv_packet::EventRef;
use sv_prim::NoMemory;
use sv_report::{end_line, event_line, mark_line};
use sv_stream::{End, Mark};

/// Writes a line for each event and each mark, and the end line.
#[derive(Clone, Copy, Debug)]
pub struct Events;

impl View for Events {
    ghost text = { events_text };

    ghost shown = { λ view seen. Unit {0} };

    #[inline(always)]
    fn event(
        &mut self,
        time: u64,
        event: &EventRef<'_>,
        lines: &mut Vec<u8>,
    ) -> Result<(), NoMemory> {
        event_line(time, event, lines)
    }

    fn mark(&mut self, mark: &Mark, lines: &mut Vec<u8>) -> Result<(), NoMemory> {
        mark_line(mark.time, mark.place, mark.reason, lines)
    }

    fn end(&self, end: &End, lines: &mut Vec<u8>) -> Result<(), NoMemory> {
        end_line(end, lines)
    }
}
