//! The command `check`: how much a recording holds.
ghost use Rattle.std.specs.Prelude.{◌≡◌, filter_map, length};
ghost use Rattle.sv_packet.specs.Events.{last_time};
ghost use Rattle.sv_stream.specs.Entries.{events_of};
ghost use Rattle.sv_analyse.specs.Report.{event_in, place_in};
ghost use Rattle.sv_view.specs.texts.Check.{check_text};

use crate::view::View;
use sv_packet::EventRef;
use sv_prim::NoMemory;
use sv_report::{end_line, put_count, put_marks};
use sv_stream::{End, Mark};

/// Counts packets and marks, and knows the time of the last packet in ticks, or 0.
#[derive(Clone, Copy, Debug)]
pub struct Check {
    pub packets: u64,
    pub marks: u64,
    pub time: u64,
}

impl Check {
    /// Nothing was shown yet.
    pub fn new() -> Check
        ensures { result ≡ record { packets = 0; marks = 0; time = 0 } }
    {
        Check {
            packets: 0,
            marks: 0,
            time: 0,
        }
    }
}

impl View for Check {
    ghost text = { check_text };

    ghost shown = { λ view seen. view ≡ record {
      packets = length (filter_map event_in seen);
      marks = length (filter_map place_in seen);
      time = last_time (events_of seen);
    } };

    #[inline(always)]
    fn event(
        &mut self,
        time: u64,
        _event: &EventRef<'_>,
        _lines: &mut Vec<u8>,
    ) -> Result<(), NoMemory> {
        self.packets += 1;
        self.time = time;
        Ok(())
    }

    fn mark(&mut self, mark: &Mark, _lines: &mut Vec<u8>) -> Result<(), NoMemory> {
        self.marks += 1;
        self.time = mark.time;
        Ok(())
    }

    fn end(&self, end: &End, lines: &mut Vec<u8>) -> Result<(), NoMemory> {
        put_count("packets ", self.packets, lines)?;
        put_count("ticks ", self.time, lines)?;
        put_marks(self.marks, lines)?;
        end_line(end, lines)
    }
}
