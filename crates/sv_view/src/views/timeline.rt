//! The command `timeline`: who had the processor, tick by tick.
ghost use Rattle.std.specs.Prelude.{◌≡◌, ◌++◌, List, [], flat_map};
ghost use Rattle.sv_packet.specs.declared.event.Packet.{Packet};
ghost use Rattle.sv_packet.specs.Time.{timed};
ghost use Rattle.sv_stream.specs.declared.end.End.{End as HowItEnds};
ghost use Rattle.sv_stream.specs.Entries.{events_of, packets_of, timed_entries};
ghost use Rattle.sv_stream.specs.Input.{Entry};
ghost use Rattle.sv_timeline.specs.declared.span.Span.{Span as Run};
ghost use Rattle.sv_timeline.specs.Runs.{timeline_of, ended_runs};
ghost use Rattle.sv_timeline.specs.State.{StandsFor};
ghost use Rattle.sv_report.specs.Ends.{end_line as line_of_end};
ghost use Rattle.sv_report.specs.Spans.{span_line as line_of_span};
ghost use Rattle.sv_view.specs.Text.{lines_of, whole_text};
ghost use Rattle.sv_view.specs.texts.Timeline.{timeline_text};

use crate::view::View;
use std::alloc::Global;
use sv_packet::EventRef;
use sv_prim::NoMemory;
use sv_report::{end_line, span_line};
use sv_stream::{End, Mark};
use sv_timeline::Timeline;

/// Writes a line for each run of ticks with equal contexts, as runs end, and the end line.
#[derive(Drop)]
pub struct Runs {
    pub timeline: Timeline,
}

impl Runs {
    /// No event was shown yet. Takes no memory.
    pub fn new(alloc: Global) -> Runs
        ensures { StandsFor result.timeline [] [] }
    {
        Runs {
            timeline: Timeline::new(alloc),
        }
    }
}

impl View for Runs {
    ghost text = { timeline_text };

    ghost shown = { λ view seen. (given : List Run)
        × StandsFor view.timeline (events_of seen) given };

    #[inline(always)]
    fn event(
        &mut self,
        time: u64,
        event: &EventRef<'_>,
        lines: &mut Vec<u8>,
    ) -> Result<(), NoMemory> {
        match self.timeline.step(time, event)? {
            Some(run) => span_line(&run, lines),
            None => Ok(()),
        }
    }

    fn mark(&mut self, mark: &Mark, lines: &mut Vec<u8>) -> Result<(), NoMemory> {
        match self.timeline.step(mark.time, &EventRef::TraceStop)? {
            Some(run) => span_line(&run, lines),
            None => Ok(()),
        }
    }

    fn end(&self, end: &End, lines: &mut Vec<u8>) -> Result<(), NoMemory> {
        match self.timeline.tail() {
            Some(run) => {
                span_line(&run, lines)?;
                end_line(end, lines)
            }
            None => end_line(end, lines),
        }
    }
}

/// The law of the text of `timeline`: a line for each run of the recording's timeline, and the end
/// line; the lines alone leave out the last run. A mark of damage is the end of a recording there.
pub fn timeline_lines()
    ensures whole { (entries : List (Entry Packet)) → (end : HowItEnds) →
        whole_text timeline_text (timed_entries entries) end
        ≡ flat_map line_of_span (timeline_of (timed (packets_of entries))) ++ line_of_end end }
    ensures lines { (entries : List (Entry Packet)) →
        lines_of timeline_text (timed_entries entries)
        ≡ flat_map line_of_span (ended_runs (timed (packets_of entries))) }
{}
