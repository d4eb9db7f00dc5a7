//! The command `report`: what a recording says as a whole.
ghost use Rattle.std.specs.Prelude.{◌≡◌, List, [], false};
ghost use Rattle.sv_timeline.specs.declared.span.Span.{Span as Run};
ghost use Rattle.sv_analyse.specs.State.{AnalysisStandsFor};
ghost use Rattle.sv_view.specs.Live.{HasSummed};
ghost use Rattle.sv_view.specs.texts.Report.{report_text};

use crate::view::View;
use std::alloc::Global;
use sv_analyse::Analysis;
use sv_packet::EventRef;
use sv_prim::NoMemory;
use sv_report::put_report;
use sv_stream::{End, Mark};

/// Keeps what the report tells of the events, and writes it after the last one.
#[derive(Drop)]
pub struct Summary {
    pub analysis: Analysis,
}

impl Summary {
    /// No event was shown yet. Takes no memory.
    pub fn new(alloc: Global) -> Summary
        ensures stands { AnalysisStandsFor result.analysis [] [] }
        ensures live { result.analysis.failed ≡ false }
    {
        Summary {
            analysis: Analysis::new(alloc),
        }
    }
}

impl View for Summary {
    ghost text = { report_text };

    ghost shown = { HasSummed };

    #[inline(always)]
    fn event(
        &mut self,
        time: u64,
        event: &EventRef<'_>,
        _lines: &mut Vec<u8>,
    ) -> Result<(), NoMemory> {
        self.analysis.step(time, event)?;
        Ok(())
    }

    fn mark(&mut self, mark: &Mark, _lines: &mut Vec<u8>) -> Result<(), NoMemory> {
        self.analysis.stop(mark.time)?;
        Ok(())
    }

    fn end(&self, end: &End, lines: &mut Vec<u8>) -> Result<(), NoMemory> {
        let report = self.analysis.report(*end)?;
        put_report(&report, lines)
    }
}
