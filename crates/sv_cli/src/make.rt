//! What is made of a workload's simulation.
ghost use Rattle.std.specs.Prelude.{◌≡◌, ◌≤◌, ◌^◌, ◌++◌, List, length, map, IfOk};
ghost use Rattle.sv_prim.specs.Text.{AreBytes};
ghost use Rattle.sv_packet.specs.declared.event.Packet.{Packet};
ghost use Rattle.sv_stream.specs.declared.end.End.{End as HowItEnds};
ghost use Rattle.sv_stream.specs.Input.{Entry, Whole};
ghost use Rattle.sv_stream.specs.Reads.{Reads};
ghost use Rattle.sv_analyse.specs.Report.{report_of};
ghost use Rattle.sv_journal.specs.Stream.{stream_of};
ghost use Rattle.sv_sent.specs.Sent.{sent_packets};
ghost use Rattle.sv_sent.specs.Start.{has_start};
ghost use Rattle.sv_cli.specs.Recorded.{head_of, makes_of, sent_end};

use std::alloc::Global;
use sv_analyse::{Analyser, Report};
use sv_journal::Journal;
use sv_load::Workload;
use sv_prim::NoMemory;
use sv_report::{short_text, text};

/// What is made of the bytes that a simulation sends.
#[derive(Clone, Copy, Debug, PartialEq, Eq)]
pub enum Make {
    /// Their report.
    Report,
    /// The counts of it, and how they end.
    Counts,
    /// A recording: a line, and these bytes.
    Recording,
}

impl Make {
    ghost use Rattle.std.specs.Prelude.{◌≡◌};
    ghost use Rattle.sv_cli.specs.Recorded.{head_of};

    /// The line before what is made, if there is one.
    pub fn head(&self) -> &'static str
        ensures { result.now ≡ head_of self.now }
    {
        match self {
            Make::Report => "",
            Make::Counts => "",
            Make::Recording => "; sysview recording\n",
        }
    }
}

/// The report of these bytes.
fn report_of_bytes(alloc: Global, bytes: &[u8]) -> Result<Report, NoMemory>
    requires short { length bytes.now ≤ 2 ^ 33 }
    ensures report { IfOk result (λ report. (entries : List (Entry Packet)) →
        (end : HowItEnds) → Reads bytes.now entries end → report ≡ report_of entries end) }
    ensures bytes { AreBytes bytes.now }
{
    let mut analyser = Analyser::new(alloc);
    let mut runs = Vec::new(alloc);
    analyser.feed(bytes, &mut runs)?;
    analyser.report()
}

/// What is written of the bytes that were sent of the journal, after the head.
pub fn rest_of(
    alloc: Global,
    make: Make,
    load: &Workload,
    journal: &Journal,
    bytes: Vec<u8>,
) -> Result<Vec<u8>, NoMemory>
    requires short { length bytes.items ≤ 2 ^ 33 }
    requires sent { bytes.items ≡ stream_of load.now journal.now.items }
    requires ends { (entries : List (Entry Packet)) → (end : HowItEnds) →
        Reads bytes.items entries end →
        (entries ≡ map Whole (sent_packets load.now journal.now.items))
        × (end ≡ sent_end (has_start load.now journal.now.items)) }
    ensures { IfOk result (λ rest.
        makes_of make load.now journal.now.items (head_of make ++ rest.items)) }
{
    match make {
        Make::Report => {
            let report = report_of_bytes(alloc, bytes.as_slice())?;
            text(alloc, &report)
        }
        Make::Counts => {
            let report = report_of_bytes(alloc, bytes.as_slice())?;
            short_text(alloc, &report)
        }
        Make::Recording => Ok(bytes),
    }
}
