//! What a recording says, whatever the pieces in which its bytes come.
ghost use Rattle.std.specs.Prelude.{◌≡◌, ℕ, ◌+◌, ◌^◌, ◌≤◌, ◌++◌, List, [], false, true, ◌↔◌};
ghost use Rattle.std.specs.Prelude.{IsNone, IsOk, IfOk, OnOk, OnErr, length, option_to_list};
ghost use Rattle.sv_packet.specs.declared.event.Packet.{Packet};
ghost use Rattle.sv_packet.specs.Time.{timed};
ghost use Rattle.sv_packet.specs.Events.{last_time};
ghost use Rattle.sv_stream.specs.declared.end.End.{End as HowItEnds};
ghost use Rattle.sv_stream.specs.Reads.{Reads};
ghost use Rattle.sv_stream.specs.Decoding.{pushed};
ghost use Rattle.sv_stream.specs.Entries.{packets_of};
ghost use Rattle.sv_stream.specs.Input.{Entry};
ghost use Rattle.sv_timeline.specs.declared.span.Span.{Span as Run};
ghost use Rattle.sv_timeline.specs.Timeline.{IsTimeline};
ghost use Rattle.sv_analyse.specs.Report.{report_of};
ghost use Rattle.sv_analyse.specs.State.{StandsFor, HasAdded};

use crate::analysis::Analysis;
use crate::report::Report;
use std::alloc::Global;
use std::marker::Model;
use sv_feed::drain_entries;
use sv_prim::NoMemory;
use sv_stream::{Decoder, End};
use sv_timeline::Span;

/// Analyses a recording that comes in pieces.
///
/// It stands for an input, all bytes that were fed, and for the runs of its timeline that were
/// given so far. How the bytes were cut into pieces makes no difference to either.
#[derive(Drop)]
pub struct Analyser {
    decoder: Decoder,
    analysis: Analysis,
}

impl Model for Analyser {
    ghost use Rattle.sv_analyse.specs.State.{State, IsAbreast};

    ghost Value = { State };

    ghost view = { λ a. record {
      decoder = a.decoder;
      analysis = a.analysis;
    } };

    ghost invariant = { λ a. IsAbreast a.decoder a.analysis };
}

impl Analyser {
    /// An analyser that stands for the empty input. Takes no memory.
    pub fn new(alloc: Global) -> Analyser
        ensures stands { StandsFor result [] [] }
        ensures empty { pushed result.decoder ≡ 0 }
        ensures live { result.analysis.failed ≡ false }
    {
        Analyser {
            decoder: Decoder::new(alloc),
            analysis: Analysis::new(alloc),
        }
    }

    /// The input goes on with the piece, and the runs that have ended are added to `spans`. All
    /// pieces together have at most 2^33 bytes.
    ///
    /// After NoMemory the first of these runs were added, maybe none, and every later `feed` and
    /// `report` answers NoMemory.
    pub fn feed(&mut self, piece: &[u8], spans: &mut Vec<Span>) -> Result<(), NoMemory>
        requires within { pushed self.old.decoder + length piece.now ≤ 2 ^ 33 }
        ensures stands { OnOk result ((input : List ℕ) (given : List Run) →
            StandsFor self.old input given →
            (more : List Run) × (spans.new.items ≡ spans.old.items ++ more)
            × StandsFor self.new (input ++ piece.now) (given ++ more)) }
        ensures pushed { OnOk result
            (pushed self.new.decoder ≡ pushed self.old.decoder + length piece.now) }
        ensures live { OnOk result
            ((self.old.analysis.failed ≡ false) × (self.new.analysis.failed ≡ false)) }
        ensures failed { OnErr result (self.new.analysis.failed ≡ true) }
        ensures part { OnErr result ((input : List ℕ) (given : List Run) →
            StandsFor self.old input given →
            HasAdded (input ++ piece.now) given spans.old.items spans.new.items) }
        ensures again { self.old.analysis.failed ≡ true → self.new.analysis.failed ≡ true }
    {
        if self.analysis.has_failed() {
            return Err(NoMemory);
        }
        let Ok(()) = self.decoder.push(piece) else {
            self.analysis.fail();
            return Err(NoMemory);
        };
        drain_entries(&mut self.decoder, &mut self.analysis, spans)?;
        Ok(())
    }

    /// How the input ends. No `feed` has answered NoMemory.
    pub fn finish(&self) -> End
        requires { self.now.analysis.failed ≡ false }
        ensures { (input : List ℕ) (given : List Run) → StandsFor self.now input given →
            (entries : List (Entry Packet)) → (end : HowItEnds) →
            Reads input entries end → result ≡ end }
    {
        self.decoder.finish()
    }

    /// The run that may still grow. None where no tick has passed. No `feed` has answered NoMemory.
    pub fn tail(&self) -> Option<Span>
        requires { self.now.analysis.failed ≡ false }
        ensures whole { (input : List ℕ) (given : List Run) → StandsFor self.now input given →
            (entries : List (Entry Packet)) → (end : HowItEnds) → Reads input entries end →
            IsTimeline (timed (packets_of entries)) (given ++ option_to_list result) }
        ensures none { (input : List ℕ) (given : List Run) → StandsFor self.now input given →
            (entries : List (Entry Packet)) → (end : HowItEnds) → Reads input entries end →
            (IsNone result ↔ (last_time (timed (packets_of entries)) ≡ 0)) }
    {
        self.analysis.tail()
    }

    /// The report of the input so far. After NoMemory nothing has changed.
    pub fn report(&self) -> Result<Report, NoMemory>
        ensures report { IfOk result (λ report. (input : List ℕ) (given : List Run) →
            StandsFor self.now input given → (entries : List (Entry Packet)) →
            (end : HowItEnds) → Reads input entries end → report ≡ report_of entries end) }
        ensures live { IsOk result → self.now.analysis.failed ≡ false }
    {
        if self.analysis.has_failed() {
            return Err(NoMemory);
        }
        self.analysis.report(self.decoder.finish())
    }
}
