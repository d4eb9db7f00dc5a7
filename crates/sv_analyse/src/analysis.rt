//! What the events so far say.
ghost use Rattle.std.specs.Prelude.{◌≡◌, ℕ, ◌+◌, ◌^◌, ◌<◌, ◌≤◌, ◌++◌, List, [], ◌∷◌, ◌↔◌};
ghost use Rattle.std.specs.Prelude.{false, true, IfOk, IsOk, OnOk, OnErr, IsNone, option_to_list};
ghost use Rattle.sv_prim.specs.declared.got.Reason.{Reason as Why};
ghost use Rattle.sv_packet.specs.EventRef.{seen_at};
ghost use Rattle.sv_packet.specs.Events.{last_time};
ghost use Rattle.sv_stream.specs.declared.seen.Seen.{Seen as WhatIsSeen};
ghost use Rattle.sv_stream.specs.Entries.{events_of};
ghost use Rattle.sv_timeline.specs.declared.span.Span.{Span as Run};
ghost use Rattle.sv_timeline.specs.Timeline.{IsTimeline};
ghost use Rattle.sv_timeline.specs.Runs.{ended_runs};
ghost use Rattle.sv_timeline.specs.State.{ended_by};
ghost use Rattle.sv_analyse.specs.Report.{report_from};
ghost use Rattle.sv_analyse.specs.State.{AnalysisStandsFor, stop_at};

use crate::lines::Lines;
use crate::lists::{copies, module_lines, task_lines};
use crate::loads::load_lines;
use crate::names::Names;
use crate::report::Report;
use std::alloc::Global;
use std::marker::Model;
use sv_feed::Gather;
use sv_latency::Latency;
use sv_packet::EventRef;
use sv_prim::NoMemory;
use sv_stream::{End, Mark};
use sv_timeline::{Span, Timeline};

/// The timeline, the latencies and the names of the events so far, however they were decoded. Once
/// memory was wanting it has failed, and stands for nothing.
#[derive(Drop)]
pub struct Analysis {
    alloc: Global,
    timeline: Timeline,
    latency: Latency,
    names: Names,
    packets: u64,
    marks: u64,
    failed: bool,
}

impl Model for Analysis {
    ghost use Rattle.sv_analyse.specs.State.{AnalysisState, IsLive};

    ghost Value = { AnalysisState };

    ghost view = { λ a. record {
      timeline = a.timeline;
      latency = a.latency;
      names = a.names;
      packets = a.packets;
      marks = a.marks;
      failed = a.failed;
    } };

    ghost invariant = { λ a. IsLive a.timeline a.latency a.names a.packets a.marks a.failed };
}

impl Analysis {
    /// Of no events. Takes no memory.
    pub fn new(alloc: Global) -> Analysis
        ensures stands { AnalysisStandsFor result [] [] }
        ensures live { result.failed ≡ false }
        ensures count { result.packets + result.marks ≡ 0 }
        ensures last { result.timeline.last ≡ 0 }
    {
        Analysis {
            alloc,
            timeline: Timeline::new(alloc),
            latency: Latency::new(alloc),
            names: Names::new(alloc),
            packets: 0,
            marks: 0,
            failed: false,
        }
    }

    /// Memory was wanting.
    pub fn fail(&mut self)
        ensures { self.new.failed ≡ true }
    {
        self.failed = true;
    }

    /// Goes on with the next event at its time in ticks, which is not before the one before it, and
    /// gives the run that it ends, if it ends one. Fewer than 2^32 events were before it.
    ///
    /// After NoMemory it has failed for good.
    #[inline(always)]
    pub fn step(&mut self, time: u64, event: &EventRef<'_>) -> Result<Option<Span>, NoMemory>
        requires live { self.old.failed ≡ false }
        requires few { self.old.packets + self.old.marks < 2 ^ 32 }
        requires order { self.old.timeline.last ≤ time }
        ensures stands { OnOk result ((seen : List WhatIsSeen) (given : List Run) →
            AnalysisStandsFor self.old seen given →
            AnalysisStandsFor self.new (seen ++ WhatIsSeen.Event (seen_at time event.now) ∷ [])
            (given ++ ended_by self.old.timeline (seen_at time event.now))) }
        ensures run { IfOk result (λ run.
            option_to_list run ≡ ended_by self.old.timeline (seen_at time event.now)) }
        ensures live { OnOk result (self.new.failed ≡ false) }
        ensures count { OnOk result (self.new.packets + self.new.marks
            ≡ self.old.packets + self.old.marks + 1) }
        ensures last { OnOk result (self.new.timeline.last ≡ time) }
        ensures failed { OnErr result (self.new.failed ≡ true) }
    {
        self.failed = true;
        let run = self.timeline.step(time, event)?;
        self.latency.apply(time, event)?;
        self.names.note(event)?;
        self.packets += 1;
        self.failed = false;
        Ok(run)
    }

    /// Goes on with a mark at its time in ticks, which is not before the last event, as with the end
    /// of a recording. Gives the run that it ends, if it ends one.
    ///
    /// After NoMemory it has failed for good.
    pub fn stop(&mut self, time: u64) -> Result<Option<Span>, NoMemory>
        requires live { self.old.failed ≡ false }
        requires few { self.old.packets + self.old.marks < 2 ^ 32 }
        requires order { self.old.timeline.last ≤ time }
        ensures stands { OnOk result ((seen : List WhatIsSeen) (given : List Run) →
            AnalysisStandsFor self.old seen given → (place : ℕ) (reason : Why) →
            AnalysisStandsFor self.new (seen ++ WhatIsSeen.Damage time place reason ∷ [])
            (given ++ ended_by self.old.timeline (stop_at time))) }
        ensures run { IfOk result (λ run.
            option_to_list run ≡ ended_by self.old.timeline (stop_at time)) }
        ensures live { OnOk result (self.new.failed ≡ false) }
        ensures count { OnOk result (self.new.packets + self.new.marks
            ≡ self.old.packets + self.old.marks + 1) }
        ensures last { OnOk result (self.new.timeline.last ≡ time) }
        ensures failed { OnErr result (self.new.failed ≡ true) }
    {
        self.failed = true;
        let run = self.timeline.step(time, &EventRef::TraceStop)?;
        self.latency.apply(time, &EventRef::TraceStop)?;
        self.marks += 1;
        self.failed = false;
        Ok(run)
    }

    /// Memory was wanting once.
    pub fn has_failed(&self) -> bool
        ensures { result ≡ self.now.failed }
    {
        self.failed
    }

    /// The run that may still grow.
    pub fn tail(&self) -> Option<Span>
        ensures whole { (seen : List WhatIsSeen) (given : List Run) →
            AnalysisStandsFor self.now seen given →
            IsTimeline (events_of seen) (given ++ option_to_list result) }
        ensures none { (seen : List WhatIsSeen) (given : List Run) →
            AnalysisStandsFor self.now seen given →
            (IsNone result ↔ (last_time (events_of seen) ≡ 0)) }
    {
        self.timeline.tail()
    }

    /// The time of the last event in ticks, or 0.
    fn ticks(&self) -> u64
        ensures { result ≡ self.now.timeline.last }
    {
        match self.timeline.tail() {
            Some(run) => run.end,
            None => 0,
        }
    }

    /// The report of the events so far, with this end. NoMemory where it has failed as well.
    pub fn report(&self, end: End) -> Result<Report, NoMemory>
        ensures report { IfOk result (λ report. (seen : List WhatIsSeen) (given : List Run) →
            AnalysisStandsFor self.now seen given → report ≡ report_from seen end) }
        ensures live { IsOk result → self.now.failed ≡ false }
    {
        if self.failed {
            return Err(NoMemory);
        }
        let ticks = self.ticks();
        let (lost, overflows) = self.names.losses();
        let descs = copies(self.alloc, self.names.descs())?;
        let modules = module_lines(self.alloc, &self.names, self.names.modules())?;
        let loads = load_lines(self.alloc, &self.timeline, ticks)?;
        let tasks = task_lines(self.alloc, &self.names, self.latency.tasks())?;
        Ok(Report {
            packets: self.packets,
            ticks,
            lost,
            overflows,
            anomalies: self.timeline.anomalies(),
            damaged: self.marks,
            system: self.names.system(),
            descs: Lines::new(descs),
            modules: Lines::new(modules),
            loads: Lines::new(loads),
            tasks: Lines::new(tasks),
            end,
        })
    }
}

impl Gather<Span> for Analysis {
    ghost use Rattle.sv_stream.specs.Entries.{events_of};
    ghost use Rattle.sv_analyse.specs.State.{HasTaken};

    ghost made = { λ seen. ended_runs (events_of seen) };

    ghost taken = { HasTaken };

    ghost failed = { λ a before after. (a.failed ≡ true) × (after ≡ before) };

    /// Adds the run that the event ends to `spans`, if it ends one. They stay as they were after
    /// NoMemory.
    #[inline(always)]
    fn event(
        &mut self,
        time: u64,
        event: &EventRef<'_>,
        spans: &mut Vec<Span>,
    ) -> Result<(), NoMemory> {
        let Some(run) = self.step(time, event)? else {
            return Ok(());
        };
        if spans.push(run).is_err() {
            self.failed = true;
            return Err(NoMemory);
        }
        Ok(())
    }

    /// Adds the run that the mark ends to `spans`, if it ends one. They stay as they were after
    /// NoMemory.
    fn mark(&mut self, mark: &Mark, spans: &mut Vec<Span>) -> Result<(), NoMemory> {
        let Some(run) = self.stop(mark.time)? else {
            return Ok(());
        };
        let Ok(()) = spans.push(run) else {
            self.failed = true;
            return Err(NoMemory);
        };
        Ok(())
    }
}
