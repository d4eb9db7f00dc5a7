//! The runs of ticks with equal contexts, and how many ticks each context has.
ghost use Rattle.std.specs.Prelude.{◌≡◌, ◌<◌, ◌≤◌, ◌⊎◌, ◌↔◌, IsTrue, IsNone, List, [], ◌∷◌, ◌++◌};
ghost use Rattle.std.specs.Prelude.{OnOk, OnErr, IfOk, true, option_to_list, map, length};
ghost use Rattle.std.specs.Prelude.{if◌then◌else◌};
ghost use Rattle.std.specs.List.{list_any};
ghost use Rattle.sv_packet.specs.declared.event.Event.{Event as EventOf};
ghost use Rattle.sv_packet.specs.declared.event.TimedEvent.{TimedEvent as Timed};
ghost use Rattle.sv_packet.specs.Events.{last_time};
ghost use Rattle.sv_packet.specs.EventRef.{seen, seen_at};
ghost use Rattle.sv_context.specs.Role.{role_of, is_enter};
ghost use Rattle.sv_context.specs.Context.{context_after, anomalies};
ghost use Rattle.sv_context.specs.State.{StandsFor as ContextsStandFor};
ghost use Rattle.sv_context.specs.declared.context.Context.{Context as ContextOf};
ghost use Rattle.sv_context.specs.declared.context.Context.TheVariants.{Gap};
ghost use Rattle.sv_context.specs.Order.{is_same_context};
ghost use Rattle.sv_timeline.specs.declared.span.Span.{Span as Run};
ghost use Rattle.sv_timeline.specs.Ticks.{is_gap_from, is_gap_to as ends_gap};
ghost use Rattle.sv_timeline.specs.Load.{load_of};
ghost use Rattle.sv_timeline.specs.Timeline.{IsTimeline};
ghost use Rattle.sv_timeline.specs.State.{StandsFor, HasRoom, IsSame, GoesOn, tail_of, load_in};
ghost use Rattle.sv_timeline.specs.State.{ended_by, ends_run as is_ended, moves, next_context};
ghost use Rattle.sv_timeline.specs.State.{run_of};

use crate::span::Span;
use crate::totals::Totals;
use std::alloc::Global;
use std::marker::Model;
use sv_context::{Context, Contexts};
use sv_packet::EventRef;
use sv_prim::NoMemory;

/// The timeline of the events so far: the longest runs of ticks with equal contexts. Runs are given
/// as they end; the last one may still grow.
///
/// It keeps the open frames and one total for each context, and nothing else of the events.
#[derive(Drop)]
pub struct Timeline {
    contexts: Contexts,
    totals: Totals,
    last: u64,
    start: u64,
    context: Context,
    ahead: Context,
}

impl Model for Timeline {
    ghost use Rattle.sv_timeline.specs.State.{State, IsSound};

    ghost Value = { State };

    ghost view = { λ t. record {
      contexts = t.contexts;
      totals = t.totals;
      last = t.last;
      start = t.start;
      context = t.context;
      ahead = t.ahead;
    } };

    ghost invariant = { λ t. IsSound t.totals t.start t.last };
}

/// Nothing is known of the time up to the event, from the one before.
#[inline(always)]
fn is_gap_to(event: &EventRef<'_>) -> bool
    ensures { result ≡ ends_gap (seen event.now) }
{
    matches!(event, EventRef::Overflow { .. } | EventRef::TraceStart)
}

/// The context of the ticks after an event, where this runs now.
#[inline(always)]
fn context_after_event(event: &EventRef<'_>, now: Context) -> Context
    ensures { result ≡ (if is_gap_from (seen event.now) then Gap else now) }
{
    match event {
        EventRef::TraceStop => Context::Gap,
        _ => now,
    }
}

impl Timeline {
    /// A timeline of no events. Takes no memory.
    pub fn new(alloc: Global) -> Timeline
        ensures stands { StandsFor result [] [] }
        ensures last { result.last ≡ 0 }
    {
        Timeline {
            contexts: Contexts::new(alloc),
            totals: Totals::new(alloc),
            last: 0,
            start: 0,
            context: Context::Gap,
            ahead: Context::Gap,
        }
    }

    /// The context of the ticks up to the event.
    #[inline(always)]
    fn context_up_to(&self, event: &EventRef<'_>) -> Context
        ensures { result ≡ next_context self.now (seen event.now) }
    {
        if is_gap_to(event) {
            Context::Gap
        } else {
            self.ahead
        }
    }

    /// The event ends the run.
    #[inline(always)]
    fn ends_run(&self, time: u64, event: &EventRef<'_>) -> bool
        ensures { result ≡ is_ended self.now (seen_at time event.now) }
    {
        self.last < time && self.context_up_to(event) != self.context && self.start < self.last
    }

    /// The run so far.
    #[inline(always)]
    fn run(&self) -> Span
        ensures { result ≡ run_of self.now }
    {
        Span {
            start: self.start,
            end: self.last,
            context: self.context,
        }
    }

    /// Where the run of the ticks up to the event begins, and its context.
    #[inline(always)]
    fn run_up_to(&self, time: u64, event: &EventRef<'_>) -> (u64, Context)
        ensures start { result.0 ≡ (if moves self.now (seen_at time event.now)
            then self.now.last else self.now.start) }
        ensures context { result.1 ≡ (if moves self.now (seen_at time event.now)
            then next_context self.now (seen event.now) else self.now.context) }
    {
        let context = self.context_up_to(event);
        if self.last < time {
            if context != self.context {
                return (self.last, context);
            }
        }
        (self.start, self.context)
    }

    /// Goes on to the event, which the contexts know already. A run that it ends was counted.
    #[inline(always)]
    fn go_on(&mut self, time: u64, event: &EventRef<'_>)
        requires order { self.old.last ≤ time }
        ensures goes_on { GoesOn self.old self.new (seen_at time event.now) }
        ensures ahead { (events : List EventOf) → ContextsStandFor self.old.contexts events →
            self.new.ahead
            ≡ (if is_gap_from (seen event.now) then Gap else context_after events) }
    {
        let (start, context) = self.run_up_to(time, event);
        self.start = start;
        self.context = context;
        self.last = time;
        self.ahead = context_after_event(event, self.contexts.now());
    }

    /// Goes on with an event that ends the run, and gives the run.
    #[inline(always)]
    fn end_run(&mut self, time: u64, event: &EventRef<'_>) -> Result<Span, NoMemory>
        requires few { HasRoom self.old }
        requires order { self.old.last ≤ time }
        requires ends { is_ended self.old (seen_at time event.now) ≡ true }
        ensures stands { OnOk result ((events : List Timed) (given : List Run) →
            StandsFor self.old events given →
            StandsFor self.new (events ++ seen_at time event.now ∷ [])
            (given ++ ended_by self.old (seen_at time event.now))) }
        ensures run { IfOk result (λ run. run ∷ [] ≡ ended_by self.old (seen_at time event.now)) }
        ensures last { OnOk result (self.new.last ≡ time) }
        ensures unchanged { OnErr result (IsSame self.old self.new) }
    {
        let slot = self.totals.slot(self.context)?;
        self.contexts.apply(event)?;
        let run = self.run();
        self.totals.add(slot, self.last - self.start);
        self.start = self.last;
        self.go_on(time, event);
        Ok(run)
    }

    /// Goes on with one more event, and gives the run that it ends, if it ends one. The event is
    /// not before the one before it, and fewer than 2^40 were applied.
    ///
    /// Memory is taken where the event ends a run, or is an enter beyond the depth of the contexts.
    /// After [`NoMemory`] nothing has changed of what the timeline stands for.
    #[inline(always)]
    pub fn step(&mut self, time: u64, event: &EventRef<'_>) -> Result<Option<Span>, NoMemory>
        requires few { HasRoom self.old }
        requires order { self.old.last ≤ time }
        ensures stands { OnOk result ((events : List Timed) (given : List Run) →
            StandsFor self.old events given →
            StandsFor self.new (events ++ seen_at time event.now ∷ [])
            (given ++ ended_by self.old (seen_at time event.now))) }
        ensures run { IfOk result (λ run.
            option_to_list run ≡ ended_by self.old (seen_at time event.now)) }
        ensures last { OnOk result (self.new.last ≡ time) }
        ensures unchanged { OnErr result (IsSame self.old self.new) }
        ensures cause { OnErr result ((is_ended self.old (seen_at time event.now) ≡ true)
            ⊎ (IsTrue (is_enter (role_of (seen event.now)))
            × (self.old.contexts.depth ≤ length self.old.contexts.frames))) }
    {
        if self.ends_run(time, event) {
            return match self.end_run(time, event) {
                Ok(run) => Ok(Some(run)),
                Err(NoMemory) => Err(NoMemory),
            };
        }
        self.contexts.apply(event)?;
        self.go_on(time, event);
        Ok(None)
    }

    /// The same, and adds the run to `spans`. After [`NoMemory`] they are as they were.
    pub fn apply(
        &mut self,
        time: u64,
        event: &EventRef<'_>,
        spans: &mut Vec<Span>,
    ) -> Result<(), NoMemory>
        requires few { HasRoom self.old }
        requires order { self.old.last ≤ time }
        ensures stands { OnOk result ((events : List Timed) (given : List Run) →
            StandsFor self.old events given →
            StandsFor self.new (events ++ seen_at time event.now ∷ [])
            (given ++ ended_by self.old (seen_at time event.now))) }
        ensures spans { OnOk result
            (spans.new.items ≡ spans.old.items ++ ended_by self.old (seen_at time event.now)) }
        ensures last { OnOk result (self.new.last ≡ time) }
        ensures unchanged { OnErr result (IsSame self.old self.new) }
        ensures kept { OnErr result (spans.new.items ≡ spans.old.items) }
        ensures cause { OnErr result ((is_ended self.old (seen_at time event.now) ≡ true)
            ⊎ (IsTrue (is_enter (role_of (seen event.now)))
            × (self.old.contexts.depth ≤ length self.old.contexts.frames))) }
    {
        if self.ends_run(time, event) {
            if spans.reserve(1).is_err() {
                return Err(NoMemory);
            }
            let run = self.end_run(time, event)?;
            spans.push_reserved(run);
            return Ok(());
        }
        self.contexts.apply(event)?;
        self.go_on(time, event);
        Ok(())
    }

    /// The run that may still grow. None where no tick has passed.
    pub fn tail(&self) -> Option<Span>
        ensures tail { result ≡ tail_of self.now }
        ensures whole { (events : List Timed) (given : List Run) → StandsFor self.now events given →
            IsTimeline events (given ++ option_to_list result) }
        ensures none { (events : List Timed) (given : List Run) → StandsFor self.now events given →
            (IsNone result ↔ (last_time events ≡ 0)) }
    {
        if self.last == 0 {
            return None;
        }
        Some(self.run())
    }

    /// The ticks of the context so far.
    pub fn load(&self, context: Context) -> u64
        ensures { (events : List Timed) (given : List Run) → StandsFor self.now events given →
            result ≡ load_of context events }
    {
        self.ticks_of(context)
    }

    /// The contexts of the runs that have ended, each once, and that of the last one. No other has
    /// ticks.
    pub fn contexts(&self) -> (&[Context], Context)
        ensures { (events : List Timed) (given : List Run) → StandsFor self.now events given →
            (context : ContextOf) → 0 < load_of context events →
            list_any (is_same_context context) (result.1 ∷ result.0.now) ≡ true }
    {
        (self.totals.contexts(), self.context)
    }

    /// The ticks of the context in the runs that have ended, and in the last one.
    fn ticks_of(&self, context: Context) -> u64
        ensures { result ≡ load_in self.now context }
    {
        let ended = self.totals.of(context);
        if context == self.context {
            ended + (self.last - self.start)
        } else {
            ended
        }
    }

    /// How many exits found nothing open.
    pub fn anomalies(&self) -> u64
        ensures { (events : List Timed) (given : List Run) → StandsFor self.now events given →
            result ≡ anomalies (map (λ e. e.event) events) }
    {
        self.contexts.anomalies()
    }
}
