//! Laws of timelines.
ghost use Rattle.std.specs.Prelude.{◌≡◌, ℕ, ◌<◌, ◌≤◌, ◌++◌, ◌∷◌, List, []};
ghost use Rattle.sv_packet.specs.declared.event.TimedEvent.{TimedEvent};
ghost use Rattle.sv_packet.specs.declared.event.Packet.{Packet};
ghost use Rattle.sv_packet.specs.Events.{last_time};
ghost use Rattle.sv_packet.specs.Time.{timed};
ghost use Rattle.sv_timeline.specs.declared.span.Span.{Span};
ghost use Rattle.sv_timeline.specs.Ticks.{context_at};
ghost use Rattle.sv_timeline.specs.Timeline.{IsTimeline};
ghost use Rattle.sv_timeline.specs.Runs.{timeline_of, ended_runs};
ghost use Rattle.sv_timeline.specs.State.{State, StandsFor, IsSame};

/// The law of timelines: events have at most one.
pub fn timeline_once()
    ensures { (events : List TimedEvent) → (spans others : List Span) → IsTimeline events spans →
        IsTimeline events others → spans ≡ others }
{}

/// The law of the list of runs: it is the timeline, so that events have one.
pub fn timeline_is()
    ensures { (events : List TimedEvent) → IsTimeline events (timeline_of events) }
{}

/// The law of ended runs: those of a recording's first events are the first of those of more.
pub fn runs_grow()
    ensures { (packets : List Packet) → (events more rest : List TimedEvent) →
        timed packets ≡ events ++ (more ++ rest) →
        (added : List Span) × (ended_runs (events ++ more) ≡ ended_runs events ++ added) }
{}

/// The law of ticks: a further event leaves all ticks before the last one as they were.
pub fn ticks_stay()
    ensures { (events : List TimedEvent) → (event : TimedEvent) → (tick : ℕ) →
        tick < last_time events → last_time events ≤ event.time →
        context_at (events ++ event ∷ []) tick ≡ context_at events tick }
{}

/// The law of want of memory: what a timeline stands for is as it was.
pub fn same_for_events()
    ensures { (old new : State) → (events : List TimedEvent) → (given : List Span) →
        IsSame old new → StandsFor old events given → StandsFor new events given }
{}
