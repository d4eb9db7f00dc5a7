//! How long each task waited for the processor, from its readiness on.
ghost use Rattle.std.specs.Prelude.{◌≡◌, ℕ, ◌+◌, ◌^◌, ◌<◌, ◌≤◌, ◌++◌, ◌∷◌, List, [], Some, false};
ghost use Rattle.std.specs.Prelude.{IfOk, IfSome, OnOk, OnErr, MatchResult, length, slice_get};
ghost use Rattle.std.specs.Prelude.{nat_eq};
ghost use Rattle.std.specs.List.{list_any};
ghost use Rattle.sv_packet.specs.declared.event.TimedEvent.{TimedEvent as Timed};
ghost use Rattle.sv_packet.specs.EventRef.{seen, seen_at};
ghost use Rattle.sv_latency.specs.Class.{task_of};
ghost use Rattle.sv_latency.specs.Times.{all_times};
ghost use Rattle.sv_latency.specs.declared.class.TaskTimes.{TaskTimes as Times};
ghost use Rattle.sv_latency.specs.declared.seen.Seen.{Seen as Kept};
ghost use Rattle.sv_latency.specs.State.{StandsFor, Holds, IsPlace, IsRising, AreFit, HasRow};
ghost use Rattle.sv_latency.specs.State.{passed, cut, noted, started};

use crate::class::TaskTimes;
use crate::counting::{blank, class_at, count, no_times};
use crate::effect::{Effect, effect_of};
use crate::seen::Seen;
use std::alloc::Global;
use std::marker::Model;
use sv_packet::EventRef;
use sv_prim::NoMemory;

/// How many rows are remembered, by the low bits of their tasks.
const HINTS: usize = 16;

/// The times of each task in the events so far: its starts, and how long it had waited.
///
/// It keeps one row a task, in order of task, with the last event about it, and nothing else of the
/// events. A row says of which segment its event is, so a break costs the same with any number of
/// rows.
#[derive(Drop)]
pub struct Latency {
    names: Vec<u32>,
    times: Vec<TaskTimes>,
    seen: Vec<Seen>,
    segment: u64,
    applied: u64,
    last: u64,
    hints: [usize; HINTS],
}

impl Model for Latency {
    ghost use Rattle.sv_latency.specs.State.{State, IsSound};

    ghost Value = { State };

    ghost view = { λ l. record {
      names = l.names.items;
      times = l.times.items;
      seen = l.seen.items;
      segment = l.segment;
      applied = l.applied;
      last = l.last;
    } };

    ghost invariant = { λ l.
        IsSound l.names.items l.times.items l.seen.items l.segment l.applied l.last };
}

impl Latency {
    /// The times of no events. Takes no memory.
    pub fn new(alloc: Global) -> Latency
        ensures stands { StandsFor result [] }
        ensures last { result.last ≡ 0 }
        ensures applied { result.applied ≡ 0 }
    {
        Latency {
            names: Vec::new(alloc),
            times: Vec::new(alloc),
            seen: Vec::new(alloc),
            segment: 1,
            applied: 0,
            last: 0,
            hints: [0; HINTS],
        }
    }

    /// The task's row, or where it belongs.
    fn find(&self, task: u32) -> Result<usize, usize>
        ensures { MatchResult result (λ row. slice_get self.now.names row ≡ Some task)
            (λ row. IsPlace task self.now.names row) }
    {
        self.names.binary_search(&task)
    }

    /// The task's row, if it is where a task of these low bits was found before.
    fn hinted(&self, task: u32) -> Option<usize>
        ensures { IfSome result (λ row. slice_get self.now.names row ≡ Some task) }
    {
        let row = self.hints[task as usize % HINTS];
        if self.names.get(row).copied() == Some(task) {
            Some(row)
        } else {
            None
        }
    }

    /// The task's row. Where it has none, an empty one is made.
    fn row(&mut self, task: u32) -> Result<usize, NoMemory>
        ensures row { IfOk result (λ row. HasRow self.old self.new row task) }
        ensures rising { OnOk result (IsRising self.old.names) }
        ensures begun { OnOk result (0 < self.old.segment) }
        ensures applied { OnOk result (self.new.applied ≡ self.old.applied) }
        ensures unchanged { OnErr result (self.new ≡ self.old) }
        ensures cause { OnErr result (list_any (nat_eq task) self.old.names ≡ false) }
    {
        if let Some(row) = self.hinted(task) {
            return Ok(row);
        }
        match self.find(task) {
            Ok(row) => {
                self.hints[task as usize % HINTS] = row;
                Ok(row)
            }
            Err(row) => {
                self.names.reserve(1)?;
                self.times.reserve(1)?;
                self.seen.reserve(1)?;
                let Ok(()) = self.names.insert(row, task) else {
                    unreachable!()
                };
                let Ok(()) = self.times.insert(row, no_times(task)) else {
                    unreachable!()
                };
                let Ok(()) = self.seen.insert(row, blank()) else {
                    unreachable!()
                };
                Ok(row)
            }
        }
    }

    /// Goes on with an event that is about no task.
    #[inline]
    fn pass(&mut self, time: u64)
        requires order { self.old.last ≤ time }
        requires few { self.old.applied < 2 ^ 40 }
        ensures { self.new ≡ passed self.old time }
    {
        self.applied += 1;
        self.last = time;
    }

    /// Goes on with a break.
    fn cut(&mut self, time: u64)
        requires order { self.old.last ≤ time }
        requires few { self.old.applied < 2 ^ 40 }
        ensures cut { self.new ≡ cut self.old time }
        ensures fit { AreFit self.old.segment self.old.applied self.old.last
            self.old.names self.old.times self.old.seen }
    {
        self.segment += 1;
        self.applied += 1;
        self.last = time;
    }

    /// Goes on with an event that says whether the row's task is ready.
    fn note(&mut self, row: usize, time: u64, is_ready: bool)
        requires row { row < length self.old.names }
        requires order { self.old.last ≤ time }
        requires few { self.old.applied < 2 ^ 40 }
        ensures { self.new ≡ noted self.old row time is_ready }
    {
        self.seen[row] = Seen {
            segment: self.segment,
            time,
            is_ready,
        };
        self.applied += 1;
        self.last = time;
    }

    /// Goes on with a start of the row's task.
    fn start(&mut self, row: usize, time: u64)
        requires row { row < length self.old.names }
        requires order { self.old.last ≤ time }
        requires few { self.old.applied < 2 ^ 40 }
        ensures last { self.new.last ≡ time }
        ensures applied { self.new.applied ≡ self.old.applied + 1 }
        ensures started { (times : Times) (kept : Kept) →
            slice_get self.old.times row ≡ Some times → slice_get self.old.seen row ≡ Some kept →
            self.new ≡ started self.old row time times kept }
    {
        let class = class_at(self.seen[row], self.segment, time);
        count(&mut self.times[row], class);
        self.seen[row] = Seen {
            segment: self.segment,
            time,
            is_ready: false,
        };
        self.applied += 1;
        self.last = time;
    }

    /// Goes on with one more event at its time in ticks, which is not before that of the last one.
    ///
    /// NoMemory comes only where the event is about a task that has no row, and changes nothing.
    #[inline]
    pub fn apply(&mut self, time: u64, event: &EventRef<'_>) -> Result<(), NoMemory>
        requires order { self.old.last ≤ time }
        requires few { self.old.applied < 2 ^ 40 }
        ensures stands { OnOk result ((events : List Timed) → StandsFor self.old events →
            StandsFor self.new (events ++ seen_at time event.now ∷ [])) }
        ensures last { OnOk result (self.new.last ≡ time) }
        ensures applied { OnOk result (self.new.applied ≡ self.old.applied + 1) }
        ensures unchanged { OnErr result (self.new ≡ self.old) }
        ensures cause { OnErr result ((task : ℕ) × (task_of (seen event.now) ≡ Some task)
            × (list_any (nat_eq task) self.old.names ≡ false)) }
    {
        match effect_of(event) {
            Effect::Nothing => self.pass(time),
            Effect::Break => self.cut(time),
            Effect::Start { task } => {
                let row = self.row(task)?;
                self.start(row, time);
            }
            Effect::Ready { task, is_ready } => {
                let row = self.row(task)?;
                self.note(row, time, is_ready);
            }
        }
        Ok(())
    }

    /// The times of each task that an event was about, in order of task.
    pub fn tasks(&self) -> &[TaskTimes]
        ensures times { (events : List Timed) → StandsFor self.now events →
            result.now ≡ all_times events }
        ensures state { result.now ≡ self.now.times }
    {
        self.times.as_slice()
    }
}
