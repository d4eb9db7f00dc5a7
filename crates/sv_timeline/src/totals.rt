//! Ticks of the runs that have ended, one total for each context.
ghost use Rattle.std.specs.Prelude.{◌≡◌, ℕ, ◌+◌, ◌^◌, ◌<◌, [], Some, IfOk, IfSome, length};
ghost use Rattle.std.specs.Prelude.{slice_get, map, if◌then◌else◌};
ghost use Rattle.sv_context.specs.declared.context.Context.{Context as ContextOf};
ghost use Rattle.sv_context.specs.Order.{is_same_context};
ghost use Rattle.sv_timeline.specs.Totals.{total_in};

use indexmap::IndexMap;
use std::alloc::Global;
use std::marker::Model;
use sv_context::Context;
use sv_prim::NoMemory;

/// The totals, one for each context that was asked for a place.
#[derive(Drop)]
pub struct Totals {
    map: IndexMap<Context, u64>,
    hints: [usize; HINTS],
}

/// How many places are remembered, by the kinds and the low bits of their contexts.
const HINTS: usize = 32;

/// Where the context's place is remembered.
fn hint_of(context: Context) -> usize
    ensures { result < 32 }
{
    match context {
        Context::Gap => 0,
        Context::Unknown => 1,
        Context::Scheduler => 2,
        Context::Idle => 3,
        Context::Timer(timer) => 4 + timer as usize % 4,
        Context::Task(task) => 8 + task as usize % 8,
        Context::Isr(isr) => 16 + isr as usize % 16,
    }
}

impl Model for Totals {
    ghost use Rattle.std.specs.Prelude.{ℕ, List};
    ghost use Rattle.sv_context.specs.declared.context.Context.{Context};

    ghost Value = { List (Context × ℕ) };

    ghost view = { λ t. t.map.entries };
}

impl Totals {
    /// No totals. Takes no memory.
    pub fn new(alloc: Global) -> Totals
        ensures { result ≡ [] }
    {
        Totals {
            map: IndexMap::new(alloc),
            hints: [0; HINTS],
        }
    }

    /// The context's total, or 0.
    pub fn of(&self, context: Context) -> u64
        ensures { result ≡ total_in self.now context }
    {
        match self.map.get(&context) {
            Some(ticks) => *ticks,
            None => 0,
        }
    }

    /// The contexts that have a place.
    pub fn contexts(&self) -> &[Context]
        ensures { result.now ≡ map (λ entry. entry.0) self.now }
    {
        self.map.keys().as_slice()
    }

    /// The place of the context's total, if it is where one of such a context was found before.
    fn hinted(&self, context: Context) -> Option<usize>
        ensures { IfSome result (λ slot.
            slice_get self.now slot ≡ Some (context, total_in self.now context)) }
    {
        let slot = self.hints[hint_of(context)];
        match self.map.get_index(slot) {
            Some((key, _)) => { if *key == context { Some(slot) } else { None } }
            None => None,
        }
    }

    /// The place of the context's total. Where it has none, one with 0 is made.
    pub fn slot(&mut self, context: Context) -> Result<usize, NoMemory>
        ensures at { IfOk result (λ slot.
            slice_get self.new slot ≡ Some (context, total_in self.old context)) }
        ensures same { (other : ContextOf) → total_in self.new other ≡ total_in self.old other }
    {
        if let Some(slot) = self.hinted(context) {
            return Ok(slot);
        }
        self.found(context)
    }

    /// The same, by a search.
    fn found(&mut self, context: Context) -> Result<usize, NoMemory>
        ensures at { IfOk result (λ slot.
            slice_get self.new slot ≡ Some (context, total_in self.old context)) }
        ensures same { (other : ContextOf) → total_in self.new other ≡ total_in self.old other }
    {
        match self.map.get_full(&context) {
            Some((slot, _, _)) => {
                self.hints[hint_of(context)] = slot;
                return Ok(slot);
            }
            None => {}
        }
        let slot = self.map.len();
        let Ok(_) = self.map.insert(context, 0) else {
            return Err(NoMemory);
        };
        Ok(slot)
    }

    /// Adds ticks to the total at the place.
    pub fn add(&mut self, slot: usize, ticks: u64)
        requires there { slot < length self.old }
        requires fits { (context : ContextOf) (had : ℕ) →
            slice_get self.old slot ≡ Some (context, had) → had + ticks < 2 ^ 64 }
        ensures { (context : ContextOf) (had : ℕ) → slice_get self.old slot ≡ Some (context, had) →
            (other : ContextOf) → total_in self.new other
            ≡ (if is_same_context other context then had + ticks else total_in self.old other) }
    {
        let (_, total) = self.map.pair_mut(slot);
        *total += ticks;
    }
}
