//! The context after each event.
ghost use Rattle.std.specs.Prelude.{◌≡◌, ◌≢◌, ◌≤◌, List, [], ◌∷◌, ◌++◌, length, IsTrue, OnOk, OnErr};
ghost use Rattle.sv_packet.specs.EventRef.{seen};
ghost use Rattle.sv_packet.specs.declared.event.Event.{Event};
ghost use Rattle.sv_context.specs.Role.{role_of, is_enter};
ghost use Rattle.sv_context.specs.Context.{context_after, anomalies};
ghost use Rattle.sv_context.specs.State.{StandsFor, HasRoom};

use crate::change::{Change, change_of};
use crate::context::Context;
use std::alloc::Global;
use std::marker::Model;
use sv_packet::EventRef;
use sv_prim::NoMemory;

/// The context after the events so far.
///
/// It keeps what runs below all interrupts and timers, and these as a stack of open frames.
#[derive(Drop)]
pub struct Contexts {
    base: Option<Context>,
    frames: Vec<Context>,
    anomalies: u64,
}

impl Model for Contexts {
    ghost use Rattle.std.specs.Prelude.{vec_capacity};
    ghost use Rattle.sv_context.specs.State.{State};

    ghost Value = { State };

    ghost view = { λ c. record {
      base = c.base;
      frames = c.frames.items;
      anomalies = c.anomalies;
      depth = vec_capacity c.frames;
    } };
}

impl Contexts {
    /// The contexts of no events. Takes no memory.
    pub fn new(alloc: Global) -> Contexts
        ensures { StandsFor result [] }
    {
        Contexts {
            base: None,
            frames: Vec::new(alloc),
            anomalies: 0,
        }
    }

    /// Goes on with one more event. Fewer than 2^40 were applied before.
    ///
    /// Memory is taken at an enter beyond the [`depth`] alone. After [`NoMemory`] nothing has
    /// changed.
    ///
    /// [`depth`]: Contexts::depth
    #[inline(always)]
    pub fn apply(&mut self, event: &EventRef<'_>) -> Result<(), NoMemory>
        requires few { HasRoom self.old }
        ensures stands { OnOk result ((events : List Event) → StandsFor self.old events →
            StandsFor self.new (events ++ seen event.now ∷ [])) }
        ensures unchanged { OnErr result (self.new ≡ self.old) }
        ensures depth { self.old.depth ≤ self.new.depth }
        ensures cause { OnErr result (IsTrue (is_enter (role_of (seen event.now)))
            × (self.old.depth ≤ length self.old.frames)) }
    {
        match change_of(event) {
            Change::Break => {
                self.base = None;
                self.frames.clear();
            }
            Change::Base(context) => {
                self.base = Some(context);
                self.frames.clear();
            }
            Change::Enter(context) => {
                if self.frames.reserve(1).is_err() {
                    return Err(NoMemory);
                }
                self.frames.push_reserved(context);
            }
            Change::Exit => {
                if self.frames.pop().is_none() {
                    self.anomalies += 1;
                }
            }
            Change::Nothing => {}
        }
        Ok(())
    }

    /// The context after the events so far. It is no gap.
    #[inline(always)]
    pub fn now(&self) -> Context
        ensures now { (events : List Event) → StandsFor self.now events →
            result ≡ context_after events }
        ensures known { (events : List Event) → StandsFor self.now events → result ≢ Context.Gap }
    {
        match self.frames.last() {
            Some(context) => *context,
            None => self.base.unwrap_or(Context::Unknown),
        }
    }

    /// How many exits found nothing open.
    pub fn anomalies(&self) -> u64
        ensures { (events : List Event) → StandsFor self.now events →
            result ≡ anomalies events }
    {
        self.anomalies
    }

    /// How many open frames need no further memory. Never falls, and no more are open.
    pub fn depth(&self) -> u64
        ensures depth { result ≡ self.now.depth }
        ensures open { length self.now.frames ≤ result }
    {
        self.frames.capacity() as u64
    }
}
