//! Workloads and their parts.
ghost use Rattle.std.specs.Prelude.{◌≡◌, ◌<◌, ◌≤◌, All, length};
ghost use Rattle.sv_load.specs.Load.{script_of};
ghost use Rattle.sv_load.specs.Need.{need_items, need_bytes, IsWithinLimits};
ghost use Rattle.sv_load.specs.Need.{IsStepAct, IsTask, HasWords, IsAsked, IsTurn};
ghost use Rattle.sv_load.specs.Limits.{most_steps, most_ticks};

use std::marker::Model;
use sv_desc::Modules;
use sv_packet::Event;
use sv_prim::Bytes;

/// A task, with its identifier as the target names it.
#[derive(Debug, Drop)]
pub struct Task {
    /// An address, that is not shrunk yet.
    pub id: u32,
    pub priority: u32,
    /// The address of its stack.
    pub stack_base: u32,
    /// The size of its stack in bytes.
    pub stack_size: u32,
    /// What a target may say more of the stack.
    pub extra: u32,
    /// At most 32 bytes, all of which can be printed.
    pub name: Bytes,
}

/// What the host asks: a byte, and a parameter from the byte 128 on.
#[derive(Debug, Clone, Copy, PartialEq, Eq, Drop)]
pub struct Command {
    pub byte: u8,
    pub param: u8,
}

/// What a step does: it records an event, or starts or stops the recorder.
#[derive(Debug, Drop)]
pub enum Act {
    Event(Event),
    Start,
    Stop,
}

/// A step of a writer.
#[derive(Debug, Drop)]
pub struct Step {
    /// The ticks that pass before it, at most 2^33.
    pub advance: u64,
    pub act: Act,
}

/// A line of the schedule.
#[derive(Debug, Clone, Copy, PartialEq, Eq, Drop)]
pub enum Action {
    /// So many steps of a writer, 1 to 1048576. Writers are counted from 0.
    Step { writer: u32, count: u32 },
    /// The host takes so many bytes at most, 1 to 65536.
    Read { most: u32 },
    /// The host sends its next command.
    Send,
}

/// How many items and bytes a journal and its stream have at most.
#[derive(Debug, Clone, Copy, PartialEq, Eq, Drop)]
pub struct Need {
    pub items: u64,
    pub bytes: u64,
}

/// What the writers of a run do: the settings, what there is to describe, and what each writer and
/// the host do.
#[derive(Debug, Drop)]
pub struct Workload {
    pub(crate) ring: u32,
    pub(crate) clock: u32,
    pub(crate) cpu: u32,
    pub(crate) base: u32,
    pub(crate) shift: u32,
    pub(crate) timed: bool,
    pub(crate) lines: Vec<Bytes>,
    pub(crate) tasks: Vec<Task>,
    pub(crate) modules: Modules,
    pub(crate) commands: Vec<Command>,
    pub(crate) writers: Vec<Vec<Step>>,
    pub(crate) scheduled: bool,
    pub(crate) schedule: Vec<Action>,
    pub(crate) need: Need,
}

impl Model for Workload {
    ghost use Rattle.std.specs.Prelude.{List, map};
    ghost use Rattle.sv_load.specs.Load.{Load};
    ghost use Rattle.sv_load.specs.Need.{HasNeed};

    ghost Value = { Load };

    ghost view = { λ w. record {
      ring = w.ring;
      clock = w.clock;
      cpu = w.cpu;
      base = w.base;
      shift = w.shift;
      timed = w.timed;
      lines = w.lines.items;
      tasks = w.tasks.items;
      modules = w.modules;
      commands = w.commands.items;
      scripts = map (λ s. s.items) w.writers.items;
      scheduled = w.scheduled;
      schedule = w.schedule.items;
    } };

    ghost invariant = { λ w. HasNeed (record {
      ring = w.ring;
      clock = w.clock;
      cpu = w.cpu;
      base = w.base;
      shift = w.shift;
      timed = w.timed;
      lines = w.lines.items;
      tasks = w.tasks.items;
      modules = w.modules;
      commands = w.commands.items;
      scripts = map (λ s. s.items) w.writers.items;
      scheduled = w.scheduled;
      schedule = w.schedule.items;
    }) w.need };
}

impl Workload {
    /// The size of the up ring, from 64 to 65536 bytes.
    pub fn ring(&self) -> u32
        ensures told { result ≡ self.now.ring }
        ensures least { 64 ≤ result }
        ensures most { result ≤ 65536 }
    {
        self.ring
    }

    /// The frequency of the clock whose periods are the ticks, in Hz, at least 1.
    pub fn clock(&self) -> u32
        ensures told { result ≡ self.now.clock }
        ensures least { 1 ≤ result }
    {
        self.clock
    }

    /// The frequency of the processor in Hz, at least 1.
    pub fn cpu(&self) -> u32
        ensures told { result ≡ self.now.cpu }
        ensures least { 1 ≤ result }
    {
        self.cpu
    }

    /// The address that identifiers are counted from.
    pub fn base(&self) -> u32
        ensures { result ≡ self.now.base }
    {
        self.base
    }

    /// By how many bits identifiers are shortened, from 0 to 31.
    pub fn shift(&self) -> u32
        ensures told { result ≡ self.now.shift }
        ensures most { result ≤ 31 }
    {
        self.shift
    }

    /// Whether the system tells its time in microseconds.
    pub fn timed(&self) -> bool
        ensures { result ≡ self.now.timed }
    {
        self.timed
    }

    /// The lines that describe the system, at most four of 1 to 128 bytes.
    pub fn lines(&self) -> &[Bytes]
        ensures told { result.now ≡ self.now.lines }
        ensures few { length result.now ≤ 4 }
        ensures some { All (λ text. 1 ≤ length text) result.now }
        ensures short { All (λ text. length text ≤ 128) result.now }
    {
        self.lines.as_slice()
    }

    /// The tasks that are there from the beginning, at most 32, with names of 1 to 32 bytes.
    pub fn tasks(&self) -> &[Task]
        ensures told { result.now ≡ self.now.tasks }
        ensures few { length result.now ≤ 32 }
        ensures named { All IsTask result.now }
        ensures words { All HasWords result.now }
    {
        self.tasks.as_slice()
    }

    /// The modules that register, in order, at most 64.
    pub fn modules(&self) -> &Modules
        ensures { result.now ≡ self.now.modules }
    {
        &self.modules
    }

    /// What the host asks, in order, at most 256 times.
    pub fn commands(&self) -> &[Command]
        ensures told { result.now ≡ self.now.commands }
        ensures few { length result.now ≤ 256 }
        ensures asked { All IsAsked result.now }
    {
        self.commands.as_slice()
    }

    /// How many writers there are, at most 16.
    pub fn writers(&self) -> u32
        ensures count { result ≡ length self.now.scripts }
        ensures limits { IsWithinLimits self.now }
    {
        self.writers.len() as u32
    }

    /// The script of a writer.
    fn script(&self, writer: u32) -> &[Step]
        requires { writer < length self.now.scripts }
        ensures told { result.now ≡ script_of self.now writer }
        ensures limits { IsWithinLimits self.now }
    {
        self.writers[writer as usize].as_slice()
    }

    /// The steps of a writer, in order. Each passes at most 2^33 ticks, and records what a recorder
    /// takes: no overflow, start or stop of a trace, in a packet of at most 138 bytes.
    pub fn steps(&self, writer: u32) -> &[Step]
        requires { writer < length self.now.scripts }
        ensures told { result.now ≡ script_of self.now writer }
        ensures advances { All (λ step. step.advance ≤ most_ticks) result.now }
        ensures acts { All (λ step. IsStepAct step.act) result.now }
    {
        self.script(writer)
    }

    /// Whether there is a schedule, be it empty.
    pub fn scheduled(&self) -> bool
        ensures { result ≡ self.now.scheduled }
    {
        self.scheduled
    }

    /// The lines of the schedule, in order, at most 1048576. Each step's writer is there.
    pub fn schedule(&self) -> &[Action]
        ensures told { result.now ≡ self.now.schedule }
        ensures few { length result.now ≤ most_steps }
        ensures turns { All (IsTurn (length self.now.scripts)) result.now }
    {
        self.schedule.as_slice()
    }

    /// How many items and bytes a journal of this workload and its stream have at most.
    pub fn need(&self) -> Need
        ensures items { result.items ≡ need_items self.now }
        ensures bytes { result.bytes ≡ need_bytes self.now }
        ensures limits { IsWithinLimits self.now }
        ensures few { result.items < 3400000 }
        ensures short { result.bytes < 181000000 }
    {
        self.need
    }
}
