//! Workloads in the making.
ghost use Rattle.std.specs.Prelude.{◌≡◌, ◌<◌, ◌≤◌, ◌∷◌, ◌++◌, [], true, false, length, OnOk, OnErr};
ghost use Rattle.sv_desc.specs.Modules.{is_full_for};
ghost use Rattle.sv_load.specs.Limits.{most_steps, most_starts, most_ticks};
ghost use Rattle.sv_load.specs.Need.{one_if, is_start_act, replies_in, HasNeed};
ghost use Rattle.sv_load.specs.Need.{IsStepAct, IsTask, HasWords, IsAsked, IsTurn};
ghost use Rattle.sv_load.specs.Scripts.{onto_last, over_scripts};
ghost use Rattle.sv_load.specs.Builder.{bare_load};

use crate::load::{Action, Command, Need, Step, Task, Workload};
use crate::scripts::Scripts;
use std::alloc::Global;
use std::marker::Model;
use sv_desc::Modules;
use sv_prim::{Bytes, NoMemory};

/// A workload in the making: each part is put into it by a call, and all parts are within the
/// limits at any time. An `Err` is for too little memory alone, and changes nothing.
#[derive(Drop)]
pub struct Builder {
    ring: u32,
    clock: u32,
    cpu: u32,
    base: u32,
    shift: u32,
    timed: bool,
    lines: Vec<Bytes>,
    tasks: Vec<Task>,
    modules: Modules,
    commands: Vec<Command>,
    scripts: Scripts,
    scheduled: bool,
    schedule: Vec<Action>,
}

impl Model for Builder {
    ghost use Rattle.sv_load.specs.Load.{Load};
    ghost use Rattle.sv_load.specs.Builder.{IsLimited};

    ghost Value = { Load };

    ghost view = { λ b. record {
      ring = b.ring;
      clock = b.clock;
      cpu = b.cpu;
      base = b.base;
      shift = b.shift;
      timed = b.timed;
      lines = b.lines.items;
      tasks = b.tasks.items;
      modules = b.modules;
      commands = b.commands.items;
      scripts = b.scripts;
      scheduled = b.scheduled;
      schedule = b.schedule.items;
    } };

    ghost invariant = { λ b. IsLimited (record {
      ring = b.ring;
      clock = b.clock;
      cpu = b.cpu;
      base = b.base;
      shift = b.shift;
      timed = b.timed;
      lines = b.lines.items;
      tasks = b.tasks.items;
      modules = b.modules;
      commands = b.commands.items;
      scripts = b.scripts;
      scheduled = b.scheduled;
      schedule = b.schedule.items;
    }) };
}

impl Builder {
    /// A workload that does nothing, in the settings that hold where none is put in: a ring of 1024
    /// bytes, both clocks at 1 MHz, and identifiers counted from 0x20000000 and shortened by 2 bits.
    pub fn new(alloc: Global) -> Builder
        ensures { result ≡ bare_load }
    {
        Builder {
            ring: 1024,
            clock: 1000000,
            cpu: 1000000,
            base: 536870912,
            shift: 2,
            timed: false,
            lines: Vec::new(alloc),
            tasks: Vec::new(alloc),
            modules: Modules::new(alloc),
            commands: Vec::new(alloc),
            scripts: Scripts::new(alloc),
            scheduled: false,
            schedule: Vec::new(alloc),
        }
    }

    /// The size of the up ring in bytes.
    pub fn set_ring(&mut self, size: u32)
        requires least { 64 ≤ size }
        requires most { size ≤ 65536 }
        ensures { self.new ≡ record self.old { ring = size } }
    {
        self.ring = size;
    }

    /// The frequency of the clock whose periods are the ticks, in Hz.
    pub fn set_clock(&mut self, hertz: u32)
        requires { 1 ≤ hertz }
        ensures { self.new ≡ record self.old { clock = hertz } }
    {
        self.clock = hertz;
    }

    /// The frequency of the processor in Hz.
    pub fn set_cpu(&mut self, hertz: u32)
        requires { 1 ≤ hertz }
        ensures { self.new ≡ record self.old { cpu = hertz } }
    {
        self.cpu = hertz;
    }

    /// The address that identifiers are counted from.
    pub fn set_base(&mut self, address: u32)
        ensures { self.new ≡ record self.old { base = address } }
    {
        self.base = address;
    }

    /// By how many bits identifiers are shortened.
    pub fn set_shift(&mut self, bits: u32)
        requires { bits ≤ 31 }
        ensures { self.new ≡ record self.old { shift = bits } }
    {
        self.shift = bits;
    }

    /// The system tells its time in microseconds.
    pub fn set_timed(&mut self)
        ensures { self.new ≡ record self.old { timed = true } }
    {
        self.timed = true;
    }

    /// One more line that describes the target, after the others.
    pub fn add_line(&mut self, text: Bytes) -> Result<(), NoMemory>
        requires few { length self.old.lines < 4 }
        requires some { 1 ≤ length text }
        requires short { length text ≤ 128 }
        ensures ok { OnOk result
            (self.new ≡ record self.old { lines = self.old.lines ++ text ∷ [] }) }
        ensures err { OnErr result (self.new ≡ self.old) }
    {
        // A text is made of bytes, by what its type keeps.
        let _ = text.bytes();
        if self.lines.push(text).is_err() {
            return Err(NoMemory);
        }
        Ok(())
    }

    /// One more task, after the others.
    pub fn add_task(&mut self, task: Task) -> Result<(), NoMemory>
        requires few { length self.old.tasks < 32 }
        requires name { IsTask task }
        requires words { HasWords task }
        ensures ok { OnOk result
            (self.new ≡ record self.old { tasks = self.old.tasks ++ task ∷ [] }) }
        ensures err { OnErr result (self.new ≡ self.old) }
    {
        let _ = task.name.bytes();
        if self.tasks.push(task).is_err() {
            return Err(NoMemory);
        }
        Ok(())
    }

    /// One more module, after the others.
    pub fn add_module(&mut self, name: Bytes, events: u32)
        requires room { is_full_for self.old.modules events ≡ false }
        requires some { 1 ≤ length name }
        requires short { length name ≤ 128 }
        ensures { self.new ≡ record self.old
            { modules = self.old.modules ++ record { events = events; name = name } ∷ [] } }
    {
        match self.modules.register(name, events) {
            Ok(_) => {}
            Err(_) => unreachable!(),
        }
    }

    /// One more command, after the others.
    pub fn add_command(&mut self, command: Command) -> Result<(), NoMemory>
        requires few { length self.old.commands < 256 }
        requires asked { IsAsked command }
        ensures ok { OnOk result
            (self.new ≡ record self.old { commands = self.old.commands ++ command ∷ [] }) }
        ensures err { OnErr result (self.new ≡ self.old) }
    {
        if self.commands.push(command).is_err() {
            return Err(NoMemory);
        }
        Ok(())
    }

    /// One more writer, after the others, without a step so far.
    pub fn add_writer(&mut self, alloc: Global) -> Result<(), NoMemory>
        requires { length self.old.scripts < 16 }
        ensures ok { OnOk result
            (self.new ≡ record self.old { scripts = self.old.scripts ++ [] ∷ [] }) }
        ensures err { OnErr result (self.new ≡ self.old) }
    {
        self.scripts.open(alloc)
    }

    /// One more step for the writer that was added last.
    #[inline(always)]
    pub fn add_step(&mut self, step: Step) -> Result<(), NoMemory>
        requires writer { 0 < length self.old.scripts }
        requires steps { over_scripts (λ s. 1) self.old.scripts < most_steps }
        requires starts { is_start_act step.act ≡ true
            → over_scripts (λ s. one_if (is_start_act s.act)) self.old.scripts < most_starts }
        requires advance { step.advance ≤ most_ticks }
        requires act { IsStepAct step.act }
        ensures ok { OnOk result
            (self.new ≡ record self.old { scripts = onto_last step self.old.scripts }) }
        ensures err { OnErr result (self.new ≡ self.old) }
    {
        self.scripts.push(step)
    }

    /// There is a schedule from now on, be it empty.
    pub fn set_scheduled(&mut self)
        ensures { self.new ≡ record self.old { scheduled = true } }
    {
        self.scheduled = true;
    }

    /// One more turn, after the others.
    pub fn add_turn(&mut self, action: Action) -> Result<(), NoMemory>
        requires few { length self.old.schedule < most_steps }
        requires turn { IsTurn (length self.old.scripts) action }
        ensures ok { OnOk result
            (self.new ≡ record self.old { schedule = self.old.schedule ++ action ∷ [] }) }
        ensures err { OnErr result (self.new ≡ self.old) }
    {
        if self.schedule.push(action).is_err() {
            return Err(NoMemory);
        }
        Ok(())
    }

    /// Whether the system tells its time in microseconds.
    pub fn timed(&self) -> bool
        ensures { result ≡ self.now.timed }
    {
        self.timed
    }

    /// The lines that describe the target.
    pub fn lines(&self) -> &[Bytes]
        ensures told { result.now ≡ self.now.lines }
        ensures few { length result.now ≤ 4 }
    {
        self.lines.as_slice()
    }

    /// The tasks that are there from the beginning.
    pub fn tasks(&self) -> &[Task]
        ensures told { result.now ≡ self.now.tasks }
        ensures few { length result.now ≤ 32 }
    {
        self.tasks.as_slice()
    }

    /// The modules that register.
    pub fn modules(&self) -> &Modules
        ensures { result.now ≡ self.now.modules }
    {
        &self.modules
    }

    /// What the host asks.
    pub fn commands(&self) -> &[Command]
        ensures told { result.now ≡ self.now.commands }
        ensures few { length result.now ≤ 256 }
    {
        self.commands.as_slice()
    }

    /// How many writers there are, at most 16.
    pub fn writers(&self) -> u32
        ensures count { result ≡ length self.now.scripts }
        ensures few { length self.now.scripts ≤ 16 }
    {
        self.scripts.writers()
    }

    /// How many steps there are in all scripts, at most 1048576.
    pub fn steps(&self) -> u64
        ensures count { result ≡ over_scripts (λ s. 1) self.now.scripts }
        ensures few { over_scripts (λ s. 1) self.now.scripts ≤ most_steps }
    {
        self.scripts.steps()
    }

    /// How many steps start the recorder, at most 256.
    pub fn starts(&self) -> u64
        ensures count { result ≡ over_scripts (λ s. one_if (is_start_act s.act)) self.now.scripts }
        ensures few { over_scripts (λ s. one_if (is_start_act s.act)) self.now.scripts ≤ most_starts }
    {
        self.scripts.starts()
    }

    /// Whether there is a schedule.
    pub fn scheduled(&self) -> bool
        ensures { result ≡ self.now.scheduled }
    {
        self.scheduled
    }

    /// The lines of the schedule.
    pub fn schedule(&self) -> &[Action]
        ensures told { result.now ≡ self.now.schedule }
        ensures few { length result.now ≤ most_steps }
    {
        self.schedule.as_slice()
    }

    /// How many packets a start or a command records at most.
    fn replies(&self) -> u64
        ensures count { result ≡ replies_in self.now }
        ensures few { result ≤ 136 }
    {
        let modules = u64::from(self.modules.count());
        4 + self.lines.len() as u64 + 2 * self.tasks.len() as u64 + modules
    }

    /// How many items and bytes a journal of the workload and its stream have at most.
    fn need(&self) -> Need
        ensures { HasNeed self.now result }
    {
        // By what the modules keep, they are few and have short names.
        let _ = self.modules.count();
        self.scripts
            .need(self.replies(), self.commands.len() as u64)
    }

    /// The workload of these parts.
    pub fn build(self) -> Workload
        ensures { result ≡ self }
    {
        let need = self.need();
        let writers = self.scripts.into_writers();
        Workload {
            ring: self.ring,
            clock: self.clock,
            cpu: self.cpu,
            base: self.base,
            shift: self.shift,
            timed: self.timed,
            lines: self.lines,
            tasks: self.tasks,
            modules: self.modules,
            commands: self.commands,
            writers,
            scheduled: self.scheduled,
            schedule: self.schedule,
            need,
        }
    }
}
