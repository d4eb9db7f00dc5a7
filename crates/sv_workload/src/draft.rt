//! A workload in the making.
ghost use Rattle.std.specs.Prelude.{◌≡◌, ◌≤◌, ◌+◌, ◌*◌, [], false, length};
ghost use Rattle.sv_workload.specs.Checks.{sets_identifiers, may_stand};
ghost use Rattle.sv_workload.specs.Checking.{is_told};

use crate::fault::LineFault;
use crate::keyword::{ActWord, Keyword, SetupWord, TurnWord};
use crate::read_line::ReadLine;
use crate::settings::Settings;
use std::alloc::Global;
use std::marker::Model;
use sv_load::{
    Builder, MOST_COMMANDS, MOST_LINES, MOST_MODULES, MOST_STARTS, MOST_STEPS, MOST_TASKS,
    MOST_WRITERS, Workload,
};
use sv_prim::{NoMemory, aligned};
use sv_text::is_remark;

/// A workload in the making: what the lines so far told.
#[derive(Drop)]
pub struct Draft {
    pub settings: Settings,
    pub parts: Builder,
}

impl Model for Draft {
    ghost use Rattle.sv_workload.specs.Settings.{AreInRange};
    ghost use Rattle.sv_workload.specs.Draft.{Draft};

    ghost Value = { Draft };

    ghost view = { λ d. record {
      settings = d.settings;
      timed = d.parts.timed;
      lines = d.parts.lines;
      tasks = d.parts.tasks;
      modules = d.parts.modules;
      commands = d.parts.commands;
      scripts = d.parts.scripts;
      scheduled = d.parts.scheduled;
      schedule = d.parts.schedule;
    } };

    ghost invariant = { λ d. AreInRange d.settings };
}

impl Draft {
    ghost use Rattle.sv_workload.specs.Settings.{nothing_told};
    ghost use Rattle.sv_workload.specs.Draft.{load_by};

    /// No line is read yet.
    pub fn new(alloc: Global) -> Draft
        ensures { result ≡ record {
          settings = nothing_told;
          timed = false;
          lines = [];
          tasks = [];
          modules = [];
          commands = [];
          scripts = [];
          scheduled = false;
          schedule = [];
        } }
    {
        Draft {
            settings: Settings::new(),
            parts: Builder::new(alloc),
        }
    }

    /// The workload that the lines told.
    pub fn into_workload(self) -> Workload
        ensures { result ≡ load_by self }
    {
        let settings = self.settings;
        let mut parts = self.parts;
        parts.set_ring(settings.ring());
        parts.set_clock(settings.clock());
        parts.set_cpu(settings.cpu());
        parts.set_base(settings.base());
        parts.set_shift(settings.shift());
        parts.build()
    }
}

/// Whether a setup word says how identifiers are shrunk.
fn sets_identifiers(word: SetupWord) -> bool
    ensures { result ≡ sets_identifiers word }
{
    word == SetupWord::Base || word == SetupWord::Shift
}

/// Whether a keyword may follow, with or without a writer, a task and the schedule before it.
#[inline(always)]
fn may_stand(writer: bool, task: bool, schedule: bool, keyword: Keyword) -> bool
    ensures { result ≡ may_stand writer task schedule keyword }
{
    match keyword {
        Keyword::Setup(word) => !writer && !(sets_identifiers(word) && task),
        Keyword::Writer => !schedule,
        Keyword::Act(_) | Keyword::Schedule => writer && !schedule,
        Keyword::Turn(_) => schedule,
        Keyword::Unknown => false,
    }
}

/// Whether the keyword's setting was told.
#[inline(always)]
fn is_told(settings: &Settings, keyword: Keyword) -> bool
    ensures { result ≡ is_told settings.now keyword }
{
    match keyword {
        Keyword::Setup(SetupWord::Ring) => settings.ring.is_some(),
        Keyword::Setup(SetupWord::Clock) => settings.clock.is_some(),
        Keyword::Setup(SetupWord::Cpu) => settings.cpu.is_some(),
        Keyword::Setup(SetupWord::Base) => settings.base.is_some(),
        Keyword::Setup(SetupWord::Shift) => settings.shift.is_some(),
        _ => false,
    }
}

impl Draft {
    ghost use Rattle.std.specs.Prelude.{◌≡◌, ◌≤◌, ◌==◌, ◌&&◌, not, length};
    ghost use Rattle.std.specs.List.{list_any};
    ghost use Rattle.sv_workload.specs.Settings.{base_told, shift_told};
    ghost use Rattle.sv_workload.specs.Checks.{is_aligned};
    ghost use Rattle.sv_workload.specs.Checking.{has_place, has_all_steps, has_all};
    ghost use Rattle.sv_workload.specs.Checking.{repeats, lacks_writer, lacks_room};

    /// Whether the keyword may stand after the lines of the draft.
    #[inline(always)]
    pub fn has_place(&self, keyword: Keyword) -> bool
        ensures { result ≡ has_place self.now keyword }
    {
        may_stand(
            self.parts.writers() > 0,
            !self.parts.tasks().is_empty(),
            self.parts.scheduled(),
            keyword,
        )
    }

    /// Whether no further step is within the limits.
    #[inline(always)]
    pub fn has_all_steps(&self) -> bool
        ensures { result ≡ has_all_steps self.now }
    {
        self.parts.steps() >= u64::from(MOST_STEPS)
    }

    /// Whether a further line with this keyword is beyond the limits.
    #[inline(always)]
    pub fn has_all(&self, keyword: Keyword) -> bool
        ensures { result ≡ has_all self.now keyword }
    {
        match keyword {
            Keyword::Setup(SetupWord::Desc) => self.parts.lines().len() >= MOST_LINES,
            Keyword::Setup(SetupWord::Task) => self.parts.tasks().len() >= MOST_TASKS,
            Keyword::Setup(SetupWord::Module) => self.parts.modules().count() >= MOST_MODULES,
            Keyword::Setup(SetupWord::Command) => self.parts.commands().len() >= MOST_COMMANDS,
            Keyword::Writer => self.parts.writers() >= MOST_WRITERS,
            Keyword::Act(ActWord::Start) => self.has_all_steps()
                || self.parts.starts() >= MOST_STARTS,
            Keyword::Act(_) => self.has_all_steps(),
            Keyword::Turn(_) => self.parts.schedule().len() >= MOST_STEPS as usize,
            _ => false,
        }
    }

    /// Whether a task with this identifier is there.
    pub fn has_task(&self, id: u32) -> bool
        ensures { result ≡ list_any (λ task. task.id == id) self.now.tasks }
    {
        self.parts.tasks().iter().any(|task| task.id == id)
    }

    /// Whether a keyword's setting, the line `time`, or a task's identifier, was told.
    #[inline(always)]
    pub fn repeats(&self, keyword: Keyword, id: u32) -> bool
        ensures { result ≡ repeats self.now keyword id }
    {
        match keyword {
            Keyword::Setup(SetupWord::Time) => self.parts.timed(),
            Keyword::Setup(SetupWord::Task) => self.has_task(id),
            keyword => is_told(&self.settings, keyword),
        }
    }

    /// Whether nothing of an identifier is lost as it is shrunk.
    #[inline(always)]
    pub fn is_aligned(&self, id: u32) -> bool
        ensures { result ≡
            is_aligned id (base_told self.now.settings) (shift_told self.now.settings) }
    {
        aligned(id, self.settings.base(), self.settings.shift())
    }

    /// Whether something is lost of an identifier, if the number is one.
    #[inline(always)]
    pub fn loses_bits(&self, identifier: bool, id: u32) -> bool
        ensures { result ≡ (identifier
            && not (is_aligned id (base_told self.now.settings) (shift_told self.now.settings))) }
    {
        identifier && !self.is_aligned(id)
    }

    /// Whether a turn goes to a writer that there isn't.
    #[inline(always)]
    pub fn lacks_writer(&self, keyword: Keyword, writer: u32) -> bool
        ensures told { result ≡ lacks_writer self.now keyword writer }
        ensures few { length self.now.scripts ≤ 16 }
    {
        let writers = self.parts.writers();
        match keyword {
            Keyword::Turn(TurnWord::Step) => writer >= writers,
            _ => false,
        }
    }

    /// Whether a module finds no identifiers for its events.
    #[inline(always)]
    pub fn lacks_room(&self, keyword: Keyword, events: u32) -> bool
        ensures { result ≡ lacks_room self.now keyword events }
    {
        match keyword {
            Keyword::Setup(SetupWord::Module) => self.parts.modules().is_full_for(events),
            _ => false,
        }
    }
}

impl Draft {
    ghost use Rattle.std.specs.Prelude.{◌≡◌, List, ℕ, ◌∷◌, ◌++◌, [], Some, None, Ok};
    ghost use Rattle.sv_workload.specs.declared.fault.LineFault.{LineFault};
    ghost use Rattle.sv_workload.specs.Line.{Line, line_from};
    ghost use Rattle.sv_workload.specs.Checks.{fault_of};
    ghost use Rattle.sv_workload.specs.Draft.{Stands};
    ghost use Rattle.sv_workload.specs.Grammar.{said, fault_at};

    /// Takes a line that says something, or tells what is wrong with it.
    #[inline(always)]
    fn take_said(&mut self, alloc: Global, bytes: &[u8]) -> Result<Option<LineFault>, NoMemory>
        requires { (lines : List Line) × Stands self.old lines }
        ensures fault { (lines : List Line) (fault : LineFault) → Stands self.old lines
            → result ≡ Ok (Some fault) → fault_of lines (line_from bytes.now) ≡ Some fault }
        ensures good { (lines : List Line) → Stands self.old lines → result ≡ Ok None
            → (fault_of lines (line_from bytes.now) ≡ None)
            × Stands self.new (lines ++ line_from bytes.now ∷ []) }
    {
        let line = ReadLine::of(bytes);
        if let Some(fault) = self.fault(&line) {
            return Ok(Some(fault));
        }
        self.add(alloc, &line)?;
        Ok(None)
    }

    /// Takes one more line of a text, or tells what is wrong with it after the lines before it.
    #[inline(always)]
    pub fn take(&mut self, alloc: Global, line: &[u8]) -> Result<Option<LineFault>, NoMemory>
        requires { (before : List (List ℕ)) × Stands self.old (said before) }
        ensures fault { (before : List (List ℕ)) (fault : LineFault) → Stands self.old (said before)
            → result ≡ Ok (Some fault) → fault_at before line.now ≡ Some fault }
        ensures good { (before : List (List ℕ)) → Stands self.old (said before) → result ≡ Ok None
            → (fault_at before line.now ≡ None) × Stands self.new (said (before ++ line.now ∷ [])) }
    {
        if is_remark(line) {
            return Ok(None);
        }
        self.take_said(alloc, line)
    }
}
