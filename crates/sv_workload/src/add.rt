//! What a line without a fault adds to a draft.
ghost use Rattle.std.specs.Prelude.{◌≡◌, ◌≤◌, ◌<◌, ◌∷◌, ◌++◌, [], true, false, length, map, OnOk};
ghost use Rattle.std.specs.List.{list_all};
ghost use Rattle.sv_workload.specs.declared.keyword.Keyword.{Keyword};
ghost use Rattle.sv_workload.specs.declared.keyword.Keyword.TheVariants.{Setup, Act, Turn};
ghost use Rattle.sv_workload.specs.Forms.{is_in, form_of};
ghost use Rattle.sv_load.specs.Need.{one_if, is_start_act, IsStepAct, IsTask, HasWords, IsTurn};
ghost use Rattle.sv_load.specs.Need.{IsAsked};
ghost use Rattle.sv_workload.specs.Settings.{tell};
ghost use Rattle.sv_load.specs.Scripts.{onto_last, over_scripts};
ghost use Rattle.sv_workload.specs.Draft.{IsGoodAfter, TakesLine};
ghost use Rattle.sv_desc.specs.Modules.{is_full_for};
ghost use Rattle.sv_load.specs.Limits.{most_steps, most_starts, most_ticks};

use crate::draft::Draft;
use crate::keyword::{ActWord, Keyword, SetupWord};
use crate::parts::{action, command, step, task};
use crate::read_line::ReadLine;
use std::alloc::Global;
use sv_load::{Action, Command, Step, Task};
use sv_prim::{Bytes, NoMemory};

impl Draft {
    /// One more setting is told.
    pub fn add_setting(&mut self, word: SetupWord, n: u32)
        requires { list_all (λ range. is_in range n) (form_of (Setup word)).numbers ≡ true }
        ensures { self.new ≡ record self.old { settings = tell word n self.old.settings } }
    {
        self.settings.tell(word, n);
    }

    /// The system tells its time in microseconds.
    fn add_time(&mut self)
        ensures { self.new ≡ record self.old { timed = true } }
    {
        self.parts.set_timed();
    }

    /// One more line that describes the target, after the others.
    fn add_line(&mut self, text: Bytes) -> Result<(), NoMemory>
        requires few { length self.old.lines < 4 }
        requires some { 1 ≤ length text }
        requires short { length text ≤ 128 }
        ensures { OnOk result (self.new ≡ record self.old { lines = self.old.lines ++ text ∷ [] }) }
    {
        self.parts.add_line(text)
    }

    /// One more module, after the others.
    fn add_module(&mut self, name: Bytes, events: u32)
        requires room { is_full_for self.old.modules events ≡ false }
        requires some { 1 ≤ length name }
        requires short { length name ≤ 128 }
        ensures { self.new ≡ record self.old
            { modules = self.old.modules ++ record { events = events; name = name } ∷ [] } }
    {
        self.parts.add_module(name, events);
    }

    /// One more command, after the others.
    fn add_command(&mut self, command: Command) -> Result<(), NoMemory>
        requires few { length self.old.commands < 256 }
        requires asked { IsAsked command }
        ensures { OnOk result
            (self.new ≡ record self.old { commands = self.old.commands ++ command ∷ [] }) }
    {
        self.parts.add_command(command)
    }

    /// One more task, after the others.
    pub fn add_task(&mut self, task: Task) -> Result<(), NoMemory>
        requires few { length self.old.tasks < 32 }
        requires name { IsTask task }
        requires words { HasWords task }
        ensures { OnOk result (self.new ≡ record self.old { tasks = self.old.tasks ++ task ∷ [] }) }
    {
        self.parts.add_task(task)
    }

    /// One more writer, without a step so far.
    pub fn add_writer(&mut self, alloc: Global) -> Result<(), NoMemory>
        requires { length self.old.scripts < 16 }
        ensures { OnOk result
            (self.new ≡ record self.old { scripts = self.old.scripts ++ [] ∷ [] }) }
    {
        self.parts.add_writer(alloc)
    }

    /// One more step for the writer that was named last.
    #[inline(always)]
    pub fn add_step(&mut self, step: Step) -> Result<(), NoMemory>
        requires writer { 0 < length self.old.scripts }
        requires steps { over_scripts (λ s. 1) self.old.scripts < most_steps }
        requires starts { is_start_act step.act ≡ true
            → over_scripts (λ s. one_if (is_start_act s.act)) self.old.scripts < most_starts }
        requires advance { step.advance ≤ most_ticks }
        requires act { IsStepAct step.act }
        ensures { OnOk result
            (self.new ≡ record self.old { scripts = onto_last step self.old.scripts }) }
    {
        self.parts.add_step(step)
    }

    /// There is a schedule from now on.
    pub fn add_schedule(&mut self)
        ensures { self.new ≡ record self.old { scheduled = true } }
    {
        self.parts.set_scheduled();
    }

    /// One more turn, after the others.
    pub fn add_turn(&mut self, action: Action) -> Result<(), NoMemory>
        requires few { length self.old.schedule < most_steps }
        requires turn { IsTurn (length self.old.scripts) action }
        ensures { OnOk result
            (self.new ≡ record self.old { schedule = self.old.schedule ++ action ∷ [] }) }
    {
        self.parts.add_turn(action)
    }

    /// Adds what a line about the target, a task or the host says.
    fn add_setup(
        &mut self,
        alloc: Global,
        line: &ReadLine<'_>,
        word: SetupWord,
    ) -> Result<(), NoMemory>
        requires keyword { line.now.keyword ≡ Setup word }
        requires good { IsGoodAfter self.old line.now }
        ensures { OnOk result (TakesLine self.old self.new line.now) }
    {
        match word {
            SetupWord::Time => {
                self.add_time();
                Ok(())
            }
            SetupWord::Desc => {
                let text = Bytes::new(alloc, line.text())?;
                self.add_line(text)
            }
            SetupWord::Task => {
                let task = task(alloc, line)?;
                self.add_task(task)
            }
            SetupWord::Module => {
                let name = Bytes::new(alloc, line.text())?;
                self.add_module(name, line.first_number());
                Ok(())
            }
            SetupWord::Command => self.add_command(command(line)),
            _ => {
                self.add_setting(word, line.first_number());
                Ok(())
            }
        }
    }

    /// Adds a step to the writer that was named last.
    #[inline(always)]
    fn add_act(&mut self, alloc: Global, line: &ReadLine<'_>, word: ActWord) -> Result<(), NoMemory>
        requires keyword { line.now.keyword ≡ Act word }
        requires good { IsGoodAfter self.old line.now }
        ensures { OnOk result (TakesLine self.old self.new line.now) }
    {
        let base = self.settings.base();
        let shift = self.settings.shift();
        let step = step(alloc, line, word, base, shift)?;
        self.add_step(step)
    }

    /// Adds what a line without a fault says. Memory is taken for what is kept of it alone.
    #[inline(always)]
    pub fn add(&mut self, alloc: Global, line: &ReadLine<'_>) -> Result<(), NoMemory>
        requires good { IsGoodAfter self.old line.now }
        ensures { OnOk result (TakesLine self.old self.new line.now) }
    {
        match line.keyword() {
            Keyword::Setup(word) => self.add_setup(alloc, line, word),
            Keyword::Writer => self.add_writer(alloc),
            Keyword::Act(word) => self.add_act(alloc, line, word),
            Keyword::Schedule => {
                self.add_schedule();
                Ok(())
            }
            Keyword::Turn(word) => {
                // There are few writers, so that the turn's number is whole.
                let _ = self.parts.writers();
                self.add_turn(action(line, word))
            }
            Keyword::Unknown => Ok(()),
        }
    }
}
