//! The groups of items: of a step that records an event, of a start, a stop or a command with its
//! answers.
ghost use Rattle.std.specs.Prelude.{◌≡◌, [], ◌∷◌, false, true, Some, ◌||◌, IfSome};
ghost use Rattle.sv_load.specs.Load.{step_of};
ghost use Rattle.sv_load.specs.Need.{IsStepAct};
ghost use Rattle.sv_journal.specs.Items.{is_start, is_stop};
ghost use Rattle.sv_journal.specs.Legal.{group_of, is_control};
ghost use Rattle.sv_recorder.specs.Formed.{IsFormed};

use crate::answer::Answer;
use crate::book::Book;
use sv_desc::Describes;
use sv_journal::{Kind, Origin, Outcome};
use sv_load::{Act, Command, Step};
use sv_prim::Buf;
use sv_ring::UpWriter;

impl<'w, U: UpWriter + Drop> Book<'w, U> {
    ghost use Rattle.sv_journal.specs.declared.journal.Origin.TheVariants.{Call};
    ghost use Rattle.sv_journal.specs.declared.journal.Origin.TheVariants as origins;
    ghost use Rattle.sv_journal.specs.declared.journal.Outcome.{Outcome};
    ghost use Rattle.sv_recorder.specs.Book.{IsReady};
    ghost use Rattle.sv_recorder.specs.Heads.{KeepsHead, Obeys, Owes};
    ghost use Rattle.sv_recorder.specs.Replies.{IsReadyFor, GoesFor};
    ghost use Rattle.sv_recorder.specs.Answer.{answer_of, Gains, IsAnswered};
    ghost use Rattle.sv_recorder.specs.Tells.{IsOver};

    /// A start, a stop or a command, before its answers. The recorder is then on or off as is said:
    /// on after a start, and else as before.
    fn handle(&mut self, head: Origin, on: bool)
        requires control { is_control self.old.load.now head ≡ true }
        requires on { on ≡ (is_start self.old.load.now head || self.old.on) }
        requires ready { IsReady 1 0 self.old }
        ensures { Owes head self.old self.new }
    {
        self.note(head, Outcome::Handled);
        self.on = on;
    }

    /// A step or a command that starts the recorder: it, and its answers.
    fn start<P: Describes>(&mut self, head: Origin, desc: &P, block: &mut Buf)
        requires start { is_start self.old.load.now head ≡ true }
        requires over { IsOver P.kept P.lines P.clock self.old.load.now desc.now }
        requires ready { IsReadyFor (group_of self.old.load.now head) self.old }
        ensures kept { KeepsHead head self.old self.new }
        ensures goes { GoesFor (head ∷ []) (group_of self.old.load.now head) self.old self.new }
    {
        self.handle(head, true);
        self.describe(desc, block);
    }

    /// A step or a command that stops the recorder: it, and the packet that says so.
    fn stop<P: Describes>(&mut self, head: Origin, desc: &P, block: &mut Buf)
        requires start { is_start self.old.load.now head ≡ false }
        requires stop { is_stop self.old.load.now head ≡ true }
        requires over { IsOver P.kept P.lines P.clock self.old.load.now desc.now }
        requires ready { IsReadyFor (group_of self.old.load.now head) self.old }
        ensures kept { KeepsHead head self.old self.new }
        ensures goes { GoesFor (head ∷ []) (group_of self.old.load.now head) self.old self.new }
    {
        self.handle(head, self.on);
        let reply = Origin::Reply {
            kind: Kind::TraceStop,
            index: 0,
        };
        self.packet(reply, desc, block);
        self.on = false;
    }

    /// A step that records an event.
    #[inline(always)]
    fn event<P: Describes>(&mut self, writer: u32, step: u32, desc: &P, block: &mut Buf) -> Answer
        requires formed { IsFormed self.old.load.now (Call writer step) }
        requires over { IsOver P.kept P.lines P.clock self.old.load.now desc.now }
        requires ready { IsReadyFor (group_of self.old.load.now (Call writer step)) self.old }
        ensures kept { KeepsHead (Call writer step) self.old self.new }
        ensures goes { GoesFor (Call writer step ∷ [])
            (group_of self.old.load.now (Call writer step)) self.old self.new }
        ensures answered { (outcome : Outcome)
            × Gains self.old.journal.items self.new.journal.items (Call writer step) outcome
            × (result ≡ answer_of outcome) }
    {
        let outcome = self.packet(Origin::Call { writer, step }, desc, block);
        Answer::of(outcome)
    }

    /// The next step of a writer's script, whose ticks have passed: it records what it says.
    #[inline(always)]
    pub fn take<P: Describes>(
        &mut self,
        writer: u32,
        place: u32,
        step: &Step,
        desc: &P,
        block: &mut Buf,
    ) -> Answer
        requires step { step_of self.old.load.now writer place ≡ Some step.now }
        requires act { IsStepAct step.now.act }
        requires over { IsOver P.kept P.lines P.clock self.old.load.now desc.now }
        requires ready { IsReadyFor (group_of self.old.load.now (Call writer place)) self.old }
        ensures kept { KeepsHead (Call writer place) self.old self.new }
        ensures goes { GoesFor (Call writer place ∷ [])
            (group_of self.old.load.now (Call writer place)) self.old self.new }
        ensures answered { IsAnswered self.old.load.now self.old.journal.items
            self.new.journal.items (Call writer place) result }
    {
        let call = Origin::Call {
            writer,
            step: place,
        };
        match &step.act {
            Act::Event(_) => self.event(writer, place, desc, block),
            Act::Start => {
                self.start(call, desc, block);
                Answer::Ran
            }
            Act::Stop => {
                self.stop(call, desc, block);
                Answer::Ran
            }
        }
    }

    /// Does what the host asks (UM08027, host commands).
    fn command<P: Describes>(&mut self, command: Command, desc: &P, block: &mut Buf)
        requires over { IsOver P.kept P.lines P.clock self.old.load.now desc.now }
        requires ready { IsReadyFor (group_of self.old.load.now
            (origins.Command command.byte command.param)) self.old }
        ensures kept { KeepsHead (origins.Command command.byte command.param) self.old self.new }
        ensures goes { GoesFor (origins.Command command.byte command.param ∷ [])
            (group_of self.old.load.now (origins.Command command.byte command.param))
            self.old self.new }
    {
        let Command { byte, param } = command;
        let head = Origin::Command { byte, param };
        match byte {
            1 => self.start(head, desc, block),
            2 => self.stop(head, desc, block),
            _ => {
                self.handle(head, self.on);
                self.answer(command, desc, block);
            }
        }
    }

    /// Does what the host asks, if a command was found.
    #[inline(always)]
    pub fn obey<P: Describes>(&mut self, found: Option<Command>, desc: &P, block: &mut Buf)
        requires over { IsOver P.kept P.lines P.clock self.old.load.now desc.now }
        requires ready { IfSome found (λ command. IsReadyFor (group_of self.old.load.now
            (origins.Command command.byte command.param)) self.old) }
        ensures { Obeys found self.old self.new }
    {
        if let Some(command) = found {
            self.command(command, desc, block);
        }
    }
}
