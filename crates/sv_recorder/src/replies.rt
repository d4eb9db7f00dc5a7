//! What a recorder answers by itself: the packets that describe the target.
ghost use Rattle.std.specs.Prelude.{◌≡◌, [], ◌∷◌, false, true};
ghost use Rattle.sv_journal.specs.Legal.{init_replies, replies_for, start_answers, task_replies};
ghost use Rattle.sv_journal.specs.Legal.{command_answers};
ghost use Rattle.sv_recorder.specs.Formed.{IsThere};

use crate::book::Book;
use sv_desc::Describes;
use sv_journal::{Kind, Origin};
use sv_load::Command;
use sv_prim::Buf;
use sv_ring::UpWriter;

/// What stands before the packets of a start (RTT, synchronisation).
const ZEROS: [u8; 10] = [0; 10];

impl<'w, U: UpWriter + Drop> Book<'w, U> {
    ghost use Rattle.sv_journal.specs.declared.journal.Kind.TheVariants as kinds;
    ghost use Rattle.sv_journal.specs.declared.journal.Origin.TheVariants.{Sync, Reply};
    ghost use Rattle.sv_journal.specs.Items.{is_stop_reply};
    ghost use Rattle.sv_recorder.specs.Replies.{IsReadyFor, Gives, module_replies};
    ghost use Rattle.sv_recorder.specs.Tells.{IsOver};

    /// Ten zero bytes, by which a host finds its place.
    fn sync(&mut self)
        requires ready { IsReadyFor (Sync ∷ []) self.old }
        requires on { self.old.on ≡ true }
        ensures { Gives (Sync ∷ []) self.old self.new }
    {
        let _ = self.write(Origin::Sync, &ZEROS);
    }

    /// Records a reply that is owed, about what is there.
    fn reply<P: Describes>(&mut self, kind: Kind, index: u32, desc: &P, block: &mut Buf)
        requires there { IsThere self.old.load.now kind index }
        requires stays { is_stop_reply (Reply kind index) ≡ false }
        requires over { IsOver P.kept P.lines P.clock self.old.load.now desc.now }
        requires ready { IsReadyFor (Reply kind index ∷ []) self.old }
        ensures { Gives (Reply kind index ∷ []) self.old self.new }
    {
        self.packet(Origin::Reply { kind, index }, desc, block);
    }

    /// The lines that describe the system.
    fn lines<P: Describes>(&mut self, desc: &P, block: &mut Buf)
        requires over { IsOver P.kept P.lines P.clock self.old.load.now desc.now }
        requires ready { IsReadyFor (replies_for kinds.Line self.old.load.now.lines) self.old }
        ensures { Gives (replies_for kinds.Line self.old.load.now.lines) self.old self.new }
    {
        let count = self.load.lines().len() as u32;
        for index in 0..count {
            self.reply(Kind::Line, index, desc, block);
        }
    }

    /// The tasks that are there from the beginning, and their stacks.
    fn tasks<P: Describes>(&mut self, desc: &P, block: &mut Buf)
        requires over { IsOver P.kept P.lines P.clock self.old.load.now desc.now }
        requires ready { IsReadyFor (task_replies self.old.load.now) self.old }
        ensures { Gives (task_replies self.old.load.now) self.old self.new }
    {
        let count = self.load.tasks().len() as u32;
        for index in 0..count {
            self.reply(Kind::Task, index, desc, block);
            self.reply(Kind::Stack, index, desc, block);
        }
    }

    /// The modules, in order of their numbers.
    fn modules<P: Describes>(&mut self, desc: &P, block: &mut Buf)
        requires over { IsOver P.kept P.lines P.clock self.old.load.now desc.now }
        requires ready { IsReadyFor (replies_for kinds.Module self.old.load.now.modules) self.old }
        ensures { Gives (replies_for kinds.Module self.old.load.now.modules) self.old self.new }
    {
        let count = self.load.modules().count();
        for index in 0..count {
            self.reply(Kind::Module, index, desc, block);
        }
    }

    /// The module of this number, if there is one.
    fn module<P: Describes>(&mut self, index: u32, desc: &P, block: &mut Buf)
        requires over { IsOver P.kept P.lines P.clock self.old.load.now desc.now }
        requires ready { IsReadyFor (module_replies self.old.load.now index) self.old }
        ensures { Gives (module_replies self.old.load.now index) self.old self.new }
    {
        if index < self.load.modules().count() {
            self.reply(Kind::Module, index, desc, block);
        }
    }

    /// The system's frequencies and how it names its tasks, and the lines that describe it.
    fn init<P: Describes>(&mut self, desc: &P, block: &mut Buf)
        requires over { IsOver P.kept P.lines P.clock self.old.load.now desc.now }
        requires ready { IsReadyFor (init_replies self.old.load.now) self.old }
        ensures { Gives (init_replies self.old.load.now) self.old self.new }
    {
        self.reply(Kind::Init, 0, desc, block);
        self.lines(desc, block);
    }

    /// What a start answers: ten zeros, and what describes the target.
    pub fn describe<P: Describes>(&mut self, desc: &P, block: &mut Buf)
        requires over { IsOver P.kept P.lines P.clock self.old.load.now desc.now }
        requires ready { IsReadyFor (start_answers self.old.load.now) self.old }
        requires on { self.old.on ≡ true }
        ensures { Gives (start_answers self.old.load.now) self.old self.new }
    {
        self.sync();
        self.reply(Kind::TraceStart, 0, desc, block);
        self.init(desc, block);
        self.reply(Kind::Systime, 0, desc, block);
        self.tasks(desc, block);
        self.reply(Kind::ModuleCount, 0, desc, block);
    }

    /// What a command answers that is neither a start nor a stop (UM08027, host commands).
    pub fn answer<P: Describes>(&mut self, command: Command, desc: &P, block: &mut Buf)
        requires over { IsOver P.kept P.lines P.clock self.old.load.now desc.now }
        requires ready { IsReadyFor
            (command_answers self.old.load.now command.byte command.param) self.old }
        ensures { Gives (command_answers self.old.load.now command.byte command.param)
            self.old self.new }
    {
        match command.byte {
            3 => self.reply(Kind::Systime, 0, desc, block),
            4 => self.tasks(desc, block),
            5 => self.init(desc, block),
            6 => self.reply(Kind::ModuleCount, 0, desc, block),
            7 => self.modules(desc, block),
            128 => self.module(u32::from(command.param), desc, block),
            _ => {}
        }
    }
}
