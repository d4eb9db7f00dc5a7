ghost use Rattle.std.specs.Prelude.{◌≡◌, ℕ, ◌+◌, ◌-◌, ◌<◌, ◌≤◌, ◌↔◌, [], ◌++◌, None, IsNone};
ghost use Rattle.std.specs.Prelude.{IsSome, IfSome, IfNone, IfOk, count_by, length, min, take};
ghost use Rattle.std.specs.Prelude.{Option, drop};
ghost use Rattle.std.specs.Option.{option_map};
ghost use Rattle.sv_ring.specs.Down.{IsFront};
ghost use Rattle.sv_load.specs.Load.{script_of};
ghost use Rattle.sv_load.specs.Need.{need_bytes};
ghost use Rattle.sv_load.specs.declared.load.Command.{Command};
ghost use Rattle.sv_recorder.specs.Answer.{IsAnswered};
ghost use Rattle.sv_recorder.specs.Asked.{HasAsked};
ghost use Rattle.sv_recorder.specs.Commands.{command_bytes_in, MayWait};
ghost use Rattle.sv_recorder.specs.Freed.{AreFreed};
ghost use Rattle.sv_journal.specs.Clock.{clock_of};
ghost use Rattle.sv_journal.specs.Items.{latest_first, is_call_of, is_on, pending_at};
ghost use Rattle.sv_journal.specs.Legal.{IsLegal};
ghost use Rattle.sv_journal.specs.Section.{IsSection};
ghost use Rattle.sv_journal.specs.Stream.{stream_of};

use crate::answer::Answer;
use crate::book::Book;
use crate::inbox::Inbox;
use std::alloc::Global;
use std::marker::Model;
use sv_desc::Describes;
use sv_journal::Journal;
use sv_load::Workload;
use sv_prim::{Buf, NoMemory};
use sv_ring::{DownReader, PlainDown, PlainRing, UpWriter};

/// The target's side of the protocol: it takes the steps of a workload's scripts, forms their
/// packets, stores them in a ring, does what the host asks, and keeps the history of that as a
/// journal.
///
/// Its type keeps that the journal is legal for the workload, that the bytes sent are the stream of
/// the journal, and that the bytes taken from the host are those of the journal's commands and at
/// most one that waits for its parameter. It takes no memory but in [`Recorder::new`], and never
/// waits or fails.
#[derive(Drop)]
pub struct Recorder<'w, U: UpWriter + Drop, D: DownReader + Drop, P: Describes + Drop> {
    book: Book<'w, U>,
    inbox: Inbox<D>,
    desc: P,
    /// How many steps each writer has taken.
    places: [u32; 16],
    /// The packet that was formed last: the next one is formed in its place.
    block: Buf,
}

impl<'w, U: UpWriter + Drop, D: DownReader + Drop, P: Describes + Drop> Model
    for Recorder<'w, U, D, P> {
    ghost use Rattle.sv_recorder.specs.Recording.{Recording, IsRecorder, IsInbox};
    ghost use Rattle.sv_recorder.specs.Tells.{IsOver};
    ghost use Rattle.sv_ring.specs.Down.{given, IsFront};
    ghost use Rattle.std.specs.Prelude.{IfSome};
    ghost use Rattle.std.specs.Prelude.{vec_capacity};

    ghost Value = { Recording };

    ghost view = { λ r. record {
      load = r.book.load.now;
      items = r.book.journal.items;
      ring = U.ring r.book.up;
      size = U.size r.book.up;
      limit = U.limit r.book.up;
      sent = U.sent r.book.up;
      freed = U.freed r.book.up;
      way = U.way r.book.up;
      down = D.ring r.inbox.down;
      answered = D.answered r.inbox.down;
      asked = D.asked r.inbox.down;
      empties = D.empties r.inbox.down;
      kept = given r.inbox.kept;
    } };

    ghost invariant = { λ r. IsRecorder r.book.load.now r.book.journal.items
        (U.sent r.book.up) (U.freed r.book.up) (U.limit r.book.up)
        r.book.on r.book.pending r.book.last r.book.moment r.places (vec_capacity r.book.journal)
        × IsInbox r.book.journal.items (D.answered r.inbox.down) (given r.inbox.kept) r.inbox.count
        × IsOver P.kept P.lines P.clock r.book.load.now r.desc
        × IfSome (D.asked r.inbox.down) (IsFront (D.answered r.inbox.down)) };
}

/// What is left of a recorder: its journal, and its ends of the rings.
#[derive(Drop)]
pub struct Finished<U: UpWriter + Drop, D: DownReader + Drop> {
    pub journal: Journal,
    pub up: U,
    pub down: D,
}

impl<'w, U: UpWriter + Drop, D: DownReader + Drop, P: Describes + Drop> Recorder<'w, U, D, P> {
    ghost use Rattle.sv_journal.specs.declared.journal.Origin.TheVariants.{Call};

    /// A recorder that has recorded nothing and is off, over a ring that has sent nothing and one
    /// of which nothing is taken. The callbacks are for the workload's lines and clock. Room for
    /// all items of the workload's journal is reserved; after NoMemory the parts are dropped.
    pub fn new(
        alloc: Global,
        load: &'w Workload,
        up: U,
        down: D,
        desc: P,
    ) -> Result<Recorder<'w, U, D, P>, NoMemory>
        requires ring { U.size up ≡ load.now.ring }
        requires sent { U.sent up ≡ [] }
        requires freed { U.freed up ≡ 0 }
        requires limit { need_bytes load.now ≤ U.limit up }
        requires answered { D.answered down ≡ [] }
        requires desc { P.kept desc }
        requires lines { P.lines desc ≡ load.now.lines }
        requires clock { P.clock desc ≡ load.now.clock }
        ensures { IfOk result (λ r. r ≡ record {
          load = load.now;
          items = [];
          ring = U.ring up;
          size = U.size up;
          limit = U.limit up;
          sent = [];
          freed = 0;
          way = U.way up;
          down = D.ring down;
          answered = [];
          asked = D.asked down;
          empties = D.empties down;
          kept = [];
        }) }
    {
        let need = load.need();
        let Ok(items) = Vec::with_capacity(alloc, need.items as usize) else {
            return Err(NoMemory);
        };
        let book = Book {
            load,
            up,
            journal: Journal::of(items),
            on: false,
            pending: 0,
            last: 0,
            moment: 0,
        };
        let inbox = Inbox {
            down,
            kept: None,
            count: 0,
        };
        Ok(Recorder {
            book,
            inbox,
            desc,
            places: [0; 16],
            block: Buf::new(),
        })
    }

    /// What the type keeps: the journal is legal for its workload, the bytes sent are its stream,
    /// and no more of them are known to be freed; and the bytes taken from the host are those of
    /// its commands, and at most one that waits for its parameter, the first ones that were sent
    /// where the ring tells those.
    pub fn keeps(&self)
        ensures legal { IsLegal self.now.load self.now.items }
        ensures stream { self.now.sent ≡ stream_of self.now.load self.now.items }
        ensures freed { self.now.freed ≤ length self.now.sent }
        ensures answered { self.now.answered ≡ command_bytes_in self.now.items ++ self.now.kept }
        ensures waits { MayWait self.now.kept }
        ensures front { IfSome self.now.asked (IsFront self.now.answered) }
    {
        let _ = &self.book;
    }

    /// How many steps of this writer's script are left.
    pub fn left(&self, writer: u32) -> u32
        requires { writer < length self.now.load.scripts }
        ensures { result + count_by (λ i. is_call_of writer i.origin) self.now.items
            ≡ length (script_of self.now.load writer) }
    {
        self.book.load.steps(writer).len() as u32 - self.places[writer as usize]
    }

    /// Whether the recorder is on.
    pub fn enabled(&self) -> bool
        ensures { result ≡ is_on self.now.load (latest_first self.now.items) }
    {
        self.book.on
    }

    /// How many packets were refused that no stored overflow has counted yet.
    pub fn pending(&self) -> u32
        ensures { result ≡ pending_at (latest_first self.now.items) }
    {
        self.book.pending
    }

    /// The moment of the last section, in ticks: those of all steps so far.
    pub fn moment(&self) -> u64
        ensures { result ≡ clock_of self.now.load self.now.items }
    {
        self.book.moment
    }

    /// What was recorded so far.
    pub fn journal(&self) -> &Journal
        ensures { result.now.items ≡ self.now.items }
    {
        &self.book.journal
    }

    /// The next step of this writer's script: its ticks pass, and it records what it says. None
    /// where the script is through. Then it does what the host asks, if a whole command is there:
    /// one at most, and none once the workload's commands are through.
    pub fn section(&mut self, writer: u32) -> Option<Answer>
        requires writer { writer < length self.old.load.scripts }
        ensures through { IsNone result
            ↔ (count_by (λ i. is_call_of writer i.origin) self.old.items
            ≡ length (script_of self.old.load writer)) }
        ensures unchanged { IfNone result (self.new ≡ self.old) }
        ensures same { (self.new.load ≡ self.old.load) × (self.new.ring ≡ self.old.ring)
            × (self.new.size ≡ self.old.size) × (self.new.limit ≡ self.old.limit)
            × (self.new.down ≡ self.old.down) × (self.new.asked ≡ self.old.asked) }

        // The group of the step is added, and that of a command where one was found, which is tied
        // to the bytes that were taken. What is known to be freed moves over the items by the way
        // of the ring.
        ensures section { IfSome result (λ _. (found : Option Command)
            × (s : IsSection self.old.items self.new.items writer found)
            × AreFreed self.old.load (latest_first self.old.items) s.more
            self.old.way self.old.freed self.new.way self.new.freed
            × HasAsked self.old self.new found) }

        // The answer is what became of the call of this step, wherever it stands in what is added.
        ensures answered { IfSome result
            (IsAnswered self.old.load self.old.items self.new.items
            (Call writer (count_by (λ i. is_call_of writer i.origin) self.old.items))) }
    {
        let load = self.book.load;
        let steps = load.steps(writer);
        let place = self.places[writer as usize];
        if place as usize == steps.len() {
            return None;
        }
        let step = &steps[place as usize];
        self.book.advance(step.advance);
        let answer = self
            .book
            .take(writer, place, step, &self.desc, &mut self.block);
        self.places[writer as usize] = place + 1;
        let found = self.inbox.next(load.commands().len() as u32);
        self.book.obey(found, &self.desc, &mut self.block);
        Some(answer)
    }

    /// The journal, and the ends of the rings.
    pub fn finish(self) -> Finished<U, D>
        ensures journal { result.journal.items ≡ self.entry.items }
        ensures sent { U.sent result.up ≡ self.entry.sent }
        ensures ring { U.ring result.up ≡ self.entry.ring }
        ensures size { U.size result.up ≡ self.entry.size }
        ensures limit { U.limit result.up ≡ self.entry.limit }
        ensures freed { U.freed result.up ≡ self.entry.freed }
        ensures way { U.way result.up ≡ self.entry.way }
        ensures down { D.ring result.down ≡ self.entry.down }
        ensures answered { D.answered result.down ≡ self.entry.answered }
        ensures asked { D.asked result.down ≡ self.entry.asked }
        ensures empties { D.empties result.down ≡ self.entry.empties }
    {
        let book = self.book;
        Finished {
            journal: book.journal,
            up: book.up,
            down: self.inbox.down,
        }
    }
}

impl<'w, D: DownReader + Drop, P: Describes + Drop> Recorder<'w, PlainRing, D, P> {
    /// What a host does between two sections: it takes as many bytes as the buffer holds, or all
    /// that are left where these are fewer, into the front of the buffer. Says how many.
    pub fn host_read(&mut self, buf: &mut [u8]) -> usize
        ensures count { result ≡ min (length buf.old) (length self.old.sent - self.old.freed) }
        ensures freed { self.new ≡ record self.old { freed = self.old.freed + result } }
        ensures bytes { buf.new
            ≡ take result (drop self.old.freed self.old.sent) ++ drop result buf.old }
    {
        let book = &mut self.book;
        book.up.take(buf)
    }
}

impl<'w, U: UpWriter + Drop, P: Describes + Drop> Recorder<'w, U, PlainDown, P> {
    /// What a host does between two sections: it sends a command. At most 512 bytes may be sent in
    /// all.
    pub fn host_send(&mut self, command: &[u8])
        requires within { IfSome self.old.asked
            (λ asked. length asked + length command.now ≤ 512) }
        ensures { self.new ≡ record self.old
            { asked = option_map (λ asked. asked ++ command.now) self.old.asked } }
    {
        let inbox = &mut self.inbox;
        inbox.down.ask(command);
    }
}
