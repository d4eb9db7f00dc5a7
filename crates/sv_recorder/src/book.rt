//! The journal as it is written, one item at a time, beside the ring.
ghost use Rattle.std.specs.Prelude.{◌≡◌, ℕ, ◌+◌, ◌^◌, ◌<◌, ◌≤◌, ◌++◌, [], ◌∷◌, true, false, nat_lt};
ghost use Rattle.std.specs.Prelude.{if◌then◌else◌, List, length, vec_capacity};
ghost use Rattle.sv_ring.specs.Ring.{room_of};
ghost use Rattle.sv_load.specs.Need.{HasShortTexts};
ghost use Rattle.sv_recorder.specs.Writes.{WritesItem, MovesBy, outcome_if};
ghost use Rattle.sv_journal.specs.Items.{item_of};

use sv_journal::{Item, Journal, Origin, Outcome};
use sv_load::Workload;
use sv_ring::{UpWriter, Wrote};

/// A journal and the ring that its stored blocks go to, with three values that spare a look back:
/// whether the recorder is on, how many packets are pending since the last stored overflow, and the
/// moment of the last stored packet. `moment` is that of the section at work, in ticks.
#[derive(Drop)]
pub struct Book<'w, U: UpWriter + Drop> {
    pub load: &'w Workload,
    pub up: U,
    pub journal: Journal,
    pub on: bool,
    pub pending: u32,
    pub last: u64,
    pub moment: u64,
    ghost texts: { HasShortTexts load.now },
    ghost ring: { U.size up ≡ load.now.ring },
    ghost later: { last ≤ moment },
    ghost early: { moment ≤ 2 ^ 53 },
}

/// Whether the ring took the block.
#[inline(always)]
fn stores<U: UpWriter>(up: &mut U, block: &[u8]) -> bool
    requires some { 0 < length block.now }
    requires within { length (U.sent up.old) + length block.now ≤ U.limit up.old }
    ensures same { (U.ring up.new ≡ U.ring up.old) × (U.size up.new ≡ U.size up.old)
        × (U.limit up.new ≡ U.limit up.old) }
    ensures decided { result ≡ (if nat_lt (room_of (U.size up.old) (U.sent up.old) (U.freed up.new))
        (length block.now) then false else true) }
    ensures grown { U.sent up.new ≡ U.sent up.old ++ (if result then block.now else []) }
    ensures bounded { (U.freed up.old ≤ U.freed up.new)
        × (U.freed up.new ≤ length (U.sent up.old)) }
    ensures moves { MovesBy U.size U.sent U.freed U.way up.old up.new block.now result }
{
    match up.write_skip(block) {
        Wrote::Stored => true,
        Wrote::Refused { .. } => false,
    }
}

/// What became of a block.
#[inline(always)]
pub fn outcome_of(stored: bool) -> Outcome
    ensures { result ≡ outcome_if stored }
{
    if stored {
        Outcome::Stored
    } else {
        Outcome::Refused
    }
}

impl<'w, U: UpWriter + Drop> Book<'w, U> {
    ghost use Rattle.sv_recorder.specs.Book.{Advances, IsReady, Stays};

    /// The ticks of a step pass.
    #[inline(always)]
    pub fn advance(&mut self, ticks: u64)
        requires { self.old.moment + ticks ≤ 2 ^ 53 }
        ensures { Advances ticks self.old self.new }
    {
        self.moment += ticks;
    }

    /// One item more, of the moment and with what the ring knows to be freed.
    #[inline(always)]
    pub fn note(&mut self, origin: Origin, outcome: Outcome)
        requires room { length self.old.journal.items < vec_capacity self.old.journal }
        ensures item { self.new.journal.items ≡ self.old.journal.items
            ++ item_of origin self.old.moment (U.freed self.old.up) outcome ∷ [] }
        ensures up { self.new.up ≡ self.old.up }
        ensures stays { Stays self.old self.new }
    {
        let freed = self.up.freed();
        let moment = self.moment;
        self.journal.push_reserved(Item {
            origin,
            moment,
            freed,
            outcome,
        });
    }

    /// Writes a block, notes what became of it, and says whether it is stored.
    #[inline(always)]
    pub fn write(&mut self, origin: Origin, block: &[u8]) -> bool
        requires some { 0 < length block.now }
        requires ready { IsReady 1 (length block.now) self.old }
        ensures writes { WritesItem (U.size self.old.up) self.old.journal.items
            self.new.journal.items (U.sent self.old.up) (U.sent self.new.up) (U.freed self.old.up)
            (U.freed self.new.up) origin self.old.moment block.now result }
        ensures stays { Stays self.old self.new }
        ensures moves { MovesBy U.size U.sent U.freed U.way self.old.up self.new.up block.now
            result }
    {
        let stored = stores(&mut self.up, block);
        self.note(origin, outcome_of(stored));
        stored
    }
}
