//! The end that bytes are taken by.
ghost use Rattle.std.specs.Prelude.{◌≡◌, ℕ, ◌+◌, ◌-◌, ◌%◌, ◌^◌, ◌<◌, ◌≤◌, [], ◌∷◌, ◌++◌, length};
ghost use Rattle.std.specs.Prelude.{take};

use crate::offset::{ahead, next};
use crate::plays::{Find, Release, TakeByte};
use crate::view::{Place, Ring};
use std::alloc::Global;
use std::marker::Model;
use std::sync::Arc;

/// Takes bytes from a ring, one at a time, and shows the writer that they are taken.
#[derive(Drop)]
pub(crate) struct ReadEnd {
    pub(crate) table: Arc<Ring, Global>,
    pub(crate) seat: Place,
    pub(crate) size: u32,
    pub(crate) limit: u64,
    pub(crate) taken: u64,
    pub(crate) at: u64,
    pub(crate) seen: u64,
}

impl Model for ReadEnd {
    ghost use Rattle.std.specs.Arc.{arc_value};
    ghost use Rattle.sv_ring_rtt.specs.Rule.{reading_of};
    ghost use Rattle.sv_ring_rtt.specs.Ends.{name_of, Reads, FitsReader};

    ghost Value = { Reads };

    ghost view = { λ u.
        record { name = name_of u.seat.table_id; reading = reading_of u.seat.me.0 } };

    ghost invariant = { λ u. FitsReader
        (arc_value u.table).shared.table_id (arc_value u.table).shared.key u.seat.table_id u.seat.me
        u.size u.limit u.taken u.at u.seen };
}

impl ReadEnd {
    /// How many bytes are taken.
    pub(crate) fn taken(&self) -> u64
        ensures { result ≡ length self.now.reading.got }
    {
        self.taken
    }

    /// How many bytes are known to be stored and are not taken.
    pub(crate) fn known(&self) -> u64
        ensures known { result ≡ self.now.reading.seen_sent - length self.now.reading.got }
        ensures order { length self.now.reading.got ≤ self.now.reading.seen_sent }
        ensures within { self.now.reading.seen_sent ≤ self.now.reading.limit }
        ensures limit { self.now.reading.limit ≤ 2 ^ 33 }
    {
        self.seen - self.taken
    }

    /// Loads the write offset, where the writer knows of all bytes that are taken.
    pub(crate) fn find(&mut self)
        requires { self.old.reading.freed ≡ length self.old.reading.got }
        ensures name { self.new.name ≡ self.old.name }
        ensures reading { self.new.reading ≡ record self.old.reading {
          seen_sent = self.new.reading.seen_sent;
          looks = self.old.reading.looks + 1;
        } }
    {
        let found = self.table.shared.load::<Find>(&mut self.seat, 0);
        self.seen = self.taken + ahead(u64::from(self.size), self.at, found);
    }

    /// Loads the next byte.
    pub(crate) fn take(&mut self) -> u8
        requires { length self.old.reading.got < self.old.reading.seen_sent }
        ensures name { self.new.name ≡ self.old.name }
        ensures reading { self.new.reading
            ≡ record self.old.reading { got = self.old.reading.got ++ result ∷ [] } }
    {
        let found = self
            .table
            .shared
            .load::<TakeByte>(&mut self.seat, 2 + self.at as usize);
        self.taken += 1;
        self.at = next(u64::from(self.size), self.at);
        found as u8
    }

    /// Loads the next bytes into the front of the buffer.
    pub(crate) fn take_all(&mut self, buf: &mut [u8], count: usize)
        requires bound { count ≤ length buf.old }
        requires known { length self.old.reading.got + count ≤ self.old.reading.seen_sent }
        ensures name { self.new.name ≡ self.old.name }
        ensures reading { self.new.reading
            ≡ record self.old.reading { got = self.old.reading.got ++ take count buf.new } }
        ensures buf { length buf.new ≡ length buf.old }
    {
        for place in 0..count {
            buf[place] = self.take();
        }
    }

    /// Stores the read offset, so that the writer knows that all these bytes are taken.
    pub(crate) fn release(&mut self)
        ensures name { self.new.name ≡ self.old.name }
        ensures reading { self.new.reading ≡ record self.old.reading {
          freed = length self.old.reading.got;
          stamp = self.new.reading.stamp;
        } }
    {
        self.table
            .shared
            .store::<Release>(&mut self.seat, 1, self.at);
    }
}
