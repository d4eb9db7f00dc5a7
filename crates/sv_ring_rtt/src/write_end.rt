//! The end that bytes are stored by.
ghost use Rattle.std.specs.Prelude.{◌≡◌, ℕ, ◌+◌, ◌-◌, ◌%◌, ◌<◌, ◌≤◌, [], ◌∷◌, ◌++◌, length};
ghost use Rattle.sv_ring_rtt.specs.Rule.{laid};

use crate::offset::{ahead, next};
use crate::plays::{Look, Publish, PutByte};
use crate::view::{Place, Ring};
use std::alloc::Global;
use std::marker::Model;
use std::sync::Arc;

/// Stores bytes in a ring, one at a time, and shows them to the reader.
///
/// The offsets are kept beside the counts, so that no step divides.
#[derive(Drop)]
pub(crate) struct WriteEnd {
    pub(crate) table: Arc<Ring, Global>,
    pub(crate) seat: Place,
    pub(crate) size: u32,
    pub(crate) limit: u64,
    pub(crate) stored: u64,
    pub(crate) at: u64,
    pub(crate) freed: u64,
    pub(crate) freed_at: u64,
}

impl Model for WriteEnd {
    ghost use Rattle.std.specs.Arc.{arc_value};
    ghost use Rattle.sv_ring_rtt.specs.Rule.{writing_of};
    ghost use Rattle.sv_ring_rtt.specs.Ends.{name_of, Writes, FitsWriter};

    ghost Value = { Writes };

    ghost view = { λ u.
        record { name = name_of u.seat.table_id; writing = writing_of u.seat.me.0 } };

    ghost invariant = { λ u. FitsWriter
        (arc_value u.table).shared.table_id (arc_value u.table).shared.key u.seat.table_id u.seat.me
        u.size u.limit u.stored u.at u.freed u.freed_at };
}

impl WriteEnd {
    pub(crate) fn size(&self) -> u32
        ensures size { result ≡ self.now.writing.size }
        ensures most { (0 < result) × (result ≤ 65536) }
    {
        self.size
    }

    pub(crate) fn limit(&self) -> u64
        ensures { result ≡ self.now.writing.limit }
    {
        self.limit
    }

    /// How many bytes are stored.
    pub(crate) fn stored(&self) -> u64
        ensures { result ≡ laid self.now.writing }
    {
        self.stored
    }

    pub(crate) fn freed(&self) -> u64
        ensures { result ≡ self.now.writing.seen_freed }
    {
        self.freed
    }

    /// How many more bytes there is room for, by what is known to be taken.
    pub(crate) fn room(&self) -> u32
        ensures room { result
            ≡ self.now.writing.size - 1 - (laid self.now.writing - self.now.writing.seen_freed) }
        ensures freed { self.now.writing.seen_freed ≤ length self.now.writing.sent }
        ensures held { laid self.now.writing < self.now.writing.seen_freed + self.now.writing.size }
    {
        self.size - 1 - (self.stored - self.freed) as u32
    }

    /// Loads the read offset.
    pub(crate) fn look(&mut self)
        ensures name { self.new.name ≡ self.old.name }
        ensures writing { self.new.writing ≡ record self.old.writing {
          seen_freed = self.new.writing.seen_freed;
          looks = self.old.writing.looks + 1;
        } }
        ensures more { self.old.writing.seen_freed ≤ self.new.writing.seen_freed }
        ensures bound { self.new.writing.seen_freed ≤ length self.old.writing.sent }
    {
        let found = self.table.shared.load::<Look>(&mut self.seat, 1);
        self.freed += ahead(u64::from(self.size), self.freed_at, found);
        self.freed_at = found;
    }

    /// Stores a byte in the next cell, where the reader does not see it yet.
    pub(crate) fn put(&mut self, byte: u8)
        requires space { laid self.old.writing + 1
            < self.old.writing.seen_freed + self.old.writing.size }
        requires within { laid self.old.writing < self.old.writing.limit }
        ensures name { self.new.name ≡ self.old.name }
        ensures writing { self.new.writing
            ≡ record self.old.writing { pend = self.old.writing.pend ++ byte ∷ [] } }
    {
        self.table
            .shared
            .store::<PutByte>(&mut self.seat, 2 + self.at as usize, u64::from(byte));
        self.stored += 1;
        self.at = next(u64::from(self.size), self.at);
    }

    /// Stores the block behind the bytes that are stored, where the reader does not see it yet.
    pub(crate) fn put_all(&mut self, block: &[u8])
        requires space { laid self.old.writing + length block.now
            < self.old.writing.seen_freed + self.old.writing.size }
        requires within { laid self.old.writing + length block.now ≤ self.old.writing.limit }
        ensures name { self.new.name ≡ self.old.name }
        ensures writing { self.new.writing
            ≡ record self.old.writing { pend = self.old.writing.pend ++ block.now } }
    {
        for byte in block {
            self.put(*byte);
        }
    }

    /// Stores the write offset, so that the reader sees all bytes that are stored.
    pub(crate) fn publish(&mut self)
        ensures name { self.new.name ≡ self.old.name }
        ensures writing { self.new.writing ≡ record self.old.writing {
          sent = self.old.writing.sent ++ self.old.writing.pend;
          pend = [];
          stamp = self.new.writing.stamp;
        } }
    {
        self.table
            .shared
            .store::<Publish>(&mut self.seat, 0, self.at);
    }
}
