//! A ring whose two ends are one, as it is made and as it is settled.
ghost use Rattle.std.specs.Prelude.{◌≡◌, ℕ, ◌+◌, ◌-◌, ◌%◌, ◌^◌, ◌<◌, ◌≤◌, [], ◌∷◌, ◌++◌, length};
ghost use Rattle.std.specs.Prelude.{take, IfOk, vec_capacity};
ghost use Rattle.sv_ring.specs.Down.{IsFront};
ghost use Rattle.sv_ring_rtt.specs.Rule.{first_writing, first_reading, all_seen};

use crate::offset::next;
use crate::plays::{Check, Parts, TakeByte};
use crate::read_end::ReadEnd;
use crate::view::{Place, Ring, Sizes};
use crate::write_end::WriteEnd;
use std::alloc::Global;
use std::marker::Model;
use std::sync::Arc;
use sv_prim::NoMemory;

/// Makes a ring, and gives its two ends.
pub(crate) fn ends(alloc: Global, size: u32, limit: u64) -> Result<(WriteEnd, ReadEnd), NoMemory>
    requires size { (0 < size) × (size ≤ 65536) }
    requires limit { limit ≤ 2 ^ 33 }
    ensures ring { IfOk result (λ e. e.0.name ≡ e.1.name) }
    ensures writing { IfOk result (λ e. e.0.writing ≡ first_writing size limit) }
    ensures reading { IfOk result (λ e. e.1.reading ≡ first_reading size limit) }
{
    let mut words: Vec<u64> = Vec::new(alloc);
    let Ok(()) = words.resize(size as usize + 2, 0) else {
        return Err(NoMemory);
    };
    let sizes = Sizes {
        size: u64::from(size),
        limit,
    };
    let Ok((table, mut seat)) = Ring::of_words(alloc, words.as_slice(), &sizes) else {
        return Err(NoMemory);
    };
    let Ok(table) = Arc::new(alloc, table) else {
        return Err(NoMemory);
    };
    let Ok(second) = Arc::try_clone(&table) else {
        return Err(NoMemory);
    };
    let other = table.shared.split_seat::<Parts>(&mut seat);
    Ok((
        WriteEnd {
            table,
            seat,
            size,
            limit,
            stored: 0,
            at: 0,
            freed: 0,
            freed_at: 0,
        },
        ReadEnd {
            table: second,
            seat: other,
            size,
            limit,
            taken: 0,
            at: 0,
            seen: 0,
        },
    ))
}

/// Both ends of a ring in one, which loads what is left in it.
#[derive(Drop)]
pub(crate) struct Whole {
    table: Arc<Ring, Global>,
    seat: Place,
    size: u32,
    stored: u64,
    taken: u64,
    at: u64,
}

impl Model for Whole {
    ghost use Rattle.std.specs.Arc.{arc_value};
    ghost use Rattle.sv_ring_rtt.specs.Rule.{writing_of, reading_of};
    ghost use Rattle.sv_ring_rtt.specs.Ends.{Joined, FitsWhole};

    ghost Value = { Joined };

    ghost view = { λ u.
        record { writing = writing_of u.seat.me.0; reading = reading_of u.seat.me.0 } };

    ghost invariant = { λ u. FitsWhole
        (arc_value u.table).shared.table_id u.seat.table_id u.seat.me
        u.size u.stored u.taken u.at };
}

impl Whole {
    /// Joins the two ends of a ring.
    pub(crate) fn of(write: WriteEnd, read: ReadEnd) -> Whole
        requires ring { write.name ≡ read.name }
        requires pend { write.writing.pend ≡ [] }
        ensures writing { result.writing ≡ write.writing }
        ensures reading { result.reading ≡ all_seen write.writing read.reading }
    {
        let WriteEnd {
            table,
            mut seat,
            size,
            limit: _,
            stored,
            at: _,
            freed: _,
            freed_at: _,
        } = write;
        let ReadEnd {
            table: _,
            seat: other,
            size: _,
            limit: _,
            taken,
            at,
            seen: _,
        } = read;
        table.shared.join_seat::<Parts>(&mut seat, other);
        Whole {
            table,
            seat,
            size,
            stored,
            taken,
            at,
        }
    }

    fn stored(&self) -> u64
        ensures { result ≡ length self.now.writing.sent }
    {
        self.stored
    }

    fn taken(&self) -> u64
        ensures { result ≡ length self.now.reading.got }
    {
        self.taken
    }

    /// Loads the write offset: what was taken is the front of what was stored.
    pub(crate) fn check(&mut self)
        ensures same { self.new ≡ self.old }
        ensures front { IsFront self.old.reading.got self.old.writing.sent }
    {
        self.table.shared.load::<Check>(&mut self.seat, 0);
    }

    /// Loads the next byte.
    fn take(&mut self) -> u8
        requires { length self.old.reading.got < length self.old.writing.sent }
        ensures writing { self.new.writing ≡ self.old.writing }
        ensures reading { self.new.reading
            ≡ record self.old.reading { got = self.old.reading.got ++ result ∷ [] } }
        ensures front { IsFront self.new.reading.got self.new.writing.sent }
    {
        let found = self
            .table
            .shared
            .load::<TakeByte>(&mut self.seat, 2 + self.at as usize);
        self.taken += 1;
        self.at = next(u64::from(self.size), self.at);
        found as u8
    }

    /// Loads all bytes that are left, into a list that has room for them.
    pub(crate) fn take_rest(&mut self, rest: Vec<u8>) -> Vec<u8>
        requires empty { rest.items ≡ [] }
        requires room { length self.old.writing.sent - length self.old.reading.got
            ≤ vec_capacity rest }
        ensures { self.old.reading.got ++ result.items ≡ self.old.writing.sent }
    {
        self.check();
        let mut rest = rest;
        let begin = self.taken();
        let end = self.stored();
        for _place in begin..end {
            rest.push_reserved(self.take());
        }
        rest
    }
}
