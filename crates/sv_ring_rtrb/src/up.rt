//! The writer of an up ring.
ghost use Rattle.std.specs.Prelude.{◌≡◌, ℕ, ◌+◌, ◌-◌, ◌<◌, ◌≤◌, None, length};
ghost use Rattle.sv_ring.specs.Ring.{Way};

use rtrb::Producer;
use std::alloc::Global;
use std::marker::Model;
use sv_ring::{UpWriter, Wrote};

/// Writes blocks to a ring whose reader may be in another thread.
#[derive(Drop)]
pub struct RtrbUp {
    pub(crate) producer: Producer<u8, Global>,
    pub(crate) size: u32,
    pub(crate) limit: u64,
    pub(crate) stored: u64,
    pub(crate) freed: u64,
}

impl Model for RtrbUp {
    ghost use Rattle.std.specs.Prelude.{length};
    ghost use Rattle.rtrb.specs.Ring.{sent as all_pushed, known_free};
    ghost use Rattle.sv_ring_rtrb.specs.Ends.{name_of, Stores, FitsWriter};

    ghost Value = { Stores };

    ghost view = { λ u. record {
      name = name_of u.producer.end;
      size = u.size;
      limit = u.limit;
      sent = all_pushed u.producer;
      freed = u.freed;
    } };

    ghost invariant = { λ u. FitsWriter
        (length (all_pushed u.producer)) (known_free u.producer) u.size u.limit u.stored u.freed };
}

impl UpWriter for RtrbUp {
    ghost ring = { λ u. u.name };

    ghost size = { λ u. u.size };

    ghost limit = { λ u. u.limit };

    ghost sent = { λ u. u.sent };

    ghost freed = { λ u. u.freed };

    ghost way = { λ u. Way.Beside };

    ghost looks = { λ u. None };

    fn size(&self) -> u32 {
        self.size
    }

    fn limit(&self) -> u64 {
        self.limit
    }

    /// Looks for free slots, and stores the block in them with one atomic store where they are
    /// enough.
    fn write_skip(&mut self, block: &[u8]) -> Wrote {
        let most = (self.size - 1) as usize;
        let room = self.producer.slots().min(most);
        self.freed = self.stored - (most - room) as u64;
        if room < block.len() {
            return Wrote::Refused { room: room as u32 };
        }
        match self.producer.push_entire_slice(block) {
            Ok(()) => {}
            Err(_) => unreachable!(),
        }
        self.stored += block.len() as u64;
        Wrote::Stored
    }

    fn freed(&self) -> u64 {
        self.freed
    }
}
