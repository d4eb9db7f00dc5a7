//! The writer of an up ring.
ghost use Rattle.std.specs.Prelude.{◌≡◌, ℕ, ◌+◌, ◌-◌, ◌<◌, ◌≤◌, [], Some};
ghost use Rattle.sv_ring.specs.Ring.{Way};

use crate::write_end::WriteEnd;
use std::marker::Model;
use sv_ring::{UpWriter, Wrote};

/// Writes blocks to a ring whose reader may be in another thread.
#[derive(Drop)]
pub struct RttUp {
    pub(crate) end: WriteEnd,
}

impl Model for RttUp {
    ghost use Rattle.std.specs.Prelude.{◌≡◌, []};
    ghost use Rattle.sv_ring_rtt.specs.Ends.{Writes};

    ghost Value = { Writes };

    ghost view = { λ u. u.end };

    ghost invariant = { λ u. u.end.writing.pend ≡ [] };
}

impl UpWriter for RttUp {
    ghost ring = { λ u. u.name };

    ghost size = { λ u. u.writing.size };

    ghost limit = { λ u. u.writing.limit };

    ghost sent = { λ u. u.writing.sent };

    ghost freed = { λ u. u.writing.seen_freed };

    ghost way = { λ u. Way.Beside };

    ghost looks = { λ u. Some u.writing.looks };

    fn size(&self) -> u32 {
        self.end.size()
    }

    fn limit(&self) -> u64 {
        self.end.limit()
    }

    /// Loads the read offset once. Where the block fits, one store for each byte, and one of the
    /// write offset.
    fn write_skip(&mut self, block: &[u8]) -> Wrote {
        self.end.look();
        let room = self.end.room();
        if (room as usize) < block.len() {
            return Wrote::Refused { room };
        }
        self.end.put_all(block);
        self.end.publish();
        Wrote::Stored
    }

    fn freed(&self) -> u64 {
        self.end.freed()
    }
}
