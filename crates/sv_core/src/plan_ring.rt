//! A ring whose bytes are freed by a plan.
ghost use Rattle.std.specs.Prelude.{◌≡◌, ◌+◌, ◌-◌, ◌^◌, ◌≤◌, [], None, IfOk, length, min, drop};
ghost use Rattle.sv_ring.specs.Ring.{Way, first_of};

use std::alloc::Global;
use std::marker::Model;
use sv_prim::NoMemory;
use sv_ring::{UpWriter, Wrote};

/// A ring that has no reader: before each write it frees the next number of a plan, or all that is
/// stored and not freed where that is less, and nothing once the plan is used up.
///
/// It keeps all bytes that were stored, so it takes as much memory as its limit.
#[derive(Drop)]
pub struct PlanRing<'a> {
    bytes: Vec<u8>,
    freed: usize,
    size: u32,
    limit: u64,
    frees: &'a [u32],
    used: usize,
}

impl<'a> Model for PlanRing<'a> {
    ghost use Rattle.std.specs.Prelude.{◌≤◌, length, drop, vec_capacity};
    ghost use Rattle.sv_ring.specs.Plain.{FitsPlainRing};
    ghost use Rattle.sv_core.specs.Planned.{PlannedBytes};

    ghost Value = { PlannedBytes };

    ghost view = { λ r. record {
      sent = r.bytes.items;
      freed = r.freed;
      size = r.size;
      limit = r.limit;
      left = drop r.used r.frees.now;
    } };

    ghost invariant = { λ r. FitsPlainRing
        (length r.bytes.items) r.freed r.size r.limit (vec_capacity r.bytes)
        × (r.used ≤ length r.frees.now) };
}

impl<'a> PlanRing<'a> {
    /// An empty ring of `size` bytes, 64 to 65,536, for at most `limit` bytes in all, up to 2^33,
    /// with its plan. The memory for `limit` bytes is taken here.
    pub fn new(
        alloc: Global,
        size: u32,
        limit: u64,
        frees: &'a [u32],
    ) -> Result<PlanRing<'a>, NoMemory>
        requires size { (64 ≤ size) × (size ≤ 65536) }
        requires limit { limit ≤ 2 ^ 33 }
        ensures { IfOk result (λ ring. ring ≡ record {
          sent = [];
          freed = 0;
          size = size;
          limit = limit;
          left = frees.now;
        }) }
    {
        let Ok(room) = usize::try_from(limit) else {
            return Err(NoMemory);
        };
        let Ok(bytes) = Vec::with_capacity(alloc, room) else {
            return Err(NoMemory);
        };
        Ok(PlanRing {
            bytes,
            freed: 0,
            size,
            limit,
            frees,
            used: 0,
        })
    }

    /// All bytes that were stored, from first to last.
    pub fn into_bytes(self) -> Vec<u8>
        ensures { result.items ≡ self.entry.sent }
    {
        self.bytes
    }

    /// Frees by the next number of the plan.
    fn free_next(&mut self)
        ensures { self.new ≡ record self.old {
          freed = self.old.freed
              + min (first_of self.old.left) (length self.old.sent - self.old.freed);
          left = drop 1 self.old.left;
        } }
    {
        if self.used < self.frees.len() {
            let number = self.frees[self.used] as usize;
            self.freed += number.min(self.bytes.len() - self.freed);
            self.used += 1;
        }
    }
}

impl<'a> UpWriter for PlanRing<'a> {
    // It is the only end of its ring, so that its name has nothing to tell.
    ghost ring = { λ r. [] };

    ghost size = { λ r. r.size };

    ghost limit = { λ r. r.limit };

    ghost sent = { λ r. r.sent };

    ghost freed = { λ r. r.freed };

    ghost way = { λ r. Way.Plan r.left };

    ghost looks = { λ r. None };

    fn size(&self) -> u32 {
        self.size
    }

    fn limit(&self) -> u64 {
        self.limit
    }

    fn write_skip(&mut self, block: &[u8]) -> Wrote {
        self.free_next();
        let room = (self.size - 1) as usize - (self.bytes.len() - self.freed);
        if room < block.len() {
            return Wrote::Refused { room: room as u32 };
        }
        match self.bytes.extend_from_slice(block) {
            Ok(()) => Wrote::Stored,
            Err(_) => unreachable!(),
        }
    }

    fn freed(&self) -> u64 {
        self.freed as u64
    }
}
