//! The reader of an up ring.
ghost use Rattle.std.specs.Prelude.{◌≡◌, ℕ, ◌+◌, ◌-◌, ◌<◌, ◌≤◌, None, Some, length, take};

use rtrb::Consumer;
use std::alloc::Global;
use std::marker::Model;
use sv_ring::UpReader;

/// Reads a ring whose writer may be in another thread.
#[derive(Drop)]
pub struct RtrbHost {
    pub(crate) consumer: Consumer<u8, Global>,
    pub(crate) limit: u64,
    pub(crate) count: u64,
}

impl Model for RtrbHost {
    ghost use Rattle.std.specs.Prelude.{◌≡◌, ◌+◌, ◌≤◌, min, length};
    ghost use Rattle.rtrb.specs.Ring.{received, known_items};
    ghost use Rattle.sv_ring_rtrb.specs.Ends.{name_of, Reads};

    ghost Value = { Reads };

    ghost view = { λ u. record {
      name = name_of u.consumer.end;
      limit = u.limit;
      taken = received u.consumer;
      seen = min u.limit (length (received u.consumer) + length (known_items u.consumer));
    } };

    ghost invariant = { λ u.
        (u.count ≡ length (received u.consumer)) × (u.count ≤ u.limit) };
}

impl UpReader for RtrbHost {
    ghost ring = { λ u. u.name };

    ghost limit = { λ u. u.limit };

    ghost taken = { λ u. u.taken };

    ghost seen = { λ u. Some u.seen };

    ghost looks = { λ u. None };

    /// Takes the bytes that the queue has, as many as the buffer holds, and frees their slots with
    /// one atomic store.
    fn read(&mut self, buf: &mut [u8]) -> usize {
        let most = (self.limit - self.count).min(buf.len() as u64) as usize;
        let count = self.consumer.pop_partial_slice(&mut buf[..most]);
        self.count += count as u64;
        count
    }
}
