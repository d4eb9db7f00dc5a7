//! The ends of a down ring.
ghost use Rattle.std.specs.Prelude.{◌≡◌, ℕ, ◌+◌, ◌-◌, ◌<◌, ◌≤◌, None, Some, length};

use rtrb::{Consumer, Producer};
use std::alloc::Global;
use std::marker::Model;
use sv_ring::{DownReader, DownWriter};

/// Sends commands to a ring whose reader may be in another thread.
///
/// The queue has a slot for each byte that commands may have in all, so that there is always room.
#[derive(Drop)]
pub struct RtrbDown {
    pub(crate) producer: Producer<u8, Global>,
}

impl Model for RtrbDown {
    ghost use Rattle.std.specs.Prelude.{◌+◌, ◌≤◌, length};
    ghost use Rattle.rtrb.specs.Ring.{sent, known_free};
    ghost use Rattle.sv_ring_rtrb.specs.Ends.{name_of, Sends};

    ghost Value = { Sends };

    ghost view = { λ u. record { name = name_of u.producer.end; asked = sent u.producer } };

    ghost invariant = { λ u. 512 ≤ length (sent u.producer) + known_free u.producer };
}

impl DownWriter for RtrbDown {
    ghost ring = { λ u. u.name };

    ghost asked = { λ u. u.asked };

    /// One atomic store.
    fn send(&mut self, command: &[u8]) {
        match self.producer.push_entire_slice(command) {
            Ok(()) => {}
            Err(_) => unreachable!(),
        }
    }
}

/// Takes commands from a ring whose writer may be in another thread.
#[derive(Drop)]
pub struct RtrbTarget {
    pub(crate) consumer: Consumer<u8, Global>,
    pub(crate) count: u64,
    pub(crate) empties: u64,
}

impl Model for RtrbTarget {
    ghost use Rattle.std.specs.Prelude.{◌≡◌, ◌+◌, ◌≤◌, min, length};
    ghost use Rattle.rtrb.specs.Ring.{received, known_items};
    ghost use Rattle.sv_ring_rtrb.specs.Ends.{name_of, Takes};

    ghost Value = { Takes };

    ghost view = { λ u. record {
      name = name_of u.consumer.end;
      answered = received u.consumer;
      empties = u.empties;
      seen = min 512 (length (received u.consumer) + length (known_items u.consumer));
    } };

    ghost invariant = { λ u. (u.count ≡ length (received u.consumer)) × (u.count ≤ 512) };
}

impl DownReader for RtrbTarget {
    ghost ring = { λ u. u.name };

    ghost answered = { λ u. u.answered };

    ghost empties = { λ u. u.empties };

    ghost asked = { λ u. None };

    ghost seen = { λ u. Some u.seen };

    ghost looks = { λ u. None };

    /// Takes the byte in the next slot, where there is one.
    fn next(&mut self) -> Option<u8> {
        if self.count < 512 {
            if let Ok(byte) = self.consumer.pop() {
                self.count += 1;
                return Some(byte);
            }
        }
        self.empties = self.empties.saturating_add(1);
        None
    }
}
