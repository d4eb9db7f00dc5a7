//! The ends of a down ring.
ghost use Rattle.std.specs.Prelude.{◌≡◌, ℕ, ◌+◌, ◌-◌, ◌<◌, ◌≤◌, [], Some, None, length};

use crate::read_end::ReadEnd;
use crate::write_end::WriteEnd;
use std::marker::Model;
use sv_ring::{DownReader, DownWriter};

/// Sends commands to a ring whose reader may be in another thread.
///
/// The ring has more cells than commands have bytes in all, so that there is always room.
#[derive(Drop)]
pub struct RttDown {
    pub(crate) end: WriteEnd,
}

impl Model for RttDown {
    ghost use Rattle.std.specs.Prelude.{◌≡◌, []};
    ghost use Rattle.sv_ring_rtt.specs.Ends.{Writes};

    ghost Value = { Writes };

    ghost view = { λ u. u.end };

    ghost invariant = { λ u.
        (u.end.writing.pend ≡ [])
        × (u.end.writing.size ≡ 1024)
        × (u.end.writing.limit ≡ 512) };
}

impl DownWriter for RttDown {
    ghost ring = { λ u. u.name };

    ghost asked = { λ u. u.writing.sent };

    /// One store for each byte, and one of the write offset.
    fn send(&mut self, command: &[u8]) {
        self.end.put_all(command);
        self.end.publish();
    }
}

/// Takes commands from a ring whose writer may be in another thread.
#[derive(Drop)]
pub struct RttTarget {
    pub(crate) end: ReadEnd,
    pub(crate) empties: u64,
}

impl Model for RttTarget {
    ghost use Rattle.std.specs.Prelude.{◌≡◌, length};
    ghost use Rattle.sv_ring_rtt.specs.Ends.{Takes};

    ghost Value = { Takes };

    ghost view = { λ u.
        record { name = u.end.name; reading = u.end.reading; empties = u.empties } };

    ghost invariant = { λ u.
        (u.end.reading.freed ≡ length u.end.reading.got) × (u.end.reading.limit ≡ 512) };
}

impl DownReader for RttTarget {
    ghost ring = { λ u. u.name };

    ghost answered = { λ u. u.reading.got };

    ghost empties = { λ u. u.empties };

    ghost asked = { λ u. None };

    ghost seen = { λ u. Some u.reading.seen_sent };

    ghost looks = { λ u. Some u.reading.looks };

    /// Loads the write offset once. Where there is a byte, one load of it, and one store of the
    /// read offset.
    fn next(&mut self) -> Option<u8> {
        self.end.find();
        if self.end.known() == 0 {
            self.empties = self.empties.saturating_add(1);
            return None;
        }
        let byte = self.end.take();
        self.end.release();
        Some(byte)
    }
}
