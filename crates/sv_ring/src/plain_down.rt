ghost use Rattle.std.specs.Prelude.{◌≡◌, ◌+◌, ◌<◌, ◌≤◌, [], ◌∷◌, ◌++◌, Some, None, length, take};
ghost use Rattle.sv_ring.specs.Down.{IsFront};

use crate::down_reader::DownReader;
use crate::down_writer::DownWriter;
use std::marker::Model;

/// A ring of commands whose writer and reader are one value, for one thread. It has place for all
/// bytes that may be sent, so that it takes no memory and never wraps.
#[derive(Drop)]
pub struct PlainDown {
    bytes: [u8; 512],
    asked: usize,
    answered: usize,
    empties: u64,
}

impl Model for PlainDown {
    ghost use Rattle.std.specs.Prelude.{◌≡◌, ◌≤◌, take, length};
    ghost use Rattle.sv_ring.specs.Plain.{PlainCommands};

    ghost Value = { PlainCommands };

    ghost view = { λ r. record {
      asked = take r.asked r.bytes;
      answered = take r.answered r.bytes;
      empties = r.empties;
    } };

    ghost invariant = { λ r. (length r.bytes ≡ 512) × (r.asked ≤ 512) × (r.answered ≤ r.asked) };
}

impl PlainDown {
    /// No command was sent so far.
    pub fn new() -> PlainDown
        ensures { result ≡ record { asked = []; answered = []; empties = 0 } }
    {
        PlainDown {
            bytes: [0; 512],
            asked: 0,
            answered: 0,
            empties: 0,
        }
    }

    /// Stores one more byte.
    #[inline(always)]
    fn put(&mut self, byte: u8)
        requires { length self.old.asked < 512 }
        ensures { self.new ≡ record self.old { asked = self.old.asked ++ byte ∷ [] } }
    {
        self.bytes[self.asked] = byte;
        self.asked += 1;
    }

    /// Sends a command, as [`DownWriter::send`] does. What was taken stays. At most 512 bytes may
    /// be sent in all.
    pub fn ask(&mut self, command: &[u8])
        requires { length self.old.asked + length command.now ≤ 512 }
        ensures { self.new ≡ record self.old { asked = self.old.asked ++ command.now } }
    {
        for byte in command {
            self.put(*byte);
        }
    }
}

impl DownWriter for PlainDown {
    // A plain ring is both ends at once, so that its name has nothing to tell.
    ghost ring = { λ r. [] };

    ghost asked = { λ r. r.asked };

    fn send(&mut self, command: &[u8]) {
        self.ask(command);
    }
}

impl DownReader for PlainDown {
    ghost ring = { λ r. [] };

    ghost answered = { λ r. r.answered };

    ghost empties = { λ r. r.empties };

    ghost asked = { λ r. Some r.asked };

    ghost seen = { λ r. None };

    ghost looks = { λ r. None };

    fn next(&mut self) -> Option<u8> {
        if self.answered == self.asked {
            self.empties = self.empties.saturating_add(1);
            return None;
        }
        let byte = self.bytes[self.answered];
        self.answered += 1;
        Some(byte)
    }
}
