//! What the host asks, taken from its ring byte by byte.
ghost use Rattle.std.specs.Prelude.{◌≡◌, ◌+◌, length};
ghost use Rattle.sv_ring.specs.Down.{given};
ghost use Rattle.sv_journal.specs.Section.{command_head};

use sv_load::Command;
use sv_ring::DownReader;

/// The end of the host's ring, with the byte of a command whose parameter is not there yet, and how
/// many commands came.
#[derive(Drop)]
pub struct Inbox<D: DownReader + Drop> {
    pub down: D,
    pub kept: Option<u8>,
    pub count: u32,
}

impl<D: DownReader + Drop> Inbox<D> {
    ghost use Rattle.sv_recorder.specs.Commands.{Asks, TakesFirstByte, MayWait, TakesCommand};

    /// The first byte of the next command: the one that waits, or else the next of the ring.
    #[inline(always)]
    fn first(&mut self) -> Option<u8>
        ensures { TakesFirstByte D.ring D.answered D.empties D.asked self.old self.new result }
    {
        if let Some(byte) = self.kept {
            self.kept = None;
            return Some(byte);
        }
        self.down.next()
    }

    /// The next command, where all of its bytes are there. From the byte 128 on it has a parameter,
    /// and waits for that.
    fn take(&mut self) -> Option<Command>
        ensures takes { TakesCommand D.ring D.answered D.empties D.asked self.old self.new result }
        ensures count { self.new.count ≡ self.old.count }
    {
        let byte = self.first()?;
        if byte < 128 {
            return Some(Command { byte, param: 0 });
        }
        let Some(param) = self.down.next() else {
            self.kept = Some(byte);
            return None;
        };
        Some(Command { byte, param })
    }

    /// The next command, as long as fewer than so many came.
    #[inline(always)]
    pub fn next(&mut self, most: u32) -> Option<Command>
        requires waits { MayWait (given self.old.kept) }
        ensures asks { Asks D.ring D.answered D.empties D.asked most self.old self.new result }
        ensures waits { MayWait (given self.new.kept) }
        ensures count { self.new.count ≡ self.old.count + length (command_head result) }
    {
        if self.count >= most {
            return None;
        }
        let found = self.take();
        if found.is_some() {
            self.count += 1;
        }
        found
    }
}
