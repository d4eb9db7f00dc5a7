ghost use Rattle.std.specs.Prelude.{◌≡◌, ℕ, ◌+◌, ◌-◌, ◌<◌, ◌≤◌, ◌++◌, length};

use crate::down_reader::DownReader;
use crate::down_writer::DownWriter;
use crate::up_reader::UpReader;
use crate::up_writer::UpWriter;
use crate::wrote::Wrote;
use std::marker::Model;

/// A writer of an up ring that keeps the bytes that it stored. What it is seen as is what the
/// writer in it is.
#[derive(Drop)]
pub struct LogUp<U: UpWriter + Drop> {
    pub(crate) inner: U,
    pub(crate) bytes: Vec<u8>,
}

impl<U: UpWriter + Drop> Model for LogUp<U> {
    ghost use Rattle.std.specs.Prelude.{◌≡◌, ◌≤◌, vec_capacity};

    ghost Value = { U };

    ghost view = { λ e. e.inner };

    ghost invariant = { λ e.
        (e.bytes.items ≡ U.sent e.inner) × (U.limit e.inner ≤ vec_capacity e.bytes) };
}

impl<U: UpWriter + Drop> UpWriter for LogUp<U> {
    ghost ring = { λ e. U.ring e };

    ghost size = { λ e. U.size e };

    ghost limit = { λ e. U.limit e };

    ghost sent = { λ e. U.sent e };

    ghost freed = { λ e. U.freed e };

    ghost way = { λ e. U.way e };

    ghost looks = { λ e. U.looks e };

    fn size(&self) -> u32 {
        self.inner.size()
    }

    fn limit(&self) -> u64 {
        self.inner.limit()
    }

    /// Writes the block, and copies it where it is stored.
    fn write_skip(&mut self, block: &[u8]) -> Wrote {
        let wrote = self.inner.write_skip(block);
        if matches!(wrote, Wrote::Stored) {
            match self.bytes.extend_from_slice(block) {
                Ok(()) => {}
                Err(_) => unreachable!(),
            }
        }
        wrote
    }

    fn freed(&self) -> u64 {
        self.inner.freed()
    }
}

/// A reader of an up ring that keeps the bytes that it took.
#[derive(Drop)]
pub struct LogHost<H: UpReader + Drop> {
    pub(crate) inner: H,
    pub(crate) bytes: Vec<u8>,
}

impl<H: UpReader + Drop> Model for LogHost<H> {
    ghost use Rattle.std.specs.Prelude.{◌≡◌, ◌≤◌, vec_capacity};

    ghost Value = { H };

    ghost view = { λ e. e.inner };

    ghost invariant = { λ e.
        (e.bytes.items ≡ H.taken e.inner) × (H.limit e.inner ≤ vec_capacity e.bytes) };
}

impl<H: UpReader + Drop> UpReader for LogHost<H> {
    ghost ring = { λ e. H.ring e };

    ghost limit = { λ e. H.limit e };

    ghost taken = { λ e. H.taken e };

    ghost seen = { λ e. H.seen e };

    ghost looks = { λ e. H.looks e };

    /// Reads, and copies the bytes that came.
    fn read(&mut self, buf: &mut [u8]) -> usize {
        let count = self.inner.read(buf);
        match self.bytes.extend_from_slice(&buf[..count]) {
            Ok(()) => {}
            Err(_) => unreachable!(),
        }
        count
    }
}

/// A writer of a down ring that keeps the bytes that it sent.
#[derive(Drop)]
pub struct LogDown<W: DownWriter + Drop> {
    pub(crate) inner: W,
    pub(crate) bytes: Vec<u8>,
}

impl<W: DownWriter + Drop> Model for LogDown<W> {
    ghost use Rattle.std.specs.Prelude.{◌≡◌, ◌≤◌, vec_capacity};

    ghost Value = { W };

    ghost view = { λ e. e.inner };

    ghost invariant = { λ e. (e.bytes.items ≡ W.asked e.inner) × (512 ≤ vec_capacity e.bytes) };
}

impl<W: DownWriter + Drop> DownWriter for LogDown<W> {
    ghost ring = { λ e. W.ring e };

    ghost asked = { λ e. W.asked e };

    /// Sends the command, and copies it.
    fn send(&mut self, command: &[u8]) {
        self.inner.send(command);
        match self.bytes.extend_from_slice(command) {
            Ok(()) => {}
            Err(_) => unreachable!(),
        }
    }
}

/// A reader of a down ring that keeps the bytes that it took.
#[derive(Drop)]
pub struct LogTarget<T: DownReader + Drop> {
    pub(crate) inner: T,
    pub(crate) bytes: Vec<u8>,
}

impl<T: DownReader + Drop> Model for LogTarget<T> {
    ghost use Rattle.std.specs.Prelude.{◌≡◌, ◌≤◌, vec_capacity};

    ghost Value = { T };

    ghost view = { λ e. e.inner };

    ghost invariant = { λ e. (e.bytes.items ≡ T.answered e.inner) × (512 ≤ vec_capacity e.bytes) };
}

impl<T: DownReader + Drop> DownReader for LogTarget<T> {
    ghost ring = { λ e. T.ring e };

    ghost answered = { λ e. T.answered e };

    ghost empties = { λ e. T.empties e };

    ghost asked = { λ e. T.asked e };

    ghost seen = { λ e. T.seen e };

    ghost looks = { λ e. T.looks e };

    /// Takes the next byte, and copies it.
    fn next(&mut self) -> Option<u8> {
        let byte = self.inner.next();
        if let Some(byte) = byte {
            self.bytes.push_reserved(byte);
        }
        byte
    }
}
