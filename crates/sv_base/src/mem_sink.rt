ghost use Rattle.std.specs.Prelude.{◌≡◌, ◌⊎◌, ◌↔◌, ◌-◌, ◌<◌, ◌≤◌, [], Some, false, length, min};
ghost use Rattle.std.specs.Prelude.{Contains, is_err, IsErr, IsOk, IfOk, OnErr};
ghost use Rattle.std.specs.Io.KnownBytes.{WriteAppends};
ghost use Rattle.sv_base.specs.Causes.{HasCause, one_more};

use crate::failed::Failed;
use crate::sink::Sink;
use std::alloc::Global;
use std::marker::Model;
use sv_prim::NoMemory;

/// Bytes in memory, for tests: a [`Sink`] of which all is known, and whose calls fail where it is
/// told to.
///
/// Calls of `write` are numbered from 1. A call fails whose number is in `fails`, and so does each
/// call once `room` bytes are written. Every other call takes the whole piece, or as much of its
/// front as there is room for.
#[derive(Drop)]
pub struct MemSink {
    bytes: Vec<u8>,
    room: usize,
    fails: Vec<u64>,
    calls: u64,
    faults: u64,
    broken: bool,
}

impl Model for MemSink {
    ghost use Rattle.std.specs.Prelude.{◌≤◌, length, vec_capacity};
    ghost use Rattle.sv_base.specs.Memory.{MemBytes};

    ghost Value = { MemBytes };

    ghost view = { λ s. record {
      written = s.bytes.items;
      room = s.room;
      fails = s.fails.items;
      calls = s.calls;
      faults = s.faults;
      broken = s.broken;
    } };

    ghost invariant = { λ s. (length s.bytes.items ≤ s.room) × (s.room ≤ vec_capacity s.bytes) };
}

impl MemSink {
    /// An empty sink for `room` bytes. `fails` holds the numbers of the calls that fail.
    ///
    /// The room is taken here, so that `write` takes no memory. Answers [`NoMemory`] where there is
    /// not so much.
    pub fn new(alloc: Global, room: u64, fails: Vec<u64>) -> Result<MemSink, NoMemory>
        ensures new { IfOk result (λ sink. sink ≡ record {
          written = [];
          room = room;
          fails = fails.items;
          calls = 0;
          faults = 0;
          broken = false;
        }) }
        ensures succeeds { room ≡ 0 → IsOk result }
    {
        let Ok(room) = usize::try_from(room) else {
            return Err(NoMemory);
        };
        let Ok(bytes) = Vec::with_capacity(alloc, room) else {
            return Err(NoMemory);
        };
        Ok(MemSink {
            bytes,
            room,
            fails,
            calls: 0,
            faults: 0,
            broken: false,
        })
    }

    /// The bytes that were written.
    pub fn bytes(&self) -> &[u8]
        ensures { result.now ≡ self.now.written }
    {
        &self.bytes
    }
}

impl Sink for MemSink {
    ghost written = { λ s. Some s.written };

    ghost faults = { λ s. s.faults };

    ghost broken = { λ s. s.broken };

    /// Looks through `fails`, and copies the bytes that it takes.
    fn write(&mut self, piece: &[u8]) -> Result<usize, Failed>
        requires { 0 < length piece.now }
        ensures some { IfOk result (λ count. 0 < count) }
        ensures bound { IfOk result (λ count. count ≤ length piece.now) }
        ensures bytes { WriteAppends (Some self.old.written) (Some self.new.written)
            result piece.now }
        ensures cause { HasCause self.old.faults self.new.faults result }
        ensures fault { OnErr result (self.new.faults ≡ one_more self.old.faults) }
        ensures broken { self.new.broken ≡ is_err result }

        // It fails exactly where it is told to or no room is left. Else it takes all that there is
        // room for.
        ensures same { (self.new.room ≡ self.old.room) × (self.new.fails ≡ self.old.fails) }
        ensures call { self.new.calls ≡ one_more self.old.calls }
        ensures fails { IsErr result
            ↔ (Contains self.old.fails self.new.calls ⊎ (length self.old.written ≡ self.old.room)) }
        ensures count { IfOk result
            (λ count. count ≡ min (length piece.now) (self.old.room - length self.old.written)) }
    {
        self.calls = self.calls.saturating_add(1);
        let count = piece.len().min(self.room - self.bytes.len());
        if count == 0 || self.fails.contains(&self.calls) {
            self.faults = self.faults.saturating_add(1);
            self.broken = true;
            return Err(Failed);
        }
        self.broken = false;
        match self.bytes.extend_from_slice(&piece[..count]) {
            Ok(()) => Ok(count),
            Err(_) => unreachable!(),
        }
    }
}
