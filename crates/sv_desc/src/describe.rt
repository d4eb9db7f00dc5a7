//! Callbacks of a target, kept beside the fact of what they answer.
ghost use Rattle.std.specs.Prelude.{◌≡◌, ℕ, ◌*◌, ◌+◌, ◌^◌, ◌<◌, ◌≤◌, List, [], All, length};
ghost use Rattle.std.specs.Prelude.{slice_index_or};
ghost use Rattle.sv_desc.specs.Says.{SaysLines, SaysTime, AreLines, micros_at};

use sv_prim::{Buf, Bytes};

/// What describes a target: its lines, and its time in microseconds.
///
/// `kept` is the fact that a value of the type keeps: whoever makes one shows it, and whoever calls
/// it rests on it.
pub trait Describes {
    /// What is known of the callbacks.
    ghost kept: { Self → Type 0 };

    /// The lines that describe the target.
    ghost lines: { Self → List (List ℕ) };

    /// The frequency in Hz of the clock whose periods are the ticks.
    ghost clock: { Self → ℕ };

    /// How many lines there are, at most four.
    fn count(&self) -> u32
        requires kept { kept self.now }
        ensures count { result ≡ length (lines self.now) }
        ensures lines { AreLines (lines self.now) };

    /// Leaves a line in the buffer, which is empty.
    fn line(&self, index: u32, out: &mut Buf)
        requires kept { kept self.now }
        requires index { index < length (lines self.now) }
        requires empty { out.old.items ≡ [] }
        ensures { out.new.items ≡ slice_index_or (lines self.now) index [] };

    /// The microseconds after so many ticks, at most 2^54, modulo 2^64.
    fn micros(&self, moment: u64) -> u64
        requires kept { kept self.now }
        requires moment { moment ≤ 2 ^ 54 }
        ensures { result ≡ micros_at (clock self.now) moment };
}

/// Two callbacks of a target, for its lines and for its time. It borrows the lines.
#[derive(Drop)]
pub struct Describe<'w, F, T> {
    lines: &'w [Bytes],
    clock: u32,
    line: F,
    time: T,
}

impl<'w, F: Fn(u32, &mut Buf), T: Fn(u64) -> u64> Describe<'w, F, T> {
    /// Keeps the callbacks: `line` leaves each of the lines in an empty buffer, and `time` tells
    /// the microseconds by a clock of so many Hz. There are at most four lines, of 1 to 128 bytes.
    pub fn new(lines: &'w [Bytes], clock: u32, line: F, time: T) -> Describe<'w, F, T>
        requires lines { AreLines lines.now }
        requires clock { 0 < clock }
        requires line { SaysLines F.Fn (λ b. b.items) line lines.now }
        requires time { SaysTime T.Fn time clock }
        ensures kept { ⟦<Describe<'w, F, T> as Describes>⟧.kept result }
        ensures lines { ⟦<Describe<'w, F, T> as Describes>⟧.lines result ≡ lines.entry.now }
        ensures clock { ⟦<Describe<'w, F, T> as Describes>⟧.clock result ≡ clock }
    {
        Describe {
            lines,
            clock,
            line,
            time,
        }
    }
}

impl<'w, F: Fn(u32, &mut Buf), T: Fn(u64) -> u64> Describes for Describe<'w, F, T> {
    ghost use Rattle.std.specs.Prelude.{◌<◌};
    ghost use Rattle.sv_desc.specs.Says.{SaysLines, SaysTime, AreLines};

    ghost kept = { λ d. AreLines d.lines.now × (0 < d.clock)
        × SaysLines F.Fn (λ b. b.items) d.line d.lines.now × SaysTime T.Fn d.time d.clock };

    ghost lines = { λ d. d.lines.now };

    ghost clock = { λ d. d.clock };

    fn count(&self) -> u32 {
        self.lines.len() as u32
    }

    fn line(&self, index: u32, out: &mut Buf) {
        (self.line)(index, out);
    }

    fn micros(&self, moment: u64) -> u64 {
        (self.time)(moment)
    }
}
