//! What a target answers that has its lines and its clock at hand: bodies of callbacks.
ghost use Rattle.std.specs.Prelude.{◌≡◌, ◌<◌, ◌≤◌, [], length, slice_index_or};
ghost use Rattle.sv_desc.specs.Says.{micros_at};

use sv_prim::{Buf, Bytes};

/// Copies a line of at most 256 bytes into the buffer, which is empty.
pub fn put_line(lines: &[Bytes], index: u32, out: &mut Buf)
    requires index { index < length lines.now }
    requires short { length (slice_index_or lines.now index []) ≤ 256 }
    requires empty { out.old.items ≡ [] }
    ensures { out.new.items ≡ slice_index_or lines.now index [] }
{
    for byte in lines[index as usize].bytes() {
        out.push(*byte);
    }
}

/// The microseconds after so many ticks of a clock of so many Hz, modulo 2^64.
pub fn micros_of(clock: u32, moment: u64) -> u64
    requires { 0 < clock }
    ensures { result ≡ micros_at clock moment }
{
    (u128::from(moment) * 1_000_000 / u128::from(clock) % (1 << 64)) as u64
}
