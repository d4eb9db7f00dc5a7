ghost use Rattle.std.specs.Prelude.{◌≡◌, ℕ, ◌+◌, ◌*◌, ◌%◌, ◌^◌, ◌<◌, ◌≤◌, ◌↔◌, ◌⊎◌, ◌++◌, length};
ghost use Rattle.std.specs.Prelude.{IsTrue};
ghost use Rattle.sv_prim.specs.Code.{Tells, IsOnly};
ghost use Rattle.sv_prim.specs.Number.{IsNumber, number_reason, number_spelling};

use crate::buf::Buf;
use crate::got::{Got, Reason};

/// Whether no number goes on with this byte: it is a last group that adds nothing, or it has bits
/// past the 32nd.
#[inline(always)]
fn is_refused(place: usize, byte: u8) -> bool
    ensures { IsTrue result ↔ (((0 < place) × (byte ≡ 0)) ⊎ ((place ≡ 4) × (16 ≤ byte))) }
{
    (place > 0 && byte == 0) || (place == 4 && byte >= 16)
}

/// The value with the next group of seven bits.
#[inline(always)]
fn with_group(value: u32, place: usize, byte: u8) -> u32
    requires few { place ≤ 4 }
    requires below { value < 2 ^ (7 * place) }
    requires fits { place ≡ 4 → byte < 16 }
    ensures { result ≡ value + 2 ^ (7 * place) * (byte % 128) }
{
    value | u32::from(byte & 0x7f) << (7 * place)
}

/// The number at the front of the slice: one to five bytes, seven bits in each, the least
/// significant group first, bit 7 set on all but the last (UM08027, encoding of U32).
///
/// A number has its shortest form only, so `80 00` is refused at the byte 1, and it is below 2^32,
/// so a fifth byte above `0F` is refused. At most five bytes are looked at.
#[inline(always)]
pub fn get_u32(bytes: &[u8]) -> Got<u32>
    ensures told { Tells IsNumber number_reason bytes.now result }
    ensures only { IsOnly IsNumber bytes.now result }
{
    let mut value = 0;
    for (place, byte) in bytes.iter().enumerate() {
        if is_refused(place, *byte) {
            return Got::Bad {
                place,
                reason: Reason::BadNumber,
            };
        }
        value = with_group(value, place, *byte);
        if *byte < 0x80 {
            return Got::Value {
                value,
                used: place + 1,
            };
        }
    }
    Got::Short
}

/// Adds the number's one spelling to the buffer (UM08027, encoding of U32): seven bits in each
/// byte, the least significant group first, bit 7 set on all but the last.
///
/// It adds one to five bytes: one below 2^7, two below 2^14, three below 2^21, four below 2^28. It
/// takes no memory, and does not fail.
#[inline(always)]
pub fn put_u32(v: u32, out: &mut Buf)
    requires { length out.old.items + 5 ≤ 256 }
    ensures { out.new.items ≡ out.old.items ++ number_spelling v }
{
    let mut rest = v;
    while rest >= 0x80 {
        out.push((rest % 0x80) as u8 + 0x80);
        rest /= 0x80;
    }
    out.push(rest as u8);
}
