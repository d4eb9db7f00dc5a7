ghost use Rattle.std.specs.Prelude.{◌≡◌, ◌+◌, ◌≤◌, ◌++◌, length, take};
ghost use Rattle.sv_prim.specs.Code.{Tells, IsOnly};
ghost use Rattle.sv_prim.specs.Text.{text_spelling};
ghost use Rattle.sv_prim.specs.TextAt.{IsTextAt, IsTextLength, text_reason};

use crate::buf::Buf;
use crate::got::{Got, Reason};

/// Where a text stands in its spelling: behind the length, to the spelling's end.
#[derive(Clone, Copy, Debug, PartialEq, Eq)]
pub struct TextAt {
    /// The offset of the text's first byte, 1 or 3.
    pub start: usize,
    /// The number of the text's bytes, at most 65535.
    pub len: usize,
}

/// The text of so many bytes, behind its length, which ends before `start`.
fn text_from(bytes: &[u8], start: usize, len: usize) -> Got<TextAt>
    requires within { start ≤ length bytes.now }
    requires before { IsTextLength len (take start bytes.now) }
    ensures { Tells IsTextAt text_reason bytes.now result }
{
    if bytes.len() - start < len {
        return Got::Short;
    }
    Got::Value {
        value: TextAt { start, len },
        used: start + len,
    }
}

/// The text at the front of the slice, as the offsets of its bytes there (after the published
/// sources of the target): behind its length in one byte, to 254, or else behind the byte 255 and
/// its length in two bytes, the low one first.
///
/// A length below 255 in two bytes is refused at its high byte. At most three bytes are looked at.
pub fn get_text(bytes: &[u8]) -> Got<TextAt>
    ensures told { Tells IsTextAt text_reason bytes.now result }
    ensures only { IsOnly IsTextAt bytes.now result }
{
    if bytes.is_empty() {
        return Got::Short;
    }
    if bytes[0] < 255 {
        return text_from(bytes, 1, usize::from(bytes[0]));
    }
    if bytes.len() < 3 {
        return Got::Short;
    }
    let len = usize::from(bytes[1]) + 256 * usize::from(bytes[2]);
    if len < 255 {
        return Got::Bad {
            place: 2,
            reason: Reason::BadText,
        };
    }
    text_from(bytes, 3, len)
}

/// Adds the text's one spelling to the buffer (after the target's sources): its length in one byte,
/// and the text.
///
/// The text has at most 128 bytes, as a target sends them, and one byte more than its length is
/// free. It takes no memory, and does not fail.
#[inline(always)]
pub fn put_text(text: &[u8], out: &mut Buf)
    requires short { length text.now ≤ 128 }
    requires room { length out.old.items + length text.now + 1 ≤ 256 }
    ensures { out.new.items ≡ out.old.items ++ text_spelling text.now }
{
    out.push(text.len() as u8);
    match out.try_extend_from_slice(text) {
        Ok(()) => {}
        Err(_) => unreachable!(),
    }
}
