//! Packets that a recorder forms of an identifier, numbers and a text.
ghost use Rattle.std.specs.Prelude.{◌≡◌, ◌≤◌, [], length, Some};
ghost use Rattle.sv_packet.specs.declared.event.Event.{Event};
ghost use Rattle.sv_packet.specs.Flat.{flat_count, has_text, text_most, IsFlat};
ghost use Rattle.sv_packet.specs.Spelling.{spelling_of};

use crate::packing::{put_plain, put_texted};
use sv_prim::Buf;

/// Whether a flat packet with the identifier has a text.
fn is_texted(id: u8) -> bool
    ensures { result ≡ has_text id }
{
    id == 9 || id == 14 || id == 22
}

/// Puts into the empty buffer the packet that has this identifier, these numbers in their order and
/// this text, with its delta in ticks (UM08027, packet format). So a recorder forms what it keeps
/// in parts, and makes no event of it.
///
/// | Identifier | Numbers | Text |
/// |---|---|---|
/// | 1 OVERFLOW, 12 SYSTIME_CYCLES, 27 NUMMODULES | 1 | none |
/// | 9 TASK_INFO, 22 MODULEDESC | 2 | to 128 bytes |
/// | 10 TRACE_START, 11 TRACE_STOP | 0 | none |
/// | 13 SYSTIME_US | 2 | none |
/// | 14 SYSDESC | 0 | to 128 bytes |
/// | 21 STACK_INFO, 24 INIT | 4 | none |
///
/// The text is empty where the identifier has none. The packet has 2 to 145 bytes. Forming it takes
/// no memory, and does not fail.
pub fn encode_flat(id: u8, numbers: &[u32], text: &[u8], delta: u32, out: &mut Buf)
    requires empty { out.old.items ≡ [] }
    requires form { flat_count id ≡ Some (length numbers.now) }
    requires text { length text.now ≤ text_most id }
    ensures { (event : Event) → IsFlat id numbers.now text.now event →
        out.new.items ≡ spelling_of event delta }
{
    if is_texted(id) {
        put_texted(id, numbers, text, delta, out);
    } else {
        put_plain(id, numbers, delta, out);
    }
}
