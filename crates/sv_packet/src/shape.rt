//! What a payload is made of, where its identifier alone tells it.
ghost use Rattle.std.specs.Prelude.{◌≡◌, ◌≤◌};
ghost use Rattle.sv_packet.specs.Shape.{number_count, ends_in_text};

/// How many numbers the payload begins with, and whether a text ends it.
#[inline(always)]
pub fn shape_of(id: u16) -> (u8, bool)
    ensures numbers { result.0 ≡ number_count id }
    ensures few { result.0 ≤ 4 }
    ensures text { result.1 ≡ ends_in_text id }
{
    match id {
        1 | 2 | 4 | 6 | 8 | 12 | 15 | 16 | 19 | 27 | 29 => (1, false),
        25 => (1, true),
        7 | 13 => (2, false),
        9 | 22 => (2, true),
        14 => (0, true),
        21 | 24 => (4, false),
        _ => (0, false),
    }
}
