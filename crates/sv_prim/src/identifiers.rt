ghost use Rattle.std.specs.Prelude.{◌≡◌, ◌≤◌, ◌↔◌, IsTrue};
ghost use Rattle.sv_prim.specs.Shrink.{shrunk, unshrunk, IsAligned};

/// The form in which the target sends an identifier (UM08027, shrinking of IDs): its distance from
/// the base in units of 2^shift bytes, rounded down.
///
/// `id` and `base` are addresses in bytes, `shift` is a count of bits from 0 to 31. The distance is
/// taken modulo 2^32, so an identifier below the base has one too.
pub fn shrink(id: u32, base: u32, shift: u32) -> u32
    requires { shift ≤ 31 }
    ensures { result ≡ shrunk id base shift }
{
    id.wrapping_sub(base) >> shift
}

/// The identifier that lies `s` units of 2^shift bytes above the base (UM08027, shrinking of IDs).
///
/// `base` and the answer are addresses in bytes, taken modulo 2^32; `shift` is a count of bits from
/// 0 to 31. [`aligned`] tells for which identifiers this takes [`shrink`] back.
pub fn unshrink(s: u32, base: u32, shift: u32) -> u32
    requires { shift ≤ 31 }
    ensures { result ≡ unshrunk s base shift }
{
    base.wrapping_add(s << shift)
}

/// Whether shrinking loses nothing of an identifier: whether its distance from the base is a whole
/// number of units of 2^shift bytes (UM08027, shrinking of IDs).
///
/// `id` and `base` are addresses in bytes, `shift` is a count of bits from 0 to 31.
pub fn aligned(id: u32, base: u32, shift: u32) -> bool
    requires { shift ≤ 31 }
    ensures low { IsTrue result ↔ IsAligned id base shift }
    ensures back { IsTrue result ↔ (unshrunk (shrunk id base shift) base shift ≡ id) }
{
    id.wrapping_sub(base) % (1 << shift) == 0
}
