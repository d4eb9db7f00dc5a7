ghost use Rattle.std.specs.Prelude.{◌≡◌, ℕ, ◌<◌, ◌^◌, List};
ghost use Rattle.sv_prim.specs.Number.{IsNumber, number_spelling};

/// The law of numbers' spellings: each number below 2^32 has one, and it is [`put_u32`]'s.
///
/// [`put_u32`]: crate::put_u32
pub fn number_spelled()
    ensures spelled { (value : ℕ) → value < 2 ^ 32 → IsNumber value (number_spelling value) }
    ensures once { (value : ℕ) (bytes : List ℕ) → IsNumber value bytes →
        bytes ≡ number_spelling value }
{}
