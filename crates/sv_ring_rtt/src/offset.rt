//! Offsets in a ring, and the counts that they stand for.
ghost use Rattle.std.specs.Prelude.{◌≡◌, ℕ, ◌+◌, ◌%◌, ◌<◌, ◌≤◌};
ghost use Rattle.sv_ring_rtt.specs.Steps.{Shows};

/// How far the number that the offset `found` shows is above one whose offset is `at`.
pub(crate) fn ahead(size: u64, at: u64, found: u64) -> u64
    requires size { size ≤ 65536 }
    requires at { at < size }
    requires found { found < size }
    ensures { (first number : ℕ) → Shows size first number found → first % size ≡ at
        → number ≡ first + result }
{
    if at <= found {
        found - at
    } else {
        found + size - at
    }
}

/// The offset of the next byte.
pub(crate) fn next(size: u64, at: u64) -> u64
    requires size { size ≤ 65536 }
    requires at { at < size }
    ensures { (count : ℕ) → count % size ≡ at → (count + 1) % size ≡ result }
{
    if at + 1 < size { at + 1 } else { 0 }
}
