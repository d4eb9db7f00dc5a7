//! Ranges of numbers.
ghost use Rattle.std.specs.Prelude.{◌≡◌, ℕ, ◌-◌, ◌^◌, min, nat_le, true};
ghost use Rattle.std.specs.Option.{option_map_or};
ghost use Rattle.sv_workload.specs.Forms.{is_in};

/// The numbers from the least on, and up to the most, if there is one.
#[derive(Clone, Copy, Debug)]
pub struct Range {
    pub least: u32,
    pub most: Option<u32>,
}

#[inline(always)]
fn is_at_most(n: u64, most: Option<u32>) -> bool
    ensures { (whole : ℕ) → n ≡ min whole (2 ^ 64 - 1)
        → result ≡ option_map_or (λ most. nat_le whole most) most true }
{
    match most {
        Some(most) => n <= most as u64,
        None => true,
    }
}

#[inline(always)]
fn is_at_least(n: u64, least: u32) -> bool
    ensures { (whole : ℕ) → n ≡ min whole (2 ^ 64 - 1) → result ≡ nat_le least whole }
{
    least as u64 <= n
}

/// Whether a number is in the range. `u64::MAX` stands for every number from there on.
#[inline(always)]
pub fn is_in(range: &Range, n: u64) -> bool
    ensures { (whole : ℕ) → n ≡ min whole (2 ^ 64 - 1) → result ≡ is_in range.now whole }
{
    is_at_least(n, range.least) && is_at_most(n, range.most)
}
