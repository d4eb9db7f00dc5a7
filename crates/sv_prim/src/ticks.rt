ghost use Rattle.std.specs.Prelude.{◌≡◌, ◌-◌, ◌%◌, ◌^◌, ◌≤◌};

/// The ticks from one time to a later one, as a packet's delta tells them (UM08027, packet format):
/// a delta is a number below 2^32, so of more ticks it keeps the low 32 bits.
pub fn delta(now: u64, last: u64) -> u32
    requires { last ≤ now }
    ensures { result ≡ (now - last) % 2 ^ 32 }
{
    ((now - last) % 0x1_0000_0000) as u32
}
