//! The front of a line, written from its end to its start.
ghost use Rattle.std.specs.Prelude.{◌≡◌, ◌+◌, ◌-◌, ◌≤◌, ◌∷◌, ◌++◌, flat_map, length, drop};
ghost use Rattle.std.specs.Fmt.{decimal};
ghost use Rattle.sv_report.specs.Words.{spaced, spaced_number};

use itoa::write_digits;

/// How many bytes there are for a time, a name, four numbers and the line's end: 20, 17, 44 and 1,
/// and some to spare. A run's line has fewer.
pub const LINE: usize = 96;

/// Puts a number and a space before it so that they end at `end`, and tells where they begin.
#[inline(always)]
pub fn number_before(number: u32, line: &mut [u8; LINE], end: usize) -> usize
    requires { (11 ≤ end) × (end ≤ 96) }
    ensures start { (result ≤ end) × (end ≤ result + 11) }
    ensures written { drop result line.new ≡ spaced_number number ++ drop end line.old }
{
    let start = write_digits(u64::from(number), line, end) - 1;
    line[start] = b' ';
    start
}

/// Puts the numbers, each behind a space, so that they end at `end`, and tells where they begin.
#[inline(always)]
fn numbers_before(numbers: &[u32], line: &mut [u8; LINE], end: usize) -> usize
    requires { (length numbers.now ≤ 4) × (44 ≤ end) × (end ≤ 96) }
    ensures start { (result ≤ end) × (end ≤ result + 44) }
    ensures written { drop result line.new
        ≡ flat_map spaced_number numbers.now ++ drop end line.old }
{
    let mut start = end;
    let mut left = numbers.len();
    while left > 0 {
        left -= 1;
        start = number_before(numbers[left], line, start);
    }
    start
}

/// Puts a name of so many bytes and a space before it so that they end at `end`, and tells where
/// they begin.
#[inline(always)]
pub fn name_before(name: &[u8; 16], size: usize, line: &mut [u8; LINE], end: usize) -> usize
    requires { (size ≤ 16) × (17 ≤ end) × (end ≤ 96) }
    ensures start { (result ≤ end) × (end ≤ result + 17) }
    ensures written { drop result line.new
        ≡ spaced (drop (16 - size) name.now) ++ drop end line.old }
{
    line[end - 16..end].copy_from_slice(name);
    let start = end - size - 1;
    line[start] = b' ';
    start
}

/// Puts a time, a name and numbers, parted by one space, so that they end at `end`, and tells where
/// they begin.
#[inline(always)]
pub fn head_before(
    time: u64,
    name: &[u8; 16],
    size: usize,
    numbers: &[u32],
    line: &mut [u8; LINE],
    end: usize,
) -> usize
    requires { (size ≤ 16) × (length numbers.now ≤ 4) × (81 ≤ end) × (end ≤ 96) }
    ensures start { result ≤ end }
    ensures written { drop result line.new
        ≡ decimal time ++ spaced (drop (16 - size) name.now)
        ++ flat_map spaced_number numbers.now ++ drop end line.old }
{
    let start = numbers_before(numbers, line, end);
    let start = name_before(name, size, line, start);
    write_digits(time, line, start)
}
