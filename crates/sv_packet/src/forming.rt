//! The parts of a packet, in their order.
ghost use Rattle.std.specs.Prelude.{◌≡◌, ◌+◌, ◌*◌, ◌^◌, ◌<◌, ◌≤◌, [], ◌∷◌, ◌++◌, length, map, take};
ghost use Rattle.std.specs.List.{AllByRecursion};
ghost use Rattle.sv_prim.specs.Number.{number_spelling, numbers_spelling, AreWords};
ghost use Rattle.sv_prim.specs.Text.{text_spelling, AreBytes};
ghost use Rattle.sv_packet.specs.Spelling.{short_spelling, head_spelling, fields_spelling};
ghost use Rattle.sv_packet.specs.Spelling.{parts_spelling};
ghost use Rattle.sv_packet.specs.Table.{Number, Text, Raw};

use crate::pen::Pen;

/// How many bytes a number's spelling has.
#[inline(always)]
pub fn number_len(number: u32) -> usize
    ensures len { result ≡ length (number_spelling number) }
    ensures most { result ≤ 5 }
{
    if number < 1 << 7 {
        return 1;
    }
    if number < 1 << 14 {
        return 2;
    }
    if number < 1 << 21 {
        return 3;
    }
    if number < 1 << 28 {
        return 4;
    }
    5
}

/// How many bytes the numbers' spellings have.
pub fn numbers_len(numbers: &[u32]) -> usize
    ensures len { result ≡ length (numbers_spelling numbers.now) }
    ensures most { result ≤ 5 * length numbers.now }
{
    let mut len = 0;
    for number in numbers {
        len += number_len(*number);
    }
    len
}

/// How many bytes a text's spelling has.
#[inline(always)]
pub fn text_len(text: &[u8]) -> usize
    requires { length text.now ≤ 65535 }
    ensures { result ≡ length (text_spelling text.now) }
{
    if text.len() < 255 {
        text.len() + 1
    } else {
        text.len() + 3
    }
}

/// An identifier or a length, in one byte or two.
#[inline(always)]
fn put_short<P: Pen>(n: u16, pen: &mut P)
    requires small { n ≤ 16383 }
    requires room { 2 ≤ P.room pen.old }
    ensures written { P.written pen.new ≡ P.written pen.old ++ short_spelling n }
    ensures room { P.room pen.old ≤ P.room pen.new + 2 }
{
    if n < 128 {
        pen.byte(n as u8);
    } else {
        pen.byte((n % 128) as u8 + 128);
        pen.byte((n / 128) as u8);
    }
}

/// What stands before a payload of so many bytes.
#[inline(always)]
pub fn put_head<P: Pen>(id: u16, size: usize, pen: &mut P)
    requires known { id ≤ 16383 }
    requires small { 24 ≤ id → size ≤ 16383 }
    requires room { 4 ≤ P.room pen.old }
    ensures written { P.written pen.new ≡ P.written pen.old ++ head_spelling id size }
    ensures room { P.room pen.old ≤ P.room pen.new + 4 }
{
    if id < 24 {
        pen.byte(id as u8);
    } else {
        put_short(id, pen);
        put_short(size as u16, pen);
    }
}

/// Numbers one after another.
#[inline(always)]
pub fn put_numbers<P: Pen>(numbers: &[u32], pen: &mut P)
    requires room { length (numbers_spelling numbers.now) + 4 ≤ P.room pen.old }
    ensures written { P.written pen.new ≡ P.written pen.old ++ numbers_spelling numbers.now }
    ensures room { P.room pen.old ≤ P.room pen.new + length (numbers_spelling numbers.now) }
    ensures range { AreWords numbers.now }
{
    for number in numbers {
        pen.number(*number);
    }
}
