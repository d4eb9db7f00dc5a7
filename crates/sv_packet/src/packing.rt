//! Whole packets, by the forms of their payloads.
ghost use Rattle.std.specs.Prelude.{◌≡◌, ◌+◌, ◌^◌, ◌<◌, ◌≤◌, [], ◌∷◌, ◌++◌, length, map};
ghost use Rattle.std.specs.List.{AllByRecursion};
ghost use Rattle.sv_prim.specs.Text.{AreBytes};
ghost use Rattle.sv_packet.specs.Spelling.{fields_spelling, parts_spelling, print_payload};
ghost use Rattle.sv_packet.specs.Spelling.{IsInRange};
ghost use Rattle.sv_packet.specs.Table.{print_fields, Number, Text, Raw};

use crate::forming::{number_len, numbers_len, put_head, put_numbers, text_len};
use crate::pen::Pen;

/// An identifier below 24 and a delta.
#[inline(always)]
pub fn put_bare<P: Pen>(id: u8, delta: u32, pen: &mut P)
    requires low { id < 24 }
    requires room { 9 ≤ P.room pen.old }
    ensures { P.written pen.new ≡ P.written pen.old ++ parts_spelling id [] delta }
{
    pen.byte(id);
    pen.number(delta);
}

/// An identifier below 24, one number and a delta.
#[inline(always)]
pub fn put_one<P: Pen>(id: u8, number: u32, delta: u32, pen: &mut P)
    requires low { id < 24 }
    requires room { length (fields_spelling (Number number ∷ [])) + 9 ≤ P.room pen.old }
    ensures written { P.written pen.new ≡
        P.written pen.old ++ parts_spelling id (Number number ∷ []) delta }
    ensures range { number < 2 ^ 32 }
{
    pen.byte(id);
    pen.number(number);
    pen.number(delta);
}

/// An identifier, numbers and a delta.
pub fn put_plain<P: Pen>(id: u8, numbers: &[u32], delta: u32, pen: &mut P)
    requires small { 24 ≤ id → length (fields_spelling (map Number numbers.now)) ≤ 16383 }
    requires room { length (fields_spelling (map Number numbers.now)) + 9 ≤ P.room pen.old }
    ensures written { P.written pen.new ≡
        P.written pen.old ++ parts_spelling id (map Number numbers.now) delta }
    ensures range { AllByRecursion IsInRange (map Number numbers.now) }
{
    put_head(u16::from(id), numbers_len(numbers), pen);
    put_numbers(numbers, pen);
    pen.number(delta);
}

/// An identifier, numbers, a text and a delta.
#[inline(never)]
pub fn put_texted<P: Pen>(id: u8, numbers: &[u32], text: &[u8], delta: u32, pen: &mut P)
    requires few { length numbers.now ≤ 2 }
    requires most { (length text.now ≤ P.most) × (length text.now ≤ 65535) }
    requires small { 24 ≤ id →
        length (fields_spelling (map Number numbers.now ++ Text text.now ∷ [])) ≤ 16383 }
    requires room { length (fields_spelling (map Number numbers.now ++ Text text.now ∷ [])) + 9
        ≤ P.room pen.old }
    requires bytes { AreBytes text.now }
    ensures written { P.written pen.new ≡ P.written pen.old
        ++ parts_spelling id (map Number numbers.now ++ Text text.now ∷ []) delta }
    ensures range { AllByRecursion IsInRange (map Number numbers.now ++ Text text.now ∷ []) }
{
    put_head(u16::from(id), numbers_len(numbers) + text_len(text), pen);
    put_numbers(numbers, pen);
    pen.text(text);
    pen.number(delta);
}

/// A print: its text, its options, how many arguments it has, the arguments, and a delta.
#[inline(never)]
pub fn put_print<P: Pen>(text: &[u8], options: u32, args: &[u32], delta: u32, pen: &mut P)
    requires most { (length text.now ≤ P.most) × (length text.now ≤ 65535) }
    requires small { length (print_payload text.now options args.now) ≤ 16383 }
    requires room { length (print_payload text.now options args.now) + 9 ≤ P.room pen.old }
    requires bytes { AreBytes text.now }
    ensures written { P.written pen.new ≡ P.written pen.old
        ++ parts_spelling 26 (print_fields text.now options args.now) delta }
    ensures range { AllByRecursion IsInRange (print_fields text.now options args.now) }
{
    let count = args.len() as u32;
    let numbers = number_len(options) + number_len(count) + numbers_len(args);
    put_head(26, text_len(text) + numbers, pen);
    pen.text(text);
    pen.number(options);
    pen.number(count);
    put_numbers(args, pen);
    pen.number(delta);
}

/// An identifier, a payload as it stands, and a delta.
#[inline(never)]
pub fn put_opaque<P: Pen>(id: u16, payload: &[u8], delta: u32, pen: &mut P)
    requires known { id ≤ 16383 }
    requires small { 24 ≤ id → length payload.now ≤ 16383 }
    requires room { length payload.now + 9 ≤ P.room pen.old }
    ensures { P.written pen.new ≡
        P.written pen.old ++ parts_spelling id (Raw payload.now ∷ []) delta }
{
    put_head(id, payload.len(), pen);
    pen.bytes(payload);
    pen.number(delta);
}
