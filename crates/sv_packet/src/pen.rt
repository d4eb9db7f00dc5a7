//! What packets are written to.
ghost use Rattle.std.specs.Prelude.{◌≡◌, ℕ, ◌+◌, ◌<◌, ◌≤◌, List, [], ◌∷◌, ◌++◌, length};
ghost use Rattle.std.specs.Vec.{vec_capacity};
ghost use Rattle.sv_prim.specs.Number.{number_spelling};
ghost use Rattle.sv_prim.specs.Text.{text_spelling};

use sv_prim::{Buf, put_text, put_u32};

/// Takes the bytes of a packet, in their order. It has room for what a call adds, so that none
/// fails.
pub trait Pen {
    /// All that was written.
    ghost written: { Self → List ℕ };

    /// How many bytes it still takes.
    ghost room: { Self → ℕ };

    /// How many bytes the longest text has that it takes.
    ghost most: { ℕ };

    /// Adds a byte.
    fn byte(&mut self, byte: u8)
        requires { 1 ≤ room self.old }
        ensures written { written self.new ≡ written self.old ++ byte ∷ [] }
        ensures room { room self.old ≤ room self.new + 1 };

    /// Adds the bytes, in room for one more.
    fn bytes(&mut self, bytes: &[u8])
        requires { length bytes.now < room self.old }
        ensures written { written self.new ≡ written self.old ++ bytes.now }
        ensures room { room self.old ≤ room self.new + length bytes.now };

    /// Adds the number's spelling, in room for the longest.
    fn number(&mut self, number: u32)
        requires { 5 ≤ room self.old }
        ensures written { written self.new ≡ written self.old ++ number_spelling number }
        ensures room { room self.old ≤ room self.new + length (number_spelling number) };

    /// Adds the text's spelling.
    fn text(&mut self, text: &[u8])
        requires most { length text.now ≤ most }
        requires room { length (text_spelling text.now) ≤ room self.old }
        ensures written { written self.new ≡ written self.old ++ text_spelling text.now }
        ensures room { room self.old ≤ room self.new + length (text_spelling text.now) };
}

impl Pen for Buf {
    ghost use Rattle.std.specs.Prelude.{◌-◌, length};

    ghost written = { λ b. b.items };

    ghost room = { λ b. 256 - length b.items };

    ghost most = { 128 };

    #[inline(always)]
    fn byte(&mut self, byte: u8) {
        self.push(byte);
    }

    #[inline(always)]
    fn bytes(&mut self, bytes: &[u8]) {
        match self.try_extend_from_slice(bytes) {
            Ok(()) => {}
            Err(_) => unreachable!(),
        }
    }

    #[inline(always)]
    fn number(&mut self, number: u32) {
        put_u32(number, self);
    }

    #[inline(always)]
    fn text(&mut self, text: &[u8]) {
        put_text(text, self);
    }
}

/// Adds the bytes to a list that has room for them.
#[inline(always)]
fn add(bytes: &[u8], out: &mut Vec<u8>)
    requires { length out.old.items + length bytes.now ≤ vec_capacity out.old }
    ensures added { out.new.items ≡ out.old.items ++ bytes.now }
    ensures capacity { vec_capacity out.old ≤ vec_capacity out.new }
{
    match out.extend_from_slice(bytes) {
        Ok(()) => {}
        Err(_) => unreachable!(),
    }
}

impl Pen for Vec<u8> {
    ghost use Rattle.std.specs.Prelude.{◌-◌, length};
    ghost use Rattle.std.specs.Vec.{vec_capacity};

    ghost written = { λ v. v.items };

    ghost room = { λ v. vec_capacity v - length v.items };

    ghost most = { 65535 };

    #[inline(always)]
    fn byte(&mut self, byte: u8) {
        self.push_reserved(byte);
    }

    #[inline(always)]
    fn bytes(&mut self, bytes: &[u8]) {
        add(bytes, self);
    }

    #[inline(always)]
    fn number(&mut self, number: u32) {
        let mut spelling = Buf::new();
        put_u32(number, &mut spelling);
        add(spelling.as_slice(), self);
    }

    #[inline(always)]
    fn text(&mut self, text: &[u8]) {
        if text.len() < 255 {
            self.byte(text.len() as u8);
        } else {
            self.byte(255);
            self.byte((text.len() % 256) as u8);
            self.byte((text.len() / 256) as u8);
        }
        add(text, self);
    }
}
