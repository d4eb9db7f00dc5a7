//! The arguments of a print, as they stand in its packet.
ghost use Rattle.std.specs.Prelude.{◌≡◌, ◌∷◌, [], ℕ, List, length, MatchOption, IfOk};
ghost use Rattle.sv_packet.specs.Parts.{AreNumbers};

use crate::reader::Reader;
use std::alloc::Global;
use std::marker::Model;
use sv_prim::{NoMemory, Numbers};

/// Numbers by their spellings, one after another. It owns no memory.
#[derive(Drop)]
pub struct NumbersRef<'a> {
    bytes: &'a [u8],
    count: u32,
}

impl<'a> Model for NumbersRef<'a> {
    ghost use Rattle.std.specs.Prelude.{List, ℕ};
    ghost use Rattle.sv_packet.specs.Numbers.{numbers_read};
    ghost use Rattle.sv_packet.specs.Parts.{AreNumbers};

    ghost Value = { List ℕ };

    ghost view = { λ n. numbers_read n.bytes.now };

    ghost invariant = { λ n. AreNumbers n.count (numbers_read n.bytes.now) n.bytes.now };
}

/// The numbers that the bytes spell.
fn numbers(alloc: Global, bytes: &[u8], count: u32) -> Result<Numbers, NoMemory>
    requires { (numbers : List ℕ) × AreNumbers count numbers bytes.now }
    ensures { IfOk result (λ numbers. AreNumbers count numbers bytes.now) }
{
    let mut items = Vec::with_capacity(alloc, count as usize)?;
    let mut reader = Reader { bytes, at: 0 };
    for _ in 0..count {
        match reader.number() {
            Ok(number) => items.push_reserved(number),
            Err(_) => unreachable!(),
        }
    }
    Ok(Numbers::from(items))
}

impl<'a> NumbersRef<'a> {
    /// The numbers that the bytes spell, which are so many.
    #[inline(always)]
    pub fn new(bytes: &'a [u8], count: u32) -> NumbersRef<'a>
        requires { (numbers : List ℕ) × AreNumbers count numbers bytes.now }
        ensures { AreNumbers count result bytes.now }
    {
        NumbersRef { bytes, count }
    }

    /// How many numbers there are.
    pub fn len(&self) -> u32
        ensures { result ≡ length self.now }
    {
        self.count
    }

    /// The first number, and those after it.
    pub fn first(&self) -> Option<(u32, NumbersRef<'a>)>
        ensures { MatchOption result (self.now ≡ []) (λ pair. self.now ≡ pair.0 ∷ pair.1) }
    {
        if self.count == 0 {
            return None;
        }
        let mut reader = Reader {
            bytes: self.bytes,
            at: 0,
        };
        match reader.number() {
            Ok(number) => Some((
                number,
                NumbersRef {
                    bytes: &self.bytes[reader.at..],
                    count: self.count - 1,
                },
            )),
            Err(_) => unreachable!(),
        }
    }

    /// A list of them that owns its memory.
    pub fn to_numbers(&self, alloc: Global) -> Result<Numbers, NoMemory>
        ensures { IfOk result (λ numbers. numbers ≡ self.now) }
    {
        numbers(alloc, self.bytes, self.count)
    }
}
