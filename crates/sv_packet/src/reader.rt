//! A cursor over the bytes of one packet.
ghost use Rattle.std.specs.Prelude.{◌≡◌, ◌<◌, ◌≤◌, ◌↔◌, length, IsTrue};
ghost use Rattle.sv_prim.specs.Code.{Tells, Always};
ghost use Rattle.sv_prim.specs.Text.{AreBytes};
ghost use Rattle.sv_packet.specs.Packet.{IsShortNumber};

use sv_prim::{Got, Reason, get_text, get_u32};

/// Why a reader stops inside a packet. The place is an offset in the reader's bytes.
#[derive(Clone, Copy, Debug, PartialEq, Eq)]
pub enum Stop {
    Short,
    Bad { place: usize, reason: Reason },
}

/// At most four numbers: as many as were asked for, and then zeros.
#[derive(Clone, Copy, Debug, PartialEq, Eq)]
pub struct Four {
    pub a: u32,
    pub b: u32,
    pub c: u32,
    pub d: u32,
}

/// The bytes of a packet, and how many of them are read.
#[derive(Clone, Copy)]
pub struct Reader<'a> {
    pub bytes: &'a [u8],
    pub at: usize,
    ghost within: { at ≤ length bytes.now },
}

/// Whether the byte can be the second of two: the bits from the eighth on, which are not all 0.
#[inline(always)]
fn is_second(byte: u8) -> bool
    ensures { IsTrue result ↔ ((0 < byte) × (byte < 128)) }
{
    byte > 0 && byte < 128
}

/// Whether there are so many bytes.
#[inline(always)]
fn has(bytes: &[u8], size: usize) -> bool
    ensures many { IsTrue result ↔ (size ≤ length bytes.now) }
    ensures are { AreBytes bytes.now }
{
    bytes.len() >= size
}

/// The identifier or length at the front of the slice: one byte below 128, or two with the low
/// seven bits first. A second byte of 0, or from 128 on, is refused for the reason.
#[inline(always)]
fn get_short(bytes: &[u8], reason: Reason) -> Got<u16>
    ensures { Tells IsShortNumber (Always reason) bytes.now result }
{
    if bytes.is_empty() {
        return Got::Short;
    }
    if bytes[0] < 128 {
        return Got::Value {
            value: u16::from(bytes[0]),
            used: 1,
        };
    }
    if bytes.len() < 2 {
        return Got::Short;
    }
    if !is_second(bytes[1]) {
        return Got::Bad { place: 1, reason };
    }
    Got::Value {
        value: u16::from(bytes[0]) - 128 + 128 * u16::from(bytes[1]),
        used: 2,
    }
}

impl<'a> Reader<'a> {
    ghost use Rattle.sv_prim.specs.Code.{Always};
    ghost use Rattle.sv_prim.specs.Number.{IsNumber, number_reason};
    ghost use Rattle.sv_prim.specs.Text.{IsText};
    ghost use Rattle.sv_prim.specs.TextAt.{text_reason};
    ghost use Rattle.sv_packet.specs.Packet.{IsShortNumber};
    ghost use Rattle.sv_packet.specs.Parts.{IsIdentifier, AreNumbers, IsTextIf, IsOfSize};
    ghost use Rattle.sv_packet.specs.Reason.{Never};
    ghost use Rattle.sv_packet.specs.Reader.{ReadsPart, ReadsAs, numbers_in};

    /// The next number.
    #[inline(always)]
    pub fn number(&mut self) -> Result<u32, Stop>
        ensures { ReadsPart IsNumber number_reason self.old self.new result }
    {
        match get_u32(&self.bytes[self.at..]) {
            Got::Value { value, used } => {
                self.at += used;
                Ok(value)
            }
            Got::Short => Err(Stop::Short),
            Got::Bad { place, reason } => Err(Stop::Bad {
                place: self.at + place,
                reason,
            }),
        }
    }

    /// The next numbers, at most four.
    #[inline(always)]
    pub fn numbers(&mut self, count: u8) -> Result<Four, Stop>
        requires { count ≤ 4 }
        ensures { ReadsAs (numbers_in count) (AreNumbers count) number_reason
            self.old self.new result }
    {
        let mut four = Four {
            a: 0,
            b: 0,
            c: 0,
            d: 0,
        };
        if count == 0 {
            return Ok(four);
        }
        four.a = self.number()?;
        if count == 1 {
            return Ok(four);
        }
        four.b = self.number()?;
        if count == 2 {
            return Ok(four);
        }
        four.c = self.number()?;
        if count == 3 {
            return Ok(four);
        }
        four.d = self.number()?;
        Ok(four)
    }

    /// The next text's bytes.
    pub fn text(&mut self) -> Result<&'a [u8], Stop>
        ensures { ReadsAs (λ text. text.now) IsText text_reason self.old self.new result }
    {
        let rest = &self.bytes[self.at..];
        match get_text(rest) {
            Got::Value { value, used } => {
                self.at += used;
                Ok(&rest[value.start..value.start + value.len])
            }
            Got::Short => Err(Stop::Short),
            Got::Bad { place, reason } => Err(Stop::Bad {
                place: self.at + place,
                reason,
            }),
        }
    }

    /// The next text's bytes, or none where there is no text.
    #[inline(always)]
    pub fn text_if(&mut self, there: bool) -> Result<&'a [u8], Stop>
        ensures { ReadsAs (λ text. text.now) (IsTextIf there) text_reason self.old self.new result }
    {
        if there {
            return self.text();
        }
        Ok(&self.bytes[..0])
    }

    /// So many bytes.
    #[inline(always)]
    pub fn take(&mut self, size: usize) -> Result<&'a [u8], Stop>
        ensures { ReadsAs (λ part. part.now) (IsOfSize size) Never self.old self.new result }
    {
        let rest = &self.bytes[self.at..];
        if !has(rest, size) {
            return Err(Stop::Short);
        }
        self.at += size;
        Ok(&rest[..size])
    }

    /// The next identifier or length.
    #[inline(always)]
    fn short(&mut self, reason: Reason) -> Result<u16, Stop>
        ensures { ReadsPart IsShortNumber (Always reason) self.old self.new result }
    {
        match get_short(&self.bytes[self.at..], reason) {
            Got::Value { value, used } => {
                self.at += used;
                Ok(value)
            }
            Got::Short => Err(Stop::Short),
            Got::Bad { place, reason } => Err(Stop::Bad {
                place: self.at + place,
                reason,
            }),
        }
    }

    /// The next length of a payload, in bytes.
    #[inline(always)]
    pub fn length(&mut self) -> Result<u16, Stop>
        ensures { ReadsPart IsShortNumber (Always Reason.BadLength) self.old self.new result }
    {
        self.short(Reason::BadLength)
    }

    /// The next identifier. 23 is none, so it is refused at its byte.
    #[inline(always)]
    pub fn identifier(&mut self) -> Result<u16, Stop>
        ensures { ReadsPart IsIdentifier (Always Reason.BadId) self.old self.new result }
    {
        let place = self.at;
        let id = self.short(Reason::BadId)?;
        if id == 23 {
            return Err(Stop::Bad {
                place,
                reason: Reason::BadId,
            });
        }
        Ok(id)
    }
}
