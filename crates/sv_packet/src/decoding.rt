//! One packet from the front of a slice.
ghost use Rattle.std.specs.Prelude.{◌≡◌, ◌≢◌, ℕ, ◌≤◌, IfOk, IsErr};
ghost use Rattle.sv_prim.specs.Code.{Begins, Tells, IsOnly};
ghost use Rattle.sv_packet.specs.declared.event.Packet.{Packet};
ghost use Rattle.sv_packet.specs.Packet.{IsPacket};
ghost use Rattle.sv_packet.specs.Reason.{packet_reason};
ghost use Rattle.sv_packet.specs.Made.{HasList};
ghost use Rattle.sv_packet.specs.EventRef.{seen, got_seen};
ghost use Rattle.sv_packet.specs.Read.{ReadsParts, IsToldBy, told_by};

use crate::building::regular_event;
use crate::counted::counted_event;
use crate::event::Packet;
use crate::event_ref::{EventRef, PacketRef};
use crate::reader::{Four, Reader, Stop};
use crate::shape::shape_of;
use std::alloc::Global;
use sv_prim::{Got, NoMemory};

/// What a packet is made of, as it stands in the slice.
#[derive(Clone, Copy)]
pub struct Parts<'a> {
    pub id: u16,
    /// The numbers that a payload without a length field begins with, and else zeros.
    pub four: Four,
    /// The text that ends such a payload, if it has one. Under a length field the whole payload.
    pub bytes: &'a [u8],
    pub delta: u32,
}

/// The parts of the packet that comes next.
#[inline(always)]
fn read_parts<'a>(reader: &mut Reader<'a>) -> Result<Parts<'a>, Stop>
    ensures { ReadsParts reader.old reader.new result }
{
    let id = reader.identifier()?;
    if id >= 24 {
        let size = reader.length()?;
        let bytes = reader.take(usize::from(size))?;
        let delta = reader.number()?;
        let four = Four {
            a: 0,
            b: 0,
            c: 0,
            d: 0,
        };
        return Ok(Parts {
            id,
            four,
            bytes,
            delta,
        });
    }
    let (count, ends) = shape_of(id);
    let four = reader.numbers(count)?;
    let bytes = reader.text_if(ends)?;
    let delta = reader.number()?;
    Ok(Parts {
        id,
        four,
        bytes,
        delta,
    })
}

/// The event that the parts tell.
#[inline(always)]
fn event_of<'a>(parts: &Parts<'a>) -> EventRef<'a>
    requires known { parts.now.id ≢ 23 }
    requires fits { parts.now.id ≤ 16383 }
    ensures { IsToldBy parts.now (seen result) }
{
    if parts.id < 24 {
        regular_event(parts.id, parts.four, parts.bytes)
    } else {
        counted_event(parts.id, parts.bytes)
    }
}

/// What a stop says of a slice that was read from its first byte.
#[inline(always)]
fn stopped<'a>(stop: Stop) -> Got<PacketRef<'a>>
    ensures { got_seen result ≡ told_by stop }
{
    match stop {
        Stop::Short => Got::Short,
        Stop::Bad { place, reason } => Got::Bad { place, reason },
    }
}

/// The packet at the front of the slice: its identifier, from 24 on its payload's length, its
/// payload and its delta in ticks (UM08027, packet format). Takes no memory: what the event has of
/// texts, arguments and payload stays in the slice.
///
/// Identifiers and lengths, numbers and texts are read in their shortest form only, and 23 is no
/// identifier. A payload under a length field is never refused: it is a known event only where it
/// is a form of its identifier to its last byte, and else it is kept as bytes.
#[inline(always)]
pub fn decode_ref(bytes: &[u8]) -> Got<PacketRef<'_>>
    ensures told { Tells IsPacket packet_reason bytes.now (got_seen result) }
    ensures only { IsOnly IsPacket bytes.now (got_seen result) }
{
    let mut reader = Reader { bytes, at: 0 };
    match read_parts(&mut reader) {
        Ok(parts) => Got::Value {
            value: PacketRef {
                event: event_of(&parts),
                delta: parts.delta,
            },
            used: reader.at,
        },
        Err(stop) => stopped(stop),
    }
}

/// The packet at the front of the slice, as [`decode_ref`] tells it, which owns its memory.
///
/// Memory is taken only for an event that has a text, arguments or a payload, once for each, when
/// the whole packet is there.
pub fn decode(alloc: Global, bytes: &[u8]) -> Result<Got<Packet>, NoMemory>
    ensures told { IfOk result (λ got. Tells IsPacket packet_reason bytes.now got) }
    ensures only { IfOk result (λ got. IsOnly IsPacket bytes.now got) }
    ensures memory { IsErr result → (packet : Packet) × (used : ℕ) ×
        Begins IsPacket bytes.now packet used × HasList packet.event }
{
    match decode_ref(bytes) {
        Got::Value { value, used } => {
            let event = value.event.to_event(alloc)?;
            Ok(Got::Value {
                value: Packet {
                    event,
                    delta: value.delta,
                },
                used,
            })
        }
        Got::Short => Ok(Got::Short),
        Got::Bad { place, reason } => Ok(Got::Bad { place, reason }),
    }
}
