//! One packet, behind a list of bytes.
ghost use Rattle.std.specs.Prelude.{◌≡◌, ◌+◌, ◌≤◌, ◌++◌, length, OnOk, OnErr};
ghost use Rattle.sv_packet.specs.Packet.{IsPacket};
ghost use Rattle.sv_packet.specs.Spelling.{payload_of, spelling_of, IsValid};

use crate::encoding::put_packet;
use crate::event::Event;
use crate::forming::numbers_len;
use sv_prim::NoMemory;

/// How many bytes the event's payload has at most.
fn most_len(event: &Event) -> usize
    requires { IsValid event.now }
    ensures len { length (payload_of event.now) ≤ result }
    ensures bound { result ≤ 100000 }
{
    match event {
        Event::TaskInfo { name, .. } => name.bytes().len() + 13,
        Event::SysDesc { text } => text.bytes().len() + 3,
        Event::ModuleDesc { text, .. } => text.bytes().len() + 13,
        Event::NameResource { text, .. } => text.bytes().len() + 8,
        Event::Print { text, args, .. } => text.bytes().len() + numbers_len(args.numbers()) + 13,
        Event::Opaque { payload, .. } => payload.bytes().len(),
        _ => 20,
    }
}

/// Adds to the list the spelling of the event with its delta in ticks (UM08027, packet format). The
/// event is valid: its texts have at most 65535 bytes, a payload under a length field has at most
/// 16383, and an opaque event's identifier is from 24 to 16383 and its payload no form of that
/// identifier.
///
/// It adds 2 to 65554 bytes, and asks for memory at most once. Where none is to be had it answers
/// [`NoMemory`], and the list stays as it was.
pub fn spell(event: &Event, delta: u32, out: &mut Vec<u8>) -> Result<(), NoMemory>
    requires valid { IsValid event.now }
    ensures added { OnOk result (out.new.items ≡ out.old.items ++ spelling_of event.now delta) }
    ensures packet { OnOk result
        (IsPacket (record { event = event.now; delta = delta }) (spelling_of event.now delta)) }
    ensures kept { OnErr result (out.new.items ≡ out.old.items) }
{
    let Ok(()) = out.reserve(most_len(event) + 9) else {
        return Err(NoMemory);
    };
    put_packet(event, delta, out);
    Ok(())
}
