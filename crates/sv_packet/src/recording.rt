//! Which events a recorder takes.
ghost use Rattle.std.specs.Prelude.{◌↔◌, IsTrue};
ghost use Rattle.sv_packet.specs.declared.event.Event.TheVariants.{Opaque};
ghost use Rattle.sv_packet.specs.Spelling.{IsRecordable};

use crate::counted::is_form;
use crate::event::Event;

/// Whether a recorder takes the payload under the identifier, as an opaque event: it has at most 64
/// bytes, the identifier is from 24 to 16383, and the payload is no form of it.
fn is_short_opaque(id: u16, payload: &[u8]) -> bool
    ensures { IsTrue result ↔ IsRecordable (Opaque id payload.now) }
{
    if id < 24 || id > 16383 {
        return false;
    }
    if payload.len() > 64 {
        return false;
    }
    !is_form(id, payload)
}

/// Whether a recorder takes the event: it is valid, as [`spell`] asks it to be, its texts have at
/// most 128 bytes, a print has at most eight arguments, and an opaque event at most 64 bytes.
///
/// It takes no memory. Of an opaque event with an identifier to 29 it reads the payload.
///
/// [`spell`]: crate::spell
pub fn recordable(event: &Event) -> bool
    ensures { IsTrue result ↔ IsRecordable event.now }
{
    match event {
        Event::TaskInfo { name, .. } => name.bytes().len() <= 128,
        Event::SysDesc { text } => text.bytes().len() <= 128,
        Event::ModuleDesc { text, .. } => text.bytes().len() <= 128,
        Event::NameResource { text, .. } => text.bytes().len() <= 128,
        Event::Print { text, args, .. } => {
            text.bytes().len() <= 128 && args.numbers().len() <= 8
        }
        Event::Opaque { id, payload } => is_short_opaque(*id, payload.bytes()),
        _ => true,
    }
}
