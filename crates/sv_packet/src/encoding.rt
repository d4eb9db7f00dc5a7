//! One packet, by its event.
ghost use Rattle.std.specs.Prelude.{◌≡◌, ◌+◌, ◌≤◌, [], ◌++◌, length, IsTrue};
ghost use Rattle.sv_packet.specs.Packet.{IsPacket};
ghost use Rattle.sv_packet.specs.Spelling.{payload_of, spelling_of, HasRange, HasTexts};
ghost use Rattle.sv_packet.specs.Spelling.{IsValid, IsRecordable};

use crate::event::Event;
use crate::packing::{put_bare, put_one, put_opaque, put_plain, put_print, put_texted};
use crate::pen::Pen;
use sv_prim::Buf;

/// The packet of a valid event.
#[inline(always)]
pub fn put_packet<P: Pen>(event: &Event, delta: u32, pen: &mut P)
    requires valid { IsValid event.now }
    requires texts { HasTexts P.most event.now }
    requires room { length (payload_of event.now) + 9 ≤ P.room pen.old }
    ensures written { P.written pen.new ≡ P.written pen.old ++ spelling_of event.now delta }
    ensures range { HasRange event.now }
{
    match event {
        Event::Nop => put_bare(0, delta, pen),
        Event::Overflow { count } => put_one(1, *count, delta, pen),
        Event::IsrEnter { isr } => put_one(2, *isr, delta, pen),
        Event::IsrExit => put_bare(3, delta, pen),
        Event::TaskStart { task } => put_one(4, *task, delta, pen),
        Event::TaskStop => put_bare(5, delta, pen),
        Event::TaskReady { task } => put_one(6, *task, delta, pen),
        Event::TaskUnready { task, cause } => put_plain(7, &[*task, *cause], delta, pen),
        Event::TaskCreate { task } => put_one(8, *task, delta, pen),
        Event::TaskInfo {
            task,
            priority,
            name,
        } => put_texted(9, &[*task, *priority], name.bytes(), delta, pen),
        Event::TraceStart => put_bare(10, delta, pen),
        Event::TraceStop => put_bare(11, delta, pen),
        Event::SystimeCycles { value } => put_one(12, *value, delta, pen),
        Event::SystimeUs { low, high } => put_plain(13, &[*low, *high], delta, pen),
        Event::SysDesc { text } => put_texted(14, &[], text.bytes(), delta, pen),
        Event::MarkStart { id } => put_one(15, *id, delta, pen),
        Event::MarkStop { id } => put_one(16, *id, delta, pen),
        Event::Idle => put_bare(17, delta, pen),
        Event::ToScheduler => put_bare(18, delta, pen),
        Event::TimerEnter { timer } => put_one(19, *timer, delta, pen),
        Event::TimerExit => put_bare(20, delta, pen),
        Event::StackInfo {
            task,
            stack_base,
            stack_size,
            extra,
        } => put_plain(21, &[*task, *stack_base, *stack_size, *extra], delta, pen),
        Event::ModuleDesc {
            module,
            offset,
            text,
        } => put_texted(22, &[*module, *offset], text.bytes(), delta, pen),
        Event::Init {
            sys_freq,
            cpu_freq,
            ram_base,
            shift,
        } => put_plain(24, &[*sys_freq, *cpu_freq, *ram_base, *shift], delta, pen),
        Event::NameResource { resource, text } => {
            put_texted(25, &[*resource], text.bytes(), delta, pen)
        }
        Event::Print {
            text,
            options,
            args,
        } => put_print(text.bytes(), *options, args.numbers(), delta, pen),
        Event::NumModules { count } => put_plain(27, &[*count], delta, pen),
        Event::EndCall { event, value } => match value {
            None => put_plain(28, &[*event], delta, pen),
            Some(value) => put_plain(28, &[*event, *value], delta, pen),
        },
        Event::TaskTerminate { task } => put_plain(29, &[*task], delta, pen),
        Event::Opaque { id, payload } => put_opaque(*id, payload.bytes(), delta, pen),
    }
}

/// Puts into the empty buffer the packet of the event and of its delta in ticks (UM08027, packet
/// format). The event is one that a recorder takes, as [`recordable`] tells.
///
/// The packet has 2 to 183 bytes. Forming it takes no memory, and does not fail.
///
/// [`recordable`]: crate::recordable
#[inline(always)]
pub fn encode(event: &Event, delta: u32, out: &mut Buf)
    requires recordable { IsRecordable event.now }
    requires empty { out.old.items ≡ [] }
    ensures spelled { out.new.items ≡ spelling_of event.now delta }
    ensures packet { IsPacket (record { event = event.now; delta = delta }) out.new.items }
{
    put_packet(event, delta, out);
}
