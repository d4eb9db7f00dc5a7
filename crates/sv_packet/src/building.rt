//! The event of a payload, where the identifier alone tells what the payload is made of.
ghost use Rattle.std.specs.Prelude.{◌≡◌};
ghost use Rattle.sv_packet.specs.EventRef.{seen};
ghost use Rattle.sv_packet.specs.Shape.{number_count, IsRegularId};
ghost use Rattle.sv_packet.specs.Made.{IsMade};
ghost use Rattle.sv_packet.specs.Reader.{numbers_in};

use crate::event_ref::EventRef;
use crate::reader::Four;

/// The event of these numbers and this text.
#[inline(always)]
pub fn regular_event<'a>(id: u16, four: Four, text: &'a [u8]) -> EventRef<'a>
    requires { IsRegularId id }
    ensures { IsMade id (numbers_in (number_count id) four) text.now (seen result) }
{
    let Four { a, b, c, d } = four;
    match id {
        0 => EventRef::Nop,
        1 => EventRef::Overflow { count: a },
        2 => EventRef::IsrEnter { isr: a },
        3 => EventRef::IsrExit,
        4 => EventRef::TaskStart { task: a },
        5 => EventRef::TaskStop,
        6 => EventRef::TaskReady { task: a },
        7 => EventRef::TaskUnready { task: a, cause: b },
        8 => EventRef::TaskCreate { task: a },
        9 => EventRef::TaskInfo {
            task: a,
            priority: b,
            name: text,
        },
        10 => EventRef::TraceStart,
        11 => EventRef::TraceStop,
        12 => EventRef::SystimeCycles { value: a },
        13 => EventRef::SystimeUs { low: a, high: b },
        14 => EventRef::SysDesc { text },
        15 => EventRef::MarkStart { id: a },
        16 => EventRef::MarkStop { id: a },
        17 => EventRef::Idle,
        18 => EventRef::ToScheduler,
        19 => EventRef::TimerEnter { timer: a },
        20 => EventRef::TimerExit,
        21 => EventRef::StackInfo {
            task: a,
            stack_base: b,
            stack_size: c,
            extra: d,
        },
        22 => EventRef::ModuleDesc {
            module: a,
            offset: b,
            text,
        },
        24 => EventRef::Init {
            sys_freq: a,
            cpu_freq: b,
            ram_base: c,
            shift: d,
        },
        25 => EventRef::NameResource { resource: a, text },
        27 => EventRef::NumModules { count: a },
        _ => EventRef::TaskTerminate { task: a },
    }
}
