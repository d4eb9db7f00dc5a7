//! Events as they stand in the bytes of their packets.
use crate::event::{Event, Packet};
use crate::numbers_ref::NumbersRef;
use std::alloc::Global;
use sv_prim::{Bytes, NoMemory};

/// What a packet tells, as [`Event`] does, with texts, arguments and payloads where they stand in
/// the packet. It owns no memory.
///
/// [`Event`]: crate::Event
#[derive(Drop)]
pub enum EventRef<'a> {
    /// Nothing; its delta counts (0).
    Nop,
    /// So many packets found no room in the target's buffer and were dropped (1).
    Overflow {
        count: u32,
    },
    /// The interrupt of this number begins (2).
    IsrEnter {
        isr: u32,
    },
    /// The interrupt that runs ends (3).
    IsrExit,
    /// The task goes on (4).
    TaskStart {
        task: u32,
    },
    /// The task that ran is over (5).
    TaskStop,
    /// The task can run, and waits for the processor (6).
    TaskReady {
        task: u32,
    },
    /// The task cannot run any more, for the cause that the target's system gives (7).
    TaskUnready {
        task: u32,
        cause: u32,
    },
    /// The task was made (8).
    TaskCreate {
        task: u32,
    },
    /// The task's priority and its name (9).
    TaskInfo {
        task: u32,
        priority: u32,
        name: &'a [u8],
    },
    /// The target begins to record (10).
    TraceStart,
    /// The target ends to record (11).
    TraceStop,
    /// The time of the target's system, in cycles of its counter (12).
    SystimeCycles {
        value: u32,
    },
    /// The time of the target's system in microseconds: `low + high * 2^32` (13).
    SystimeUs {
        low: u32,
        high: u32,
    },
    /// A line about the target's system (14).
    SysDesc {
        text: &'a [u8],
    },
    /// The user's span of this number begins (15).
    MarkStart {
        id: u32,
    },
    /// The user's span of this number ends (16).
    MarkStop {
        id: u32,
    },
    /// Nothing is left to run (17).
    Idle,
    /// The interrupt that runs ends, and the scheduler goes on (18).
    ToScheduler,
    /// The software timer begins (19).
    TimerEnter {
        timer: u32,
    },
    /// The software timer that runs ends (20).
    TimerExit,
    /// The lowest address of the task's stack, and its size in bytes (21).
    StackInfo {
        task: u32,
        stack_base: u32,
        stack_size: u32,
        extra: u32,
    },
    /// The module of this number, the identifier of its first event, and its description (22).
    ModuleDesc {
        module: u32,
        offset: u32,
        text: &'a [u8],
    },
    /// The frequencies of the counter and of the processor in hertz, and how task identifiers are
    /// shrunk: from the base of the RAM, without so many low bits (24).
    Init {
        sys_freq: u32,
        cpu_freq: u32,
        ram_base: u32,
        shift: u32,
    },
    /// The name of a resource (25).
    NameResource {
        resource: u32,
        text: &'a [u8],
    },
    /// A text of the user with the arguments of its format (26).
    Print {
        text: &'a [u8],
        options: u32,
        args: NumbersRef<'a>,
    },
    /// So many modules are registered (27).
    NumModules {
        count: u32,
    },
    /// The call that this event began ends, with the value that it answered (28).
    EndCall {
        event: u32,
        value: Option<u32>,
    },
    /// The task is over for good (29).
    TaskTerminate {
        task: u32,
    },
    /// Any other packet that says its length, with its payload as it stands (24 to 16383).
    Opaque {
        id: u16,
        payload: &'a [u8],
    },
}

/// An event as it stands in its packet, and the packet's delta in ticks.
#[derive(Drop)]
pub struct PacketRef<'a> {
    pub event: EventRef<'a>,
    pub delta: u32,
}

impl<'a> EventRef<'a> {
    ghost use Rattle.std.specs.Prelude.{◌≡◌, IfOk, IsErr};
    ghost use Rattle.sv_packet.specs.EventRef.{seen};
    ghost use Rattle.sv_packet.specs.Made.{HasList};

    /// The same event, which owns its memory. Memory is taken for a text, arguments or a payload
    /// alone, once for each.
    pub fn to_event(&self, alloc: Global) -> Result<Event, NoMemory>
        ensures same { IfOk result (λ event. event ≡ seen self.now) }
        ensures memory { IsErr result → HasList (seen self.now) }
    {
        Ok(match self {
            EventRef::Nop => Event::Nop,
            EventRef::Overflow { count } => Event::Overflow { count: *count },
            EventRef::IsrEnter { isr } => Event::IsrEnter { isr: *isr },
            EventRef::IsrExit => Event::IsrExit,
            EventRef::TaskStart { task } => Event::TaskStart { task: *task },
            EventRef::TaskStop => Event::TaskStop,
            EventRef::TaskReady { task } => Event::TaskReady { task: *task },
            EventRef::TaskUnready { task, cause } => Event::TaskUnready {
                task: *task,
                cause: *cause,
            },
            EventRef::TaskCreate { task } => Event::TaskCreate { task: *task },
            EventRef::TaskInfo {
                task,
                priority,
                name,
            } => Event::TaskInfo {
                task: *task,
                priority: *priority,
                name: Bytes::new(alloc, name)?,
            },
            EventRef::TraceStart => Event::TraceStart,
            EventRef::TraceStop => Event::TraceStop,
            EventRef::SystimeCycles { value } => Event::SystimeCycles { value: *value },
            EventRef::SystimeUs { low, high } => Event::SystimeUs {
                low: *low,
                high: *high,
            },
            EventRef::SysDesc { text } => Event::SysDesc {
                text: Bytes::new(alloc, text)?,
            },
            EventRef::MarkStart { id } => Event::MarkStart { id: *id },
            EventRef::MarkStop { id } => Event::MarkStop { id: *id },
            EventRef::Idle => Event::Idle,
            EventRef::ToScheduler => Event::ToScheduler,
            EventRef::TimerEnter { timer } => Event::TimerEnter { timer: *timer },
            EventRef::TimerExit => Event::TimerExit,
            EventRef::StackInfo {
                task,
                stack_base,
                stack_size,
                extra,
            } => Event::StackInfo {
                task: *task,
                stack_base: *stack_base,
                stack_size: *stack_size,
                extra: *extra,
            },
            EventRef::ModuleDesc {
                module,
                offset,
                text,
            } => Event::ModuleDesc {
                module: *module,
                offset: *offset,
                text: Bytes::new(alloc, text)?,
            },
            EventRef::Init {
                sys_freq,
                cpu_freq,
                ram_base,
                shift,
            } => Event::Init {
                sys_freq: *sys_freq,
                cpu_freq: *cpu_freq,
                ram_base: *ram_base,
                shift: *shift,
            },
            EventRef::NameResource { resource, text } => Event::NameResource {
                resource: *resource,
                text: Bytes::new(alloc, text)?,
            },
            EventRef::Print {
                text,
                options,
                args,
            } => Event::Print {
                text: Bytes::new(alloc, text)?,
                options: *options,
                args: args.to_numbers(alloc)?,
            },
            EventRef::NumModules { count } => Event::NumModules { count: *count },
            EventRef::EndCall { event, value } => Event::EndCall {
                event: *event,
                value: *value,
            },
            EventRef::TaskTerminate { task } => Event::TaskTerminate { task: *task },
            EventRef::Opaque { id, payload } => Event::Opaque {
                id: *id,
                payload: Bytes::new(alloc, payload)?,
            },
        })
    }
}
