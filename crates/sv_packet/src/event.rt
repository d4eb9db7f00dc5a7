use sv_prim::{Bytes, Numbers};

/// What a packet tells, one variant for each identifier (UM08027, event identifiers).
///
/// Tasks, timers and resources go by their shrunk identifiers, as the target sends them.
#[derive(Debug, Drop, PartialEq, Eq)]
pub enum Event {
    /// Nothing; its delta counts (0).
    Nop,
    /// So many packets found no room in the target's buffer and were dropped (1).
    Overflow {
        count: u32,
    },
    /// The interrupt of this number begins (2).
    IsrEnter {
        isr: u32,
    },
    /// The interrupt that runs ends (3).
    IsrExit,
    /// The task goes on (4).
    TaskStart {
        task: u32,
    },
    /// The task that ran is over (5).
    TaskStop,
    /// The task can run, and waits for the processor (6).
    TaskReady {
        task: u32,
    },
    /// The task cannot run any more, for the cause that the target's system gives (7).
    TaskUnready {
        task: u32,
        cause: u32,
    },
    /// The task was made (8).
    TaskCreate {
        task: u32,
    },
    /// The task's priority and its name (9).
    TaskInfo {
        task: u32,
        priority: u32,
        name: Bytes,
    },
    /// The target begins to record (10).
    TraceStart,
    /// The target ends to record (11).
    TraceStop,
    /// The time of the target's system, in cycles of its counter (12).
    SystimeCycles {
        value: u32,
    },
    /// The time of the target's system in microseconds: `low + high * 2^32` (13).
    SystimeUs {
        low: u32,
        high: u32,
    },
    /// A line about the target's system (14).
    SysDesc {
        text: Bytes,
    },
    /// The user's span of this number begins (15).
    MarkStart {
        id: u32,
    },
    /// The user's span of this number ends (16).
    MarkStop {
        id: u32,
    },
    /// Nothing is left to run (17).
    Idle,
    /// The interrupt that runs ends, and the scheduler goes on (18).
    ToScheduler,
    /// The software timer begins (19).
    TimerEnter {
        timer: u32,
    },
    /// The software timer that runs ends (20).
    TimerExit,
    /// The lowest address of the task's stack, and its size in bytes (21).
    StackInfo {
        task: u32,
        stack_base: u32,
        stack_size: u32,
        extra: u32,
    },
    /// The module of this number, the identifier of its first event, and its description (22).
    ModuleDesc {
        module: u32,
        offset: u32,
        text: Bytes,
    },
    /// The frequencies of the counter and of the processor in hertz, and how task identifiers are
    /// shrunk: from the base of the RAM, without so many low bits (24).
    Init {
        sys_freq: u32,
        cpu_freq: u32,
        ram_base: u32,
        shift: u32,
    },
    /// The name of a resource (25).
    NameResource {
        resource: u32,
        text: Bytes,
    },
    /// A text of the user with the arguments of its format (26).
    Print {
        text: Bytes,
        options: u32,
        args: Numbers,
    },
    /// So many modules are registered (27).
    NumModules {
        count: u32,
    },
    /// The call that this event began ends, with the value that it answered (28).
    EndCall {
        event: u32,
        value: Option<u32>,
    },
    /// The task is over for good (29).
    TaskTerminate {
        task: u32,
    },
    /// Any other packet that says its length, with its payload as it stands (24 to 16383).
    Opaque {
        id: u16,
        payload: Bytes,
    },
}

/// An event, and the ticks from the packet before it to this one, or for the first from 0.
#[derive(Debug, Drop, PartialEq, Eq)]
pub struct Packet {
    pub event: Event,
    pub delta: u32,
}

/// An event at its time: the sum of the deltas up to its packet, in ticks.
#[derive(Debug, Drop, PartialEq, Eq)]
pub struct TimedEvent {
    pub time: u64,
    pub event: Event,
}
