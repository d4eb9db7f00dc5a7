//! The table of lines: of each event the name, the numbers behind it, and what then follows.
ghost use Rattle.std.specs.Prelude.{◌≡◌, ℕ, ◌-◌, ◌≤◌, ◌∷◌, ◌++◌, map, take, drop};
ghost use Rattle.std.specs.Fmt.{decimal};
ghost use Rattle.sv_packet.specs.EventRef.{seen};
ghost use Rattle.sv_report.specs.Lines.{event_words};
ghost use Rattle.sv_report.specs.Told.{told_words, rest_words};

use sv_packet::{EventRef, NumbersRef};

/// What a line tells behind its time.
#[derive(Clone, Copy)]
pub struct Told<'a> {
    /// The name, at the end of 16 bytes, so that a copy of it has a constant size.
    pub name: &'static [u8; 16],
    /// How many of those bytes the name has.
    pub size: usize,
    pub numbers: [u32; 4],
    /// How many of those numbers count.
    pub count: usize,
    pub rest: Rest<'a>,
}

/// What follows the numbers of a line.
#[derive(Clone, Copy)]
pub enum Rest<'a> {
    Nothing,
    Text(&'a [u8]),
    /// Bytes that are not read further.
    Payload(&'a [u8]),
    /// A text, its options, and how many arguments there are before the arguments themselves.
    Print {
        text: &'a [u8],
        options: u32,
        args: &'a NumbersRef<'a>,
    },
}

/// A name, numbers, and what follows them.
#[inline(always)]
fn with_rest<'a>(
    name: &'static [u8; 16],
    size: usize,
    numbers: [u32; 4],
    count: usize,
    rest: Rest<'a>,
) -> Told<'a>
    requires { (size ≤ 16) × (count ≤ 4) }
    ensures words { told_words result
        ≡ drop (16 - size) name.now ∷ (map decimal (take count numbers) ++ rest_words rest.entry) }
    ensures room { (result.size ≤ 16) × (result.count ≤ 4) }
{
    Told {
        name,
        size,
        numbers,
        count,
        rest,
    }
}

/// The same where nothing follows the numbers.
#[inline(always)]
fn plain(name: &'static [u8; 16], size: usize, numbers: [u32; 4], count: usize) -> Told<'static>
    requires { (size ≤ 16) × (count ≤ 4) }
    ensures words { told_words result
        ≡ drop (16 - size) name.now ∷ map decimal (take count numbers) }
    ensures room { (result.size ≤ 16) × (result.count ≤ 4) }
{
    with_rest(name, size, numbers, count, Rest::Nothing)
}

/// What the event's line tells.
#[inline(always)]
pub fn told_of<'a>(event: &'a EventRef<'a>) -> Told<'a>
    ensures words { told_words result ≡ event_words (seen event.now) }
    ensures room { (result.size ≤ 16) × (result.count ≤ 4) }
{
    match event {
        EventRef::Nop => plain(b"             NOP", 3, [0, 0, 0, 0], 0),
        EventRef::Overflow { count } => plain(b"        OVERFLOW", 8, [*count, 0, 0, 0], 1),
        EventRef::IsrEnter { isr } => plain(b"       ISR_ENTER", 9, [*isr, 0, 0, 0], 1),
        EventRef::IsrExit => plain(b"        ISR_EXIT", 8, [0, 0, 0, 0], 0),
        EventRef::TaskStart { task } => plain(b" TASK_START_EXEC", 15, [*task, 0, 0, 0], 1),
        EventRef::TaskStop => plain(b"  TASK_STOP_EXEC", 14, [0, 0, 0, 0], 0),
        EventRef::TaskReady { task } => plain(b"TASK_START_READY", 16, [*task, 0, 0, 0], 1),
        EventRef::TaskUnready { task, cause } => plain(
            b" TASK_STOP_READY",
            15,
            [*task, *cause, 0, 0],
            2,
        ),
        EventRef::TaskCreate { task } => plain(b"     TASK_CREATE", 11, [*task, 0, 0, 0], 1),
        EventRef::TaskInfo {
            task,
            priority,
            name,
        } => {
            with_rest(
                b"       TASK_INFO",
                9,
                [*task, *priority, 0, 0],
                2,
                Rest::Text(name),
            )
        }
        EventRef::TraceStart => plain(b"     TRACE_START", 11, [0, 0, 0, 0], 0),
        EventRef::TraceStop => plain(b"      TRACE_STOP", 10, [0, 0, 0, 0], 0),
        EventRef::SystimeCycles { value } => plain(b"  SYSTIME_CYCLES", 14, [*value, 0, 0, 0], 1),
        EventRef::SystimeUs { low, high } => plain(b"      SYSTIME_US", 10, [*low, *high, 0, 0], 2),
        EventRef::SysDesc { text } => {
            with_rest(b"         SYSDESC", 7, [0, 0, 0, 0], 0, Rest::Text(text))
        }
        EventRef::MarkStart { id } => plain(b"      MARK_START", 10, [*id, 0, 0, 0], 1),
        EventRef::MarkStop { id } => plain(b"       MARK_STOP", 9, [*id, 0, 0, 0], 1),
        EventRef::Idle => plain(b"            IDLE", 4, [0, 0, 0, 0], 0),
        EventRef::ToScheduler => plain(b"ISR_TO_SCHEDULER", 16, [0, 0, 0, 0], 0),
        EventRef::TimerEnter { timer } => plain(b"     TIMER_ENTER", 11, [*timer, 0, 0, 0], 1),
        EventRef::TimerExit => plain(b"      TIMER_EXIT", 10, [0, 0, 0, 0], 0),
        EventRef::StackInfo {
            task,
            stack_base,
            stack_size,
            extra,
        } => {
            plain(
                b"      STACK_INFO",
                10,
                [*task, *stack_base, *stack_size, *extra],
                4,
            )
        }
        EventRef::ModuleDesc {
            module,
            offset,
            text,
        } => {
            with_rest(
                b"      MODULEDESC",
                10,
                [*module, *offset, 0, 0],
                2,
                Rest::Text(text),
            )
        }
        EventRef::Init {
            sys_freq,
            cpu_freq,
            ram_base,
            shift,
        } => {
            plain(
                b"            INIT",
                4,
                [*sys_freq, *cpu_freq, *ram_base, *shift],
                4,
            )
        }
        EventRef::NameResource { resource, text } => {
            with_rest(
                b"   NAME_RESOURCE",
                13,
                [*resource, 0, 0, 0],
                1,
                Rest::Text(text),
            )
        }
        EventRef::Print {
            text,
            options,
            args,
        } => {
            let rest = Rest::Print {
                text,
                options: *options,
                args,
            };
            with_rest(b" PRINT_FORMATTED", 15, [0, 0, 0, 0], 0, rest)
        }
        EventRef::NumModules { count } => plain(b"      NUMMODULES", 10, [*count, 0, 0, 0], 1),
        EventRef::EndCall { event, value: None } => plain(
            b"        END_CALL",
            8,
            [*event, 0, 0, 0],
            1,
        ),
        EventRef::EndCall {
            event,
            value: Some(value),
        } => { plain(b"        END_CALL", 8, [*event, *value, 0, 0], 2) }
        EventRef::TaskTerminate { task } => plain(b"  TASK_TERMINATE", 14, [*task, 0, 0, 0], 1),
        EventRef::Opaque { id, payload } => {
            let rest = Rest::Payload(payload);
            with_rest(b"          OPAQUE", 6, [u32::from(*id), 0, 0, 0], 1, rest)
        }
    }
}
