//! How many bytes a spelling has, by a sum over its parts.
ghost use Rattle.std.specs.Prelude.{◌≡◌, ◌≤◌, length};
ghost use Rattle.sv_packet.specs.Spelling.{short_spelling, head_spelling, spelling_of};
ghost use Rattle.sv_packet.specs.Spelling.{payload_of, print_payload, IsValid};
ghost use Rattle.sv_packet.specs.Table.{identifier};

use crate::event::Event;
use crate::forming::{number_len, numbers_len, text_len};

/// How many bytes an identifier or a length has.
#[inline(always)]
fn short_len(n: usize) -> usize
    ensures len { result ≡ length (short_spelling n) }
    ensures most { result ≤ 2 }
{
    if n < 128 { 1 } else { 2 }
}

/// How many bytes stand before a payload of so many bytes.
#[inline(always)]
fn head_len(id: u16, size: usize) -> usize
    ensures len { result ≡ length (head_spelling id size) }
    ensures most { result ≤ 4 }
{
    if id < 24 {
        1
    } else {
        short_len(usize::from(id)) + short_len(size)
    }
}

/// How many bytes the payload of a print has.
fn print_len(text: &[u8], options: u32, args: &[u32]) -> usize
    requires text { length text.now ≤ 65535 }
    requires small { length (print_payload text.now options args.now) ≤ 16383 }
    ensures { result ≡ length (print_payload text.now options args.now) }
{
    let count = args.len() as u32;
    let numbers = number_len(options) + number_len(count) + numbers_len(args);
    text_len(text) + numbers
}

/// The identifier of a valid event, and how many bytes its payload has.
#[inline(always)]
#[tactic(auto, using(crate::proofs::how_long::Lengths::appended))]
fn payload_len(event: &Event) -> (u16, usize)
    requires { IsValid event.now }
    ensures id { result.0 ≡ identifier event.now }
    ensures len { result.1 ≡ length (payload_of event.now) }
    ensures most { result.1 ≤ 100000 }
{
    match event {
        Event::Nop => (0, 0),
        Event::Overflow { count } => (1, number_len(*count)),
        Event::IsrEnter { isr } => (2, number_len(*isr)),
        Event::IsrExit => (3, 0),
        Event::TaskStart { task } => (4, number_len(*task)),
        Event::TaskStop => (5, 0),
        Event::TaskReady { task } => (6, number_len(*task)),
        Event::TaskUnready { task, cause } => (7, number_len(*task) + number_len(*cause)),
        Event::TaskCreate { task } => (8, number_len(*task)),
        Event::TaskInfo {
            task,
            priority,
            name,
        } => (
            9,
            number_len(*task) + number_len(*priority) + text_len(name.bytes()),
        ),
        Event::TraceStart => (10, 0),
        Event::TraceStop => (11, 0),
        Event::SystimeCycles { value } => (12, number_len(*value)),
        Event::SystimeUs { low, high } => (13, number_len(*low) + number_len(*high)),
        Event::SysDesc { text } => (14, text_len(text.bytes())),
        Event::MarkStart { id } => (15, number_len(*id)),
        Event::MarkStop { id } => (16, number_len(*id)),
        Event::Idle => (17, 0),
        Event::ToScheduler => (18, 0),
        Event::TimerEnter { timer } => (19, number_len(*timer)),
        Event::TimerExit => (20, 0),
        Event::StackInfo {
            task,
            stack_base,
            stack_size,
            extra,
        } => (
            21,
            number_len(*task)
                + number_len(*stack_base)
                + number_len(*stack_size)
                + number_len(*extra),
        ),
        Event::ModuleDesc {
            module,
            offset,
            text,
        } => (
            22,
            number_len(*module) + number_len(*offset) + text_len(text.bytes()),
        ),
        Event::Init {
            sys_freq,
            cpu_freq,
            ram_base,
            shift,
        } => (
            24,
            number_len(*sys_freq)
                + number_len(*cpu_freq)
                + number_len(*ram_base)
                + number_len(*shift),
        ),
        Event::NameResource { resource, text } => {
            (25, number_len(*resource) + text_len(text.bytes()))
        }
        Event::Print {
            text,
            options,
            args,
        } => (26, print_len(text.bytes(), *options, args.numbers())),
        Event::NumModules { count } => (27, number_len(*count)),
        Event::EndCall { event, value } => match value {
            None => (28, number_len(*event)),
            Some(value) => (28, number_len(*event) + number_len(*value)),
        },
        Event::TaskTerminate { task } => (29, number_len(*task)),
        Event::Opaque { id, payload } => (*id, payload.bytes().len()),
    }
}

/// How many bytes the spelling of a valid event has whose delta is below 128. It takes no memory.
pub fn spelled_len(event: &Event) -> usize
    requires valid { IsValid event.now }
    ensures { result ≡ length (spelling_of event.now 0) }
{
    let (id, size) = payload_len(event);
    head_len(id, size) + size + 1
}
