//! The lines of runs of ticks, appended to a buffer.
ghost use Rattle.std.specs.Prelude.{◌≡◌, ◌+◌, ◌-◌, ◌≤◌, ◌++◌, OnOk, OnErr, length, drop};
ghost use Rattle.std.specs.Fmt.{decimal};
ghost use Rattle.sv_report.specs.Spans.{label_of, span_line as line_of_span};
ghost use Rattle.sv_report.specs.Words.{spaced, spaced_number};

use crate::head::{LINE, name_before, number_before};
use itoa::write_digits;
use std::alloc::AllocError;
use sv_context::Context;
use sv_prim::NoMemory;
use sv_timeline::Span;

/// Puts a number and a space before it so that they end at `end`, and tells where they begin.
#[inline(always)]
fn long_before(number: u64, line: &mut [u8; LINE], end: usize) -> usize
    requires { (21 ≤ end) × (end ≤ 96) }
    ensures start { (result ≤ end) × (end ≤ result + 21) }
    ensures written { drop result line.new ≡ spaced_number number ++ drop end line.old }
{
    let start = write_digits(number, line, end) - 1;
    line[start] = b' ';
    start
}

/// Puts a name of so many bytes and a number, each behind a space, so that they end at `end`, and
/// tells where they begin.
#[inline(always)]
fn numbered_before(
    name: &[u8; 16],
    size: usize,
    number: u32,
    line: &mut [u8; LINE],
    end: usize,
) -> usize
    requires { (size ≤ 16) × (28 ≤ end) × (end ≤ 96) }
    ensures start { (result ≤ end) × (end ≤ result + 28) }
    ensures written { drop result line.new
        ≡ spaced (drop (16 - size) name.now) ++ (spaced_number number ++ drop end line.old) }
{
    let start = number_before(number, line, end);
    name_before(name, size, line, start)
}

/// Puts a context's label, with a space before it, so that it ends at `end`, and tells where it
/// begins.
#[inline(always)]
pub fn label_before(context: Context, line: &mut [u8; LINE], end: usize) -> usize
    requires { (28 ≤ end) × (end ≤ 96) }
    ensures start { (result ≤ end) × (end ≤ result + 28) }
    ensures written { drop result line.new ≡ spaced (label_of context) ++ drop end line.old }
{
    match context {
        Context::Gap => name_before(b"             gap", 3, line, end),
        Context::Unknown => name_before(b"         unknown", 7, line, end),
        Context::Scheduler => name_before(b"       scheduler", 9, line, end),
        Context::Idle => name_before(b"            idle", 4, line, end),
        Context::Task(task) => numbered_before(b"            task", 4, task, line, end),
        Context::Timer(timer) => numbered_before(b"           timer", 5, timer, line, end),
        Context::Isr(isr) => numbered_before(b"             isr", 3, isr, line, end),
    }
}

/// Appends the line of a run. It is built on the stack, and appended at once.
#[inline(always)]
fn put_span(first: u64, end: u64, context: Context, out: &mut Vec<u8>) -> Result<(), AllocError>
    ensures ok { OnOk result (out.new.items ≡ out.old.items
        ++ line_of_span (record { start = first; end = end; context = context })) }
    ensures err { OnErr result (out.new.items ≡ out.old.items) }
{
    let mut line = [0; LINE];
    line[LINE - 1] = b'\n';
    let start = label_before(context, &mut line, LINE - 1);
    let start = long_before(end, &mut line, start);
    let start = write_digits(first, &mut line, start);
    out.extend_from_slice(&line[start..])
}

/// Appends the run's line: its first tick, the tick after its last, and its context. After NoMemory
/// the buffer is as it was.
#[inline(always)]
pub fn span_line(span: &Span, out: &mut Vec<u8>) -> Result<(), NoMemory>
    ensures ok { OnOk result (out.new.items ≡ out.old.items ++ line_of_span span.now) }
    ensures err { OnErr result (out.new.items ≡ out.old.items) }
{
    put_span(span.start, span.end, span.context, out)?;
    Ok(())
}
