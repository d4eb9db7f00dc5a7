//! The text of a report.
ghost use Rattle.std.specs.Prelude.{◌≡◌, ◌++◌, ◌<◌, ◌/◌, ◌%◌, OnOk, IfOk, codes, flat_map};
ghost use Rattle.std.specs.Fmt.{decimal};
ghost use Rattle.sv_report.specs.Lines.{hex_digit as digit_of};
ghost use Rattle.sv_report.specs.ReportText.{count_line, counts_of, damaged_line, head_of, lost_line};
ghost use Rattle.sv_report.specs.ReportText.{short_text_of};
ghost use Rattle.sv_report.specs.ReportText.{system_line as line_of_system};
ghost use Rattle.sv_report.specs.ReportText.{desc_line, module_line, load_line, task_line, text_of};
ghost use Rattle.sv_report.specs.ReportText.{id_word, name_word, measured_word, times_words};
ghost use Rattle.sv_report.specs.Spans.{label_of};

use crate::ends::end_line;
use crate::labels::put_label;
use crate::texts::{hex_digit, put_text};
use itoa::Buffer;
use std::alloc::{AllocError, Global};
use sv_analyse::{LoadLine, ModuleLine, Report, System, TaskLine};
use sv_latency::TaskTimes;
use sv_prim::{Bytes, NoMemory};

/// Appends words and a number.
fn put_counted(words: &str, number: u64, out: &mut Vec<u8>) -> Result<(), AllocError>
    ensures { OnOk result (out.new.items ≡ out.old.items ++ (words.now ++ decimal number)) }
{
    out.extend_from_slice(words.as_bytes())?;
    out.extend_from_slice(Buffer::new().format(number).as_bytes())
}

/// Appends words, a number in decimal and the line's end. After an error the buffer is open.
pub fn put_count(words: &str, number: u64, out: &mut Vec<u8>) -> Result<(), AllocError>
    ensures { OnOk result (out.new.items ≡ out.old.items ++ count_line words.now number) }
{
    put_counted(words, number, out)?;
    out.extend_from_slice(b"\n")
}

/// Appends the line of losses.
fn put_lost(lost: u64, overflows: u64, out: &mut Vec<u8>) -> Result<(), AllocError>
    ensures { OnOk result (out.new.items ≡ out.old.items ++ lost_line lost overflows) }
{
    put_counted("lost ", lost, out)?;
    put_count(" in ", overflows, out)
}

/// Appends the line of the system.
fn put_system(system: Option<System>, out: &mut Vec<u8>) -> Result<(), AllocError>
    ensures { OnOk result (out.new.items ≡ out.old.items ++ line_of_system system) }
{
    match system {
        Some(system) => {
            put_counted("system ", u64::from(system.sys_freq), out)?;
            put_count(" ", u64::from(system.cpu_freq), out)
        }
        None => out.extend_from_slice(b"system - -\n"),
    }
}

/// Appends the line of how many places are damaged, where some are. After an error the buffer is
/// open.
pub fn put_marks(damaged: u64, out: &mut Vec<u8>) -> Result<(), AllocError>
    ensures { OnOk result (out.new.items ≡ out.old.items ++ damaged_line damaged) }
{
    match damaged {
        0 => Ok(()),
        _ => put_count("damaged ", damaged, out),
    }
}

/// Appends the lines of counts.
fn put_counts(report: &Report, out: &mut Vec<u8>) -> Result<(), AllocError>
    ensures { OnOk result (out.new.items ≡ out.old.items ++ counts_of report.now) }
{
    put_count("packets ", report.packets, out)?;
    put_count("ticks ", report.ticks, out)?;
    put_lost(report.lost, report.overflows, out)?;
    put_count("anomalies ", report.anomalies, out)?;
    put_marks(report.damaged, out)
}

/// Appends the lines that each report has.
fn put_head(report: &Report, out: &mut Vec<u8>) -> Result<(), AllocError>
    ensures { OnOk result (out.new.items ≡ out.old.items ++ head_of report.now) }
{
    put_counts(report, out)?;
    put_system(report.system, out)
}

/// Appends the line of a description.
fn put_desc(text: &Bytes, out: &mut Vec<u8>) -> Result<(), AllocError>
    ensures { OnOk result (out.new.items ≡ out.old.items ++ desc_line text.now) }
{
    out.extend_from_slice(b"desc")?;
    put_text(text.bytes(), out)?;
    out.extend_from_slice(b"\n")
}

fn put_descs(lines: &[Bytes], out: &mut Vec<u8>) -> Result<(), AllocError>
    ensures { OnOk result (out.new.items ≡ out.old.items ++ flat_map desc_line lines.now) }
{
    for line in lines {
        put_desc(line, out)?;
    }
    Ok(())
}

/// Appends the line of a module.
fn put_module(line: &ModuleLine, out: &mut Vec<u8>) -> Result<(), AllocError>
    ensures { OnOk result (out.new.items ≡ out.old.items ++ module_line line.now) }
{
    put_counted("module ", u64::from(line.module), out)?;
    put_counted(" ", u64::from(line.offset), out)?;
    put_text(line.text.bytes(), out)?;
    out.extend_from_slice(b"\n")
}

fn put_modules(lines: &[ModuleLine], out: &mut Vec<u8>) -> Result<(), AllocError>
    ensures { OnOk result (out.new.items ≡ out.old.items ++ flat_map module_line lines.now) }
{
    for line in lines {
        put_module(line, out)?;
    }
    Ok(())
}

/// Appends the line of a load.
fn put_load(line: &LoadLine, out: &mut Vec<u8>) -> Result<(), AllocError>
    ensures { OnOk result (out.new.items ≡ out.old.items ++ load_line line.now) }
{
    out.extend_from_slice(b"load")?;
    put_label(line.context, out)?;
    put_counted(" ", line.ticks, out)?;
    put_count(" ", line.per_mille, out)
}

fn put_loads(lines: &[LoadLine], out: &mut Vec<u8>) -> Result<(), AllocError>
    ensures { OnOk result (out.new.items ≡ out.old.items ++ flat_map load_line lines.now) }
{
    for line in lines {
        put_load(line, out)?;
    }
    Ok(())
}

/// The hexadecimal digit of this unit.
fn digit(number: u32, unit: u32) -> u8
    requires { 0 < unit }
    ensures { result ≡ digit_of ((number / unit) % 16) }
{
    hex_digit((number / unit % 16) as u8)
}

/// Appends an identifier, or a dash where there is none.
fn put_id(id: Option<u32>, out: &mut Vec<u8>) -> Result<(), AllocError>
    ensures { OnOk result (out.new.items ≡ out.old.items ++ id_word id) }
{
    let Some(id) = id else {
        return out.extend_from_slice(b"-");
    };
    out.extend_from_slice(&[
        b'0',
        b'x',
        digit(id, 0x1000_0000),
        digit(id, 0x100_0000),
        digit(id, 0x10_0000),
        digit(id, 0x1_0000),
        digit(id, 0x1000),
        digit(id, 0x100),
        digit(id, 0x10),
        digit(id, 1),
    ])
}

/// Appends a space and a name, or a dash where there is none.
fn put_name(name: &Option<Bytes>, out: &mut Vec<u8>) -> Result<(), AllocError>
    ensures { OnOk result (out.new.items ≡ out.old.items ++ (codes " " ++ name_word name.now)) }
{
    match name {
        Some(name) => put_text(name.bytes(), out),
        None => out.extend_from_slice(b" -"),
    }
}

/// Appends words and a number, or a dash in its place where nothing was measured.
fn put_measured(
    words: &str,
    times: &TaskTimes,
    number: u64,
    out: &mut Vec<u8>,
) -> Result<(), AllocError>
    ensures { OnOk result
        (out.new.items ≡ out.old.items ++ (words.now ++ measured_word times.now number)) }
{
    if times.measured == 0 {
        out.extend_from_slice(words.as_bytes())?;
        return out.extend_from_slice(b"-");
    }
    put_counted(words, number, out)
}

/// Appends a task's times, and the line's end.
fn put_times(times: &TaskTimes, out: &mut Vec<u8>) -> Result<(), AllocError>
    ensures { OnOk result (out.new.items ≡ out.old.items ++ times_words times.now) }
{
    put_counted(" starts ", times.starts, out)?;
    put_counted(" measured ", times.measured, out)?;
    put_measured(" min ", times, times.least, out)?;
    put_measured(" max ", times, times.most, out)?;
    put_counted(" sum ", times.sum, out)?;
    put_counted(" resumed ", times.resumed, out)?;
    put_count(" unknown ", times.unknown, out)
}

/// Appends the line of a task.
fn put_task(line: &TaskLine, out: &mut Vec<u8>) -> Result<(), AllocError>
    ensures { OnOk result (out.new.items ≡ out.old.items ++ task_line line.now) }
{
    put_counted("task ", u64::from(line.times.task), out)?;
    out.push(b' ')?;
    put_id(line.id, out)?;
    put_name(&line.name, out)?;
    put_times(&line.times, out)
}

fn put_tasks(lines: &[TaskLine], out: &mut Vec<u8>) -> Result<(), AllocError>
    ensures { OnOk result (out.new.items ≡ out.old.items ++ flat_map task_line lines.now) }
{
    for line in lines {
        put_task(line, out)?;
    }
    Ok(())
}

/// Appends the report's text: a line for each of its parts, as docs/OUTPUT.md shows them. NoMemory
/// leaves `out` open.
pub fn put_report(report: &Report, out: &mut Vec<u8>) -> Result<(), NoMemory>
    ensures { OnOk result (out.new.items ≡ out.old.items ++ text_of report.now) }
{
    put_head(report, out)?;
    put_descs(report.descs.lines(), out)?;
    put_modules(report.modules.lines(), out)?;
    put_loads(report.loads.lines(), out)?;
    put_tasks(report.tasks.lines(), out)?;
    end_line(&report.end, out)
}

/// The report's text.
pub fn text(alloc: Global, report: &Report) -> Result<Vec<u8>, NoMemory>
    ensures { IfOk result (λ text. text.items ≡ text_of report.now) }
{
    let mut out = Vec::new(alloc);
    put_report(report, &mut out)?;
    Ok(out)
}

/// The report's counts and its end, without what it says of contexts and tasks.
pub fn short_text(alloc: Global, report: &Report) -> Result<Vec<u8>, NoMemory>
    ensures { IfOk result (λ text. text.items ≡ short_text_of report.now) }
{
    let mut out = Vec::new(alloc);
    put_counts(report, &mut out)?;
    end_line(&report.end, &mut out)?;
    Ok(out)
}
