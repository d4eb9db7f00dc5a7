//! The command `run`: the report of a workload whose writers are threads.
ghost use Rattle.std.specs.Prelude.{◌≡◌, [], Some, true, IfOk, OnOk};
ghost use Rattle.sv_report.specs.ReportText.{text_of};
ghost use Rattle.sv_truth.specs.Truth.{TellsTruly};
ghost use Rattle.sv_view.specs.Files.{OfFile};
ghost use Rattle.sv_cli.specs.Devices.{HasRead, HasWritten};
ghost use Rattle.sv_cli.specs.Recorded.{HasRun, IsRecorded, IsReportText, is_unwritten};

use crate::play::{load_of, put_played};
use crate::status::Status;
use std::alloc::Global;
use std::sync::Wait;
use std::thread::Threads;
use sv_base::{Gate, Sink, Source};
use sv_journal::Journal;
use sv_load::Workload;
use sv_prim::NoMemory;
use sv_report::text;
use sv_ring::Dock;
use sv_run::run;
use sv_sent::reads_as_sent;

/// Runs the workload in threads, and gives the report of the bytes that the host has taken.
///
/// `journal` is empty. It gets the history of the run.
fn run_report<R: Threads + Wait + Sync, D: Dock, G: Gate>(
    rt: &R,
    alloc: Global,
    load: &Workload,
    dock: &mut D,
    gate: &G,
    journal: &mut Journal,
) -> Result<Vec<u8>, NoMemory>
    requires { journal.old.items ≡ [] }
    ensures ran { OnOk result
        (HasRun (D.stories dock.old) (D.stories dock.new) load.now journal.new.items) }
    ensures names { OnOk result (TellsTruly load.now journal.new.items) }
    ensures report { IfOk result
        (λ lines. IsReportText text_of load.now journal.new.items lines.items) }
{
    // What is known of every such stream: how it ends.
    load.writers();
    reads_as_sent();
    let analyser = run(rt, alloc, load, dock, gate, journal)?;
    let report = analyser.report()?;
    text(alloc, &report)
}

/// Runs the workload of the name in threads, and writes the report of the bytes that the host has
/// taken. May wait for its threads.
pub fn run_file<R: Threads + Wait + Sync, S: Source, K: Sink, D: Dock, G: Gate>(
    rt: &R,
    alloc: Global,
    name: &str,
    src: &mut S,
    out: &mut K,
    dock: &mut D,
    gate: &G,
    journal: &mut Journal,
) -> Status
    requires { journal.old.items ≡ [] }
    ensures answered { OfFile (S.held src.old name.now) (S.left src.new) (λ file taken.
        IsRecorded (HasRun (D.stories dock.old) (D.stories dock.new)) (IsReportText text_of)
        file taken (K.written out.old) (K.written out.new) journal.new.items result) }
    ensures source { HasRead (Some name.now) (src.new ≡ src.old) (S.sure src.old)
        (S.begins src.old) (S.begins src.new) (S.faults src.old) (S.faults src.new)
        (result ≡ Status.ReadFault) }
    ensures sink { HasWritten (is_unwritten result) (out.new ≡ out.old)
        (K.broken out.new) (K.faults out.old) (K.faults out.new) (result ≡ Status.WriteFault) }
    ensures dock { is_unwritten result ≡ true → dock.new ≡ dock.old }
{
    let load = match load_of(alloc, name, src) {
        Ok(load) => load,
        Err(status) => return status,
    };
    let mut history = Journal::new(alloc);
    let made = run_report(rt, alloc, &load, dock, gate, &mut history);
    put_played(&load, "", made, history, out, journal)
}
