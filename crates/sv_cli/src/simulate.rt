//! The commands `record` and `simulate`, which simulate a workload and write what is made of it.
ghost use Rattle.std.specs.Prelude.{◌≡◌, ◌≤◌, ◌^◌, ◌++◌, List, [], Some};
ghost use Rattle.std.specs.Prelude.{length, map, IfOk, OnOk};
ghost use Rattle.sv_packet.specs.declared.event.Packet.{Packet};
ghost use Rattle.sv_stream.specs.declared.end.End.{End};
ghost use Rattle.sv_stream.specs.Input.{Entry, Whole};
ghost use Rattle.sv_stream.specs.Reads.{Reads};
ghost use Rattle.sv_journal.specs.Stream.{stream_of};
ghost use Rattle.sv_core.specs.Simulated.{IsSimulated};
ghost use Rattle.sv_sent.specs.Sent.{sent_packets};
ghost use Rattle.sv_sent.specs.Start.{has_start};
ghost use Rattle.sv_truth.specs.Truth.{TellsTruly};
ghost use Rattle.sv_view.specs.Files.{OfFile};
ghost use Rattle.sv_cli.specs.Devices.{HasRead, HasWritten};
ghost use Rattle.sv_cli.specs.Recorded.{IsRecorded, head_of, is_unwritten, makes_of, sent_end};

use crate::make::{Make, rest_of};
use crate::play::{load_of, put_played};
use crate::status::Status;
use std::alloc::Global;
use sv_base::{Sink, Source};
use sv_core::{Simulated, simulate};
use sv_journal::Journal;
use sv_load::Workload;
use sv_need::within_need;
use sv_prim::NoMemory;
use sv_sent::reads_as_sent;
use sv_truth::named_truly;

/// Simulates the workload: the journal, and the bytes sent.
fn run_of(alloc: Global, load: &Workload) -> Result<Simulated, NoMemory>
    ensures simulated { IfOk result (λ run. IsSimulated load.now run.journal.items) }
    ensures names { IfOk result (λ run. TellsTruly load.now run.journal.items) }
    ensures sent { IfOk result (λ run. run.bytes.items ≡ stream_of load.now run.journal.items) }
    ensures short { IfOk result (λ run. length run.bytes.items ≤ 2 ^ 33) }
    ensures ends { IfOk result (λ run. (entries : List (Entry Packet)) → (end : End) →
        Reads run.bytes.items entries end →
        (entries ≡ map Whole (sent_packets load.now run.journal.items))
        × (end ≡ sent_end (has_start load.now run.journal.items))) }
{
    // What is known of every such stream: that it is short, how it ends, and that it names nothing
    // that is not so.
    load.writers();
    within_need();
    reads_as_sent();
    named_truly();
    match simulate(alloc, load) {
        Ok(run) => Ok(run),
        Err(_) => Err(NoMemory),
    }
}

/// Simulates the workload, and makes what is written after the head. `journal` gets the history.
pub fn made_of(
    alloc: Global,
    make: Make,
    load: &Workload,
    journal: &mut Journal,
) -> Result<Vec<u8>, NoMemory>
    ensures happened { OnOk result (IsSimulated load.now journal.new.items) }
    ensures names { OnOk result (TellsTruly load.now journal.new.items) }
    ensures made { IfOk result (λ rest.
        makes_of make load.now journal.new.items (head_of make ++ rest.items)) }
{
    let run = run_of(alloc, load)?;
    *journal = run.journal;
    rest_of(alloc, make, load, journal, run.bytes)
}

/// Simulates the workload of the name, and writes what is made of it.
pub fn simulate_file<S: Source, K: Sink>(
    alloc: Global,
    make: Make,
    name: &str,
    src: &mut S,
    out: &mut K,
    journal: &mut Journal,
) -> Status
    requires { journal.old.items ≡ [] }
    ensures answered { OfFile (S.held src.old name.now) (S.left src.new) (λ file taken.
        IsRecorded IsSimulated (makes_of make) file taken
        (K.written out.old) (K.written out.new) journal.new.items result) }
    ensures source { HasRead (Some name.now) (src.new ≡ src.old) (S.sure src.old)
        (S.begins src.old) (S.begins src.new) (S.faults src.old) (S.faults src.new)
        (result ≡ Status.ReadFault) }
    ensures sink { HasWritten (is_unwritten result) (out.new ≡ out.old)
        (K.broken out.new) (K.faults out.old) (K.faults out.new) (result ≡ Status.WriteFault) }
{
    let load = match load_of(alloc, name, src) {
        Ok(load) => load,
        Err(status) => return status,
    };
    let mut history = Journal::new(alloc);
    let made = made_of(alloc, make, &load, &mut history);
    put_played(&load, make.head(), made, history, out, journal)
}
