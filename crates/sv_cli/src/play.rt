//! Workloads that are played: what a file says is loaded, and what is made of the journal is
//! written.
ghost use Rattle.std.specs.Prelude.{◌≡◌, ◌≢◌, ◌++◌, [], Some, Err, false, IsErr, OnOk, OnErr};
ghost use Rattle.std.specs.Io.KnownBytes.{Appends};
ghost use Rattle.sv_base.specs.Causes.{BlamesLast};
ghost use Rattle.sv_base.specs.Streams.{AppendsPart};
ghost use Rattle.sv_view.specs.Files.{OfFile};
ghost use Rattle.sv_cli.specs.Devices.{HasRead};
ghost use Rattle.sv_cli.specs.Recorded.{IsLoaded, IsPut, is_unwritten};

use crate::reading::read_file;
use crate::status::Status;
use std::alloc::Global;
use sv_base::{Failed, ReadAll, Sink, Source, put_all};
use sv_journal::Journal;
use sv_load::Workload;
use sv_prim::NoMemory;
use sv_sent::has_start;
use sv_workload::{WorkFault, parse};

/// The most bytes of a workload.
const MOST_BYTES: u64 = 1 << 26;

/// The workload that the file of the name says, or how a command ends that has none.
pub fn load_of<S: Source>(alloc: Global, name: &str, src: &mut S) -> Result<Workload, Status>
    ensures loaded { OfFile (S.held src.old name.now) (S.left src.new) (λ file taken.
        IsLoaded file taken result) }
    ensures unwritten { result ≢ Err Status.WriteFault }
    ensures source { HasRead (Some name.now) (src.new ≡ src.old) (S.sure src.old)
        (S.begins src.old) (S.begins src.new) (S.faults src.old) (S.faults src.new)
        (result ≡ Err Status.ReadFault) }
{
    let text = match read_file(alloc, name, src, MOST_BYTES) {
        Ok(text) => text,
        Err(ReadAll::Failed) => return Err(Status::ReadFault),
        Err(ReadAll::TooLong) => return Err(Status::TooLong { limit: MOST_BYTES }),
        Err(ReadAll::NoMemory) => return Err(Status::NoMemory),
    };
    match parse(alloc, &text) {
        Ok(load) => Ok(load),
        Err(WorkFault::Line { line, reason }) => Err(Status::Workload { line, reason }),
        Err(WorkFault::NoMemory) => Err(Status::NoMemory),
    }
}

/// Writes a head and the rest.
fn put_made<K: Sink>(out: &mut K, head: &[u8], rest: &[u8]) -> Result<(), Failed>
    ensures ok { OnOk result
        (Appends (K.written out.old) (K.written out.new) (head.now ++ rest.now)) }
    ensures err { OnErr result
        (AppendsPart (K.written out.old) (K.written out.new) (head.now ++ rest.now)) }
    ensures sink { BlamesLast (IsErr result)
        (K.broken out.new) (K.faults out.old) (K.faults out.new) }
{
    put_all(out, head)?;
    put_all(out, rest)?;
    Ok(())
}

/// Ends a command that has played the workload: writes what was made of it, the head and the rest,
/// and hands the history on as `journal`, which is empty. Where nothing was made for want of memory
/// nothing is written, and the journal stays empty.
pub fn put_played<K: Sink>(
    load: &Workload,
    head: &str,
    made: Result<Vec<u8>, NoMemory>,
    history: Journal,
    out: &mut K,
    journal: &mut Journal,
) -> Status
    requires { journal.old.items ≡ [] }
    ensures put { IsPut load.now head.now made history.items
        (K.written out.old) (K.written out.new) journal.new.items result }
    ensures tried { is_unwritten result ≡ false }
    ensures unread { result ≢ Status.ReadFault }
    ensures sink { BlamesLast (result ≡ Status.WriteFault)
        (K.broken out.new) (K.faults out.old) (K.faults out.new) }
{
    let Ok(rest) = made else {
        return Status::NoMemory;
    };
    *journal = history;
    let Ok(()) = put_made(out, head.as_bytes(), rest.as_slice()) else {
        return Status::WriteFault;
    };
    if !has_start(load, journal.items()) {
        return Status::NoSync;
    }
    Status::Done
}
