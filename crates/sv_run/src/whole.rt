//! A whole run.
ghost use Rattle.std.specs.Prelude.{◌≡◌, ℕ, ◌+◌, ◌^◌, ◌<◌, ◌≤◌, [], ◌++◌, IfOk, OnOk, OnErr};
ghost use Rattle.std.specs.Prelude.{length};
ghost use Rattle.sv_journal.specs.Legal.{IsLegal, IsWhole};
ghost use Rattle.sv_journal.specs.Stream.{stream_of};
ghost use Rattle.sv_truth.specs.Truth.{TellsTruly};
ghost use Rattle.sv_run.specs.Fed.{IsFed};
ghost use Rattle.sv_run.specs.Ran.{AreThrough, HasAnswered, HasStory};

use crate::host::{Host, analyse};
use crate::rest::steps_left;
use crate::threads::run_named;
use std::alloc::Global;
use std::marker::Brand;
use std::sync::Wait;
use std::thread::Threads;
use sv_analyse::Analyser;
use sv_base::Gate;
use sv_desc::{Describe, Describes, micros_of, put_line};
use sv_journal::Journal;
use sv_load::Workload;
use sv_need::within_need;
use sv_prim::{Buf, NoMemory};
use sv_recorder::{Finished, Recorder};
use sv_ring::{Dock, DownReader, Ends, UpWriter};
use sv_truth::named_truly;

/// What a run gives.
#[derive(Drop)]
struct Ran {
    journal: Journal,
    analyser: Analyser,
}

/// The end of a recorder whose scripts are through.
fn finish<U: UpWriter + Drop, D: DownReader + Drop, P: Describes + Drop>(
    load: &Workload,
    recorder: Recorder<'_, U, D, P>,
) -> Finished<U, D>
    requires load { recorder.load ≡ load.now }
    requires through { AreThrough recorder.load recorder.items }
    ensures legal { IsLegal load.now result.journal.items }
    ensures through { AreThrough load.now result.journal.items }
    ensures sent { U.sent result.up ≡ stream_of load.now result.journal.items }
    ensures short { length (stream_of load.now result.journal.items) < 181000000 }
    ensures ring { U.ring result.up ≡ recorder.entry.ring }
    ensures size { U.size result.up ≡ recorder.entry.size }
    ensures down { D.ring result.down ≡ recorder.entry.down }
    ensures answered { HasAnswered result.journal.items (D.answered result.down) }
{
    load.writers();
    within_need();
    recorder.keeps();
    recorder.finish()
}

/// A run with these callbacks, which are for the workload's lines and clock.
fn run_with<R: Threads + Wait + Sync, D: Dock, P: Describes + Send + Drop, G: Gate>(
    rt: &R,
    alloc: Global,
    load: &Workload,
    dock: &mut D,
    gate: &G,
    desc: P,
) -> Result<Ran, NoMemory>
    requires desc { P.kept desc }
    requires lines { P.lines desc ≡ load.now.lines }
    requires clock { P.clock desc ≡ load.now.clock }
    ensures legal { IfOk result (λ run. IsLegal load.now run.journal.items) }
    ensures whole { IfOk result (λ run. IsWhole load.now run.journal.items) }
    ensures fed { IfOk result
        (λ run. IsFed run.analyser (stream_of load.now run.journal.items)) }
    ensures story { IfOk result
        (λ run. HasStory load.now run.journal.items (D.stories dock.old) (D.stories dock.new)) }
{
    let need = load.need();
    let Ends {
        up,
        host,
        down,
        target,
    } = dock.make(alloc, load.ring(), need.bytes)?;
    let recorder = Recorder::new(alloc, load, up, target, desc)?;
    let host = Host::new(alloc, load, host, down);
    let (mut recorder, mut host) = run_named::<R, Brand, D::Up, D::Target, P, D::Host, D::Down, G>(
        rt, load, recorder, host, gate,
    )?;
    host.send_left();
    steps_left(rt, &mut recorder, load.writers());
    let done = finish(load, recorder);
    let heard = host.into_heard();
    let rest = dock.settle(
        alloc,
        Ends {
            up: done.up,
            host: heard.end,
            down: heard.down,
            target: done.down,
        },
    )?;
    let mut analyser = heard.analyser;
    let mut spans = heard.spans;
    analyse(&mut analyser, &rest, &mut spans)?;
    Ok(Ran {
        journal: done.journal,
        analyser,
    })
}

/// Runs a workload over the rings of a dock: a thread for each of its writers takes the steps of its
/// script, and the calling thread is the host, which reads without the recorder's lock, analyses
/// what it takes and sends the workload's commands, one in each turn. Once the writers have ended,
/// the commands and the steps that are left are done here.
///
/// `journal` is empty. It gets the history of the run, in the order in which the recorder's lock was
/// held; after [`NoMemory`] it is empty. The analyser stands for the stream of it, which names no
/// context and no wait that is not so by all calls.
///
/// May wait for its threads.
pub fn run<R: Threads + Wait + Sync, D: Dock, G: Gate>(
    rt: &R,
    alloc: Global,
    load: &Workload,
    dock: &mut D,
    gate: &G,
    journal: &mut Journal,
) -> Result<Analyser, NoMemory>
    requires empty { journal.old.items ≡ [] }
    ensures legal { OnOk result (IsLegal load.now journal.new.items) }
    ensures whole { OnOk result (IsWhole load.now journal.new.items) }
    ensures fed { IfOk result (λ a. IsFed a (stream_of load.now journal.new.items)) }
    ensures names { OnOk result (TellsTruly load.now journal.new.items) }
    ensures story { OnOk result
        (HasStory load.now journal.new.items (D.stories dock.old) (D.stories dock.new)) }
    ensures empty { OnErr result (journal.new.items ≡ []) }
{
    // What is known of every such stream: it names nothing that is not so.
    load.writers();
    named_truly();
    let lines = load.lines();
    let clock = load.clock();
    let desc = Describe::new(
        lines,
        clock,
        |index: u32, out: &mut Buf| put_line(lines, index, out),
        |moment: u64| micros_of(clock, moment),
    );
    let ran = run_with(rt, alloc, load, dock, gate, desc)?;
    *journal = ran.journal;
    Ok(ran.analyser)
}
