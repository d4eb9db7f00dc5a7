//! The threads of a run.
ghost use Rattle.std.specs.Prelude.{◌≡◌, ℕ, ◌<◌, IfOk, length};
ghost use Rattle.std.specs.Thread.{IsSync};
ghost use Rattle.sv_run.specs.Named.{IsRecorderOf};
ghost use Rattle.sv_run.specs.Hosting.{IsSameHost};

use crate::host::Host;
use crate::named::{Named, Naming};
use std::sync::atomic::{AtomicU64, Ordering};
use std::sync::{Mutex, Wait};
use std::thread;
use std::thread::Threads;
use sv_base::Gate;
use sv_desc::Describes;
use sv_load::Workload;
use sv_prim::NoMemory;
use sv_recorder::Recorder;
use sv_ring::{DownReader, DownWriter, UpReader, UpWriter};

/// The next step of a writer, under the lock.
fn step<R: Wait, J: Naming, U: UpWriter + Drop, D: DownReader + Drop, P: Describes + Drop>(
    rt: &R,
    shared: &Mutex<Named<'_, J, U, D, P>>,
    writer: u32,
)
    requires { writer < length J.load.scripts }
{
    let mut named = shared.lock(rt);
    named.step(writer);
}

/// The thread of a writer: all steps of its script, and then it is counted as ended.
fn write_all<
    R: Wait,
    J: Naming,
    U: UpWriter + Drop,
    D: DownReader + Drop,
    P: Describes + Drop,
    G: Gate,
>(
    rt: &R,
    load: &Workload,
    shared: &Mutex<Named<'_, J, U, D, P>>,
    ended: &AtomicU64,
    gate: &G,
    writer: u32,
)
    requires load { load.now ≡ J.load }
    requires writer { writer < length J.load.scripts }
{
    let steps = load.steps(writer).len();
    for _ in 0..steps {
        gate.before_step(writer);
        step(rt, shared, writer);
    }
    ended.fetch_add(1, Ordering::SeqCst);
}

/// The host's turns, until so many writers have ended.
fn host_turns<'w, R: Wait, H: UpReader + Drop, W: DownWriter + Drop, G: Gate>(
    rt: &R,
    ended: &AtomicU64,
    started: u64,
    host: Host<'w, H, W>,
    gate: &G,
) -> Result<Host<'w, H, W>, NoMemory>
    ensures { IfOk result (λ h. IsSameHost host.entry h) }
{
    let mut host = host;
    for _ in rt.forever() {
        if ended.load(Ordering::SeqCst) >= started {
            return Ok(host);
        }
        let (some, next) = host.turn(gate)?;
        host = next;
        if !some {
            thread::yield_now();
        }
    }
    unreachable!()
}

/// Starts a thread for each writer, and is the host until those that could be started have ended.
fn run_threads<
    'x,
    'w,
    R: Threads + Wait + Sync,
    J: Naming + Send + Sync,
    U: UpWriter + Send + Drop,
    D: DownReader + Send + Drop,
    P: Describes + Send + Drop,
    H: UpReader + Drop,
    W: DownWriter + Drop,
    G: Gate,
>(
    rt: &'x R,
    load: &'x Workload,
    shared: &'x Mutex<Named<'w, J, U, D, P>>,
    ended: &'x AtomicU64,
    host: Host<'w, H, W>,
    gate: &'x G,
) -> Result<Host<'w, H, W>, NoMemory>
    requires load { load.now ≡ J.load }
    ensures { IfOk result (λ h. IsSameHost host.entry h) }
{
    thread::scope(
        thread::scope_env(),
        rt,
        move |scope| -> Result<Host<H, W>, NoMemory>
            requires { (load.now ≡ J.load) × IsSync R.row × IsSync J.row × IsSync G.row }
            ensures { IfOk result (λ h. IsSameHost host.entry h) }
        {
            let mut started = 0;
            for writer in 0..load.writers() {
                let thread = scope.spawn(
                    move ||
                        requires { (load.now ≡ J.load) × (writer < length J.load.scripts) }
                    { write_all(rt, load, shared, ended, gate, writer) },
                );
                if thread.is_ok() {
                    started += 1;
                }
            }
            host_turns(rt, ended, started, host, gate)
        },
    )
}

/// Runs the recorder in threads beside the host. The steps of a thread that could not be started are
/// left.
pub(crate) fn run_named<
    'w,
    R: Threads + Wait + Sync,
    J: Naming + Send + Sync,
    U: UpWriter + Send + Drop,
    D: DownReader + Send + Drop,
    P: Describes + Send + Drop,
    H: UpReader + Drop,
    W: DownWriter + Drop,
    G: Gate,
>(
    rt: &R,
    load: &'w Workload,
    recorder: Recorder<'w, U, D, P>,
    host: Host<'w, H, W>,
    gate: &G,
) -> Result<(Recorder<'w, U, D, P>, Host<'w, H, W>), NoMemory>
    requires load { load.now ≡ J.load }
    requires recorder { IsRecorderOf J.load J.up J.down recorder }
    ensures recorder { IfOk result (λ r. IsRecorderOf J.load J.up J.down r.0) }
    ensures host { IfOk result (λ r. IsSameHost host.entry r.1) }
{
    let shared = Mutex::new(Named::<J, U, D, P>::new(recorder));
    let ended = AtomicU64::new(0);
    let host = run_threads(rt, load, &shared, &ended, host, gate)?;
    Ok((shared.into_inner().into_recorder(), host))
}
