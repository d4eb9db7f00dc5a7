//! The simulation of a workload: its turns in their order, over one ring in one value.
ghost use Rattle.std.specs.Prelude.{◌≡◌, ◌+◌, ◌-◌, ◌<◌, ◌≤◌, ℕ, List, [], ◌∷◌, ◌++◌, IfOk, IfSome};
ghost use Rattle.std.specs.Prelude.{length, min, count_by, replicate, reverse};
ghost use Rattle.std.specs.Option.{option_map};
ghost use Rattle.sv_ring.specs.Ring.{Still};
ghost use Rattle.sv_load.specs.Load.{Load, script_of};
ghost use Rattle.sv_load.specs.Need.{steps_in};
ghost use Rattle.sv_journal.specs.Items.{is_call_of};
ghost use Rattle.sv_recorder.specs.Commands.{command_bytes};
ghost use Rattle.sv_journal.specs.Stream.{stream_of};
ghost use Rattle.sv_core.specs.Order.{Turn, Takes_step, is_possible, is_send, possible, scheduled};
ghost use Rattle.sv_core.specs.Played.{HasSent, IsSending, IsPlayed, with_step, sent_first};
ghost use Rattle.sv_core.specs.Played.{played_rounds};
ghost use Rattle.sv_core.specs.Simulated.{IsSimulated};

use std::alloc::Global;
use sv_desc::{Describe, Describes, micros_of, put_line};
use sv_journal::Journal;
use sv_load::{Action, Command, Workload};
use sv_prim::{Buf, NoMemory};
use sv_recorder::Recorder;
use sv_ring::{PlainDown, PlainRing, UpWriter};

/// A whole run: its journal, and all bytes that were sent.
#[derive(Drop)]
pub struct Simulated {
    pub journal: Journal,
    pub bytes: Vec<u8>,
}

/// The recorder of a simulation: both rings are values of its own.
type Simulator<'w, P> = Recorder<'w, PlainRing, PlainDown, P>;

/// The host takes so many bytes, or all that are stored where these are fewer. They pass through
/// the buffer and are thrown away.
fn read<P: Describes + Drop>(recorder: &mut Simulator<'_, P>, most: u32, buf: &mut [u8; 1024])
    ensures { recorder.new ≡ record recorder.old {
      freed = min (recorder.old.freed + most) (length recorder.old.sent);
    } }
{
    recorder.keeps();
    let mut left = most as usize;
    while left > 0 {
        let part = left.min(buf.len());
        let count = recorder.host_read(&mut buf[..part]);
        if count < part {
            return;
        }
        left -= count;
    }
}

/// The host takes everything that is stored: a read that does not fill the buffer is the last one.
#[inline]
fn read_all<P: Describes + Drop>(recorder: &mut Simulator<'_, P>, buf: &mut [u8; 1024])
    ensures { recorder.new ≡ record recorder.old { freed = length recorder.old.sent } }
{
    recorder.keeps();
    loop {
        if recorder.host_read(buf) < buf.len() {
            return;
        }
    }
}

/// The host sends a command, which has a parameter from the byte 128 on.
fn send<U: UpWriter + Drop, P: Describes + Drop>(
    recorder: &mut Recorder<'_, U, PlainDown, P>,
    command: Command,
)
    requires within { IfSome recorder.old.asked (λ asked. length asked ≤ 510) }
    ensures { recorder.new ≡ record recorder.old
        { asked = option_map (λ asked. asked ++ command_bytes command) recorder.old.asked } }
{
    if command.byte < 128 {
        recorder.host_send(&[command.byte]);
    } else {
        recorder.host_send(&[command.byte, command.param]);
    }
}

/// The host sends the next command, if one is left. Says how many are sent then.
pub fn send_next<U: UpWriter + Drop, P: Describes + Drop>(
    load: &Workload,
    recorder: &mut Recorder<'_, U, PlainDown, P>,
    sent: usize,
) -> usize
    requires sent { HasSent load.now recorder.old sent }
    ensures none { length load.now.commands ≤ sent →
        (result ≡ sent) × (recorder.new ≡ recorder.old) }
    ensures some { sent < length load.now.commands → (result ≡ sent + 1)
        × IsSending load.now recorder.old recorder.new sent }
{
    let commands = load.commands();
    if sent == commands.len() {
        return sent;
    }
    send(recorder, commands[sent]);
    sent + 1
}

/// The next step of a writer. False where its script is through.
#[inline(always)]
fn step<P: Describes + Drop>(recorder: &mut Simulator<'_, P>, writer: u32) -> bool
    requires writer { writer < length recorder.old.load.scripts }
    ensures load { recorder.new.load ≡ recorder.old.load }
    ensures possible { (load : Load) → (turns : List Turn) → IsPlayed load turns recorder.old →
        result ≡ is_possible load (reverse turns) (Takes_step writer) }
    ensures played { (load : Load) → (turns : List Turn) → IsPlayed load turns recorder.old →
        IsPlayed load (with_step load turns writer) recorder.new }
{
    match recorder.section(writer) {
        Some(_) => {
            recorder.keeps();
            true
        }
        None => false,
    }
}

/// So many steps of a writer, as far as its script goes.
fn steps<P: Describes + Drop>(recorder: &mut Simulator<'_, P>, writer: u32, count: u32)
    requires writer { writer < length recorder.old.load.scripts }
    ensures load { recorder.new.load ≡ recorder.old.load }
    ensures played { (load : Load) → (asked : List Turn) →
        IsPlayed load (possible load asked) recorder.old →
        IsPlayed load (possible load (replicate count (Takes_step writer) ++ asked)) recorder.new }
{
    for _ in 0..count {
        if !step(recorder, writer) {
            return;
        }
    }
}

/// The turns of the schedule, line by line. Says how many commands were sent.
fn play_schedule<P: Describes + Drop>(
    load: &Workload,
    recorder: &mut Simulator<'_, P>,
    buf: &mut [u8; 1024],
) -> usize
    requires played { IsPlayed load.now [] recorder.old }
    ensures played { IsPlayed load.now (scheduled load.now) recorder.new }
    ensures sent { result ≡ count_by is_send (scheduled load.now) }
{
    let lines = load.schedule();
    let mut sent = 0;
    for at in 0..lines.len() {
        match lines[at] {
            Action::Step { writer, count } => steps(recorder, writer, count),
            Action::Read { most } => read(recorder, most, buf),
            Action::Send => sent = send_next(load, recorder, sent),
        }
    }
    sent
}

/// The host sends the commands that are left.
fn send_left<P: Describes + Drop>(load: &Workload, recorder: &mut Simulator<'_, P>, sent: usize)
    requires played { IsPlayed load.now (scheduled load.now) recorder.old }
    requires sent { sent ≡ count_by is_send (scheduled load.now) }
    ensures played { IsPlayed load.now (sent_first load.now) recorder.new }
{
    let count = load.commands().len();
    for at in sent..count {
        send_next(load, recorder, at);
    }
}

/// How many rounds are left: the most steps that any writer has left.
fn rounds_left<P: Describes + Drop>(load: &Workload, recorder: &Simulator<'_, P>) -> u32
    requires load { recorder.now.load ≡ load.now }
    ensures enough { (writer : ℕ) → writer < length load.now.scripts →
        length (script_of load.now writer)
        ≤ count_by (λ i. is_call_of writer i.origin) recorder.now.items + result }
    ensures within { result ≤ steps_in load.now }
{
    let mut most = 0;
    for writer in 0..load.writers() {
        most = most.max(recorder.left(writer));
    }
    most
}

/// A round: each writer whose script is not through takes a step, and after each step the host
/// takes everything.
fn play_round<P: Describes + Drop>(
    load: &Workload,
    recorder: &mut Simulator<'_, P>,
    buf: &mut [u8; 1024],
)
    requires load { recorder.old.load ≡ load.now }
    ensures load { recorder.new.load ≡ load.now }
    ensures played { (rounds : ℕ) → IsPlayed load.now (played_rounds load.now rounds) recorder.old →
        IsPlayed load.now (played_rounds load.now (rounds + 1)) recorder.new }
{
    for writer in 0..load.writers() {
        if step(recorder, writer) {
            read_all(recorder, buf);
        }
    }
}

/// All turns of the workload's order.
fn play<P: Describes + Drop>(load: &Workload, recorder: &mut Simulator<'_, P>)
    requires played { IsPlayed load.now [] recorder.old }
    ensures simulated { IsSimulated load.now recorder.new.items }
    ensures stream { recorder.new.sent ≡ stream_of load.now recorder.new.items }
{
    let mut buf = [0; 1024];
    let sent = play_schedule(load, recorder, &mut buf);
    send_left(load, recorder, sent);
    let rounds = rounds_left(load, recorder);
    for _ in 0..rounds {
        play_round(load, recorder, &mut buf);
    }
    read_all(recorder, &mut buf);
}

/// A run with these callbacks, which are for the workload's lines and clock.
fn simulate_with<P: Describes + Drop>(
    alloc: Global,
    load: &Workload,
    desc: P,
) -> Result<Simulated, NoMemory>
    requires desc { P.kept desc }
    requires lines { P.lines desc ≡ load.now.lines }
    requires clock { P.clock desc ≡ load.now.clock }
    ensures simulated { IfOk result (λ run. IsSimulated load.now run.journal.items) }
    ensures bytes { IfOk result (λ run. run.bytes.items ≡ stream_of load.now run.journal.items) }
{
    let up = PlainRing::new(alloc, load.ring(), load.need().bytes)?;
    let _ = load.commands();
    let mut recorder = Recorder::new(alloc, load, up, PlainDown::new(), desc)?;
    recorder.keeps();
    play(load, &mut recorder);
    let run = recorder.finish();
    Ok(Simulated {
        journal: run.journal,
        bytes: run.up.into_bytes(),
    })
}

/// Runs a workload over one ring, whose host reads and sends its commands as the schedule says,
/// then sends the commands that are left, and then reads everything after each step: the journal of
/// that run, and all bytes that were sent.
///
/// One pass over the workload's order. Memory is taken once for the journal and once for the bytes,
/// as much as the workload may need. Times are in ticks, and begin at 0.
pub fn simulate(alloc: Global, load: &Workload) -> Result<Simulated, NoMemory>
    ensures simulated { IfOk result (λ run. IsSimulated load.now run.journal.items) }
    ensures bytes { IfOk result (λ run. run.bytes.items ≡ stream_of load.now run.journal.items) }
{
    let lines = load.lines();
    let clock = load.clock();
    let desc = Describe::new(
        lines,
        clock,
        |index: u32, out: &mut Buf| put_line(lines, index, out),
        |moment: u64| micros_of(clock, moment),
    );
    simulate_with(alloc, load, desc)
}
