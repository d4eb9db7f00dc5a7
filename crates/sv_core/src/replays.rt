//! Replays: the steps of turns again, over a ring that frees by their numbers.
ghost use Rattle.std.specs.Prelude.{◌≡◌, ◌≤◌, ℕ, true, [], IfOk, IsErrOf, MatchOption, length};
ghost use Rattle.std.specs.Prelude.{take, ◌+◌, IfNone, IfSome, if◌then◌else◌};
ghost use Rattle.sv_ring.specs.Ring.{Plan};
ghost use Rattle.sv_journal.specs.Stream.{stream_of};
ghost use Rattle.sv_core.specs.BadTurns.{IsBadTurns};
ghost use Rattle.sv_core.specs.Played.{HasSent};
ghost use Rattle.sv_core.specs.Turns.{IsReplayed};
ghost use Rattle.sv_core.specs.Turned.{turns_held};
ghost use Rattle.sv_core.specs.Used.{HasUsed, IsUsingOthers};

use crate::plan_ring::PlanRing;
use crate::simulation::{Simulated, send_next};
use crate::turns::{Turns, is_lost, is_written};
use std::alloc::Global;
use sv_desc::{Describe, Describes, micros_of, put_line};
use sv_journal::Item;
use sv_load::Workload;
use sv_prim::{Buf, NoMemory};
use sv_recorder::Recorder;
use sv_ring::{PlainDown, UpWriter};
use thiserror::Error;

/// Why turns are not replayed.
#[derive(Clone, Copy, Debug, PartialEq, Eq, Error)]
pub enum ReplayFault {
    /// The turn at this place, counted from 0, cannot be taken: its writer does not exist or is
    /// through, its command does not exist, or in it the frees run out or free more than is stored
    /// and not freed. At the number of turns frees are left over.
    #[error("bad turns at {at}")]
    BadTurns { at: u64 },
    /// There was no memory for the journal or the bytes.
    #[error("no memory")]
    NoMemory,
}

/// How many frees are used by the items so far, how many bytes the last written item found freed,
/// and whether a refused overflow stands last.
#[derive(Clone, Copy)]
struct Used {
    count: usize,
    freed: u64,
    after_lost: bool,
}

/// What the items from a place on use more of the frees. None where they free by others.
fn used_from(items: &[Item], from: usize, frees: &[u32], before: Used) -> Option<Used>
    requires from { from ≤ length items.now }
    requires counted { HasUsed (take from items.now) frees.now
        before.count before.freed before.after_lost }
    ensures { MatchOption result (IsUsingOthers items.now frees.now)
        (λ used. HasUsed items.now frees.now used.count used.freed used.after_lost) }
{
    let mut used = before;
    for place in from..items.len() {
        let item = &items[place];
        if is_written(item, used.after_lost) {
            if used.count == frees.len()
                || item.freed.saturating_sub(used.freed) != u64::from(frees[used.count])
            {
                return None;
            }
            used.count += 1;
            used.freed = item.freed;
        }
        used.after_lost = is_lost(item);
    }
    Some(used)
}

/// Sends the next command where the turn has one. Gives how many are sent by then; None where no
/// command is left.
fn send_for<U: UpWriter + Drop, P: Describes + Drop>(
    load: &Workload,
    recorder: &mut Recorder<'_, U, PlainDown, P>,
    asks: bool,
    sent: usize,
) -> Option<usize>
    requires sent { HasSent load.now recorder.old sent }
    ensures same { recorder.new ≡ record recorder.old { asked = recorder.new.asked } }
    ensures none { IfNone result ((asks ≡ true) × (length load.now.commands ≤ sent)) }
    ensures sent { IfSome result (λ now. HasSent load.now recorder.new now
        × (now ≡ sent + (if asks then 1 else 0))) }
{
    if !asks {
        return Some(sent);
    }
    if sent == load.commands().len() {
        return None;
    }
    Some(send_next(load, recorder, sent))
}

/// Takes the turns, over a ring that frees by the plan of their frees. The next command is sent
/// directly before the turn that finds it. Says where they fail, if they do.
fn take_turns<U: UpWriter + Drop, P: Describes + Drop>(
    load: &Workload,
    recorder: &mut Recorder<'_, U, PlainDown, P>,
    turns: &Turns,
) -> Option<u64>
    requires load { recorder.old.load ≡ load.now }
    requires items { recorder.old.items ≡ [] }
    requires freed { recorder.old.freed ≡ 0 }
    requires way { recorder.old.way ≡ Plan turns.now.frees.items }
    requires sent { HasSent load.now recorder.old 0 }
    ensures told { MatchOption result
        (IsReplayed load.now (turns_held turns.now) recorder.new.items)
        (IsBadTurns load.now (turns_held turns.now)) }
    ensures stream { recorder.new.sent ≡ stream_of load.now recorder.new.items }
{
    recorder.keeps();
    let steps = turns.steps.as_slice();
    let frees = turns.frees.as_slice();
    let mut sent = 0;
    let mut used = Used {
        count: 0,
        freed: 0,
        after_lost: false,
    };
    for at in 0..steps.len() {
        let turn = steps[at];
        if turn.writer >= load.writers() {
            return Some(at as u64);
        }
        match send_for(load, recorder, turn.command, sent) {
            None => return Some(at as u64),
            Some(now) => sent = now,
        }
        let from = recorder.journal().items().len();
        match recorder.section(turn.writer) {
            None => return Some(at as u64),
            Some(_) => {}
        }
        recorder.keeps();
        match used_from(recorder.journal().items(), from, frees, used) {
            None => return Some(at as u64),
            Some(more) => used = more,
        }
    }
    if used.count == frees.len() {
        None
    } else {
        Some(steps.len() as u64)
    }
}

/// A replay with these callbacks, which are for the workload's lines and clock.
fn replay_with<P: Describes + Drop>(
    alloc: Global,
    load: &Workload,
    turns: &Turns,
    desc: P,
) -> Result<Simulated, ReplayFault>
    requires desc { P.kept desc }
    requires lines { P.lines desc ≡ load.now.lines }
    requires clock { P.clock desc ≡ load.now.clock }
    ensures replayed { IfOk result
        (λ run. IsReplayed load.now (turns_held turns.now) run.journal.items) }
    ensures bytes { IfOk result (λ run. run.bytes.items ≡ stream_of load.now run.journal.items) }
    ensures bad { (at : ℕ) → IsErrOf result (ReplayFault.BadTurns at) →
        IsBadTurns load.now (turns_held turns.now) at }
{
    let frees = turns.frees.as_slice();
    let Ok(up) = PlanRing::new(alloc, load.ring(), load.need().bytes, frees) else {
        return Err(ReplayFault::NoMemory);
    };
    let _ = load.commands();
    let Ok(mut recorder) = Recorder::new(alloc, load, up, PlainDown::new(), desc) else {
        return Err(ReplayFault::NoMemory);
    };
    match take_turns(load, &mut recorder, turns) {
        Some(at) => Err(ReplayFault::BadTurns { at }),
        None => {
            let run = recorder.finish();
            Ok(Simulated {
                journal: run.journal,
                bytes: run.up.into_bytes(),
            })
        }
    }
}

/// Runs a workload again, turn by turn: each turn is the next step of its writer, and the host's
/// next command where the turn has one, and before each write the next number of bytes is freed.
/// Turns that [`turns_of`] read from a legal journal give that journal again, but for what unwritten
/// items found freed, and its bytes ([`replay_same`]).
///
/// BadTurns comes exactly where no such run exists, with the place of the first turn that cannot be
/// taken. Memory is taken once for the journal and once for the bytes.
///
/// [`turns_of`]: crate::turns_of
/// [`replay_same`]: crate::replay_same
pub fn replay(alloc: Global, load: &Workload, turns: &Turns) -> Result<Simulated, ReplayFault>
    ensures replayed { IfOk result
        (λ run. IsReplayed load.now (turns_held turns.now) run.journal.items) }
    ensures bytes { IfOk result (λ run. run.bytes.items ≡ stream_of load.now run.journal.items) }
    ensures bad { (at : ℕ) → IsErrOf result (ReplayFault.BadTurns at) →
        IsBadTurns load.now (turns_held turns.now) at }
{
    let lines = load.lines();
    let clock = load.clock();
    let desc = Describe::new(
        lines,
        clock,
        |index: u32, out: &mut Buf| put_line(lines, index, out),
        |moment: u64| micros_of(clock, moment),
    );
    replay_with(alloc, load, turns, desc)
}
