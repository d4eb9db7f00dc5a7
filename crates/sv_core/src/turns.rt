//! The turns of a journal: what its run was, step by step.
ghost use Rattle.std.specs.Prelude.{◌≡◌, ◌&&◌, List, IfOk};
ghost use Rattle.sv_journal.specs.declared.journal.Item.{Item as Kept};
ghost use Rattle.sv_journal.specs.Items.{latest_first, is_overflow, is_refused};
ghost use Rattle.sv_journal.specs.Items.{is_after_refused_overflow, is_written as writes};
ghost use Rattle.sv_journal.specs.Legal.{EachItem};
ghost use Rattle.sv_core.specs.Turns.{turns_of as turns_in};
ghost use Rattle.sv_core.specs.Turned.{turns_held, asked_last, turns_with, RisesLittle};

use std::alloc::Global;
use sv_journal::{Item, Journal, Origin, Outcome};
use sv_prim::NoMemory;

/// A writer's step, and whether its section handles a command of the host.
#[derive(Debug, Clone, Copy, PartialEq, Eq)]
pub struct StepTurn {
    pub writer: u32,
    pub command: bool,
}

/// What a journal's run was: its steps, and for each packet that was offered to the ring the bytes
/// that the host freed since the one before.
#[derive(Drop)]
pub struct Turns {
    pub steps: Vec<StepTurn>,
    pub frees: Vec<u32>,
}

/// Whether an item was written to the ring, or tried. `after_lost` says whether a refused overflow
/// stands directly before it.
pub fn is_written(item: &Item, after_lost: bool) -> bool
    ensures { (earlier : List Kept) → is_after_refused_overflow earlier ≡ after_lost →
        writes earlier item.now ≡ result }
{
    let tried = matches!(item.outcome, Outcome::Stored | Outcome::Refused);
    match item.origin {
        Origin::Sync | Origin::Overflow { .. } => true,
        Origin::Call { .. } | Origin::Reply { .. } => tried && !after_lost,
        Origin::Command { .. } => false,
    }
}

/// The last turn handles a command.
fn ask_last(steps: &mut Vec<StepTurn>)
    ensures { steps.new.items ≡ asked_last steps.old.items }
{
    if let Some(last) = steps.pop() {
        steps.push_reserved(StepTurn {
            writer: last.writer,
            command: true,
        });
    }
}

/// Whether an item is an overflow that was refused.
pub fn is_lost(item: &Item) -> bool
    ensures { result ≡ (is_overflow item.now.origin && is_refused item.now.outcome) }
{
    match item.origin {
        Origin::Overflow { .. } => matches!(item.outcome, Outcome::Refused),
        Origin::Call { .. } | Origin::Reply { .. } | Origin::Sync | Origin::Command { .. } => false,
    }
}

/// What an item adds to the step turns.
fn pass(steps: &mut Vec<StepTurn>, origin: Origin) -> Result<(), NoMemory>
    ensures { IfOk result (λ _. steps.new.items ≡ turns_with origin steps.old.items) }
{
    match origin {
        Origin::Call { writer, .. } => {
            let turn = StepTurn {
                writer,
                command: false,
            };
            match steps.push(turn) {
                Ok(()) => Ok(()),
                Err(_) => Err(NoMemory),
            }
        }
        Origin::Command { .. } => {
            ask_last(steps);
            Ok(())
        }
        Origin::Sync | Origin::Reply { .. } | Origin::Overflow { .. } => Ok(()),
    }
}

/// The turns of a journal: a turn for each call, with a command where one is handled before the
/// next call, and for each packet that was offered to the ring the bytes that the host freed since
/// the one before. A legal journal over a ring of at most 2^32 bytes frees so little (the law
/// [`frees_small`]). NoMemory comes only from the lists that are made.
///
/// [`frees_small`]: crate::frees_small
pub fn turns_of(alloc: Global, journal: &Journal) -> Result<Turns, NoMemory>
    requires rises { EachItem RisesLittle (latest_first journal.now.items) }
    ensures { IfOk result (λ turns. turns_held turns ≡ turns_in journal.now.items) }
{
    let mut steps = Vec::new(alloc);
    let mut frees = Vec::new(alloc);
    let mut freed = 0;
    let mut after_lost = false;
    for item in journal.items() {
        pass(&mut steps, item.origin)?;
        if is_written(item, after_lost) {
            let Ok(()) = frees.push((item.freed - freed) as u32) else {
                return Err(NoMemory);
            };
            freed = item.freed;
        }
        after_lost = is_lost(item);
    }
    Ok(Turns { steps, frees })
}
