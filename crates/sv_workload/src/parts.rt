//! What a line that is good makes.
ghost use Rattle.std.specs.Prelude.{◌≡◌, ◌^◌, ◌<◌, ◌≤◌, Some, IfOk, slice_index};
ghost use Rattle.sv_workload.specs.declared.keyword.SetupWord.TheVariants as setup;
ghost use Rattle.sv_workload.specs.declared.keyword.Keyword.TheVariants.{Setup, Act, Turn};
ghost use Rattle.sv_workload.specs.Fit.{FitsForm};
ghost use Rattle.sv_workload.specs.Meaning.{number, task_in, command_of, step_by, action_by};
ghost use Rattle.sv_workload.specs.Meaning.{action_of};
ghost use Rattle.sv_load.specs.Need.{IsStepAct, IsAsked};
ghost use Rattle.sv_load.specs.Limits.{most_ticks};

use crate::acts::act;
use crate::keyword::{ActWord, TurnWord};
use crate::numbers::number_or;
use crate::read_line::ReadLine;
use std::alloc::Global;
use sv_load::{Action, Command, Step, Task};
use sv_prim::{Bytes, NoMemory};

/// The turn that these numbers after a word of the schedule give away.
fn turn(word: TurnWord, numbers: &[u32]) -> Action
    ensures { Some result ≡ action_by (Turn word) numbers.now }
{
    match word {
        TurnWord::Step => Action::Step {
            writer: number_or(numbers, 0, 0),
            count: number_or(numbers, 1, 1),
        },
        TurnWord::Read => Action::Read {
            most: number_or(numbers, 0, 0),
        },
        TurnWord::Send => Action::Send,
    }
}

/// The turn that a line of the schedule gives away, by its word.
pub fn action(line: &ReadLine<'_>, word: TurnWord) -> Action
    ensures { line.now.keyword ≡ Turn word → FitsForm line.now → number line.now 0 < 2 ^ 32
        → Some result ≡ action_of line.now }
{
    turn(word, line.numbers())
}

/// A task of these numbers and this name.
fn named_task(alloc: Global, numbers: &[u32], name: &[u8]) -> Result<Task, NoMemory>
    ensures { IfOk result (λ t. t ≡ record {
      id = slice_index numbers.now 0;
      priority = slice_index numbers.now 1;
      stack_base = slice_index numbers.now 2;
      stack_size = slice_index numbers.now 3;
      extra = slice_index numbers.now 4;
      name = name.now;
    }) }
{
    let name = Bytes::new(alloc, name)?;
    Ok(Task {
        id: number_or(numbers, 0, 0),
        priority: number_or(numbers, 1, 0),
        stack_base: number_or(numbers, 2, 0),
        stack_size: number_or(numbers, 3, 0),
        extra: number_or(numbers, 4, 0),
        name,
    })
}

/// The task of a line. Memory is taken for the name alone.
pub fn task(alloc: Global, line: &ReadLine<'_>) -> Result<Task, NoMemory>
    ensures { line.now.keyword ≡ Setup setup.Task → FitsForm line.now
        → IfOk result (λ t. t ≡ task_in line.now) }
{
    named_task(alloc, line.numbers(), line.text())
}

/// The command of these numbers, each of which is a byte.
fn command_by(numbers: &[u32]) -> Command
    requires byte { slice_index numbers.now 0 < 256 }
    requires param { slice_index numbers.now 1 < 256 }
    ensures { result ≡ record {
      byte = slice_index numbers.now 0;
      param = slice_index numbers.now 1;
    } }
{
    Command {
        byte: number_or(numbers, 0, 0) as u8,
        param: number_or(numbers, 1, 0) as u8,
    }
}

/// The command of a line.
pub fn command(line: &ReadLine<'_>) -> Command
    requires keyword { line.now.keyword ≡ Setup setup.Command }
    requires fit { FitsForm line.now }
    ensures told { result ≡ command_of line.now }
    ensures asked { IsAsked result }
{
    command_by(line.numbers())
}

/// The step of a line, by its word. The base is an address in bytes from which identifiers are
/// counted, and the shift the count of their low bits that are dropped, 0 to 31.
///
/// Memory is taken once for a text or for the numbers of a call, and else not.
#[inline(always)]
pub fn step(
    alloc: Global,
    line: &ReadLine<'_>,
    word: ActWord,
    base: u32,
    shift: u32,
) -> Result<Step, NoMemory>
    requires keyword { line.now.keyword ≡ Act word }
    requires fit { FitsForm line.now }
    requires shift { shift ≤ 31 }
    ensures ok { IfOk result (λ s. Some s ≡ step_by line.now.keyword base shift line.now) }
    ensures advance { IfOk result (λ s. s.advance ≤ most_ticks) }
    ensures act { IfOk result (λ s. IsStepAct s.act) }
{
    let act = act(alloc, word, line.numbers(), line.text(), base, shift)?;
    let advance = line.ticks();
    Ok(Step { advance, act })
}
