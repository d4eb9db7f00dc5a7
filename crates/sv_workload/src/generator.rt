//! Workloads of any size, each made from a number.
ghost use Rattle.std.specs.Prelude.{◌≡◌, ◌+◌, ◌*◌, ◌<◌, ◌≤◌, ◌^◌, [], ◌∷◌, true, false};
ghost use Rattle.std.specs.Prelude.{◌/◌, length, OnOk, IfOk};
ghost use Rattle.sv_load.specs.declared.load.Act.TheVariants as act;
ghost use Rattle.sv_load.specs.declared.load.Action.TheVariants as action;
ghost use Rattle.sv_load.specs.Need.{IsStepAct, need_items, need_bytes};
ghost use Rattle.sv_workload.specs.Generated.{next_number, event_from, step_from, start_step};
ghost use Rattle.sv_workload.specs.Generated.{steps_to, rounds, the_tasks, load_with};
ghost use Rattle.sv_workload.specs.Generated.{generated_load};

use std::alloc::Global;
use sv_load::{Act, Action, Builder, Step, Task, Workload};
use sv_packet::Event;
use sv_prim::{Bytes, NoMemory};

/// The number after this one.
#[inline(always)]
fn next_number(x: u32) -> u32
    ensures { result ≡ next_number x }
{
    ((1664525 * u64::from(x) + 1013904223) % 4294967296) as u32
}

/// What a step does, by a choice from 0 to 7.
#[inline(always)]
fn event_from(choice: u32) -> Event
    ensures told { result ≡ event_from choice }
    ensures act { IsStepAct (act.Event result) }
{
    match choice {
        0 => Event::TaskStart { task: 1 },
        1 => Event::TaskStart { task: 2 },
        2 => Event::TaskReady { task: 1 },
        3 => Event::TaskReady { task: 2 },
        4 => Event::IsrEnter { isr: 5 },
        5 => Event::IsrExit,
        6 => Event::Idle,
        _ => Event::MarkStart { id: 5 },
    }
}

/// The step of a number.
#[inline(always)]
fn step_from(x: u32) -> Step
    requires { x < 2 ^ 32 }
    ensures told { result ≡ step_from x }
    ensures advance { result.advance ≤ 255 }
    ensures act { IsStepAct result.act }
{
    Step {
        advance: u64::from(x / 16777216),
        act: Act::Event(event_from(x / 65536 % 8)),
    }
}

/// One of the two tasks.
fn task(
    alloc: Global,
    id: u32,
    priority: u32,
    stack_base: u32,
    name: &[u8],
) -> Result<Task, NoMemory>
    ensures { IfOk result (λ task. task ≡ record {
      id = id;
      priority = priority;
      stack_base = stack_base;
      stack_size = 1024;
      extra = 0;
      name = name.now;
    }) }
{
    let name = Bytes::new(alloc, name)?;
    Ok(Task {
        id,
        priority,
        stack_base,
        stack_size: 1024,
        extra: 0,
        name,
    })
}

/// The two tasks are there.
fn add_tasks(parts: &mut Builder, alloc: Global) -> Result<(), NoMemory>
    requires { parts.old.tasks ≡ [] }
    ensures { OnOk result (parts.new ≡ record parts.old { tasks = the_tasks }) }
{
    let a = task(alloc, 536870916, 1, 536875008, b"A")?;
    parts.add_task(a)?;
    let b = task(alloc, 536870920, 2, 536876032, b"B")?;
    parts.add_task(b)
}

/// A workload whose writer has no step but the start.
fn begun(alloc: Global) -> Result<Builder, NoMemory>
    ensures { IfOk result (λ parts.
        parts ≡ load_with ((start_step ∷ []) ∷ []) false []) }
{
    let mut parts = Builder::new(alloc);
    parts.set_ring(4096);
    add_tasks(&mut parts, alloc)?;
    parts.add_writer(alloc)?;
    let start = Step {
        advance: 0,
        act: Act::Start,
    };
    parts.add_step(start)?;
    Ok(parts)
}

/// The steps after the start.
fn add_steps(parts: &mut Builder, n: u32) -> Result<(), NoMemory>
    requires few { n ≤ 1000000 }
    requires begun { parts.old.scripts ≡ (start_step ∷ []) ∷ [] }
    ensures { OnOk result
        (parts.new ≡ record parts.old { scripts = (start_step ∷ steps_to n n) ∷ [] }) }
{
    let mut x = n;
    for _ in 0..n {
        x = next_number(x);
        parts.add_step(step_from(x))?;
    }
    Ok(())
}

/// So many times 64 steps and a read, after the turns so far.
fn add_rounds(parts: &mut Builder, count: u32) -> Result<(), NoMemory>
    requires few { count ≤ 15625 }
    requires writer { length parts.old.scripts ≡ 1 }
    requires begun { parts.old.schedule ≡ action.Step 0 1 ∷ [] }
    ensures { OnOk result
        (parts.new ≡ record parts.old { schedule = action.Step 0 1 ∷ rounds count }) }
{
    for _ in 0..count {
        parts.add_turn(Action::Step {
            writer: 0,
            count: 64,
        })?;
        parts.add_turn(Action::Read { most: 128 })?;
    }
    Ok(())
}

/// The schedule: the start, and rounds for as many steps as fill one.
fn add_schedule(parts: &mut Builder, n: u32) -> Result<(), NoMemory>
    requires few { n ≤ 1000000 }
    requires writer { length parts.old.scripts ≡ 1 }
    requires none { parts.old.schedule ≡ [] }
    ensures { OnOk result (parts.new ≡ record parts.old
        { scheduled = true; schedule = action.Step 0 1 ∷ rounds (n / 64) }) }
{
    parts.set_scheduled();
    parts.add_turn(Action::Step {
        writer: 0,
        count: 1,
    })?;
    add_rounds(parts, n / 64)
}

/// The workload of a number from 1 to 1000000: two tasks, and one writer that starts the recorder
/// and then does so many steps, chosen by numbers that look like chance. It is the same at each
/// call. Memory is taken for its steps and turns alone.
pub fn generated(alloc: Global, n: u32) -> Result<Workload, NoMemory>
    requires some { 1 ≤ n }
    requires few { n ≤ 1000000 }
    ensures load { IfOk result (λ load. load ≡ generated_load n) }
    ensures items { IfOk result (λ load. need_items load ≡ 3 * n + 21) }
    ensures bytes { IfOk result (λ load. need_bytes load ≤ 18 * n + 1291) }
{
    let mut parts = begun(alloc)?;
    add_steps(&mut parts, n)?;
    add_schedule(&mut parts, n)?;
    Ok(parts.build())
}
