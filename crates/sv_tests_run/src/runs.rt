ghost use Rattle.std.specs.Prelude.{◌≡◌, [], OnOk};

use std::alloc::Global;
use std::sync::Wait;
use std::sync::atomic::{AtomicU64, Ordering};
use std::test::*;
use std::thread;
use std::thread::Threads;
use sv_base::Gate;
use sv_journal::{Item, Journal, Origin, Outcome};
use sv_load::Workload;
use sv_ring::{Dock, LogDock};
use sv_ring_rtrb::RtrbDock;
use sv_ring_rtt::RttDock;
use sv_run::*;
use sv_workload::parse;

/// How often a thread yields before it gives up waiting for another.
const MOST: u32 = 2_000_000;

/// What the threads have reached, and whether one of them gave up.
#[derive(Drop)]
struct Marks {
    steps: AtomicU64,
    reads: AtomicU64,
    late: AtomicU64,
}

fn no_marks() -> Marks {
    Marks {
        steps: AtomicU64::new(0),
        reads: AtomicU64::new(0),
        late: AtomicU64::new(0),
    }
}

/// Waits until the count is so high, or gives up.
fn wait_for(count: &AtomicU64, least: u64, late: &AtomicU64) {
    for _ in 0..MOST {
        if count.load(Ordering::SeqCst) >= least {
            return;
        }
        thread::yield_now();
    }
    late.store(1, Ordering::SeqCst);
}

/// The writer's second step and the host's second read wait for each other.
#[derive(Drop)]
struct Both(Marks);

impl Gate for Both {
    fn before_step(&self, _writer: u32) {
        if self.0.steps.fetch_add(1, Ordering::SeqCst) == 1 {
            wait_for(&self.0.reads, 2, &self.0.late);
        }
    }

    fn before_read(&self, turn: u64) {
        self.0.reads.store(turn, Ordering::SeqCst);
        if turn == 2 {
            wait_for(&self.0.steps, 2, &self.0.late);
        }
    }
}

/// Each step of the writer waits for two more reads.
#[derive(Drop)]
struct ReadsFirst(Marks);

impl Gate for ReadsFirst {
    fn before_step(&self, _writer: u32) {
        let reads = self.0.reads.load(Ordering::SeqCst);
        wait_for(&self.0.reads, reads.saturating_add(2), &self.0.late);
    }

    fn before_read(&self, turn: u64) {
        self.0.reads.store(turn, Ordering::SeqCst);
    }
}

/// The first read waits for the writer's 41st step, and that for the second read.
#[derive(Drop)]
struct ReadsLast(Marks);

impl Gate for ReadsLast {
    fn before_step(&self, _writer: u32) {
        if self.0.steps.fetch_add(1, Ordering::SeqCst) == 40 {
            wait_for(&self.0.reads, 2, &self.0.late);
        }
    }

    fn before_read(&self, turn: u64) {
        self.0.reads.store(turn, Ordering::SeqCst);
        if turn == 1 {
            wait_for(&self.0.steps, 41, &self.0.late);
        }
    }
}

/// A ring of 64 bytes, and a writer that starts the recorder and sets so many marks.
fn workload(alloc: Global, marks: u32) -> Result<Workload, Fail> {
    let mut text = Vec::new(alloc);
    text.extend_from_slice(b"ring 64\nwriter\n0 start\n")?;
    for _ in 0..marks {
        text.extend_from_slice(b"1 mark 5\n")?;
    }
    if text.len() > 1000 {
        return Err(Fail::from("too long"));
    }
    match parse(alloc, &text) {
        Ok(load) => Ok(load),
        Err(_) => Err(Fail::from("no workload")),
    }
}

/// How many calls were refused.
fn refused(items: &[Item]) -> usize {
    items
        .iter()
        .filter(|item| {
            matches!(item.origin, Origin::Call { .. }) && item.outcome == Outcome::Refused
        })
        .count()
}

/// Runs the workload, and gives its journal.
fn journal_of<R: Threads + Wait + Sync, D: Dock, G: Gate>(
    rt: &R,
    alloc: Global,
    load: &Workload,
    dock: &mut D,
    gate: &G,
) -> Result<Journal, Fail> {
    let mut journal = Journal::new(alloc);
    match run(rt, alloc, load, dock, gate, &mut journal) {
        Ok(_) => Ok(journal),
        Err(_) => Err(Fail::from("no memory")),
    }
}

/// The bytes of the story that a dock has, which are those that were taken too.
fn sent<D: Dock + Drop>(dock: &LogDock<D>) -> Result<&[u8], Fail> {
    match dock.story() {
        Some(story) if story.sent.bytes() == story.taken.bytes() => Ok(story.sent.bytes()),
        _ => Err(Fail::from("no story, or two")),
    }
}

fn two_at_once<R: Threads + Wait + Sync, D: Dock>(
    rt: &R,
    alloc: Global,
    dock: &mut D,
) -> Result<bool, Fail> {
    let load = workload(alloc, 2)?;
    let gate = Both(no_marks());
    journal_of(rt, alloc, &load, dock, &gate)?;
    Ok(gate.0.late.load(Ordering::SeqCst) == 0)
}

#[test]
fn the_writer_and_the_host_are_two_threads(rt: HostRuntime) -> Result<(), Fail> {
    assert!(rt; two_at_once(&rt, rt.alloc(), &mut RtrbDock::new())?);
    assert!(rt; two_at_once(&rt, rt.alloc(), &mut RttDock::new())?);
    Ok(())
}

fn room_while_running<R: Threads + Wait + Sync, D: Dock + Drop>(
    rt: &R,
    alloc: Global,
    dock: D,
) -> Result<bool, Fail> {
    let load = workload(alloc, 40)?;
    let gate = ReadsFirst(no_marks());
    let mut dock = LogDock::new(alloc, dock);
    let journal = journal_of(rt, alloc, &load, &mut dock, &gate)?;
    let in_time = gate.0.late.load(Ordering::SeqCst) == 0;
    Ok(in_time && refused(journal.items()) == 0 && sent(&dock)?.len() == 154)
}

#[test]
fn reads_make_room_while_the_writer_runs(rt: HostRuntime) -> Result<(), Fail> {
    assert!(rt; room_while_running(&rt, rt.alloc(), RtrbDock::new())?);
    assert!(rt; room_while_running(&rt, rt.alloc(), RttDock::new())?);
    Ok(())
}

fn refused_until_read<R: Threads + Wait + Sync, D: Dock + Drop>(
    rt: &R,
    alloc: Global,
    dock: D,
) -> Result<bool, Fail> {
    let load = workload(alloc, 40)?;
    let gate = ReadsLast(no_marks());
    let mut dock = LogDock::new(alloc, dock);
    let journal = journal_of(rt, alloc, &load, &mut dock, &gate)?;
    let in_time = gate.0.late.load(Ordering::SeqCst) == 0;
    let counts = refused(journal.items()) == 30 && journal.items().len() == 76;
    let bytes = sent(&dock)?;
    let end: &[u8] = &[0x01, 0x1E, 0x1F, 0x0F, 0x05, 0x00];
    Ok(in_time && counts && bytes.len() == 67 && bytes.ends_with(end))
}

#[test]
fn calls_are_refused_while_nothing_was_read(rt: HostRuntime) -> Result<(), Fail> {
    assert!(rt; refused_until_read(&rt, rt.alloc(), RtrbDock::new())?);
    assert!(rt; refused_until_read(&rt, rt.alloc(), RttDock::new())?);
    Ok(())
}

/// A start and a mark, and a command that asks for the time.
fn asked(alloc: Global) -> Result<Workload, Fail> {
    match parse(alloc, b"command 3\nwriter\n0 start\n1 mark 5\n") {
        Ok(load) => Ok(load),
        Err(_) => Err(Fail::from("no workload")),
    }
}

fn answered_while_running<R: Threads + Wait + Sync, D: Dock>(
    rt: &R,
    alloc: Global,
    dock: &mut D,
) -> Result<bool, Fail> {
    let load = asked(alloc)?;
    let gate = Both(no_marks());
    let journal = journal_of(rt, alloc, &load, dock, &gate)?;
    let found = journal
        .items()
        .iter()
        .filter(|item| matches!(item.origin, Origin::Command { .. }))
        .count();
    Ok(gate.0.late.load(Ordering::SeqCst) == 0 && found == 1)
}

#[test]
fn a_command_is_found_while_the_writer_runs(rt: HostRuntime) -> Result<(), Fail> {
    assert!(rt; answered_while_running(&rt, rt.alloc(), &mut RtrbDock::new())?);
    assert!(rt; answered_while_running(&rt, rt.alloc(), &mut RttDock::new())?);
    Ok(())
}

/// Two writers take turns: the second waits for each step of the first, and the first for the
/// second's first step.
#[derive(Drop)]
struct InTurn {
    first: AtomicU64,
    second: AtomicU64,
    late: AtomicU64,
}

impl Gate for InTurn {
    fn before_step(&self, writer: u32) {
        if writer == 0 {
            if self.first.fetch_add(1, Ordering::SeqCst) == 1 {
                wait_for(&self.second, 2, &self.late);
            }
        } else {
            let step = self.second.fetch_add(1, Ordering::SeqCst);
            wait_for(&self.first, step.saturating_add(2), &self.late);
        }
    }

    fn before_read(&self, _turn: u64) {}
}

/// The writers of the first three calls, where two writers of three and of two steps take turns.
fn writers_in_turn<R: Threads + Wait + Sync, D: Dock>(
    rt: &R,
    alloc: Global,
    dock: &mut D,
) -> Result<bool, Fail> {
    let text = b"writer\n0 start\n1 mark 1\n1 mark 2\nwriter\n1 mark 3\n1 mark 4\n";
    let Ok(load) = parse(alloc, text) else {
        return Err(Fail::from("no workload"));
    };
    let gate = InTurn {
        first: AtomicU64::new(0),
        second: AtomicU64::new(0),
        late: AtomicU64::new(0),
    };
    let journal = journal_of(rt, alloc, &load, dock, &gate)?;
    let mut writers = Vec::new(alloc);
    for item in journal.items() {
        if let Origin::Call { writer, .. } = item.origin {
            writers.push(writer)?;
        }
    }
    Ok(gate.late.load(Ordering::SeqCst) == 0 && writers.as_slice().starts_with(&[0, 1, 0]))
}

#[test]
fn each_writer_takes_its_own_steps(rt: HostRuntime) -> Result<(), Fail> {
    assert!(rt; writers_in_turn(&rt, rt.alloc(), &mut RtrbDock::new())?);
    assert!(rt; writers_in_turn(&rt, rt.alloc(), &mut RttDock::new())?);
    Ok(())
}
