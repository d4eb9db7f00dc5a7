//! Runs a workload in threads, again and again, and looks whether each history explains its bytes.
//!
//! `sv_soak DOCK TIMES FILE` runs the workload of the file so often over the rings of a dock, `rtrb`
//! or `rtt`, and takes the turns of each journal again, one by one: the same bytes must come out that
//! went through the ring. `sv_soak bench DOCK TIMES FILE` only runs it, for a measurement. It ends
//! with 0 where all runs are alike, with 1 where one is not, and with 2 where it could not run.
#![tactic(auto)]

use std::alloc::Global;
use std::env;
use std::process::ExitCode;
use std::sync::Wait;
use std::thread::Threads;
use sv_base::{FileSource, OpenGate, Source, read_all};
use sv_core::{frees_small, replay, turns_of};
use sv_journal::Journal;
use sv_load::Workload;
use sv_ring::{Dock, LogDock};
use sv_ring_rtrb::RtrbDock;
use sv_ring_rtt::RttDock;
use sv_run::run;
use sv_workload::parse;

/// The workload of a file.
fn workload(rt: HostRuntime, name: &str) -> Option<Workload> {
    let mut src = FileSource::new(rt);
    if src.begin(name).is_err() {
        return None;
    }
    match read_all(rt.alloc(), &mut src, 1 << 26) {
        Ok(text) => parse(rt.alloc(), &text).ok(),
        Err(_) => None,
    }
}

/// Runs the workload. None is want of memory.
fn is_run<R: Threads + Wait + Sync, D: Dock + Drop>(
    rt: &R,
    alloc: Global,
    load: &Workload,
    dock: D,
) -> Option<bool> {
    let mut dock = dock;
    let mut journal = Journal::new(alloc);
    match run(rt, alloc, load, &mut dock, &OpenGate, &mut journal) {
        Ok(_) => Some(true),
        Err(_) => None,
    }
}

/// Runs the workload, and says whether the turns of its journal give the bytes that went through the
/// ring. None is want of memory.
fn is_alike<R: Threads + Wait + Sync, D: Dock + Drop>(
    rt: &R,
    alloc: Global,
    load: &Workload,
    dock: D,
) -> Option<bool> {
    let mut dock = LogDock::new(alloc, dock);
    let mut journal = Journal::new(alloc);
    if run(rt, alloc, load, &mut dock, &OpenGate, &mut journal).is_err() {
        return None;
    }
    load.ring();
    frees_small();
    let Ok(turns) = turns_of(alloc, &journal) else {
        return None;
    };
    let Ok(again) = replay(alloc, load, &turns) else {
        return Some(false);
    };
    match dock.story() {
        Some(story) => Some(
            story.sent.bytes() == again.bytes.as_slice()
                && story.taken.bytes() == again.bytes.as_slice()
                && journal.items().len() == again.journal.items().len(),
        ),
        None => Some(false),
    }
}

/// Runs the workload so often over the rings of this dock. Says how many runs were alike, or nothing
/// where one could not be run.
fn count<R: Threads + Wait + Sync>(
    rt: &R,
    alloc: Global,
    is_bench: bool,
    dock: &str,
    times: u32,
    load: &Workload,
) -> Option<u32> {
    let mut alike = 0u32;
    for _ in 0..times {
        let is_good = match (is_bench, dock) {
            (true, "rtrb") => is_run(rt, alloc, load, RtrbDock::new())?,
            (true, "rtt") => is_run(rt, alloc, load, RttDock::new())?,
            (false, "rtrb") => is_alike(rt, alloc, load, RtrbDock::new())?,
            (false, "rtt") => is_alike(rt, alloc, load, RttDock::new())?,
            _ => return None,
        };
        if is_good {
            alike = alike.saturating_add(1);
        }
    }
    Some(alike)
}

/// What the words ask for.
#[derive(Clone, Copy)]
struct Asked<'a> {
    is_bench: bool,
    dock: &'a str,
    times: u32,
    name: &'a str,
}

/// Reads the words. None where they ask for nothing.
fn read<'a>(words: &[&'a str]) -> Option<Asked<'a>> {
    let (is_bench, dock, times, name) = match words {
        ["bench", dock, times, name] => (true, dock, times, name),
        [dock, times, name] => (false, dock, times, name),
        _ => return None,
    };
    Some(Asked {
        is_bench,
        dock,
        times: times.parse::<u32>().ok()?,
        name,
    })
}

fn main(rt: HostRuntime) -> ExitCode {
    let Ok(args) = env::args(&rt) else {
        return ExitCode::from(2);
    };
    let mut texts = Vec::new(rt.alloc());
    for text in args.skip(1) {
        if texts.push(text).is_err() {
            return ExitCode::from(2);
        }
    }
    let mut words = Vec::new(rt.alloc());
    for text in &texts {
        if words.push(text.as_str()).is_err() {
            return ExitCode::from(2);
        }
    }
    let Some(asked) = read(&words) else {
        return ExitCode::from(2);
    };
    let Some(load) = workload(rt, asked.name) else {
        return ExitCode::from(2);
    };
    match count(
        &rt,
        rt.alloc(),
        asked.is_bench,
        asked.dock,
        asked.times,
        &load,
    ) {
        Some(alike) => {
            let _ = println!(rt; "runs {}\nalike {alike}", asked.times);
            ExitCode::from(if alike == asked.times { 0 } else { 1 })
        }
        None => ExitCode::from(2),
    }
}
