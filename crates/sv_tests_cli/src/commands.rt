use std::alloc::Global;
use std::sync::Wait;
use std::test::*;
use std::thread::Threads;
use sv_base::{MemSink, MemSource, OpenGate};
use sv_cli::*;
use sv_journal::{Item, Journal, Kind, Origin, Outcome};
use sv_ring::{Dock, LogDock};
use sv_ring_rtrb::RtrbDock;
use sv_ring_rtt::RttDock;

/// What a run answered, what its two sinks have, and its journal.
#[derive(Drop)]
struct Answered {
    status: Status,
    out: MemSink,
    err: MemSink,
    journal: Journal,
}

fn sink(alloc: Global, fails: &[u64]) -> Result<MemSink, Fail> {
    MemSink::new(alloc, 1 << 20, fails.to_vec(alloc)?)
        .ok()
        .ok_or("memory")
        .map_err(Fail::from)
}

/// Runs the words over a source that holds these bytes as `f`, where calls of these numbers fail.
fn run(
    alloc: Global,
    words: &[&str],
    file: &[u8],
    reads: &[u64],
    writes: &[u64],
) -> Result<Answered, Fail> {
    let mut files = Vec::new(alloc);
    files.push((String::from_str(alloc, "f")?, file.to_vec(alloc)?))?;
    let mut src = MemSource::new(files, reads.to_vec(alloc)?);
    let mut out = sink(alloc, writes)?;
    let mut err = sink(alloc, &[])?;
    let mut journal = Journal::new(alloc);
    let status = offline(alloc, words, &mut src, &mut out, &mut err, &mut journal);
    Ok(Answered {
        status,
        out,
        err,
        journal,
    })
}

/// Ten zero bytes and these.
fn synced(alloc: Global, bytes: &[u8]) -> Result<Vec<u8>, Fail> {
    let mut file = [0u8; 10].to_vec(alloc)?;
    file.extend_from_slice(bytes)?;
    Ok(file)
}

/// Whether this was written, and then the end line.
fn is_text(run: &Answered, lines: &str, line: &str) -> bool {
    let out = run.out.bytes();
    out.len() == lines.len() + line.len()
        && out.starts_with(lines.as_bytes())
        && out.ends_with(line.as_bytes())
}

/// Three descriptions of 4100 bytes, so that a packet stands across each end of 4096 bytes.
fn long_file(alloc: Global) -> Result<(Vec<u8>, Vec<u8>), Fail> {
    let mut file = synced(alloc, &[])?;
    let mut text = Vec::new(alloc);
    for _ in 0..3 {
        file.extend_from_slice(&[0x0e, 0xff, 0x04, 0x10])?;
        text.extend_from_slice(b"0 SYSDESC \"")?;
        for _ in 0..4100 {
            file.push(b'a')?;
            text.push(b'a')?;
        }
        file.push(0x00)?;
        text.extend_from_slice(b"\"\n")?;
    }
    text.extend_from_slice(b"end clean\n")?;
    Ok((file, text))
}

#[test]
fn devices_that_fail(rt: HostRuntime) -> Result<(), Fail> {
    let alloc = rt.alloc();
    let words = ["events", "f"];
    let (file, text) = long_file(alloc)?;
    let whole = run(alloc, &words, &file, &[], &[])?;
    assert_eq!(rt; whole.status, Status::Done);
    assert_eq!(rt; whole.out.bytes(), text.as_slice());
    // Call 1 is that of begin, then each fill is one read, but for the last one, which finds the
    // end.
    for (call, lines) in [(1u64, 0), (2, 0), (3, 0), (4, 1), (5, 2), (6, 2)] {
        let run = run(alloc, &words, &file, &[call], &[])?;
        assert_eq!(rt; run.status, Status::ReadFault, "at call {call}");
        assert!(rt; text.starts_with(run.out.bytes()), "at call {call}");
        assert_eq!(rt; run.out.bytes().len(), 4113 * lines, "at call {call}");
        assert_eq!(rt; run.err.bytes(), "read fault\n".as_bytes());
    }
    assert_eq!(rt; run(alloc, &words, &file, &[7], &[])?.status, Status::Done);
    // Each fill's lines are one write: those of the first fill are none.
    for (call, lines) in [(1u64, 0), (2, 1), (3, 2), (4, 3)] {
        let run = run(alloc, &words, &file, &[], &[call])?;
        assert_eq!(rt; run.status, Status::WriteFault, "at call {call}");
        assert!(rt; text.starts_with(run.out.bytes()), "at call {call}");
        assert_eq!(rt; run.out.bytes().len(), 4113 * lines, "at call {call}");
        assert_eq!(rt; run.err.bytes(), "write fault\n".as_bytes());
    }
    // A check and a report are written once, at the end.
    for command in ["check", "report"] {
        let words = [command, "f"];
        let unwritten = run(alloc, &words, &file, &[], &[1])?;
        assert_eq!(rt; unwritten.status, Status::WriteFault);
        assert_eq!(rt; unwritten.out.bytes(), [].as_slice());
        let unread = run(alloc, &words, &file, &[5], &[])?;
        assert_eq!(rt; unread.status, Status::ReadFault);
        assert_eq!(rt; unread.out.bytes(), [].as_slice());
    }
    Ok(())
}

/// A damaged first piece of 4096 bytes, and more bytes: all are read, and a source that fails behind
/// the damage is told.
#[test]
fn a_damaged_file_is_read_to_its_end(rt: HostRuntime) -> Result<(), Fail> {
    let alloc = rt.alloc();
    let mut file = synced(alloc, &[0x0a, 0x00, 0x17])?;
    for _ in 0..9000 {
        file.push(0x00)?;
    }
    for command in ["events", "check", "timeline", "report"] {
        let shown = run(alloc, &[command, "f"], &file, &[], &[])?;
        let place = 12;
        assert_eq!(rt; shown.status, Status::Damaged { place, reason: 2 });
        assert!(rt; shown.out.bytes().ends_with(b"end clean\n"));
        let unread = run(alloc, &[command, "f"], &file, &[3], &[])?;
        assert_eq!(rt; unread.status, Status::ReadFault);
    }
    Ok(())
}

/// A recording of 12 bytes that comes by 6 at a time, over devices of which one call fails: call 1
/// is that of begin, and call 4 finds the end.
#[test]
fn pieces_and_devices_that_fail(rt: HostRuntime) -> Result<(), Fail> {
    let alloc = rt.alloc();
    let file = synced(alloc, &[0x0a, 0x00])?;
    let one = "after 6\npackets 0\nticks 0\nlost 0 in 0\nanomalies 0\nsystem - -\nend no-sync\n";
    let two = "after 12\npackets 1\nticks 0\nlost 0 in 0\nanomalies 0\nsystem - -\nend clean\n";
    for (read, write, status, lines, last) in [
        (0u64, 0u64, Status::Done, one, two),
        (1, 0, Status::ReadFault, "", ""),
        (2, 0, Status::ReadFault, "", ""),
        (3, 0, Status::ReadFault, one, ""),
        (4, 0, Status::ReadFault, one, two),
        (0, 1, Status::WriteFault, "", ""),
        (0, 2, Status::WriteFault, one, ""),
    ] {
        let told = run(alloc, &["live", "6", "f"], &file, &[read], &[write])?;
        assert_eq!(rt;
            told.status,
            status,
            "with the read {read} and the write {write}"
        );
        assert!(rt;
            is_text(&told, lines, last),
            "with the read {read} and the write {write}"
        );
    }
    Ok(())
}

/// Whether the words are no command, and the error sink has the usage line.
fn is_usage(alloc: Global, words: &[&str]) -> Result<bool, Fail> {
    let run = run(alloc, words, &[], &[], &[])?;
    Ok(
        run.status == Status::Usage
            && run.err.bytes()
                == b"usage: sysview events F | check F | timeline F | report F | live N F | \
simulate W | record W | run W | generate N\n"
                    .as_slice(),
    )
}

#[test]
fn words_and_codes(rt: HostRuntime) -> Result<(), Fail> {
    let alloc = rt.alloc();
    assert!(rt; is_usage(alloc, &[])?);
    assert!(rt; is_usage(alloc, &["report"])?);
    assert!(rt; is_usage(alloc, &["simulate", "f", "f"])?);
    for size in ["", "0", "01", "+1", "65537", "4294967297", "f"] {
        assert!(rt; is_usage(alloc, &["live", size, "f"])?, "{size}");
    }
    assert!(rt; is_usage(alloc, &["events"])?);
    assert!(rt; is_usage(alloc, &["events", "f", "f"])?);
    assert!(rt; is_usage(alloc, &["check"])?);
    assert!(rt; is_usage(alloc, &["timeline"])?);
    assert!(rt; is_usage(alloc, &["timeline", "f", "f"])?);
    assert!(rt; is_usage(alloc, &["record"])?);
    assert!(rt; is_usage(alloc, &["record", "f", "f"])?);
    assert!(rt; is_usage(alloc, &["--help"])?);
    for (status, code, line) in [
        (Status::Done, 0, ""),
        (
            Status::TooLong { limit: 1 << 33 },
            9,
            "longer than 8589934592\n",
        ),
        (
            Status::Damaged {
                place: 12,
                reason: 2,
            },
            5,
            "damaged at 12 reason 2\n",
        ),
        (Status::Truncated { held: 2 }, 6, "truncated, held 2\n"),
        (Status::NoSync, 7, "no sync\n"),
        (
            Status::Workload { line: 1, reason: 3 },
            8,
            "workload line 1 reason 3\n",
        ),
        (Status::NoMemory, 10, "no memory\n"),
    ] {
        let mut err = sink(alloc, &[])?;
        say(&mut err, &status);
        assert_eq!(rt; status.code(), code);
        assert_eq!(rt; err.bytes(), line.as_bytes());
    }
    Ok(())
}

/// Runs `record` over a workload of this text.
fn record_of(alloc: Global, text: &str) -> Result<Answered, Fail> {
    run(alloc, &["record", "f"], text.as_bytes(), &[], &[])
}

#[test]
fn journals(rt: HostRuntime) -> Result<(), Fail> {
    let alloc = rt.alloc();
    let run = record_of(
        alloc,
        "writer\n5 mark 9\n0 start\n2 mark 9\n3 stop\n1 mark 9\n",
    )?;
    for (place, item) in [
        (0, call(5, 0, 0, Outcome::Ignored)),
        (1, call(5, 0, 1, Outcome::Handled)),
        (6, reply(5, 0, Kind::ModuleCount)),
        (7, call(7, 34, 2, Outcome::Stored)),
        (8, call(10, 37, 3, Outcome::Handled)),
        (9, reply(10, 37, Kind::TraceStop)),
        (10, call(11, 39, 4, Outcome::Ignored)),
    ] {
        assert!(rt; run.journal.items().get(place) == Some(&item), "at {place}");
    }
    Ok(())
}

/// The item of a step.
fn call(moment: u64, freed: u64, step: u32, outcome: Outcome) -> Item {
    let origin = Origin::Call { writer: 0, step };
    Item {
        origin,
        moment,
        freed,
        outcome,
    }
}

/// The item of an answer that is stored.
fn reply(moment: u64, freed: u64, kind: Kind) -> Item {
    let origin = Origin::Reply { kind, index: 0 };
    let outcome = Outcome::Stored;
    Item {
        origin,
        moment,
        freed,
        outcome,
    }
}

#[test]
fn recordings_on_devices_that_fail(rt: HostRuntime) -> Result<(), Fail> {
    let alloc = rt.alloc();
    let words = ["record", "f"];
    let text = b"writer\n0 start\n";
    for call in [1u64, 2, 3] {
        let run = run(alloc, &words, text, &[call], &[])?;
        assert_eq!(rt; run.status, Status::ReadFault, "at call {call}");
        assert_eq!(rt; run.out.bytes(), [].as_slice());
        assert_eq!(rt; run.err.bytes(), "read fault\n".as_bytes());
        assert_eq!(rt; run.journal.items().len(), 0);
    }
    for (call, out) in [(1u64, ""), (2, "; sysview recording\n")] {
        let run = run(alloc, &words, text, &[], &[call])?;
        assert_eq!(rt; run.status, Status::WriteFault, "at call {call}");
        assert_eq!(rt; run.out.bytes(), out.as_bytes());
        assert_eq!(rt; run.err.bytes(), "write fault\n".as_bytes());
        assert_eq!(rt; run.journal.items().len(), 6);
    }
    Ok(())
}

/// Runs a workload of this text in threads.
fn run_in_threads<R: Threads + Wait + Sync, D: Dock>(
    rt: &R,
    alloc: Global,
    text: &[u8],
    dock: &mut D,
) -> Result<Answered, Fail> {
    let mut files = Vec::new(alloc);
    files.push((String::from_str(alloc, "f")?, text.to_vec(alloc)?))?;
    let mut src = MemSource::new(files, Vec::new(alloc));
    let mut out = sink(alloc, &[])?;
    let mut err = sink(alloc, &[])?;
    let mut journal = Journal::new(alloc);
    let status = sysview(
        rt,
        alloc,
        &["run", "f"],
        &mut src,
        &mut out,
        &mut err,
        dock,
        &OpenGate,
        &mut journal,
    );
    Ok(Answered {
        status,
        out,
        err,
        journal,
    })
}

/// Ten steps of a task, an interrupt within it, and another task.
const TEN: &[u8] = b"10 ready 536870916\n10 run 536870916\n10 isr 5\n10 mark 7\n10 isr-exit\n\
10 idle\n10 ready 536870932\n10 run 536870932\n10 mark 8\n10 idle\n";

/// A ring of 1024 bytes, a line and five tasks that a start describes, and four writers of a
/// thousand steps, before which the first one starts the recorder.
fn four_writers(alloc: Global) -> Result<Vec<u8>, Fail> {
    let mut text = b"ring 1024\ndesc N=Pump\n".to_vec(alloc)?;
    for id in [
        "536870916",
        "536870920",
        "536870924",
        "536870928",
        "536870932",
    ] {
        text.extend_from_slice(b"task ")?;
        text.extend_from_slice(id.as_bytes())?;
        text.extend_from_slice(b" 1 536875008 1024 0 T\n")?;
    }
    for start in ["0 start\n", "", "", ""] {
        text.extend_from_slice(b"writer\n")?;
        text.extend_from_slice(start.as_bytes())?;
        for _ in 0..100 {
            text.extend_from_slice(TEN)?;
        }
    }
    Ok(text)
}

/// Whether the overflows that are stored, and the packets refused since the last of them, make up
/// all packets of calls and answers that are refused.
fn counts_all(items: &[Item]) -> bool {
    let mut refused = 0u64;
    let mut counted = 0u64;
    let mut pending = 0u64;
    for item in items {
        match (item.origin, item.outcome) {
            (Origin::Overflow { count }, Outcome::Stored) => {
                counted = counted.saturating_add(u64::from(count));
                pending = 0;
            }
            (Origin::Call { .. } | Origin::Reply { .. }, Outcome::Refused) => {
                refused = refused.saturating_add(1);
                pending = pending.saturating_add(1);
            }
            _ => {}
        }
    }
    counted.saturating_add(pending) == refused
}

#[test]
fn four_writers_in_threads(rt: HostRuntime) -> Result<(), Fail> {
    let text = four_writers(rt.alloc())?;
    let mut dock = LogDock::new(rt.alloc(), RttDock::new());
    let run = run_in_threads(&rt, rt.alloc(), &text, &mut dock)?;
    assert_eq!(rt; run.status, Status::Done);
    let items = run.journal.items();
    let calls = items
        .iter()
        .filter(|item| matches!(item.origin, Origin::Call { .. }))
        .count();
    assert_eq!(rt; calls, 4001);
    assert!(rt; counts_all(items));
    Ok(())
}

/// A ring of 64 bytes that a start and nine of thirteen marks fill.
const LOST: &[u8] = b"ring 64\nwriter\n0 start\n1 mark 5\n1 mark 5\n1 mark 5\n1 mark 5\n1 mark 5\n\
1 mark 5\n1 mark 5\n1 mark 5\n1 mark 5\n1 mark 5\n1 mark 5\n1 mark 5\n1 mark 5\nschedule\n\
step 0 13\nread 20\nstep 0\n";

/// Whether what is sent in a run is what is taken, and the lost packets are counted.
fn sends_what_is_taken<R: Threads + Wait + Sync, D: Dock + Drop>(
    rt: &R,
    alloc: Global,
    inner: D,
) -> Result<bool, Fail> {
    let mut dock = LogDock::new(alloc, inner);
    let run = run_in_threads(rt, alloc, LOST, &mut dock)?;
    let is_counted = run.status == Status::Done && counts_all(run.journal.items());
    match dock.story() {
        Some(story) => Ok(
            is_counted
                && story.sent.bytes().len() >= 34
                && story.sent.bytes() == story.taken.bytes(),
        ),
        None => Ok(false),
    }
}

#[test]
fn runs_over_docks_that_keep_what_goes_through(rt: HostRuntime) -> Result<(), Fail> {
    assert!(rt; sends_what_is_taken(&rt, rt.alloc(), RttDock::new())?);
    assert!(rt; sends_what_is_taken(&rt, rt.alloc(), RtrbDock::new())?);
    Ok(())
}
