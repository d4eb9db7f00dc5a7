ghost use Rattle.std.specs.Prelude.{◌≡◌, ◌≤◌, length};

use std::alloc::Global;
use std::test::*;
use sv_desc::{Describe, Describes, micros_of, put_line};
use sv_journal::{Item, Kind, Origin, Outcome};
use sv_load::Workload;
use sv_prim::{Buf, NoMemory};
use sv_recorder::*;
use sv_ring::{PlainDown, PlainRing};
use sv_workload::parse;

/// What a start alone sends: ten zeros, then TRACE_START, INIT, SYSTIME_CYCLES and NUMMODULES, all
/// at tick 0, with a clock and a CPU of 1,000,000 Hz, the RAM base 0x20000000 and a shift of 2.
const START: [u8; 34] = [
    0, 0, 0, 0, 0, 0, 0, 0, 0, 0, 10, 0, 24, 12, 192, 132, 61, 192, 132, 61, 128, 128, 128, 128, 2,
    2, 0, 12, 0, 0, 27, 1, 0, 0,
];

/// The workload that the text says.
fn load_of(alloc: Global, text: &[u8]) -> Result<Workload, Fail> {
    if text.len() >= 1 << 32 {
        return Err(Fail::from("a text of 2^32 bytes"));
    }
    Ok(parse(alloc, text)?)
}

/// A recorder's journal and rings when it is through.
type Done = Finished<PlainRing, PlainDown>;

/// Takes a step of each writer in turn, over and over, until one of them has none, with a read of
/// 20 bytes after the step of this number, counted from 1. Gives what became of the steps of the
/// numbers from `from` on.
fn run(
    alloc: Global,
    load: &Workload,
    read_after: usize,
    from: usize,
    answers: &mut Vec<Answer>,
) -> Result<Done, NoMemory> {
    let lines = load.lines();
    let clock = load.clock();
    let desc = Describe::new(
        lines,
        clock,
        |index: u32, out: &mut Buf| put_line(lines, index, out),
        |moment: u64| micros_of(clock, moment),
    );
    run_with(alloc, load, desc, read_after, from, answers)
}

/// The same, through the bound of the callbacks alone.
fn run_with<P: Describes + Drop>(
    alloc: Global,
    load: &Workload,
    desc: P,
    read_after: usize,
    from: usize,
    answers: &mut Vec<Answer>,
) -> Result<Done, NoMemory>
    requires desc { P.kept desc }
    requires lines { P.lines desc ≡ load.now.lines }
    requires clock { P.clock desc ≡ load.now.clock }
{
    let up = PlainRing::new(alloc, load.ring(), load.need().bytes)?;
    let mut recorder = Recorder::new(alloc, load, up, PlainDown::new(), desc)?;
    let mut buf = [0; 20];
    let writers = load.writers();
    let mut next = 0;
    for count in 1..400 {
        let writer = if next < writers { next } else { 0 };
        if writer >= writers {
            break;
        }
        let Some(answer) = recorder.section(writer) else {
            break;
        };
        next = writer + 1;
        if count == read_after {
            recorder.host_read(&mut buf);
        }
        if count >= from && answers.push(answer).is_err() {
            return Err(NoMemory);
        }
    }
    Ok(recorder.finish())
}

/// The line `writer`, a start, and so many marks, each a tick after the step before it.
fn marks(alloc: Global, count: usize) -> Result<Vec<u8>, Fail> {
    let mut text = b"writer\n0 start\n".to_vec(alloc)?;
    for _ in 0..count {
        text.extend_from_slice(b"1 mark 5\n")?;
    }
    Ok(text)
}

#[test]
fn streams_without_a_refusal(rt: HostRuntime) -> Result<(), Fail> {
    let alloc = rt.alloc();
    for (text, begins, rest, items) in [
        ("writer\n0 start\n", Some(0), [].as_slice(), 6),
        (
            "writer\n5 mark 9\n0 start\n2 mark 9\n3 stop\n1 mark 9",
            Some(5),
            [15, 9, 2, 11, 3].as_slice(),
            11,
        ),
        (
            "writer\n0 start\n4294967295 mark 1\n4294967296 mark 1",
            Some(0),
            [15, 1, 255, 255, 255, 255, 15, 15, 1, 0].as_slice(),
            8,
        ),
        ("writer\n1 mark 9\n", None, [].as_slice(), 1),
    ] {
        let load = load_of(alloc, text.as_bytes())?;
        let mut answers = Vec::new(alloc);
        let done = run(alloc, &load, 0, 0, &mut answers)?;
        let mut want = Vec::new(alloc);
        if let Some(tick) = begins {
            let mut start = START;
            start[11] = tick;
            start[28] = tick;
            want.extend_from_slice(&start)?;
        }
        want.extend_from_slice(rest)?;
        assert_eq!(rt; done.up.bytes(), want.as_slice(), "{text}");
        assert_eq!(rt; done.journal.items().len(), items, "{text}");
    }
    Ok(())
}

#[test]
fn three_marks_refused_and_counted(rt: HostRuntime) -> Result<(), Fail> {
    let alloc = rt.alloc();
    let text = marks(alloc, 333)?;
    let load = load_of(alloc, &text)?;
    let mut answers = Vec::new(alloc);
    let done = run(alloc, &load, 333, 330, &mut answers)?;
    assert_eq!(rt;
        answers.as_slice(),
        [
            Answer::Sent,
            Answer::Refused,
            Answer::Refused,
            Answer::Refused,
            Answer::Sent,
        ]
        .as_slice()
    );

    // The start and 329 marks take 1,021 of 1,023 bytes. After the read comes the count of those
    // that are lost, 4 ticks after the last mark that was stored.
    let mut want = START.to_vec(alloc)?;
    for _ in 0..329 {
        want.extend_from_slice(&[15, 5, 1])?;
    }
    want.extend_from_slice(&[1, 3, 4, 15, 5, 0])?;
    assert_eq!(rt; done.up.bytes(), want.as_slice());

    // 334 steps, the 5 items of the start, and an overflow before each of the last three marks.
    assert_eq!(rt; done.journal.items().len(), 342);
    Ok(())
}

/// What a start tells of a task A at 0x20000004, of priority 1, with a stack of 1024 bytes at
/// 0x20001000: TASK_INFO and STACK_INFO.
const TASK: [u8; 17] = [
    9, 1, 1, 1, 65, 0, 21, 1, 128, 160, 128, 128, 2, 128, 8, 0, 0,
];

#[test]
fn two_writers_and_a_task(rt: HostRuntime) -> Result<(), Fail> {
    let alloc = rt.alloc();
    let text = b"ring 64\ntask 536870916 1 536875008 1024 0 A\n\
        writer\n0 start\n2 mark 7\nwriter\n1 mark 5\n1 mark 6\n";
    let load = load_of(alloc, text)?;
    let mut answers = Vec::new(alloc);
    let done = run(alloc, &load, 0, 0, &mut answers)?;
    let mut want = START[..30].to_vec(alloc)?;
    want.extend_from_slice(&TASK)?;
    want.extend_from_slice(&START[30..])?;
    want.extend_from_slice(&[15, 5, 1, 15, 7, 2, 15, 6, 1])?;
    assert_eq!(rt; done.up.bytes(), want.as_slice());

    // The start, a sync and six packets that describe the target, and three marks.
    assert_eq!(rt; done.journal.items().len(), 11);
    Ok(())
}

/// Takes three steps of writer 0. The host sends these bytes after the first and the second of
/// them. Says how many items there were after each.
fn talk<P: Describes + Drop>(
    alloc: Global,
    load: &Workload,
    desc: P,
    sends: [u8; 2],
) -> Result<(Done, [usize; 3]), NoMemory>
    requires desc { P.kept desc }
    requires lines { P.lines desc ≡ load.now.lines }
    requires clock { P.clock desc ≡ load.now.clock }
{
    let up = PlainRing::new(alloc, load.ring(), load.need().bytes)?;
    let mut recorder = Recorder::new(alloc, load, up, PlainDown::new(), desc)?;
    let mut counts = [0; 3];
    if load.writers() > 0 {
        recorder.section(0);
        counts[0] = recorder.journal().items().len();
        recorder.host_send(&[sends[0]]);
        recorder.section(0);
        counts[1] = recorder.journal().items().len();
        recorder.host_send(&[sends[1]]);
        recorder.section(0);
        counts[2] = recorder.journal().items().len();
    }
    Ok((recorder.finish(), counts))
}

#[test]
fn waits_for_a_parameter(rt: HostRuntime) -> Result<(), Fail> {
    let alloc = rt.alloc();
    let text = b"module 3 M=Net\ncommand 128 0\nwriter\n0 start\n1 mark 5\n1 mark 6\n";
    let load = load_of(alloc, text)?;
    let lines = load.lines();
    let clock = load.clock();
    let desc = Describe::new(
        lines,
        clock,
        |index: u32, out: &mut Buf| put_line(lines, index, out),
        |moment: u64| micros_of(clock, moment),
    );
    let (done, counts) = talk(alloc, &load, desc, [128, 0])?;
    assert_eq!(rt; counts, [6, 7, 10]);
    let command = Item {
        origin: Origin::Command {
            byte: 128,
            param: 0,
        },
        moment: 2,
        freed: 0,
        outcome: Outcome::Handled,
    };
    let module = Item {
        origin: Origin::Reply {
            kind: Kind::Module,
            index: 0,
        },
        moment: 2,
        freed: 0,
        outcome: Outcome::Stored,
    };
    let mut items = done.journal.items().iter().rev();
    assert_eq!(rt; items.next(), Some(&module));
    assert_eq!(rt; items.next(), Some(&command));
    let mut want = START[..30].to_vec(alloc)?;
    want.extend_from_slice(&[27, 1, 1, 0, 15, 5, 1, 15, 6, 1])?;
    want.extend_from_slice(&[22, 0, 128, 4, 5, 77, 61, 78, 101, 116, 0])?;
    assert_eq!(rt; done.up.bytes(), want.as_slice());
    Ok(())
}

#[test]
fn tells_the_time_in_microseconds(rt: HostRuntime) -> Result<(), Fail> {
    let alloc = rt.alloc();
    let load = load_of(alloc, b"clock 2\ntime\nwriter\n3 start\n")?;
    let mut answers = Vec::new(alloc);
    let done = run(alloc, &load, 0, 0, &mut answers)?;
    assert_eq!(rt;
        done.up.bytes(),
        [
            0, 0, 0, 0, 0, 0, 0, 0, 0, 0, 10, 3, 24, 10, 2, 192, 132, 61, 128, 128, 128, 128, 2, 2,
            0, 13, 224, 198, 91, 0, 0, 27, 1, 0, 0,
        ]
        .as_slice()
    );
    Ok(())
}
