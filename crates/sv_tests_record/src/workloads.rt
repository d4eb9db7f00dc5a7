use std::alloc::{AllocError, Global};
use std::test::*;
use sv_desc::Module;
use sv_packet::Event;
use sv_workload::*;

/// What a step says, in short: its ticks, the identifier of its packet or a number from 100 on, and
/// the number in it.
fn told(step: &Step) -> (u64, u32, u32) {
    let (what, number) = match &step.act {
        Act::Start => (100, 0),
        Act::Stop => (101, 0),
        Act::Event(event) => match event {
            Event::Nop => (0, 0),
            Event::IsrEnter { isr } => (2, *isr),
            Event::IsrExit => (3, 0),
            Event::TaskStop => (5, 0),
            Event::MarkStart { id } => (15, *id),
            Event::MarkStop { id } => (16, *id),
            Event::Idle => (17, 0),
            Event::ToScheduler => (18, 0),
            _ => (99, 0),
        },
    };
    (step.advance, what, number)
}

/// The steps of the first writer, none where there is no writer.
fn first_steps<'a>(load: &'a Workload) -> &'a [Step] {
    if load.writers() > 0 {
        load.steps(0)
    } else {
        &[]
    }
}

#[test]
fn steps_of_one_writer(rt: HostRuntime) -> Result<(), Fail> {
    let alloc = rt.alloc();
    for (text, want, items, bytes) in [
        (
            "writer\n5 mark 9\n0 start\n2 mark 9\n3 stop\n1 mark 9",
            [(5, 15, 9), (0, 100, 0), (2, 15, 9), (3, 101, 0), (1, 15, 9)].as_slice(),
            25,
            738,
        ),
        ("writer", [].as_slice(), 0, 16),
        ("writer\n", [].as_slice(), 0, 16),
        (
            "writer\n1 start\n2 stop\n3 nop\n4 isr 5\n6 isr-exit\n7 halt\n8 mark 9\n10 mark-end 11\n12 idle\n13 sched\n",
            [
                (1, 100, 0),
                (2, 101, 0),
                (3, 0, 0),
                (4, 2, 5),
                (6, 3, 0),
                (7, 5, 0),
                (8, 15, 9),
                (10, 16, 11),
                (12, 17, 0),
                (13, 18, 0),
            ]
            .as_slice(),
            40,
            823,
        ),
        (
            "writer\n8589934592 isr 4294967295\n0 mark 0",
            [(8589934592, 2, 4294967295), (0, 15, 0)].as_slice(),
            6,
            56,
        ),
    ] {
        let load = parse(alloc, text.as_bytes())?;
        assert_eq!(rt; load.writers(), 1, "{text}");
        let mut steps = Vec::new(alloc);
        for step in first_steps(&load) {
            steps.push(told(step))?;
        }
        assert_eq!(rt; steps.as_slice(), want, "{text}");
        assert_eq!(rt; load.need(), Need { items, bytes }, "{text}");
    }
    Ok(())
}

/// What is wrong with a text of fewer than 2^32 bytes.
fn fault_of(alloc: Global, text: &[u8]) -> Option<WorkFault> {
    if text.len() >= 1 << 32 {
        return None;
    }
    match parse(alloc, text) {
        Ok(_) => None,
        Err(fault) => Some(fault),
    }
}

#[test]
fn the_first_line_with_a_fault(rt: HostRuntime) {
    let alloc = rt.alloc();
    for (text, line, reason) in [
        // Each fault.
        ("hello", 1, 1),
        ("ring", 1, 2),
        ("ring 63", 1, 3),
        ("ring 64\nring 64", 2, 4),
        ("writer\n1 ready 536871941", 2, 6),
        ("1 mark 5", 1, 7),
        (
            "writer\n1 print ppppppppppppppppppppppppppppppppppppppppppppppppppppppppppppppppppppppppppppppppppppppppppppppppppppppppppppppppppppppppppppppppp",
            2,
            8,
        ),
        ("writer\nschedule\nstep 1", 3, 9),
        ("module 15872 A\nmodule 1 B", 2, 10),
        // A line that fails two checks has the reason of the first.
        ("writer\nschedule\nblink 1", 3, 1),
        ("step ", 1, 7),
        ("ring 63 ", 1, 2),
        ("task x 0 0 0 0 nnnnnnnnnnnnnnnnnnnnnnnnnnnnnnnnn", 1, 3),
        (
            "task 536870913 0 0 0 0 nnnnnnnnnnnnnnnnnnnnnnnnnnnnnnnnn",
            1,
            8,
        ),
        ("base 0\ntask 4 0 0 0 0 M\ntask 5 0 0 0 0 M", 3, 6),
        // Numbers and words as they may not stand.
        ("writer\n01 mark 5", 2, 3),
        ("writer\n1 mark 05", 2, 3),
        ("writer\n8589934593 nop", 2, 3),
        ("writer\n1 isr 99999999999999999999999", 2, 3),
        ("writer\n1  nop", 2, 1),
        ("writer\n1 nop ", 2, 2),
        ("writer\n1 nop\r\n", 2, 1),
        ("writer\n1 call 40 1 2 3 4 5 6 7 8 9", 2, 2),
        // What describes the target, and the host.
        ("time\ntime", 2, 4),
        ("desc a\ndesc a\ndesc a\ndesc a\ndesc a", 5, 5),
        ("writer\nschedule\nsend 1", 3, 2),
        // A byte that is no number comes before the count of words, and one that is too large after.
        ("command", 1, 2),
        ("command ", 1, 3),
        ("command x 1 2", 1, 3),
        ("command 127 0", 1, 2),
        ("command 128", 1, 2),
        ("command 300", 1, 2),
        ("command 300 5", 1, 3),
        // Remarks are counted, and later lines aren't looked at.
        ("; a\n\nring 63\nhello", 3, 3),
    ] {
        assert_eq!(rt;
            fault_of(alloc, text.as_bytes()),
            Some(WorkFault::Line { line, reason }),
            "{text}"
        );
    }
}

/// So many lines of a kind after a text.
fn with_lines(
    alloc: Global,
    text: &[u8],
    count: usize,
    line: &[u8],
) -> Result<Vec<u8>, AllocError> {
    let mut all = text.to_vec(alloc)?;
    for _ in 0..count {
        all.extend_from_slice(line)?;
    }
    Ok(all)
}

const TASKS: &[u8] =
    b"base 0\nshift 0\ntask 0 0 0 0 0 M\ntask 1 0 0 0 0 M\ntask 2 0 0 0 0 M\ntask 3 0 0 0 0 M\ntask 4 0 0 0 0 M\ntask 5 0 0 0 0 M\ntask 6 0 0 0 0 M\ntask 7 0 0 0 0 M\ntask 8 0 0 0 0 M\ntask 9 0 0 0 0 M\ntask 10 0 0 0 0 M\ntask 11 0 0 0 0 M\ntask 12 0 0 0 0 M\ntask 13 0 0 0 0 M\ntask 14 0 0 0 0 M\ntask 15 0 0 0 0 M\ntask 16 0 0 0 0 M\ntask 17 0 0 0 0 M\ntask 18 0 0 0 0 M\ntask 19 0 0 0 0 M\ntask 20 0 0 0 0 M\ntask 21 0 0 0 0 M\ntask 22 0 0 0 0 M\ntask 23 0 0 0 0 M\ntask 24 0 0 0 0 M\ntask 25 0 0 0 0 M\ntask 26 0 0 0 0 M\ntask 27 0 0 0 0 M\ntask 28 0 0 0 0 M\ntask 29 0 0 0 0 M\ntask 30 0 0 0 0 M\ntask 31 0 0 0 0 M\n";

#[test]
fn as_many_as_there_may_be(rt: HostRuntime) -> Result<(), Fail> {
    let alloc = rt.alloc();
    for (text, count, line, want) in [
        (b"writer\n".as_slice(), 256, b"0 start\n".as_slice(), None),
        (
            b"writer\n",
            257,
            b"0 start\n",
            Some(WorkFault::Line {
                line: 258,
                reason: 5,
            }),
        ),
        (b"", 16, b"writer\n", None),
        (
            b"",
            17,
            b"writer\n",
            Some(WorkFault::Line {
                line: 17,
                reason: 5,
            }),
        ),
        (TASKS, 0, b"", None),
        (
            TASKS,
            1,
            b"task 32 0 0 0 0 M\n",
            Some(WorkFault::Line {
                line: 35,
                reason: 5,
            }),
        ),
        (b"", 64, b"module 0 A\n", None),
        (
            b"",
            65,
            b"module 0 A\n",
            Some(WorkFault::Line {
                line: 65,
                reason: 5,
            }),
        ),
        (b"", 256, b"command 9\n", None),
        (
            b"",
            257,
            b"command 9\n",
            Some(WorkFault::Line {
                line: 257,
                reason: 5,
            }),
        ),
        (
            TASKS,
            1,
            b"task 31 0 0 0 0 M\n",
            Some(WorkFault::Line {
                line: 35,
                reason: 4,
            }),
        ),
    ] {
        assert_eq!(rt;
            fault_of(alloc, with_lines(alloc, text, count, line)?.as_slice()),
            want,
            "{count}"
        );
    }
    Ok(())
}

#[test]
fn what_is_said_of_a_target(rt: HostRuntime) -> Result<(), Fail> {
    let alloc = rt.alloc();
    let plain = parse(alloc, b"writer\n")?;
    let told = (
        plain.ring(),
        plain.clock(),
        plain.cpu(),
        plain.base(),
        plain.shift(),
    );
    assert_eq!(rt; told, (1024, 1000000, 1000000, 536870912, 2));
    assert_eq!(rt; plain.scheduled(), false);
    let load = parse(
        alloc,
        b"ring 65536\nclock 5\ncpu 6\nbase 16\nshift 4\ntask 32 5 1 2 3 the name\nwriter\n0 start\nwriter\n1 run 48\nschedule\nstep 1\nstep 0 8\nread 64\n",
    )?;
    let told = (
        load.ring(),
        load.clock(),
        load.cpu(),
        load.base(),
        load.shift(),
    );
    assert_eq!(rt; told, (65536, 5, 6, 16, 4));
    assert_eq!(rt; load.writers(), 2);
    assert_eq!(rt; load.scheduled(), true);
    assert_eq!(rt;
        load.schedule(),
        [
            Action::Step {
                writer: 1,
                count: 1
            },
            Action::Step {
                writer: 0,
                count: 8
            },
            Action::Read { most: 64 },
        ]
        .as_slice()
    );
    assert_eq!(rt; load.tasks().len(), 1);
    for task in load.tasks() {
        let numbers = (
            task.id,
            task.priority,
            task.stack_base,
            task.stack_size,
            task.extra,
        );
        assert_eq!(rt; numbers, (32, 5, 1, 2, 3));
        assert_eq!(rt; task.name.bytes(), b"the name".as_slice());
    }
    the_first_fault();
    Ok(())
}

#[test]
fn what_a_host_is_told_and_asks(rt: HostRuntime) -> Result<(), Fail> {
    let alloc = rt.alloc();
    let plain = parse(alloc, b"writer\n")?;
    assert!(rt; !plain.timed() && plain.lines().is_empty() && plain.commands().is_empty());
    assert_eq!(rt; plain.modules().count(), 0);
    let load = parse(
        alloc,
        b"time\ndesc N=x, O=y\nmodule 3 M=Net\nmodule 5 M=A b\ncommand 128 1\ncommand 9\nwriter\n0 start\nschedule\nsend\nstep 0\n",
    )?;
    assert_eq!(rt; load.timed(), true);
    let mut lines = load.lines().iter();
    assert_eq!(rt;
        lines.next().map(|line| line.bytes()),
        Some(b"N=x, O=y".as_slice())
    );
    assert!(rt; lines.next().is_none());
    let modules = load.modules();
    let told = (modules.get(0), modules.get(1), modules.get(2));
    let want = (
        Some(Module {
            offset: 512,
            events: 3,
            name: b"M=Net",
        }),
        Some(Module {
            offset: 515,
            events: 5,
            name: b"M=A b",
        }),
        None,
    );
    assert_eq!(rt; told, want);
    let commands = [
        Command {
            byte: 128,
            param: 1,
        },
        Command { byte: 9, param: 0 },
    ];
    assert_eq!(rt; load.commands(), commands.as_slice());
    assert_eq!(rt; load.schedule().first(), Some(&Action::Send));
    // One step and three groups of at most 2 + 2 * 7 items, for four packets, a line and two
    // modules.
    assert_eq!(rt;
        load.need(),
        Need {
            items: 51,
            bytes: 3373
        }
    );
    Ok(())
}
