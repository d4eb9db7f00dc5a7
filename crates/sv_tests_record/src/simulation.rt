ghost use Rattle.std.specs.Prelude.{◌≤◌, IfOk};

use std::alloc::Global;
use std::process::Abort;
use std::test::*;
use sv_core::*;
use sv_journal::{Item, Origin, Outcome};
use sv_load::Workload;
use sv_workload::parse;

/// A start at tick 0 and thirteen marks of the number 5, one tick apart, over a ring of 64 bytes.
const MARKS: &[u8] = b"ring 64\nwriter\n0 start\n1 mark 5\n1 mark 5\n1 mark 5\n1 mark 5\n1 mark 5\n\
1 mark 5\n1 mark 5\n1 mark 5\n1 mark 5\n1 mark 5\n1 mark 5\n1 mark 5\n1 mark 5\n";

/// The workload that the text says.
fn load_of(alloc: Global, text: &[u8]) -> Result<Workload, Fail>
    ensures ring { IfOk result (λ load. load.ring ≤ 65536) }
{
    if text.len() >= 1 << 32 {
        return Err(Fail::from("a text of 2^32 bytes"));
    }
    let load = parse(alloc, text)?;
    let _ = load.ring();
    Ok(load)
}

/// Fourteen turns of the one writer, of whose nineteen frees all are 0 but the one before the last.
fn turns(alloc: Global, free: u32) -> Result<Turns, Fail> {
    let mut steps = Vec::new(alloc);
    for _ in 0..14 {
        steps.push(StepTurn {
            writer: 0,
            command: false,
        })?;
    }
    let mut frees = Vec::new(alloc);
    for _ in 0..17 {
        frees.push(0)?;
    }
    frees.push(free)?;
    frees.push(0)?;
    Ok(Turns { steps, frees })
}

/// The start takes 34 bytes and nine marks 27: the next four find no room. With 20 bytes freed the
/// overflow says that there were three, and the last mark is stored after it.
#[test]
fn replay_with_lost_packets(rt: HostRuntime) -> Result<(), Fail> {
    let alloc = rt.alloc();
    let load = load_of(alloc, MARKS)?;
    match replay(alloc, &load, &turns(alloc, 20)?) {
        Ok(run) => {
            assert_eq!(rt; run.journal.items().len(), 22);
            assert_eq!(rt; run.bytes.len(), 67);
            assert!(rt; run.bytes.ends_with(&[0x01, 0x03, 0x04, 0x0f, 0x05, 0x00]));
            match turns_of(alloc, &run.journal) {
                Ok(again) => {
                    let first = turns(alloc, 20)?;
                    assert_eq!(rt; again.steps.as_slice(), first.steps.as_slice());
                    assert_eq!(rt; again.frees.as_slice(), first.frees.as_slice());
                }
                Err(_) => assert!(rt; false, "no memory"),
            }
        }
        Err(_) => assert!(rt; false, "not replayed"),
    }
    Ok(())
}

/// More is freed than is stored; a turn too many, whose writer is through.
#[test]
fn bad_turns_at_their_place(rt: HostRuntime) -> Result<(), Fail> {
    let alloc = rt.alloc();
    let load = load_of(alloc, MARKS)?;
    match replay(alloc, &load, &turns(alloc, 100)?) {
        Ok(_) => assert!(rt; false, "100 bytes freed"),
        Err(fault) => assert_eq!(rt; fault, ReplayFault::BadTurns { at: 13 }),
    }
    let mut more = turns(alloc, 20)?;
    more.steps.push(StepTurn {
        writer: 0,
        command: false,
    })?;
    match replay(alloc, &load, &more) {
        Ok(_) => assert!(rt; false, "a step too many"),
        Err(fault) => assert_eq!(rt; fault, ReplayFault::BadTurns { at: 14 }),
    }
    Ok(())
}

/// The simulation of the workload that the text says.
fn simulated(alloc: Global, text: &[u8]) -> Result<Simulated, Fail> {
    let load = load_of(alloc, text)?;
    simulate(alloc, &load)
        .ok()
        .ok_or("no memory")
        .map_err(Fail::from)
}

/// Whether the simulation of the text, given in parts, has so many items and bytes, of which these
/// are the last.
fn simulates(
    rt: &impl Abort,
    alloc: Global,
    parts: &[&[u8]],
    items: usize,
    bytes: usize,
    ends: &[u8],
) -> Result<(), Fail> {
    let mut text = Vec::new(alloc);
    for part in parts {
        text.extend_from_slice(part)?;
    }
    let run = simulated(alloc, &text)?;
    assert_eq!(rt; run.journal.items().len(), items);
    assert_eq!(rt; run.bytes.len(), bytes);
    assert!(rt; run.bytes.ends_with(ends));
    Ok(())
}

/// The start takes 34 bytes and nine marks 27. The next is refused; after it each needs an overflow
/// before it, and both are refused, until the host has read.
#[test]
fn lost_packets(rt: HostRuntime) -> Result<(), Fail> {
    let alloc = rt.alloc();
    let counted = &[0x01, 0x03, 0x04, 0x0f, 0x05, 0x00];
    let schedule: &[u8] = b"schedule\nstep 0 13\nread 20\nstep 0\n";
    simulates(&rt, alloc, &[MARKS, schedule], 22, 67, counted)?;

    // Nothing is read before the last step, so that its mark is lost too.
    let schedule: &[u8] = b"schedule\nstep 0 1048576\n";
    simulates(&rt, alloc, &[MARKS, schedule], 22, 61, &[0x0f, 0x05, 0x01])?;

    // Everything is read after each step, so that nothing is lost.
    simulates(&rt, alloc, &[MARKS], 19, 73, &[0x0f, 0x05, 0x01])
}

/// The packet that says that the recorder stopped is refused, and the mark after it is ignored. It
/// is pending over the restart, which the overflow after the zeros counts.
#[test]
fn restart_after_a_lost_packet(rt: HostRuntime) -> Result<(), Fail> {
    let marks: &[u8] = b"ring 64\nwriter\n0 start\n1 mark 300\n1 mark 300\n1 mark 300\n\
1 mark 300\n1 mark 300\n1 mark 300\n1 mark 300\n";
    let restart: &[u8] = b"1 stop\n1 mark 300\n1 start\n";
    let schedule: &[u8] = b"schedule\nstep 0 10\nread 40\nstep 0\n";
    let ends = &[
        0, 0, 0, 0, 0, 0, 0, 0, 0, 0, 0x01, 0x01, 0x03, 0x0a, 0x00, 0x18, 0x0c, 0xc0, 0x84, 0x3d,
        0xc0, 0x84, 0x3d, 0x80, 0x80, 0x80, 0x80, 0x02, 0x02, 0x00, 0x0c, 0x0a, 0x00, 0x1b, 0x01,
        0x00, 0x00,
    ];
    simulates(&rt, rt.alloc(), &[marks, restart, schedule], 23, 99, ends)
}

/// A writer without a step.
#[test]
fn nothing_to_do(rt: HostRuntime) -> Result<(), Fail> {
    simulates(&rt, rt.alloc(), &[b"ring 64\nwriter\n"], 0, 0, &[])?;
    simulates(&rt, rt.alloc(), &[b"ring 64\n"], 0, 0, &[])
}

/// The marks are told from one another by their numbers, and their deltas are their own ticks.
#[test]
fn two_writers(rt: HostRuntime) -> Result<(), Fail> {
    let alloc = rt.alloc();
    let scripts: &[u8] =
        b"ring 64\nwriter\n0 start\n1 mark 5\n1 mark 6\nwriter\n2 mark 7\n3 mark 8\n";

    // By turns, the first writer first.
    let ends = &[0x0f, 0x07, 2, 0x0f, 0x05, 1, 0x0f, 0x08, 3, 0x0f, 0x06, 1];
    simulates(&rt, alloc, &[scripts], 10, 46, ends)?;

    // The first mark of the second writer comes before the start, and is ignored.
    let schedule: &[u8] = b"schedule\nstep 1\nstep 0\nstep 1\nread 10\nstep 0\n";
    let ends = &[0x0f, 0x08, 3, 0x0f, 0x05, 1, 0x0f, 0x06, 1];
    simulates(&rt, alloc, &[scripts, schedule], 10, 43, ends)?;

    // The first writer is through before its line ends.
    let schedule: &[u8] = b"schedule\nstep 0 9\nstep 1\n";
    let ends = &[0x0f, 0x05, 1, 0x0f, 0x06, 1, 0x0f, 0x07, 2, 0x0f, 0x08, 3];
    simulates(&rt, alloc, &[scripts, schedule], 10, 46, ends)
}

/// The first command is found after the second step, and the one that is not known after the third.
#[test]
fn commands_by_the_schedule(rt: HostRuntime) -> Result<(), Fail> {
    let alloc = rt.alloc();
    let text: &[u8] = b"module 3 M=Net\ncommand 128 0\ncommand 9\nwriter\n0 start\n1 mark 5\n\
1 mark 6\nschedule\nstep 0\nsend\nstep 0\nsend\nstep 0\n";
    let run = simulated(alloc, text)?;
    assert_eq!(rt; run.journal.items().len(), 11);
    assert_eq!(rt; run.bytes.len(), 51);
    assert!(rt;
        run.bytes.ends_with(&[
            0x0f, 0x05, 1, 0x16, 0, 0x80, 0x04, 0x05, 0x4d, 0x3d, 0x4e, 0x65, 0x74, 0, 0x0f, 0x06,
            1,
        ])
    );
    let last = Item {
        origin: Origin::Command { byte: 9, param: 0 },
        moment: 2,
        freed: 0,
        outcome: Outcome::Handled,
    };
    assert_eq!(rt; run.journal.items().last(), Some(&last));
    Ok(())
}

/// Without a schedule all commands are sent before the first step, and one is found after each.
#[test]
fn commands_that_are_left(rt: HostRuntime) -> Result<(), Fail> {
    let text: &[u8] = b"module 3 M=Net\ncommand 7\ncommand 2\nwriter\n0 start\n1 mark 5\n\
1 mark 6\n";
    let ends = &[
        0x16, 0, 0x80, 0x04, 0x05, 0x4d, 0x3d, 0x4e, 0x65, 0x74, 0, 0x0f, 0x05, 1, 0x0b, 0,
    ];
    simulates(&rt, rt.alloc(), &[text], 12, 50, ends)
}

/// The decimal digits of a number.
fn put_number(number: u8, out: &mut Vec<u8>) -> Result<(), Fail> {
    if number >= 100 {
        out.push(b'0' + number / 100)?;
    }
    if number >= 10 {
        out.push(b'0' + number / 10 % 10)?;
    }
    out.push(b'0' + number % 10)?;
    Ok(())
}

/// A start is 6 items, a mark one, and a command one and its answers: there are no lines, tasks or
/// modules.
#[test]
fn each_byte_as_a_command(rt: HostRuntime) -> Result<(), Fail> {
    let alloc = rt.alloc();
    for byte in 0..=255 {
        let mut text = b"command ".to_vec(alloc)?;
        put_number(byte, &mut text)?;
        if byte >= 128 {
            text.extend_from_slice(b" 0")?;
        }
        text.extend_from_slice(b"\nwriter\n0 start\n1 mark 5\nschedule\nstep 0\nsend\nstep 0\n")?;
        let run = simulated(alloc, &text)?;
        let items = match byte {
            1 => 13,
            2 | 3 | 5 | 6 => 9,
            _ => 8,
        };
        assert_eq!(rt; run.journal.items().len(), items, "{byte}");
    }
    Ok(())
}

/// The turns of a simulation with commands give its journal again, and its bytes.
#[test]
fn replay_with_commands(rt: HostRuntime) -> Result<(), Fail> {
    let alloc = rt.alloc();
    let text: &[u8] = b"module 3 M=Net\ncommand 128 0\ncommand 9\nwriter\n0 start\n1 mark 5\n\
1 mark 6\nschedule\nstep 0\nsend\nsend\nstep 0 2\n";
    let load = load_of(alloc, text)?;
    let mut steps = Vec::new(alloc);
    for command in [false, true, true] {
        steps.push(StepTurn { writer: 0, command })?;
    }
    let mut frees = Vec::new(alloc);
    for _ in 0..8 {
        frees.push(0)?;
    }
    let mut turns = Turns { steps, frees };
    match replay(alloc, &load, &turns) {
        Ok(run) => {
            let first = simulated(alloc, text)?;
            assert_eq!(rt; run.journal.items(), first.journal.items());
            assert_eq!(rt; run.bytes.as_slice(), first.bytes.as_slice());
        }
        Err(_) => assert!(rt; false, "not replayed"),
    }
    // There is no third command.
    match turns.steps.first_mut() {
        Some(turn) => turn.command = true,
        None => assert!(rt; false, "no turns"),
    }
    match replay(alloc, &load, &turns) {
        Ok(_) => assert!(rt; false, "three commands"),
        Err(fault) => assert_eq!(rt; fault, ReplayFault::BadTurns { at: 2 }),
    }
    Ok(())
}
