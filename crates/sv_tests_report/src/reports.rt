ghost use Rattle.std.specs.Prelude.{◌^◌, ◌≤◌, length};

use std::alloc::Global;
use std::test::*;
use sv_analyse::Analyser;
use sv_context::Context;
use sv_packet::decode_ref;
use sv_prim::{Got, Reason};
use sv_report::*;
use sv_stream::End;
use sv_timeline::Span;

#[test]
fn lines_of_packets(rt: HostRuntime) -> Result<(), Fail> {
    let alloc = rt.alloc();
    for (time, packet, line) in [
        (
            0,
            b"\x09\x01\x05\x04Main\x00".as_slice(),
            "0 TASK_INFO 1 5 \"Main\"\n",
        ),
        (
            7,
            b"\x1a\x05\x02hi\x00\x00\x00",
            "7 PRINT_FORMATTED \"hi\" 0 0\n",
        ),
        (
            7,
            b"\x1a\x08\x02hi\x00\x02\xac\x02\x07\x00",
            "7 PRINT_FORMATTED \"hi\" 0 2 300 7\n",
        ),
        (9, b"\x1c\x03\x80\x04\x01\x00", "9 END_CALL 512 1\n"),
        (9, b"\x80\x04\x02\x01\xff\x00", "9 OPAQUE 512 01FF\n"),
        (u64::MAX, b"\x11\x00", "18446744073709551615 IDLE\n"),
    ] {
        let mut out = b"before\n".to_vec(alloc)?;
        match decode_ref(packet) {
            Got::Value { value, .. } => {
                assert_eq!(rt; event_line(time, &value.event, &mut out), Ok(()));
            }
            _ => assert!(rt; false, "{line}"),
        }
        assert!(rt; out.starts_with(b"before\n"));
        assert!(rt; out.ends_with(line.as_bytes()), "{line}");
        assert_eq!(rt; out.len(), 7 + line.len());
    }
    Ok(())
}

#[test]
fn lines_of_ends(rt: HostRuntime) -> Result<(), Fail> {
    let alloc = rt.alloc();
    for (end, line) in [
        (End::Clean, "end clean\n"),
        (End::Truncated { held: 2 }, "end truncated 2\n"),
        (End::NoSync, "end no-sync\n"),
        (
            End::Damaged {
                place: 12,
                reason: Reason::BadId,
            },
            "end damaged 12 2\n",
        ),
    ] {
        let mut out = Vec::new(alloc);
        assert_eq!(rt; end_line(&end, &mut out), Ok(()));
        assert_eq!(rt; out.as_slice(), line.as_bytes());
    }
    let mut out = Vec::new(alloc);
    assert_eq!(rt; mark_line(5, 15, Reason::BadId, &mut out), Ok(()));
    assert_eq!(rt; out.as_slice(), b"5 DAMAGED 15 2\n".as_slice());
    Ok(())
}

#[test]
fn lines_of_runs(rt: HostRuntime) -> Result<(), Fail> {
    let alloc = rt.alloc();
    for (start, end, context, line) in [
        (0, 3, Context::Idle, "0 3 idle\n"),
        (3, 5, Context::Isr(5), "3 5 isr 5\n"),
        (5, 6, Context::Timer(1), "5 6 timer 1\n"),
        (6, 9, Context::Gap, "6 9 gap\n"),
        (9, 10, Context::Unknown, "9 10 unknown\n"),
        (10, 12, Context::Scheduler, "10 12 scheduler\n"),
        (12, 20, Context::Task(257), "12 20 task 257\n"),
        (
            u64::MAX - 1,
            u64::MAX,
            Context::Timer(u32::MAX),
            "18446744073709551614 18446744073709551615 timer 4294967295\n",
        ),
    ] {
        let mut out = b"before\n".to_vec(alloc)?;
        let span = Span {
            start,
            end,
            context,
        };
        assert_eq!(rt; span_line(&span, &mut out), Ok(()));
        assert!(rt; out.starts_with(b"before\n"));
        assert!(rt; out.ends_with(line.as_bytes()), "{line}");
        assert_eq!(rt; out.len(), 7 + line.len());
    }
    Ok(())
}

/// The text of the report of a recording that comes in two pieces.
fn report_text(alloc: Global, input: &[u8]) -> Result<Vec<u8>, Fail>
    requires { length input.now ≤ 2 ^ 33 }
{
    let mut analyser = Analyser::new(alloc);
    let mut spans = Vec::new(alloc);
    let (first, rest) = input.split_at(input.len() / 2);
    analyser.feed(first, &mut spans)?;
    analyser.feed(rest, &mut spans)?;
    let report = analyser.report()?;
    Ok(text(alloc, &report)?)
}

#[test]
fn texts_of_reports(rt: HostRuntime) -> Result<(), Fail> {
    let alloc = rt.alloc();
    for (input, expected) in [
        (
            b"".as_slice(),
            "packets 0\nticks 0\nlost 0 in 0\nanomalies 0\nsystem - -\nend no-sync\n",
        ),
        // A task, and an interrupt within it.
        (
            b"\0\0\0\0\0\0\0\0\0\0\x0a\0\x04\x01\0\x02\x05\x0a\x03\x04\x11\x06",
            "packets 5\nticks 20\nlost 0 in 0\nanomalies 0\nsystem - -\nload task 1 16 800\n\
load isr 5 4 200\n\
task 1 - - starts 1 measured 0 min - max - sum 0 resumed 0 unknown 1\nend clean\n",
        ),
        // The beginning of an interrupt was lost.
        (
            b"\0\0\0\0\0\0\0\0\0\0\x0a\0\x04\x01\0\x01\x01\x0a\x03\x05\x04\x01\x05\x11\x05",
            "packets 6\nticks 25\nlost 1 in 1\nanomalies 1\nsystem - -\nload gap 10 400\n\
load unknown 10 400\nload task 1 5 200\n\
task 1 - - starts 2 measured 0 min - max - sum 0 resumed 0 unknown 2\nend clean\n",
        ),
        // A wait that was measured, and two starts without one.
        (
            b"\0\0\0\0\0\0\0\0\0\0\x0a\0\x06\x01\x05\x04\x01\x04\x05\x03\x04\x01\x02\x06\x01\x01\
\x07\x01\0\x01\x04\x01\x02",
            "packets 8\nticks 18\nlost 0 in 0\nanomalies 0\nsystem - -\nload unknown 9 500\n\
load scheduler 2 111\nload task 1 7 388\n\
task 1 - - starts 3 measured 1 min 4 max 4 sum 4 resumed 2 unknown 0\nend clean\n",
        ),
        // The first report again, of which the end is cut off.
        (
            b"\0\0\0\0\0\0\0\0\0\0\x0a\0\x02\x05",
            "packets 1\nticks 0\nlost 0 in 0\nanomalies 0\nsystem - -\nend truncated 2\n",
        ),
        // A system, a description twice, a module twice, and a task with its name.
        (
            b"\0\0\0\0\0\0\0\0\0\0\x18\x0c\xc0\x84\x3d\xc0\x84\x3d\x80\x80\x80\x80\x02\x02\0\
\x0e\x01O\0\x0e\x01O\0\x16\0\x80\x04\x05M=Net\0\x16\0\x80\x04\x01B\0\
\x09\x01\x05\x01A\0\x04\x01\0",
            "packets 7\nticks 0\nlost 0 in 0\nanomalies 0\nsystem 1000000 1000000\n\
desc \"O\"\nmodule 0 512 \"B\"\n\
task 1 0x20000004 \"A\" starts 1 measured 0 min - max - sum 0 resumed 0 unknown 1\nend clean\n",
        ),
    ] {
        let got = report_text(alloc, input)?;
        assert_eq!(rt; got.as_slice(), expected.as_bytes(), "{expected}");
    }
    Ok(())
}
