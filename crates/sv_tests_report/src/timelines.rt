ghost use Rattle.std.specs.Prelude.{◌≡◌, []};
ghost use Rattle.sv_timeline.specs.State.{StandsFor};

use std::test::*;
use sv_context::Context;
use sv_packet::EventRef;
use sv_prim::NoMemory;
use sv_timeline::*;

/// Goes on with the first hundred events, as long as their times rise.
fn follow(
    timeline: &mut Timeline,
    events: &[(u64, EventRef<'_>)],
    spans: &mut Vec<Span>,
) -> Result<(), NoMemory>
    requires none { StandsFor timeline.old [] [] }
    requires start { timeline.old.last ≡ 0 }
{
    let mut last = 0;
    let mut left = 100u64;
    for (time, event) in events {
        if left == 0 || *time < last {
            return Ok(());
        }
        timeline.apply(*time, event, spans)?;
        last = *time;
        left -= 1;
    }
    Ok(())
}

/// A task, an interrupt within it, and an exit too many.
#[test]
fn loads_and_anomalies(rt: HostRuntime) -> Result<(), Fail> {
    let alloc = rt.alloc();
    let mut timeline = Timeline::new(alloc);
    let mut spans = Vec::new(alloc);
    let events = [
        (2, EventRef::TaskStart { task: 1 }),
        (12, EventRef::IsrEnter { isr: 5 }),
        (16, EventRef::IsrExit),
        (17, EventRef::IsrExit),
        (22, EventRef::Idle),
    ];
    let followed = follow(&mut timeline, &events, &mut spans).is_ok();
    assert!(rt; followed);
    let runs = [
        (0, 2, Context::Gap),
        (2, 12, Context::Task(1)),
        (12, 16, Context::Isr(5)),
    ];
    assert_eq!(rt; spans.len(), runs.len());
    for (at, (start, end, context)) in runs.iter().enumerate() {
        let run = Span {
            start: *start,
            end: *end,
            context: *context,
        };
        assert!(rt; spans.get(at) == Some(&run), "run {at}");
    }
    let last = Span {
        start: 16,
        end: 22,
        context: Context::Task(1),
    };
    assert_eq!(rt; timeline.tail(), Some(last));
    for (context, ticks) in [
        (Context::Task(1), 16),
        (Context::Isr(5), 4),
        (Context::Gap, 2),
        (Context::Idle, 0),
        (Context::Isr(21), 0),
    ] {
        assert_eq!(rt; timeline.load(context), ticks);
    }
    assert_eq!(rt; timeline.anomalies(), 1);
    Ok(())
}
