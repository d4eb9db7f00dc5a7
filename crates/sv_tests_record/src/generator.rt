use std::alloc::AllocError;
use std::test::*;
use sv_packet::Event;
use sv_workload::*;

/// What a step says, in short: its ticks, the identifier of its packet, 100 for a start, and the
/// number in it.
fn told(step: &Step) -> (u64, u32, u32) {
    let (what, number) = match &step.act {
        Act::Start => (100, 0),
        Act::Event(event) => match event {
            Event::IsrEnter { isr } => (2, *isr),
            Event::IsrExit => (3, 0),
            Event::TaskStart { task } => (4, *task),
            Event::TaskReady { task } => (6, *task),
            Event::MarkStart { id } => (15, *id),
            Event::Idle => (17, 0),
            _ => (99, 0),
        },
        Act::Stop => (101, 0),
    };
    (step.advance, what, number)
}

#[test]
fn the_steps_of_a_number(rt: HostRuntime) -> Result<(), Fail> {
    let alloc = rt.alloc();
    let load = generated(alloc, 8)?;
    assert_eq!(rt; load.writers(), 1);
    let mut steps = Vec::new(alloc);
    if load.writers() > 0 {
        for step in load.steps(0) {
            steps.push(told(step))?;
        }
    }
    assert_eq!(rt;
        steps.as_slice(),
        [
            (0, 100, 0),
            (61, 6, 1),
            (1, 6, 2),
            (76, 3, 0),
            (246, 4, 1),
            (183, 15, 5),
            (154, 17, 0),
            (202, 4, 2),
            (248, 4, 2),
        ]
        .as_slice()
    );
    assert_eq!(rt;
        load.schedule(),
        [Action::Step {
            writer: 0,
            count: 1
        }]
        .as_slice()
    );
    Ok(())
}

#[test]
fn a_round_for_each_64_steps(rt: HostRuntime) -> Result<(), Fail> {
    let alloc = rt.alloc();
    for (n, turns) in [(1, 1), (63, 1), (64, 3), (127, 3), (128, 5), (1000, 31)] {
        let load = generated(alloc, n)?;
        assert_eq!(rt; load.schedule().len(), turns, "{n}");
    }
    Ok(())
}

#[test]
fn what_a_million_steps_need(rt: HostRuntime) -> Result<(), Fail> {
    let load = generated(rt.alloc(), 1000000)?;
    let need = load.need();
    assert_eq!(rt; (need.items, need.bytes), (3000021, 17751244));
    Ok(())
}
