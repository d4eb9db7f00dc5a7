use std::alloc::Global;
use std::test::*;
use sv_latency::*;
use sv_packet::decode_ref;
use sv_prim::Got;

const BEGIN: [u8; 4] = [0x0a, 0, 0, 0];

const LOST: [u8; 4] = [0x01, 1, 0, 0];

const STOP: [u8; 4] = [0x05, 0, 0, 0];

const START_1: [u8; 4] = [0x04, 1, 0, 0];

const START_3: [u8; 4] = [0x04, 3, 0, 0];

const READY_1: [u8; 4] = [0x06, 1, 0, 0];

const READY_3: [u8; 4] = [0x06, 3, 0, 0];

const UNREADY_1: [u8; 4] = [0x07, 1, 0, 0];

/// The times of each task after packets at these times.
fn times_after(alloc: Global, packets: &[(u64, [u8; 4])]) -> Result<Vec<TaskTimes>, Fail> {
    let mut latency = Latency::new(alloc);
    let mut last = 0;
    let mut count = 0_u64;
    for (time, packet) in packets {
        let Got::Value { value, .. } = decode_ref(packet) else {
            return Err(Fail::from("no packet"));
        };
        if *time < last || count == 16 {
            return Err(Fail::from("packets out of order, or too many"));
        }
        latency.apply(*time, &value.event)?;
        last = *time;
        count += 1;
    }
    Ok(latency.tasks().to_vec(alloc)?)
}

/// The times of a task: starts by their classes, and the least, longest and sum of the waits.
fn times(task: u32, starts: [u64; 4], waits: [u64; 3]) -> TaskTimes {
    let [starts, measured, resumed, unknown] = starts;
    let [least, most, sum] = waits;
    TaskTimes {
        task,
        starts,
        measured,
        least,
        most,
        sum,
        resumed,
        unknown,
    }
}

#[test]
fn times_of_tasks(rt: HostRuntime) -> Result<(), Fail> {
    let alloc = rt.alloc();
    for (name, packets, expected) in [
        ("nothing", [].as_slice(), [].as_slice()),
        (
            "first start after the recording begins",
            &[(0, BEGIN), (0, START_1)],
            &[times(1, [1, 0, 0, 1], [0, 0, 0])],
        ),
        (
            "start on both sides of lost packets",
            &[(0, BEGIN), (0, START_1), (10, LOST), (20, START_1)],
            &[times(1, [2, 0, 0, 2], [0, 0, 0])],
        ),
        (
            "ready before lost packets",
            &[(5, READY_1), (6, LOST), (13, START_1)],
            &[times(1, [1, 0, 0, 1], [0, 0, 0])],
        ),
        (
            "measured, resumed, made unready",
            &[
                (0, BEGIN),
                (5, READY_1),
                (9, START_1),
                (12, STOP),
                (14, START_1),
                (15, READY_1),
                (16, UNREADY_1),
                (18, START_1),
            ],
            &[times(1, [3, 1, 2, 0], [4, 4, 4])],
        ),
        (
            "ready twice",
            &[(5, READY_1), (9, READY_1), (13, START_1)],
            &[times(1, [1, 1, 0, 0], [4, 4, 4])],
        ),
        (
            "tasks in order, one never started",
            &[
                (0, READY_3),
                (1, READY_1),
                (2, START_3),
                (3, READY_3),
                (9, START_3),
            ],
            &[
                times(1, [0, 0, 0, 0], [0, 0, 0]),
                times(3, [2, 2, 0, 0], [2, 6, 8]),
            ],
        ),
    ] {
        let got = times_after(alloc, packets)?;
        assert_eq!(rt; got.as_slice(), expected, "{name}");
    }
    Ok(())
}
