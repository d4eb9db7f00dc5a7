use std::alloc::Global;
use std::process::Abort;
use std::test::*;
use sv_packet::*;
use sv_prim::{Bytes, Got, Numbers, Reason};

/// The bytes begin with this packet, of so many of them.
fn found(
    rt: &impl Abort,
    alloc: Global,
    bytes: &[u8],
    event: Event,
    delta: u32,
    used: usize,
) -> Result<(), Fail> {
    let want = Got::Value {
        value: Packet { event, delta },
        used,
    };
    assert_eq!(rt; decode(alloc, bytes)?, want, "of {bytes:?}");
    Ok(())
}

/// What an INIT packet of 15 bytes tells.
const INIT: [u8; 15] = [
    0x18, 0x0c, 0xc0, 0x84, 0x3d, 0xc0, 0x84, 0x3d, 0x80, 0x80, 0x80, 0x80, 0x02, 0x02, 0x00,
];

fn init() -> Event {
    Event::Init {
        sys_freq: 1000000,
        cpu_freq: 1000000,
        ram_base: 536870912,
        shift: 2,
    }
}

#[test]
fn packets_without_a_length(rt: HostRuntime) -> Result<(), Fail> {
    let alloc = rt.alloc();
    found(&rt, alloc, &[0x0a, 0x00], Event::TraceStart, 0, 2)?;
    found(
        &rt,
        alloc,
        &[0x04, 0x81, 0x02, 0x20, 0x17],
        Event::TaskStart { task: 257 },
        32,
        4,
    )?;
    found(
        &rt,
        alloc,
        &[0x07, 0x01, 0x00, 0x01],
        Event::TaskUnready { task: 1, cause: 0 },
        1,
        4,
    )?;
    found(
        &rt,
        alloc,
        &[0x15, 0x01, 0x02, 0x80, 0x04, 0x00, 0x03],
        Event::StackInfo {
            task: 1,
            stack_base: 2,
            stack_size: 512,
            extra: 0,
        },
        3,
        7,
    )?;
    found(
        &rt,
        alloc,
        &[0x0e, 0x02, 0x4f, 0x53, 0x05],
        Event::SysDesc {
            text: Bytes::new(alloc, b"OS")?,
        },
        5,
        5,
    )?;
    found(
        &rt,
        alloc,
        &[0x09, 0x01, 0x05, 0x04, 0x4d, 0x22, 0x5c, 0x0a, 0x00],
        Event::TaskInfo {
            task: 1,
            priority: 5,
            name: Bytes::new(alloc, b"M\"\\\n")?,
        },
        0,
        9,
    )
}

#[test]
fn packets_with_a_length(rt: HostRuntime) -> Result<(), Fail> {
    let alloc = rt.alloc();
    found(&rt, alloc, &INIT, init(), 0, 15)?;
    found(
        &rt,
        alloc,
        &[0x1a, 0x06, 0x02, 0x68, 0x69, 0x00, 0x01, 0x07, 0x03],
        Event::Print {
            text: Bytes::new(alloc, b"hi")?,
            options: 0,
            args: Numbers::new(alloc, &[7])?,
        },
        3,
        9,
    )?;
    found(
        &rt,
        alloc,
        &[0x1a, 0x05, 0x02, 0x68, 0x69, 0x00, 0x00, 0x00],
        Event::Print {
            text: Bytes::new(alloc, b"hi")?,
            options: 0,
            args: Numbers::new(alloc, &[])?,
        },
        0,
        8,
    )?;
    found(
        &rt,
        alloc,
        &[0x1c, 0x03, 0x80, 0x04, 0x01, 0x00],
        Event::EndCall {
            event: 512,
            value: Some(1),
        },
        0,
        6,
    )?;
    found(
        &rt,
        alloc,
        &[0x1c, 0x02, 0x80, 0x04, 0x00],
        Event::EndCall {
            event: 512,
            value: None,
        },
        0,
        5,
    )?;
    found(
        &rt,
        alloc,
        &[0x80, 0x04, 0x00, 0x01],
        Event::Opaque {
            id: 512,
            payload: Bytes::new(alloc, &[])?,
        },
        1,
        4,
    )
}

#[test]
fn payloads_that_are_no_form(rt: HostRuntime) -> Result<(), Fail> {
    let alloc = rt.alloc();
    let longer = [
        0x18, 0x0d, 0xc0, 0x84, 0x3d, 0xc0, 0x84, 0x3d, 0x80, 0x80, 0x80, 0x80, 0x02, 0x02, 0x07,
        0x00,
    ];
    for (bytes, id, size) in [
        (longer.as_slice(), 24, 13),
        ([0x18, 0x02, 0x80, 0x00, 0x00].as_slice(), 24, 2),
        ([0x19, 0x03, 0x05, 0x02, 0x41, 0x00].as_slice(), 25, 3),
        ([0x1a, 0x04, 0x00, 0x00, 0x02, 0x01, 0x00].as_slice(), 26, 4),
        ([0x1c, 0x00, 0x00].as_slice(), 28, 0),
    ] {
        let event = Event::Opaque {
            id,
            payload: Bytes::new(alloc, &bytes[2..bytes.len() - 1])?,
        };
        found(&rt, alloc, bytes, event, 0, size + 3)?;
    }
    Ok(())
}

#[test]
fn lengths_in_one_byte_and_two(rt: HostRuntime) -> Result<(), Fail> {
    let alloc = rt.alloc();
    for (size, front) in [
        (127, [0x1e, 0x7f].as_slice()),
        (128, [0x1e, 0x80, 0x01].as_slice()),
    ] {
        let mut payload = Vec::new(alloc);
        payload.resize(size, 0x41)?;
        let mut bytes = front.to_vec(alloc)?;
        bytes.extend_from_slice(payload.as_slice())?;
        assert_eq!(rt; decode(alloc, bytes.as_slice())?, Got::Short, "of {size}");
        bytes.push(0x05)?;
        let event = Event::Opaque {
            id: 30,
            payload: Bytes::new(alloc, payload.as_slice())?,
        };
        found(&rt, alloc, bytes.as_slice(), event, 5, bytes.len())?;
    }
    Ok(())
}

#[test]
fn prefixes_of_a_packet(rt: HostRuntime) -> Result<(), Fail> {
    let alloc = rt.alloc();
    for size in 0..INIT.len() {
        assert_eq!(rt; decode(alloc, &INIT[..size])?, Got::Short, "of {size}");
    }
    Ok(())
}

#[test]
fn refused_for_the_element_of_the_byte(rt: HostRuntime) -> Result<(), Fail> {
    let alloc = rt.alloc();
    for (bytes, place, reason) in [
        ([0x17].as_slice(), 0, Reason::BadId),
        ([0x9c, 0x00].as_slice(), 1, Reason::BadId),
        ([0x9c, 0x80].as_slice(), 1, Reason::BadId),
        ([0x18, 0x80, 0x00].as_slice(), 2, Reason::BadLength),
        ([0x0e, 0xff, 0xfe, 0x00].as_slice(), 3, Reason::BadText),
        ([0x16, 0x00, 0x80, 0x00].as_slice(), 3, Reason::BadNumber),
        (
            [0x1e, 0x01, 0x80, 0x80, 0x00].as_slice(),
            4,
            Reason::BadNumber,
        ),
        ([0x0e, 0x00, 0x80, 0x00].as_slice(), 3, Reason::BadNumber),
    ] {
        let want = Got::Bad { place, reason };
        assert_eq!(rt; decode(alloc, bytes)?, want, "of {bytes:?}");
    }
    Ok(())
}
