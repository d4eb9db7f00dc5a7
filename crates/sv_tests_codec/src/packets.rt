ghost use Rattle.std.specs.Prelude.{◌≡◌, ◌≤◌, IfOk};

use std::alloc::Global;
use std::process::Abort;
use std::test::*;
use sv_packet::*;
use sv_prim::{Buf, Bytes, NoMemory, Numbers};

/// The event is taken, and both ways of forming its packet give these bytes.
fn formed(
    rt: &impl Abort,
    alloc: Global,
    event: Event,
    delta: u32,
    want: &[u8],
) -> Result<(), Fail> {
    assert!(rt; recordable(&event), "{event:?}");
    let mut out = Buf::new();
    encode(&event, delta, &mut out);
    assert_eq!(rt; out.as_slice(), want, "of {event:?}");
    let mut list = Vec::new(alloc);
    list.push(0xaa)?;
    spell(&event, delta, &mut list)?;
    assert_eq!(rt; &list.as_slice()[1..], want, "of {event:?}");
    Ok(())
}

#[test]
fn packets_of_numbers(rt: HostRuntime) -> Result<(), Fail> {
    let alloc = rt.alloc();
    formed(&rt, alloc, Event::TraceStart, 0, &[0x0a, 0x00])?;
    formed(
        &rt,
        alloc,
        Event::MarkStart { id: 5 },
        0,
        &[0x0f, 0x05, 0x00],
    )?;
    formed(
        &rt,
        alloc,
        Event::TaskStart { task: 257 },
        32,
        &[0x04, 0x81, 0x02, 0x20],
    )?;
    formed(
        &rt,
        alloc,
        Event::Overflow { count: 512 },
        1,
        &[0x01, 0x80, 0x04, 0x01],
    )?;
    formed(
        &rt,
        alloc,
        Event::NumModules { count: 0 },
        0,
        &[0x1b, 0x01, 0x00, 0x00],
    )?;
    formed(
        &rt,
        alloc,
        Event::EndCall {
            event: 512,
            value: Some(1),
        },
        0,
        &[0x1c, 0x03, 0x80, 0x04, 0x01, 0x00],
    )?;
    formed(&rt, alloc, init(), 0, &INIT)
}

/// The bytes of [`init`] with the delta 0.
const INIT: [u8; 15] = [
    0x18, 0x0c, 0xc0, 0x84, 0x3d, 0xc0, 0x84, 0x3d, 0x80, 0x80, 0x80, 0x80, 0x02, 0x02, 0x00,
];

fn init() -> Event {
    Event::Init {
        sys_freq: 1000000,
        cpu_freq: 1000000,
        ram_base: 536870912,
        shift: 2,
    }
}

#[test]
fn packets_of_texts_and_bytes(rt: HostRuntime) -> Result<(), Fail> {
    let alloc = rt.alloc();
    formed(
        &rt,
        alloc,
        Event::SysDesc {
            text: Bytes::new(alloc, b"OS")?,
        },
        5,
        &[0x0e, 0x02, 0x4f, 0x53, 0x05],
    )?;
    formed(
        &rt,
        alloc,
        Event::TaskInfo {
            task: 1,
            priority: 5,
            name: Bytes::new(alloc, b"M\"\\\n")?,
        },
        0,
        &[0x09, 0x01, 0x05, 0x04, 0x4d, 0x22, 0x5c, 0x0a, 0x00],
    )?;
    formed(
        &rt,
        alloc,
        Event::ModuleDesc {
            module: 0,
            offset: 512,
            text: Bytes::new(alloc, b"M=Net")?,
        },
        0,
        &[
            0x16, 0x00, 0x80, 0x04, 0x05, 0x4d, 0x3d, 0x4e, 0x65, 0x74, 0x00,
        ],
    )?;
    formed(
        &rt,
        alloc,
        print(alloc, &[])?,
        0,
        &[0x1a, 0x05, 0x02, 0x68, 0x69, 0x00, 0x00, 0x00],
    )?;
    formed(
        &rt,
        alloc,
        print(alloc, &[7])?,
        3,
        &[0x1a, 0x06, 0x02, 0x68, 0x69, 0x00, 0x01, 0x07, 0x03],
    )?;
    formed(
        &rt,
        alloc,
        opaque(alloc, 512, &[])?,
        1,
        &[0x80, 0x04, 0x00, 0x01],
    )?;
    formed(
        &rt,
        alloc,
        opaque(alloc, 512, &[0x01, 0xff])?,
        2,
        &[0x80, 0x04, 0x02, 0x01, 0xff, 0x02],
    )
}

fn print(alloc: Global, args: &[u32]) -> Result<Event, NoMemory> {
    Ok(Event::Print {
        text: Bytes::new(alloc, b"hi")?,
        options: 0,
        args: Numbers::new(alloc, args)?,
    })
}

/// An opaque event.
pub fn opaque(alloc: Global, id: u16, payload: &[u8]) -> Result<Event, NoMemory>
    ensures { IfOk result (λ event. event ≡ Event.Opaque id payload.now) }
{
    Ok(Event::Opaque {
        id,
        payload: Bytes::new(alloc, payload)?,
    })
}

#[test]
fn flat_packets(rt: HostRuntime) {
    let mut out = Buf::new();
    encode_flat(24, &[1000000, 1000000, 536870912, 2], &[], 0, &mut out);
    assert_eq!(rt; out.as_slice(), INIT.as_slice());
    out.clear();
    encode_flat(22, &[0, 512], b"M=Net", 0, &mut out);
    assert_eq!(rt;
        out.as_slice(),
        [
            0x16, 0x00, 0x80, 0x04, 0x05, 0x4d, 0x3d, 0x4e, 0x65, 0x74, 0x00
        ]
        .as_slice()
    );
    out.clear();
    encode_flat(14, &[], b"OS", 5, &mut out);
    assert_eq!(rt; out.as_slice(), [0x0e, 0x02, 0x4f, 0x53, 0x05].as_slice());
    out.clear();
    encode_flat(1, &[512], &[], 1, &mut out);
    assert_eq!(rt; out.as_slice(), [0x01, 0x80, 0x04, 0x01].as_slice());
    out.clear();
    encode_flat(10, &[], &[], 0, &mut out);
    assert_eq!(rt; out.as_slice(), [0x0a, 0x00].as_slice());
}

/// A print of so many zeros.
fn print_of(alloc: Global, count: usize) -> Result<Event, Fail> {
    let mut args = Vec::new(alloc);
    args.resize(count, 0)?;
    Ok(print(alloc, args.as_slice())?)
}

/// A resource's name of so many bytes.
fn name_of(alloc: Global, len: usize) -> Result<Event, Fail> {
    let mut text = Vec::new(alloc);
    text.resize(len, 0x41)?;
    Ok(Event::NameResource {
        resource: 0,
        text: Bytes::new(alloc, text.as_slice())?,
    })
}

/// An opaque event of so many bytes, which are no form.
fn opaque_of(alloc: Global, id: u16, len: usize) -> Result<Event, Fail> {
    let mut payload = Vec::new(alloc);
    payload.resize(len, 0xff)?;
    Ok(opaque(alloc, id, payload.as_slice())?)
}

#[test]
fn what_a_recorder_takes(rt: HostRuntime) -> Result<(), Fail> {
    let alloc = rt.alloc();
    assert!(rt; recordable(&print_of(alloc, 8)?));
    assert!(rt; !recordable(&print_of(alloc, 9)?));
    assert!(rt; recordable(&name_of(alloc, 128)?));
    assert!(rt; !recordable(&name_of(alloc, 129)?));
    for (id, len, want) in [
        (24, 64, true),
        (24, 65, false),
        (16383, 64, true),
        (16384, 64, false),
        (23, 64, false),
        (0, 0, false),
        (30, 0, true),
    ] {
        assert_eq!(rt;
            recordable(&opaque_of(alloc, id, len)?),
            want,
            "at {id} and {len}"
        );
    }
    Ok(())
}

#[test]
fn payloads_that_are_forms(rt: HostRuntime) -> Result<(), Fail> {
    let alloc = rt.alloc();
    let form = &INIT[2..14];
    assert!(rt; !recordable(&opaque(alloc, 24, form)?));
    assert!(rt; recordable(&opaque(alloc, 25, form)?));
    assert!(rt; recordable(&opaque(alloc, 30, form)?));
    assert!(rt; !recordable(&opaque(alloc, 28, &[0x80, 0x04, 0x01])?));
    assert!(rt; recordable(&opaque(alloc, 28, &[0x80, 0x04, 0x01, 0x00])?));
    let longer = [
        0xc0, 0x84, 0x3d, 0xc0, 0x84, 0x3d, 0x80, 0x80, 0x80, 0x80, 0x02, 0x02, 0x07,
    ];
    formed(
        &rt,
        alloc,
        opaque(alloc, 24, &longer)?,
        0,
        &[
            0x18, 0x0d, 0xc0, 0x84, 0x3d, 0xc0, 0x84, 0x3d, 0x80, 0x80, 0x80, 0x80, 0x02, 0x02,
            0x07, 0x00,
        ],
    )
}
