use super::*;
use std::test::*;

fn value(value: u32, used: usize) -> Got<u32> {
    Got::Value { value, used }
}

fn bad(place: usize) -> Got<u32> {
    Got::Bad {
        place,
        reason: Reason::BadNumber,
    }
}

#[test]
fn numbers_of_the_format(rt: HostRuntime) {
    for (bytes, want) in [
        ([0xac, 0x02].as_slice(), value(300, 2)),
        (
            [0xff, 0xff, 0xff, 0xff, 0x0f].as_slice(),
            value(4294967295, 5),
        ),
        ([0x00, 0x07].as_slice(), value(0, 1)),
        ([0x7f].as_slice(), value(127, 1)),
        ([0x80, 0x80, 0x01].as_slice(), value(16384, 3)),
        (
            [0x80, 0xa0, 0x80, 0x80, 0x02].as_slice(),
            value(536875008, 5),
        ),
        ([0x80].as_slice(), Got::Short),
        ([].as_slice(), Got::Short),
        ([0x80, 0x00].as_slice(), bad(1)),
        ([0xff, 0xff, 0xff, 0xff, 0x10].as_slice(), bad(4)),
    ] {
        assert_eq!(rt; get_u32(bytes), want, "at {bytes:?}");
    }
}

#[test]
fn the_text_of_the_error(rt: HostRuntime) -> Result<(), Fail> {
    let alloc = rt.alloc();
    assert_eq!(rt; format!(in alloc; "{NoMemory}")?.as_str(), "no memory");
    Ok(())
}

#[test]
fn numbers_added(rt: HostRuntime) {
    for (v, want) in [
        (0, [0x00].as_slice()),
        (127, [0x7f].as_slice()),
        (128, [0x80, 0x01].as_slice()),
        (257, [0x81, 0x02].as_slice()),
        (300, [0xac, 0x02].as_slice()),
        (16384, [0x80, 0x80, 0x01].as_slice()),
        (1000000, [0xc0, 0x84, 0x3d].as_slice()),
        (536870912, [0x80, 0x80, 0x80, 0x80, 0x02].as_slice()),
        (4294967295, [0xff, 0xff, 0xff, 0xff, 0x0f].as_slice()),
    ] {
        let mut out = Buf::new();
        put_u32(v, &mut out);
        assert_eq!(rt; out.as_slice(), want, "of {v}");
        put_u32(0, &mut out);
        assert_eq!(rt; out.len(), want.len() + 1, "behind {v}");
    }
}

#[test]
fn ticks_between(rt: HostRuntime) {
    for (now, last, want) in [
        (4294967312, 4294967280, 32),
        (7, 7, 0),
        (4294967295, 0, 4294967295),
        (4294967296, 0, 0),
        (18446744073709551615, 1, 4294967294),
    ] {
        assert_eq!(rt; delta(now, last), want, "from {last} to {now}");
    }
}

#[test]
fn texts_added(rt: HostRuntime) {
    let long = [0x41; 128];
    for (text, want) in [
        ([].as_slice(), [0x00].as_slice()),
        ([0x4f, 0x53].as_slice(), [0x02, 0x4f, 0x53].as_slice()),
    ] {
        let mut out = Buf::new();
        put_text(text, &mut out);
        assert_eq!(rt; out.as_slice(), want, "of {text:?}");
    }
    let mut out = Buf::new();
    put_text(&long, &mut out);
    assert_eq!(rt; out.as_slice()[0], 0x80);
    assert_eq!(rt; &out.as_slice()[1..], long.as_slice());
}

#[test]
fn lists_that_own_their_memory(rt: HostRuntime) -> Result<(), Fail> {
    let alloc = rt.alloc();
    let bytes = Bytes::new(alloc, &[0x4f, 0x53])?;
    assert_eq!(rt; bytes.bytes(), [0x4f, 0x53].as_slice());
    let numbers = Numbers::new(alloc, &[7, 4294967295])?;
    assert_eq!(rt; numbers.numbers(), [7, 4294967295].as_slice());
    assert!(rt; numbers != Numbers::new(alloc, &[7])?);
    Ok(())
}

#[test]
fn texts_at_the_front(rt: HostRuntime) -> Result<(), Fail> {
    for (bytes, want) in [
        (
            [0x02, 0x4f, 0x53, 0x05].as_slice(),
            Got::Value {
                value: TextAt { start: 1, len: 2 },
                used: 3,
            },
        ),
        (
            [0x00].as_slice(),
            Got::Value {
                value: TextAt { start: 1, len: 0 },
                used: 1,
            },
        ),
        ([].as_slice(), Got::Short),
        ([0x02, 0x4f].as_slice(), Got::Short),
        ([0xff, 0xff].as_slice(), Got::Short),
        ([0xff, 0x00, 0x01, 0x41].as_slice(), Got::Short),
        (
            [0xff, 0xfe, 0x00].as_slice(),
            Got::Bad {
                place: 2,
                reason: Reason::BadText,
            },
        ),
    ] {
        assert_eq!(rt; get_text(bytes), want, "at {bytes:?}");
    }
    let mut long = [0xff, 0xff, 0x00].as_slice().to_vec(rt.alloc())?;
    long.resize(300, 0x41)?;
    assert_eq!(rt;
        get_text(long.as_slice()),
        Got::Value {
            value: TextAt { start: 3, len: 255 },
            used: 258
        }
    );
    Ok(())
}

#[test]
fn identifiers_shrunk(rt: HostRuntime) {
    for (id, base, shift, want) in [
        (536871940, 536870912, 2, 257),
        (536870908, 536870912, 2, 1073741823),
        (536870908, 536870912, 0, 4294967292),
        (2684354560, 536870912, 31, 1),
        (4294967295, 0, 0, 4294967295),
    ] {
        assert_eq!(rt; shrink(id, base, shift), want, "of {id}");
        assert_eq!(rt; unshrink(want, base, shift), id, "of {want}");
        assert!(rt; aligned(id, base, shift), "of {id}");
    }
    assert_eq!(rt; shrink(536871941, 536870912, 2), 257);
    assert!(rt; !aligned(536871941, 536870912, 2));
}
