use super::*;
use std::alloc::{AllocError, Global};
use std::test::*;

/// Three files, two of them with one name.
fn some_files(alloc: Global) -> Result<Vec<(String, Vec<u8>)>, AllocError> {
    let mut files = Vec::new(alloc);
    for (name, bytes) in [
        ("a", [1, 2, 3, 4, 5].as_slice()),
        ("a", [6].as_slice()),
        ("b", [].as_slice()),
    ] {
        files.push((String::from_str(alloc, name)?, bytes.to_vec(alloc)?))?;
    }
    Ok(files)
}

#[test]
fn a_source_fails_where_it_is_told_to(rt: HostRuntime) -> Result<(), Fail> {
    let alloc = rt.alloc();
    for (fails, name, limit, want) in [
        ([].as_slice(), "a", 5, Ok([1, 2, 3, 4, 5].as_slice())),
        ([].as_slice(), "a", 4, Err(ReadAll::TooLong)),
        ([].as_slice(), "b", 0, Ok([].as_slice())),
        ([].as_slice(), "c", 5, Err(ReadAll::Failed)),
        ([1].as_slice(), "a", 5, Err(ReadAll::Failed)),
        ([2].as_slice(), "a", 5, Err(ReadAll::Failed)),
        ([3].as_slice(), "a", 5, Err(ReadAll::Failed)),
        ([4].as_slice(), "a", 5, Ok([1, 2, 3, 4, 5].as_slice())),
    ] {
        let mut src = MemSource::new(some_files(alloc)?, fails.to_vec(alloc)?);
        let got = match src.begin(name) {
            Ok(()) => read_all(alloc, &mut src, limit),
            Err(Failed) => Err(ReadAll::Failed),
        };
        match got {
            Ok(bytes) => {
                assert_eq!(rt;
                    Ok(bytes.as_slice()),
                    want,
                    "{name} to {limit}, {fails:?} failing"
                )
            }
            Err(fault) => {
                assert_eq!(rt; Err(fault), want, "{name} to {limit}, {fails:?} failing")
            }
        }
    }
    Ok(())
}

#[test]
fn a_buffer_is_filled_as_far_as_the_file_goes(rt: HostRuntime) -> Result<(), Fail> {
    let alloc = rt.alloc();
    for (fails, name, want) in [
        ([].as_slice(), "a", [Ok(3), Ok(2)]),
        ([].as_slice(), "b", [Ok(0), Err(Failed)]),
        ([2].as_slice(), "a", [Err(Failed), Err(Failed)]),
        ([3].as_slice(), "a", [Ok(3), Err(Failed)]),
        ([4].as_slice(), "a", [Ok(3), Err(Failed)]),
    ] {
        let mut src = MemSource::new(some_files(alloc)?, fails.to_vec(alloc)?);
        assert_eq!(rt; src.begin(name), Ok(()));
        let mut buf = [0; 3];
        let first = fill(&mut src, &mut buf);
        assert_eq!(rt; first, want[0], "the first of {name}, {fails:?} failing");
        if first == Ok(3) {
            assert_eq!(rt; buf, [1, 2, 3]);
            assert_eq!(rt;
                fill(&mut src, &mut buf),
                want[1],
                "the second of {name}, {fails:?} failing"
            );
        }
    }
    Ok(())
}

#[test]
fn a_sink_takes_what_there_is_room_for(rt: HostRuntime) -> Result<(), Fail> {
    let alloc = rt.alloc();
    for (room, fails, want, bytes) in [
        (
            3,
            [].as_slice(),
            [Ok(2), Ok(1), Err(Failed)],
            [1, 2, 3].as_slice(),
        ),
        (
            9,
            [2].as_slice(),
            [Ok(2), Err(Failed), Ok(1)],
            [1, 2, 5].as_slice(),
        ),
        (
            9,
            [1, 3].as_slice(),
            [Err(Failed), Ok(2), Err(Failed)],
            [3, 4].as_slice(),
        ),
        (
            0,
            [].as_slice(),
            [Err(Failed), Err(Failed), Err(Failed)],
            [].as_slice(),
        ),
    ] {
        let mut sink = MemSink::new(alloc, room, fails.to_vec(alloc)?)
            .ok()
            .ok_or("no memory")?;
        let got = [sink.write(&[1, 2]), sink.write(&[3, 4]), sink.write(&[5])];
        assert_eq!(rt; got, want, "room for {room}, {fails:?} failing");
        assert_eq!(rt; sink.bytes(), bytes, "room for {room}, {fails:?} failing");
    }
    Ok(())
}

#[test]
fn a_fault_leaves_what_was_written_before_it(rt: HostRuntime) -> Result<(), Fail> {
    let alloc = rt.alloc();
    for (room, fails, want, bytes) in [
        (4, [2].as_slice(), Ok(()), [1, 2, 3, 4].as_slice()),
        (4, [1].as_slice(), Err(Failed), [].as_slice()),
        (2, [2].as_slice(), Err(Failed), [1, 2].as_slice()),
    ] {
        let mut sink = MemSink::new(alloc, room, fails.to_vec(alloc)?)
            .ok()
            .ok_or("no memory")?;
        let got = put_all(&mut sink, &[1, 2, 3, 4]);
        assert_eq!(rt; got, want, "room for {room}, {fails:?} failing");
        assert_eq!(rt; sink.bytes(), bytes, "room for {room}, {fails:?} failing");
    }
    Ok(())
}

#[test]
fn devices_and_the_texts_of_errors(rt: HostRuntime) -> Result<(), Fail> {
    let alloc = rt.alloc();
    assert_eq!(rt; FileSource::new(rt).begin("no/such/file"), Err(Failed));
    assert_eq!(rt; OutSink::new(rt, Stream::Err).write(&[0xff]), Err(Failed));
    assert_eq!(rt;
        put_all(&mut OutSink::new(rt, Stream::Out), b"a line\n"),
        Ok(())
    );
    assert_eq!(rt;
        format!(in alloc; "{Failed}")?.as_str(),
        "the device failed"
    );
    for (fault, text) in [
        (ReadAll::Failed, "the device failed"),
        (ReadAll::TooLong, "longer than the limit"),
        (ReadAll::NoMemory, "no memory"),
    ] {
        assert_eq!(rt; format!(in alloc; "{fault}")?.as_str(), text);
    }
    Ok(())
}

/// Passes a gate as a writer and as a host, through the bound alone.
fn pass<G: Gate>(gate: &G) {
    gate.before_step(15);
    gate.before_read(u64::MAX);
}

#[test]
fn an_open_gate_holds_nobody(_rt: HostRuntime) {
    pass(&OpenGate);
}
