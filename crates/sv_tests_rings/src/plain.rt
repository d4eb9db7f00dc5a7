ghost use Rattle.std.specs.Prelude.{◌+◌, ◌<◌, ◌≤◌, length};

use std::alloc::{AllocError, Global};
use std::process::Abort;
use std::test::*;
use sv_ring::*;

/// A ring of 64 bytes, for 1,000 bytes in all.
fn small_ring(alloc: Global) -> Result<PlainRing, Fail> {
    PlainRing::new(alloc, 64, 1_000)
        .ok()
        .ok_or("no memory")
        .map_err(Fail::from)
}

/// Stores the block, which must not be empty and not pass the limit.
fn store(rt: &impl Abort, ring: &mut PlainRing, block: &[u8]) -> Wrote {
    assert!(rt; !block.is_empty());
    assert!(rt; ring.bytes().len() + block.len() <= ring.limit() as usize);
    ring.write_skip(block)
}

/// Takes bytes into a buffer of this length, and adds them to what was taken before.
fn take_after(
    alloc: Global,
    ring: &mut PlainRing,
    length: usize,
    taken: &mut Vec<u8>,
) -> Result<usize, AllocError> {
    let mut buf = Vec::new(alloc);
    buf.resize(length, 0)?;
    let count = ring.take(&mut buf);
    buf.truncate(count);
    taken.extend_from_slice(&buf)?;
    Ok(count)
}

/// Stores the block and reads into the buffer, through the bounds alone.
fn pass<T: UpWriter + UpReader>(ring: &mut T, block: &[u8], buf: &mut [u8]) -> (Wrote, usize)
    requires block { 0 < length block.now }
    requires within { length (T.sent ring.old) + length block.now ≤ T.UpWriter.limit ring.old }
    requires buf { 0 < length buf.old }
{
    let wrote = ring.write_skip(block);
    (wrote, ring.read(buf))
}

#[test]
fn a_block_is_stored_whole_or_refused(rt: HostRuntime) -> Result<(), Fail> {
    let alloc = rt.alloc();
    let mut ring = small_ring(alloc)?;
    let mut block = Vec::new(alloc);
    for byte in 0..64u8 {
        block.push(byte)?;
    }
    assert_eq!(rt; store(&rt, &mut ring, &block), Wrote::Refused { room: 63 });
    block.truncate(63);
    assert_eq!(rt; store(&rt, &mut ring, &block), Wrote::Stored);
    assert_eq!(rt; store(&rt, &mut ring, &[99]), Wrote::Refused { room: 0 });

    // Ten bytes make room for ten, and not for eleven.
    let mut taken = Vec::new(alloc);
    assert_eq!(rt; take_after(alloc, &mut ring, 10, &mut taken)?, 10);
    assert_eq!(rt; ring.freed(), 10);
    assert_eq!(rt;
        store(&rt, &mut ring, &[100; 11]),
        Wrote::Refused { room: 10 }
    );
    assert_eq!(rt; store(&rt, &mut ring, &[100; 10]), Wrote::Stored);

    // What is left comes in order, and then nothing more.
    assert_eq!(rt; take_after(alloc, &mut ring, 64, &mut taken)?, 63);
    assert_eq!(rt; take_after(alloc, &mut ring, 64, &mut taken)?, 0);
    block.extend_from_slice(&[100; 10])?;
    assert_eq!(rt; taken.as_slice(), block.as_slice());
    assert_eq!(rt; ring.bytes(), block.as_slice());
    assert_eq!(rt; ring.freed(), 73);
    assert_eq!(rt; ring.into_bytes().as_slice(), block.as_slice());
    Ok(())
}

#[test]
fn a_ring_through_its_bounds(rt: HostRuntime) -> Result<(), Fail> {
    let mut ring = small_ring(rt.alloc())?;
    assert_eq!(rt; (ring.size(), ring.limit()), (64, 1_000));
    let mut buf = [7; 4];
    assert!(rt; ring.bytes().is_empty() && ring.limit() == 1_000);
    assert_eq!(rt; pass(&mut ring, &[1, 2, 3], &mut buf), (Wrote::Stored, 3));
    assert_eq!(rt; buf, [1, 2, 3, 7]);
    assert_eq!(rt; ring.freed(), 3);
    Ok(())
}

/// Sends the command and takes a byte, through the bounds alone.
fn ask<T: DownWriter + DownReader>(ring: &mut T, command: &[u8]) -> Option<u8>
    requires some { 0 < length command.now }
    requires most { length command.now ≤ 2 }
    requires within { length (T.DownWriter.asked ring.old) + length command.now ≤ 512 }
{
    ring.send(command);
    ring.next()
}

#[test]
fn a_command_comes_once_and_then_none(rt: HostRuntime) {
    let mut ring = PlainDown::new();
    assert_eq!(rt; ask(&mut ring, &[7]), Some(7));
    assert_eq!(rt; ring.next(), None);
    let mut ring = PlainDown::new();
    ring.ask(&[128, 0]);
    ring.ask(&[9]);
    for want in [Some(128), Some(0), Some(9), None, None] {
        assert_eq!(rt; ring.next(), want);
    }
}
