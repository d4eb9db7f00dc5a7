ghost use Rattle.std.specs.Prelude.{◌≡◌, ◌+◌, ◌^◌, ◌<◌, ◌≤◌, [], length, IfOk};

use std::alloc::Global;
use std::sync::Wait;
use std::test::*;
use std::thread;
use sv_prim::NoMemory;
use sv_ring::{Dock, DownReader, DownWriter, Ends, UpReader, UpWriter, Wrote};
use sv_ring_rtrb::*;

type RtrbEnds = Ends<RtrbUp, RtrbHost, RtrbDown, RtrbTarget>;

/// New rings, of which nothing is known but that the ends fit each other and nothing was sent.
fn rings(alloc: Global, size: u32, limit: u64) -> Result<RtrbEnds, Fail>
    requires size { (64 ≤ size) × (size ≤ 65536) }
    requires limit { limit ≤ 2 ^ 33 }
    ensures up { IfOk result (λ e. e.up.name ≡ e.host.name) }
    ensures down { IfOk result (λ e. e.down.name ≡ e.target.name) }
    ensures sent { IfOk result (λ e. e.up.sent ≡ []) }
    ensures asked { IfOk result (λ e. e.down.asked ≡ []) }
{
    match RtrbDock::new().make(alloc, size, limit) {
        Ok(ends) => Ok(ends),
        Err(_) => Err(Fail::from("no memory")),
    }
}

/// Writes a block if it may be written, and counts what is stored.
fn store<U: UpWriter>(up: &mut U, block: &[u8], stored: &mut u64) -> Option<Wrote>
    requires { stored.old ≡ length (U.sent up.old) }
    ensures stored { stored.new ≡ length (U.sent up.new) }
    ensures ring { U.ring up.new ≡ U.ring up.old }
{
    let limit = up.limit();
    if block.is_empty() || limit < *stored || limit - *stored < block.len() as u64 {
        return None;
    }
    let wrote = up.write_skip(block);
    if let Wrote::Stored = wrote {
        *stored += block.len() as u64;
    }
    Some(wrote)
}

/// Reads until a read gives nothing.
fn read_all(rt: &impl Wait, host: &mut RtrbHost, all: &mut Vec<u8>) -> Result<(), Fail>
    ensures { host.new.name ≡ host.old.name }
{
    for _ in rt.forever() {
        let mut buf = [0; 64];
        let count = host.read(&mut buf);
        if count == 0 {
            return Ok(());
        }
        all.extend_from_slice(&buf[..count])?;
    }
    Ok(())
}

#[test]
fn a_ring_of_64_bytes_in_one_thread(rt: HostRuntime) -> Result<(), Fail> {
    let alloc = rt.alloc();
    let Ends {
        mut up,
        mut host,
        mut down,
        mut target,
    } = rings(alloc, 64, 1_000)?;
    let mut block = Vec::new(alloc);
    for byte in 0..64u8 {
        block.push(byte)?;
    }
    let mut stored = 0;
    assert_eq!(rt;
        store(&mut up, &block, &mut stored),
        Some(Wrote::Refused { room: 63 })
    );
    block.truncate(63);
    assert_eq!(rt; store(&mut up, &block, &mut stored), Some(Wrote::Stored));
    assert_eq!(rt;
        store(&mut up, &[99], &mut stored),
        Some(Wrote::Refused { room: 0 })
    );
    let mut ten = [0; 10];
    assert_eq!(rt; host.read(&mut ten), 10);

    // Across the end of the cells.
    let more = [100, 101, 102, 103, 104, 105, 106, 107, 108, 109];
    assert_eq!(rt; up.freed(), 0);
    assert_eq!(rt; store(&mut up, &more, &mut stored), Some(Wrote::Stored));
    assert_eq!(rt; up.freed(), 10);
    block.extend_from_slice(&more)?;
    let mut all = Vec::new(alloc);
    all.extend_from_slice(&ten)?;
    read_all(&rt, &mut host, &mut all)?;
    assert_eq!(rt; all.as_slice(), block.as_slice());

    down.send(&[7]);
    assert_eq!(rt; target.next(), Some(7));
    assert_eq!(rt; target.next(), None);
    let ends = Ends {
        up,
        host,
        down,
        target,
    };
    let Ok(rest) = RtrbDock::new().settle(alloc, ends) else {
        return Err(Fail::from("no memory"));
    };
    assert!(rt; rest.is_empty());
    Ok(())
}

/// Makes rings, writes a block, sends a command of two bytes and takes one, and settles them.
fn through<D: Dock>(dock: &mut D, alloc: Global, block: &[u8]) -> Result<Vec<u8>, NoMemory>
    requires some { 0 < length block.now }
    requires most { length block.now ≤ 63 }
    ensures { IfOk result (λ r. r.items ≡ block.now) }
{
    let Ends {
        mut up,
        host,
        mut down,
        mut target,
    } = dock.make(alloc, 64, 63)?;
    match up.write_skip(block) {
        Wrote::Stored => {}
        Wrote::Refused { room: _ } => unreachable!(),
    }
    down.send(&[128, 7]);
    let _ = target.next();
    dock.settle(
        alloc,
        Ends {
            up,
            host,
            down,
            target,
        },
    )
}

#[test]
fn a_block_through_the_dock(rt: HostRuntime) -> Result<(), Fail> {
    let Ok(rest) = through(&mut RtrbDock::new(), rt.alloc(), &[3, 1, 2]) else {
        return Err(Fail::from("no memory"));
    };
    assert_eq!(rt; rest.as_slice(), [3, 1, 2].as_slice());
    Ok(())
}

/// The byte at this place of a pattern that does not come round with the cells.
fn byte_at(place: u64) -> u8 {
    (place % 251) as u8
}

/// The bytes of the pattern from this place on.
fn fill_from(block: &mut [u8], place: u64)
    ensures { length block.new ≡ length block.old }
{
    for index in 0..block.len() {
        block[index] = byte_at(place.wrapping_add(index as u64));
    }
}

fn are_from(block: &[u8], place: u64) -> bool {
    let mut good = true;
    for index in 0..block.len() {
        good = good && block[index] == byte_at(place.wrapping_add(index as u64));
    }
    good
}

/// Writes so many bytes of the pattern, in blocks of 1 to 63, each again until it is stored.
fn write_pattern(rt: &impl Wait, up: RtrbUp, count: u64) -> RtrbUp
    requires { up.sent ≡ [] }
    ensures { result.name ≡ up.name }
{
    let mut up = up;
    let mut stored = 0;
    let mut block = [0; 63];
    let mut most = 1;
    for _ in rt.forever() {
        let length = count.saturating_sub(stored).min(most) as usize;
        fill_from(&mut block, stored);
        match store(&mut up, &block[..length.min(63)], &mut stored) {
            Some(Wrote::Stored) => most = most % 63 + 1,
            Some(Wrote::Refused { room: _ }) => thread::yield_now(),
            None => return up,
        }
    }
    up
}

/// Reads so many bytes, and says whether they are those of the pattern.
fn read_pattern(rt: &impl Wait, host: RtrbHost, count: u64) -> (RtrbHost, bool)
    ensures { result.0.name ≡ host.name }
{
    let mut host = host;
    let mut place = 0u64;
    let mut good = true;
    for _ in rt.forever() {
        if count <= place {
            return (host, good);
        }
        let mut buf = [0; 64];
        let found = host.read(&mut buf);
        if found == 0 {
            thread::yield_now();
        }
        good = good && are_from(&buf[..found], place);
        place = place.saturating_add(found as u64);
    }
    (host, good)
}

#[test]
fn many_bytes_between_two_threads(rt: HostRuntime) -> Result<(), Fail> {
    let alloc = rt.alloc();
    let Ends {
        up,
        host,
        down,
        target,
    } = rings(alloc, 64, 100_000)?;
    let (up, (host, good)) = thread::join(
        &rt,
        move || write_pattern(&rt, up, 100_000),
        move || read_pattern(&rt, host, 100_000),
    );
    assert!(rt; good);
    let ends = Ends {
        up,
        host,
        down,
        target,
    };
    let Ok(rest) = RtrbDock::new().settle(alloc, ends) else {
        return Err(Fail::from("no memory"));
    };
    assert!(rt; rest.is_empty());
    Ok(())
}
