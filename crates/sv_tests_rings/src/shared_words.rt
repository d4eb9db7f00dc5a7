ghost use Rattle.std.specs.Prelude.{◌≡◌, ◌+◌, ◌^◌, ◌<◌, ◌≤◌, [], length, IfOk};

use std::alloc::Global;
use std::process::Abort;
use std::sync::Wait;
use std::test::*;
use std::thread;
use sv_prim::NoMemory;
use sv_ring::{Dock, DownReader, DownWriter, Ends, LogDock, UpReader, UpWriter, Wrote};
use sv_ring_rtt::*;

type RttEnds = Ends<RttUp, RttHost, RttDown, RttTarget>;

/// New rings, of which nothing is known but that the ends fit each other and nothing was sent.
fn rings(alloc: Global, size: u32, limit: u64) -> Result<RttEnds, Fail>
    requires size { (64 ≤ size) × (size ≤ 65536) }
    requires limit { limit ≤ 2 ^ 33 }
    ensures up { IfOk result (λ e. e.up.name ≡ e.host.name) }
    ensures down { IfOk result (λ e. e.down.name ≡ e.target.name) }
    ensures sent { IfOk result (λ e. e.up.writing.sent ≡ []) }
    ensures asked { IfOk result (λ e. e.down.writing.sent ≡ []) }
{
    match RttDock::new().make(alloc, size, limit) {
        Ok(ends) => Ok(ends),
        Err(_) => Err(Fail::from("no memory")),
    }
}

/// Writes a block if it may be written, and counts what is stored.
fn store<U: UpWriter>(up: &mut U, block: &[u8], stored: &mut u64) -> Option<Wrote>
    requires { stored.old ≡ length (U.sent up.old) }
    ensures stored { stored.new ≡ length (U.sent up.new) }
    ensures ring { U.ring up.new ≡ U.ring up.old }
{
    let limit = up.limit();
    if block.is_empty() || limit < *stored || limit - *stored < block.len() as u64 {
        return None;
    }
    let wrote = up.write_skip(block);
    if let Wrote::Stored = wrote {
        *stored += block.len() as u64;
    }
    Some(wrote)
}

/// The byte at this place of a pattern that does not come round with the cells.
fn byte_at(place: u64) -> u8 {
    (place % 251) as u8
}

/// The bytes of the pattern from this place on.
fn fill_from(block: &mut [u8], place: u64)
    ensures { length block.new ≡ length block.old }
{
    for index in 0..block.len() {
        block[index] = byte_at(place.wrapping_add(index as u64));
    }
}

fn are_from(block: &[u8], place: u64) -> bool {
    let mut good = true;
    for index in 0..block.len() {
        good = good && block[index] == byte_at(place.wrapping_add(index as u64));
    }
    good
}

/// Reads until a read gives nothing.
fn read_all(rt: &impl Wait, host: &mut RttHost, all: &mut Vec<u8>) -> Result<(), Fail>
    ensures { host.new.name ≡ host.old.name }
{
    for _ in rt.forever() {
        let mut buf = [0; 64];
        let count = host.read(&mut buf);
        if count == 0 {
            return Ok(());
        }
        all.extend_from_slice(&buf[..count])?;
    }
    Ok(())
}

/// Takes the ends back, and gives the bytes that are left in the up ring.
fn settled(alloc: Global, ends: RttEnds) -> Result<Vec<u8>, Fail>
    requires up { ends.up.name ≡ ends.host.name }
    requires down { ends.down.name ≡ ends.target.name }
{
    match RttDock::new().settle(alloc, ends) {
        Ok(rest) => Ok(rest),
        Err(_) => Err(Fail::from("no memory")),
    }
}

/// Fills an empty ring of 64 bytes with all bytes of a block of 64 but the last.
fn fill_ring(rt: &impl Abort, up: &mut RttUp, block: &[u8], stored: &mut u64)
    requires { stored.old ≡ length up.old.writing.sent }
    ensures stored { stored.new ≡ length up.new.writing.sent }
    ensures name { up.new.name ≡ up.old.name }
{
    assert_eq!(rt; store(up, block, stored), Some(Wrote::Refused { room: 63 }));
    let shorter = &block[..block.len().min(63)];
    assert_eq!(rt; store(up, shorter, stored), Some(Wrote::Stored));
    assert_eq!(rt; store(up, &[99], stored), Some(Wrote::Refused { room: 0 }));
}

/// Takes ten bytes from a full ring of 64, and stores ten more, across the end of its cells.
fn go_round(rt: &impl Abort, up: &mut RttUp, host: &mut RttHost, stored: &mut u64) -> [u8; 10]
    requires { stored.old ≡ length up.old.writing.sent }
    ensures up { up.new.name ≡ up.old.name }
    ensures host { host.new.name ≡ host.old.name }
{
    let mut ten = [0; 10];
    assert_eq!(rt; host.read(&mut ten), 10);
    let mut more = [0; 10];
    fill_from(&mut more, 63);
    assert_eq!(rt; up.freed(), 0);
    assert_eq!(rt; store(up, &more, stored), Some(Wrote::Stored));
    assert_eq!(rt; up.freed(), 10);
    ten
}

/// Sends the command 7, and takes it.
fn ask(rt: &impl Abort, down: &mut RttDown, target: &mut RttTarget)
    requires { down.old.writing.sent ≡ [] }
    ensures down { down.new.name ≡ down.old.name }
    ensures target { target.new.name ≡ target.old.name }
{
    down.send(&[7]);
    assert_eq!(rt; target.next(), Some(7));
    assert_eq!(rt; target.next(), None);
}

#[test]
fn a_ring_of_64_bytes_in_one_thread(rt: HostRuntime) -> Result<(), Fail> {
    let alloc = rt.alloc();
    let Ends {
        mut up,
        mut host,
        mut down,
        mut target,
    } = rings(alloc, 64, 1_000)?;
    let mut stored = 0;
    let mut block = [0; 64];
    fill_from(&mut block, 0);
    fill_ring(&rt, &mut up, &block, &mut stored);
    let mut all = Vec::new(alloc);
    all.extend_from_slice(&go_round(&rt, &mut up, &mut host, &mut stored))?;
    read_all(&rt, &mut host, &mut all)?;
    assert_eq!(rt; all.len(), 73);
    assert!(rt; are_from(&all, 0));
    ask(&rt, &mut down, &mut target);
    let ends = Ends {
        up,
        host,
        down,
        target,
    };
    assert!(rt; settled(alloc, ends)?.is_empty());
    Ok(())
}

/// Makes rings, writes a block, sends a command of two bytes and takes one, and settles them.
fn through<D: Dock>(dock: &mut D, alloc: Global, block: &[u8]) -> Result<Vec<u8>, NoMemory>
    requires some { 0 < length block.now }
    requires most { length block.now ≤ 63 }
    ensures { IfOk result (λ r. r.items ≡ block.now) }
{
    let Ends {
        mut up,
        host,
        mut down,
        mut target,
    } = dock.make(alloc, 64, 63)?;
    match up.write_skip(block) {
        Wrote::Stored => {}
        Wrote::Refused { room: _ } => unreachable!(),
    }
    down.send(&[128, 7]);
    let _ = target.next();
    dock.settle(
        alloc,
        Ends {
            up,
            host,
            down,
            target,
        },
    )
}

#[test]
fn a_dock_over_it_tells_the_story(rt: HostRuntime) -> Result<(), Fail> {
    let alloc = rt.alloc();
    let mut dock = LogDock::new(alloc, RttDock::new());
    assert!(rt; dock.story().is_none());
    let Ok(rest) = through(&mut dock, alloc, &[3, 1, 2]) else {
        return Err(Fail::from("no memory"));
    };
    assert_eq!(rt; rest.as_slice(), [3, 1, 2].as_slice());
    let Ok(_) = through(&mut dock, alloc, &[9]) else {
        return Err(Fail::from("no memory"));
    };
    assert_eq!(rt; dock.stories().len(), 2);
    let Some(story) = dock.stories().first() else {
        return Err(Fail::from("no story"));
    };
    assert_eq!(rt; story.size, 64);
    assert_eq!(rt; story.sent.bytes(), [3, 1, 2].as_slice());
    assert_eq!(rt; story.taken.bytes(), [3, 1, 2].as_slice());
    assert_eq!(rt; story.asked.bytes(), [128, 7].as_slice());
    assert_eq!(rt; story.answered.bytes(), [128].as_slice());
    let Some(last) = dock.story() else {
        return Err(Fail::from("no story"));
    };
    assert_eq!(rt; last.sent.bytes(), [9].as_slice());
    Ok(())
}

#[test]
fn what_is_left_is_settled(rt: HostRuntime) -> Result<(), Fail> {
    let alloc = rt.alloc();
    let Ends {
        mut up,
        mut host,
        down,
        target,
    } = rings(alloc, 64, 1_000)?;
    let mut stored = 0;
    let block = [1, 2, 3, 4, 5, 6, 7, 8, 9, 10, 11, 12];
    assert_eq!(rt; store(&mut up, &block, &mut stored), Some(Wrote::Stored));
    let mut ten = [0; 10];
    assert_eq!(rt; host.read(&mut ten), 10);
    let ends = Ends {
        up,
        host,
        down,
        target,
    };
    assert_eq!(rt; settled(alloc, ends)?.as_slice(), [11, 12].as_slice());
    Ok(())
}

/// Writes so many bytes of the pattern, in blocks of 1 to 63, each again until it is stored.
fn write_pattern(rt: &impl Wait, up: RttUp, count: u64) -> RttUp
    requires { up.writing.sent ≡ [] }
    ensures { result.name ≡ up.name }
{
    let mut up = up;
    let mut stored = 0;
    let mut block = [0; 63];
    let mut most = 1;
    for _ in rt.forever() {
        let length = count.saturating_sub(stored).min(most) as usize;
        fill_from(&mut block, stored);
        match store(&mut up, &block[..length.min(63)], &mut stored) {
            Some(Wrote::Stored) => most = most % 63 + 1,
            Some(Wrote::Refused { room: _ }) => thread::yield_now(),
            None => return up,
        }
    }
    up
}

/// Reads so many bytes, and says whether they are those of the pattern.
fn read_pattern(rt: &impl Wait, host: RttHost, count: u64) -> (RttHost, bool)
    ensures { result.0.name ≡ host.name }
{
    let mut host = host;
    let mut place = 0u64;
    let mut good = true;
    for _ in rt.forever() {
        if count <= place {
            return (host, good);
        }
        let mut buf = [0; 64];
        let found = host.read(&mut buf);
        if found == 0 {
            thread::yield_now();
        }
        good = good && are_from(&buf[..found], place);
        place = place.saturating_add(found as u64);
    }
    (host, good)
}

#[test]
fn a_million_bytes_between_two_threads(rt: HostRuntime) -> Result<(), Fail> {
    let alloc = rt.alloc();
    let Ends {
        up,
        host,
        down,
        target,
    } = rings(alloc, 64, 1_000_000)?;
    let (up, (host, good)) = thread::join(
        &rt,
        move || write_pattern(&rt, up, 1_000_000),
        move || read_pattern(&rt, host, 1_000_000),
    );
    assert!(rt; good);
    let ends = Ends {
        up,
        host,
        down,
        target,
    };
    assert!(rt; settled(alloc, ends)?.is_empty());
    Ok(())
}
