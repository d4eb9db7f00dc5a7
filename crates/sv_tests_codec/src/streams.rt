ghost use Rattle.std.specs.Prelude.{◌≡◌, ◌<◌, ◌≤◌, ◌^◌, length, OnOk};
ghost use Rattle.sv_stream.specs.Decoding.{IsSettled, pushed};

use std::alloc::{AllocError, Global};
use std::test::*;
use sv_packet::{Event, TimedEvent};
use sv_prim::{NoMemory, Reason};
use sv_stream::*;

const NINE_ZEROS: [u8; 9] = [0; 9];

const TEN_ZEROS: [u8; 10] = [0; 10];

/// TRACE_START behind ten zeros, and behind eleven: the eleventh is not the first byte of a NOP.
const START: [u8; 12] = [0, 0, 0, 0, 0, 0, 0, 0, 0, 0, 10, 0];

const ELEVEN_ZEROS: [u8; 13] = [0, 0, 0, 0, 0, 0, 0, 0, 0, 0, 0, 10, 5];

/// What stands before the zeros is passed over, zeros too while they are fewer than ten.
const JUNK: [u8; 14] = [7, 255, 0, 0, 0, 0, 0, 0, 0, 0, 0, 0, 10, 0];

const HEADER: [u8; 24] = *b"; Version 1\n\0\0\0\0\0\0\0\0\0\0\n\0";

const ZEROS_IN_JUNK: [u8; 22] = [
    0, 0, 0, 0, 0, 0, 0, 0, 0, 1, 0, 0, 0, 0, 0, 0, 0, 0, 0, 0, 10, 7,
];

/// MARK_START at 0, TASK_START_EXEC 32 ticks after it.
const TIMES: [u8; 17] = [0, 0, 0, 0, 0, 0, 0, 0, 0, 0, 15, 5, 0, 4, 129, 2, 32];

/// Ten zeros behind a packet are five NOPs.
const ZEROS_AMONG_PACKETS: [u8; 24] = [
    0, 0, 0, 0, 0, 0, 0, 0, 0, 0, 10, 5, 0, 0, 0, 0, 0, 0, 0, 0, 0, 0, 17, 2,
];

/// TASK_INFO with a name of four bytes, a print with one argument, a packet that is kept as bytes.
const LISTS: [u8; 34] = [
    0, 0, 0, 0, 0, 0, 0, 0, 0, 0, 9, 1, 5, 4, 77, 34, 92, 10, 0, 26, 6, 2, 104, 105, 0, 1, 7, 3,
    128, 4, 2, 1, 255, 2,
];

/// The identifier 23, and an ISR_ENTER without its delta.
const DAMAGED: [u8; 14] = [0, 0, 0, 0, 0, 0, 0, 0, 0, 0, 10, 0, 23, 0];

/// Damage, ten zeros, and packets.
const TWO_PARTS: [u8; 33] = [
    0, 0, 0, 0, 0, 0, 0, 0, 0, 0, 10, 0, 4, 1, 5, 23, 153, 0, 0, 0, 0, 0, 0, 0, 0, 0, 0, 17, 3, 4,
    1, 2, 128,
];

/// The zero at place 13 is no delta's second byte, and the first of ten zeros.
const ZEROS_BREAK: [u8; 25] = [
    0, 0, 0, 0, 0, 0, 0, 0, 0, 0, 10, 0, 128, 0, 0, 0, 0, 0, 0, 0, 0, 0, 0, 10, 5,
];

/// Two marks, and zeros behind the second.
const TWO_MARKS: [u8; 34] = [
    0, 0, 0, 0, 0, 0, 0, 0, 0, 0, 23, 0, 0, 0, 0, 0, 0, 0, 0, 0, 0, 0, 29, 128, 0, 0, 0, 0, 0, 0,
    0, 0, 0, 0,
];

const TRUNCATED: [u8; 14] = [0, 0, 0, 0, 0, 0, 0, 0, 0, 0, 10, 0, 2, 5];

/// What is seen, without an event's own fields: its time, and the place where it is a mark.
type Seeing = (u64, Option<u64>);

/// Gives all that is left, adding what is seen of it.
fn give(decoder: &mut Decoder, seen: &mut Vec<Seeing>) -> Result<(), AllocError>
    ensures pushed { pushed decoder.new ≡ pushed decoder.old }
    ensures settled { OnOk result (IsSettled decoder.new) }
{
    loop {
        match decoder.next() {
            Ok(Some(Seen::Event(event))) => seen.push((event.time, None))?,
            Ok(Some(Seen::Damage { time, place, .. })) => seen.push((time, Some(place)))?,
            Ok(None) => return Ok(()),
            Err(NoMemory) => return Err(AllocError),
        }
    }
}

/// What is seen, and the end, of an input that comes in pieces of so many bytes.
fn read(alloc: Global, input: &[u8], size: usize) -> Result<(Vec<Seeing>, End), AllocError>
    requires input { length input.now ≤ 2 ^ 33 }
    requires size { 0 < size }
{
    let mut decoder = Decoder::new(alloc);
    let mut seen = Vec::new(alloc);
    let mut rest = input;
    while !rest.is_empty() {
        let (piece, more) = rest.split_at(size.min(rest.len()));
        if decoder.push(piece).is_err() {
            return Err(AllocError);
        }
        give(&mut decoder, &mut seen)?;
        rest = more;
    }
    Ok((seen, decoder.finish()))
}

#[test]
fn inputs_in_pieces_of_any_size(rt: HostRuntime) -> Result<(), Fail> {
    let alloc = rt.alloc();
    let damaged = End::Damaged {
        place: 12,
        reason: Reason::BadId,
    };
    for (input, seen, end) in [
        ([].as_slice(), [].as_slice(), End::NoSync),
        (NINE_ZEROS.as_slice(), [].as_slice(), End::NoSync),
        (TEN_ZEROS.as_slice(), [].as_slice(), End::Clean),
        (START.as_slice(), [(0, None)].as_slice(), End::Clean),
        (ELEVEN_ZEROS.as_slice(), [(5, None)].as_slice(), End::Clean),
        (JUNK.as_slice(), [(0, None)].as_slice(), End::Clean),
        (HEADER.as_slice(), [(0, None)].as_slice(), End::Clean),
        (ZEROS_IN_JUNK.as_slice(), [(7, None)].as_slice(), End::Clean),
        (
            TIMES.as_slice(),
            [(0, None), (32, None)].as_slice(),
            End::Clean,
        ),
        (
            ZEROS_AMONG_PACKETS.as_slice(),
            [
                (5, None),
                (5, None),
                (5, None),
                (5, None),
                (5, None),
                (5, None),
                (7, None),
            ]
            .as_slice(),
            End::Clean,
        ),
        (
            LISTS.as_slice(),
            [(0, None), (3, None), (5, None)].as_slice(),
            End::Clean,
        ),
        (
            DAMAGED.as_slice(),
            [(0, None), (0, Some(12))].as_slice(),
            damaged,
        ),
        (
            TWO_PARTS.as_slice(),
            [(0, None), (5, None), (5, Some(15)), (8, None), (10, None)].as_slice(),
            End::Truncated { held: 1 },
        ),
        (
            ZEROS_BREAK.as_slice(),
            [(0, None), (0, Some(13)), (5, None)].as_slice(),
            End::Clean,
        ),
        (
            TWO_MARKS.as_slice(),
            [(0, Some(10)), (0, Some(24))].as_slice(),
            End::Clean,
        ),
        (
            TRUNCATED.as_slice(),
            [(0, None)].as_slice(),
            End::Truncated { held: 2 },
        ),
    ] {
        for size in [1, 3, 4096] {
            let (got, how) = read(alloc, input, size)?;
            assert_eq!(rt; got.as_slice(), seen, "{input:?} by {size}");
            assert_eq!(rt; how, end, "{input:?} by {size}");
        }
    }
    Ok(())
}

#[test]
fn what_a_decoder_answers(rt: HostRuntime) -> Result<(), Fail> {
    let mut decoder = Decoder::new(rt.alloc());
    assert_eq!(rt; (decoder.held(), decoder.finish()), (0, End::NoSync));
    assert!(rt; decoder.next() == Ok(None));
    assert!(rt; decoder.push(&DAMAGED).is_ok());
    assert!(rt; decoder.room() >= 14);
    assert!(rt;
        matches!(
            decoder.next(),
            Ok(Some(Seen::Event(TimedEvent {
                time: 0,
                event: Event::TraceStart
            })))
        )
    );
    let mark = Seen::Damage {
        time: 0,
        place: 12,
        reason: Reason::BadId,
    };
    assert!(rt; decoder.next() == Ok(Some(mark)));
    for _ in 0..2 {
        assert!(rt; decoder.next() == Ok(None));
        assert_eq!(rt; decoder.held(), 0);
    }
    Ok(())
}
