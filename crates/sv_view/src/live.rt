//! The loop that tells of a recording again and again as it grows: after each piece of its file the
//! report so far.
ghost use Rattle.std.specs.Prelude.{◌≡◌, ◌≢◌, ◌<◌, ◌≤◌, ◌++◌, List, ℕ, Option, IsTrue, Err, Ok};
ghost use Rattle.std.specs.Prelude.{length, true, IfOk, IfErr, IfSome, IfNone, OnOk, codes};
ghost use Rattle.std.specs.Io.KnownBytes.{Appends};
ghost use Rattle.sv_packet.specs.declared.event.Packet.{Packet};
ghost use Rattle.sv_stream.specs.declared.end.End.{End as HowItEnds};
ghost use Rattle.sv_stream.specs.declared.seen.Seen.{Seen};
ghost use Rattle.sv_stream.specs.Decoding.{IsSettled, StandsFor};
ghost use Rattle.sv_stream.specs.Entries.{timed_entries};
ghost use Rattle.sv_stream.specs.Input.{Entry};
ghost use Rattle.sv_stream.specs.Reads.{Reads};
ghost use Rattle.sv_report.specs.ReportText.{count_line, text_of};
ghost use Rattle.sv_base.specs.Causes.{Blames, BlamesLast, one_more};
ghost use Rattle.sv_base.specs.Streams.{AppendsPart};
ghost use Rattle.sv_view.specs.Files.{IsReadFrom, OfFile};
ghost use Rattle.sv_view.specs.Live.{after_text, HasSummed, IsToldLive, IsBetweenReports};
ghost use Rattle.sv_view.specs.Live.{IsLiveEnd};
ghost use Rattle.sv_view.specs.Scan.{HasShown};

use crate::cut::Cut;
use crate::scan::Scan;
use crate::views::report::Summary;
use std::alloc::Global;
use sv_analyse::Report;
use sv_base::{Sink, Source, put_all};
use sv_prim::NoMemory;
use sv_report::{put_count, put_report};
use sv_stream::End;

/// The most bytes of a piece.
const MOST_OF_PIECE: usize = 65536;

/// Appends the line of how many bytes there are, and their report.
fn put_after(total: u64, report: &Report, lines: &mut Vec<u8>) -> Result<(), NoMemory>
    ensures { OnOk result (lines.new.items
        ≡ lines.old.items ++ (count_line (codes "after ") total ++ text_of report.now)) }
{
    put_count("after ", total, lines)?;
    put_report(report, lines)
}

/// Writes how many bytes were taken, and their report.
fn tell<K: Sink>(scan: &mut Scan<Summary>, out: &mut K) -> Result<(), Cut>
    requires settled { IsSettled scan.old.decoder }
    ensures told { OnOk result ((input : List ℕ) (given : List Seen) →
        StandsFor scan.old.decoder input given → HasShown HasSummed scan.old.showing given →
        (entries : List (Entry Packet)) (end : HowItEnds) → Reads input entries end →
        given ≡ timed_entries entries →
        Appends (K.written out.old) (K.written out.new) (after_text scan.old.total entries end)) }
    ensures part { result ≡ Err Cut.Unwritten → (input : List ℕ) (given : List Seen) →
        StandsFor scan.old.decoder input given → HasShown HasSummed scan.old.showing given →
        (entries : List (Entry Packet)) (end : HowItEnds) → Reads input entries end →
        given ≡ timed_entries entries → AppendsPart (K.written out.old) (K.written out.new)
        (after_text scan.old.total entries end) }
    ensures none { result ≡ Err Cut.NoMemory → out.new ≡ out.old }
    ensures why { IfErr result (λ cut. (cut ≢ Cut.Unread) × (cut ≢ Cut.TooLong)) }
    ensures same { (scan.new.decoder ≡ scan.old.decoder)
        × (scan.new.showing ≡ scan.old.showing) × (scan.new.total ≡ scan.old.total) }
    ensures sink { BlamesLast (result ≡ Err Cut.Unwritten)
        (K.broken out.new) (K.faults out.old) (K.faults out.new) }
{
    let Ok(report) = scan.showing.view.analysis.report(scan.decoder.finish()) else {
        return Err(Cut::NoMemory);
    };
    scan.lines.clear();
    let Ok(()) = put_after(scan.total, &report, &mut scan.lines) else {
        return Err(Cut::NoMemory);
    };
    let Ok(()) = put_all(out, &scan.lines) else {
        return Err(Cut::Unwritten);
    };
    Ok(())
}

/// Reads the next piece and writes the report that it gives. Says how the recording ends, as is
/// told, where there is no more to read.
fn grow<S: Source, K: Sink>(
    scan: &mut Scan<Summary>,
    src: &mut S,
    out: &mut K,
    buf: &mut [u8],
) -> Result<Option<End>, Cut>
    requires open { IsTrue (S.opened src.old) }
    requires room { 0 < length buf.old }
    requires between { (left written : Option (List ℕ)) × IsBetweenReports
        (length buf.old) left (S.left src.old) written (K.written out.old) scan.old }
    ensures same { length buf.new ≡ length buf.old }
    ensures over { IfOk result (λ over. (left written : Option (List ℕ)) →
        IsBetweenReports (length buf.old)
        left (S.left src.old) written (K.written out.old) scan.old →
        IfSome over (λ told. IsLiveEnd (length buf.old)
        left (S.left src.new) written (K.written out.new) (Ok told))
        × IfNone over (IsBetweenReports (length buf.old)
        left (S.left src.new) written (K.written out.new) scan.new)) }
    ensures more { IfOk result (λ over. IfNone over
        ((S.opened src.new ≡ true) × (scan.old.total < scan.new.total))) }
    ensures cut { IfErr result (λ cut. (left written : Option (List ℕ)) →
        IsBetweenReports (length buf.old)
        left (S.left src.old) written (K.written out.old) scan.old →
        IsLiveEnd (length buf.old) left (S.left src.new) written (K.written out.new) (Err cut)) }
    ensures source { IsReadFrom (result ≡ Err Cut.Unread) (S.begins src.old) (S.begins src.new)
        (S.safe src.old) (S.safe src.new) (S.faults src.old) (S.faults src.new) }
    ensures sink { BlamesLast (result ≡ Err Cut.Unwritten)
        (K.broken out.new) (K.faults out.old) (K.faults out.new) }
{
    let count = match scan.take(src, buf) {
        Ok(count) => count,
        Err(cut) => return Err(cut),
    };
    if count == 0 {
        return Ok(Some(scan.told()));
    }
    match tell(scan, out) {
        Ok(()) => {}
        Err(cut) => return Err(cut),
    }
    if count < buf.len() {
        return Ok(Some(scan.told()));
    }
    Ok(None)
}

/// Tells of the file that is begun, by pieces that fill the buffer, and says how it ends, as is
/// told.
fn live_open<S: Source, K: Sink>(
    alloc: Global,
    src: &mut S,
    out: &mut K,
    buf: &mut [u8],
) -> Result<End, Cut>
    requires open { IsTrue (S.opened src.old) }
    requires room { 0 < length buf.old }
    ensures ended { IsLiveEnd (length buf.old) (S.left src.old) (S.left src.new)
        (K.written out.old) (K.written out.new) result }
    ensures source { IsReadFrom (result ≡ Err Cut.Unread) (S.begins src.old) (S.begins src.new)
        (S.safe src.old) (S.safe src.new) (S.faults src.old) (S.faults src.new) }
    ensures sink { BlamesLast (result ≡ Err Cut.Unwritten)
        (K.broken out.new) (K.faults out.old) (K.faults out.new) }
{
    let mut scan = Scan::new(alloc, Summary::new(alloc));
    loop {
        match grow(&mut scan, src, out, buf) {
            Ok(Some(end)) => return Ok(end),
            Ok(None) => {}
            Err(cut) => return Err(cut),
        }
    }
}

/// Tells of the recording of the name, which is read from `src` by pieces of `size` bytes, from 1
/// to 65536, to its end: after each piece that has bytes how many there are so far, and their
/// report. Says how the recording ends: where it has damaged places, at the first of them. No more
/// than 2^33 bytes are taken.
pub fn live_file<S: Source, K: Sink>(
    alloc: Global,
    size: u32,
    name: &str,
    src: &mut S,
    out: &mut K,
) -> Result<End, Cut>
    requires size { (1 ≤ size) × (size ≤ 65536) }
    ensures answered { OfFile (S.held src.old name.now) (S.left src.new) (λ file taken.
        IsToldLive size taken (taken ≡ file) (K.written out.old) (K.written out.new) result) }
    ensures begins { S.begins src.new ≡ one_more (S.begins src.old) }
    ensures sure { S.sure src.old name.now → result ≢ Err Cut.Unread }
    ensures read { Blames (result ≡ Err Cut.Unread) (S.faults src.old) (S.faults src.new) }
    ensures write { BlamesLast (result ≡ Err Cut.Unwritten)
        (K.broken out.new) (K.faults out.old) (K.faults out.new) }
{
    let Ok(()) = src.begin(name) else {
        return Err(Cut::Unread);
    };
    let mut buf = [0; MOST_OF_PIECE];
    live_open(alloc, src, out, &mut buf[..size as usize])
}
