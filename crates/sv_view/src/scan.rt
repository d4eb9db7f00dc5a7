//! The one loop over a file of all views: pieces of a recording's file go through a decoder, and what a view
//! makes of the entries is written.
ghost use Rattle.std.specs.Prelude.{◌≡◌, ◌≢◌, ◌+◌, ◌*◌, ◌<◌, ◌≤◌, ◌^◌, ◌∷◌, ◌++◌, []};
ghost use Rattle.std.specs.Prelude.{List, ℕ, Option, true, false, IsTrue, Err, Ok, IsErr, nat_le, length};
ghost use Rattle.std.specs.Prelude.{take, IfOk, IfErr, OnOk};
ghost use Rattle.std.specs.Io.KnownBytes.{IsAtEnd};
ghost use Rattle.sv_prim.specs.Text.{AreBytes};
ghost use Rattle.sv_stream.specs.declared.seen.Seen.{Seen};
ghost use Rattle.sv_stream.specs.Decoding.{IsSettled, StandsFor, pushed};
ghost use Rattle.sv_base.specs.Causes.{Blames, BlamesLast, one_more};
ghost use Rattle.sv_view.specs.Answer.{piece_size, IsShown};
ghost use Rattle.sv_view.specs.Files.{IsReadFrom, OfFile};
ghost use Rattle.sv_view.specs.Scan.{HasShown, IsFed, IsUnfed, IsTaken, IsScanned, IsBetween};
ghost use Rattle.sv_view.specs.Scan.{IsScanEnd, IsToldOf};

use crate::cut::Cut;
use crate::showing::{Showing, told};
use crate::view::View;
use std::alloc::Global;
use sv_base::{Failed, Sink, Source, fill, put_all};
use sv_feed::drain_entries;
use sv_stream::{Decoder, End};

/// How many bytes are read at a time. What is written of their entries is written at once.
const PIECE: usize = 4096;

/// The most bytes of a recording, so that its times stay below 2^64.
pub const MOST_BYTES: u64 = 1 << 33;

/// How far a recording is scanned: `total` bytes of it were pushed to the decoder, and `lines` is a
/// buffer that is used again for each piece.
#[derive(Drop)]
pub struct Scan<V: View + Drop> {
    pub decoder: Decoder,
    pub showing: Showing<V>,
    pub lines: Vec<u8>,
    pub total: u64,
}

/// The bytes that came into a buffer.
fn piece_of(buf: &[u8], count: usize) -> &[u8]
    requires { count ≤ length buf.now }
    ensures front { result.now ≡ take count buf.now }
    ensures bytes { AreBytes result.now }
{
    &buf[..count]
}

/// Fills the buffer from the file and pushes that to the decoder, or says why not. `total` bytes
/// were pushed before. Says how many bytes came: fewer than the buffer has room for only at the
/// end.
fn feed<S: Source>(
    src: &mut S,
    decoder: &mut Decoder,
    total: u64,
    buf: &mut [u8],
) -> Result<usize, Cut>
    requires open { IsTrue (S.opened src.old) }
    requires room { 0 < length buf.old }
    requires total { (pushed decoder.old ≡ total) × (total ≤ 2 ^ 33) }
    ensures same { length buf.new ≡ length buf.old }
    ensures fed { IfOk result (λ count.
        IsFed (S.left src.old) (S.left src.new) decoder.old decoder.new total count buf.new) }
    ensures opened { IfOk result (λ count. S.opened src.new ≡ nat_le (length buf.old) count) }
    ensures unfed { IfErr result
        (IsUnfed (length buf.old) (S.left src.old) (S.left src.new) total) }
    ensures source { IsReadFrom (result ≡ Err Cut.Unread) (S.begins src.old) (S.begins src.new)
        (S.safe src.old) (S.safe src.new) (S.faults src.old) (S.faults src.new) }
{
    let count = match fill(src, buf) {
        Ok(count) => count,
        Err(Failed) => return Err(Cut::Unread),
    };
    let piece = piece_of(buf, count);
    if MOST_BYTES - total < count as u64 {
        return Err(Cut::TooLong);
    }
    if decoder.push(piece).is_err() {
        return Err(Cut::NoMemory);
    }
    Ok(count)
}

/// Whether there is nothing more to read after a piece of so many bytes.
fn is_over(count: usize, room: usize) -> bool
    ensures yes { result ≡ true → count < room }
    ensures no { result ≡ false → room ≤ count }
{
    count < room
}

impl<V: View + Drop> Scan<V> {
    pub fn new(alloc: Global, view: V) -> Scan<V>
        requires { V.shown view [] }
        ensures between { (left out : Option (List ℕ)) →
            IsBetween V.text V.shown left left out out result }
        ensures stands { StandsFor result.decoder [] [] }
        ensures settled { IsSettled result.decoder }
        ensures shown { HasShown V.shown result.showing [] }
        ensures total { result.total ≡ 0 }
    {
        Scan {
            decoder: Decoder::new(alloc),
            showing: Showing { view, first: None },
            lines: Vec::new(alloc),
            total: 0,
        }
    }

    /// Reads the next piece, as much as the buffer has room for, and shows its entries to the view,
    /// which appends to the lines. Says how many bytes came: fewer than there is room for only at
    /// the end.
    pub fn take<S: Source>(&mut self, src: &mut S, buf: &mut [u8]) -> Result<usize, Cut>
        requires open { IsTrue (S.opened src.old) }
        requires room { 0 < length buf.old }
        requires total { (pushed self.old.decoder ≡ self.old.total) × (self.old.total ≤ 2 ^ 33) }
        requires shown { (input : List ℕ) × (given : List Seen)
            × StandsFor self.old.decoder input given × HasShown V.shown self.old.showing given }
        ensures same { length buf.new ≡ length buf.old }
        ensures taken { IfOk result (λ count. IsTaken V.text V.shown
            (S.left src.old) (S.left src.new) self.old self.new count buf.new) }
        ensures opened { IfOk result (λ count. S.opened src.new ≡ nat_le (length buf.old) count) }
        ensures untaken { IfErr result
            (IsUnfed (length buf.old) (S.left src.old) (S.left src.new) self.old.total) }
        ensures source { IsReadFrom (result ≡ Err Cut.Unread) (S.begins src.old) (S.begins src.new)
            (S.safe src.old) (S.safe src.new) (S.faults src.old) (S.faults src.new) }
    {
        let count = match feed(src, &mut self.decoder, self.total, buf) {
            Ok(count) => count,
            Err(cut) => return Err(cut),
        };
        self.total += count as u64;
        let Ok(()) = drain_entries(&mut self.decoder, &mut self.showing, &mut self.lines) else {
            return Err(Cut::NoMemory);
        };
        Ok(count)
    }

    /// How the recording ends, as is told: its first damaged place, or else its end.
    pub fn told(&self) -> End
        requires { IsSettled self.now.decoder }
        ensures { (input : List ℕ) (given : List Seen) → StandsFor self.now.decoder input given →
            HasShown V.shown self.now.showing given → IsToldOf input result }
    {
        told(self.showing.first, self.decoder.finish())
    }

    /// Reads the next piece and writes what is made of its entries. Says whether the recording has
    /// ended.
    fn piece<S: Source, K: Sink>(
        &mut self,
        src: &mut S,
        out: &mut K,
        buf: &mut [u8],
    ) -> Result<bool, Cut>
        requires open { IsTrue (S.opened src.old) }
        requires room { length buf.old ≡ piece_size }
        requires between { (left written : Option (List ℕ))
            × IsBetween V.text V.shown left (S.left src.old) written (K.written out.old) self.old }
        ensures same { length buf.new ≡ piece_size }
        ensures over { IfOk result (λ over. (left written : Option (List ℕ)) →
            IsBetween V.text V.shown left (S.left src.old) written (K.written out.old) self.old →
            IsScanned V.text V.shown left (S.left src.new) written (K.written out.new) self.new
            × (over ≡ true → IsAtEnd (S.left src.new))
            × (over ≡ false →
            IsBetween V.text V.shown left (S.left src.new) written (K.written out.new) self.new)) }
        ensures more { IfOk result (λ over. over ≡ false →
            (S.opened src.new ≡ true) × (self.old.total < self.new.total)) }
        ensures cut { IfErr result (λ cut. (left written : Option (List ℕ)) →
            IsBetween V.text V.shown left (S.left src.old) written (K.written out.old) self.old →
            IsScanEnd V.text left (S.left src.new) written (K.written out.new) (Err cut)) }
        ensures source { IsReadFrom (result ≡ Err Cut.Unread) (S.begins src.old) (S.begins src.new)
            (S.safe src.old) (S.safe src.new) (S.faults src.old) (S.faults src.new) }
        ensures sink { BlamesLast (result ≡ Err Cut.Unwritten)
            (K.broken out.new) (K.faults out.old) (K.faults out.new) }
    {
        let count = match self.take(src, buf) {
            Ok(count) => count,
            Err(cut) => return Err(cut),
        };
        let Ok(()) = put_all(out, &self.lines) else {
            return Err(Cut::Unwritten);
        };
        self.lines.clear();
        Ok(is_over(count, PIECE))
    }

    /// Writes what is made of the end, and says how the recording ends, as is told.
    fn end<K: Sink>(&mut self, out: &mut K) -> Result<End, Cut>
        requires settled { IsSettled self.old.decoder }
        ensures ended { (left now written : Option (List ℕ)) →
            IsScanned V.text V.shown left now written (K.written out.old) self.old →
            IsAtEnd now → IsScanEnd V.text left now written (K.written out.new) result }
        ensures read { result ≢ Err Cut.Unread }
        ensures sink { BlamesLast (result ≡ Err Cut.Unwritten)
            (K.broken out.new) (K.faults out.old) (K.faults out.new) }
    {
        let end = self.decoder.finish();
        let Ok(()) = self.showing.view.end(&end, &mut self.lines) else {
            return Err(Cut::NoMemory);
        };
        let Ok(()) = put_all(out, &self.lines) else {
            return Err(Cut::Unwritten);
        };
        Ok(told(self.showing.first, end))
    }
}

/// Scans the file that is begun, and says how it ends, as is told.
fn scan_open<S: Source, K: Sink, V: View + Drop>(
    alloc: Global,
    view: V,
    src: &mut S,
    out: &mut K,
) -> Result<End, Cut>
    requires open { IsTrue (S.opened src.old) }
    requires none { V.shown view [] }
    ensures ended { IsScanEnd V.text (S.left src.old) (S.left src.new)
        (K.written out.old) (K.written out.new) result }
    ensures source { IsReadFrom (result ≡ Err Cut.Unread) (S.begins src.old) (S.begins src.new)
        (S.safe src.old) (S.safe src.new) (S.faults src.old) (S.faults src.new) }
    ensures sink { BlamesLast (result ≡ Err Cut.Unwritten)
        (K.broken out.new) (K.faults out.old) (K.faults out.new) }
{
    let mut scan = Scan::new(alloc, view);
    let mut buf = [0; PIECE];
    loop {
        match scan.piece(src, out, &mut buf) {
            Ok(true) => return scan.end(out),
            Ok(false) => {}
            Err(cut) => return Err(cut),
        }
    }
}

/// Scans the recording of the name, which is read from `src` in pieces of 4096 bytes to its end:
/// writes what the view makes of each event and each damaged place, those of a piece at once, and
/// of the end. Says how the recording ends: where it has damaged places, at the first of them. No
/// more than 2^33 bytes are taken.
pub fn scan_file<S: Source, K: Sink, V: View + Drop>(
    alloc: Global,
    view: V,
    name: &str,
    src: &mut S,
    out: &mut K,
) -> Result<End, Cut>
    requires none { V.shown view [] }
    ensures answered { OfFile (S.held src.old name.now) (S.left src.new) (λ file taken.
        IsShown V.text taken (taken ≡ file) (K.written out.old) (K.written out.new) result) }
    ensures begins { S.begins src.new ≡ one_more (S.begins src.old) }
    ensures sure { S.sure src.old name.now → result ≢ Err Cut.Unread }
    ensures read { Blames (result ≡ Err Cut.Unread) (S.faults src.old) (S.faults src.new) }
    ensures write { BlamesLast (result ≡ Err Cut.Unwritten)
        (K.broken out.new) (K.faults out.old) (K.faults out.new) }
{
    let Ok(()) = src.begin(name) else {
        return Err(Cut::Unread);
    };
    scan_open(alloc, view, src, out)
}
