ghost use Rattle.std.specs.Prelude.{◌≡◌, ◌≢◌, ◌+◌, ◌<◌, ◌≤◌, IsTrue, IsOk, Err, true, length, take};
ghost use Rattle.std.specs.Prelude.{vec_len, IfOk, OnOk, OnErr, IsErrOf};
ghost use Rattle.std.specs.Io.KnownBytes.{Appends, Consumes, IsAtEnd};
ghost use Rattle.sv_base.specs.Causes.{Blames, HasCause, one_more};
ghost use Rattle.sv_base.specs.Copies.{is_left_open, is_filled};
ghost use Rattle.sv_base.specs.Streams.{IsSameFiles, AppendsPart, ConsumesFewer, ConsumesMore};

use crate::failed::Failed;
use crate::sink::Sink;
use crate::source::Source;
use std::alloc::Global;
use thiserror::Error;

/// Why a file was not read whole.
#[derive(Clone, Copy, Debug, PartialEq, Eq, Error)]
pub enum ReadAll {
    /// The device failed, and the source has counted a fault.
    #[error("the device failed")]
    Failed,
    /// The file has more bytes than the limit.
    #[error("longer than the limit")]
    TooLong,
    /// There was no memory for the bytes.
    #[error("no memory")]
    NoMemory,
}

/// Writes all the bytes, in as many pieces as the sink makes of them.
///
/// Answers [`Failed`] only where the device failed. Then a front of the bytes was written, maybe
/// none, and the write that failed was the last.
pub fn put_all<K: Sink>(out: &mut K, bytes: &[u8]) -> Result<(), Failed>
    ensures ok { OnOk result (Appends (K.written out.old) (K.written out.new) bytes.now) }
    ensures err { OnErr result (AppendsPart (K.written out.old) (K.written out.new) bytes.now) }
    ensures cause { HasCause (K.faults out.old) (K.faults out.new) result }
    ensures one { OnErr result (K.faults out.new ≡ one_more (K.faults out.old)) }
    ensures last { OnErr result (K.broken out.new ≡ true) }
    ensures sound { OnOk result (K.broken out.new ≡ true → K.broken out.old ≡ true) }
{
    let mut rest = bytes;
    while !rest.is_empty() {
        let count = out.write(rest)?;
        rest = &rest[count..];
    }
    Ok(())
}

/// Reads bytes of the open file until the buffer is full or the file ends, and says how many: fewer
/// than the buffer has room for only at the end of the file, which closes it.
///
/// Answers [`Failed`] only where the device failed. Then fewer bytes were read than the buffer has
/// room for, and they are lost.
pub fn fill<S: Source>(src: &mut S, buf: &mut [u8]) -> Result<usize, Failed>
    requires open { IsTrue (S.opened src.old) }
    requires room { 0 < length buf.old }
    ensures same { length buf.new ≡ length buf.old }
    ensures bound { IfOk result (λ count. count ≤ length buf.old) }
    ensures bytes { IfOk result
        (λ count. Consumes (S.left src.old) (S.left src.new) (take count buf.new)) }
    ensures end { IfOk result (λ count. count < length buf.old → IsAtEnd (S.left src.new)) }
    ensures lost { OnErr result (ConsumesFewer (S.left src.old) (S.left src.new) (length buf.old)) }
    ensures opened { S.opened src.new ≡ is_filled (length buf.old) result }

    // What no answer changes.
    ensures files { IsSameFiles (S.held src.old) (S.held src.new)
        (S.sure src.old) (S.sure src.new) }
    ensures begins { S.begins src.new ≡ S.begins src.old }

    // A fault has its cause, and there is none where the file is safe.
    ensures safe { S.safe src.old → IsOk result × S.safe src.new }
    ensures cause { HasCause (S.faults src.old) (S.faults src.new) result }
{
    let mut filled = 0;
    while filled < buf.len() {
        let count = src.read(&mut buf[filled..])?;
        if count == 0 {
            return Ok(filled);
        }
        filled += count;
    }
    Ok(filled)
}

/// Reads the open file to its end, if no more than `limit` bytes of it are left.
///
/// Answers `Failed` only where the device failed, `TooLong` where `limit` bytes were read and one
/// more came, and `NoMemory` where bytes came that found no room on the heap. After `TooLong` and
/// `NoMemory` the file is still open, and the bytes that were read are lost.
///
/// Each byte is copied once, from a buffer of 4096 bytes on the stack. At most `limit` bytes are
/// kept.
pub fn read_all<S: Source>(alloc: Global, src: &mut S, limit: u64) -> Result<Vec<u8>, ReadAll>
    requires { IsTrue (S.opened src.old) }
    ensures whole { IfOk result (λ bytes. Consumes (S.left src.old) (S.left src.new) bytes.items) }
    ensures end { OnOk result (IsAtEnd (S.left src.new)) }
    ensures within { IfOk result (λ bytes. vec_len bytes ≤ limit) }
    ensures long { IsErrOf result ReadAll.TooLong
        → ConsumesMore (S.left src.old) (S.left src.new) limit }
    ensures memory { IsErrOf result ReadAll.NoMemory
        → ConsumesMore (S.left src.old) (S.left src.new) 0 }
    ensures memory_within { IsErrOf result ReadAll.NoMemory
        → ConsumesFewer (S.left src.old) (S.left src.new) (limit + 1) }
    ensures lost { IsErrOf result ReadAll.Failed
        → ConsumesFewer (S.left src.old) (S.left src.new) (limit + 1) }
    ensures opened { S.opened src.new ≡ is_left_open result }

    // What no answer changes.
    ensures files { IsSameFiles (S.held src.old) (S.held src.new)
        (S.sure src.old) (S.sure src.new) }
    ensures begins { S.begins src.new ≡ S.begins src.old }

    // A fault has its cause, and there is none where the file is safe.
    ensures cause { Blames (IsErrOf result ReadAll.Failed) (S.faults src.old) (S.faults src.new) }
    ensures safe { S.safe src.old → (result ≢ Err ReadAll.Failed) × S.safe src.new }
{
    let mut bytes = Vec::new(alloc);
    let mut buf = [0; 4096];
    loop {
        let count = match src.read(&mut buf) {
            Ok(count) => count,
            Err(Failed) => return Err(ReadAll::Failed),
        };
        if count == 0 {
            return Ok(bytes);
        }
        if limit - (bytes.len() as u64) < count as u64 {
            return Err(ReadAll::TooLong);
        }
        if bytes.extend_from_slice(&buf[..count]).is_err() {
            return Err(ReadAll::NoMemory);
        }
    }
}
