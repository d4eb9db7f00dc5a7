ghost use Rattle.std.specs.Prelude.{◌≡◌, ◌<◌, ◌≤◌, None, false, is_err, IfOk, OnErr, length};
ghost use Rattle.sv_base.specs.Causes.{HasCause, one_more};

use crate::failed::Failed;
use crate::sink::Sink;
use std::marker::Model;

/// Which standard stream of the program.
#[derive(Clone, Copy, Debug, PartialEq, Eq)]
pub enum Stream {
    /// Standard output.
    Out,
    /// Standard error.
    Err,
}

/// A standard stream of the program. Nothing is known of what it has taken.
///
/// Standard error takes text alone: a piece that is not UTF-8 fails there.
#[derive(Drop)]
pub struct OutSink<R: Print + Eprint + Drop> {
    rt: R,
    stream: Stream,
    faults: u64,
    broken: bool,
}

impl<R: Print + Eprint + Drop> Model for OutSink<R> {
    ghost use Rattle.sv_base.specs.Devices.{StreamState};

    ghost Value = { StreamState };

    ghost view = { λ s. record { stream = s.stream; faults = s.faults; broken = s.broken } };
}

impl<R: Print + Eprint + Drop> OutSink<R> {
    /// The stream of `rt` that is named.
    pub fn new(rt: R, stream: Stream) -> OutSink<R>
        ensures { result ≡ record { stream = stream; faults = 0; broken = false } }
    {
        OutSink {
            rt,
            stream,
            faults: 0,
            broken: false,
        }
    }
}

impl<R: Print + Eprint + Drop> Sink for OutSink<R> {
    ghost written = { λ s. None };

    ghost faults = { λ s. s.faults };

    ghost broken = { λ s. s.broken };

    /// Makes one write to the stream. One that takes no byte is a fault.
    fn write(&mut self, piece: &[u8]) -> Result<usize, Failed>
        requires { 0 < length piece.now }
        ensures some { IfOk result (λ count. 0 < count) }
        ensures bound { IfOk result (λ count. count ≤ length piece.now) }
        ensures cause { HasCause self.old.faults self.new.faults result }
        ensures fault { OnErr result (self.new.faults ≡ one_more self.old.faults) }
        ensures broken { self.new.broken ≡ is_err result }
        ensures stream { self.new.stream ≡ self.old.stream }
    {
        let wrote = match self.stream {
            Stream::Out => self.rt.write_some(piece),
            Stream::Err => match std::str::from_utf8(piece) {
                Ok(text) => self.rt.eprint(text).map(|()| piece.len()),
                Err(_) => Ok(0),
            },
        };
        match wrote {
            Ok(count) if count > 0 => {
                self.broken = false;
                Ok(count)
            }
            _ => {
                self.broken = true;
                self.faults = self.faults.saturating_add(1);
                Err(Failed)
            }
        }
    }
}
