ghost use Rattle.std.specs.Prelude.{◌≡◌, ℕ, ◌<◌, ◌≤◌, Bool, List, Option, length};
ghost use Rattle.std.specs.Prelude.{is_err, IfOk, OnErr};
ghost use Rattle.std.specs.Io.KnownBytes.{WriteAppends};
ghost use Rattle.sv_base.specs.Causes.{HasCause, one_more};

use crate::failed::Failed;

/// A place that bytes are written to, one after the other.
pub trait Sink {
    /// The bytes that were written, where they are known.
    ghost written: { Self → Option (List ℕ) };

    /// How often the device has failed. It stays at 2^64 - 1.
    ghost faults: { Self → ℕ };

    /// Whether the latest write failed.
    ghost broken: { Self → Bool };

    /// Writes one or more bytes from the front of the piece, and says how many.
    ///
    /// Answers [`Failed`] only where the device failed. Then no byte of the piece was written.
    fn write(&mut self, piece: &[u8]) -> Result<usize, Failed>
        requires { 0 < length piece.now }
        ensures some { IfOk result (λ count. 0 < count) }
        ensures bound { IfOk result (λ count. count ≤ length piece.now) }
        ensures bytes { WriteAppends (written self.old) (written self.new) result piece.now }
        ensures cause { HasCause (faults self.old) (faults self.new) result }
        ensures fault { OnErr result (faults self.new ≡ one_more (faults self.old)) }
        ensures broken { broken self.new ≡ is_err result };
}
