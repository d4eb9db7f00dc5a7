ghost use Rattle.std.specs.Prelude.{◌≡◌, ℕ, ◌<◌, Bool, List, Option, None, length};
ghost use Rattle.std.specs.Prelude.{IsTrue, IsOk, is_ok, OnOk, OnErr};
ghost use Rattle.std.specs.Io.{ReadsAtMost};
ghost use Rattle.std.specs.Io.KnownBytes.{ReadConsumes};
ghost use Rattle.sv_base.specs.Causes.{HasCause, one_more};
ghost use Rattle.sv_base.specs.Streams.{IsSameFiles, goes_on};

use crate::failed::Failed;

/// Files by name, read from front to end, one at a time.
pub trait Source {
    /// The bytes under a name, where they are known.
    ghost held: { Self → List ℕ → Option (List ℕ) };

    /// The bytes of the file begun last that are not read yet, where they are known. None are where
    /// it could not be begun.
    ghost left: { Self → Option (List ℕ) };

    /// Whether a file is begun and not ended.
    ghost opened: { Self → Bool };

    /// How often a file was begun, also where that failed. It stays at 2^64 - 1.
    ghost begins: { Self → ℕ };

    /// No begin of this name fails, and no read after it.
    ghost sure: { Self → List ℕ → Type 0 };

    /// No read of the open file fails.
    ghost safe: { Self → Type 0 };

    /// How often the device has failed. It stays at 2^64 - 1.
    ghost faults: { Self → ℕ };

    /// Begins the file of this name at its front, and leaves the file that was open. What is left
    /// to be read is what is held under the name, known or not.
    ///
    /// Answers [`Failed`] only where the device failed, as for a name that is not there. Then no
    /// file is open.
    fn begin(&mut self, name: &str) -> Result<(), Failed>
        ensures files { IsSameFiles (held self.old) (held self.new)
            (sure self.old) (sure self.new) }
        ensures content { OnOk result (left self.new ≡ held self.old name.now) }
        ensures unopened { OnErr result (left self.new ≡ None) }
        ensures opened { opened self.new ≡ is_ok result }
        ensures begins { begins self.new ≡ one_more (begins self.old) }
        ensures sure { sure self.old name.now → IsOk result × safe self.new }
        ensures cause { HasCause (faults self.old) (faults self.new) result };

    /// Reads bytes of the open file into the front of the buffer, and says how many: at least one,
    /// or 0 at the end of the file. Both the end and a failure close the file.
    ///
    /// Answers [`Failed`] only where the device failed. Then no byte of the file was taken.
    fn read(&mut self, buf: &mut [u8]) -> Result<usize, Failed>
        requires open { IsTrue (opened self.old) }
        requires room { 0 < length buf.old }
        ensures files { IsSameFiles (held self.old) (held self.new)
            (sure self.old) (sure self.new) }
        ensures bound { ReadsAtMost result buf.new }
        ensures bytes { ReadConsumes (left self.old) (left self.new) result buf.new }
        ensures opened { opened self.new ≡ goes_on result }
        ensures begins { begins self.new ≡ begins self.old }
        ensures safe { safe self.old → IsOk result × safe self.new }
        ensures cause { HasCause (faults self.old) (faults self.new) result };
}
