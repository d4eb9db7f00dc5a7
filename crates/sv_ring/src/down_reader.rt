ghost use Rattle.std.specs.Prelude.{◌≡◌, ℕ, ◌≤◌, ◌↔◌, List, Option, ◌++◌, length, IsSome, IsNone};
ghost use Rattle.std.specs.Prelude.{IfSome};
ghost use Rattle.sv_ring.specs.Looks.{HasLooked};
ghost use Rattle.sv_ring.specs.Down.{given, empties_after, IsFront};

/// The end of a ring that commands are taken from, byte by byte, in the order in which they were
/// sent.
pub trait DownReader {
    /// Names the ring, as it does at the writer.
    ghost ring: { Self → List (List ℕ) };

    /// All bytes that were taken, from first to last.
    ghost answered: { Self → List ℕ };

    /// How often [`DownReader::next`] answered None. It stays at 2^64 - 1.
    ghost empties: { Self → ℕ };

    /// All bytes that were sent, where this end tells that.
    ghost asked: { Self → Option (List ℕ) };

    /// How many bytes are known here to be sent, where this end tells that.
    ghost seen: { Self → Option ℕ };

    /// How often this end looked at the offset of the writer, where it tells that. It stays at
    /// 2^64 - 1.
    ghost looks: { Self → Option ℕ };

    /// Takes the next byte. Never waits, and takes no memory.
    ///
    /// Answers None only where it found no byte that is not taken, or where 512 bytes are taken. A
    /// reader that tells neither `asked` nor `seen` leaves open what it found.
    fn next(&mut self) -> Option<u8>
        ensures ring { ring self.new ≡ ring self.old }
        ensures answered { answered self.new ≡ answered self.old ++ given result }
        ensures within { length (answered self.new) ≤ 512 }
        ensures empties { empties self.new ≡ empties_after result (empties self.old) }

        // Where it tells what was sent: None exactly where all of it is taken.
        ensures asked { asked self.new ≡ asked self.old }
        ensures front { IfSome (asked self.new) (λ asked. IsFront (answered self.new) asked) }
        ensures all { IfSome (asked self.old)
            (λ asked. IsNone result ↔ (answered self.old ≡ asked)) }

        // Where it tells what it knows to be sent: None exactly where that is taken.
        ensures told { IsSome (seen self.old) ↔ IsSome (seen self.new) }
        ensures none { IfSome (seen self.new)
            (λ seen. IsNone result ↔ (seen ≡ length (answered self.old))) }
        ensures known { IfSome (seen self.new) (λ seen. length (answered self.new) ≤ seen) }
        ensures looks { HasLooked (looks self.old) (looks self.new) };
}
