//! What a command makes of a recording.
ghost use Rattle.std.specs.Prelude.{◌≡◌, ◌∷◌, ◌++◌, ◌<◌, ◌≤◌, ◌^◌, [], List, OnOk, length};
ghost use Rattle.sv_packet.specs.Events.{last_time};
ghost use Rattle.sv_packet.specs.EventRef.{seen_at};
ghost use Rattle.sv_stream.specs.declared.seen.Seen.{Seen};
ghost use Rattle.sv_stream.specs.declared.seen.Seen.TheVariants.{Event, Damage};
ghost use Rattle.sv_stream.specs.Entries.{events_of};
ghost use Rattle.sv_view.specs.Text.{Text};

use sv_packet::EventRef;
use sv_prim::NoMemory;
use sv_stream::{End, Mark};

/// A command that reads a recording, and writes of each event, of each mark of a damaged place and
/// of the end what its text says.
pub trait View {
    /// What it writes.
    ghost text: { Text };

    /// It was shown these entries, one after another.
    ghost shown: { Self → List Seen → Type 0 };

    /// Takes the next event, at its time in ticks, which is not before the last one's, and appends
    /// what is written of it. NoMemory leaves the lines open.
    fn event(
        &mut self,
        time: u64,
        event: &EventRef<'_>,
        lines: &mut Vec<u8>,
    ) -> Result<(), NoMemory>
        requires { (earlier : List Seen) × shown self.old earlier × (length earlier < 2 ^ 32)
            × (last_time (events_of earlier) ≤ time) }
        ensures shown { (earlier : List Seen) → shown self.old earlier →
            OnOk result (shown self.new (earlier ++ Event (seen_at time event.now) ∷ [])) }
        ensures line { (earlier : List Seen) → shown self.old earlier → OnOk result
            (lines.new.items ≡ lines.old.items
            ++ text.line earlier (Event (seen_at time event.now))) };

    /// Takes the mark of the next damaged place, whose time is not before the last one's, and
    /// appends what is written of it. NoMemory leaves the lines open.
    fn mark(&mut self, mark: &Mark, lines: &mut Vec<u8>) -> Result<(), NoMemory>
        requires { (earlier : List Seen) × shown self.old earlier × (length earlier < 2 ^ 32)
            × (last_time (events_of earlier) ≤ mark.now.time) }
        ensures shown { (earlier : List Seen) → shown self.old earlier → OnOk result
            (shown self.new (earlier ++ Damage mark.now.time mark.now.place mark.now.reason ∷ [])) }
        ensures line { (earlier : List Seen) → shown self.old earlier → OnOk result
            (lines.new.items ≡ lines.old.items
            ++ text.line earlier (Damage mark.now.time mark.now.place mark.now.reason)) };

    /// Appends what is written after the last entry. NoMemory leaves the lines open.
    fn end(&self, end: &End, lines: &mut Vec<u8>) -> Result<(), NoMemory>
        ensures { (seen : List Seen) → shown self.now seen →
            OnOk result (lines.new.items ≡ lines.old.items ++ text.last seen end.now) };
}
