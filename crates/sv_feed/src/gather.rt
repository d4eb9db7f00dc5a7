//! What takes the events and the marks of a recording one after another.
ghost use Rattle.std.specs.Prelude.{◌≡◌, ◌∷◌, ◌++◌, ◌<◌, ◌≤◌, ◌^◌, [], List, OnOk, OnErr, length};
ghost use Rattle.sv_packet.specs.Events.{last_time};
ghost use Rattle.sv_packet.specs.EventRef.{seen_at};
ghost use Rattle.sv_stream.specs.declared.seen.Seen.{Seen};
ghost use Rattle.sv_stream.specs.declared.seen.Seen.TheVariants.{Event, Damage};
ghost use Rattle.sv_stream.specs.Entries.{events_of};
ghost use Rattle.sv_feed.specs.Feed.{GrowsBy};

use sv_packet::EventRef;
use sv_prim::NoMemory;
use sv_stream::Mark;

/// Makes items of the entries of a recording, its events and the marks of its damaged places, which
/// come one after another: lines of a text, say, or runs of a timeline.
pub trait Gather<T> {
    /// All items that are made of these entries.
    ghost made: { List Seen → List T };

    /// These entries came, and no others.
    ghost taken: { Self → List Seen → Type 0 };

    /// What NoMemory leaves: of itself, and of the items before and after the entry.
    ghost failed: { Self → List T → List T → Type 0 };

    /// Takes the next event, at its time in ticks, which is not before the last one's, and appends
    /// what is made of it. Fewer than 2^32 entries came before it.
    fn event(&mut self, time: u64, event: &EventRef<'_>, items: &mut Vec<T>) -> Result<(), NoMemory>
        requires { (earlier : List Seen) × taken self.old earlier × (length earlier < 2 ^ 32)
            × (last_time (events_of earlier) ≤ time) }
        ensures taken { (earlier : List Seen) → taken self.old earlier →
            OnOk result (taken self.new (earlier ++ Event (seen_at time event.now) ∷ [])) }
        ensures items { (earlier : List Seen) → taken self.old earlier →
            OnOk result (GrowsBy made earlier (Event (seen_at time event.now) ∷ [])
            items.old.items items.new.items) }
        ensures failed { OnErr result (failed self.new items.old.items items.new.items) };

    /// Takes the mark of the next damaged place, whose time is not before the last one's, and
    /// appends what is made of it. Fewer than 2^32 entries came before it.
    fn mark(&mut self, mark: &Mark, items: &mut Vec<T>) -> Result<(), NoMemory>
        requires { (earlier : List Seen) × taken self.old earlier × (length earlier < 2 ^ 32)
            × (last_time (events_of earlier) ≤ mark.now.time) }
        ensures taken { (earlier : List Seen) → taken self.old earlier → OnOk result
            (taken self.new (earlier ++ Damage mark.now.time mark.now.place mark.now.reason ∷ [])) }
        ensures items { (earlier : List Seen) → taken self.old earlier → OnOk result
            (GrowsBy made earlier (Damage mark.now.time mark.now.place mark.now.reason ∷ [])
            items.old.items items.new.items) }
        ensures failed { OnErr result (failed self.new items.old.items items.new.items) };
}
