//! The loop over the entries that are whole.
ghost use Rattle.std.specs.Prelude.{◌≡◌, ◌≤◌, ◌^◌, ℕ, List, OnOk, OnErr};
ghost use Rattle.sv_stream.specs.declared.seen.Seen.{Seen};
ghost use Rattle.sv_stream.specs.Decoding.{StandsFor, pushed};
ghost use Rattle.sv_feed.specs.Feed.{AreGiven, AreTaken, IsDrained, IsStopped};

use crate::gather::Gather;
use sv_prim::NoMemory;
use sv_stream::Decoder;

/// Gives all events that are whole in what was pushed, and the marks of damaged places among them,
/// to the one who gathers, which appends to `items`. Takes no memory of its own.
///
/// After NoMemory the gatherer could not take one of these entries, and took those before it.
pub fn drain_entries<T, G: Gather<T>>(
    decoder: &mut Decoder,
    gatherer: &mut G,
    items: &mut Vec<T>,
) -> Result<(), NoMemory>
    requires { (input : List ℕ) × (given : List Seen) × StandsFor decoder.old input given
        × G.taken gatherer.old given × (pushed decoder.old ≤ 2 ^ 33) }
    ensures drained { OnOk result ((entries : List Seen)
        × AreGiven decoder.old decoder.new entries
        × AreTaken G.made G.taken gatherer.old gatherer.new items.old.items items.new.items entries
        × IsDrained decoder.old decoder.new entries) }
    ensures stopped { OnErr result ((entries : List Seen)
        × AreGiven decoder.old decoder.new entries
        × IsStopped G.made G.taken G.failed gatherer.old gatherer.new
        items.old.items items.new.items entries) }
{
    loop {
        let Some(front) = decoder.front() else {
            let Some(mark) = decoder.settle() else {
                return Ok(());
            };
            gatherer.mark(&mark, items)?;
            continue;
        };
        gatherer.event(front.time, &front.event, items)?;
        let (used, time) = (front.used, front.time);
        decoder.pass(used, time);
    }
}
