ghost use Rattle.std.specs.Prelude.{◌≡◌, List, ◌∷◌, ◌++◌};
ghost use Rattle.sv_load.specs.Load.{Load};
ghost use Rattle.sv_load.specs.Need.{IsWithinLimits};
ghost use Rattle.sv_journal.specs.declared.journal.Item.{Item};
ghost use Rattle.sv_journal.specs.Items.{latest_first};
ghost use Rattle.sv_journal.specs.Legal.{IsLegal};
ghost use Rattle.sv_truth.specs.Truth.{TellsTruly};
ghost use Rattle.sv_truth.specs.Segment.{HoldsNoBreak, HoldsCalls, IsOfSegment};

/// The law of segments: each call of an event step is stored that stands between a break and a
/// later packet of its segment, or the TRACE_STOP that ends it.
pub fn segments_whole()
    ensures { (load : Load) → (items after middle before : List Item) → (item : Item) →
        IsLegal load items → latest_first items ≡ after ++ item ∷ (middle ++ before) →
        IsOfSegment load item → HoldsNoBreak load middle → HoldsCalls load middle }
{}

/// The law of truth: what a stream names is so by all calls, whatever became of them, where stored
/// packets are less than a period of the counter apart (2^32 ticks). Nothing is said of ticks in
/// gaps, and of what the stream calls unknown.
pub fn named_truly()
    ensures { (load : Load) → (items : List Item) → IsLegal load items → IsWithinLimits load →
        TellsTruly load items }
{}
