ghost use Rattle.std.specs.Prelude.{◌≡◌, ℕ, ◌+◌, ◌^◌, ◌<◌, ◌≤◌, true, false, List, ◌∷◌, length};
ghost use Rattle.sv_packet.specs.declared.event.Event.TheVariants.{Overflow};
ghost use Rattle.sv_packet.specs.Spelling.{spelling_of};
ghost use Rattle.sv_load.specs.Load.{Load};
ghost use Rattle.sv_load.specs.Need.{need_items, need_bytes, IsWithinLimits, HasShortTexts};
ghost use Rattle.sv_journal.specs.declared.journal.Item.{Item};
ghost use Rattle.sv_journal.specs.declared.journal.Origin.{Origin};
ghost use Rattle.sv_journal.specs.Clock.{clock_of};
ghost use Rattle.sv_journal.specs.Items.{latest_first};
ghost use Rattle.sv_journal.specs.Legal.{IsLegal, IsNextStep, is_control, step_ticks};
ghost use Rattle.sv_journal.specs.Open.{IsOpen, IsDue};
ghost use Rattle.sv_journal.specs.Stream.{stream_of};
ghost use Rattle.sv_journal.specs.Packets.{packet_block, is_call_or_reply};
ghost use Rattle.sv_need.specs.Weights.{weight, item_weights, byte_weights, items_ahead};
ghost use Rattle.sv_need.specs.Weights.{bytes_ahead};
ghost use Rattle.sv_need.specs.Next.{MayCome};

/// The law of need: a legal journal has at most as many items, and its stream at most as many
/// bytes, as the workload needs. At the limits of a workload both are few.
pub fn within_need()
    ensures items { (load : Load) → (items : List Item) → IsLegal load items →
        length items ≤ need_items load }
    ensures bytes { (load : Load) → (items : List Item) → IsLegal load items →
        HasShortTexts load → length (stream_of load items) ≤ need_bytes load }
    ensures few { (load : Load) → (items : List Item) → IsLegal load items →
        IsWithinLimits load → length items < 3400000 }
    ensures short { (load : Load) → (items : List Item) → IsLegal load items →
        IsWithinLimits load → length (stream_of load items) < 181000000 }
{}

/// The law of room: whatever is due next, be it an answer that is owed, a step or a command, the
/// need has room for it and for all that is owed after it, each packet with an overflow before it.
pub fn room_ahead()
    ensures items { (load : Load) → (items : List Item) → (owed rest : List Origin) →
        (next : Origin) → IsOpen load items owed → IsDue load owed next rest →
        MayCome load items next →
        length items + items_ahead load (next ∷ rest) ≤ need_items load }
    ensures bytes { (load : Load) → (items : List Item) → (owed rest : List Origin) →
        (next : Origin) → IsOpen load items owed → IsDue load owed next rest →
        MayCome load items next →
        HasShortTexts load →
        length (stream_of load items) + bytes_ahead load (next ∷ rest) ≤ need_bytes load }
{}

/// The law of a packet's room: its weight has room for it and for an overflow before it.
pub fn packet_room()
    ensures items { (load : Load) → (origin : Origin) → is_call_or_reply origin ≡ true →
        is_control load origin ≡ false → weight item_weights load origin ≡ 2 }
    ensures bytes { (load : Load) → (origin : Origin) → (moment last : ℕ) → HasShortTexts load →
        is_call_or_reply origin ≡ true → is_control load origin ≡ false →
        length (packet_block load origin moment last) + 11 ≤ weight byte_weights load origin }
    ensures overflow { (count delta : ℕ) → length (spelling_of (Overflow count) delta) ≤ 11 }
{}

/// The law of ticks: the moment of the next step is at most 2^53, whatever the scripts.
pub fn ticks_ahead()
    ensures { (load : Load) → (items : List Item) → (owed : List Origin) → (next : Origin) →
        IsOpen load items owed → IsNextStep load (latest_first items) next →
        IsWithinLimits load → clock_of load items + step_ticks load next ≤ 2 ^ 53 }
{}
