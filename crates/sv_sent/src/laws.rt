ghost use Rattle.std.specs.Prelude.{◌≡◌, ◌⊎◌, true, false, List, [], map};
ghost use Rattle.sv_packet.specs.declared.event.Packet.{Packet};
ghost use Rattle.sv_packet.specs.Time.{timed};
ghost use Rattle.sv_stream.specs.declared.end.End.{End};
ghost use Rattle.sv_stream.specs.declared.end.End.TheVariants.{Clean, NoSync};
ghost use Rattle.sv_stream.specs.Input.{Entry, Whole};
ghost use Rattle.sv_stream.specs.Reads.{Reads};
ghost use Rattle.sv_load.specs.Load.{Load};
ghost use Rattle.sv_load.specs.Need.{IsWithinLimits};
ghost use Rattle.sv_journal.specs.declared.journal.Item.{Item};
ghost use Rattle.sv_journal.specs.Legal.{IsLegal};
ghost use Rattle.sv_journal.specs.Stream.{stream_of, sent_events, IsCalm};
ghost use Rattle.sv_sent.specs.Start.{has_start};
ghost use Rattle.sv_sent.specs.Sent.{sent_packets};

/// The law of a recorder's stream: that of a legal journal with a start is read to a clean end, as
/// the packets of the stored items, whose times are those of the items where the counter never went
/// round between two of them. Without a start it is empty. So it has no mark of damage.
pub fn reads_as_sent()
    ensures clean { (load : Load) → (items : List Item) → IsLegal load items →
        IsWithinLimits load → has_start load items ≡ true →
        Reads (stream_of load items) (map Whole (sent_packets load items)) Clean }
    ensures silent { (load : Load) → (items : List Item) → IsLegal load items →
        IsWithinLimits load → has_start load items ≡ false →
        stream_of load items ≡ [] }
    ensures events { (load : Load) → (items : List Item) →
        map (λ p. p.event) (sent_packets load items) ≡
        map (λ e. e.event) (sent_events load items) }
    ensures times { (load : Load) → (items : List Item) → IsLegal load items →
        IsWithinLimits load → IsCalm load items →
        timed (sent_packets load items) ≡ sent_events load items }
    ensures alone { (load : Load) → (items : List Item) → (entries : List (Entry Packet)) →
        (end : End) → IsLegal load items → IsWithinLimits load →
        Reads (stream_of load items) entries end →
        entries ≡ map Whole (sent_packets load items) }
    ensures never_damaged { (load : Load) → (items : List Item) →
        (entries : List (Entry Packet)) → (end : End) → IsLegal load items →
        IsWithinLimits load → Reads (stream_of load items) entries end →
        ((has_start load items ≡ true) × (end ≡ Clean)) ⊎
        ((has_start load items ≡ false) × (end ≡ NoSync)) }
{}
