ghost use Rattle.std.specs.Prelude.{◌≡◌, ℕ, ◌^◌, ◌<◌, ◌↔◌, ◌++◌, List, length};
ghost use Rattle.sv_prim.specs.Code.{Begins, IsPrefixFree, IsOneReason, IsTotal};
ghost use Rattle.sv_packet.specs.declared.event.Packet.{Packet};
ghost use Rattle.sv_packet.specs.Packet.{IsPacket};
ghost use Rattle.sv_packet.specs.Reason.{packet_reason};
ghost use Rattle.sv_packet.specs.Spelling.{spelling_of, HasRange, IsValid};

/// The law of packets' spellings: a valid event and a delta below 2^32 have one, and it is that of
/// the function; nothing else has one. That the fields hold what their types can hold is so of
/// every event of a program.
pub fn spelled_as()
    ensures one { (packet : Packet) (bytes : List ℕ) →
        IsPacket packet bytes ↔
        (HasRange packet.event × IsValid packet.event × (packet.delta < 2 ^ 32)
        × (bytes ≡ spelling_of packet.event packet.delta)) }
{}

/// The law of reading packets: no spelling begins another, so none is a part of another and no two
/// packets share one; and of any bytes it can be told whether a spelling stands at their front, is
/// cut short, or breaks off where, for one reason.
pub fn spelled_once()
    ensures free { IsPrefixFree IsPacket }
    ensures total { IsTotal IsPacket packet_reason }
    ensures one_reason { IsOneReason packet_reason }
{}

/// The law of reading back: whatever follows a packet's spelling, it is what [`decode`] finds at
/// the front, since that is then the only answer.
///
/// [`decode`]: crate::decode
pub fn read_back()
    ensures { (packet : Packet) (more : List ℕ) →
        HasRange packet.event → IsValid packet.event → packet.delta < 2 ^ 32 →
        Begins IsPacket (spelling_of packet.event packet.delta ++ more) packet
        (length (spelling_of packet.event packet.delta)) }
{}
