//! The law of packets.

ghost use Rattle.vk_packet.specs.Laws.{NothingElseIsRead, WrittenIsRead};

/// What is written of a packet is read again, and no other bytes read as it.
pub fn packets_are_spelled_once()
    ensures read { NothingElseIsRead }
    ensures written { WrittenIsRead }
{}
