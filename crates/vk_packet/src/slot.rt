//! A place for one packet.

use crate::draft::FrameDraft;
use crate::packet::PacketView;
use crate::writing::write;
use std::marker::Model;
use vk_base::limits::HEADER_BYTES;
use vk_wire::PACKET_BYTES;

/// Room for one frame: the bytes in front of the packet, as many as a header has, and the packet's behind them; and the station that
/// the packet is for.
#[derive(Drop)]
pub struct Slot {
    to: u16,
    bytes: FrameDraft,
}

impl Model for Slot {
    ghost use Rattle.std.specs.Prelude.{length, take, drop, ◌≤◌};
    ghost use Rattle.vk_base.specs.declared.limits.TheConstants.{HEADER_BYTES};
    ghost use Rattle.vk_packet.specs.Slots.{SlotValue};

    ghost Value = { SlotValue };

    ghost view = { λ s. record { to = s.to; front = take HEADER_BYTES s.bytes; packet = drop HEADER_BYTES s.bytes } };

    ghost invariant = { λ s. HEADER_BYTES ≤ length s.bytes };
}

impl Slot {
    ghost use Rattle.std.specs.Prelude.{◌≡◌, ◌<◌, ◌≤◌, ◌++◌, true, length};
    ghost use Rattle.vk_packet.specs.Rules.{is_lawful};
    ghost use Rattle.vk_packet.specs.Slots.{empty_slot};
    ghost use Rattle.vk_packet.specs.Spelling.{packet_bytes};
    ghost use Rattle.vk_packet.specs.Views.{value_of};

    /// A slot without a packet, and zeros in front of it.
    pub fn empty() -> Self
        ensures { result ≡ empty_slot }
    {
        let mut bytes = FrameDraft::new();
        bytes.put(&[0; HEADER_BYTES]);
        Slot { to: 0, bytes }
    }

    /// Has this packet from now on, behind the same front.
    #[inline(always)]
    pub fn fill(&mut self, to: u16, packet: &PacketView)
        requires { is_lawful (value_of packet.now) ≡ true }
        ensures value { self.new ≡ record self.old { to = to; packet = packet_bytes (value_of packet.now) } }
        ensures some { 0 < length self.new.packet }
    {
        self.to = to;
        self.bytes.cut_back(HEADER_BYTES);
        write(packet, &mut self.bytes);
    }

    /// Has these bytes in front of the packet from now on.
    #[inline(always)]
    pub fn put_front(&mut self, front: &[u8; HEADER_BYTES])
        ensures { self.new ≡ record self.old { front = front.now } }
    {
        self.bytes.put_first(front);
    }

    /// The station that the packet is for.
    pub fn to(&self) -> u16
        ensures { result ≡ self.now.to }
    {
        self.to
    }

    /// The packet's bytes.
    pub fn packet(&self) -> &[u8]
        ensures value { result.now ≡ self.now.packet }
        ensures few { length result.now ≤ PACKET_BYTES }
    {
        let (_, packet) = self.bytes.as_slice().split_at(HEADER_BYTES);
        packet
    }

    /// What stands in front of the packet, and its bytes.
    pub fn framed(&self) -> &[u8]
        ensures { result.now ≡ self.now.front ++ self.now.packet }
    {
        self.bytes.as_slice()
    }
}
