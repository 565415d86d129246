//! The packets that stations tell each other: what they must keep to, their bytes written and read, and the packets of one event.
//!
//! Stands on the values of `vk_base`, on the fields of `vk_wire` and on `arrayvec`. Frames, and what a station does with a packet,
//! are said above.
#![tactic(auto)]

mod draft;
mod law;
mod outbox;
mod packet;
mod reading;
mod slot;
mod writing;

pub use law::packets_are_spelled_once;
pub use outbox::Outbox;
pub use packet::PacketView;
pub use reading::decode;
pub use writing::encode;
