//! Frames: what goes from station to station. A header of 32 bytes, and one packet behind it.
//!
//! Stands on the bytes of `vk_base`, the fields of `vk_wire` and on `arrayvec`. What the packet is, this crate does not ask.
#![tactic(auto)]

mod frame;
mod header;
mod law;

pub use frame::{header_bytes, seal, unseal};
pub use header::{Header, is_young};
pub use law::frames_are_spelled_once;
