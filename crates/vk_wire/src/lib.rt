//! The fields of frames and packets: numbers, pids and messages as bytes, read from the front of bytes and written.
//!
//! Stands on the values of `vk_base` and on `byteorder`. Which fields a frame or a packet has is said above.
#![tactic(auto)]

mod law;
mod limits;
mod reading;
mod writing;

pub use law::fields_are_spelled_once;
pub use limits::PACKET_BYTES;
pub use reading::{next_message, next_pid, next_u8, next_u16, next_u32, next_u64};
pub use writing::{bytes_of_pid, bytes_of_u16, bytes_of_u32, bytes_of_u64};
