//! How long a packet is.

use vk_base::limits::{FRAME_BYTES, HEADER_BYTES};

/// The most bytes of a packet: those of a frame behind its header.
pub const PACKET_BYTES: usize = FRAME_BYTES - HEADER_BYTES;
