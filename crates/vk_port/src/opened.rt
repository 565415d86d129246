//! That what a frame opens as is a packet that code can hold.

ghost use Rattle.std.specs.Prelude.{◌<◌, ℕ, slice_index};
ghost use Rattle.vk_rules.specs.Frames.{unsealed_of};
ghost use Rattle.v_lawful.specs.Sending.{IsUnsealed};

use vk_frame::unseal;
use vk_packet::packets_are_spelled_once;

/// What the bytes open as is a packet that code can hold, where it is one. Changes nothing.
pub fn frame_is(bytes: &[u8])
    ensures { IsUnsealed (unsealed_of bytes.now) }
{
    packets_are_spelled_once();
    match unseal(bytes) {
        Some((_, rest)) => are_bytes(rest),
        None => {}
    }
}

fn are_bytes(_bytes: &[u8])
    ensures { (i : ℕ) → slice_index _bytes.now i < 256 }
{}
