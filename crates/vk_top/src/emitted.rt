//! What is told of a frame that was emitted.

ghost use Rattle.std.specs.Prelude.{◌≡◌, ◌<◌, List, length, map, slice_get, Some};
ghost use Rattle.vk_rules.specs.Frames.{Frame as TheFrame};
ghost use Rattle.vk_cluster.specs.Shown.{Sends};
ghost use Rattle.vk_top.specs.Report.{emitted_of};

use vk_host::Host;
use vk_report::{Emitted, kind_of};

/// The destination, the kind and the length of frame number `at` of the station's last event, counted from 0. The station tells them, of
/// the kind the packet's first byte: the frame is not opened.
pub(crate) fn emitted_of(station: &Host, at: u32) -> Emitted
    requires at { at < length station.now.frames }
    requires sends { (fs : List TheFrame) × Sends station.now fs }
    ensures { (fs : List TheFrame) → Sends station.now fs → slice_get (map emitted_of fs) at ≡ Some result }
{
    let (destination, packet) = station.packet(at);
    Emitted {
        destination,
        kind: kind_of(packet[0]),
        length: station.frame(at).len() as u32,
    }
}
