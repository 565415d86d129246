//! What is drawn of the frames of an event.

ghost use Rattle.std.specs.Prelude.{◌≡◌, ◌<◌, List, length, map, slice_get, Some, IfOk};
ghost use Rattle.vk_rules.specs.Frames.{Frame as TheFrame};
ghost use Rattle.vk_cluster.specs.Shown.{Sends};
ghost use Rattle.vk_draw.specs.Rows.{frame_mark};

use std::alloc::Global;
use vk_base::{List, NoMemory};
use vk_host::Host;
use vk_picture::FrameMark;
use vk_report::kind_of;

/// The output number and the kind of frame number `at` of the station's last event, counted from 0: the kind is that of the packet's first
/// byte, and the frame is not opened.
fn frame_mark(station: &Host, at: u32) -> FrameMark
    requires at { at < length station.now.frames }
    requires sends { (fs : List TheFrame) × Sends station.now fs }
    ensures { (fs : List TheFrame) → Sends station.now fs → slice_get (map frame_mark fs) at ≡ Some result }
{
    let (_, packet) = station.packet(at);
    FrameMark {
        kind: kind_of(packet[0]),
        output: at as u16 + 1,
    }
}

/// The frames of the station's last event.
pub(crate) fn frame_marks(alloc: Global, station: &Host) -> Result<List<FrameMark>, NoMemory>
    requires { (fs : List TheFrame) × Sends station.now fs }
    ensures { IfOk result (λ marks. (fs : List TheFrame) → Sends station.now fs → marks ≡ map frame_mark fs) }
{
    let mut marks = List::empty(alloc);
    for at in 0..station.frame_count() {
        marks.push(frame_mark(station, at))?;
    }
    Ok(marks)
}
