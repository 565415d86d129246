//! The steps of a station's last event as text.

ghost use Rattle.std.specs.Prelude.{◌≡◌, ◌⊎◌, Some, length};
ghost use Rattle.v_trace.specs.Texts.{step_text};
ghost use Rattle.vk_c.specs.Border.{HasStep, IsStep, IsFront, step_count, step_status, text_status};
ghost use Rattle.vk_c.specs.declared.status.TheConstants.{NO_MEMORY, OK};

use crate::reading::put_front;
use crate::station::Station;
use crate::status;
use std::alloc::Global;
use v_trace::put_step;
use vk_brief::StepView;
use vk_host::Host;

/// How many steps the last event of the station has; 0 where it holds none.
#[unsafe(no_mangle)]
pub extern "C" fn vk_station_step_count(alloc: Global, station: &mut Station) -> u32
    ensures count { result ≡ step_count station.old.value }
    ensures same { station.new.value ≡ station.old.value }
{
    let Some(held) = station.take(alloc) else {
        return 0;
    };
    let count = held.steps().len() as u32;
    station.put(held);
    count
}

/// Copies the text of step number `at` of the last event, counted from 0, to the front of `room`, and tells its length. It is a line of a
/// trace, without a line feed.
#[unsafe(no_mangle)]
pub extern "C" fn vk_station_step(
    alloc: Global,
    station: &mut Station,
    at: u32,
    room: &mut [u8],
    len: &mut usize,
) -> u32
    ensures status { (result ≡ step_status station.old.value at (length room.old)) ⊎ (result ≡ NO_MEMORY) }
    ensures step { result ≡ OK → HasStep station.old.value at room.new len.new }
    ensures same { station.new.value ≡ station.old.value }
    ensures refused { (result ≡ OK → ⊥) → (room.new ≡ room.old) × (len.new ≡ len.old) }
{
    let Some(held) = station.take(alloc) else {
        return status::NO_STATION;
    };
    let status = put_text(alloc, held.as_ref(), at, room, len);
    station.put(held);
    status
}

fn put_text(alloc: Global, host: &Host, at: u32, room: &mut [u8], len: &mut usize) -> u32
    ensures status { (result ≡ step_status (Some host.now) at (length room.old)) ⊎ (result ≡ NO_MEMORY) }
    ensures step { result ≡ OK → IsStep host.now at room.new len.new }
    ensures refused { (result ≡ OK → ⊥) → (room.new ≡ room.old) × (len.new ≡ len.old) }
{
    let steps = host.steps();
    if (at as usize) < steps.len() {
        put_step_text(alloc, &steps.get(at as usize), room, len)
    } else {
        status::NO_STEP
    }
}

fn put_step_text(alloc: Global, step: &StepView, room: &mut [u8], len: &mut usize) -> u32
    ensures status { (result ≡ text_status (Some step.now) (length room.old)) ⊎ (result ≡ NO_MEMORY) }
    ensures step { result ≡ OK → IsFront (step_text step.now) room.new len.new }
    ensures refused { (result ≡ OK → ⊥) → (room.new ≡ room.old) × (len.new ≡ len.old) }
{
    let mut text = Vec::new(alloc);
    if put_step(alloc, &mut text, step).is_err() {
        return status::NO_MEMORY;
    }
    if put_front(room, &text) {
        *len = text.len();
        status::OK
    } else {
        status::NO_ROOM
    }
}
