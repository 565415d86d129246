//! What a station's last event left: its frames, and the bytes that were loaded.

ghost use Rattle.std.specs.Prelude.{◌≡◌, ◌<◌, ◌≤◌, ◌++◌, true, false, nat_le, drop, length, slice_get};
ghost use Rattle.vk_base.specs.Pids.{pid_of_numbers};
ghost use Rattle.vk_c.specs.Border.{HasFrame, HasLoaded, IsDone, IsFrame, found_status, frame_count, frame_status, loaded_status, room_status};
ghost use Rattle.vk_c.specs.declared.status.TheConstants.{OK};

use crate::station::Station;
use crate::status;
use std::alloc::Global;
use vk_base::Pid;
use vk_host::Host;

/// 1 where the process of these numbers has an answer to collect, else 0. A collect that comes too early is an event too, which is refused.
#[unsafe(no_mangle)]
pub extern "C" fn vk_station_is_done(
    alloc: Global,
    station: &mut Station,
    host: u16,
    local: u16,
) -> u32
    ensures done { IsDone station.old.value (pid_of_numbers host local) result }
    ensures same { station.new.value ≡ station.old.value }
{
    let Some(held) = station.take(alloc) else {
        return 0;
    };
    let done = match Pid::new(host, local) {
        Some(pid) if held.has(pid) => u32::from(held.is_done(pid)),
        _ => 0,
    };
    station.put(held);
    done
}

/// How many frames the last event of the station sends; 0 where it holds none.
#[unsafe(no_mangle)]
pub extern "C" fn vk_station_frame_count(alloc: Global, station: &mut Station) -> u32
    ensures count { result ≡ frame_count station.old.value }
    ensures same { station.new.value ≡ station.old.value }
{
    let Some(held) = station.take(alloc) else {
        return 0;
    };
    let count = held.frame_count();
    station.put(held);
    count
}

/// Copies frame number `at` of the last event, counted from 0, to the front of `room`, and tells its length and the station that it is
/// for, or 65,535 for all. A frame has at most 1,152 bytes.
#[unsafe(no_mangle)]
pub extern "C" fn vk_station_frame(
    alloc: Global,
    station: &mut Station,
    at: u32,
    room: &mut [u8],
    len: &mut usize,
    to: &mut u16,
) -> u32
    ensures status { result ≡ frame_status station.old.value at (length room.old) }
    ensures frame { result ≡ OK → HasFrame station.old.value at room.new len.new to.new }
    ensures same { station.new.value ≡ station.old.value }
    ensures refused { (result ≡ OK → ⊥) → (room.new ≡ room.old) × (len.new ≡ len.old) }
{
    let Some(held) = station.take(alloc) else {
        return status::NO_STATION;
    };
    let status = if at < held.frame_count() {
        if put_frame(held.as_ref(), at, room, len, to) {
            status::OK
        } else {
            status::NO_ROOM
        }
    } else {
        status::NO_FRAME
    };
    station.put(held);
    status
}

/// Copies the bytes that a Load of the process was answered with, with this start and count, to the front of `room`, and tells how many they
/// are. They stand until the next event.
#[unsafe(no_mangle)]
pub extern "C" fn vk_station_loaded(
    alloc: Global,
    station: &mut Station,
    host: u16,
    local: u16,
    start: u32,
    count: u32,
    room: &mut [u8],
    len: &mut usize,
) -> u32
    ensures status { result ≡ loaded_status station.old.value (pid_of_numbers host local) start count (length room.old) }
    ensures loaded { result ≡ OK → HasLoaded station.old.value (pid_of_numbers host local) start count room.new len.new }
    ensures same { station.new.value ≡ station.old.value }
    ensures refused { (result ≡ OK → ⊥) → (room.new ≡ room.old) × (len.new ≡ len.old) }
{
    let Some(held) = station.take(alloc) else {
        return status::NO_STATION;
    };
    let status = match Pid::new(host, local) {
        Some(pid) => {
            let bytes = held.loaded(pid, start, count);
            if put_front(room, bytes) {
                *len = bytes.len();
                status::OK
            } else {
                status::NO_ROOM
            }
        }
        None => status::NO_SUCH_PROCESS,
    };
    station.put(held);
    status
}

/// Whether the frame fits; then it is the front of the room.
fn put_frame(host: &Host, at: u32, room: &mut [u8], len: &mut usize, to: &mut u16) -> bool
    requires { at < length host.now.frames }
    ensures status { found_status (slice_get host.now.frames at) (length room.old) ≡ room_status result }
    ensures put { result ≡ true → IsFrame host.now at room.new len.new to.new }
    ensures same { result ≡ false → (room.new ≡ room.old) × (len.new ≡ len.old) }
{
    let bytes = host.frame(at);
    if !put_front(room, bytes) {
        return false;
    }
    *len = bytes.len();
    *to = host.packet(at).0;
    true
}

/// Whether the bytes fit; then they are the front of the room, and what is behind them is as it was.
pub(crate) fn put_front(room: &mut [u8], bytes: &[u8]) -> bool
    ensures fits { result ≡ nat_le (length bytes.now) (length room.old) }
    ensures put { result ≡ true → room.new ≡ bytes.now ++ drop (length bytes.now) room.old }
    ensures same { result ≡ false → room.new ≡ room.old }
{
    if bytes.len() > room.len() {
        return false;
    }
    let (front, _) = room.split_at_mut(bytes.len());
    front.copy_from_slice(bytes);
    true
}
