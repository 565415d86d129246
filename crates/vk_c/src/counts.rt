//! What a station counts.

ghost use Rattle.std.specs.Prelude.{◌≡◌};
ghost use Rattle.vk_c.specs.Border.{events_of, now_of, number_in};

use crate::station::Station;
use std::alloc::Global;

/// The tick of the station; 0 where it holds none.
#[unsafe(no_mangle)]
pub extern "C" fn vk_station_now(alloc: Global, station: &mut Station) -> u64
    ensures now { result ≡ now_of station.old.value }
    ensures same { station.new.value ≡ station.old.value }
{
    let Some(held) = station.take(alloc) else {
        return 0;
    };
    let now = held.now();
    station.put(held);
    now
}

/// The Lamport number of the station; 0 where it holds none.
#[unsafe(no_mangle)]
pub extern "C" fn vk_station_number(alloc: Global, station: &mut Station) -> u64
    ensures number { result ≡ number_in station.old.value }
    ensures same { station.new.value ≡ station.old.value }
{
    let Some(held) = station.take(alloc) else {
        return 0;
    };
    let number = held.number();
    station.put(held);
    number
}

/// How many events the station had; 0 where it holds none.
#[unsafe(no_mangle)]
pub extern "C" fn vk_station_events(alloc: Global, station: &mut Station) -> u64
    ensures events { result ≡ events_of station.old.value }
    ensures same { station.new.value ≡ station.old.value }
{
    let Some(held) = station.take(alloc) else {
        return 0;
    };
    let events = held.events();
    station.put(held);
    events
}
