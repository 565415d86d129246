//! What comes back from jobs, and the histories that it closes.
ghost use Rattle.std.specs.Prelude.{◌≡◌, ◌&&◌, ℕ, true, ◌++◌, ◌∷◌, [], All, length, map, vec_len, filter, flat_map, IfOk, OnOk, not};
ghost use Rattle.std.specs.List.{list_any};
ghost use Rattle.turn_cell.specs.Seats.{IsSeatOf};
ghost use Rattle.v_run.specs.Laws.{IsStill, NoneIsReady};
ghost use Rattle.vk_port.specs.Stations.{origin_of};
ghost use Rattle.vk_threads.specs.Gathered.{AreReady, AreShut, HasGathered, HasShut, HaveClosed, all_spares, with_halt, hub_seat_in, is_at, is_elsewhere, met_full, met_no_memory, seat_in, seats_at, spare_of};

use crate::end::{End, Seats};
use crate::opening::{Site, Spare};
use std::alloc::Global;
use turn_cell::{Replay, Room, TurnSeat};
use vk_base::{NoMemory, ProcessSpec, StationEvent};
use vk_hub::{Hub, HubState};
use vk_join::BriefLog;
use vk_port::Station;

/// All seats that came back, in order.
#[derive(Drop)]
pub struct Gathered {
    pub seats: Vec<Spare>,
    pub hub_seats: Vec<TurnSeat<HubState>>,
}

/// Whether a job met a history that may not grow.
pub fn has_met_full(ends: &[End]) -> bool
    ensures { result ≡ list_any met_full ends.now }
{
    ends.iter().any(|end| matches!(end.met, Some(Room::Full)))
}

/// Whether a job was without memory.
pub fn has_met_no_memory(ends: &[End]) -> bool
    ensures { result ≡ list_any met_no_memory ends.now }
{
    ends.iter()
        .any(|end| matches!(end.met, Some(Room::NoMemory)))
}

/// The seats of all jobs, in order.
pub fn gather_all(alloc: Global, ends: Vec<End>) -> Result<Gathered, NoMemory>
    ensures { IfOk result (HasGathered ends.items) }
{
    let mut all = Gathered {
        seats: Vec::new(alloc),
        hub_seats: Vec::new(alloc),
    };
    for end in ends {
        let End { seats, met: _ } = end;
        match add_seats(&mut all.seats, &mut all.hub_seats, seats) {
            Ok(()) => {}
            Err(refused) => return Err(refused),
        }
    }
    Ok(all)
}

fn add_seats(
    spares: &mut Vec<Spare>,
    hub_seats: &mut Vec<TurnSeat<HubState>>,
    seats: Vec<Seats>,
) -> Result<(), NoMemory>
    ensures spares { OnOk result (spares.new.items ≡ spares.old.items ++ map spare_of seats.items) }
    ensures hub_seats { OnOk result (hub_seats.new.items ≡ hub_seats.old.items ++ map hub_seat_in seats.items) }
{
    for two in seats {
        let Seats {
            host,
            seat,
            hub_seat,
        } = two;
        spares.push(Spare { host, seat })?;
        hub_seats.push(hub_seat)?;
    }
    Ok(())
}

/// The seats of the station, and the others.
fn parted(
    alloc: Global,
    seats: Vec<Spare>,
    host: u16,
) -> Result<(Vec<TurnSeat<Station>>, Vec<Spare>), NoMemory>
    ensures own { IfOk result (λ r. r.0.items ≡ seats_at host seats.items) }
    ensures others { IfOk result (λ r. r.1.items ≡ filter (is_elsewhere host) seats.items) }
{
    let mut own = Vec::new(alloc);
    let mut others = Vec::new(alloc);
    for spare in seats {
        if spare.host == host {
            let Spare { host: _, seat } = spare;
            own.push(seat)?;
        } else {
            others.push(spare)?;
        }
    }
    Ok((own, others))
}

/// Whether none of these processes has an answer to collect at the station.
fn none_is_done(station: &Station, specs: &[ProcessSpec]) -> bool
    ensures { result ≡ true → NoneIsReady specs.now (origin_of station.now) station.now.history }
{
    for spec in specs {
        if station.is_ready(&StationEvent::Collect { pid: spec.pid }) {
            return false;
        }
    }
    true
}

/// Whether the station ticked so often, and none of these processes has an answer to collect there.
fn is_still(station: &Station, specs: &[ProcessSpec], rounds: u32) -> bool
    ensures { result ≡ true → IsStill specs.now rounds (origin_of station.now) station.now.history }
{
    station.tick() == u64::from(rounds) && none_is_done(station, specs)
}

/// The log of a station, all of whose seats have come back, and whether it ticked so often and none of these processes has an answer to
/// collect there.
fn shut(
    site: Site,
    own: Vec<TurnSeat<Station>>,
    specs: &[ProcessSpec],
    rounds: u32,
) -> (BriefLog, bool)
    requires seats { All (λ s. IsSeatOf site.cell s) own.items }
    requires all { vec_len own ≡ site.cell.seats }
    ensures { HasShut specs.now rounds result.1 site own.items result.0 }
{
    let Site { host, cell } = site;
    let station = cell.close(own);
    let _count = station.event_count();
    let still = is_still(&station, specs, rounds);
    (BriefLog::new(host, station.into_events()), still)
}

/// The logs of all stations, whose seats have come back, and whether each ticked so often and none of these processes has an answer to
/// collect.
pub fn close_all(
    alloc: Global,
    sites: Vec<Site>,
    seats: Vec<Spare>,
    specs: &[ProcessSpec],
    rounds: u32,
) -> Result<(Vec<BriefLog>, bool), NoMemory>
    requires { AreReady sites.items seats.items }
    ensures { IfOk result (λ r. AreShut specs.now rounds r.1 sites.items seats.items r.0.items) }
{
    let mut logs = Vec::new(alloc);
    let mut all_still = true;
    let mut left = seats;
    for site in sites {
        let (own, others) = parted(alloc, left, site.host)?;
        left = others;
        let (log, still) = shut(site, own, specs, rounds);
        logs.push(log)?;
        all_still = all_still && still;
    }
    Ok((logs, all_still))
}

fn are_both(one: bool, two: bool) -> bool
    ensures { result ≡ (one && two) }
{
    one && two
}

/// What was closed of a run.
#[derive(Drop)]
pub struct Closed {
    /// The logs of the stations, by rising hosts.
    pub logs: Vec<BriefLog>,
    /// All programs have finished.
    pub finished: bool,
    /// Each station ticked all rounds, no process has an answer to collect, and no frame is on its way.
    pub still: bool,
}

/// Closes all stations and the hub, once all jobs have ended.
pub fn close_run(
    alloc: Global,
    sites: Vec<Site>,
    hub: Hub,
    ends: Vec<End>,
    halt: TurnSeat<HubState>,
    specs: &[ProcessSpec],
    rounds: u32,
) -> Result<Closed, NoMemory>
    requires ready { AreReady sites.items (all_spares ends.items) }
    requires seats { All (λ s. IsSeatOf hub s) (with_halt ends.items halt) }
    requires all { length (with_halt ends.items halt) ≡ hub.seats }
    ensures { IfOk result (HaveClosed specs.now rounds sites.items hub ends.items halt) }
{
    let Gathered {
        seats,
        mut hub_seats,
    } = gather_all(alloc, ends)?;
    hub_seats.push(halt)?;
    let closed = hub.close(hub_seats);
    let finished = closed.has_finished();
    let idle = closed.is_idle();
    let (logs, still) = close_all(alloc, sites, seats, specs, rounds)?;
    Ok(Closed {
        logs,
        finished,
        still: are_both(idle, still),
    })
}
