ghost use Rattle.std.specs.Prelude.{◌≡◌, ◌+◌, ◌≤◌, false, [], length, map, IfOk};
ghost use Rattle.vk_base.specs.Settings.{stations_of};
ghost use Rattle.vk_hub.specs.Hubs.{answered, fetched_in, have_finished, is_at_limit, is_halt, is_idle, is_ready, nothing_for, origin_of, others, traffic_of};

use crate::event::HubEvent;
use crate::inbox::Inbox;
use crate::links::Links;
use crate::out::HubOut;
use std::alloc::{AllocError, Global};
use std::marker::Model;
use turn_cell::{Past, Replay, Room};
use vk_base::Config;
use vk_schedule::LinkPlan;

/// The greatest number of entries that are no halt.
const MOST: usize = 200_000;

/// The state of a hub, which is the replay of its history. Contracts see its link plan, its stations, how many programs there are, and the
/// history, which no code sees.
#[derive(Drop)]
pub struct HubState {
    plan: LinkPlan,
    stations: Vec<u16>,
    programs: u32,
    past: Past<HubEvent>,
    // How many entries are no halt.
    others: usize,
    links: Links,
}

impl Model for HubState {
    ghost use Rattle.vk_hub.specs.Hubs.{HubLog};
    ghost use Rattle.vk_hub.specs.Kept.{IsHubKept};

    ghost Value = { HubLog };

    ghost view = { λ h. record { plan = h.plan; stations = h.stations.items; programs = h.programs; history = h.past } };

    ghost invariant = { λ h. IsHubKept h.plan h.stations.items h.programs h.links h.past h.others };
}

// The stations, by rising hosts.
fn stations_of(alloc: Global, config: &Config) -> Result<Vec<u16>, AllocError>
    ensures { IfOk result (λ v. v.items ≡ stations_of config.now.specs) }
{
    let count = config.station_count();
    let mut stations = Vec::with_capacity(alloc, count as usize)?;
    for at in 0..count {
        stations.push(config.station(at))?;
    }
    Ok(stations)
}

// An empty inbox for each station.
fn inboxes_of(alloc: Global, stations: &[u16]) -> Result<Vec<Inbox>, AllocError>
    ensures { IfOk result (λ v. v.items ≡ map nothing_for stations.now) }
{
    let mut inboxes = Vec::with_capacity(alloc, stations.len())?;
    for station in stations {
        inboxes.push(Inbox::new(alloc, *station)?)?;
    }
    Ok(inboxes)
}

impl HubState {
    /// With no entry.
    pub fn new(
        alloc: Global,
        config: &Config,
        plan: LinkPlan,
        programs: u32,
    ) -> Result<HubState, AllocError>
        ensures plan { IfOk result (λ h. h.plan ≡ plan) }
        ensures stations { IfOk result (λ h. h.stations ≡ stations_of config.now.specs) }
        ensures programs { IfOk result (λ h. h.programs ≡ programs) }
        ensures empty { IfOk result (λ h. h.history ≡ []) }
    {
        let stations = stations_of(alloc, config)?;
        let inboxes = inboxes_of(alloc, &stations)?;
        Ok(HubState {
            plan,
            stations,
            programs,
            past: Past::new(),
            others: 0,
            links: Links::new(plan.seed, inboxes),
        })
    }

    /// How many entries its history has: at most one halt, and beside it at most 200,000.
    pub fn entry_count(&self) -> usize
        ensures count { result ≡ length self.now.history }
        ensures one_halt { length self.now.history ≤ others self.now.history + 1 }
        ensures few { others self.now.history ≤ 200000 }
    {
        self.others + self.links.is_halted() as usize
    }

    /// Whether as many programs have finished as are to.
    pub fn has_finished(&self) -> bool
        ensures { result ≡ have_finished self.now }
    {
        self.links.have_finished(self.programs)
    }

    /// Whether no frame waits for any station, and none is held back.
    pub fn is_idle(&self) -> bool
        ensures { result ≡ is_idle self.now }
    {
        self.links.is_idle()
    }
}

impl Replay for HubState {
    type Event = HubEvent;

    type Out = HubOut;

    ghost history = { λ h. h.history };

    ghost origin = { origin_of };

    ghost event_fits = { λ o e. Unit {0} };

    ghost out_fits = { λ e out. Unit {0} };

    ghost full_at = { λ o h e. is_at_limit h e };

    ghost ready_at = { λ o h e. is_ready o.programs (traffic_of o h) e };

    ghost has_own_room = { is_halt };

    ghost has_room = { λ s e. is_at_limit s.history e ≡ false };

    ghost gives = { λ o h caller e out new. fetched_in new ≡ answered o.programs (traffic_of o h) e };

    fn room(&mut self, _alloc: Global, event: &HubEvent) -> Result<(), Room> {
        let full = if event.is_halt() {
            self.links.is_halted()
        } else {
            self.others >= MOST
        };
        if full { Err(Room::Full) } else { Ok(()) }
    }

    fn is_ready(&self, event: &HubEvent) -> bool {
        self.links.is_ready(self.programs, event)
    }

    fn act(&mut self, caller: u32, event: &HubEvent, out: &mut HubOut) {
        self.links.change(&self.plan, self.programs, event, out);
        self.past.push(caller, event);
        self.others += !event.is_halt() as usize;
    }
}
