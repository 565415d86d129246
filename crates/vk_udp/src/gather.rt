//! What comes back from the jobs of a node, and the histories that it closes.
ghost use Rattle.std.specs.Prelude.{◌≡◌, ◌≤◌, ◌++◌, ◌∷◌, [], All, List, length, map, IfOk};
ghost use Rattle.turn_cell.specs.Seats.{IsSeatOf};
ghost use Rattle.vk_base.specs.declared.limits.TheConstants.{FRAME_BYTES};
ghost use Rattle.vk_rules.specs.Each.{Each};
ghost use Rattle.vk_schedule.specs.declared.log.StationLog.{StationLog as TheLog};
ghost use Rattle.vk_threads.specs.Gathered.{AreReady, all_spares};
ghost use Rattle.vk_udp.specs.declared.work.Carried.{Carried as TheCarried};
ghost use Rattle.vk_udp.specs.declared.work.NodeEnd.{NodeEnd as TheEnd};
ghost use Rattle.vk_udp.specs.declared.work.NodeEnd.TheVariants.{Carried as carried_end};
ghost use Rattle.vk_udp.specs.Gathered.{Fits, HasClosedNode, hub_seats_of, own_end, site_of};

use crate::link::Link;
use crate::work::{Carried, NodeEnd};
use std::alloc::Global;
use turn_cell::{TurnCell, TurnSeat};
use vk_base::{FrameBytes, NoMemory, StationEvent};
use vk_hub::{Hub, HubState};
use vk_join::{BriefLog, StationLog};
use vk_port::Station;
use vk_threads::{End, Gathered, Site, close_all, gather_all};

/// The station of a node under a turn, and its hub.
#[derive(Drop)]
pub struct NodeSite {
    pub host: u16,
    pub cell: TurnCell<Station>,
    pub hub: Hub,
}

/// Takes out what the last job gave back, which carried frames.
pub fn take_carried<L: Link>(ends: &mut Vec<NodeEnd<L>>) -> Carried<L>
    requires { (front : List (TheEnd L)) × (end : TheCarried L) × (ends.old.items ≡ front ++ carried_end end ∷ []) }
    ensures { ends.old.items ≡ ends.new.items ++ carried_end result ∷ [] }
{
    match ends.pop() {
        Some(NodeEnd::Carried { end }) => end,
        _ => unreachable!(),
    }
}

fn own_end<L: Link>(end: NodeEnd<L>) -> End
    ensures { result ≡ own_end end }
{
    match end {
        NodeEnd::Own { end } => end,
        NodeEnd::Carried { end } => {
            let Carried {
                end,
                hub_seat: _,
                link: _,
            } = end;
            end
        }
    }
}

/// What jobs gave back, as all jobs do.
pub fn own_ends<L: Link>(alloc: Global, ends: Vec<NodeEnd<L>>) -> Result<Vec<End>, NoMemory>
    ensures { IfOk result (λ own. own.items ≡ map own_end ends.items) }
{
    let mut own = Vec::new(alloc);
    for end in ends {
        own.push(own_end(end))?;
    }
    Ok(own)
}

/// The one log.
fn one_log(logs: Vec<BriefLog>) -> BriefLog
    requires { (log : TheLog) × (logs.items ≡ log ∷ []) }
    ensures { logs.items ≡ result ∷ [] }
{
    let mut logs = logs;
    match logs.pop() {
        Some(log) => log,
        None => unreachable!(),
    }
}

/// The station as the one site of a run.
fn one_site(alloc: Global, host: u16, cell: TurnCell<Station>) -> Result<Vec<Site>, NoMemory>
    ensures { IfOk result (λ sites. sites.items ≡ site_of host cell ∷ []) }
{
    let mut sites = Vec::new(alloc);
    sites.push(Site { host, cell })?;
    Ok(sites)
}

/// Closes the station and the hub, once all jobs have ended. Gives the station's log.
pub fn close_node(
    alloc: Global,
    node: NodeSite,
    ends: Vec<End>,
    fetches: TurnSeat<HubState>,
    halt: TurnSeat<HubState>,
) -> Result<StationLog, NoMemory>
    requires ready { AreReady (site_of node.host node.cell ∷ []) (all_spares ends.items) }
    requires seats { All (λ s. IsSeatOf node.hub s) (hub_seats_of ends.items fetches halt) }
    requires all { length (hub_seats_of ends.items fetches halt) ≡ node.hub.seats }
    ensures { IfOk result (HasClosedNode node.host node.cell node.hub ends.items fetches halt) }
{
    let NodeSite { host, cell, hub } = node;
    let Gathered {
        seats,
        mut hub_seats,
    } = gather_all(alloc, ends)?;
    hub_seats.push(fetches)?;
    hub_seats.push(halt)?;
    let _closed = hub.close(hub_seats);
    let sites = one_site(alloc, host, cell)?;
    let (logs, _still) = close_all(alloc, sites, seats, &[], 0)?;
    let log = one_log(logs);
    log.whole(alloc)
}

/// No frame has more than 1,152 bytes. Changes nothing.
pub fn all_fit(events: &[StationEvent])
    ensures { Each Fits events.now }
{
    for event in events {
        fits(event);
    }
}

fn fits(event: &StationEvent)
    ensures { Fits event.now }
{
    match event {
        StationEvent::Deliver { frame } => frame_fits(frame),
        StationEvent::Call { .. } | StationEvent::Collect { .. } | StationEvent::Tick => {}
    }
}

fn frame_fits(frame: &FrameBytes)
    ensures { length frame.now ≤ FRAME_BYTES }
{
    let _bytes = frame.as_slice();
}
