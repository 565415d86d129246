//! The record of a node.
ghost use Rattle.std.specs.Prelude.{◌≡◌, ◌++◌, ◌∷◌, [], false, ℕ, List, map, IfOk};
ghost use Rattle.v_node.specs.Jobs.{NodeEnd as AllEnds};
ghost use Rattle.vk_base.specs.Settings.{stations_of};
ghost use Rattle.v_node.specs.Sent.{AreOwnFrames};
ghost use Rattle.v_run.specs.Outcomes.{Assignment};
ghost use Rattle.vk_event.specs.declared.port.StationPort.{StationPort as ThePort};
ghost use Rattle.vk_port.specs.Stations.{entries_after};
ghost use Rattle.v_run.specs.Passages.{fresh_station};
ghost use Rattle.vk_udp.specs.Ended.{HasNodeEnds, HaveNodeEnded};
ghost use Rattle.vk_udp.specs.Gathered.{own_end};
ghost use Rattle.vk_udp.specs.Node.{HasSent, IsNodeRecord, IsRecordOf, TellsLink};
ghost use Rattle.vk_udp.specs.Wires.{HasNothing, IsNewLink};

use crate::gather::{NodeSite, all_fit, close_node, own_ends, take_carried};
use crate::link::{Link, Wire};
use crate::work::{Carried, NodeEnd};
use std::alloc::Global;
use thiserror::Error;
use turn_cell::TurnSeat;
use v_node::{closed_nodes_are_runs, nodes_send_their_own};
use vk_base::{Config, NoMemory};
use vk_cluster::pids_are;
use vk_hub::HubState;
use vk_join::{StationLog, all_readable};
use vk_threads::{End, has_met_full, has_met_no_memory};

/// What happened at a node.
#[derive(Drop)]
pub struct NodeRecord {
    pub log: StationLog,
    /// It was halted where a history could not grow any more.
    pub limited: bool,
}

/// Why there is no record of a node.
#[derive(Clone, Copy, Debug, PartialEq, Eq, Error)]
pub enum NodeRefusal {
    /// The wire failed, or a link of it.
    #[error("the link failed")]
    LinkFault,
    /// The crew failed.
    #[error("the crew failed")]
    CrewFault,
    /// There was no memory.
    #[error("out of memory")]
    NoMemory,
}

/// The record of a node whose link met no fault, from what its jobs gave back.
fn whole_record(
    alloc: Global,
    config: &Config,
    node: NodeSite,
    ends: Vec<End>,
    fetches: TurnSeat<HubState>,
    halt: TurnSeat<HubState>,
) -> Result<NodeRecord, NoMemory>
    requires station { node.cell.origin ≡ fresh_station config.now node.host }
    requires ended { (rounds : ℕ) × (tasks : List Assignment) × (n : AllEnds) ×
        HaveNodeEnded config.now node.host node.cell node.hub rounds tasks n ends.items fetches halt }
    ensures ran { IfOk result (λ r. (rounds : ℕ) (tasks : List Assignment) (n : AllEnds) →
        HaveNodeEnded config.now node.host node.cell node.hub rounds tasks n ends.items fetches halt → n.link.failed ≡ false →
        IsRecordOf config.now node.host rounds tasks n.link.handed r.limited r.log) }
    ensures own { IfOk result (λ r. (rounds : ℕ) (tasks : List Assignment) (n : AllEnds) →
        HaveNodeEnded config.now node.host node.cell node.hub rounds tasks n ends.items fetches halt →
        AreOwnFrames node.hub.origin.plan node.host n.link.errands (entries_after config.now node.host r.log.events)) }
{
    let _lawful = config.times();
    pids_are(config.specs());
    closed_nodes_are_runs();
    nodes_send_their_own();
    let limited = has_met_full(&ends);
    if has_met_no_memory(&ends) {
        return Err(NoMemory);
    }
    let log = close_node(alloc, node, ends, fetches, halt)?;
    all_readable(log.events.as_slice());
    all_fit(log.events.as_slice());
    Ok(NodeRecord { log, limited })
}

/// The ends of all jobs, as all jobs have them.
fn all_ends<L: Link>(alloc: Global, ends: Vec<NodeEnd<L>>, last: End) -> Result<Vec<End>, NoMemory>
    ensures { IfOk result (λ all. all.items ≡ map own_end ends.items ++ last ∷ []) }
{
    let mut all = own_ends(alloc, ends)?;
    all.push(last)?;
    Ok(all)
}

/// The record of a node, from what its jobs gave back. The wire takes the link back.
pub fn record_of<W: Wire>(
    alloc: Global,
    config: &Config,
    node: NodeSite,
    ends: Vec<NodeEnd<W::L>>,
    halt: TurnSeat<HubState>,
    wire: &mut W,
) -> Result<NodeRecord, NodeRefusal>
    requires station { node.cell.origin ≡ fresh_station config.now node.host }
    requires ended { (rounds : ℕ) × (ports : List ThePort) × (tasks : List Assignment) × (start : W.L) ×
        HasNodeEnds W.L.handed W.L.sent W.L.fault_count config.now node.host node.cell node.hub rounds ports tasks start ends.items halt }
    ensures ran { IfOk result (λ r. (rounds : ℕ) (ports : List ThePort) (tasks : List Assignment) (start : W.L) →
        IsNewLink (W.handed wire.old) (W.L.handed start) (W.L.fault_count start) →
        HasNodeEnds W.L.handed W.L.sent W.L.fault_count config.now node.host node.cell node.hub rounds ports tasks start ends.items halt →
        IsNodeRecord config.now node.host rounds tasks (W.handed wire.old) (W.handed wire.new) r.limited r.log) }
    ensures sent { IfOk result (λ r. (rounds : ℕ) (ports : List ThePort) (tasks : List Assignment) (start : W.L) →
        HasNothing (W.sent wire.old) (W.L.sent start) →
        HasNodeEnds W.L.handed W.L.sent W.L.fault_count config.now node.host node.cell node.hub rounds ports tasks start ends.items halt →
        node.hub.origin.stations ≡ stations_of config.now.specs →
        HasSent config.now node.host node.hub.origin.plan ports r.log.events (W.sent wire.old) (W.sent wire.new)) }
    ensures fault { TellsLink (W.fault_count wire.old) (W.fault_count wire.new) result }
{
    let mut ends = ends;
    let Carried {
        end,
        hub_seat,
        link,
    } = take_carried(&mut ends);
    let failed = link.faults() > 0;
    wire.close(link);
    if failed {
        return Err(NodeRefusal::LinkFault);
    }
    let Ok(all) = all_ends(alloc, ends, end) else {
        return Err(NodeRefusal::NoMemory);
    };
    match whole_record(alloc, config, node, all, hub_seat, halt) {
        Ok(record) => Ok(record),
        Err(NoMemory) => Err(NodeRefusal::NoMemory),
    }
}
