//! Texts of stations, whose logs are joined to one schedule.

ghost use Rattle.std.specs.Prelude.{◌≡◌, ◌⊎◌, nat_lt, position, None, Some, IfOk, IfErr, OnOk};
ghost use Rattle.vk_schedule.specs.Lawful.{IsLawful};
ghost use Rattle.vk_schedule.specs.Schedule.{schedule_of};
ghost use Rattle.vk_schedule.specs.Spelling.{schedule_text};
ghost use Rattle.vk_join.specs.Joined.{IsJoined};
ghost use Rattle.vk_schedule.specs.declared.log.StationLog.{StationLog as TheLog};
ghost use Rattle.vk_event.specs.NodeLaws.{IsLawfulNodes};
ghost use Rattle.vk_top.specs.Joins.{IsJoinOutput, in_order, nodes_refusal, put_log};
ghost use Rattle.vk_top.specs.Work.{IsRefusal};
ghost use Rattle.vk_top.specs.declared.words.TextCommand.TheVariants as asked;

use crate::status::Status;
use std::alloc::Global;
use vk_base::{List, NoMemory};
use vk_event::{NodeTexts, read_nodes};
use vk_join::{JoinRefusal, StationLog, join_stations};
use vk_schedule::{Schedule, write_schedule};

/// The place of the first log of a greater host.
fn first_behind(logs: &[StationLog], host: u16) -> Option<usize>
    ensures { result ≡ position (λ (l : TheLog). nat_lt host l.host) logs.now }
{
    logs.iter().position(|log| host < log.host)
}

/// Puts the log in front of the first of a greater host, else behind the others.
fn put_log(logs: &mut Vec<StationLog>, log: StationLog) -> Result<(), NoMemory>
    ensures { OnOk result (logs.new.items ≡ put_log logs.old.items log) }
{
    match first_behind(logs, log.host) {
        Some(at) => logs.insert(at, log)?,
        None => logs.push(log)?,
    }
    Ok(())
}

/// The logs by rising hosts.
fn in_order(alloc: Global, logs: List<StationLog>) -> Result<Vec<StationLog>, NoMemory>
    ensures { IfOk result (λ sorted. sorted.items ≡ in_order logs) }
{
    let mut sorted = Vec::new(alloc);
    for log in logs.into_vec() {
        put_log(&mut sorted, log)?;
    }
    Ok(sorted)
}

/// The schedule that says what the texts of stations say.
fn joined(alloc: Global, nodes: NodeTexts) -> Result<Schedule, JoinRefusal>
    requires { IsLawfulNodes nodes }
    ensures joined { IfOk result (IsJoined nodes.config (in_order nodes.logs)) }
    ensures lawful { IfOk result IsLawful }
    ensures none { OnOk result (nodes_refusal nodes ≡ None) }
    ensures refused { IfErr result (λ e. (e ≡ JoinRefusal.NoMemory) ⊎ (nodes_refusal nodes ≡ Some e)) }
{
    let NodeTexts { config, logs } = nodes;
    let logs = in_order(alloc, logs)?;
    join_stations(alloc, &config, logs)
}

/// The text of the schedule that says what the texts of stations say.
pub(crate) fn joined_text(alloc: Global, text: &[u8]) -> Result<Vec<u8>, Status>
    ensures output { IfOk result (λ output. IsJoinOutput text.now output.items) }
    ensures refused { IfErr result (IsRefusal asked.Join text.now) }
{
    let nodes = read_nodes(alloc, text)?;
    let schedule = joined(alloc, nodes)?;
    let output = write_schedule(alloc, &schedule)?;
    Ok(output)
}
