//! What happened at stations, as texts.

ghost use Rattle.std.specs.Prelude.{◌≡◌, ◌⊎◌, ◌+◌, ◌≤◌, Ok, Err, IfOk, IfErr, length, drop};
ghost use Rattle.vk_base.specs.declared.limits.TheConstants.{PROCESSES, STATIONS};
ghost use Rattle.vk_text.specs.Lines.{lines_of};
ghost use Rattle.vk_text.specs.Openings.{line_number};
ghost use Rattle.vk_event.specs.NodeLaws.{IsLawfulNodes};
ghost use Rattle.vk_event.specs.NodePlaces.{AreLogs, IsEnd, lines_at};
ghost use Rattle.vk_event.specs.Nodes.{HasNodeProcess, node_opening, nodes_of};

use crate::node_place::{Due, FirstText};
use std::alloc::Global;
use vk_base::{Config, List, NoMemory, StationEvent};
use vk_schedule::{StationLog, TextRefusal};
use vk_text::{Head, OpeningRefusal, next_line, read_opening};

/// A configuration, and what happened at some of its stations, in the order of their texts.
#[derive(Drop)]
pub struct NodeTexts {
    pub config: Config,
    pub logs: List<StationLog>,
}

/// The opening of the first text, which has the title of format 2 alone.
fn open(alloc: Global, text: &[u8]) -> Result<Head, TextRefusal>
    ensures opening { IfOk result (λ h. node_opening (lines_of text.now) ≡ Ok (h.config, lines_of (drop h.at text.now))) }
    ensures line { IfOk result (λ h. h.line ≡ line_number (lines_of text.now) (lines_of (drop h.at text.now))) }
    ensures few { IfOk result (λ h. h.line ≤ PROCESSES + STATIONS + 3) }
    ensures least { IfOk result (λ h. 2 ≤ h.line) }
    ensures within { IfOk result (λ h. h.at ≤ length text.now) }
    ensures refused { IfErr result (λ e. ((e ≡ TextRefusal.NoMemory) × HasNodeProcess text.now) ⊎ (nodes_of text.now ≡ Err e)) }
{
    let Some((line, _)) = next_line(text, 0) else {
        return Err(TextRefusal::BadInput { line: 1 });
    };
    if line != b"vkernel node 1".as_slice() {
        return Err(TextRefusal::BadInput { line: 1 });
    }
    match read_opening(alloc, text, b"vkernel 1", b"vkernel node 1") {
        Ok(head) => Ok(head),
        Err(OpeningRefusal::Bad { line }) => Err(TextRefusal::BadInput { line }),
        Err(OpeningRefusal::NoMemory) => Err(TextRefusal::NoMemory),
    }
}

/// Where the second line starts, or the end where there is none.
fn second_line(text: &[u8]) -> usize
    ensures { lines_of (drop result text.now) ≡ drop 1 (lines_of text.now) }
{
    match next_line(text, 0) {
        Some((_, next)) => next,
        None => 0,
    }
}

/// The logs, where the text ends, of which this is due; the line behind its last has this number.
fn end(mut logs: List<StationLog>, due: Due, number: u64) -> Result<List<StationLog>, TextRefusal>
    ensures { IsEnd number logs due result }
{
    let Due::Events { log } = due else {
        return Err(TextRefusal::BadInput { line: number });
    };
    match logs.push(log) {
        Ok(()) => Ok(logs),
        Err(NoMemory) => Err(TextRefusal::NoMemory),
    }
}

/// The logs that the texts tell from `start` on, where the station of the first stands. That line has this number.
fn read_logs(
    alloc: Global,
    first: &FirstText<'_>,
    start: usize,
    line: u64,
) -> Result<List<StationLog>, TextRefusal>
    requires within { start ≤ length first.now.text.now }
    requires few { line ≤ PROCESSES + STATIONS + 3 }
    ensures { AreLogs first.now.config (lines_at first.now.text.now first.now.second first.now.count) line
        (lines_of (drop start first.now.text.now)) result }
{
    let mut logs = List::empty(alloc);
    let mut due = Due::Opening { at: start, left: 0 };
    let mut at = start;
    let mut number = line;
    while let Some((words, next)) = next_line(first.text, at) {
        due = first.read_line(alloc, &mut logs, due, number, words)?;
        at = next;
        number += 1;
    }
    end(logs, due, number)
}

/// The configuration and the logs that texts of stations tell, which stand one directly behind the other. Each begins with a line
/// `vkernel node 1`, a line `times TRIES INTERVAL LIFE`, `process` lines and `pool` lines, as a schedule of format 2 behind its title; all
/// of them begin alike. Then come a line `station H`, of a station that has no other text, and lines `call PID CALLTEXT`, `collect PID`,
/// `tick` and `frame F`, where F is the hexadecimal of a frame of 33 to 1,152 bytes, and the process is one of that station.
///
/// # Errors
///
/// The first bad line, or that there are more than 100,000 events in all, whichever stands first; but for want of memory, which is
/// wanted only where the first text opens with a process.
pub fn read_nodes(alloc: Global, text: &[u8]) -> Result<NodeTexts, TextRefusal>
    ensures nodes { IfOk result (λ n. nodes_of text.now ≡ Ok n) }
    ensures refused { IfErr result (λ e. ((e ≡ TextRefusal.NoMemory) × HasNodeProcess text.now) ⊎ (nodes_of text.now ≡ Err e)) }
    ensures lawful { IfOk result IsLawfulNodes }
{
    let Head { config, at, line } = open(alloc, text)?;
    let second = second_line(text);
    let first = FirstText {
        text,
        config,
        second,
        count: line - 2,
    };
    let logs = read_logs(alloc, &first, at, line)?;
    Ok(NodeTexts {
        config: first.config,
        logs,
    })
}
