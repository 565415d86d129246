//! Texts of stations, written.

ghost use Rattle.std.specs.Prelude.{◌≡◌, ◌++◌, ◌≤◌, Ok, flat_map, length, IfOk, OnOk};
ghost use Rattle.hex.specs.Hex.{encode_lower};
ghost use Rattle.vk_base.specs.declared.event.StationEvent.TheVariants as events;
ghost use Rattle.vk_base.specs.declared.limits.TheConstants.{FRAME_BYTES as MOST_BYTES};
ghost use Rattle.vk_text.specs.Heads.{line_text};
ghost use Rattle.vk_text.specs.Openings.{timed_lines};
ghost use Rattle.vk_event.specs.NodeLaws.{IsLawfulNodes, node_text, one_log, own_text, station_text};
ghost use Rattle.vk_event.specs.Nodes.{node_title, nodes_of};

use hex::encode_to_slice;
use std::alloc::Global;
use vk_base::limits::FRAME_BYTES;
use vk_base::{Call, Config, FrameBytes, NoMemory, Pid, StationEvent};
use vk_brief::{BriefCall, CallView};
use vk_text::{put, put_opening, write_call, write_number, write_pid};

/// Appends the opening in format 2. Where all is usual, it is one in format 1 whose title tells the usual times, too.
fn write_opening(alloc: Global, into: &mut Vec<u8>, config: &Config) -> Result<(), NoMemory>
    ensures { OnOk result (into.new.items ≡ into.old.items ++ flat_map line_text (timed_lines node_title config.now)) }
{
    put_opening(
        alloc,
        into,
        b"vkernel node 1\ntimes 5 4 8",
        b"vkernel node 1",
        config,
    )
}

/// Appends `station H`.
fn write_station(alloc: Global, into: &mut Vec<u8>, host: u16) -> Result<(), NoMemory>
    ensures { OnOk result (into.new.items ≡ into.old.items ++ line_text (station_text host)) }
{
    put(into, b"station")?;
    write_number(alloc, into, u64::from(host))?;
    put(into, b"\n")
}

/// Appends `call PID CALLTEXT`.
#[tactic(auto, using(crate::proofs::NodeEvents::own_call_text))]
fn write_own_call(alloc: Global, into: &mut Vec<u8>, pid: Pid, call: &Call) -> Result<(), NoMemory>
    ensures { OnOk result (into.new.items ≡ into.old.items ++ own_text (events.Call pid call.now)) }
{
    put(into, b"call")?;
    write_pid(alloc, into, pid)?;
    let (call, bytes) = BriefCall::of(call);
    write_call(alloc, into, &CallView::new(&call, bytes))
}

/// Appends `collect PID`.
fn write_own_collect(alloc: Global, into: &mut Vec<u8>, pid: Pid) -> Result<(), NoMemory>
    ensures { OnOk result (into.new.items ≡ into.old.items ++ own_text (events.Collect pid)) }
{
    put(into, b"collect")?;
    write_pid(alloc, into, pid)
}

/// Appends the hexadecimal of the bytes.
fn write_digits(into: &mut Vec<u8>, bytes: &[u8]) -> Result<(), NoMemory>
    requires { length bytes.now ≤ MOST_BYTES }
    ensures { OnOk result (into.new.items ≡ into.old.items ++ encode_lower bytes.now) }
{
    let mut text = [0u8; 2 * FRAME_BYTES];
    let len = 2 * bytes.len();
    match encode_to_slice(bytes, &mut text[..len]) {
        Ok(()) => put(into, &text[..len]),
        Err(_) => unreachable!(),
    }
}

/// Appends `frame F`.
fn write_frame(into: &mut Vec<u8>, frame: &FrameBytes) -> Result<(), NoMemory>
    ensures { OnOk result (into.new.items ≡ into.old.items ++ own_text (events.Deliver frame.now)) }
{
    put(into, b"frame ")?;
    write_digits(into, frame.as_slice())
}

/// Appends the line of the event.
fn write_event(alloc: Global, into: &mut Vec<u8>, event: &StationEvent) -> Result<(), NoMemory>
    ensures { OnOk result (into.new.items ≡ into.old.items ++ line_text (own_text event.now)) }
{
    match *event {
        StationEvent::Call { pid, ref call } => write_own_call(alloc, into, pid, call)?,
        StationEvent::Collect { pid } => write_own_collect(alloc, into, pid)?,
        StationEvent::Tick => put(into, b"tick")?,
        StationEvent::Deliver { ref frame } => write_frame(into, frame)?,
    }
    put(into, b"\n")
}

/// Appends the lines of the events.
fn write_events(alloc: Global, into: &mut Vec<u8>, events: &[StationEvent]) -> Result<(), NoMemory>
    ensures { OnOk result (into.new.items ≡ into.old.items ++ flat_map (λ e. line_text (own_text e)) events.now) }
{
    for event in events {
        write_event(alloc, into, event)?;
    }
    Ok(())
}

/// The text of the station with these events, which are lawful: reading it gives them again. It tells the times, and the pools that are
/// not 16.
pub fn write_node(
    alloc: Global,
    config: &Config,
    host: u16,
    events: &[StationEvent],
) -> Result<Vec<u8>, NoMemory>
    requires { IsLawfulNodes (one_log config.now host events.now) }
    ensures text { IfOk result (λ v. v.items ≡ node_text config.now host events.now) }
    ensures read { IfOk result (λ v. nodes_of v.items ≡ Ok (one_log config.now host events.now)) }
{
    let mut text = Vec::new(alloc);
    write_opening(alloc, &mut text, config)?;
    write_station(alloc, &mut text, host)?;
    write_events(alloc, &mut text, events)?;
    Ok(text)
}
