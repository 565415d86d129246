//! The events of a station.

ghost use Rattle.std.specs.Prelude.{◌≡◌, ◌<◌, ◌+◌, ◌≤◌, true, length};
ghost use Rattle.vk_base.specs.declared.limits.TheConstants.{DATA_BYTES, STATION_EVENTS};
ghost use Rattle.vk_base.specs.Pids.{pid_of_numbers};
ghost use Rattle.vk_brief.specs.Brief.{call_with};
ghost use Rattle.vk_fields.specs.Reading.{call_in};
ghost use Rattle.vk_fields.specs.Telling.{told};
ghost use Rattle.vk_rules.specs.Entries.{Called, Collected, Delivered, Ticked};
ghost use Rattle.vk_rules.specs.Frames.{unsealed_of};
ghost use Rattle.vk_host.specs.Responses.{answer_of};
ghost use Rattle.vk_host.specs.Values.{has};
ghost use Rattle.vk_c.specs.Border.{HasCall, HasCollect, HasEvent, IsTold, call_status, collect_status, deliver_status, tick_status};
ghost use Rattle.vk_c.specs.declared.status.TheConstants.{OK};

use crate::station::Station;
use crate::status;
use std::alloc::Global;
use vk_base::Pid;
use vk_base::limits::{DATA_BYTES, STATION_EVENTS};
use vk_brief::{BriefCall, CallView};
use vk_fields::{AnswerFields, CallFields, kinds};
use vk_host::{Host, Response};

/// The event that the process of these numbers makes the call of these fields, with these bytes where it is a Store.
#[unsafe(no_mangle)]
pub extern "C" fn vk_station_call(
    alloc: Global,
    station: &mut Station,
    host: u16,
    local: u16,
    call: &CallFields,
    bytes: &[u8],
    answer: &mut AnswerFields,
) -> u32
    ensures status { result ≡ call_status station.old.value (pid_of_numbers host local) (call_in call.now) (length bytes.now) }
    ensures event { result ≡ OK →
        HasCall station.old.value station.new.value (pid_of_numbers host local) (call_in call.now) bytes.now answer.new }
    ensures refused { (result ≡ OK → ⊥) → (station.new.value ≡ station.old.value) × (answer.new ≡ answer.old) }
{
    let Some(mut held) = station.take(alloc) else {
        return status::NO_STATION;
    };
    let status = match Pid::new(host, local) {
        Some(pid) if held.has(pid) => {
            let mut brief = BriefCall::Receive;
            match call.read(&mut brief) {
                Some(()) if bytes.len() <= DATA_BYTES => {
                    if held.events() < STATION_EVENTS {
                        make(held.as_mut(), pid, &brief, bytes, answer);
                        status::OK
                    } else {
                        status::SPENT
                    }
                }
                _ => status::BAD_CALL,
            }
        }
        _ => status::NO_SUCH_PROCESS,
    };
    station.put(held);
    status
}

/// The event that the process of these numbers collects its answer.
#[unsafe(no_mangle)]
pub extern "C" fn vk_station_collect(
    alloc: Global,
    station: &mut Station,
    host: u16,
    local: u16,
    answer: &mut AnswerFields,
) -> u32
    ensures status { result ≡ collect_status station.old.value (pid_of_numbers host local) }
    ensures event { result ≡ OK → HasCollect station.old.value station.new.value (pid_of_numbers host local) answer.new }
    ensures refused { (result ≡ OK → ⊥) → (station.new.value ≡ station.old.value) × (answer.new ≡ answer.old) }
{
    let Some(mut held) = station.take(alloc) else {
        return status::NO_STATION;
    };
    let status = match Pid::new(host, local) {
        Some(pid) if held.has(pid) => {
            if held.events() < STATION_EVENTS {
                collect(held.as_mut(), pid, answer);
                status::OK
            } else {
                status::SPENT
            }
        }
        _ => status::NO_SUCH_PROCESS,
    };
    station.put(held);
    status
}

/// The event that the station's clock ticks.
#[unsafe(no_mangle)]
pub extern "C" fn vk_station_tick(
    alloc: Global,
    station: &mut Station,
    answer: &mut AnswerFields,
) -> u32
    ensures status { result ≡ tick_status station.old.value }
    ensures event { result ≡ OK → HasEvent station.old.value station.new.value Ticked answer.new }
    ensures refused { (result ≡ OK → ⊥) → (station.new.value ≡ station.old.value) × (answer.new ≡ answer.old) }
{
    let Some(mut held) = station.take(alloc) else {
        return status::NO_STATION;
    };
    let status = if held.events() < STATION_EVENTS - 1 {
        tick(held.as_mut(), answer);
        status::OK
    } else {
        status::SPENT
    };
    station.put(held);
    status
}

/// The event that these bytes come, whatever they are.
#[unsafe(no_mangle)]
pub extern "C" fn vk_station_deliver(
    alloc: Global,
    station: &mut Station,
    bytes: &[u8],
    answer: &mut AnswerFields,
) -> u32
    ensures status { result ≡ deliver_status station.old.value }
    ensures event { result ≡ OK → HasEvent station.old.value station.new.value (Delivered (unsealed_of bytes.now)) answer.new }
    ensures refused { (result ≡ OK → ⊥) → (station.new.value ≡ station.old.value) × (answer.new ≡ answer.old) }
{
    let Some(mut held) = station.take(alloc) else {
        return status::NO_STATION;
    };
    let status = if held.events() < STATION_EVENTS {
        deliver(held.as_mut(), bytes, answer);
        status::OK
    } else {
        status::SPENT
    };
    station.put(held);
    status
}

fn make(host: &mut Host, pid: Pid, call: &BriefCall, bytes: &[u8], answer: &mut AnswerFields)
    requires few { host.old.events < STATION_EVENTS }
    requires own { has host.old pid ≡ true }
    requires bytes { length bytes.now ≤ DATA_BYTES }
    ensures { IsTold host.old host.new (Called pid (call_with bytes.now call.now)) answer.new }
{
    let mut response = Response::Begun;
    host.call(pid, &CallView::new(call, bytes), &mut response);
    tell(host, &response, answer);
}

fn collect(host: &mut Host, pid: Pid, answer: &mut AnswerFields)
    requires few { host.old.events < STATION_EVENTS }
    requires own { has host.old pid ≡ true }
    ensures { IsTold host.old host.new (Collected pid) answer.new }
{
    let mut response = Response::Begun;
    host.collect(pid, &mut response);
    tell(host, &response, answer);
}

fn tick(host: &mut Host, answer: &mut AnswerFields)
    requires few { host.old.events + 1 < STATION_EVENTS }
    ensures { IsTold host.old host.new Ticked answer.new }
{
    let mut response = Response::Begun;
    host.tick(&mut response);
    tell(host, &response, answer);
}

fn deliver(host: &mut Host, bytes: &[u8], answer: &mut AnswerFields)
    requires few { host.old.events < STATION_EVENTS }
    ensures { IsTold host.old host.new (Delivered (unsealed_of bytes.now)) answer.new }
{
    let mut response = Response::Begun;
    host.deliver(bytes, &mut response);
    tell(host, &response, answer);
}

/// Puts the answer that the response stands for into fields.
fn tell(host: &Host, response: &Response, answer: &mut AnswerFields)
    ensures { answer.new ≡ told (answer_of host.now response.now) }
{
    match response {
        Response::Begun => answer.set(kinds::BEGUN),
        Response::Given { outcome } => answer.set_outcome(outcome),
        Response::Loaded { pid, start, count } => {
            answer.set_loaded(host.loaded(*pid, *start, *count).len() as u32);
        }
        Response::Ticked { now } => answer.set_tick(*now),
        Response::Taken => answer.set(kinds::TAKEN),
        Response::Old => answer.set(kinds::OLD),
        Response::Bad => answer.set(kinds::BAD),
    }
}
