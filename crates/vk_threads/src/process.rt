//! The job that runs a process with its program.
ghost use Rattle.std.specs.Prelude.{◌≡◌, [], true, Some, None, if◌then◌else◌, option_copied, IfOk, IfErr};
ghost use Rattle.vk_port.specs.Stations.{is_process_of};
ghost use Rattle.vk_threads.specs.Ends.{EndsProcess};
ghost use Rattle.vk_threads.specs.Works.{HasCalled, HasCalledCut, HasPlayed, HasPlayedCut};

use crate::end::{End, Seats, close_port, finish_port};
use std::alloc::Global;
use std::marker::Model;
use std::sync::Wait;
use std::time::Clock;
use turn_cell::Room;
use vk_base::{Answer, Call, NoMemory, Pid};
use vk_hub::Hub;
use vk_port::{Port, Rest};
use vk_program::Program;

/// Runs a process with its program, to the program's end or until the hub has ended. There is room for the seats of its port.
#[derive(Drop)]
pub struct ProcessWork<'a, G: Program, W: Rest> {
    alloc: Global,
    hub: &'a Hub,
    port: Port<'a>,
    pid: Pid,
    program: G,
    rest: W,
    seats: Vec<Seats>,
}

impl<'a, G: Program, W: Rest> Model for ProcessWork<'a, G, W> {
    ghost use Rattle.std.specs.Prelude.{◌≡◌, ◌≤◌, [], true, vec_capacity};
    ghost use Rattle.vk_port.specs.Stations.{is_process_of};
    ghost use Rattle.vk_threads.specs.Duties.{ProcessDuty};

    ghost Value = { ProcessDuty G };

    ghost view = { λ w. record { port = w.port; pid = w.pid; program = w.program } };

    ghost invariant = { λ w. (w.port.hub ≡ w.hub.now) × (is_process_of w.port.station.origin w.pid ≡ true) × (w.pid.host ≡ w.port.host)
        × G.is_after w.program [] × (w.seats.items ≡ []) × (1 ≤ vec_capacity w.seats) };
}

impl<'a, G: Program, W: Rest> ProcessWork<'a, G, W> {
    /// The job of this process.
    pub fn new(
        alloc: Global,
        hub: &'a Hub,
        port: Port<'a>,
        pid: Pid,
        program: G,
        rest: W,
    ) -> Result<ProcessWork<'a, G, W>, NoMemory>
        requires hub { port.hub ≡ hub.now }
        requires process { is_process_of port.station.origin pid ≡ true }
        requires host { pid.host ≡ port.host }
        requires fresh { G.is_after program [] }
        ensures { IfOk result (λ w. w ≡ record { port = port.entry; pid = pid; program = program }) }
    {
        let seats = Vec::with_capacity(alloc, 1)?;
        Ok(ProcessWork {
            alloc,
            hub,
            port,
            pid,
            program,
            rest,
            seats,
        })
    }
}

/// Does the work.
pub fn process_end<G: Program, W: Rest, R: Wait + Clock>(rt: &R, work: ProcessWork<G, W>) -> End
    ensures { EndsProcess work.entry.port work.entry.pid (G.task work.entry.program) result.seats.items result.met }
{
    let (hub, host) = (work.hub, work.pid.host);
    let end = play_out(rt, work);
    hub.bells().end_one(host);
    end
}

/// Plays the program, and then gives the seats back.
fn play_out<G: Program, W: Rest, R: Wait + Clock>(rt: &R, work: ProcessWork<G, W>) -> End
    ensures { EndsProcess work.entry.port work.entry.pid (G.task work.entry.program) result.seats.items result.met }
{
    let ProcessWork {
        alloc,
        hub,
        mut port,
        pid,
        mut program,
        rest,
        mut seats,
    } = work;
    match play(rt, alloc, &mut port, pid, &mut program, &rest) {
        Ok(true) => {
            let (closed, met) = finish_port(rt, alloc, port, hub, pid.host);
            seats.push_reserved(closed);
            End { seats, met }
        }
        Ok(false) => {
            seats.push_reserved(close_port(rt, port, hub, pid.host, false));
            End { seats, met: None }
        }
        Err(why) => {
            let met = Some(why);
            seats.push_reserved(close_port(rt, port, hub, pid.host, true));
            End { seats, met }
        }
    }
}

/// Makes a call, waits for its answer, and puts it there. Whether it came: else the hub has ended before.
fn make<W: Rest, R: Wait + Clock>(
    rt: &R,
    alloc: Global,
    port: &mut Port,
    pid: Pid,
    call: Call,
    answer: &mut Answer,
    rest: &W,
) -> Result<bool, Room>
    requires { is_process_of port.old.station.origin pid ≡ true }
    ensures made { IfOk result (λ came. HasCalled port.old port.new pid call (if came then Some answer.new else None)) }
    ensures cut { IfErr result (λ why. HasCalledCut port.old port.new pid call why) }
{
    let called = port.call_into(rt, alloc, pid, call, answer);
    if port.has_posted() {
        rest.posted(rt);
    }
    match called {
        Ok(true) => Ok(true),
        Ok(false) => port.collect_into(rt, alloc, pid, answer, rest),
        Err(why) => Err(why),
    }
}

/// The answer, if there was one.
fn last_of(is_answered: bool, answer: &Answer) -> Option<&Answer>
    ensures { option_copied result ≡ (if is_answered then Some answer.now else None) }
{
    if is_answered { Some(answer) } else { None }
}

/// Makes the program's calls one after the other, each after the answer to the one before. True where the program came to its end,
/// false where the hub ended before.
pub fn play<G: Program, W: Rest, R: Wait + Clock>(
    rt: &R,
    alloc: Global,
    port: &mut Port,
    pid: Pid,
    program: &mut G,
    rest: &W,
) -> Result<bool, Room>
    requires process { is_process_of port.old.station.origin pid ≡ true }
    requires fresh { G.is_after program.old [] }
    ensures played { IfOk result (λ ended. HasPlayed port.old port.new pid (G.task program.old) ended) }
    ensures cut { IfErr result (λ why. HasPlayedCut port.old port.new pid (G.task program.old) why) }
{
    let mut answer = Answer::Ok;
    let mut is_answered = false;
    for _ in rt.forever() {
        let last = last_of(is_answered, &answer);
        let Some(call) = program.next(last) else {
            return Ok(true);
        };
        match make(rt, alloc, port, pid, call, &mut answer, rest) {
            Ok(true) => is_answered = true,
            Ok(false) => return Ok(false),
            Err(why) => return Err(why),
        }
    }
    unreachable!()
}
