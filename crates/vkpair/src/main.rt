//! Two stations in one program, as an example of a program over `vk_host`: a client of station 1 sends numbers to a server of station 2,
//! which replies with their doubles. The stations hand each other their frames by themselves.
//!
//! What goes from one station to the other is a [`Wire`]; a [`Pair`] is both stations with their wires. Stands on `vk_host`, and on
//! `vk_base` and `vk_brief` for what its calls take.
#![tactic(auto)]

mod fault;
mod pair;
mod wire;

use crate::fault::Fault;
use crate::pair::Pair;
use std::alloc::Global;
use std::process::ExitCode;
use vk_base::{Config, Message, Outcome, Pid, ProcessSpec, Times};
use vk_brief::BriefCall;
use vk_host::Response;

/// A message with this number.
fn message_of(number: u8) -> Message {
    let mut bytes = [0; 32];
    bytes[1] = number;
    Message(bytes)
}

/// Both stations, of which each has one process.
fn pair_of(alloc: Global, client: Pid, server: Pid) -> Result<Pair, Fault> {
    let times = Times {
        tries: 5,
        interval: 4,
        life: 8,
    };
    let specs = [client, server].map(|pid| ProcessSpec { pid, size: 0 });
    match Config::new(alloc, times, 16, &specs) {
        Ok(config) => Pair::new(alloc, &config),
        Err(_) => Err(Fault::NoMemory),
    }
}

/// One exchange: what the client was replied.
fn exchange(pair: &mut Pair, client: Pid, server: Pid, number: u8) -> Result<Response, Fault> {
    pair.call(server, &BriefCall::Receive)?;
    let message = message_of(number);
    let target = server;
    pair.call(client, &BriefCall::Send { target, message })?;
    let Response::Given {
        outcome: Outcome::Received { from, message },
    } = pair.collect(server)?
    else {
        return Err(Fault::NotReceived);
    };
    let message = message_of(message.0[1].wrapping_mul(2));
    let to = from;
    pair.call(server, &BriefCall::Reply { message, to })?;
    pair.collect(client)
}

/// So many exchanges, each told on a line.
fn run(rt: &HostRuntime, rounds: u8) -> Result<(), Fault> {
    let alloc = rt.alloc();
    let (Some(client), Some(server)) = (Pid::new(1, 1), Pid::new(2, 1)) else {
        return Err(Fault::NoProcess);
    };
    let mut pair = pair_of(alloc, client, server)?;
    for round in 1..=rounds {
        let replied = match exchange(&mut pair, client, server, round)? {
            Response::Given {
                outcome: Outcome::Replied { message },
            } => message.0[1],
            _ => return Err(Fault::NotReplied),
        };
        if println!(rt; "sent {round}, replied {replied}").is_err() {
            return Err(Fault::Output);
        }
    }
    Ok(())
}

fn main(rt: HostRuntime) -> ExitCode {
    match run(&rt, 5) {
        Ok(()) => ExitCode::from(0),
        Err(fault) => {
            // Nothing is left to tell it to where this fails too.
            let _ = eprintln!(rt; "{fault}");
            ExitCode::from(1)
        }
    }
}
