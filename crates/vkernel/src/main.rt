//! The program: it hands the words, standard input and standard output to the top call, tells on standard error how that
//! ended where it did not end well, and exits with the status's number. For `run` and `node H` it makes a crew of threads and the pace of a
//! real clock (`vk_threads`), and for `node H` a wire of UDP sockets (`vk_udp`). Stands on vk_top; no rule stands here.
#![tactic(auto)]

use std::process::ExitCode;
use vk_edge::program_words;
use vk_io::{StdSink, StdSource};
use vk_threads::{SleepPacer, ThreadCrew};
use vk_top::{Status, vkernel};
use vk_udp::UdpWire;

fn main(rt: HostRuntime) -> ExitCode {
    let mut input = StdSource::new(rt.stdin());
    let mut output = StdSink::new(rt.stdout());
    let mut crew = ThreadCrew::new();
    let mut pacer = SleepPacer::new();
    let mut wire = UdpWire::new();
    let status = match program_words(&rt, Status::Usage, Status::NoMemory) {
        Ok(words) => vkernel(
            &rt,
            rt.alloc(),
            &words,
            &mut input,
            &mut output,
            &mut crew,
            &mut pacer,
            &mut wire,
        ),
        Err(status) => status,
    };
    if status != Status::Done {
        // Nothing is left to tell it to where this fails too.
        let _ = eprintln!(rt; "{status}");
    }
    ExitCode::from(status.number())
}
