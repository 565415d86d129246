//! The program: it hands the words, the fixed text of pages, standard input and standard output to the top call, tells on standard error
//! how that ended where it did not end well, and exits with the status's number. Stands on vk_draw; no rule stands here.
#![tactic(auto)]

use std::process::ExitCode;
use vk_draw::{Status, vkdraw};
use vk_edge::program_words;
use vk_io::{StdSink, StdSource};
use vk_page::fixed_parts;

/// Reads standard input and writes standard output.
fn run(rt: &HostRuntime) -> Status {
    let words = match program_words(rt, Status::Usage, Status::NoMemory) {
        Ok(words) => words,
        Err(status) => return status,
    };
    let mut input = StdSource::new(rt.stdin());
    let mut output = StdSink::new(rt.stdout());
    vkdraw(rt.alloc(), &words, &fixed_parts(), &mut input, &mut output)
}

fn main(rt: HostRuntime) -> ExitCode {
    let status = run(&rt);
    if status != Status::Done {
        // Nothing is left to tell it to where this fails too.
        let _ = eprintln!(rt; "{status}");
    }
    ExitCode::from(status.number())
}
