//! Lines of all texts, and what is told of the bad ones. The first line of a text tells which text it is, and its lines of processes are
//! the configuration. Standard input begins with texts that are read and written by the product, in which nothing may be told, and goes on
//! with mistakes; a line and its output more are a test more.
//!
//! Stands on `vk_forms`; nothing stands on it.
#![tactic(auto)]

use std::alloc::Global;
use std::fmt::Write;
use std::io;
use vk_base::limits::MEMORY_BYTES;
use vk_base::{Config, ProcessSpec};
use vk_forms::{TextKind, fault_of, put_fault};
use vk_text::{USUAL_POOL, empty_config, next_number, next_pid, next_word};

/// Which text begins with this line.
fn kind_of(line: &str) -> Option<TextKind> {
    match line {
        "vkernel 1" | "vkernel 2" => Some(TextKind::Schedule),
        "vkernel scenario 1" | "vkernel scenario 2" => Some(TextKind::Scenario),
        "vkernel trace 1" => Some(TextKind::Trace),
        "vkernel observed 1" => Some(TextKind::Observed),
        "vkernel node 1" => Some(TextKind::Nodes),
        _ => None,
    }
}

/// Adds the process of the line, where it tells one that may stand there.
fn add_process(config: &mut Config, line: &[u8]) -> Option<()> {
    let (word, at) = next_word(line, 0)?;
    if word != b"process".as_slice() {
        return None;
    }
    let (pid, at) = next_pid(line, at)?;
    let (size, _) = next_number(line, at, u64::from(MEMORY_BYTES))?;
    let spec = ProcessSpec {
        pid,
        size: size as u32,
    };
    config.add(spec, USUAL_POOL).ok()
}

/// What is told of the line.
fn told(alloc: Global, text: TextKind, config: &Config, line: &str) -> io::Result<String> {
    let mut told = Vec::new(alloc);
    if put_fault(alloc, &mut told, text, config, line.as_bytes()).is_err() {
        return Err(io::Error::from(io::ErrorKind::OutOfMemory));
    }
    match String::from_utf8(told) {
        Ok(told) => Ok(told),
        Err(_) => Ok(String::new(alloc)),
    }
}

fn main(rt: HostRuntime) -> io::Result<()> {
    let alloc = rt.alloc();
    let mut config = empty_config(alloc);
    let mut text = TextKind::Schedule;
    let mut good = 0u64;
    for line in rt.lines(alloc) {
        let line = line?;
        if let Some(kind) = kind_of(line.as_str()) {
            text = kind;
            config = empty_config(alloc);
        }
        if fault_of(text, &config, line.as_bytes()).is_none() {
            good = good.saturating_add(1);
            let _added = add_process(&mut config, line.as_bytes());
        } else {
            let told = told(alloc, text, &config, line.as_str())?;
            print!(rt; "{told}")?;
        }
    }
    println!(rt; "{good} lines are good")
}
