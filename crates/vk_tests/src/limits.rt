//! What is too much, and the most that is not: events, bytes, bytes that a trace notes for remote moves, stations, and pools.

use crate::running::{run, run_over};
use std::alloc::{AllocError, Global};
use std::test::Fail;
use vk_base::{Config, ConfigRefusal, Memory, Pid, PoolRefusal, ProcessSpec, Times};
use vk_io::{MemorySource, Sink};
use vk_top::Status;

/// The text, and behind it the lines as often.
fn with_lines(alloc: Global, front: &str, lines: &str, count: u32) -> Result<Vec<u8>, AllocError> {
    let mut text = Vec::from_slice(alloc, front.as_bytes())?;
    for _ in 0..count {
        text.extend_from_slice(lines.as_bytes())?;
    }
    Ok(text)
}

/// How `replay` ends of what a schedule begins with, so many collects behind it, and a last line; something is written exactly at Done.
fn replayed(
    alloc: Global,
    front: &str,
    count: u32,
    last: &str,
) -> Result<(Status, bool), AllocError> {
    let mut text = with_lines(alloc, front, "collect 1.1\n", count)?;
    text.extend_from_slice(last.as_bytes())?;
    let (status, sink) = run(alloc, "replay", &text, &[], &[])?;
    Ok((
        status,
        sink.written().is_empty() == (status != Status::Done),
    ))
}

const FRONT: &str = "vkernel 1\nprocess 1.1 64\n";

#[test]
fn many_events(rt: HostRuntime) -> Result<(), Fail> {
    let alloc = rt.alloc();
    assert_eq!(rt;
        replayed(alloc, FRONT, 99_999, "collect 1.1")?,
        (Status::Done, true)
    );
    assert_eq!(rt;
        replayed(alloc, FRONT, 100_000, "collect 1.1")?,
        (Status::Limit, true)
    );
    Ok(())
}

/// A line that is bad among or behind more events than a schedule may have: a tick in line 5 of a station that is not there, and as the
/// one too many such a tick, and an event of a process that is not there.
#[test]
fn bad_events(rt: HostRuntime) -> Result<(), Fail> {
    let alloc = rt.alloc();
    let early = "vkernel 1\nprocess 1.1 64\ncollect 1.1\ncollect 1.1\ntick 2\n";
    let bad = Status::BadInput { line: 5 };
    assert_eq!(rt; replayed(alloc, early, 100_000, "")?, (bad, true));
    let bad = Status::BadInput { line: 100_003 };
    assert_eq!(rt; replayed(alloc, FRONT, 100_000, "tick 2")?, (bad, true));
    assert_eq!(rt;
        replayed(alloc, FRONT, 100_000, "collect 1.2")?,
        (bad, true)
    );
    Ok(())
}

/// How the command ends over so many bytes without a line feed, and how many it writes.
fn long_line(alloc: Global, word: &str, length: usize) -> Result<(Status, usize), AllocError> {
    let text = vec![in alloc; b'x'; length]?;
    let source = MemorySource::new(text, Vec::new(alloc), 65_536);
    let (status, sink) = run_over(alloc, word, source, &[])?;
    Ok((status, sink.written().len()))
}

#[test]
fn long_inputs(rt: HostRuntime) -> Result<(), Fail> {
    let bad = Status::BadInput { line: 1 };
    for word in ["replay", "check"] {
        assert_eq!(rt; long_line(rt.alloc(), word, 16_777_216)?, (bad, 0));
        assert_eq!(rt;
            long_line(rt.alloc(), word, 16_777_217)?,
            (Status::Limit, 0)
        );
    }
    Ok(())
}

/// 1.1 holds 2.1, whose message lets its 65,536 bytes be read and written.
const GRANTED: &str = "vkernel trace 1
process 1.1 65536
process 2.1 65536
call 2.1 send 1.1 030000000000000000000000000000000000000000000000000000000001
arrive 2.1 1
call 1.1 receive
take 1.1
collect 1.1
";

/// A move that is begun and given up.
const ROUND: &str = "call 1.1 moveto 2.1 0 0 65536
end 1.1 timedout
collect 1.1
";

/// The status of `check` of a trace in which 4,096 moves of 65,536 bytes were begun and given up, so that all bytes are noted
/// that may be, and of these steps behind its 12,293.
fn noted(alloc: Global, steps: &str) -> Result<Status, AllocError> {
    let mut text = with_lines(alloc, GRANTED, ROUND, 4096)?;
    text.extend_from_slice(steps.as_bytes())?;
    let (status, _sink) = run(alloc, "check", &text, &[], &[])?;
    Ok(status)
}

/// A move that is refused notes nothing, nor does one from the sender before it is opened. One to the sender is noted where it
/// is begun. A step that is not allowed decides, where it comes first.
#[test]
fn noted_bytes(rt: HostRuntime) -> Result<(), Fail> {
    let alloc = rt.alloc();
    let refused = "call 1.1 moveto 2.1 1 0 65536\ncall 1.1 movefrom 2.1 0 0 1\n";
    assert_eq!(rt; noted(alloc, refused)?, Status::Done);
    let opened = "call 1.1 movefrom 2.1 0 0 1\nopen 2.1 1 4097\n";
    assert_eq!(rt; noted(alloc, opened)?, Status::Limit);
    assert_eq!(rt; noted(alloc, "call 1.1 moveto 2.1 0 0 1\n")?, Status::Limit);
    let first = "collect 1.1\ncall 1.1 moveto 2.1 0 0 1\n";
    assert_eq!(rt; noted(alloc, first)?, Status::NotARun { step: 12294 });
    Ok(())
}

#[test]
fn configurations(rt: HostRuntime) -> Result<(), Fail> {
    let alloc = rt.alloc();
    let times = Times {
        tries: 5,
        interval: 4,
        life: 8,
    };
    let mut specs = Vec::new(alloc);
    for host in 1..18u16 {
        let pid = Pid::new(host, 1).ok_or("no pid")?;
        specs.push(ProcessSpec { pid, size: 64 })?;
    }
    assert!(rt;
        matches!(
            Config::new(alloc, times, 16, &specs),
            Err(ConfigRefusal::TooMany { index: 16 })
        )
    );
    specs.truncate(16);
    match Config::new(alloc, times, 16, &specs) {
        Ok(mut config) => {
            assert_eq!(rt; config.station_count(), 16);
            assert_eq!(rt; config.set_pool(17, 65), Err(PoolRefusal::NoStation));
            assert_eq!(rt; config.set_pool(16, 65), Err(PoolRefusal::BadPool));
            assert_eq!(rt; config.set_pool(16, 0), Err(PoolRefusal::BadPool));
            assert_eq!(rt; (config.pool_of(15), config.pool_of(16)), (16, 16));
            assert_eq!(rt; config.set_pool(16, 64), Ok(()));
            assert_eq!(rt; (config.pool_of(15), config.pool_of(16)), (16, 64));
            assert!(rt; config.copy(alloc).is_ok());
        }
        Err(_) => assert!(rt; false, "a lawful configuration"),
    }
    assert!(rt; Memory::new(alloc, 131_072).is_ok());
    Ok(())
}

/// 16 stations of 32 processes.
#[test]
fn most_processes(rt: HostRuntime) -> Result<(), Fail> {
    let alloc = rt.alloc();
    let times = Times {
        tries: 5,
        interval: 4,
        life: 8,
    };
    let mut specs = Vec::new(alloc);
    for place in 0..512u16 {
        let pid = Pid::new(1 + place / 32, 1 + place % 32).ok_or("no pid")?;
        specs.push(ProcessSpec { pid, size: 64 })?;
    }
    match Config::new(alloc, times, 16, &specs) {
        Ok(config) => {
            assert_eq!(rt; config.station_count(), 16);
            assert!(rt; config.copy(alloc).is_ok());
        }
        Err(_) => assert!(rt; false, "a lawful configuration"),
    }
    Ok(())
}
