//! Reads, writes and the flush, each of which fails once.

use crate::running::run;
use std::alloc::{AllocError, Global};
use std::test::Fail;
use vk_io::{MemorySink, Sink};
use vk_top::Status;

const PING: &str = "vkernel 1
process 1.1 64
process 1.2 64
call 1.2 receive
call 1.1 send 1.2 0a
collect 1.2
call 1.2 reply 0b 1.1
collect 1.1
";

const PING_TRACE: &str = "vkernel trace 1
process 1.1 64
process 1.2 64
call 1.2 receive
call 1.1 send 1.2 0a
take 1.2
collect 1.2
call 1.2 reply 0b 1.1
finish 1.1
collect 1.1
";

/// A trace of which the first step is not allowed.
const REFUSED: &str = "vkernel trace 1
process 1.1 64
take 1.1
";

/// A command and its input.
type Given = (&'static str, &'static str);

const REPLAY: Given = ("replay", PING);

const CHECK: Given = ("check", PING_TRACE);

const REFUSAL: Given = ("check", REFUSED);

/// Runs it where the read and the write or flush of these numbers fail, 0 for none. Both are counted from 1.
fn run_failing(
    alloc: Global,
    asked: Given,
    read: u64,
    write: u64,
) -> Result<(Status, MemorySink), AllocError> {
    let (word, input) = asked;
    run(alloc, word, input.as_bytes(), &[read], &[write])
}

/// The status, and how many bytes were written.
fn ended(
    alloc: Global,
    asked: Given,
    read: u64,
    write: u64,
) -> Result<(Status, usize), AllocError> {
    let (status, sink) = run_failing(alloc, asked, read, write)?;
    Ok((status, sink.written().len()))
}

#[test]
fn reads_fail(rt: HostRuntime) -> Result<(), Fail> {
    let nothing = (Status::ReadFault, 0);
    assert_eq!(rt; ended(rt.alloc(), REPLAY, 1, 0)?, nothing);
    assert_eq!(rt; ended(rt.alloc(), REPLAY, 9, 0)?, nothing);
    assert_eq!(rt; ended(rt.alloc(), CHECK, 1, 0)?, nothing);
    Ok(())
}

/// The report is 46 writes and one flush, of 227 bytes.
#[test]
fn writes_of_a_report_fail(rt: HostRuntime) -> Result<(), Fail> {
    assert_eq!(rt; ended(rt.alloc(), REPLAY, 0, 1)?, (Status::WriteFault, 0));
    assert_eq!(rt;
        ended(rt.alloc(), REPLAY, 0, 47)?,
        (Status::WriteFault, 227)
    );
    assert_eq!(rt; ended(rt.alloc(), REPLAY, 0, 48)?, (Status::Done, 227));
    let (status, sink) = run_failing(rt.alloc(), REPLAY, 0, 4)?;
    assert_eq!(rt; status, Status::WriteFault);
    assert_eq!(rt; sink.written(), b"vkernel report ".as_slice());
    Ok(())
}

/// `yes 7` is two writes and one flush, `no 1` one write and one flush.
#[test]
fn writes_of_a_verdict_fail(rt: HostRuntime) -> Result<(), Fail> {
    let refused = Status::NotARun { step: 1 };
    assert_eq!(rt; ended(rt.alloc(), CHECK, 0, 2)?, (Status::WriteFault, 5));
    assert_eq!(rt; ended(rt.alloc(), CHECK, 0, 3)?, (Status::WriteFault, 6));
    assert_eq!(rt; ended(rt.alloc(), CHECK, 0, 4)?, (Status::Done, 6));
    assert_eq!(rt; ended(rt.alloc(), REFUSAL, 0, 2)?, (Status::WriteFault, 5));
    assert_eq!(rt; ended(rt.alloc(), REFUSAL, 0, 3)?, (refused, 5));
    Ok(())
}
