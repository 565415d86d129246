//! `run`: scenarios that come to their end in threads, and a crew that fails.

use std::alloc::{AllocError, Global};
use std::net::Net;
use std::str;
use std::sync::Wait;
use std::test::Fail;
use std::thread::Threads;
use std::time::Clock;
use vk_io::{Crew, MemoryCrew, MemorySink, MemorySource, Sink};
use vk_threads::{SleepPacer, ThreadCrew};
use vk_top::{Status, vkernel};
use vk_udp::{SureWire, Wire};

/// A client writes a page of a server on another station, and reads it.
const PAGES: &str = "vkernel scenario 1
process 1.1 1024
process 2.1 1024
program 1.1 pageserver 4 2
program 2.1 pageclient 1.1 4 1
link 0 0 0 1
ticks 0
";

/// The same where the clocks tick and nobody gives up in a second.
const PATIENT: &str = "vkernel scenario 2
times 16 64 1024
process 1.1 1024
process 2.1 1024
program 1.1 pageserver 4 2
program 2.1 pageclient 1.1 4 1
link 0 0 0 1
ticks 25000
";

/// A message over a link that loses all frames, to a process that exits.
const LOST: &str = "vkernel scenario 1
process 1.1 64
process 2.1 64
do 1.1 exit
do 2.1 send 1.1 0a
link 255 0 0 1
ticks 25000
";

/// Runs the top call with these words on the text.
pub(crate) fn called<C: Crew, W: Wire, R: Wait + Threads + Clock + Net + Sync>(
    rt: &R,
    alloc: Global,
    words: &[&str],
    text: &[u8],
    crew: &mut C,
    wire: &mut W,
) -> Result<(Status, MemorySink), AllocError> {
    let mut own_words = Vec::new(alloc);
    for word in words {
        own_words.push(String::from_str(alloc, word)?)?;
    }
    let bytes = Vec::from_slice(alloc, text)?;
    let mut source = MemorySource::new(bytes, Vec::new(alloc), 4096);
    let mut sink = MemorySink::new(alloc, Vec::new(alloc), 4096);
    let mut pacer = SleepPacer::new();
    let status = vkernel(
        rt,
        alloc,
        &own_words,
        &mut source,
        &mut sink,
        crew,
        &mut pacer,
        wire,
    );
    Ok((status, sink))
}

/// The report of the schedule that a run of the scenario in threads writes; nothing where the run or the report does not end well.
fn reported<R: Wait + Threads + Clock + Net + Sync>(
    rt: &R,
    alloc: Global,
    scenario: &str,
) -> Result<MemorySink, AllocError> {
    let (mut crew, mut wire) = (ThreadCrew::new(), SureWire::new());
    let (status, sink) = called(
        rt,
        alloc,
        &["run"],
        scenario.as_bytes(),
        &mut crew,
        &mut wire,
    )?;
    if status != Status::Done {
        return Ok(MemorySink::new(alloc, Vec::new(alloc), 1));
    }
    let (status, report) = called(rt, alloc, &["replay"], sink.written(), &mut crew, &mut wire)?;
    if status != Status::Done {
        return Ok(MemorySink::new(alloc, Vec::new(alloc), 1));
    }
    Ok(report)
}

/// Whether the line of a report is that of a call or a collect of the process.
fn is_of(line: &str, pid: &str) -> bool {
    let Some((_, words)) = line
        .split_once("step call ")
        .or(line.split_once("step collect "))
    else {
        return false;
    };
    match words.split_once(" ") {
        Some((first, _)) => first == pid,
        None => words == pid,
    }
}

/// What the process is answered in the report, in order, and how many calls and collects are answered at all.
fn answers<'a>(alloc: Global, report: &'a str, pid: &str) -> Result<Vec<&'a [u8]>, AllocError> {
    let mut answers = Vec::new(alloc);
    let mut answer = b"".as_slice();
    for line in report.lines() {
        if is_of(line, pid) {
            answers.push(answer)?;
        } else if let Some((_, behind)) = line.split_once(" ") {
            if let Some((_, told)) = behind.split_once(" ") {
                answer = told.as_bytes();
            }
        }
    }
    Ok(answers)
}

/// What a client is answered that writes a page of twos and reads it.
fn page_answers<'a>(alloc: Global, page: &'a mut Vec<u8>) -> Result<Vec<&'a [u8]>, AllocError> {
    page.extend_from_slice(b"ok ")?;
    for _ in 0..512 {
        page.extend_from_slice(b"02")?;
    }
    let mut told = Vec::new(alloc);
    for answer in ["ok", "begun", "ok -", "begun", "ok -"] {
        told.push(answer.as_bytes())?;
    }
    told.push(page.as_slice())?;
    Ok(told)
}

/// Whether in the report the client 2.1 has its page, and the server 1.1 had two requests.
pub(crate) fn tells_of_the_page(alloc: Global, report: &[u8]) -> Result<bool, AllocError> {
    let report = str::from_utf8(report).unwrap_or("");
    let mut page = Vec::new(alloc);
    let wanted = page_answers(alloc, &mut page)?;
    if answers(alloc, report, "2.1")? != wanted {
        return Ok(false);
    }
    let mut requests = Vec::new(alloc);
    for answer in &answers(alloc, report, "1.1")? {
        if answer.starts_with(b"ok 2.1 ") {
            requests.push(*answer)?;
        }
    }
    Ok(requests.len() == 2 && requests[0].ends_with(b" 512") && requests[1].ends_with(b" 0"))
}

#[test]
fn a_page_is_written_and_read(rt: HostRuntime) -> Result<(), Fail> {
    let alloc = rt.alloc();
    for scenario in [PAGES, PATIENT] {
        let sink = reported(&rt, alloc, scenario)?;
        assert!(rt; tells_of_the_page(alloc, sink.written())?);
    }
    Ok(())
}

#[test]
fn a_send_over_a_dead_link_ends(rt: HostRuntime) -> Result<(), Fail> {
    let alloc = rt.alloc();
    let sink = reported(&rt, alloc, LOST)?;
    let report = str::from_utf8(sink.written()).unwrap_or("");
    let told = answers(alloc, report, "2.1")?;
    assert_eq!(rt; told.len(), 2);
    assert_eq!(rt; told[0], b"begun".as_slice());
    assert!(rt; told[1] == b"noprocess".as_slice() || told[1] == b"timedout".as_slice());
    Ok(())
}

#[test]
fn a_crew_fails(rt: HostRuntime) -> Result<(), Fail> {
    let alloc = rt.alloc();
    let mut crew = MemoryCrew::new(Vec::from_slice(alloc, &[1])?);
    let (status, sink) = called(
        &rt,
        alloc,
        &["run"],
        PAGES.as_bytes(),
        &mut crew,
        &mut SureWire::new(),
    )?;
    assert_eq!(rt; status, Status::CrewFault);
    assert_eq!(rt; status.number(), 7);
    assert_eq!(rt;
        status.text().as_slice(),
        b"vkernel: the crew failed".as_slice()
    );
    assert_eq!(rt; sink.written(), b"".as_slice());
    assert_eq!(rt; (crew.faults(), crew.jobs()), (1, 0));
    Ok(())
}
