//! `node H`: two nodes over the system's sockets, and a wire that fails.

use crate::runs::{called, tells_of_the_page};
use std::alloc::{AllocError, Global};
use std::net::Net;
use std::sync::Wait;
use std::test::Fail;
use std::thread::{Threads, join};
use std::time::Clock;
use vk_io::{Crew, Sink};
use vk_threads::ThreadCrew;
use vk_top::Status;
use vk_udp::{MemoryWire, SureWire, UdpWire};

/// A client writes a page of a server at another node, and reads it.
const NODES: &str = "vkernel scenario 2
times 16 64 1024
process 1.1 1024
process 2.1 1024
program 1.1 pageserver 4 2
program 2.1 pageclient 1.1 4 1
port 1 24713
port 2 24714
link 0 0 0 1
ticks 2000
";

/// How the node of this station ends, and what it writes.
fn ended<R: Wait + Threads + Clock + Net + Sync>(
    rt: &R,
    alloc: Global,
    host: &str,
) -> Result<(Status, Vec<u8>), AllocError> {
    let (mut crew, mut wire) = (ThreadCrew::new(), UdpWire::new());
    let (status, sink) = called(
        rt,
        alloc,
        &["node", host],
        NODES.as_bytes(),
        &mut crew,
        &mut wire,
    )?;
    Ok((status, Vec::from_slice(alloc, sink.written())?))
}

/// What the top call writes for this word and text; nothing where it does not end well.
fn told<R: Wait + Threads + Clock + Net + Sync>(
    rt: &R,
    alloc: Global,
    word: &str,
    text: &[u8],
) -> Result<Vec<u8>, AllocError> {
    let (mut crew, mut wire) = (ThreadCrew::new(), SureWire::new());
    let (status, sink) = called(rt, alloc, &[word], text, &mut crew, &mut wire)?;
    match status {
        Status::Done => Ok(Vec::from_slice(alloc, sink.written())?),
        _ => Ok(Vec::new(alloc)),
    }
}

#[test]
fn nodes_meet(rt: HostRuntime) -> Result<(), Fail> {
    let alloc = rt.alloc();
    let (first, second) = join(&rt, || ended(&rt, alloc, "1"), || ended(&rt, alloc, "2"));
    let (first, second) = (first?, second?);
    assert_eq!(rt; (first.0, second.0), (Status::Done, Status::Done));
    let mut texts = first.1;
    texts.extend_from_slice(&second.1)?;
    let schedule = told(&rt, alloc, "join", &texts)?;
    let report = told(&rt, alloc, "replay", &schedule)?;
    assert!(rt; tells_of_the_page(alloc, &report)?);
    Ok(())
}

#[test]
fn a_wire_fails(rt: HostRuntime) -> Result<(), Fail> {
    let alloc = rt.alloc();
    let failing = Vec::from_slice(alloc, &[1])?;
    let Ok(mut wire) = MemoryWire::new(alloc, Vec::new(alloc), failing) else {
        panic!(rt; "no memory")
    };
    let mut crew = ThreadCrew::new();
    let (status, sink) = called(
        &rt,
        alloc,
        &["node", "1"],
        NODES.as_bytes(),
        &mut crew,
        &mut wire,
    )?;
    assert_eq!(rt; status, Status::LinkFault);
    assert_eq!(rt; status.number(), 9);
    assert_eq!(rt;
        status.text().as_slice(),
        b"vkernel: the link failed".as_slice()
    );
    assert_eq!(rt; sink.written(), b"".as_slice());
    assert_eq!(rt; crew.jobs(), 0);
    Ok(())
}
