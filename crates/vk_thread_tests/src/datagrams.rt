// Links by datagrams.

use std::test::Fail;
use std::thread::sleep;
use std::time::Duration;
use vk_base::FrameBytes;
use vk_udp::{Link, MemoryLink, MemoryWire, UdpWire, Wire};

/// Two ports of this machine that nothing else has.
const FIRST: u16 = 24_711;

const SECOND: u16 = 24_712;

#[test]
fn datagrams_come_to_their_port(rt: HostRuntime) -> Result<(), Fail> {
    let mut wire = UdpWire::new();
    let mut first = wire.open(&rt, FIRST).expect(&rt, "a port");
    let mut second = wire.open(&rt, SECOND).expect(&rt, "another port");
    let frame = FrameBytes::new(&[7; 40]).expect(&rt, "a frame");
    let mut got = FrameBytes::new(&[]).expect(&rt, "no bytes");
    assert!(rt; matches!(second.receive(&rt, &mut got), Ok(false)));
    first.send(&rt, SECOND, &frame);
    for _ in 0..1_000 {
        if let Ok(true) = second.receive(&rt, &mut got) {
            break;
        }
        sleep(&rt, Duration::from_millis(1));
    }
    assert!(rt; got.as_slice() == frame.as_slice());
    assert!(rt; wire.open(&rt, FIRST).is_err());
    assert!(rt; wire.faults() == 1);
    wire.close(first);
    wire.close(second);
    assert!(rt; wire.faults() == 1);
    Ok(())
}

#[test]
fn wires_in_memory_open_what_is_ready(rt: HostRuntime) -> Result<(), Fail> {
    let alloc = rt.alloc();
    let mut datagrams = Vec::new(alloc);
    datagrams.push(FrameBytes::new(&[7; 40]).expect(&rt, "a frame"))?;
    let mut failing = Vec::new(alloc);
    failing.push(2)?;
    let mut links = Vec::new(alloc);
    links.push(MemoryLink::new(alloc, datagrams, failing))?;
    let Ok(mut wire) = MemoryWire::new(alloc, links, Vec::new(alloc)) else {
        panic!(rt; "no memory")
    };
    let mut link = wire.open(&rt, FIRST).expect(&rt, "a port");
    let mut got = FrameBytes::new(&[]).expect(&rt, "no bytes");
    assert!(rt; matches!(link.receive(&rt, &mut got), Ok(true)));
    assert!(rt; got.as_slice().len() == 40);
    assert!(rt; link.receive(&rt, &mut got).is_err());
    wire.close(link);
    assert!(rt; wire.faults() == 1);
    Ok(())
}
