ghost use Rattle.std.specs.Prelude.{◌≡◌, ◌≤◌, ◌<◌, IfSome, OnOk, length};
ghost use Rattle.turn_cell.specs.Seats.{IsSeatOf};

use crate::ports::{config_of, process};
use std::alloc::Global;
use std::test::Fail;
use vk_base::{Config, FrameBytes};
use vk_frame::{Header, seal};
use vk_hub::{Fetched, Hub};
use vk_schedule::LinkPlan;

// Two stations with a process each.
fn config(alloc: Global) -> Option<Config> {
    config_of(alloc, &[process(1, 1), process(2, 1)])
}

// A frame from station 2 to station 1.
fn frame(event: u64) -> FrameBytes
    requires { event < 1000 }
{
    let header = Header {
        source: 2,
        destination: 1,
        stamp: 0,
        number: 1,
        event: event + 1,
        output: 1,
    };
    let Some(mut into) = FrameBytes::new(&[]) else {
        unreachable!()
    };
    seal(&header, &[1], &mut into);
    into
}

fn plan(hold: u8, seed: u64) -> LinkPlan {
    LinkPlan {
        lose: 0,
        double: 0,
        hold,
        seed,
    }
}

fn is_frame(fetched: &Fetched, event: u64) -> bool
    requires { event < 1000 }
{
    match fetched {
        Fetched::Frame { frame: got } => got.as_slice() == frame(event).as_slice(),
        _ => false,
    }
}

#[test]
fn full_ring_loses_its_oldest(rt: HostRuntime) -> Result<(), Fail> {
    let alloc = rt.alloc();
    let config = config(alloc).expect(&rt, "a configuration");
    let Ok((hub, mut seats)) = Hub::new(alloc, &config, plan(0, 0), 1, 1) else {
        panic!(rt; "no memory")
    };
    let mut seat = seats.pop().expect(&rt, "a seat");
    for event in 0..129 {
        assert!(rt; hub.post(&rt, alloc, &mut seat, &frame(event)).is_ok());
    }
    let Ok(got) = hub.fetch(&rt, alloc, &mut seat, 1) else {
        panic!(rt; "refused")
    };
    assert!(rt; is_frame(&got, 1));
    assert!(rt; matches!(hub.fetch(&rt, alloc, &mut seat, 2), Ok(Fetched::Nothing)));
    hub.stop(&rt, &mut seat);
    assert!(rt; matches!(hub.fetch(&rt, alloc, &mut seat, 1), Ok(Fetched::Stopped)));
    seats.push_reserved(seat);
    let _state = hub.close(seats);
    Ok(())
}

#[test]
fn held_frames_come_too(rt: HostRuntime) -> Result<(), Fail> {
    let alloc = rt.alloc();
    let config = config(alloc).expect(&rt, "a configuration");
    let Ok((hub, mut seats)) = Hub::new(alloc, &config, plan(255, 1), 1, 1) else {
        panic!(rt; "no memory")
    };
    let mut seat = seats.pop().expect(&rt, "a seat");
    assert!(rt; hub.post(&rt, alloc, &mut seat, &frame(0)).is_ok());
    assert!(rt; hub.post(&rt, alloc, &mut seat, &frame(1)).is_ok());
    let (Ok(first), Ok(second)) = (
        hub.fetch(&rt, alloc, &mut seat, 1),
        hub.fetch(&rt, alloc, &mut seat, 1),
    ) else {
        panic!(rt; "refused")
    };
    assert!(rt; is_frame(&first, 0) != is_frame(&first, 1));
    assert!(rt;
        is_frame(&first, 0) == is_frame(&second, 1) && is_frame(&first, 1) == is_frame(&second, 0)
    );
    assert!(rt; matches!(hub.fetch(&rt, alloc, &mut seat, 1), Ok(Fetched::Nothing)));
    assert!(rt; hub.finished(&rt, alloc, &mut seat).is_ok());
    assert!(rt; matches!(hub.fetch(&rt, alloc, &mut seat, 1), Ok(Fetched::Stopped)));
    Ok(())
}
