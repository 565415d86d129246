//! Each exported function once: an exchange within a station, and what is refused.

use crate::*;
use std::mem::size_of;
use vk_fields::{AnswerFields, CallFields, PoolFields, ProcessFields, SettingsFields, kinds};

fn blank() -> CallFields {
    CallFields {
        kind: 0,
        scope: 0,
        host: 0,
        local: 0,
        to_host: 0,
        to_local: 0,
        logical: 0,
        start: 0,
        dest: 0,
        src: 0,
        count: 0,
        message: [0; 32],
    }
}

#[test]
fn an_exchange(rt: HostRuntime) {
    let alloc = rt.alloc();
    let mut station = Station::empty();
    let mut answer = AnswerFields {
        kind: 0,
        why: 0,
        host: 0,
        local: 0,
        count: 0,
        now: 0,
        message: [0; 32],
    };
    let settings = SettingsFields {
        tries: 5,
        interval: 3,
        life: 20,
        pool: 4,
    };
    let processes = [
        ProcessFields {
            host: 1,
            local: 1,
            size: 64,
        },
        ProcessFields {
            host: 1,
            local: 2,
            size: 64,
        },
    ];
    let mut room = [0u8; 1152];
    let mut short = [0u8; 10];
    let mut len = 0;
    let mut to = 0;
    assert!(rt; vk_station_tick(alloc, &mut station, &mut answer) == status::NO_STATION);
    assert!(rt; vk_station_open(alloc, &mut station, &settings, &processes, 1) == status::OK);
    assert!(rt; vk_station_open(alloc, &mut station, &settings, &processes, 1) == status::HELD);
    let mut call = blank();
    assert!(rt;
        vk_station_call(alloc, &mut station, 1, 1, &call, &[], &mut answer) == status::BAD_CALL
    );
    assert!(rt;
        vk_station_call(alloc, &mut station, 2, 1, &call, &[], &mut answer)
            == status::NO_SUCH_PROCESS
    );
    call.kind = kinds::RECEIVE;
    assert!(rt; vk_station_call(alloc, &mut station, 1, 2, &call, &[], &mut answer) == status::OK);
    assert!(rt; answer.kind == kinds::BEGUN);
    call.kind = kinds::SEND;
    call.host = 1;
    call.local = 2;
    assert!(rt; vk_station_call(alloc, &mut station, 1, 1, &call, &[], &mut answer) == status::OK);
    assert!(rt; vk_station_is_done(alloc, &mut station, 1, 2) == 1);
    assert!(rt; vk_station_is_done(alloc, &mut station, 1, 1) == 0);
    assert!(rt; vk_station_collect(alloc, &mut station, 1, 2, &mut answer) == status::OK);
    assert!(rt; answer.kind == kinds::RECEIVED && answer.host == 1 && answer.local == 1);
    assert!(rt; vk_station_step_count(alloc, &mut station) == 1);
    assert!(rt; vk_station_step(alloc, &mut station, 0, &mut room, &mut len) == status::OK);
    assert!(rt; &room[..len] == b"collect 1.2".as_slice());
    assert!(rt; vk_station_step(alloc, &mut station, 1, &mut room, &mut len) == status::NO_STEP);
    assert!(rt; vk_station_step(alloc, &mut station, 0, &mut short, &mut len) == status::NO_ROOM);
    assert!(rt; vk_station_deliver(alloc, &mut station, &[1, 2], &mut answer) == status::OK);
    assert!(rt; answer.kind == kinds::BAD);
    assert!(rt; vk_station_frame_count(alloc, &mut station) == 0);
    assert!(rt;
        vk_station_frame(alloc, &mut station, 0, &mut room, &mut len, &mut to) == status::NO_FRAME
    );
    assert!(rt;
        vk_station_loaded(alloc, &mut station, 1, 1, 0, 8, &mut room, &mut len) == status::OK
    );
    assert!(rt; len == 8);
    assert!(rt; vk_station_tick(alloc, &mut station, &mut answer) == status::OK);
    assert!(rt; answer.kind == kinds::TICKED && answer.now == 1);
    assert!(rt; vk_station_now(alloc, &mut station) == 1);
    assert!(rt; vk_station_number(alloc, &mut station) == vk_station_events(alloc, &mut station));
    assert!(rt; vk_station_close(alloc, &mut station) == status::OK);
    assert!(rt; vk_station_close(alloc, &mut station) == status::NO_STATION);
    assert!(rt; vk_station_tick(alloc, &mut station, &mut answer) == status::NO_STATION);
}

#[test]
fn pools(rt: HostRuntime) {
    let alloc = rt.alloc();
    let mut station = Station::empty();
    let settings = SettingsFields {
        tries: 5,
        interval: 3,
        life: 20,
        pool: 4,
    };
    let processes = [ProcessFields {
        host: 1,
        local: 1,
        size: 0,
    }];
    let mut pools = [PoolFields { host: 2, slots: 1 }];
    let open = |station: &mut Station, pools: &[PoolFields]| {
        vk_station_open_with_pools(alloc, station, &settings, &processes, pools, 1)
    };
    assert!(rt; open(&mut station, &pools) == status::NO_SUCH_STATION);
    pools[0].host = 1;
    pools[0].slots = 65;
    assert!(rt; open(&mut station, &pools) == status::BAD_POOL);
    pools[0].slots = 64;
    assert!(rt; open(&mut station, &pools) == status::OK);
    assert!(rt; open(&mut station, &pools) == status::HELD);
    assert!(rt; vk_station_close(alloc, &mut station) == status::OK);
}

/// The header's structs have these sizes too.
#[test]
fn sizes(rt: HostRuntime) {
    assert!(rt; size_of::<Station>() == 16);
    assert!(rt; size_of::<SettingsFields>() == 16);
    assert!(rt; size_of::<ProcessFields>() == 8);
    assert!(rt; size_of::<PoolFields>() == 4);
    assert!(rt; size_of::<CallFields>() == 68);
    assert!(rt; size_of::<AnswerFields>() == 56);
}
