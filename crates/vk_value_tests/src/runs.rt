// A server and a client as threads.
ghost use Rattle.std.specs.Prelude.{[], IfSome};
ghost use Rattle.vk_values.specs.Any.{IsAfter};

use std::alloc::Global;
use std::test::Fail;
use v_run::RunEnd;
use vk_base::{Call, Config, List, Message, Pid, ProcessSpec, Times};
use vk_io::Crew;
use vk_program::{Assigned, Script};
use vk_schedule::{Event, LinkPlan};
use vk_threads::{SleepPacer, ThreadCrew, run_programs};
use vk_values::{DONE, KeyProgram, KeyServer, Table, UNKNOWN, get_of, put_of, reply_of};

const TIMES: Times = Times {
    tries: 16,
    interval: 64,
    life: 1024,
};

const SERVER: Pid = Pid { host: 1, local: 1 };

const CLIENT: Pid = Pid { host: 2, local: 1 };

/// Links that lose nothing, double and hold frames.
const PLAN: LinkPlan = LinkPlan {
    lose: 0,
    double: 64,
    hold: 64,
    seed: 1,
};

/// A client that sends these requests, one after the other.
fn client_of(alloc: Global, requests: &[Message]) -> Option<KeyProgram>
    ensures { IfSome result (λ p. IsAfter p []) }
{
    let mut calls = List::empty(alloc);
    for request in requests {
        let message = *request;
        let target = SERVER;
        if calls.push(Call::Send { target, message }).is_err() {
            return None;
        }
    }
    Some(KeyProgram::Script {
        script: Script::new(calls),
    })
}

/// How many of these events are this reply of the server.
fn replies(events: &[Event], wanted: Message) -> usize {
    let is_wanted = |event: &Event| match event {
        Event::Call {
            call: Call::Reply { message, .. },
            ..
        } => *message == wanted,
        _ => false,
    };
    events.iter().filter(|event| is_wanted(event)).count()
}

#[test]
fn a_client_gets_what_it_put(rt: HostRuntime) -> Result<(), Fail> {
    let alloc = rt.alloc();
    let specs = [SERVER, CLIENT].map(|pid| ProcessSpec { pid, size: 0 });
    let config = Config::new(alloc, TIMES, 16, &specs).expect(&rt, "a configuration");
    let table = Table::new(alloc).expect(&rt, "a table");
    let server = Assigned {
        pid: SERVER,
        program: KeyProgram::Server {
            server: KeyServer::new(table, 3),
        },
    };
    let requests = [put_of(7, 5), get_of(7), get_of(8)];
    let client = Assigned {
        pid: CLIENT,
        program: client_of(alloc, &requests).expect(&rt, "a client"),
    };
    assert!(rt; config.has_process(server.pid) && config.has_process(client.pid));
    let mut crew = ThreadCrew::new();
    let mut pacer = SleepPacer::new();
    let mut programs = Vec::with_capacity(alloc, 2)?;
    programs.push_reserved(server);
    programs.push_reserved(client);
    let record = run_programs(&rt, alloc, config, programs, PLAN, 0, &mut crew, &mut pacer).expect(
        &rt, "a record",
    );
    let schedule = record.schedule.whole(alloc).expect(&rt, "memory");
    let events = schedule.events.as_slice();
    assert!(rt; record.end == RunEnd::Done && crew.jobs() == 5);
    assert_eq!(rt; replies(events, reply_of(DONE, 7, 5)), 2);
    assert_eq!(rt; replies(events, reply_of(UNKNOWN, 8, 0)), 1);
    Ok(())
}
