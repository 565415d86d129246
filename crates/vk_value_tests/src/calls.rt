// What a server calls after each answer.

use std::test::Fail;
use vk_base::{Answer, Call, Message, Pid};
use vk_program::Program;
use vk_values::{DONE, FULL, KEYS, KeyServer, Table, UNKNOWN, get_of, put_of, reply_of};

/// The message that a server replies with to this request, `None` where it does not reply.
fn replied(server: &mut KeyServer, from: Pid, request: Message) -> Option<Message> {
    let answer = Answer::Received {
        from,
        message: request,
    };
    match server.next(Some(&answer)) {
        Some(Call::Reply { message, .. }) => {
            let _receive = server.next(Some(&Answer::Ok));
            Some(message)
        }
        _ => None,
    }
}

#[test]
fn what_was_put_last_is_given(rt: HostRuntime) -> Result<(), Fail> {
    let from = Pid { host: 2, local: 1 };
    let mut server = KeyServer::new(Table::new(rt.alloc()).expect(&rt, "a table"), 100);
    assert!(rt; matches!(server.next(None), Some(Call::Receive)));
    let got = replied(&mut server, from, get_of(7));
    assert_eq!(rt; got, Some(reply_of(UNKNOWN, 7, 0)));
    let got = replied(&mut server, from, put_of(7, 5));
    assert_eq!(rt; got, Some(reply_of(DONE, 7, 5)));
    let got = replied(&mut server, from, put_of(7, 6));
    assert_eq!(rt; got, Some(reply_of(DONE, 7, 6)));
    let got = replied(&mut server, from, get_of(7));
    assert_eq!(rt; got, Some(reply_of(DONE, 7, 6)));
    Ok(())
}

#[test]
fn a_full_table_refuses_other_keys(rt: HostRuntime) -> Result<(), Fail> {
    let from = Pid { host: 2, local: 1 };
    let mut server = KeyServer::new(Table::new(rt.alloc()).expect(&rt, "a table"), 100);
    let _receive = server.next(None);
    for key in 0..KEYS as u32 {
        let _done = replied(&mut server, from, put_of(key, key));
    }
    let got = replied(&mut server, from, put_of(64, 1));
    assert_eq!(rt; got, Some(reply_of(FULL, 64, 0)));
    let got = replied(&mut server, from, put_of(63, 1));
    assert_eq!(rt; got, Some(reply_of(DONE, 63, 1)));
    Ok(())
}
