//! A read that was given up, and the end of a pipe, call by call.

use std::test::Fail;
use vk_base::{Answer, Call, Data, Message, Pid, Refusal};
use vk_pipe::PipeServer;
use vk_program::Program;

/// A message of these two first bytes, and a segment of so many bytes from 0 on.
fn asked(grants: u8, code: u8, len: u32) -> Message {
    let l = len.to_be_bytes();
    Message([
        grants, code, 0, 0, 0, 0, 0, 0, 0, 0, 0, 0, 0, 0, 0, 0, 0, 0, 0, 0, 0, 0, 0, 0, 0, 0, 0, 0,
        l[0], l[1], l[2], l[3],
    ])
}

/// The answer to a receive: a read of up to 512 bytes.
fn reads(from: Pid) -> Answer {
    Answer::ReceivedSegment {
        from,
        message: asked(2, 8, 512),
        count: 0,
    }
}

/// A write of so many bytes.
fn writes(from: Pid, count: u32) -> Answer {
    Answer::ReceivedSegment {
        from,
        message: asked(1, 7, count),
        count,
    }
}

/// The end of the writes.
fn closes(from: Pid) -> Answer {
    Answer::ReceivedSegment {
        from,
        message: asked(0, 9, 0),
        count: 0,
    }
}

/// The answer to a load.
fn loaded(bytes: &[u8]) -> Answer {
    match Data::new(bytes) {
        Some(bytes) => Answer::Loaded { bytes },
        None => Answer::Ok,
    }
}

/// The call behind this answer.
fn after(server: &mut PipeServer, answer: Answer) -> Option<Call> {
    server.next(Some(&answer))
}

fn receives(call: &Option<Call>) -> bool {
    matches!(
        call,
        Some(Call::ReceiveSegment {
            start: 0,
            count: 512
        })
    )
}

fn stores(call: &Option<Call>, wanted: &[u8]) -> bool {
    matches!(call, Some(Call::Store { start: 0, bytes }) if bytes.as_slice() == wanted)
}

/// Whether the message has this code, and so many bytes as a number below 65,536, and else zeros.
fn says(message: Message, code: u8, number: u16) -> bool {
    let n = number.to_be_bytes();
    message
        == Message([
            0, code, 0, 0, 0, 0, n[0], n[1], 0, 0, 0, 0, 0, 0, 0, 0, 0, 0, 0, 0, 0, 0, 0, 0, 0, 0,
            0, 0, 0, 0, 0, 0,
        ])
}

fn replies(call: &Option<Call>, target: Pid, code: u8, number: u16) -> bool {
    match call {
        Some(Call::Reply { message, to }) => *to == target && says(*message, code, number),
        _ => false,
    }
}

fn gives(call: &Option<Call>, target: Pid, number: u16) -> bool {
    match call {
        Some(
            Call::ReplySegment {
                message,
                to,
                dest: 0,
                src: 0,
                count,
            },
        ) => *to == target && *count == u32::from(number) && says(*message, 0, number),
        _ => false,
    }
}

#[test]
fn bytes_stay_until_they_are_had(rt: HostRuntime) -> Result<(), Fail> {
    let (Some(reader), Some(writer)) = (Pid::new(2, 1), Pid::new(3, 1)) else {
        return Ok(());
    };
    let Ok(mut server) = PipeServer::new(rt.alloc(), 9) else {
        panic!(rt; "no memory")
    };
    let gone = Answer::Refused {
        why: Refusal::NotAwaiting,
    };
    let _receive = server.next(None);
    let _load = after(&mut server, writes(writer, 3));
    let _reply = after(&mut server, loaded(&[1, 2, 3]));
    assert!(rt; receives(&after(&mut server, Answer::Ok)));
    assert!(rt; stores(&after(&mut server, reads(reader)), &[1, 2, 3]));
    assert!(rt; gives(&after(&mut server, Answer::Ok), reader, 3));
    assert!(rt; receives(&after(&mut server, gone)));
    assert!(rt; stores(&after(&mut server, reads(reader)), &[1, 2, 3]));
    assert!(rt; gives(&after(&mut server, Answer::Ok), reader, 3));
    assert!(rt; receives(&after(&mut server, Answer::Ok)));
    assert!(rt; replies(&after(&mut server, closes(writer)), writer, 0, 0));
    assert!(rt; receives(&after(&mut server, Answer::Ok)));
    assert!(rt; replies(&after(&mut server, reads(reader)), reader, 6, 0));
    assert!(rt; receives(&after(&mut server, Answer::Ok)));
    assert!(rt; replies(&after(&mut server, writes(writer, 3)), writer, 7, 0));
    Ok(())
}
