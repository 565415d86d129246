//! File servers over disks that fail, driven by hand, and what is read ahead, on the disk's record.

use std::alloc::Global;
use std::test::Fail;
use vk_base::{Answer, Call, Data, Message, Pid};
use vk_files::{Disk, DiskCall, FileServer, MemoryDisk, Telling, VolumeFault};
use vk_program::Program;

const BLOCK: usize = 512;

/// A block that begins with the entries of two files: a of two blocks from block 1, and b of one from this block.
fn directory(start: u8) -> [u8; BLOCK] {
    let mut block = [0; BLOCK];
    block[0] = b'a';
    block[23] = 1;
    block[27] = 2;
    block[30] = 3;
    block[31] = 232;
    block[32] = b'b';
    block[55] = start;
    block[59] = 1;
    block[63] = 7;
    block
}

/// The blocks of a disk: a directory, and blocks of 5, 6 and 7.
fn blocks(alloc: Global, start: u8) -> Option<Vec<[u8; BLOCK]>> {
    Vec::from_array(
        alloc,
        [directory(start), [5; BLOCK], [6; BLOCK], [7; BLOCK]],
    )
    .ok()
}

/// A disk of these blocks that tells this, with the file b from this block on.
fn disk<const N: usize>(alloc: Global, start: u8, plan: [Telling; N]) -> Option<MemoryDisk> {
    let blocks = blocks(alloc, start)?;
    if blocks.len() != 4 {
        return None;
    }
    let plan = Vec::from_array(alloc, plan).ok()?;
    MemoryDisk::new(alloc, blocks, plan, 16).ok()
}

/// A request: what it grants, what it asks for, the file, the page, and a segment of 1,024 bytes or of 512.
fn asked(grants: u8, code: u8, file: u8, page: u8, len_high: u8) -> Message {
    Message([
        grants, code, 0, 0, 0, 0, 0, file, 0, 0, 0, page, 0, 0, 0, 0, 0, 0, 0, 0, 0, 0, 0, 0, 0, 0,
        0, 7, 0, 0, len_high, 0,
    ])
}

fn read(page: u8) -> Message {
    asked(2, 4, 0, page, 2)
}

fn write(page: u8) -> Message {
    asked(1, 5, 0, page, 2)
}

fn load() -> Message {
    asked(2, 6, 0, 0, 4)
}

/// What came of a request: the code of the reply, and the first byte that was stored last, or 0.
fn outcome<D: Disk>(server: &mut FileServer<D>, request: Message) -> Option<(u8, u8)> {
    let from = Pid::new(2, 1)?;
    let count = 0;
    let mut stored = 0;
    let mut last = Answer::ReceivedSegment {
        from,
        message: request,
        count,
    };
    for _ in 0..9 {
        match server.next(Some(&last))? {
            Call::Reply { message, .. } => {
                let _receive = server.next(Some(&Answer::Ok));
                return Some((message.0[1], stored));
            }
            Call::ReplySegment { message, .. } => {
                let _receive = server.next(Some(&Answer::Ok));
                return Some((message.0[1], stored));
            }
            Call::Load { .. } => {
                let bytes = Data::new(&[9; BLOCK])?;
                last = Answer::Loaded { bytes };
            }
            Call::Store { bytes, .. } => {
                stored = *bytes.as_slice().first()?;
                last = Answer::Ok;
            }
            _ => last = Answer::Ok,
        }
    }
    None
}

/// The outcomes of a session: page 0 is read, page 1 is read, page 1 is written, page 1 is read, and all is loaded.
fn session(server: &mut FileServer<MemoryDisk>) -> Option<[(u8, u8); 5]> {
    let _receive = server.next(None);
    Some([
        outcome(server, read(0))?,
        outcome(server, read(1))?,
        outcome(server, write(1))?,
        outcome(server, read(1))?,
        outcome(server, load())?,
    ])
}

/// The outcomes where the disk tells this.
fn session_with<const N: usize>(alloc: Global, plan: [Telling; N]) -> Option<[(u8, u8); 5]> {
    let disk = disk(alloc, 3, plan)?;
    let Ok(mut server) = FileServer::new(alloc, disk, 9) else {
        return None;
    };
    session(&mut server)
}

#[test]
fn a_block_is_read_ahead(rt: HostRuntime) -> Result<(), Fail> {
    let alloc = rt.alloc();
    let done = Telling::Done;
    let lost = Telling::Lost;
    let Some(disk) = disk(alloc, 3, [done, done, lost, lost]) else {
        panic!(rt; "no memory")
    };
    let Ok(mut server) = FileServer::new(alloc, disk, 9) else {
        panic!(rt; "no memory")
    };
    let _receive = server.next(None);
    assert_eq!(rt; outcome(&mut server, read(0)), Some((0, 5)));
    // page 1 was fetched ahead, and failed; now it fails once more
    assert_eq!(rt; outcome(&mut server, read(1)), Some((3, 0)));
    assert_eq!(rt; outcome(&mut server, read(1)), Some((0, 6)));
    assert_eq!(rt; outcome(&mut server, read(0)), Some((0, 5)));
    // here it stands ahead
    assert_eq!(rt; outcome(&mut server, read(1)), Some((0, 6)));
    let one = DiskCall::Read { block: 1 };
    let two = DiskCall::Read { block: 2 };
    let directory = DiskCall::Read { block: 0 };
    let calls = server.disk().calls();
    assert_eq!(rt; calls, [directory, one, two, two, two, one, two].as_slice());
    assert_eq!(rt; server.disk().faults(), 2);
    Ok(())
}

#[test]
fn each_call_fails_in_turn(rt: HostRuntime) -> Result<(), Fail> {
    let alloc = rt.alloc();
    let done = Telling::Done;
    let lost = Telling::Lost;
    let landed = Telling::Landed;
    let Some(none) = session_with(alloc, []) else {
        panic!(rt; "no memory")
    };
    assert_eq!(rt; none, [(0, 5), (0, 6), (0, 0), (0, 9), (0, 9)]);
    // the second call reads page 0, the third page 1 ahead, the fourth writes it, the fifth reads it again, and the last two load
    let second = session_with(alloc, [done, lost]);
    assert_eq!(rt; second, Some([(3, 0), (0, 6), (0, 0), (0, 9), (0, 9)]));
    let third = session_with(alloc, [done, done, lost]);
    assert_eq!(rt; third, Some([(0, 5), (0, 6), (0, 0), (0, 9), (0, 9)]));
    let fourth = session_with(alloc, [done, done, done, lost]);
    assert_eq!(rt; fourth, Some([(0, 5), (0, 6), (3, 0), (0, 6), (0, 6)]));
    // a write that failed may have been made
    let made = session_with(alloc, [done, done, done, landed]);
    assert_eq!(rt; made, Some([(0, 5), (0, 6), (3, 0), (0, 9), (0, 9)]));
    let fifth = session_with(alloc, [done, done, done, done, lost]);
    assert_eq!(rt; fifth, Some([(0, 5), (0, 6), (0, 0), (3, 0), (0, 9)]));
    let sixth = session_with(alloc, [done, done, done, done, done, lost]);
    assert_eq!(rt; sixth, Some([(0, 5), (0, 6), (0, 0), (0, 9), (3, 0)]));
    let seventh = session_with(alloc, [done, done, done, done, done, done, lost]);
    assert_eq!(rt; seventh, Some([(0, 5), (0, 6), (0, 0), (0, 9), (3, 5)]));
    Ok(())
}

#[test]
fn the_directory_fails(rt: HostRuntime) -> Result<(), Fail> {
    let alloc = rt.alloc();
    let Some(disk) = disk(alloc, 3, [Telling::Lost]) else {
        panic!(rt; "no memory")
    };
    let Err(refusal) = FileServer::new(alloc, disk, 9) else {
        assert!(rt; false);
        return Ok(());
    };
    assert_eq!(rt; refusal.why, VolumeFault::Failed);
    assert_eq!(rt; refusal.disk.faults(), 1);
    Ok(())
}

#[test]
fn an_entry_meets_another(rt: HostRuntime) -> Result<(), Fail> {
    let alloc = rt.alloc();
    let Some(disk) = disk(alloc, 2, []) else {
        panic!(rt; "no memory")
    };
    let Err(refusal) = FileServer::new(alloc, disk, 9) else {
        assert!(rt; false);
        return Ok(());
    };
    assert_eq!(rt; refusal.why, VolumeFault::BadVolume { entry: 1 });
    assert_eq!(rt; refusal.disk.blocks(), 4);
    Ok(())
}
