//! Links over the system's UDP sockets, on the loopback address. They tell nothing of what they hand out and are given to send.
ghost use Rattle.std.specs.Prelude.{◌≡◌, None};

use crate::link::{Link, Wire};
use std::io;
use std::io::ErrorKind;
use std::net::{Ipv4Addr, Net, SocketAddrV4, UdpSocket};
use std::time::{Clock, Duration};
use vk_base::FrameBytes;
use vk_base::limits::FRAME_BYTES;
use vk_io::Failed;

/// One byte more than a datagram has that is handed out.
const ROOM: usize = FRAME_BYTES + 1;

/// A UDP socket on the loopback address, at which a receive waits for some milliseconds. A datagram of more than 1,152 bytes it skips.
#[derive(Drop)]
pub struct UdpLink {
    socket: UdpSocket,
    /// Where a datagram is put first.
    bytes: [u8; ROOM],
    faults: u64,
}

impl Link for UdpLink {
    ghost handed = { λ l. None };

    ghost sent = { λ l. None };

    ghost fault_count = { λ l. l.faults };

    fn faults(&self) -> u64 {
        self.faults
    }

    fn send<R: Clock>(&mut self, _rt: &R, port: u16, frame: &FrameBytes) {
        let _sent = self.socket.send_to(frame.as_slice(), loopback(port));
    }

    fn receive<R: Clock>(&mut self, _rt: &R, into: &mut FrameBytes) -> Result<bool, Failed> {
        match self.socket.recv_from(&mut self.bytes) {
            Ok((count, _)) => Ok(take_bytes(&self.bytes[..count], into)),
            Err(error) if is_no_fault(&error) => Ok(false),
            Err(_) => {
                self.faults = self.faults.saturating_add(1);
                Err(Failed)
            }
        }
    }
}

/// Makes these bytes the frame's, unless there are too many.
fn take_bytes(bytes: &[u8], into: &mut FrameBytes) -> bool {
    let fits = bytes.len() <= FRAME_BYTES;
    if fits {
        into.clear();
        into.append(bytes);
    }
    fits
}

/// Nothing is there yet, or an earlier datagram found nobody.
fn is_no_fault(error: &io::Error) -> bool {
    matches!(
        error.kind(),
        ErrorKind::WouldBlock
            | ErrorKind::TimedOut
            | ErrorKind::Interrupted
            | ErrorKind::ConnectionRefused
    )
}

/// This port of this machine.
fn loopback(port: u16) -> SocketAddrV4 {
    SocketAddrV4::new(Ipv4Addr::LOCALHOST, port)
}

/// Opens UDP sockets.
#[derive(Default, Drop)]
pub struct UdpWire {
    faults: u64,
}

impl UdpWire {
    /// A wire that has met no fault yet.
    pub fn new() -> UdpWire
        ensures { result.faults ≡ 0 }
    {
        UdpWire { faults: 0 }
    }
}

impl Wire for UdpWire {
    type L = UdpLink;

    ghost handed = { λ w. None };

    ghost sent = { λ w. None };

    ghost fault_count = { λ w. w.faults };

    fn faults(&self) -> u64 {
        self.faults
    }

    fn open<R: Net>(&mut self, rt: &R, port: u16) -> Result<UdpLink, Failed> {
        match opened(rt, port) {
            Ok(socket) => Ok(UdpLink {
                socket,
                bytes: [0; ROOM],
                faults: 0,
            }),
            Err(_) => {
                self.faults = self.faults.saturating_add(1);
                Err(Failed)
            }
        }
    }

    fn close(&mut self, link: UdpLink) {
        if link.faults > 0 {
            self.faults = self.faults.saturating_add(1);
        }
    }
}

/// A socket at this port, at which a receive waits for a millisecond, or for as long as the system counts it.
fn opened<R: Net>(rt: &R, port: u16) -> io::Result<UdpSocket> {
    let socket = UdpSocket::bind(rt, loopback(port))?;
    socket.set_read_timeout(Some(Duration::from_millis(1)))?;
    Ok(socket)
}
