//! What links and wires promise.
ghost use Rattle.std.specs.Prelude.{◌≡◌, ◌∷◌, [], ℕ, List, Option, IfOk};
ghost use Rattle.vk_io.specs.Causes.{HasCause};
ghost use Rattle.vk_udp.specs.Wires.{CountsLink, Datagram, HasNothing, IsClosed, IsMore, IsNewLink, received};

use std::net::Net;
use std::time::Clock;
use vk_base::FrameBytes;
use vk_io::Failed;

/// A port of this machine, from which datagrams are sent and at which they come. What it handed out, and what it was given to send, is
/// known to a contract where the link tells it.
pub trait Link: Drop {
    /// The datagrams that it handed out, in order.
    ghost handed: { Self → Option (List (List ℕ)) };

    /// The datagrams that it was given to send, with their ports, in order.
    ghost sent: { Self → Option (List Datagram) };

    ghost fault_count: { Self → ℕ };

    /// How many faults there were. The count stays at `u64::MAX` once it is there.
    fn faults(&self) -> u64
        ensures { result ≡ fault_count self.now };

    /// Sends the bytes of a frame to a port, as one datagram. That it comes, nobody promises.
    fn send<R: Clock>(&mut self, rt: &R, port: u16, frame: &FrameBytes)
        ensures sent { IsMore (sent self.old) (sent self.new) ((port, frame.now) ∷ []) }
        ensures handed { handed self.new ≡ handed self.old }
        ensures faults { fault_count self.new ≡ fault_count self.old };

    /// Hands out one datagram, if one is there: it is to wait for one a few milliseconds, since who got none asks again at once. Then it
    /// answers true, and `into` has its bytes, of which there are at most 1,152.
    fn receive<R: Clock>(&mut self, rt: &R, into: &mut FrameBytes) -> Result<bool, Failed>
        ensures handed { handed self.new ≡ received (handed self.old) result into.new }
        ensures sent { sent self.new ≡ sent self.old }
        ensures cause { HasCause (fault_count self.old) (fault_count self.new) result };
}

/// Opens links, and takes them back. What its links handed out, and what they were given to send, is known to a contract where the wire
/// tells it.
pub trait Wire {
    type L: Link + Send;

    /// The datagrams that the links handed out which it took back, in order.
    ghost handed: { Self → Option (List (List ℕ)) };

    /// The datagrams that they were given to send, in order.
    ghost sent: { Self → Option (List Datagram) };

    ghost fault_count: { Self → ℕ };

    /// How many faults there were. The count stays at `u64::MAX` once it is there.
    fn faults(&self) -> u64
        ensures { result ≡ fault_count self.now };

    /// A link at this port. It has handed out nothing, was given nothing to send, and met no fault.
    fn open<R: Net>(&mut self, rt: &R, port: u16) -> Result<Self::L, Failed>
        ensures handed { handed self.new ≡ handed self.old }
        ensures sent { sent self.new ≡ sent self.old }
        ensures link { IfOk result (λ l. IsNewLink (handed self.new) (Self.L.handed l) (Self.L.fault_count l)) }
        ensures unsent { IfOk result (λ l. HasNothing (sent self.new) (Self.L.sent l)) }
        ensures cause { HasCause (fault_count self.old) (fault_count self.new) result };

    /// Takes a link back. It is a fault of the wire if the link met one.
    fn close(&mut self, link: Self::L)
        ensures handed { IsClosed (handed self.old) (Self.L.handed link) (handed self.new) }
        ensures sent { IsClosed (sent self.old) (Self.L.sent link) (sent self.new) }
        ensures faults { CountsLink (Self.L.fault_count link) (fault_count self.old) (fault_count self.new) };
}
