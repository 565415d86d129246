//! One station in a program of its own, whose link to the others are datagrams: a node.
//!
//! [`run_node`] opens a link at the station's port, deals the seats of the station and of its hub to jobs, and has a crew run them: one job
//! for each program, the clock, and one that carries frames between the hub and the link. From the seats that come back it closes both
//! histories, and takes the link back. What the record then says is `specs/Node.antt`, `IsNodeRecord`; what links and wires promise is
//! `src/link.rt` and `specs/Wires.antt`; what each job may come to, `specs/Jobs.antt`. Frames are carried by whichever thread has the
//! turn: what is kept behind that lock is `src/dock.rt`, `specs/Docked.antt`; when the clock ticks, `src/beat.rt`. Stands on the law of
//! closed nodes in `v_node` and on the jobs of `vk_threads`. `src/udp.rt` is the edge to the system's sockets; nothing else here knows of
//! them.
#![tactic(auto)]

mod beat;
mod carrier;
mod clock;
mod deal;
mod dock;
mod gather;
mod link;
mod memory;
mod node;
mod record;
mod udp;
mod work;

pub use link::{Link, Wire};
pub use memory::{MemoryLink, MemoryWire, SureLink, SureWire};
pub use node::run_node;
pub use record::{NodeRecord, NodeRefusal};
pub use udp::{UdpLink, UdpWire};
