//! The tables of a machine. What the lists of processes have at a place is of the process that has this place.

pub mod apart;
pub mod arrivals;
pub mod arrived;
pub mod begun;
pub mod bytes;
pub mod groups;
pub mod handed;
pub mod initial;
pub mod latest;
pub mod lookups;
pub mod moving;
pub mod numbered;
pub mod places;
pub mod proc;
pub mod put;
pub mod queue;
pub mod queues;
pub mod remote;
pub mod same;
pub mod sends;
pub mod sent;
pub mod spent;

use crate::tables::arrived::Arrived;
use crate::tables::begun::Begun;
use crate::tables::latest::Latests;
use crate::tables::numbered::Numbered;
use crate::tables::places::Places;
use crate::tables::proc::Proc;
use crate::tables::queue::Queue;
use vk_base::{Lookup, Registration};

#[derive(Drop)]
pub struct Store {
    pub places: Places,
    pub procs: Vec<Proc>,
    pub sends: Vec<Begun>,
    pub asked: Vec<Numbered<Lookup>>,
    pub names: Vec<Registration>,
    pub arrived: Arrived,
    /// Whether the list of Sends that one was put into last had no room for another one then. Nothing but a cost hangs on it.
    pub crowded: bool,
    /// For each process what came to its queue, and may still be queued.
    pub queues: Vec<Queue>,
    /// For each process and each host the last Send to the host that came to a queue.
    pub latest: Vec<Latests>,
}
