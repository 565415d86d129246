// The links between all stations.
ghost use Rattle.std.specs.Prelude.{false, ◌≡◌, ◌<◌, ◌^◌, Some, None, if◌then◌else◌, is_some, nat_le};
ghost use Rattle.vk_hub.specs.Hubs.{answered, changed, fetched_as, fetched_from, fetched_in, first_for, is_ready, is_stopped, waits_nowhere, without_first};
ghost use Rattle.vk_hub.specs.Links.{header_of, is_addressed, posted_all};

use crate::event::{Arrival, HubEvent};
use crate::inbox::Inbox;
use crate::out::HubOut;
use crate::places::Delivery;
use std::marker::Model;
use vk_base::FrameBytes;
use vk_frame::{Header, unseal};
use vk_generator::Generator;
use vk_schedule::LinkPlan;

/// The generator's state, what waits for each station, how many programs have finished, and whether the hub is halted.
#[derive(Drop)]
pub struct Links {
    generator: Generator,
    inboxes: Vec<Inbox>,
    finished: u64,
    halted: bool,
}

impl Model for Links {
    ghost use Rattle.vk_hub.specs.Hubs.{Traffic};

    ghost Value = { Traffic };

    ghost view = { λ l. record { x = l.generator; waiting = l.inboxes.items; finished = l.finished; halted = l.halted } };
}

// The header that opens the frame, if one does.
fn header_of(frame: &FrameBytes) -> Option<Header>
    ensures { result ≡ header_of frame.now }
{
    match unseal(frame.as_slice()) {
        Some((header, _)) => Some(header),
        None => None,
    }
}

fn is_addressed(header: Option<Header>, station: u16) -> bool
    ensures { result ≡ is_addressed header station }
{
    match header {
        Some(header) => {
            header.destination == station
                || (header.destination == u16::MAX && header.source != station)
        }
        None => false,
    }
}

// Posts the frame to each station that it is addressed to, by three draws of the generator for each. For which stations a frame waits then,
// by their places, bit by bit: there are 16 at most.
fn post_all(
    inboxes: &mut Vec<Inbox>,
    plan: &LinkPlan,
    generator: &mut Generator,
    frame: &FrameBytes,
) -> u32
    ensures { posted_all plan.now generator.old inboxes.old.items (header_of frame.now) frame.now ≡ (generator.new, inboxes.new.items) }
{
    let header = header_of(frame);
    let mut reached = 0;
    for i in 0..inboxes.len() {
        let inbox = &mut inboxes[i];
        if is_addressed(header, inbox.station()) {
            inbox.post(plan, generator, frame);
            if inbox.has_frame() && i < 32 {
                reached |= 1 << i as u32;
            }
        }
    }
    reached
}

// Whether a frame waits for the station.
fn has_frame_for(inboxes: &Vec<Inbox>, host: u16) -> bool
    ensures { result ≡ is_some (first_for host inboxes.now.items) }
{
    for inbox in inboxes {
        if inbox.station() == host {
            return inbox.has_frame();
        }
    }
    false
}

// Whether no frame waits for any station.
fn are_empty(inboxes: &Vec<Inbox>) -> bool
    ensures { result ≡ waits_nowhere inboxes.now.items }
{
    for inbox in inboxes {
        if inbox.has_frame() {
            return false;
        }
    }
    true
}

// Takes the frame that waits longest for the station, and puts it there. Whether there was one.
fn take_for(inboxes: &mut Vec<Inbox>, host: u16, into: &mut Delivery) -> bool
    ensures value { first_for host inboxes.old.items ≡ (if result then Some into.new else None) }
    ensures rest { inboxes.new.items ≡ without_first host inboxes.old.items }
{
    for i in 0..inboxes.len() {
        let inbox = &mut inboxes[i];
        if inbox.station() == host {
            return inbox.take(into);
        }
    }
    false
}

impl Links {
    pub fn new(seed: u64, inboxes: Vec<Inbox>) -> Links
        ensures { result ≡ record { x = seed; waiting = inboxes.items; finished = 0; halted = false } }
    {
        Links {
            generator: Generator::new(seed),
            inboxes,
            finished: 0,
            halted: false,
        }
    }

    pub fn is_halted(&self) -> bool
        ensures { result ≡ self.now.halted }
    {
        self.halted
    }

    pub fn is_stopped(&self, programs: u32) -> bool
        ensures { result ≡ is_stopped programs self.now }
    {
        self.halted || self.finished >= u64::from(programs)
    }

    /// Whether so many programs have finished.
    pub fn have_finished(&self, programs: u32) -> bool
        ensures { result ≡ nat_le programs self.now.finished }
    {
        self.finished >= u64::from(programs)
    }

    /// Whether nothing waits.
    pub fn is_idle(&self) -> bool
        ensures { result ≡ waits_nowhere self.now.waiting }
    {
        are_empty(&self.inboxes)
    }

    pub fn is_ready(&self, programs: u32, event: &HubEvent) -> bool
        ensures { result ≡ is_ready programs self.now event.now }
    {
        match event {
            HubEvent::Fetch { host } => {
                self.is_stopped(programs) || has_frame_for(&self.inboxes, *host)
            }
            HubEvent::Halt => !self.halted,
            _ => true,
        }
    }

    /// What the event makes of it. What it gives is put there.
    pub fn change(&mut self, plan: &LinkPlan, programs: u32, event: &HubEvent, out: &mut HubOut)
        requires { self.old.finished < 2 ^ 63 }
        ensures traffic { self.new ≡ changed plan.now programs self.old event.now }
        ensures answer { fetched_in out.new ≡ answered programs self.old event.now }
    {
        out.arrival = match event {
            HubEvent::Post { frame } => {
                out.reached = post_all(&mut self.inboxes, plan, &mut self.generator, frame);
                None
            }
            HubEvent::Fetch { host } => {
                let arrival = self.fetch(programs, *host, &mut out.delivery);
                out.more = has_frame_for(&self.inboxes, *host);
                Some(arrival)
            }
            HubEvent::Finished => {
                self.finished += 1;
                None
            }
            HubEvent::Halt => {
                self.halted = true;
                None
            }
        };
        out.ended = self.is_stopped(programs);
    }

    // Takes what a fetch of the station gives, and puts the frame there.
    fn fetch(&mut self, programs: u32, host: u16, into: &mut Delivery) -> Arrival
        ensures traffic { self.new ≡ record self.old {
          waiting = (if is_stopped programs self.old then self.old.waiting else without_first host self.old.waiting);
        } }
        ensures answer { fetched_as result into.new ≡ fetched_from programs self.old host }
    {
        if self.is_stopped(programs) {
            Arrival::Stopped
        } else if take_for(&mut self.inboxes, host, into) {
            Arrival::Frame
        } else {
            Arrival::Nothing
        }
    }
}
