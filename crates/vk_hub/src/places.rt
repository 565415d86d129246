//! Places for frames and requests, each as the event that it is: so no frame is copied into an event, and for a request no room of a frame
//! is cleared.
ghost use Rattle.std.specs.Prelude.{◌≡◌, ◌≤◌, [], length};
ghost use Rattle.vk_base.specs.declared.limits.TheConstants.{FRAME_BYTES as BYTES};
ghost use Rattle.vk_base.specs.declared.event.StationEvent.TheVariants as events;
ghost use Rattle.vk_hub.specs.declared.event.HubEvent.TheVariants as hub_events;

use crate::event::HubEvent;
use std::marker::Model;
use vk_base::{FrameBytes, StationEvent};

/// A frame that comes to a station. Contracts see its bytes.
#[derive(Drop)]
pub struct Delivery {
    event: StationEvent,
}

impl Model for Delivery {
    ghost use Rattle.std.specs.Prelude.{◌≡◌};
    ghost use Rattle.vk_base.specs.declared.event.StationEvent.TheVariants as events;
    ghost use Rattle.vk_hub.specs.Links.{Frame};
    ghost use Rattle.vk_hub.specs.Places.{frame_brought};

    ghost Value = { Frame };

    ghost view = { λ d. frame_brought d.event };

    ghost invariant = { λ d. d.event ≡ events.Deliver (frame_brought d.event) };
}

impl Delivery {
    /// Of a frame without bytes.
    pub fn new() -> Delivery
        ensures { result ≡ [] }
    {
        Delivery {
            event: StationEvent::Deliver { frame: no_bytes() },
        }
    }

    /// The event that the frame comes.
    pub fn event(&self) -> &StationEvent
        ensures { result.now ≡ events.Deliver self.now }
    {
        &self.event
    }

    /// The frame.
    pub fn frame(&self) -> &FrameBytes
        ensures { result.now ≡ self.now }
    {
        match &self.event {
            StationEvent::Deliver { frame } => frame,
            _ => unreachable!(),
        }
    }

    /// The frame of these bytes from now on, of which there are not too many.
    pub fn fill(&mut self, bytes: &[u8])
        requires { length bytes.now ≤ BYTES }
        ensures { self.new ≡ bytes.now }
    {
        match &mut self.event {
            StationEvent::Deliver { frame } => fill(frame, bytes),
            _ => unreachable!(),
        }
    }
}

/// A frame that is to be posted. Contracts see its bytes.
#[derive(Drop)]
pub struct Dispatch {
    event: HubEvent,
}

impl Model for Dispatch {
    ghost use Rattle.std.specs.Prelude.{◌≡◌};
    ghost use Rattle.vk_hub.specs.declared.event.HubEvent.TheVariants as hub_events;
    ghost use Rattle.vk_hub.specs.Links.{Frame};
    ghost use Rattle.vk_hub.specs.Places.{frame_posted};

    ghost Value = { Frame };

    ghost view = { λ p. frame_posted p.event };

    ghost invariant = { λ p. p.event ≡ hub_events.Post (frame_posted p.event) };
}

impl Dispatch {
    /// Of a frame without bytes.
    pub fn new() -> Dispatch
        ensures { result ≡ [] }
    {
        Dispatch {
            event: HubEvent::Post { frame: no_bytes() },
        }
    }

    /// The event that the frame is posted.
    pub fn event(&self) -> &HubEvent
        ensures { result.now ≡ hub_events.Post self.now }
    {
        &self.event
    }

    /// The frame.
    pub fn frame(&self) -> &FrameBytes
        ensures { result.now ≡ self.now }
    {
        match &self.event {
            HubEvent::Post { frame } => frame,
            _ => unreachable!(),
        }
    }

    /// The frame of these bytes from now on, of which there are not too many.
    pub fn fill(&mut self, bytes: &[u8])
        requires { length bytes.now ≤ BYTES }
        ensures { self.new ≡ bytes.now }
    {
        match &mut self.event {
            HubEvent::Post { frame } => fill(frame, bytes),
            _ => unreachable!(),
        }
    }
}

/// A station's request for what waits for it. Contracts see the station's number.
#[derive(Drop)]
pub struct Request {
    event: HubEvent,
}

impl Model for Request {
    ghost use Rattle.std.specs.Prelude.{◌≡◌, ℕ};
    ghost use Rattle.vk_hub.specs.declared.event.HubEvent.TheVariants as hub_events;
    ghost use Rattle.vk_hub.specs.Places.{host_asking};

    ghost Value = { ℕ };

    ghost view = { λ r. host_asking r.event };

    ghost invariant = { λ r. r.event ≡ hub_events.Fetch (host_asking r.event) };
}

impl Request {
    /// Of this station.
    pub fn new(host: u16) -> Request
        ensures { result ≡ host }
    {
        Request {
            event: HubEvent::Fetch { host },
        }
    }

    /// The event that the station takes what has waited longest for it.
    pub fn event(&self) -> &HubEvent
        ensures { result.now ≡ hub_events.Fetch self.now }
    {
        &self.event
    }
}

/// A frame without bytes.
fn no_bytes() -> FrameBytes
    ensures { result ≡ [] }
{
    match FrameBytes::new(&[]) {
        Some(frame) => frame,
        None => unreachable!(),
    }
}

/// Puts these bytes there in place of what was there.
fn fill(frame: &mut FrameBytes, bytes: &[u8])
    requires { length bytes.now ≤ BYTES }
    ensures { frame.new ≡ bytes.now }
{
    frame.clear();
    frame.append(bytes);
}
