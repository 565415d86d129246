//! The event that a storm comes to, in few bytes.

ghost use Rattle.std.specs.Prelude.{◌≡◌};
ghost use Rattle.vk_types.specs.Types.{Call as TheCall, Pid as ThePid};
ghost use Rattle.vk_schedule.specs.declared.event.Event.TheVariants as events;
ghost use Rattle.vk_schedule.specs.Views.{event_by};
ghost use Rattle.vk_rules.specs.Laws.{station_of};

use std::marker::Model;
use vk_base::{Call, Pid};
use vk_brief::{BriefCall, CallBuffer, CallView};
use vk_frame::Header;
use vk_schedule::{EventKind, EventView};

/// Room for any event, which contracts see: the one that happens next, or happened last.
#[derive(Drop)]
pub struct NextEvent {
    kind: EventKind,
    /// The call, where one is made.
    call: CallBuffer,
}

impl Model for NextEvent {
    ghost use Rattle.vk_schedule.specs.declared.event.Event.{Event as TheEvent};
    ghost use Rattle.vk_schedule.specs.Views.{event_by};

    ghost Value = { TheEvent };

    ghost view = { λ n. event_by n.kind n.call };
}

impl NextEvent {
    /// A tick of station 1, in room for any event.
    pub fn new() -> Self
        ensures { result ≡ events.Tick 1 }
    {
        NextEvent {
            kind: EventKind::Tick { host: 1 },
            call: CallBuffer::new(),
        }
    }

    /// The process collects from now on.
    pub fn set_collect(&mut self, pid: Pid)
        ensures { self.new ≡ events.Collect pid }
    {
        self.kind = EventKind::Collect { pid };
    }

    /// The station ticks from now on.
    pub fn set_tick(&mut self, host: u16)
        ensures { self.new ≡ events.Tick host }
    {
        self.kind = EventKind::Tick { host };
    }

    /// The frame with this header comes to its destination from now on.
    pub fn set_delivery(&mut self, header: &Header)
        ensures { self.new ≡ events.Deliver header.now.destination header.now.source header.now.event header.now.output }
    {
        self.kind = EventKind::Deliver {
            to: header.destination,
            from: header.source,
            event: header.event,
            output: header.output,
        };
    }

    /// This call of the process from now on.
    pub fn set_call(&mut self, pid: Pid, call: &Call)
        ensures { self.new ≡ events.Call pid call.now }
    {
        self.kind = EventKind::Call { pid };
        match call {
            Call::Store { start, bytes } => self.call.set_store(*start, bytes.as_slice()),
            _ => {
                let (brief, _bytes) = BriefCall::of(call);
                self.call.set(brief);
            }
        }
    }

    /// The station that acts at it.
    pub fn station(&self) -> u16
        ensures { result ≡ station_of self.now }
    {
        match self.kind {
            EventKind::Call { pid } | EventKind::Collect { pid } => pid.host,
            EventKind::Tick { host } => host,
            EventKind::Deliver { to, .. } => to,
        }
    }

    /// What kind of event is in it.
    pub fn kind(&self) -> EventKind
        ensures { (call : TheCall) × (self.now ≡ event_by result call) }
    {
        self.kind
    }

    /// The call, where one is made.
    pub fn call(&self) -> CallView<'_>
        ensures { (pid : ThePid) (call : TheCall) → self.now ≡ events.Call pid call → result ≡ call }
    {
        self.call.view()
    }

    /// The event that is in it.
    pub fn view(&self) -> EventView<'_>
        ensures { result ≡ self.now }
    {
        let (call, bytes) = self.call.view().parts();
        EventView::new(self.kind, call, bytes)
    }
}
