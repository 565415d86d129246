//! Events in few bytes: what a reader has read, and what is to be seen of an event.

ghost use Rattle.std.specs.Prelude.{◌≡◌, ◌≤◌, length};
ghost use Rattle.vk_base.specs.declared.limits.TheConstants.{DATA_BYTES as BYTES};
ghost use Rattle.vk_brief.specs.Brief.{call_with};
ghost use Rattle.vk_schedule.specs.Views.{event_by};
ghost use Rattle.vk_schedule.specs.declared.event.Event.TheVariants as events;

use crate::event::Event;
use std::marker::Model;
use vk_base::Pid;
use vk_brief::{BriefCall, CallBuffer, CallView};

/// An [`Event`] without the call that a process makes.
#[derive(Clone, Copy)]
pub enum EventKind {
    Call {
        pid: Pid,
    },
    Collect {
        pid: Pid,
    },
    Tick {
        host: u16,
    },
    Deliver {
        to: u16,
        from: u16,
        event: u64,
        output: u16,
    },
}

impl EventKind {
    /// What kind of event it is; and where a call is made, the call without its bytes, and the bytes of a Store.
    pub fn of(event: &Event) -> (Self, BriefCall, &[u8])
        ensures event { event.now ≡ event_by result.0 (call_with result.2.now result.1) }
        ensures few { length result.2.now ≤ BYTES }
    {
        let kind = match *event {
            Event::Call { pid, ref call } => {
                let (call, bytes) = BriefCall::of(call);
                return (EventKind::Call { pid }, call, bytes);
            }
            Event::Collect { pid } => EventKind::Collect { pid },
            Event::Tick { host } => EventKind::Tick { host },
            Event::Deliver {
                to,
                from,
                event,
                output,
            } => EventKind::Deliver {
                to,
                from,
                event,
                output,
            },
        };
        (kind, BriefCall::Receive, &[])
    }
}

/// An event whose bytes, where it has some, are lent. Contracts see the event.
#[derive(Drop)]
pub struct EventView<'a> {
    kind: EventKind,
    /// The call, where one is made.
    call: CallView<'a>,
}

impl<'a> Model for EventView<'a> {
    ghost use Rattle.vk_schedule.specs.declared.event.Event.{Event as TheEvent};
    ghost use Rattle.vk_schedule.specs.Views.{event_by};

    ghost Value = { TheEvent };

    ghost view = { λ v. event_by v.kind v.call };
}

impl<'a> EventView<'a> {
    /// The event of this kind, with this call, and these bytes of a Store, where one is made.
    pub fn new(kind: EventKind, call: &'a BriefCall, bytes: &'a [u8]) -> Self
        requires { length bytes.now ≤ BYTES }
        ensures { result ≡ event_by kind (call_with bytes.now call.now) }
    {
        EventView {
            kind,
            call: CallView::new(call, bytes),
        }
    }

    /// What kind of event it is, and the call, where one is made.
    pub fn parts(&self) -> (EventKind, &CallView<'a>)
        ensures { self.now ≡ event_by result.0 result.1.now }
    {
        (self.kind, &self.call)
    }

    /// The event itself.
    pub fn whole(&self) -> Event
        ensures { result ≡ self.now }
    {
        match self.kind {
            EventKind::Call { pid } => Event::Call {
                pid,
                call: self.call.whole(),
            },
            EventKind::Collect { pid } => Event::Collect { pid },
            EventKind::Tick { host } => Event::Tick { host },
            EventKind::Deliver {
                to,
                from,
                event,
                output,
            } => Event::Deliver {
                to,
                from,
                event,
                output,
            },
        }
    }
}

/// Room for any event, which contracts see.
#[derive(Drop)]
pub struct EventBuffer {
    pub(crate) kind: EventKind,
    /// The call, where one is made.
    pub(crate) call: CallBuffer,
}

impl Model for EventBuffer {
    ghost use Rattle.vk_schedule.specs.declared.event.Event.{Event as TheEvent};
    ghost use Rattle.vk_schedule.specs.Views.{event_by};

    ghost Value = { TheEvent };

    ghost view = { λ b. event_by b.kind b.call };
}

impl EventBuffer {
    /// A tick of no station, in room for any event.
    pub fn new() -> Self
        ensures { result ≡ events.Tick 0 }
    {
        EventBuffer {
            kind: EventKind::Tick { host: 0 },
            call: CallBuffer::new(),
        }
    }

    /// The event that is in it.
    pub fn view(&self) -> EventView<'_>
        ensures { result ≡ self.now }
    {
        EventView {
            kind: self.kind,
            call: self.call.view(),
        }
    }
}
