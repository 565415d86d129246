//! The halt of a run.
ghost use Rattle.std.specs.Prelude.{◌≡◌, true};
ghost use Rattle.turn_cell.specs.Seats.{IsSeatOf};
ghost use Rattle.vk_hub.specs.Hubs.{has_halt};

use std::marker::Model;
use std::sync::Wait;
use std::thread::Threads;
use std::time::Clock;
use turn_cell::TurnSeat;
use vk_hub::{Hub, HubState};
use vk_io::Halt;

/// Stops the hub, by a seat of its own.
#[derive(Drop)]
pub struct HubHalt<'a> {
    hub: &'a Hub,
    seat: TurnSeat<HubState>,
}

impl<'a> Model for HubHalt<'a> {
    ghost use Rattle.turn_cell.specs.Seats.{IsSeatOf, Sitting};
    ghost use Rattle.vk_hub.specs.declared.event.HubEvent.{HubEvent};
    ghost use Rattle.vk_hub.specs.Hubs.{HubLog};

    ghost Value = { Sitting HubLog HubEvent };

    ghost view = { λ h. h.seat };

    ghost invariant = { λ h. IsSeatOf h.hub.now h.seat };
}

impl<'a> HubHalt<'a> {
    /// Over the hub, with a seat of it.
    pub fn new(hub: &'a Hub, seat: TurnSeat<HubState>) -> HubHalt<'a>
        requires { IsSeatOf hub.now seat }
        ensures { result ≡ seat }
    {
        HubHalt { hub, seat }
    }

    /// Hands its seat back.
    pub fn into_seat(self) -> TurnSeat<HubState>
        ensures { result ≡ self.entry }
    {
        let HubHalt { hub: _, seat } = self;
        seat
    }
}

impl<'a> Halt for HubHalt<'a> {
    ghost is_halted = { λ h. has_halt h.seen ≡ true };

    fn halt<R: Wait + Threads + Clock + Sync>(&mut self, rt: &R) {
        self.hub.stop(rt, &mut self.seat);
    }
}
