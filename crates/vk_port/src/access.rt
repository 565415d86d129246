//! The two seats of a port, and what is done by them.

ghost use Rattle.std.specs.Prelude.{◌≡◌, ◌≢◌, ◌≤◌, [], true, false, IfOk, IfErr, OnOk, Some};
ghost use Rattle.turn_cell.specs.Seats.{IsComplete, IsSameSeat, IsSeatOf};
ghost use Rattle.vk_hub.specs.declared.event.Fetched.TheVariants as fetched;
ghost use Rattle.vk_hub.specs.declared.event.HubEvent.TheVariants as hub_events;
ghost use Rattle.vk_hub.specs.Hubs.{fetched_as};
ghost use Rattle.vk_types.specs.Types.{EventAnswer as TheAnswer};
ghost use Rattle.vk_port.specs.Ports.{AtHub, Does, HasMade, HasPumped, IsCutEvent, IsCutPump, IsMet, IsRefused, pumped_as};
ghost use Rattle.vk_port.specs.Stations.{is_own, is_ready, most_frames};
ghost use Rattle.vk_port.specs.Turns.{HasFetchedFrame, HasPosted, HasStoppedPosting, is_collect, room_of};
ghost use Rattle.vk_port.specs.declared.port.Pumped.TheVariants as pumped;

use crate::station::Station;
use crate::station_out::StationOut;
use std::alloc::Global;
use std::marker::Model;
use std::sync::Wait;
use turn_cell::{Ready, Room, TurnCell, TurnSeat};
use vk_base::StationEvent;
use vk_hub::{Arrival, Bells, Hub, HubOut, HubState, Request};

/// A seat at a station's cell, and one at the hub.
#[derive(Drop)]
pub struct StationAccess<'a> {
    /// The station's, for what waits for it at the hub.
    request: Request,
    station: &'a TurnCell<Station>,
    seat: TurnSeat<Station>,
    hub: &'a Hub,
    hub_seat: TurnSeat<HubState>,
    ticks: bool,
    /// What its posts give, which is nothing.
    posted: HubOut,
}

impl<'a> Model for StationAccess<'a> {
    ghost use Rattle.std.specs.Prelude.{◌≡◌};
    ghost use Rattle.turn_cell.specs.Seats.{IsComplete, IsSeatOf};
    ghost use Rattle.vk_port.specs.Ports.{PortValue};

    ghost Value = { PortValue };

    ghost view = { λ p. record {
      host = p.request;
      station = p.station.now;
      hub = p.hub.now;
      seat = p.seat;
      hub_seat = p.hub_seat;
      ticks = p.ticks;
    } };

    ghost invariant = { λ p. (p.station.now.origin.host ≡ p.request) × IsSeatOf p.station.now p.seat × IsSeatOf p.hub.now p.hub_seat
        × IsComplete p.seat × IsComplete p.hub_seat };
}

impl<'a> StationAccess<'a> {
    /// By these two seats.
    pub fn new(
        host: u16,
        station: &'a TurnCell<Station>,
        seat: TurnSeat<Station>,
        hub: &'a Hub,
        hub_seat: TurnSeat<HubState>,
        ticks: bool,
    ) -> StationAccess<'a>
        requires host { station.now.origin.host ≡ host }
        requires seat { IsSeatOf station.now seat }
        requires hub_seat { IsSeatOf hub.now hub_seat }
        requires complete { IsComplete seat }
        requires hub_complete { IsComplete hub_seat }
        ensures { result ≡ record {
          host = host;
          station = station.now;
          hub = hub.now;
          seat = seat;
          hub_seat = hub_seat;
          ticks = ticks;
        } }
    {
        StationAccess {
            request: Request::new(host),
            station,
            seat,
            hub,
            hub_seat,
            ticks,
            posted: HubOut::new(),
        }
    }

    /// Where the threads at its hub wait.
    pub fn bells(&self) -> &'a Bells {
        self.hub.bells()
    }

    /// Hands both seats back.
    pub fn end(self) -> (TurnSeat<Station>, TurnSeat<HubState>)
        ensures seat { result.0 ≡ self.entry.seat }
        ensures hub_seat { result.1 ≡ self.entry.hub_seat }
        ensures station { IsSeatOf self.entry.station result.0 }
        ensures hub { IsSeatOf self.entry.hub result.1 }
        ensures complete { IsComplete result.0 }
        ensures hub_complete { IsComplete result.1 }
    {
        let StationAccess { seat, hub_seat, .. } = self;
        (seat, hub_seat)
    }

    /// Fetches once. A frame that it gets stands in `heard` then.
    fn fetch<R: Wait>(&mut self, rt: &R, alloc: Global, heard: &mut HubOut) -> Result<Arrival, Room>
        ensures fetched { IfOk result (λ a. fetched_as a heard.new.delivery ≢ fetched.Nothing →
            HasFetchedFrame self.old self.new (fetched_as a heard.new.delivery)) }
        ensures nothing { IfOk result (λ a. fetched_as a heard.new.delivery ≡ fetched.Nothing →
            HasPumped self.old self.new pumped.Nothing) }
        ensures err { IfErr result (λ why. Does self.old self.new [] × IsMet self.new why (AtHub (hub_events.Fetch self.old.host))) }
    {
        self.hub
            .fetch_by(rt, alloc, &mut self.hub_seat, &self.request, heard)
    }

    /// Fetches once, and delivers what it fetched to the station. What the delivery gave stands in `out` then.
    pub fn pump<R: Wait>(
        &mut self,
        rt: &R,
        alloc: Global,
        heard: &mut HubOut,
        out: &mut StationOut,
    ) -> Result<Arrival, Room>
        requires room { room_of false ≤ out.old.room }
        ensures room { out.new.room ≡ out.old.room }
        ensures ticks { self.new.ticks ≡ self.old.ticks }
        ensures ok { IfOk result (λ a. (given : TheAnswer) × (a ≡ Arrival.Frame → out.new.answer ≡ Some given)
            × HasPumped self.old self.new (pumped_as a given)) }
        ensures err { IfErr result (λ why. IsRefused self.old self.new why [] (IsCutPump self.old.station.origin self.old.host)) }
    {
        match self.fetch(rt, alloc, heard) {
            Ok(Arrival::Frame) => match self.enter(rt, alloc, heard.delivery.event(), out) {
                Ok(()) => Ok(Arrival::Frame),
                Err(why) => Err(why),
            },
            Ok(Arrival::Stopped) => Ok(Arrival::Stopped),
            Ok(Arrival::Nothing) => Ok(Arrival::Nothing),
            Err(why) => Err(why),
        }
    }

    /// Enters the event, which is ready at any time, and posts its frames in order. What it gave stands in `out` then.
    pub fn enter<R: Wait>(
        &mut self,
        rt: &R,
        alloc: Global,
        event: &StationEvent,
        out: &mut StationOut,
    ) -> Result<(), Room>
        requires own { is_own self.old.station.origin event.now ≡ true }
        requires no_collect { is_collect event.now ≡ false }
        requires room { most_frames event.now ≤ out.old.room }
        ensures room { out.new.room ≡ out.old.room }
        ensures ticks { self.new.ticks ≡ self.old.ticks }
        ensures ok { OnOk result ((given : TheAnswer) × (out.new.answer ≡ Some given) × HasMade self.old self.new [] event.now given) }
        ensures err { IfErr result (λ why. IsRefused self.old self.new why [] (IsCutEvent self.old.station.origin event.now)) }
    {
        match self.enter_when_ready(rt, alloc, event, out) {
            Ok(Ready::Done) => Ok(()),
            Ok(Ready::NotYet) => unreachable!(),
            Err(why) => Err(why),
        }
    }

    /// The same for an event that may not be ready. Then nothing is entered.
    pub fn enter_when_ready<R: Wait>(
        &mut self,
        rt: &R,
        alloc: Global,
        event: &StationEvent,
        out: &mut StationOut,
    ) -> Result<Ready, Room>
        requires own { is_own self.old.station.origin event.now ≡ true }
        requires room { most_frames event.now ≤ out.old.room }
        ensures room { out.new.room ≡ out.old.room }
        ensures ticks { self.new.ticks ≡ self.old.ticks }
        ensures done { IfOk result (λ r. r ≡ Ready.Done →
            (given : TheAnswer) × (out.new.answer ≡ Some given) × HasMade self.old self.new [] event.now given) }
        ensures not_yet { IfOk result (λ r. r ≡ Ready.NotYet → Does self.old self.new []
            × (is_ready self.old.station.origin self.new.seat.seen event.now ≡ false)) }
        ensures err { IfErr result (λ why. IsRefused self.old self.new why [] (IsCutEvent self.old.station.origin event.now)) }
    {
        match self
            .station
            .step_when_ready(rt, alloc, &mut self.seat, event, out)
        {
            Ok(Ready::Done) => {
                match post_frames(
                    rt,
                    alloc,
                    self.hub,
                    &mut self.hub_seat,
                    out,
                    &mut self.posted,
                ) {
                    Ok(()) => {
                        out.woken().ring(self.hub.bells());
                        Ok(Ready::Done)
                    }
                    Err(why) => Err(why),
                }
            }
            Ok(Ready::NotYet) => Ok(Ready::NotYet),
            Err(why) => Err(why),
        }
    }
}

/// Posts these frames in order.
fn post_frames<R: Wait>(
    rt: &R,
    alloc: Global,
    hub: &Hub,
    seat: &mut TurnSeat<HubState>,
    out: &StationOut,
    posted: &mut HubOut,
) -> Result<(), Room>
    requires seat { IsSeatOf hub.now seat.old }
    requires complete { IsComplete seat.old }
    ensures same { IsSameSeat seat.old seat.new }
    ensures complete { IsComplete seat.new }
    ensures ok { OnOk result (HasPosted seat.old seat.new out.now.frames) }
    ensures err { IfErr result (HasStoppedPosting seat.old seat.new out.now.frames) }
{
    for at in 0..out.frame_count() {
        match hub.post_in_place(rt, alloc, seat, out.dispatch(at), posted) {
            Ok(()) => {}
            Err(why) => return Err(why),
        }
    }
    Ok(())
}
