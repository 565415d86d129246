//! A caller's access to a station and to the links.

ghost use Rattle.std.specs.Prelude.{◌≡◌, [], true, false, if◌then◌else◌, IfOk, IfErr, OnOk, OnErr};
ghost use Rattle.turn_cell.specs.Seats.{IsComplete, IsSeatOf};
ghost use Rattle.vk_port.specs.Ports.{Does, HasPumped, HasMade, HasWaited, IsCutEvent, IsCutPump, IsRefused, IsWaitRefused, answer_as, pumped_as};
ghost use Rattle.vk_types.specs.Types.{EventAnswer as TheAnswer};
ghost use Rattle.vk_port.specs.Stations.{is_own, is_process_of};
ghost use Rattle.vk_port.specs.Turns.{is_collect};

use crate::access::StationAccess;
use crate::rest::{Rest, Sleep};
use crate::station::Station;
use crate::station_out::StationOut;
use std::alloc::Global;
use std::fmt;
use std::marker::Model;
use std::sync::Wait;
use std::time::Clock;
use turn_cell::{Ready, Room, TurnCell, TurnSeat};
use vk_base::limits::{ROUND_PACKETS, TICK_PACKETS};
use vk_base::{Answer, Call, CallOutcome, EventAnswer, FrameBytes, Pid, StationEvent};
use vk_hub::{Arrival, Delivery, Hub, HubOut, HubState};

/// There was no memory for a port: both seats come back.
#[derive(Drop)]
pub struct PortNoMemory {
    pub seat: TurnSeat<Station>,
    pub hub_seat: TurnSeat<HubState>,
}

impl fmt::Display for PortNoMemory {
    fn fmt<W: fmt::Write>(&self, f: &mut fmt::Formatter<W>) -> fmt::Result {
        f.write_str("out of memory")
    }
}

/// What a wait for an answer gives.
#[derive(Drop)]
pub enum Collected {
    Answered { answer: Answer },
    /// The hub has ended.
    Stopped,
}

/// What a pump does.
#[derive(Drop)]
pub enum Pumped {
    /// It delivered a frame to the station, which answered this.
    Delivered { answer: EventAnswer },
    /// It asked the hub once, and no frame waited.
    Nothing,
    /// The hub has ended.
    Stopped,
}

/// One caller's access to a station and to the links, by a seat at each, and the places for what events give there. Contracts see the
/// station's number, its cell and the hub, the seats, and whether it may tick.
#[derive(Drop)]
pub struct Port<'a> {
    access: StationAccess<'a>,
    out: StationOut,
    heard: HubOut,
}

impl<'a> Model for Port<'a> {
    ghost use Rattle.std.specs.Prelude.{◌≤◌};
    ghost use Rattle.vk_port.specs.Ports.{PortValue};
    ghost use Rattle.vk_port.specs.Turns.{room_of};

    ghost Value = { PortValue };

    ghost view = { λ p. p.access };

    ghost invariant = { λ p. room_of p.access.ticks ≤ p.out.room };
}

impl<'a> Port<'a> {
    /// A port with these two seats. It makes its place for the frames of an event: of a tick where it may tick.
    ///
    /// # Errors
    ///
    /// [`PortNoMemory`] where memory is wanting: it hands both seats back.
    pub fn new(
        alloc: Global,
        host: u16,
        station: &'a TurnCell<Station>,
        seat: TurnSeat<Station>,
        hub: &'a Hub,
        hub_seat: TurnSeat<HubState>,
        ticks: bool,
    ) -> Result<Port<'a>, PortNoMemory>
        requires host { station.now.origin.host ≡ host }
        requires seat { IsSeatOf station.now seat }
        requires hub_seat { IsSeatOf hub.now hub_seat }
        requires complete { IsComplete seat }
        requires hub_complete { IsComplete hub_seat }
        ensures ok { IfOk result (λ p. p ≡ record {
          host = host;
          station = station.now;
          hub = hub.now;
          seat = seat;
          hub_seat = hub_seat;
          ticks = ticks;
        }) }
        ensures seat { IfErr result (λ e. e.seat ≡ seat) }
        ensures hub_seat { IfErr result (λ e. e.hub_seat ≡ hub_seat) }
    {
        match StationOut::new(alloc, if ticks { TICK_PACKETS } else { ROUND_PACKETS }) {
            Ok(out) => {
                let access = StationAccess::new(host, station, seat, hub, hub_seat, ticks);
                let heard = HubOut::new();
                Ok(Port { access, out, heard })
            }
            Err(_) => Err(PortNoMemory { seat, hub_seat }),
        }
    }

    /// The event that the process makes the call; then its frames are posted in order.
    ///
    /// # Errors
    ///
    /// A [`Room`] where the station or the hub has no room. Where a post was refused, the event stays, and its further frames are lost.
    pub fn call<R: Wait>(
        &mut self,
        rt: &R,
        alloc: Global,
        pid: Pid,
        call: &Call,
    ) -> Result<CallOutcome, Room>
        requires { is_process_of self.old.station.origin pid ≡ true }
        ensures ok { IfOk result (λ o. HasMade self.old self.new [] (StationEvent.Call pid call.now) (answer_as o)) }
        ensures err { IfErr result (λ why. IsRefused self.old self.new why []
            (IsCutEvent self.old.station.origin (StationEvent.Call pid call.now))) }
    {
        let mut answer = Answer::Ok;
        match self.call_into(rt, alloc, pid, call.copy(), &mut answer) {
            Ok(true) => Ok(CallOutcome::Now { answer }),
            Ok(false) => Ok(CallOutcome::Begun),
            Err(why) => Err(why),
        }
    }

    /// The same by a call that is not copied. Where it is answered at once, the answer is put there. Whether it is.
    ///
    /// # Errors
    ///
    /// As [`Port::call`].
    pub fn call_into<R: Wait>(
        &mut self,
        rt: &R,
        alloc: Global,
        pid: Pid,
        call: Call,
        answer: &mut Answer,
    ) -> Result<bool, Room>
        requires { is_process_of self.old.station.origin pid ≡ true }
        ensures ok { IfOk result (λ given. HasMade self.old self.new [] (StationEvent.Call pid call)
            (if given then EventAnswer.Answered answer.new else EventAnswer.Begun)) }
        ensures kept { IfOk result (λ given. given ≡ false → answer.new ≡ answer.old) }
        ensures err { IfErr result (λ why. IsRefused self.old self.new why []
            (IsCutEvent self.old.station.origin (StationEvent.Call pid call))) }
        ensures kept_err { OnErr result (answer.new ≡ answer.old) }
    {
        let event = StationEvent::Call { pid, call };
        match self.access.enter(rt, alloc, &event, &mut self.out) {
            Ok(()) => Ok(self.out.outcome_into(answer)),
            Err(why) => Err(why),
        }
    }

    /// Waits until the process is done, and collects its answer. Between two tries it pumps once; where a pump hears that the hub has
    /// ended, it waits no longer. Where nothing was there it sleeps until its bell rings: it is rung for what ends the process's wait, and
    /// called for a frame for which it is to pump.
    ///
    /// # Errors
    ///
    /// As [`Port::call`] and [`Port::pump`].
    pub fn collect_waiting<R: Wait + Clock>(
        &mut self,
        rt: &R,
        alloc: Global,
        pid: Pid,
    ) -> Result<Collected, Room>
        requires { is_process_of self.old.station.origin pid ≡ true }
        ensures ok { IfOk result (HasWaited self.old self.new pid) }
        ensures err { IfErr result (IsWaitRefused self.old self.new pid) }
    {
        let mut answer = Answer::Ok;
        match self.collect_into(rt, alloc, pid, &mut answer, &Sleep) {
            Ok(true) => Ok(Collected::Answered { answer }),
            Ok(false) => Ok(Collected::Stopped),
            Err(why) => Err(why),
        }
    }

    /// The same, where the answer is put there, and the process waits as `rest` does. Whether there is an answer: else the hub has ended.
    ///
    /// # Errors
    ///
    /// As [`Port::collect_waiting`].
    pub fn collect_into<R: Wait + Clock, W: Rest>(
        &mut self,
        rt: &R,
        alloc: Global,
        pid: Pid,
        answer: &mut Answer,
        rest: &W,
    ) -> Result<bool, Room>
        requires { is_process_of self.old.station.origin pid ≡ true }
        ensures ok { IfOk result (λ came. HasWaited self.old self.new pid
            (if came then Collected.Answered answer.new else Collected.Stopped)) }
        ensures kept { IfOk result (λ came. came ≡ false → answer.new ≡ answer.old) }
        ensures err { IfErr result (IsWaitRefused self.old self.new pid) }
        ensures kept_err { OnErr result (answer.new ≡ answer.old) }
    {
        let event = StationEvent::Collect { pid };
        let bells = self.access.bells();
        let bell = bells.of_process(pid);
        let mut are_left = false;
        for _ in rt.forever() {
            are_left = bell.look() || are_left;
            match self.try_collect(rt, alloc, &event, answer) {
                Ok(true) => {
                    bells.leave(pid, bell, are_left);
                    return Ok(true);
                }
                Ok(false) => {}
                Err(why) => return Err(why),
            }
            match self.pump_once(rt, alloc) {
                Ok(Arrival::Frame) => are_left = self.heard.more,
                Ok(Arrival::Nothing) => {
                    are_left = false;
                    rest.wait(rt, bells, bell);
                }
                Ok(Arrival::Stopped) => return Ok(false),
                Err(why) => return Err(why),
            }
        }
        unreachable!()
    }

    /// Fetches once, and delivers what it fetched to the station.
    ///
    /// # Errors
    ///
    /// A [`Room`] where the hub or the station has no room. A frame that the station refuses is lost.
    pub fn pump<R: Wait>(&mut self, rt: &R, alloc: Global) -> Result<Pumped, Room>
        ensures ok { IfOk result (HasPumped self.old self.new) }
        ensures err { IfErr result (λ why. IsRefused self.old self.new why [] (IsCutPump self.old.station.origin self.old.host)) }
    {
        match self.access.pump(rt, alloc, &mut self.heard, &mut self.out) {
            Ok(Arrival::Frame) => Ok(Pumped::Delivered {
                answer: self.out.given(),
            }),
            Ok(Arrival::Stopped) => Ok(Pumped::Stopped),
            Ok(Arrival::Nothing) => Ok(Pumped::Nothing),
            Err(why) => Err(why),
        }
    }

    /// The same, without the answer to what it delivered.
    ///
    /// # Errors
    ///
    /// As [`Port::pump`].
    pub fn pump_once<R: Wait>(&mut self, rt: &R, alloc: Global) -> Result<Arrival, Room>
        ensures ok { IfOk result (λ a. (given : TheAnswer) × HasPumped self.old self.new (pumped_as a given)) }
        ensures err { IfErr result (λ why. IsRefused self.old self.new why [] (IsCutPump self.old.station.origin self.old.host)) }
    {
        self.access.pump(rt, alloc, &mut self.heard, &mut self.out)
    }

    /// The event that the station's clock ticks; then its frames are posted in order.
    ///
    /// # Errors
    ///
    /// As [`Port::call`].
    pub fn tick<R: Wait>(&mut self, rt: &R, alloc: Global) -> Result<u64, Room>
        requires { self.old.ticks ≡ true }
        ensures ok { IfOk result (λ now. HasMade self.old self.new [] StationEvent.Tick (EventAnswer.Ticked now)) }
        ensures err { IfErr result (λ why. IsRefused self.old self.new why [] (IsCutEvent self.old.station.origin StationEvent.Tick)) }
    {
        match self
            .access
            .enter(rt, alloc, &StationEvent::Tick, &mut self.out)
        {
            Ok(()) => Ok(self.out.ticked()),
            Err(why) => Err(why),
        }
    }

    /// The event that this frame comes, from wherever it was; then its frames are posted in order.
    ///
    /// # Errors
    ///
    /// As [`Port::call`].
    pub fn deliver<R: Wait>(
        &mut self,
        rt: &R,
        alloc: Global,
        frame: &FrameBytes,
    ) -> Result<EventAnswer, Room>
        ensures ok { IfOk result (HasMade self.old self.new [] (StationEvent.Deliver frame.now)) }
        ensures err { IfErr result (λ why. IsRefused self.old self.new why []
            (IsCutEvent self.old.station.origin (StationEvent.Deliver frame.now))) }
    {
        let mut delivery = Delivery::new();
        delivery.fill(frame.as_slice());
        match self
            .access
            .enter(rt, alloc, delivery.event(), &mut self.out)
        {
            Ok(()) => Ok(self.out.given()),
            Err(why) => Err(why),
        }
    }

    /// The same, where the frame stands in an event already, and without the answer.
    ///
    /// # Errors
    ///
    /// As [`Port::call`].
    pub fn deliver_in_place<R: Wait>(
        &mut self,
        rt: &R,
        alloc: Global,
        delivery: &Delivery,
    ) -> Result<(), Room>
        ensures ok { OnOk result ((given : TheAnswer) × HasMade self.old self.new [] (StationEvent.Deliver delivery.now) given) }
        ensures err { IfErr result (λ why. IsRefused self.old self.new why []
            (IsCutEvent self.old.station.origin (StationEvent.Deliver delivery.now))) }
    {
        self.access
            .enter(rt, alloc, delivery.event(), &mut self.out)
    }

    /// Hands both seats back.
    pub fn end(self) -> (TurnSeat<Station>, TurnSeat<HubState>)
        ensures seat { result.0 ≡ self.entry.seat }
        ensures hub_seat { result.1 ≡ self.entry.hub_seat }
        ensures station { IsSeatOf self.entry.station result.0 }
        ensures hub { IsSeatOf self.entry.hub result.1 }
        ensures complete { IsComplete result.0 }
        ensures hub_complete { IsComplete result.1 }
    {
        self.access.end()
    }

    /// Whether the last event that it entered gave frames.
    pub fn has_posted(&self) -> bool {
        self.out.frame_count() > 0
    }

    /// Collects what the process is answered, if it is done, and puts it there: `event` is that collect. Whether it is.
    fn try_collect<R: Wait>(
        &mut self,
        rt: &R,
        alloc: Global,
        event: &StationEvent,
        answer: &mut Answer,
    ) -> Result<bool, Room>
        requires own { is_own self.old.station.origin event.now ≡ true }
        requires collect { is_collect event.now ≡ true }
        ensures ok { IfOk result (λ done. done ≡ true → HasMade self.old self.new [] event.now (EventAnswer.Answered answer.new)) }
        ensures not_yet { IfOk result (λ done. done ≡ false → Does self.old self.new [] × (answer.new ≡ answer.old)) }
        ensures err { IfErr result (λ why. IsRefused self.old self.new why [] (IsCutEvent self.old.station.origin event.now)
            × (answer.new ≡ answer.old)) }
    {
        match self
            .access
            .enter_when_ready(rt, alloc, event, &mut self.out)
        {
            Ok(Ready::Done) => {
                self.out.collected_into(answer);
                Ok(true)
            }
            Ok(Ready::NotYet) => Ok(false),
            Err(why) => Err(why),
        }
    }
}
