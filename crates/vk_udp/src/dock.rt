//! What carries frames between the hub and the link, and whose turn it is to carry.
//!
//! The link, a port at the station and a seat at the hub stand behind one lock. Whoever posts sends at once; the last process to wait
//! receives, and delivers what comes; where no process waits for frames, the job of the link does. What the lock keeps is [`Carry`]:
//! whoever carried, and in whatever turns, what was handed out, delivered, fetched and sent since the beginning is what one thread would
//! have done. `S` names that beginning.

ghost use Rattle.std.specs.Prelude.{◌≡◌, None, Some, is_some, IfOk, IfSome};
ghost use Rattle.vk_udp.specs.Docked.{HasLeftOffSince, IsCargo, duty_of};

use crate::carrier::{Heard, Place, Route, Stop, hear, send_each};
use crate::link::Link;
use std::marker::{Brand, Model, PhantomData};
use std::sync::atomic::AtomicU64;
use std::sync::atomic::Ordering::SeqCst;
use std::sync::{Mutex, Wait};
use std::thread::yield_now;
use std::time::{Clock, Duration, Instant};
use turn_cell::TurnSeat;
use vk_hub::{Bell, Bells, HubState};
use vk_port::{Port, Rest};

/// Names what a dock began with.
pub trait Start {
    ghost use Rattle.std.specs.Prelude.{Option};
    ghost use Rattle.vk_udp.specs.Values.{CarrierDuty};

    ghost duty: { Option CarrierDuty };
}

impl Start for Brand {
    ghost use Rattle.std.specs.Prelude.{None};

    ghost duty = { None };
}

/// What a dock begins with: between what frames are carried, by which port and which seat at the hub, and over which link.
#[derive(Drop)]
pub struct Cargo<'a, L: Link> {
    pub route: Route<'a>,
    pub port: Port<'a>,
    pub hub_seat: TurnSeat<HubState>,
    pub link: L,
}

/// What carries frames, and why it carries no more, if it does not. Contracts see the latter.
#[derive(Drop)]
pub struct Carry<'a, L: Link, S: Start> {
    route: Route<'a>,
    port: Port<'a>,
    hub_seat: TurnSeat<HubState>,
    link: L,
    place: Place,
    stop: Option<Stop>,
    start: PhantomData<S>,
}

impl<'a, L: Link, S: Start> Model for Carry<'a, L, S> {
    ghost use Rattle.std.specs.Prelude.{Option};
    ghost use Rattle.vk_udp.specs.declared.carrier.Stop.{Stop};
    ghost use Rattle.vk_udp.specs.Docked.{HasCarriedSince};

    ghost Value = { Option Stop };

    ghost view = { λ c. c.stop };

    ghost invariant = { λ c. HasCarriedSince L.handed L.sent L.fault_count S.duty c.route.hub.now c.route.host c.route.ports.now c.port
        c.hub_seat c.link c.stop };
}

/// What carried frames, once it carries no more.
#[derive(Drop)]
pub struct LeftOff<'a, L: Link> {
    pub host: u16,
    pub port: Port<'a>,
    pub hub_seat: TurnSeat<HubState>,
    pub link: L,
    pub stop: Stop,
}

impl<'a, L: Link, S: Start> Carry<'a, L, S> {
    /// With which the dock begins.
    fn new(cargo: Cargo<'a, L>) -> Carry<'a, L, S>
        requires cargo { IsCargo cargo.route.host cargo.route.hub.now cargo.port cargo.hub_seat }
        requires start { S.duty ≡ Some (duty_of L.handed L.sent L.fault_count cargo.port cargo.hub_seat cargo.route.ports.now cargo.link) }
    {
        let Cargo {
            route,
            port,
            hub_seat,
            link,
        } = cargo;
        Carry {
            route,
            port,
            hub_seat,
            link,
            place: Place::new(),
            stop: None,
            start: PhantomData,
        }
    }

    fn has_stopped(&self) -> bool
        ensures { result ≡ is_some self.now }
    {
        self.stop.is_some()
    }

    /// Sends all that is posted for the other stations to their ports.
    fn send<R: Wait + Clock>(&mut self, rt: &R) {
        for _ in rt.forever() {
            if self.has_stopped() || !self.send_round(rt) {
                return;
            }
        }
    }

    /// Fetches once for each station, and sends what it got. Whether a frame more waits for one.
    fn send_round<R: Wait + Clock>(&mut self, rt: &R) -> bool
        requires { self.old ≡ None }
    {
        match send_each(
            rt,
            &self.route,
            &mut self.hub_seat,
            &mut self.link,
            &mut self.place,
        ) {
            Ok(sent) => {
                if sent.ended {
                    self.stop = Some(Stop::Ended);
                }
                sent.more
            }
            Err(why) => {
                self.route.hub.stop(rt, &mut self.hub_seat);
                self.stop = Some(Stop::Met { why });
                false
            }
        }
    }

    /// Receives once, and delivers what came. Whether a datagram came.
    fn receive<R: Wait + Clock>(&mut self, rt: &R) -> bool
        requires { self.old ≡ None }
    {
        match hear(
            rt,
            &self.route,
            &mut self.port,
            &mut self.link,
            &mut self.place,
        ) {
            Ok(Heard::Nothing) => false,
            Ok(Heard::Datagram) => true,
            Ok(Heard::Failed) => {
                self.route.hub.stop(rt, &mut self.hub_seat);
                self.stop = Some(Stop::Failed);
                false
            }
            Err(why) => {
                self.route.hub.stop(rt, &mut self.hub_seat);
                self.stop = Some(Stop::Met { why });
                false
            }
        }
    }

    /// Receives once, and sends what that gave. Whether a datagram came.
    fn receive_and_answer<R: Wait + Clock>(&mut self, rt: &R) -> bool {
        if self.has_stopped() || !self.receive(rt) {
            return false;
        }
        if self.port.has_posted() {
            self.send(rt);
        }
        true
    }

    fn latest(&self) -> u64 {
        self.place.latest()
    }

    /// What it is made of, if it carries no more; else it stays.
    fn left_off(self) -> Result<LeftOff<'a, L>, Carry<'a, L, S>>
        ensures { IfOk result (λ l. HasLeftOffSince L.handed L.sent L.fault_count S.duty l.host l.port l.hub_seat l.link l.stop) }
    {
        match self.stop {
            Some(stop) => {
                let Carry {
                    route,
                    port,
                    hub_seat,
                    link,
                    ..
                } = self;
                Ok(LeftOff {
                    host: route.host,
                    port,
                    hub_seat,
                    link,
                    stop,
                })
            }
            None => Err(self),
        }
    }
}

/// Where what carries frames stands. It is nowhere else until the job of the link takes it.
#[derive(Drop)]
pub struct Dock<'a, L: Link, S: Start> {
    carry: Mutex<Option<Carry<'a, L, S>>>,
    /// Whether the clock has posted frames while another carried. Who carries looks here before it receives.
    is_behind: AtomicU64,
    /// How many receives have begun or ended: an odd number while one waits.
    receives: AtomicU64,
    /// 1 once a frame was sent or came, or nothing is carried any more.
    traffic: AtomicU64,
    /// The greatest stamp of a frame that came.
    latest: AtomicU64,
}

impl<'a, L: Link, S: Start> Dock<'a, L, S> {
    /// A dock that begins with this.
    pub fn new(cargo: Cargo<'a, L>) -> Dock<'a, L, S>
        requires cargo { IsCargo cargo.route.host cargo.route.hub.now cargo.port cargo.hub_seat }
        requires start { S.duty ≡ Some (duty_of L.handed L.sent L.fault_count cargo.port cargo.hub_seat cargo.route.ports.now cargo.link) }
    {
        Dock {
            carry: Mutex::new(Some(Carry::new(cargo))),
            is_behind: AtomicU64::new(0),
            receives: AtomicU64::new(0),
            traffic: AtomicU64::new(0),
            latest: AtomicU64::new(0),
        }
    }

    /// Sends what is posted. Whether nothing is carried any more.
    pub fn send<R: Wait + Clock>(&self, rt: &R) -> bool {
        let mut held = self.carry.lock(rt);
        match &mut *held {
            Some(carry) => {
                carry.send(rt);
                carry.has_stopped()
            }
            None => true,
        }
    }

    /// The same, unless another carries now: then that one sends it, before its next receive.
    pub fn try_send<R: Wait + Clock>(&self, rt: &R) {
        self.is_behind.store(1, SeqCst);
        if let Some(mut held) = self.carry.try_lock() {
            self.is_behind.store(0, SeqCst);
            if let Some(carry) = &mut *held {
                carry.send(rt);
            }
        }
    }

    /// How many receives have begun or ended.
    pub fn receives(&self) -> u64 {
        self.receives.load(SeqCst)
    }

    /// The greatest stamp of a frame that came: how old another station was when it sent it.
    pub fn latest(&self) -> u64 {
        self.latest.load(SeqCst)
    }

    /// Whether no receive waits, and none has begun or ended since there were so many.
    pub fn is_unread_since(&self, receives: u64) -> bool {
        receives % 2 == 0 && self.receives() == receives
    }

    /// Receives once, unless something has happened at this bell; what is posted by then is sent.
    pub fn receive<R: Wait + Clock>(&self, rt: &R, bell: &Bell) {
        let mut held = self.carry.lock(rt);
        if let Some(carry) = &mut *held {
            if self.is_behind.swap(0, SeqCst) == 1 {
                carry.send(rt);
            }
            if !bell.is_rung() {
                self.receives.fetch_add(1, SeqCst);
                if carry.receive_and_answer(rt) {
                    self.latest.store(carry.latest(), SeqCst);
                    self.tell_traffic();
                }
                self.receives.fetch_add(1, SeqCst);
            }
        }
    }

    /// A frame is sent or has come, or nothing is carried any more.
    pub fn tell_traffic(&self) {
        if self.traffic.load(SeqCst) == 0 {
            self.traffic.store(1, SeqCst);
            self.traffic.wake_one();
        }
    }

    /// Waits for the first traffic, at most so long. Whether there was some, or the time cannot be told.
    pub fn wait_for_traffic<R: Wait + Clock>(&self, rt: &R, most: Duration) -> bool {
        let Ok(start) = Instant::now(rt) else {
            return true;
        };
        for _ in rt.forever() {
            if self.traffic.load(SeqCst) == 1 {
                return true;
            }
            match start.elapsed(rt) {
                Ok(passed) if passed < most => {
                    self.traffic
                        .park_timeout(rt, 0, most.saturating_sub(passed))
                }
                Ok(_) => return false,
                Err(_) => return true,
            }
        }
        unreachable!()
    }

    /// Takes out what carried, once nothing is carried any more.
    pub fn take<R: Wait>(&self, rt: &R) -> LeftOff<'a, L>
        ensures { HasLeftOffSince L.handed L.sent L.fault_count S.duty result.host result.port result.hub_seat result.link result.stop }
    {
        for _ in rt.forever() {
            if let Some(left_off) = self.try_take(rt) {
                return left_off;
            }
            yield_now();
        }
        unreachable!()
    }

    fn try_take<R: Wait>(&self, rt: &R) -> Option<LeftOff<'a, L>>
        ensures { IfSome result (λ l. HasLeftOffSince L.handed L.sent L.fault_count S.duty l.host l.port l.hub_seat l.link l.stop) }
    {
        let mut held = self.carry.lock(rt);
        match held.take()?.left_off() {
            Ok(left_off) => Some(left_off),
            Err(carry) => {
                *held = Some(carry);
                None
            }
        }
    }
}

/// How a process of a node waits: it sends what its call gave, and the last that waits receives, while the others sleep until their bells
/// ring.
#[derive(Drop)]
pub struct Carrying<'s, 'a, L: Link, S: Start> {
    pub dock: &'s Dock<'a, L, S>,
}

impl<'s, 'a, L: Link, S: Start> Rest for Carrying<'s, 'a, L, S> {
    fn posted<R: Wait + Clock>(&self, rt: &R) {
        self.dock.tell_traffic();
        let _stopped = self.dock.send(rt);
    }

    fn wait<R: Wait + Clock>(&self, rt: &R, bells: &Bells, bell: &Bell) {
        if bells.sleep_unless_last(rt, bell) {
            self.dock.receive(rt, bell);
        }
    }
}
