ghost use Rattle.std.specs.Prelude.{◌≡◌, ◌≢◌, ℕ, ◌+◌, ◌≤◌, ◌<◌, ◌⊎◌, ◌++◌, ◌∷◌, [], true, false, Some, None, slice_get, vec_len, IfOk, IfErr, OnOk, OnErr, All, eqb, length};
ghost use Rattle.std.specs.List.{IsDistinct, range_with_len};
ghost use Rattle.std.specs.List.Sorted.{IsPermutation};
ghost use mathlib.Core.List.{IsPrefix};
ghost use Rattle.turn_cell.specs.History.{events_of};
ghost use Rattle.turn_cell.specs.Rooms.{is_full};
ghost use Rattle.turn_cell.specs.Seats.{HasEntered, HasLooked, IsComplete, IsSameSeat, IsSeatOf, fresh, numbers_of};
ghost use Rattle.vk_base.specs.Settings.{stations_of};
ghost use Rattle.vk_hub.specs.Hubs.{fetched_as, fetched_from, fetched_in, has_halt, is_at_limit, is_ready, others, traffic_of};
ghost use Rattle.vk_hub.specs.Posts.{IsFromPost};

use crate::bells::Bells;
use crate::event::{Arrival, Fetched, HubEvent};
use crate::out::HubOut;
use crate::places::{Dispatch, Request};
use crate::state::HubState;
use std::alloc::Global;
use std::marker::Model;
use std::sync::Wait;
use turn_cell::{Ready, Room, TurnCell, TurnSeat};
use vk_base::{Config, FrameBytes, NoMemory};
use vk_schedule::LinkPlan;

/// The links between the stations of a configuration. Threads share it, each with a seat of its own.
#[derive(Drop)]
pub struct Hub {
    cell: TurnCell<HubState>,
    alloc: Global,
    bells: Bells,
}

impl Model for Hub {
    ghost use Rattle.turn_cell.specs.Seats.{Cell};
    ghost use Rattle.vk_hub.specs.Hubs.{HubLog};

    ghost Value = { Cell HubLog };

    ghost view = { λ h. h.cell };
}

impl Hub {
    /// A hub of these stations, at which so many programs are to finish, and its seats, whose numbers run from 0.
    pub fn new(
        alloc: Global,
        config: &Config,
        plan: LinkPlan,
        programs: u32,
        seats: u32,
    ) -> Result<(Hub, Vec<TurnSeat<HubState>>), NoMemory>
        requires { 1 ≤ seats }
        ensures plan { IfOk result (λ made. made.0.origin.plan ≡ plan) }
        ensures stations { IfOk result (λ made. made.0.origin.stations ≡ stations_of config.now.specs) }
        ensures programs { IfOk result (λ made. made.0.origin.programs ≡ programs) }
        ensures seats { IfOk result (λ made. made.0.seats ≡ seats) }
        ensures count { IfOk result (λ made. vec_len made.1 ≡ seats) }
        ensures each { IfOk result (λ made. (k : ℕ) → k < seats → slice_get made.1.items k ≡ Some (fresh made.0 k)) }
    {
        let state = HubState::new(alloc, config, plan, programs)?;
        let bells = Bells::new(alloc, config)?;
        match TurnCell::new(alloc, state, seats) {
            Ok((cell, seats)) => Ok((Hub { cell, alloc, bells }, seats)),
            Err(_) => Err(NoMemory),
        }
    }

    /// Where its threads wait.
    pub fn bells(&self) -> &Bells {
        &self.bells
    }

    /// Posts the frame to the stations that it is addressed to. A frame without a lawful header goes nowhere.
    pub fn post<R: Wait>(
        &self,
        rt: &R,
        alloc: Global,
        seat: &mut TurnSeat<HubState>,
        frame: &FrameBytes,
    ) -> Result<(), Room>
        requires { IsSeatOf self.now seat.old }
        ensures same { IsSameSeat seat.old seat.new }
        ensures complete { IsComplete seat.new }
        ensures turns { seat.new.turns ≡ seat.old.turns + 1 }
        ensures ok { OnOk result (HasEntered (λ before. is_at_limit before (HubEvent.Post frame.now) ≡ false)
            seat.old seat.new (HubEvent.Post frame.now)) }
        ensures err { OnErr result (HasLooked seat.old seat.new) }
        ensures refused { IfErr result (λ why. is_at_limit seat.new.seen (HubEvent.Post frame.now) ≡ is_full why) }
    {
        let mut dispatch = Dispatch::new();
        dispatch.fill(frame.as_slice());
        self.post_in_place(rt, alloc, seat, &dispatch, &mut HubOut::new())
    }

    /// The same, where the frame stands in an event already, and the caller keeps the place for what events give.
    pub fn post_in_place<R: Wait>(
        &self,
        rt: &R,
        alloc: Global,
        seat: &mut TurnSeat<HubState>,
        dispatch: &Dispatch,
        out: &mut HubOut,
    ) -> Result<(), Room>
        requires { IsSeatOf self.now seat.old }
        ensures same { IsSameSeat seat.old seat.new }
        ensures complete { IsComplete seat.new }
        ensures turns { seat.new.turns ≡ seat.old.turns + 1 }
        ensures ok { OnOk result (HasEntered (λ before. is_at_limit before (HubEvent.Post dispatch.now) ≡ false)
            seat.old seat.new (HubEvent.Post dispatch.now)) }
        ensures given { OnOk result (fetched_in out.new ≡ None) }
        ensures err { OnErr result (HasLooked seat.old seat.new × (out.new ≡ out.old)) }
        ensures refused { IfErr result (λ why. is_at_limit seat.new.seen (HubEvent.Post dispatch.now) ≡ is_full why) }
    {
        match self.cell.step(rt, alloc, seat, dispatch.event(), out) {
            Ok(()) => {
                self.bells.call(out.reached);
                Ok(())
            }
            Err(why) => Err(why),
        }
    }

    /// The oldest frame that waits for the station, or that the hub has ended. Both are entries, for which there was room. Where neither is
    /// due it is `Nothing`, and nothing is entered. A frame that it gives was posted for the station.
    pub fn fetch<R: Wait>(
        &self,
        rt: &R,
        alloc: Global,
        seat: &mut TurnSeat<HubState>,
        host: u16,
    ) -> Result<Fetched, Room>
        requires { IsSeatOf self.now seat.old }
        ensures same { IsSameSeat seat.old seat.new }
        ensures complete { IsComplete seat.new }
        ensures turns { seat.new.turns ≡ seat.old.turns + 1 }
        ensures nothing { IfOk result (λ f. f ≡ Fetched.Nothing → HasLooked seat.old seat.new
            × (fetched_from self.now.origin.programs (traffic_of self.now.origin seat.new.seen) host ≡ Fetched.Nothing)) }
        ensures fetched { IfOk result (λ f. f ≢ Fetched.Nothing → HasEntered (λ before.
            (is_at_limit before (HubEvent.Fetch host) ≡ false)
            × (f ≡ fetched_from self.now.origin.programs (traffic_of self.now.origin before) host))
            seat.old seat.new (HubEvent.Fetch host)) }
        ensures posted { IfOk result (λ f. IsFromPost f host seat.new.seen) }
        ensures err { OnErr result (HasLooked seat.old seat.new
            × (is_ready self.now.origin.programs (traffic_of self.now.origin seat.new.seen) (HubEvent.Fetch host) ≡ true)) }
        ensures refused { IfErr result (λ why. is_at_limit seat.new.seen (HubEvent.Fetch host) ≡ is_full why) }
    {
        let mut out = HubOut::new();
        match self.fetch_in_place(rt, alloc, seat, host, &mut out) {
            Ok(arrival) => Ok(out.fetched(arrival)),
            Err(why) => Err(why),
        }
    }

    /// The same, where the caller keeps the place for what events give: a frame that it gives stands there.
    pub fn fetch_in_place<R: Wait>(
        &self,
        rt: &R,
        alloc: Global,
        seat: &mut TurnSeat<HubState>,
        host: u16,
        out: &mut HubOut,
    ) -> Result<Arrival, Room>
        requires { IsSeatOf self.now seat.old }
        ensures same { IsSameSeat seat.old seat.new }
        ensures complete { IsComplete seat.new }
        ensures turns { seat.new.turns ≡ seat.old.turns + 1 }
        ensures nothing { IfOk result (λ a. fetched_as a out.new.delivery ≡ Fetched.Nothing → HasLooked seat.old seat.new
            × (fetched_from self.now.origin.programs (traffic_of self.now.origin seat.new.seen) host ≡ Fetched.Nothing)) }
        ensures fetched { IfOk result (λ a. fetched_as a out.new.delivery ≢ Fetched.Nothing → HasEntered (λ before.
            (is_at_limit before (HubEvent.Fetch host) ≡ false)
            × (fetched_as a out.new.delivery ≡ fetched_from self.now.origin.programs (traffic_of self.now.origin before) host))
            seat.old seat.new (HubEvent.Fetch host)) }
        ensures posted { IfOk result (λ a. IsFromPost (fetched_as a out.new.delivery) host seat.new.seen) }
        ensures err { OnErr result (HasLooked seat.old seat.new × (out.new ≡ out.old)
            × (is_ready self.now.origin.programs (traffic_of self.now.origin seat.new.seen) (HubEvent.Fetch host) ≡ true)) }
        ensures refused { IfErr result (λ why. is_at_limit seat.new.seen (HubEvent.Fetch host) ≡ is_full why) }
    {
        self.fetch_by(rt, alloc, seat, &Request::new(host), out)
    }

    /// The same by a request that the caller keeps.
    pub fn fetch_by<R: Wait>(
        &self,
        rt: &R,
        alloc: Global,
        seat: &mut TurnSeat<HubState>,
        request: &Request,
        out: &mut HubOut,
    ) -> Result<Arrival, Room>
        requires { IsSeatOf self.now seat.old }
        ensures same { IsSameSeat seat.old seat.new }
        ensures complete { IsComplete seat.new }
        ensures turns { seat.new.turns ≡ seat.old.turns + 1 }
        ensures nothing { IfOk result (λ a. fetched_as a out.new.delivery ≡ Fetched.Nothing → HasLooked seat.old seat.new
            × (fetched_from self.now.origin.programs (traffic_of self.now.origin seat.new.seen) request.now ≡ Fetched.Nothing)) }
        ensures fetched { IfOk result (λ a. fetched_as a out.new.delivery ≢ Fetched.Nothing → HasEntered (λ before.
            (is_at_limit before (HubEvent.Fetch request.now) ≡ false)
            × (fetched_as a out.new.delivery ≡ fetched_from self.now.origin.programs (traffic_of self.now.origin before) request.now))
            seat.old seat.new (HubEvent.Fetch request.now)) }
        ensures posted { IfOk result (λ a. IsFromPost (fetched_as a out.new.delivery) request.now seat.new.seen) }
        ensures err { OnErr result (HasLooked seat.old seat.new × (out.new ≡ out.old)
            × (is_ready self.now.origin.programs (traffic_of self.now.origin seat.new.seen) (HubEvent.Fetch request.now) ≡ true)) }
        ensures refused { IfErr result (λ why. is_at_limit seat.new.seen (HubEvent.Fetch request.now) ≡ is_full why) }
    {
        match self
            .cell
            .step_when_ready(rt, alloc, seat, request.event(), out)
        {
            Ok(Ready::Done) => match out.arrival {
                Some(arrival) => Ok(arrival),
                None => unreachable!(),
            },
            Ok(Ready::NotYet) => Ok(Arrival::Nothing),
            Err(why) => Err(why),
        }
    }

    /// Counts one program more that has finished.
    pub fn finished<R: Wait>(
        &self,
        rt: &R,
        alloc: Global,
        seat: &mut TurnSeat<HubState>,
    ) -> Result<(), Room>
        requires { IsSeatOf self.now seat.old }
        ensures same { IsSameSeat seat.old seat.new }
        ensures complete { IsComplete seat.new }
        ensures turns { seat.new.turns ≡ seat.old.turns + 1 }
        ensures ok { OnOk result (HasEntered (λ before. is_at_limit before HubEvent.Finished ≡ false) seat.old seat.new HubEvent.Finished) }
        ensures err { OnErr result (HasLooked seat.old seat.new) }
        ensures refused { IfErr result (λ why. is_at_limit seat.new.seen HubEvent.Finished ≡ is_full why) }
    {
        let mut out = HubOut::new();
        match self
            .cell
            .step(rt, alloc, seat, &HubEvent::Finished, &mut out)
        {
            Ok(()) => {
                if out.ended {
                    self.bells.call_all();
                }
                Ok(())
            }
            Err(why) => Err(why),
        }
    }

    /// Halts the hub, unless it is halted already: then it enters nothing. It takes no memory, and is never refused.
    pub fn stop<R: Wait>(&self, rt: &R, seat: &mut TurnSeat<HubState>)
        requires { IsSeatOf self.now seat.old }
        ensures same { IsSameSeat seat.old seat.new }
        ensures complete { IsComplete seat.new }
        ensures turns { seat.new.turns ≡ seat.old.turns + 1 }
        ensures later { IsPrefix seat.old.seen seat.new.seen }
        ensures halted { has_halt seat.new.seen ≡ true }
        ensures mine { (seat.new.mine ≡ seat.old.mine) ⊎ (seat.new.mine ≡ seat.old.mine ++ HubEvent.Halt ∷ []) }
        ensures once { HasEntered (λ before. has_halt before ≡ false) seat.old seat.new HubEvent.Halt ⊎ HasLooked seat.old seat.new }
    {
        let mut out = HubOut::new();
        match self
            .cell
            .step_when_ready(rt, self.alloc, seat, &HubEvent::Halt, &mut out)
        {
            Ok(_) => self.bells.call_all(),
            Err(_) => unreachable!(),
        }
    }

    /// The state, once all seats have come back: their numbers are those below the count of seats, each once. Its history begins
    /// with what each seat has seen, and has just the events of these seats, those of each once and in order: at most one halt, and
    /// beside it at most 200,000. It takes no memory.
    pub fn close(self, seats: Vec<TurnSeat<HubState>>) -> HubState
        requires seats { All (λ s. IsSeatOf self s) seats.items }
        requires all { vec_len seats ≡ self.seats }
        ensures plan { result.plan ≡ self.origin.plan }
        ensures stations { result.stations ≡ self.origin.stations }
        ensures programs { result.programs ≡ self.origin.programs }
        ensures seen { All (λ s. IsPrefix s.seen result.history) seats.items }
        ensures mine { All (λ s. events_of s.number result.history ≡ s.mine) seats.items }
        ensures others { (k : ℕ) → self.seats ≤ k → events_of k result.history ≡ [] }
        ensures below { All (λ s. s.number < self.seats) seats.items }
        ensures different { IsDistinct eqb (numbers_of seats.items) }
        ensures numbers { IsPermutation (numbers_of seats.items) (range_with_len 0 self.seats) }
        ensures one_halt { length result.history ≤ others result.history + 1 }
        ensures few { others result.history ≤ 200000 }
    {
        let Hub { cell, .. } = self;
        let state = cell.close(seats);
        let _few = state.entry_count();
        state
    }
}
