//! The links between stations, which threads share. A hub takes frames by posts, and gives each station those that are addressed to
//! it by fetches; a scenario's link plan says by a generator's numbers which frames are lost, doubled or held back on the way. It
//! counts the programs that have finished, and ends once all have, or by a halt.
//!
//! Stands on `turn_cell`: the state is the replay of its history, `specs/Hubs.antt`, and each call is one turn at it. Of frames it
//! knows the header, by `vk_frame`; numbers are drawn by `vk_generator`. What a link plan does is `specs/Links.antt`. The rings are
//! private: `src/inbox.rt` is what waits for one station, `src/links.rt` all that is under way, `src/state.rt` that beside its history,
//! which has no bytes. That what is fetched was posted is [`fetches_are_posts`], that a hub ends for good [`stopped_stays_stopped`]. What
//! a station does with frames it does not ask. Threads that find nothing to do wait at its [`Bells`].
#![tactic(auto)]

mod bell;
mod bells;
mod event;
mod hub;
mod inbox;
mod law;
mod links;
mod out;
mod places;
mod state;

pub use bell::Bell;
pub use bells::Bells;
pub use event::{Arrival, Fetched, HubEvent};
pub use hub::Hub;
pub use law::{fetches_are_posts, stopped_stays_stopped};
pub use out::HubOut;
pub use places::{Delivery, Dispatch, Request};
pub use state::HubState;
