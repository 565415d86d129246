//! Group Send: one message goes to all members of a group, the first reply ends it, and later replies are fetched one by
//! one. A coordinator does it, with one helper for each member, over the kernel calls that every process has.
//!
//! Begin with `specs/Groups.antt`, the coordinator, and `specs/Helpers.antt`; that no reply is handed over twice and no code is told
//! untruly is `specs/Laws.antt`. Requests, replies and their bytes are `specs/Messages.antt`.
//!
//! Stands on `vk_base`, on `vk_event` for which pairs make a group, and on `vk_program`.
#![tactic(auto)]

mod code;
mod coordinator;
mod group;
mod helper;
mod helping;
mod laws;
mod member;
mod members;
mod message;
mod notes;
mod request;
mod stage;

pub use coordinator::Coordinator;
pub use helper::Helper;
pub use laws::{codes_are_true, deeds_are_done, jobs_are_given_once, replies_are_handed_over_once};
