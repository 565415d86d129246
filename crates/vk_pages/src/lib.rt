//! Page programs: a server that keeps pages of 512 bytes, and a client that writes and reads them; and any program of a
//! scenario.
//!
//! Stands on `vk_base`, on the tasks of `vk_event` and on `vk_program`.
#![tactic(auto)]

mod any;
mod client;
mod message;
mod server;
mod serving;
mod store;

pub use any::{AnyProgram, are_any_kinds};
pub use client::PageClient;
pub use server::PageServer;
pub use serving::PageServing;
pub use store::{MemoryPages, PageStore};
