//! The names that one station has registered, for the calls SetPid, GetPid and Exit and for lookups of other stations: what a
//! station keeps in place of the kernel's list of its host.
//!
//! Stands on `vk_base` alone: each call is an equation in the words of the one-machine kernel (`Kernel.antt`, `Calls.antt`).
//! What the entries keep to is `specs/Kept.antt`.
#![tactic(auto)]

mod names;

pub use names::{Names, NamesFull};
