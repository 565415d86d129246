//! Numbers that look like chance and are a function of a seed: a linear generator of 64 bits, of which a draw gives the upper 31.
//!
//! Stands on nothing. The rule is `specs/Numbers.antt`; what the numbers decide, this crate does not ask.
#![tactic(auto)]

mod generator;

pub use generator::Generator;
