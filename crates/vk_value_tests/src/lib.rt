//! Tests of the key-value server (`vk_values`): its calls by hand, and a run of it with two clients as threads.
#![tactic(auto)]

#[cfg(test)]
mod calls;
#[cfg(test)]
mod runs;
