//! Tests of the crates below the program, on their public calls: what no contract of theirs says, and no file of `vk_rows` and
//! `vk_station_tests` shows. They stand here together, since a crate with tests of its own is proved twice.
#![tactic(auto)]

#[cfg(test)]
mod crews;
#[cfg(test)]
mod events;
#[cfg(test)]
mod files;
#[cfg(test)]
mod lines;
#[cfg(test)]
mod pages;
#[cfg(test)]
mod pipes;
#[cfg(test)]
mod reports;
#[cfg(test)]
mod sources_and_sinks;
#[cfg(test)]
mod tables;
