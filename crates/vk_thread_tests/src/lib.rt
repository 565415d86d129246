//! Tests of the turn cell, of the links between stations, of ports, of runs and of datagrams, by threads: what no contract of theirs says.
#![tactic(auto)]

#[cfg(test)]
mod datagrams;
#[cfg(test)]
mod links;
#[cfg(test)]
mod meetings;
#[cfg(test)]
mod ports;
#[cfg(test)]
mod runs;
#[cfg(test)]
mod turns;
