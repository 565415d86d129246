//! Tests of the whole program, of what no contract says: faults of the outside, limits, runs in threads, and nodes. Worked rows are no
//! tests in code: they are files, in `vk_rows`; tests of single crates below stand in `vk_part_tests` and `vk_thread_tests`.
#![tactic(auto)]

#[cfg(test)]
mod faults;
#[cfg(test)]
mod limits;
#[cfg(test)]
mod nodes;
#[cfg(test)]
mod running;
#[cfg(test)]
mod runs;
