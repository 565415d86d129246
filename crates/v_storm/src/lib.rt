//! That storms keep to the rules of schedules: laws over the definitions of `vk_drive`, and no code.
//!
//! Begin with `specs/Law.antt`, the laws, and `proofs/Course.antt`: what holds of a storm so far, and that one event more keeps it.
//! `Views.antt` is what a station's view has in a storm, which no step, call or packet of it changes (`Steps.antt`, `Calls.antt`,
//! `Brought.antt`), and what is sent then (`Packets.antt`); `Entries.antt` is one entry of a station, `Histories.antt` those of all.
//! `Doing.antt` and `Called.antt` are one process at its station, `Serving.antt` the page server's program, `Programs.antt` all four, and
//! `Standing.antt` that each program and its station agree on what is to be collected.
//!
//! Stands on what `vk_rules` says of entries and `v_lawful` of their sizes and headers.
#![tactic(auto)]

ghost use Rattle.v_storm.specs.Law.{FramesAreForStations, FrontsAreLawful, ProgramsGoOn, StormsAreLawful};

/// The events of each storm of a number up to 100,000 are a lawful schedule of its configuration, as are its first ones: so
/// `vk_schedule::write_schedule` takes them, and what it writes is read again.
pub fn storms_are_lawful()
    ensures whole { StormsAreLawful }
    ensures fronts { FrontsAreLawful }
{}

/// Behind no events of a storm is the program of one of its processes at its end: each has a next call, which it makes, or collects the
/// answer to its last one.
pub fn programs_go_on()
    ensures { ProgramsGoOn }
{}

/// Each frame that is emitted in a storm is from one of its stations and for one, so that its delivery is what is chosen.
pub fn frames_are_for_stations()
    ensures { FramesAreForStations }
{}
