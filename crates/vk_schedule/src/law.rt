//! Laws about the texts of schedules.

ghost use Rattle.vk_schedule.specs.Laws.{SchedulesReadBack, OnlyLawfulAreRead, SchedulesAreSpelled, FrontsHaveTheirLines};

/// Each text of a lawful schedule is read as it, and what is read is lawful.
pub fn schedules_are_read_again()
    ensures back { SchedulesReadBack }
    ensures lawful { OnlyLawfulAreRead }
{}

/// No other text is read as a schedule than those of it, but the same without their last line feed. In format 1 it has one; in format 2
/// a text may also tell a pool of 16, and all that format 1 tells.
pub fn schedules_are_spelled()
    ensures { SchedulesAreSpelled }
{}

/// In a text that opens, event k, from 0, of its front stands k lines behind the opening.
pub fn front_lines()
    ensures { FrontsHaveTheirLines }
{}
