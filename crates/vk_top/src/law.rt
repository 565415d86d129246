//! Laws of what is said of traces, and of the limits.

ghost use Rattle.vk_top.specs.Check.{VerdictsAreExact};
ghost use Rattle.vk_top.specs.Limits.{LimitsAreTheirNumbers};

/// Of each trace exactly one verdict holds, and what is told and written rests on that: its steps are a run, and note at
/// most 268,435,456 bytes for remote moves; or one of them is the first that is not allowed; or, before any such, they
/// note more.
pub fn verdicts_are_exact()
    ensures { VerdictsAreExact }
{}

/// Each limit that the documents name is the number that they have for it.
pub fn limits_are_their_numbers()
    ensures { LimitsAreTheirNumbers }
{}
