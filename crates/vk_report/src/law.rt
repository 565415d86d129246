//! A law about reports and traces.

ghost use Rattle.vk_report.specs.Histories.{TracesAreOfTheirSteps};

/// The trace of a history is the text of the trace that has the history's steps, in order.
pub fn traces_are_of_their_steps()
    ensures { TracesAreOfTheirSteps }
{}
