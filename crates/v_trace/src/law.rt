//! Laws about the texts of steps and traces.

ghost use Rattle.v_trace.specs.Laws.{StepWordsAreSpelledOnce, StepsAreSpelledOnce, TracesReadBack, TracesAreSpelledOnce};

/// Each step has one spelling, which is the one that is written: no other words, and no other line, read as it.
pub fn steps_are_spelled_once()
    ensures words { StepWordsAreSpelledOnce }
    ensures lines { StepsAreSpelledOnce }
{}

/// A trace of steps that have a spelling has one text, which is the one that is written: it reads as the trace, and no
/// other text does, but the same without its last line feed.
pub fn traces_are_spelled_once()
    ensures back { TracesReadBack }
    ensures once { TracesAreSpelledOnce }
{}
