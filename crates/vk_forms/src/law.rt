//! Laws of marks, and of the grammar that the forms are.

ghost use Rattle.vk_forms.specs.Laws.{MarksAreExact, StepsFollowForms, StopsAreFirst};

/// Each word before a mark may stand where a form has it, and no form goes on at the mark.
pub fn marks_are_exact()
    ensures stops { StopsAreFirst }
    ensures marks { MarksAreExact }
{}

/// A line that is read as a step follows a form of traces whole.
pub fn steps_follow_forms()
    ensures { StepsFollowForms }
{}
