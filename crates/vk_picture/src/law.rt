//! A law of pictures.

ghost use Rattle.vk_picture.specs.Law.{EachHasOneMark};

/// Of each event of a picture there is one mark, of each frame one at the event that emitted it, and one arrow to each event that it came
/// to, or one cross where it came nowhere, and of each message that is handed on there is one; and the text of these marks is what stands
/// in the picture's text behind the lines of events and of columns.
pub fn each_has_one_mark()
    ensures { EachHasOneMark }
{}
