//! Laws of the texts of a page.

ghost use Rattle.vk_draw.specs.Frames.{EachFrameHasOneLine, ScheduleAndFramesArePlain};

/// The text of frames has its lines in the order of the report's lines of frames, one for each, and both begin with the same place.
pub fn each_frame_has_one_line()
    ensures { EachFrameHasOneLine }
{}

/// Of a text that is read as a schedule all bytes are plain, and so are those of the text of the frames of its history.
pub fn schedule_and_frames_are_plain()
    ensures { ScheduleAndFramesArePlain }
{}
