//! The law of the lines of frames.

ghost use Rattle.vk_frame_text.specs.Laws.{FrameLinesAreTheirFrames};

/// The line of a frame is read as the frame, with the station that it is for and the bytes at its packet's end, which the line does not
/// tell.
pub fn frame_lines_are_their_frames()
    ensures { FrameLinesAreTheirFrames }
{}
