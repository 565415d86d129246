//! The law of frames.

ghost use Rattle.vk_frame.specs.Law.{FramesAreSpelledOnce};

/// What is sealed opens as its header and its packet, and no other bytes do.
pub fn frames_are_spelled_once()
    ensures { FramesAreSpelledOnce }
{}
