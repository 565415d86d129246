//! The laws of the links.
ghost use Rattle.vk_hub.specs.Counting.{FetchesArePosts};
ghost use Rattle.vk_hub.specs.Stops.{StoppedStays};

/// What a station fetches was posted for it before, each post at most twice, and at most once where the link plan doubles nothing.
pub fn fetches_are_posts()
    ensures { FetchesArePosts }
{}

/// A hub that is halted, or at which all programs have finished, stays so, whatever is entered behind.
pub fn stopped_stays_stopped()
    ensures { StoppedStays }
{}
