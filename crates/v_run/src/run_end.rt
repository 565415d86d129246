//! How a run ended.

/// How a run ended.
#[derive(Clone, Copy, Debug, PartialEq, Eq)]
pub enum RunEnd {
    /// All programs came to their ends.
    Done,
    /// It was halted where a history could not grow any more.
    Limited,
    /// It was halted where nothing could happen any more: processes wait, and nothing is on its way.
    Waiting,
}
