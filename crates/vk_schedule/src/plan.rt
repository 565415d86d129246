//! What becomes of frames on their way.

/// What becomes of frames on the way. Each station that a frame is addressed to has three draws of 0 to 255: a first below
/// `lose` loses the frame, else a third below `hold` holds it back, else a second below `double` brings it twice.
#[derive(Clone, Copy, Debug, PartialEq, Eq)]
pub struct LinkPlan {
    pub lose: u8,
    pub double: u8,
    pub hold: u8,
    /// The generator's first state.
    pub seed: u64,
}
