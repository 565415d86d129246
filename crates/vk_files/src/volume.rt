//! Why a disk cannot be served.

use thiserror::Error;

/// What was met where a disk was to be served.
#[derive(Clone, Copy, Debug, PartialEq, Eq, Error)]
pub enum VolumeFault {
    /// The disk failed, and its count of faults rose.
    #[error("the disk failed")]
    Failed,
    /// The entry at this place of the directory, from 0, is neither free nor lawful, and it is the first such.
    #[error("entry {entry} of the directory is not valid")]
    BadVolume { entry: u32 },
    /// Memory was wanting.
    #[error("out of memory")]
    NoMemory,
}

/// A disk that cannot be served, and why.
#[derive(Debug, Drop, Error)]
#[error("{why}")]
pub struct VolumeRefusal<D> {
    pub disk: D,
    pub why: VolumeFault,
}
