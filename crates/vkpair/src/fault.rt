//! Why the program ends early.

use thiserror::Error;

#[derive(Clone, Copy, Debug, PartialEq, Eq, Error)]
pub enum Fault {
    #[error("out of memory")]
    NoMemory,
    #[error("no such process")]
    NoProcess,
    #[error("a station has had all its events")]
    Spent,
    #[error("a frame is too long")]
    TooLong,
    #[error("the server received nothing")]
    NotReceived,
    #[error("the client was not replied")]
    NotReplied,
    #[error("writing failed")]
    Output,
}
