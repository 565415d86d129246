//! A pipe with back pressure: a server whose clients write bytes into one pipe of 2,048 bytes, read them out in order, and close
//! it. A write waits while its bytes do not fit, a read while the pipe is empty; to wait is to have no reply yet.
//!
//! Begin with `specs/Pipes.antt`: the pipe as a plain value, what an answer brings, and what is settled behind it. What a message asks
//! for is `specs/Requests.antt`, and the law of all answers `specs/Kept.antt`; how the code keeps bytes and requests is private to
//! `bytes.rt` and `queue.rt`.
//!
//! Stands on `vk_base`, on `vk_program` and on `circular_buffer`. No other process, station or history is known here.
#![tactic(auto)]

mod bytes;
mod law;
mod limits;
mod message;
mod news;
mod queue;
mod server;
mod serving;
mod waiting;

pub use law::pipes_keep_their_bytes;
pub use limits::{PIPE_BYTES, WAITING_REQUESTS};
pub use server::PipeServer;
pub use serving::{PipeServing, Verdict};
pub use waiting::{Read, Write};
