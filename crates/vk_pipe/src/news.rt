//! What an answer brings.

use crate::serving::PipeServing;
use crate::waiting::{Read, Write};
use vk_base::Pid;

/// What the answer to its last call brings a pipe server.
#[derive(Drop)]
pub enum News {
    /// A call that is due at once.
    Due { stage: PipeServing },
    /// The pipe is closed by this process.
    Close { from: Pid },
    /// A write waits from now on.
    WriteWaits { write: Write },
    /// A read waits from now on.
    ReadWaits { read: Read },
    /// A read has its bytes, which leave the pipe.
    Delivered { read: Read },
    /// A reply was made, with no bytes that leave the pipe.
    Replied,
}
