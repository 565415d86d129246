//! What a server does.

use vk_base::{Message, Pid};

/// The call that a server makes next.
#[derive(Clone, Copy)]
pub enum Stage {
    /// Waits for a request.
    Receive,
    /// Replies to the last one.
    Reply { to: Pid, message: Message },
    Exit,
    /// Nothing more.
    Ended,
}
