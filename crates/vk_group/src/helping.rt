//! What a helper does.

use vk_base::Message;

/// The call that a helper makes next, or whose answer it awaits.
#[derive(Clone, Copy)]
pub enum Helping {
    /// Asks for a job.
    Ready,
    /// Loads the message of its job.
    Load,
    /// Sends it to the member.
    Send { message: Message },
    /// Puts the member's reply at the beginning of its memory.
    Store { reply: Message },
    /// Reports whether the member replied.
    Report { replied: bool },
    Exit,
    /// Nothing more.
    Ended,
}
