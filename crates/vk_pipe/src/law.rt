//! What every pipe server keeps.

ghost use Rattle.vk_pipe.specs.Kept.{PipesKeepTheirBytes};

/// Whatever a pipe server is answered: the bytes of the writes that were put into the pipe are, in order, the bytes that reads have,
/// which are those whose reply was answered ok, and then the bytes in the pipe. Writes are put in, and reads served, in the order
/// in which they were taken, and each of them then has one reply. A reply without bytes and of code 0 is the one to such a write, or
/// to a close that was just taken. The end is told only where the pipe is closed and empty, no write waits, and reads have all
/// that was put in; that sixteen requests wait, only where they do; and nothing waits that could be settled.
pub fn pipes_keep_their_bytes()
    ensures { PipesKeepTheirBytes }
{}
