//! What clients of the server can rely on: laws over definitions, and no code.

ghost use Rattle.vk_values.specs.Laws.{GetsGiveWhatWasPutLast, UnknownKeysAreRefused};

/// A put for which there was room is kept, and each get of its key is answered with its value, up to the next put of that key, whatever
/// else is asked for.
pub fn gets_give_what_was_put_last()
    ensures { GetsGiveWhatWasPutLast }
{}

/// A get of a key under which nothing was put is refused.
pub fn unknown_keys_are_refused()
    ensures { UnknownKeysAreRefused }
{}
