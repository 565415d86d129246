//! The law of fields.

ghost use Rattle.std.specs.Prelude.{ℕ};
ghost use Rattle.vk_wire.specs.Fields.{NumbersAreSpelledOnce, PidsAreSpelledOnce, MessagesAreSpelledOnce};

/// What is written of a number, a pid or a message is read again, and no other bytes read as it.
pub fn fields_are_spelled_once()
    ensures numbers { (n : ℕ) → NumbersAreSpelledOnce n }
    ensures pids { PidsAreSpelledOnce }
    ensures messages { MessagesAreSpelledOnce }
{}
