//! The laws of the one-machine kernel, over histories.

ghost use Rattle.v_whole.specs.HistoryLaws.{DeadTargets, MovesWhole, RepliesOwn, SendsFailInTurn, TakenOnce, TakesOne};

/// In every history no message is received twice, but by a Forward of the process that holds it: each Take takes a message, and
/// between two that take the same there is such a Forward, answered ok.
pub fn no_message_is_received_twice()
    ensures some { TakesOne }
    ensures once { TakenOnce }
{}

/// In every history what a sender gets is the reply to its own Send, given by a process of its target's station that took it.
pub fn each_reply_answers_its_own_send()
    ensures { RepliesOwn }
{}

/// In every history a remote move that ends ok has copied exactly its bytes, each once and in order.
pub fn a_successful_move_copies_its_bytes()
    ensures { MovesWhole }
{}

/// In every history a Send fails as without a process only where the process that has its message is not alive.
pub fn targets_are_dead_where_told()
    ensures { DeadTargets }
{}

/// In every history a Send fails as timed out only in the entry of a tick that is due for it and finds it unanswered, and as without
/// a process only in that of a Negative for it.
pub fn sends_fail_in_turn()
    ensures { SendsFailInTurn }
{}
