//! Reports and traces as texts: what is written of a history, one entry after another.
//!
//! Stands on the values of `vk_base`, on the texts of steps and answers (`v_trace`) and of words (`vk_text`), and on the bytes of packets
//! (`vk_packet`), of which the first tells the kind (`src/frame.rt`). What a history is, it does not ask: whoever plays one calls it for
//! each entry, each frame, and before and behind them all. What is written is said in `specs/Report.antt`, of a whole history in
//! `specs/Histories.antt`; the two forms are told apart once in each public call (`src/entry.rt`).
#![tactic(auto)]

mod answer;
mod entry;
mod frame;
mod law;

pub use answer::AnswerView;
pub use entry::{
    Counts, EventPlace, Form, ToldSteps, put_end, put_entry, put_frame, put_missing, put_opening,
    put_told_entry,
};
pub use frame::{Emitted, PacketKind, kind_of, kind_word};
pub use law::traces_are_of_their_steps;
