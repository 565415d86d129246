//! The top call: words in, one input read to its end (a storm reads none), one output written, and a status. `vkernel` does the whole work
//! of the program; what a program adds are the real objects. What waits for nobody is `vkernel_alone`, all but `run` and `node H`: `run`
//! runs the stations of a scenario beside each other, by a crew, and writes the schedule of what happened; `node H` runs one station of a
//! scenario, with a wire to the others, and writes what happened there.
//!
//! Stands on the readers of schedules (`vk_schedule`), scenarios and texts of single stations (`vk_event`), on all stations of a run
//! (`vk_cluster`), on logs that are joined (`vk_join`), on the machine that applies steps (`v_machine`), on traces (`v_trace`), on storms
//! (`vk_drive`), on runs in threads (`vk_threads`) and nodes (`vk_udp`) of the programs of `vk_pages`, `vk_files`, `vk_pipe` and
//! `vk_group`, on what is written of a history (`vk_report`) and of words (`vk_text`), on sources, sinks and crews (`vk_io`), on what each
//! program does (`vk_edge`), and on `clap`, which reads the program's words.
//!
//! What the words ask for is `specs/Words.antt`, what is written of a schedule `specs/Report.antt`, of a storm `specs/Storm.antt`, what is
//! said of a trace `specs/Check.antt`, and of texts of stations `specs/Joins.antt`; what each status says of a text is `specs/Top.antt`, of
//! all that the words ask for without a runtime `specs/Jobs.antt`, and of what runs in threads `specs/Threaded.antt`, of a run
//! `specs/Runs.antt`, and of a node `specs/Nodes.antt`; the program of each task of a scenario is `src/program.rt`, `specs/Programs.antt`.
//! An input of `replay` or `check` is worked on piece by piece (`src/begun.rt`): a schedule is played (`src/playing.rt`), a trace checked
//! (`src/checking.rt`).
#![tactic(auto)]

mod begun;
mod check;
mod checking;
mod emitted;
mod join;
mod law;
mod node;
mod playing;
mod program;
mod replay;
mod run;
mod status;
mod storm;
mod top;
mod whole;
mod words;

pub use law::{limits_are_their_numbers, verdicts_are_exact};
pub use program::TopProgram;
pub use status::Status;
pub use top::vkernel_alone;
pub use whole::vkernel;
