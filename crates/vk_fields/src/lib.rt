//! Calls, answers and processes as fields that another language can write and read: numbers, and 32 bytes of a message.
//!
//! Stands on the values of `vk_base` and `vk_brief`. What the numbers mean is `specs/Reading.antt` and `specs/Telling.antt`. Nothing here
//! knows of stations, and nothing takes memory but the list of a configuration's processes.
#![tactic(auto)]

mod answer;
mod call;
pub mod kinds;
mod process;

pub use answer::AnswerFields;
pub use call::CallFields;
pub use process::{PoolFields, ProcessFields, ProcessTrouble, SettingsFields, set_pools, specs_of};
