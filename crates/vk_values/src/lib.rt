//! A small key-value server, as an example of a program of one's own: what a library's user writes for `vk_threads` or `vk_udp` to run.
//!
//! A request is a message that puts a value under a key or gets it; the server replies to one after the other. Begin with
//! `specs/Requests.antt`, what is kept and replied, and `specs/Servers.antt`, the server's task; `specs/Laws.antt` says what its clients
//! can rely on: what was put last is kept and given, and what nobody put is refused.
//!
//! Stands on `vk_base` and `vk_program` alone. The table in `table.rt` may be changed freely within its contract.
#![tactic(auto)]

mod any;
mod entry;
mod laws;
mod limits;
mod message;
mod server;
mod stage;
mod table;

pub use any::KeyProgram;
pub use entry::Entry;
pub use laws::{gets_give_what_was_put_last, unknown_keys_are_refused};
pub use limits::{BAD, DONE, FULL, GET, KEYS, PUT, UNKNOWN};
pub use message::{get_of, put_of, reply_of};
pub use server::KeyServer;
pub use stage::Stage;
pub use table::Table;
