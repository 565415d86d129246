//! A file server: files of at most 65,536 bytes on a disk that may fail, served page by page, and loaded whole by one move; and a
//! loader, which asks for one of them. One block is read ahead.
//!
//! Begin with `specs/Volumes.antt` (which directories are lawful), `specs/Servers.antt` (one step of the server) and
//! `specs/Tasks.antt` (what it calls after its answers, and when it may be so). What disks promise is `src/disk.rt`; which calls of
//! the disk the server makes `specs/Ahead.antt`; another disk is an `impl` of `Disk`.
//!
//! Stands on `vk_base`, on `vk_program`, and on `vk_io` for what a fault is.
#![tactic(auto)]

mod ahead;
mod deciding;
mod directory;
mod disk;
mod entry;
pub mod limits;
mod loader;
mod memory;
mod message;
mod numbered;
mod server;
mod serving;
mod volume;

pub use disk::{Disk, Telling};
pub use loader::Loader;
pub use memory::{DiskCall, MemoryDisk, SureDisk};
pub use numbered::numbered_disk;
pub use server::FileServer;
pub use volume::{VolumeFault, VolumeRefusal};
