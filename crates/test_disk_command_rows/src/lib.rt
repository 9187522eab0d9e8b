//! Scenes of rows on the files of the host: a store over memory, what a run reads and writes, and files on disk images by the
//! words of the commands on disks.
#![tactic(auto)]

mod batches;
mod disk_commands;
mod files;
mod folders;
mod names;
mod not_done;
mod stores;

pub use batches::Batches;
pub use disk_commands::DiskCommands;
pub use stores::Stores;
