//! The drives of a session: which are there, which is current, and the calls on their files and sectors over a file
//! control block and a buffer of a record.
#![tactic(auto)]

mod codes;
mod disks;
mod files;
mod function;
mod lent;
mod own;
mod rooms;
mod search;
mod sectors;
mod selecting;
mod vectors;

pub use disks::Disks;
pub use function::FileFunction;
pub use rooms::EntryRooms;
pub use search::Search;
