//! Directories of drives: entries found, read and written in an image, blocks reserved, and names of command lines.
#![tactic(auto)]

mod bits;
pub mod block;
pub mod checking;
pub mod command_line;
pub mod directory;
pub mod fault;
pub mod laws;
pub mod lent;
pub mod listed;
pub mod pattern;
pub mod reserved;

pub use block::block_at;
pub use checking::well_formed;
pub use command_line::parse_fcb;
pub use cpm_volume::{Entry, Extent, Fcb};
pub use directory::{DirectoryError, entry, find, first_free, put_entry};
pub use fault::DriveFault;
pub use lent::LentImage;
pub use listed::{EntryRoom, ListedImage};
pub use pattern::{Pattern, is_named};
pub use reserved::{Reserved, login, without_files};
