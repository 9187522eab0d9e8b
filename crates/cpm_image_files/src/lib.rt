//! Files on a disk image as wholes: a file is put on a disk, taken from it, given another name or removed, and all are listed;
//! or the reason is given why not. Texts are made fit for either side.
#![tactic(auto)]

mod copies;
pub mod getting;
pub mod laws;
pub mod listing;
pub mod name;
mod needs;
pub mod putting;
mod records;
pub mod refusal;
pub mod removing;
pub mod renaming;
pub mod text;

pub use getting::get;
pub use listing::{DiskFile, DiskListing, list};
pub use name::FileName;
pub use putting::put;
pub use refusal::{FileRefusal, ImageFilesError};
pub use removing::remove;
pub use renaming::rename;
pub use text::{from_text, to_text};
