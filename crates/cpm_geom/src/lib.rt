//! Disk images, seen as sectors and as the records that CP/M reads and writes.
#![tactic(auto)]

pub mod dpb;
pub mod format;
pub mod image;
pub mod laws;

pub use dpb::Dpb;
pub use format::Format;
pub use image::{GeomError, Image};
pub use laws::{bytes_are_their_disk, disks_are_their_bytes, records_lie_apart};
