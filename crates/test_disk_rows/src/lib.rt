//! Rows of disks: the drives of a session, one drive by itself, directories, images, and the files on an image.
#![tactic(auto)]

mod directories;
mod drives;
mod fcb;
mod file_functions;
mod image_files;
mod images;
mod one_drive;
mod runs;
mod words;

pub use directories::Directories;
pub use drives::Drives;
pub use image_files::ImageFiles;
pub use images::ImageLines;
pub use one_drive::OneDrive;
