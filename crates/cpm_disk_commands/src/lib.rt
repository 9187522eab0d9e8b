//! What the commands on disk images do: a file is put on an image, taken from it, given another name or removed, and all are
//! listed; or it is told in one line why not. Files of the host are read and written by the program.
#![tactic(auto)]

pub mod changed;
pub mod damage;
pub mod disk_commands;
pub mod error;
pub mod folder;
pub mod host_names;
pub mod laws;
mod lines;
pub mod listing;
pub mod matching;
pub mod names;
pub mod words;

pub use changed::{ComparedFile, FileChange, compare_disks, name_in_folder};
pub use damage::{Damage, NamedFile, damage_of};
pub use disk_commands::{get_file, image_of, new_image, put_file, remove_file, rename_file};
pub use error::DiskCommandError;
pub use folder::{FolderName, FolderNames, HostFile, disk_of_files, names_of_folder};
pub use host_names::{host_name, host_text, text_of_name};
pub use lines::add_name;
pub use listing::{list_files, write_list};
pub use matching::matching_files;
pub use names::{name_of, pattern_of};
pub use words::{base_name, check_new, file_name, split_pair};
