//! A drive: an image with its reserved blocks and marks, and the calls on its files over a file control block and a
//! buffer of a record.
#![tactic(auto)]

pub mod change;
pub mod closing;
pub mod drive;
pub mod laws;
pub mod named;
pub mod opening;
pub mod place;
pub mod reading;
pub mod searching;
pub mod writing;

pub use change::Change;
pub use closing::{CloseJudgement, close_file_lent};
pub use drive::{Drive, Marks, directory_code};
pub use opening::open_file_lent;
pub use reading::{peek_next, read_next_protected, read_random_protected};
pub use searching::{compute_size, search};
