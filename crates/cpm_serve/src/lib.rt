//! The host behind its wire, as a machine: a line is read, and a line is replied. `docs/PROTOCOL.md` is the protocol.
#![tactic(auto)]

mod append;
mod close;
mod compact;
mod disk;
mod drives;
mod folder;
mod grant;
mod keep;
mod kept;
pub mod laws;
mod many;
mod open;
mod owned;
mod redo;
mod resume;
mod seen;
mod server;
mod slot;
mod talk;
mod turn;

pub use compact::write_journal;
pub use folder::{Folder, FolderError, NoFolder, ServeError};
pub use kept::KeptFolder;
pub use redo::RedoFault;
pub use resume::{JournalError, JournalFault, resume_journal};
pub use server::{MOST_LINE, Server};
pub use talk::{TalkError, serve_lines};
