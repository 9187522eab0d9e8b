//! Sessions that are saved: their bytes, and sessions from bytes.
#![tactic(auto)]

mod append;
mod command_file;
mod console;
mod disks;
pub mod laws;
pub mod memory;
mod mode;
pub mod part;
pub mod reader;
mod registers;
pub mod session;

pub use append::{append_array, append_byte, append_flag, append_long, append_word};
pub use memory::{append_memory, read_memory};
pub use part::{SavingDamage, SavingPart};
pub use reader::{Reader, RestoreError};
pub use session::{append_session, read_session, session_is_fit};
