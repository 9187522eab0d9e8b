//! The calls of a session's operating system, BDOS and BIOS, one step at a time.
#![tactic(auto)]

mod bdos;
mod bios;
mod bios_disks;
mod boot;
mod disks;
mod fault;
mod function;
mod input;
pub mod laws;
mod line;
mod output;
mod registers;
mod session;
mod transfer;
mod wait;

pub use cpm_drives::Disks;
pub use function::{BiosCall, Function};
pub use session::{CommandPart, HeldOutput, Mode, SectorPlace, Session, Went};
pub use transfer::get_record;
pub use wait::waits;
