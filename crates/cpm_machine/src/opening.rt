//! What a machine is opened with, and why it can't be.

ghost use Rattle.std.specs.Prelude.{◌≡◌, length};
ghost use Rattle.cpm_machine.specs.Opening.{drives_fault, opening_fault, program_fault};

use cpm_flags::Cpu;
use cpm_geom::Image;
use thiserror::Error;

/// The most bytes that a program may have: those from 0100h up to the command processor at E400h.
pub const MOST_PROGRAM: usize = 58_112;

/// The fewest pages that a quota may have.
pub const LEAST_QUOTA: u16 = 16;

/// The most pages that a quota may have: all of a memory.
pub const MOST_QUOTA: u16 = 256;

/// The most drives that a session may have: A to D.
pub const MOST_DRIVES: usize = 4;

/// What a session is opened with.
#[derive(Drop)]
pub struct Opening {
    pub cpu: Cpu,
    /// How many pages of 256 bytes the session may write.
    pub quota: u16,
    /// The images of its drives, the first as A.
    pub drives: Vec<Image>,
}

/// Why a machine can't be made, or a slot can't be opened.
#[derive(Clone, Copy, Debug, PartialEq, Eq, Drop, Error)]
pub enum OpenError {
    /// The quota is not 16 to 256 pages, or with a program not 256.
    #[error("the quota is not 16 to 256 pages, or with a program not 256")]
    BadQuota,
    /// There is no drive, or there are more than four.
    #[error("the session has no drive, or more than 4")]
    BadDrives,
    /// The program has more than 58,112 bytes.
    #[error("the program has more than 58112 bytes")]
    ProgramTooLong,
    /// As many slots are open as a host has, or it can number no more openings.
    #[error("no slot is free")]
    NoSlot,
    /// The quotas of all open slots and this one exceed the host's frames.
    #[error("the quotas of all open slots exceed the frames")]
    NoFrames,
    #[error("out of memory")]
    OutOfMemory,
}

impl Opening {
    /// The fault of the drives' number.
    fn drives_fault(&self) -> Option<OpenError>
        ensures { result ≡ drives_fault (length self.now.drives.items) }
    {
        if self.drives.is_empty() || self.drives.len() > MOST_DRIVES {
            Some(OpenError::BadDrives)
        } else {
            None
        }
    }

    /// The first fault of an opening without a program.
    pub fn fault(&self) -> Option<OpenError>
        ensures { result ≡ opening_fault self.now }
    {
        if self.quota < LEAST_QUOTA || self.quota > MOST_QUOTA {
            Some(OpenError::BadQuota)
        } else {
            self.drives_fault()
        }
    }

    /// The first fault of an opening with a program.
    pub(crate) fn fault_with(&self, program: &[u8]) -> Option<OpenError>
        ensures { result ≡ program_fault self.now program.now }
    {
        if self.quota != MOST_QUOTA {
            return Some(OpenError::BadQuota);
        }
        if let Some(fault) = self.drives_fault() {
            return Some(fault);
        }
        if program.len() > MOST_PROGRAM {
            Some(OpenError::ProgramTooLong)
        } else {
            None
        }
    }
}
