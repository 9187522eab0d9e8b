//! What a machine answers.

use cpm_flags::Regs;
use cpm_geom::Image;
use thiserror::Error;

/// Whether a session still runs, and else how it ended.
#[derive(Clone, Copy, Debug, PartialEq, Eq, Drop)]
pub enum End {
    Running,
    /// By HLT.
    Halted,
    /// At an opcode that is no instruction.
    Illegal,
    /// A further step might have written more pages than its quota.
    Quota,
    /// Its count reached the greatest number.
    CountEnd,
    /// A program made by itself came to the command processor.
    Exited,
}

/// Why a grant ended.
#[derive(Clone, Copy, Debug, PartialEq, Eq, Drop)]
pub enum Why {
    /// All steps were executed.
    All,
    /// The session ended.
    Stopped,
    /// The next step begins in the program at the address before which the grant was to stop.
    Break,
    /// The console or the list device has no room for what a step may put: take some output.
    Blocked,
}

/// A key was refused: 4,096 keys are pending.
#[derive(Clone, Copy, Debug, PartialEq, Eq, Drop, Error)]
#[error("4096 keys are pending")]
pub struct KeysFull;

/// What became of a grant.
#[derive(Clone, Copy, Debug, PartialEq, Eq, Drop)]
pub struct Granted {
    /// How many steps were executed.
    pub executed: u64,
    pub why: Why,
}

/// What is seen of a session.
#[derive(Clone, Copy, Debug, PartialEq, Eq, Drop)]
pub struct Look {
    pub regs: Regs,
    /// How many steps were executed since the opening.
    pub count: u64,
    pub ended: End,
    /// How many pages of 256 bytes were written.
    pub pages: u16,
    /// Whether a step now would find no key where it needs one, and so change the count alone.
    pub waiting: bool,
    /// How many keys are pending.
    pub keys: usize,
    /// How many console bytes wait to be taken.
    pub console: usize,
    /// How many list bytes wait to be taken.
    pub list: usize,
}

/// What is left of a machine.
#[derive(Drop)]
pub struct Closed {
    pub look: Look,
    /// The images of the drives A to D, as far as it had them.
    pub drives: [Option<Image>; 4],
}
