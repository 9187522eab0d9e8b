//! The code of a refusal.
ghost use Rattle.std.specs.Prelude.{◌≡◌, Some};
ghost use Rattle.cpm_refusals.specs.Codes.{code_text, status_of_code};

use std::fmt;

/// What is at fault where something is refused. It is shown as `HO` and the exit status.
#[derive(Clone, Copy, Drop)]
pub enum RefusalCode {
    /// The words of the command line.
    Usage,
    /// The configuration.
    Configuration,
    /// A key script.
    Script,
    /// A file or a stream that can't be read.
    Unreadable,
    /// A file or a stream that can't be written.
    Unwritable,
    /// The image of a disk, or what was asked of it.
    Image,
    /// The source of a program.
    Source,
    /// Memory was refused.
    OutOfMemory,
    /// A machine that can't be made.
    Machine,
    /// A program that its limit of steps has cut off, so that its disks are not written.
    CutOff,
}

impl RefusalCode {
    /// The exit status that a program gives for it.
    pub fn status(self) -> u8
        ensures { result ≡ status_of_code self }
    {
        match self {
            RefusalCode::Usage => 1,
            RefusalCode::Configuration => 2,
            RefusalCode::Script => 3,
            RefusalCode::Unreadable => 4,
            RefusalCode::Unwritable => 5,
            RefusalCode::Image => 6,
            RefusalCode::Source => 7,
            RefusalCode::OutOfMemory => 8,
            RefusalCode::Machine => 9,
            RefusalCode::CutOff => 10,
        }
    }
}

impl fmt::Display for RefusalCode {
    ghost output = { λ code. Some (code_text code) };

    fn fmt<W: fmt::Write>(&self, f: &mut fmt::Formatter<W>) -> fmt::Result {
        let status = self.status();
        write!(f, "HO{status}")
    }
}
