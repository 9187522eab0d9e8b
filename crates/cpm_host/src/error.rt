//! Why a command is refused.
ghost use Rattle.std.specs.Prelude.{◌≡◌};
ghost use Rattle.cpm_host.specs.declared.error.HostError.TheVariants.{OutOfMemory};
ghost use Rattle.cpm_host.specs.Refusals.{code_of_command, host_error_of, host_error_of_check, host_error_of_config, host_error_of_debug};
ghost use Rattle.cpm_host.specs.Refusals.{host_error_of_disk_command, host_error_of_live, host_error_of_opening, host_error_of_run};

use cpm_asm::AsmErrorKind;
use cpm_batch::SavingRefusal;
use cpm_check::CheckError;
use cpm_command_line::{UsageError, UsageRefusal};
use cpm_config::ConfigError;
use cpm_debug::DebugError;
use cpm_disk_commands::DiskCommandError;
use cpm_machine::OpenError;
use cpm_play::LiveError;
use cpm_refusals::RefusalCode;
use cpm_run::RunError;
use cpm_shown::ShownWord;
use std::alloc::{AllocError, AllocFailed};
use std::{fmt, io};
use thiserror::Error;

/// Why a command is refused. Its text is one line, which is shown after its code.
#[derive(Clone, Copy, Drop, Error)]
pub enum HostError {
    /// The words of the command line name no task.
    #[error("{0}")]
    Usage(UsageRefusal),
    /// A word of the command line is no text.
    #[error("an argument is not UTF-8 text; try 'cpmhost --help'")]
    NotText,
    /// A word is no part of a command's tail.
    #[error("'{0}' is no part of a command's tail: characters from ' ' to '~' are wanted, and at most 126 in all")]
    TailRefused(ShownWord),
    /// A word names no session with a recording of its keys.
    #[error("'{0}' is no session with its recording: '--replay NAME=FILE' is wanted")]
    NoReplay(ShownWord),
    /// The session of this name is named with two recordings.
    #[error("session '{0}' has two recordings: '--replay' names one for each session")]
    ReplayedTwice(ShownWord),
    /// A run is refused, or what one has too: a name to type at, a configuration, a key script, a file, a session.
    #[error("{0}")]
    RunRefused(RunError),
    /// A command on disk images is refused: a name, an image or what was asked of it.
    #[error("{0}")]
    DiskRefused(DiskCommandError),
    /// A file that is checked is refused: it is no image or a damaged one.
    #[error("{0}")]
    CheckRefused(CheckError),
    /// A file can't be read.
    #[error("can't read '{name}': {reason}")]
    FileUnreadable {
        name: ShownWord,
        reason: io::Error,
    },
    /// Standard input can't be read.
    #[error("can't read standard input: {0}")]
    InputUnreadable(io::Error),
    /// Standard output can't be written.
    #[error("can't write to standard output: {0}")]
    OutputUnwritable(io::Error),
    /// The list device of a machine can't be written.
    #[error("can't write the list device: {0}")]
    ListUnwritable(io::Error),
    /// The record of the keys can't be written.
    #[error("can't write the record of the keys: {0}")]
    RecordUnwritable(io::Error),
    /// A file can't be written.
    #[error("can't write '{name}': {reason}")]
    FileUnwritable {
        name: ShownWord,
        reason: io::Error,
    },
    /// Several files were to go to this file.
    #[error("can't write several files to '{0}': it is no folder")]
    NotAFolder(ShownWord),
    /// The source has a fault in this line, where this was found.
    #[error("line {line}, '{found}': {reason}", reason = SourceFault {kind: *.kind, found: *.found})]
    SourceRefused {
        line: u64,
        kind: AsmErrorKind,
        found: ShownWord,
    },
    /// Memory was refused.
    #[error("out of memory")]
    OutOfMemory,
    /// The machine can't be made so.
    #[error("{0}")]
    OpeningRefused(OpenError),
    /// The program has this many bytes, which is more than a machine takes.
    #[error("the program has {0} bytes, and a machine takes at most 58112")]
    ProgramTooLong(usize),
    /// The file of a saved machine is none, or it is damaged.
    #[error("{0}")]
    SavingRefused(SavingRefusal),
    /// The machine was saved over another system drive than it is to go on over.
    #[error("the machine was saved over another system drive; '--system' names the one that it had")]
    SavedElsewhere,
    /// A change of a served host can't be kept in its journal.
    #[error("can't write the journal")]
    JournalUnwritable,
    /// A journal can't be done again.
    #[error("can't go on with the journal: {0}")]
    JournalRefused(JournalRefusal),
    /// The program still ran when it had made all the steps that it may make, so its disks were not written.
    #[error("the program still ran after {0} steps, so its disks are as they were; give it more '--steps', or '--partial' to write them as they stand")]
    CutOff(u64),
}

/// Why a journal can't be done again. Lines are counted from 1.
#[derive(Clone, Copy, Debug, Drop, Error)]
pub enum JournalRefusal {
    /// The file is empty, or its first line is none of a journal.
    #[error("the file is no journal")]
    NoJournal,
    #[error("it is of another version")]
    OtherVersion,
    /// It was kept over another system drive.
    #[error("it was kept over another system drive; '--system' names the one that it had")]
    OtherSystem,
    /// Its host had more frames or fewer.
    #[error("its host had another number of frames; '--frames' gives the one that it had")]
    OtherFrames,
    /// A line is no entry.
    #[error("line {0} is wrong")]
    WrongLine(u64),
    /// The host refuses what a line has.
    #[error("line {0} can't be done")]
    UndoneLine(u64),
}

impl fmt::Debug for HostError {
    fn fmt<W: fmt::Write>(&self, f: &mut fmt::Formatter<W>) -> fmt::Result {
        let code = self.code();
        write!(f, "{code} {self}")
    }
}

/// What is wrong with a statement, with what stands in its line.
#[derive(Clone, Copy)]
struct SourceFault {
    kind: AsmErrorKind,
    found: ShownWord,
}

impl fmt::Display for SourceFault {
    fn fmt<W: fmt::Write>(&self, f: &mut fmt::Formatter<W>) -> fmt::Result {
        let kind = self.kind;
        if kind == AsmErrorKind::Syntax && begins_with_register(self.found.as_str()) {
            return write!(
                f,
                "AS1: a label that is a register's name (A B C D E H L M SP PSW)"
            );
        }
        write!(f, "{kind}")
    }
}

/// Whether the first word of a line, which is a label or an operation, is a register's name.
fn begins_with_register(line: &str) -> bool {
    let first = line.split(is_behind_word).next().unwrap_or("");
    REGISTERS
        .iter()
        .any(|name| first.eq_ignore_ascii_case(name))
}

/// Whether a character ends a word of a source.
fn is_behind_word(c: char) -> bool {
    matches!(c, ' ' | ':' | ';' | '!')
}

/// The names that no label has.
const REGISTERS: [&str; 10] = ["A", "B", "C", "D", "E", "H", "L", "M", "SP", "PSW"];

impl HostError {
    /// The code that it is shown with.
    pub fn code(&self) -> RefusalCode
        ensures { result ≡ code_of_command self.now }
    {
        match self {
            HostError::Usage(_)
            | HostError::NotText
            | HostError::TailRefused(_)
            | HostError::NoReplay(_)
            | HostError::ReplayedTwice(_) => RefusalCode::Usage,
            HostError::RunRefused(error) => error.code(),
            HostError::DiskRefused(error) => error.code(),
            HostError::CheckRefused(error) => error.code(),
            HostError::FileUnreadable { .. } | HostError::InputUnreadable(_) => {
                RefusalCode::Unreadable
            }
            HostError::OutputUnwritable(_)
            | HostError::ListUnwritable(_)
            | HostError::RecordUnwritable(_)
            | HostError::FileUnwritable { .. }
            | HostError::JournalUnwritable
            | HostError::NotAFolder(_) => RefusalCode::Unwritable,
            HostError::SourceRefused { .. } => RefusalCode::Source,
            HostError::OutOfMemory => RefusalCode::OutOfMemory,
            HostError::OpeningRefused(_)
            | HostError::ProgramTooLong(_)
            | HostError::SavingRefused(_)
            | HostError::JournalRefused(_)
            | HostError::SavedElsewhere => RefusalCode::Machine,
            HostError::CutOff(_) => RefusalCode::CutOff,
        }
    }
}

impl From<UsageError> for HostError {
    ghost from_gives = { λ u e. e ≡ host_error_of u };

    fn from(error: UsageError) -> HostError {
        match error {
            UsageError::Usage(refusal) => HostError::Usage(refusal),
            UsageError::OutOfMemory => HostError::OutOfMemory,
        }
    }
}

impl From<ConfigError> for HostError {
    ghost from_gives = { λ c e. e ≡ host_error_of_config c };

    fn from(error: ConfigError) -> HostError {
        match error {
            ConfigError::OutOfMemory => HostError::OutOfMemory,
            fault => HostError::RunRefused(RunError::ConfigRefused(fault)),
        }
    }
}

impl From<DiskCommandError> for HostError {
    ghost from_gives = { λ f e. e ≡ host_error_of_disk_command f };

    fn from(error: DiskCommandError) -> HostError {
        match error {
            DiskCommandError::OutOfMemory => HostError::OutOfMemory,
            DiskCommandError::OutputUnwritable(reason) => HostError::OutputUnwritable(reason),
            fault => HostError::DiskRefused(fault),
        }
    }
}

impl From<LiveError> for HostError {
    ghost from_gives = { λ l e. e ≡ host_error_of_live l };

    fn from(error: LiveError) -> HostError {
        match error {
            LiveError::Unreadable(reason) => HostError::InputUnreadable(reason),
            LiveError::Unwritable(reason) => HostError::OutputUnwritable(reason),
            LiveError::Unprinted(reason) => HostError::ListUnwritable(reason),
            LiveError::Unrecorded(reason) => HostError::RecordUnwritable(reason),
            LiveError::OutOfMemory => HostError::OutOfMemory,
        }
    }
}

impl From<RunError> for HostError {
    ghost from_gives = { λ r e. e ≡ host_error_of_run r };

    fn from(error: RunError) -> HostError {
        match error {
            RunError::OutOfMemory => HostError::OutOfMemory,
            fault => HostError::RunRefused(fault),
        }
    }
}

impl From<CheckError> for HostError {
    ghost from_gives = { λ c e. e ≡ host_error_of_check c };

    fn from(error: CheckError) -> HostError {
        match error {
            CheckError::OutputUnwritable(reason) => HostError::OutputUnwritable(reason),
            fault => HostError::CheckRefused(fault),
        }
    }
}

impl From<DebugError> for HostError {
    ghost from_gives = { λ d e. e ≡ host_error_of_debug d };

    fn from(error: DebugError) -> HostError {
        match error {
            DebugError::ProgramTooLong(count) => HostError::ProgramTooLong(count),
            DebugError::Unreadable(reason) => HostError::InputUnreadable(reason),
            DebugError::Unwritable(reason) => HostError::OutputUnwritable(reason),
            DebugError::OutOfMemory => HostError::OutOfMemory,
        }
    }
}

impl From<OpenError> for HostError {
    ghost from_gives = { λ o e. e ≡ host_error_of_opening o };

    fn from(error: OpenError) -> HostError {
        match error {
            OpenError::OutOfMemory => HostError::OutOfMemory,
            fault => HostError::OpeningRefused(fault),
        }
    }
}

impl From<AllocError> for HostError {
    ghost from_gives = { λ _ e. e ≡ OutOfMemory };

    fn from(_error: AllocError) -> HostError {
        HostError::OutOfMemory
    }
}

impl<T: Drop> From<AllocFailed<T>> for HostError {
    ghost from_gives = { λ _ e. e ≡ OutOfMemory };

    fn from(_error: AllocFailed<T>) -> HostError {
        HostError::OutOfMemory
    }
}
