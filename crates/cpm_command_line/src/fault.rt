//! What was wrong with the words of a command line.
ghost use Rattle.std.specs.Prelude.{◌≡◌, IfSome, if◌then◌else◌};
ghost use Rattle.clap.specs.Words.{IsAmong, kind_of};
ghost use Rattle.cpm_command_line.specs.Refusals.{IsAnswer, IsOfKind, IsOfLine, kinds_of};

use crate::pages::page_line;
use crate::task::Task;
use crate::usage::Page;
use clap::Error;
use clap::error::ErrorKind;
use cpm_shown::{ShownWord, shown};
use std::alloc::Global;
use thiserror::Error;

/// What was wrong, with the word that was at fault where there is one.
#[derive(Clone, Copy, Debug, Drop, Error)]
pub enum UsageFault {
    /// There is no word after the program's name.
    #[error("no command was given")]
    NoCommand,
    /// There is no word after `disk`.
    #[error("no command of 'disk' was given: new, list, put, get, remove or rename")]
    NoDiskCommand,
    /// The word stands where a command does, and names none.
    #[error("unknown command '{0}'")]
    UnknownCommand(ShownWord),
    /// The command has no such option, or takes no more words.
    #[error("unexpected argument '{0}'")]
    UnexpectedArgument(ShownWord),
    /// A word that has to be there is not.
    #[error("the argument {0} is missing")]
    MissingArgument(ShownWord),
    /// An option stands without its value.
    #[error("a value is wanted for '{0}'")]
    MissingValue(ShownWord),
    /// The value of `--steps` is no number of 64 bits.
    #[error("invalid value '{0}' for '--steps': a number from 0 to 18446744073709551615 is wanted")]
    NotANumber(ShownWord),
    /// The value of `--pace` is no number of 64 bits.
    #[error("invalid value '{0}' for '--pace': a number from 1 to 18446744073709551615 is wanted")]
    NotAPace(ShownWord),
    /// The value of `--checkpoint` is no number of 64 bits.
    #[error("invalid value '{0}' for '--checkpoint': a number from 1 to 18446744073709551615 is wanted")]
    NotACheckpoint(ShownWord),
    /// The value of `--frames` is no number of 64 bits.
    #[error("invalid value '{0}' for '--frames': a number from 16 to 16384 is wanted")]
    NotFrames(ShownWord),
    /// The value of `--user` is no number of a user.
    #[error("invalid value '{0}' for '--user': a number from 0 to 15 is wanted")]
    NotAUser(ShownWord),
    /// An option was given twice.
    #[error("the argument '{0}' was given twice")]
    GivenTwice(ShownWord),
    /// There is neither a program nor a saved machine.
    #[error("the argument <FILE> is missing")]
    NoProgram,
    /// A saved machine is to go on, and a program, a processor or drives are given too.
    #[error("'--from' goes on with a saved machine, which has its program, its processor and its drives; leave out FILE, '--z80' and '--disk'")]
    FromWithStart,
    /// The same, where the drives are given as places.
    #[error("'--from' goes on with a saved machine, which has its program, its processor and its drives; leave out PLACE and '--z80'")]
    FromWithPlace,
    /// A saved machine is to be debugged, and a program or a processor is given too.
    #[error("'--from' debugs a saved machine, which has its program and its processor; leave out FILE and '--z80'")]
    FromWithProgram,
    /// A system drive is given to a program that is debugged, whose own is blank.
    #[error("'--system' needs '--from'")]
    SystemWithoutFrom,
    /// The keys of a program are to be recorded, and come from nowhere.
    #[error("'--record' takes the keys of '--keyboard', '--keys' or '--replay'; give one of these with it")]
    RecordAlone,
    /// The keys of a session are to be recorded, and none are typed.
    #[error("'--record' takes the keys of '--keyboard'; give both, or neither")]
    RecordUntyped,
    /// The keys are to come from a script, and from a recording.
    #[error("'--keys' and '--replay' both give the keys; give one of them")]
    TwoScripts,
    /// There are more images than drives.
    #[error("'--disk' was given more than 4 times; give it for the drives A to D")]
    TooManyDisks,
    /// A drive is to be written, and has no image.
    #[error("'--out-disk' was given more often than '--disk'; give a '--disk' for each")]
    OutWithoutDisk,
    /// There are more places than drives.
    #[error("more than 4 disks or folders were given; give them for the drives A to D")]
    TooManyPlaces,
    /// More drives are to be written than there are.
    #[error("'--out-disk' was given more often than there are drives")]
    OutWithoutDrive,
    /// The files of a drive are to be written, and it has no image.
    #[error("'--out-folder' was given more often than '--disk'; give a '--disk' for each")]
    FolderWithoutDisk,
    /// The files of more drives are to be written than there are.
    #[error("'--out-folder' was given more often than there are drives")]
    FolderWithoutDrive,
    /// Drives are to be written even where the program is cut off, and none is to be written at all.
    #[error("'--partial' needs '--out-disk' or '--out-folder'")]
    PartialWithoutOut,
    /// The terminal is to show what is typed at, and how much is done.
    #[error("'--progress' and '--keyboard' both write to the terminal; give one of them")]
    ProgressAtKeyboard,
    /// The terminal is to show what is typed at, since neither a script nor a recording has the keys, and how much is done.
    #[error("'--progress' needs '--keys' or '--replay', and doesn't go with '--keyboard'")]
    ProgressAtPrompt,
    /// No steps are to pass in a second.
    #[error("'--pace' needs a number from 1")]
    PaceZero,
    /// A pace is given to a run where nobody types.
    #[error("'--pace' needs '--keyboard'")]
    PaceUntyped,
    /// Where the sessions stand is to be kept after no steps.
    #[error("'--checkpoint' needs a number from 1")]
    CheckpointZero,
    /// No host has so many frames, or so few.
    #[error("'--frames' needs a number from 16 to 16384")]
    FramesOutside,
    /// `--journal` and `--resume` were both given.
    #[error("'--journal' doesn't go with '--resume', which goes on with its own journal")]
    TwoJournals,
    /// `--compact` was given without `--resume`.
    #[error("'--compact' needs '--resume'")]
    CompactWithoutResume,
    /// Anything else, in the words of the reader of command lines.
    #[error("{0}")]
    Other(ShownWord),
}

/// What was wrong with a command line, and the page of the help that tells how it is written.
#[derive(Clone, Copy, Debug, Drop, Error)]
#[error("{fault}; try '{line}'", line = page_line(*.page))]
pub struct UsageRefusal {
    pub fault: UsageFault,
    pub page: Page,
}

/// Why a command line names no task.
#[derive(Clone, Copy, Debug, Drop, Error)]
pub enum UsageError {
    /// The words name no task.
    #[error("{0}")]
    Usage(UsageRefusal),
    /// Memory was refused.
    #[error("out of memory")]
    OutOfMemory,
}

/// What stands in the text from its first quote on, up to the last `end`.
fn quoted(text: &str, end: &str) -> ShownWord {
    match text.split_once('\'') {
        Some((_, rest)) => match rest.rsplit_once(end) {
            Some((word, _)) => shown(word),
            None => shown(rest),
        },
        None => shown(text),
    }
}

/// The first name below the line that says that some are missing.
fn missing_name(text: &str) -> ShownWord {
    match text.split_once(":\n") {
        Some((_, names)) => shown(names.lines().next().unwrap_or("").trim()),
        None => shown(text),
    }
}

/// What an error of `clap` says was wrong, without what it adds on usage.
fn message_of(text: &str) -> &str {
    let message = match text.split_once("\n\n") {
        Some((message, _)) => message,
        None => text,
    };
    message.strip_prefix("error: ").unwrap_or(message)
}

/// What is wrong where no command was given, in a line of `disk` or another.
fn missing_command(is_disk: bool) -> UsageFault
    ensures { result ≡ (if is_disk then UsageFault.NoDiskCommand else UsageFault.NoCommand) }
{
    if is_disk {
        UsageFault::NoDiskCommand
    } else {
        UsageFault::NoCommand
    }
}

/// Whether an error of `clap` on a value names this option behind it.
fn names_option(text: &str, option: &str) -> bool {
    match text.rsplit_once("' for '") {
        Some((_, named)) => named.starts_with(option),
        None => false,
    }
}

/// What is wrong where a number is none: in a line of `disk` a user's, and in another a pace, the steps between two
/// checkpoints, frames, or a number of steps.
fn wrong_number(
    word: ShownWord,
    is_disk: bool,
    is_pace: bool,
    is_checkpoint: bool,
    is_frames: bool,
) -> UsageFault
    ensures { result ≡ (if is_disk then UsageFault.NotAUser word
        else (if is_pace then UsageFault.NotAPace word
        else (if is_checkpoint then UsageFault.NotACheckpoint word
        else (if is_frames then UsageFault.NotFrames word else UsageFault.NotANumber word)))) }
{
    if is_disk {
        UsageFault::NotAUser(word)
    } else if is_pace {
        UsageFault::NotAPace(word)
    } else if is_checkpoint {
        UsageFault::NotACheckpoint(word)
    } else if is_frames {
        UsageFault::NotFrames(word)
    } else {
        UsageFault::NotANumber(word)
    }
}

/// What is wrong by an error of `clap` of this kind, which says `text`, in a line of `disk` or another.
/// Nothing is where memory was refused or help is asked for.
fn fault_of_kind(kind: ErrorKind, text: &str, is_disk: bool) -> Option<UsageFault>
    ensures { IfSome result (λ fault. IsAmong kind (kinds_of fault) × IsOfLine is_disk fault) }
{
    let message = message_of(text);
    match kind {
        ErrorKind::OutOfMemory | ErrorKind::DisplayHelp => None,
        ErrorKind::MissingSubcommand | ErrorKind::DisplayHelpOnMissingArgumentOrSubcommand => {
            Some(missing_command(is_disk))
        }
        ErrorKind::InvalidSubcommand => Some(UsageFault::UnknownCommand(quoted(message, "'"))),
        ErrorKind::UnknownArgument => {
            Some(UsageFault::UnexpectedArgument(quoted(message, "' found")))
        }
        ErrorKind::MissingRequiredArgument => {
            Some(UsageFault::MissingArgument(missing_name(message)))
        }
        ErrorKind::InvalidValue => Some(UsageFault::MissingValue(quoted(message, "' but"))),
        ErrorKind::ValueValidation => {
            let word = quoted(message, "' for '");
            let is_pace = names_option(text, "--pace");
            let is_checkpoint = names_option(text, "--checkpoint");
            let is_frames = names_option(text, "--frames");
            Some(wrong_number(word, is_disk, is_pace, is_checkpoint, is_frames))
        }
        ErrorKind::ArgumentConflict => Some(UsageFault::GivenTwice(quoted(message, "' cannot"))),
        ErrorKind::NoEquals
        | ErrorKind::TooManyValues
        | ErrorKind::TooFewValues
        | ErrorKind::WrongNumberOfValues
        | ErrorKind::DisplayVersion
        | ErrorKind::Io
        | ErrorKind::Format => Some(UsageFault::Other(shown(message))),
    }
}

/// The refusal for an error of `clap` that says `text`, in a line of `disk` or another that has this page.
fn refusal_of(kind: ErrorKind, text: &str, is_disk: bool, page: Page) -> UsageError
    ensures { IsOfKind is_disk page kind result }
{
    match fault_of_kind(kind, text, is_disk) {
        Some(fault) => UsageError::Usage(UsageRefusal { fault, page }),
        None => UsageError::OutOfMemory,
    }
}

/// What an error of `clap` comes to, in a line of `disk` or another that has this page: the page where a
/// flag asks for it, or else a refusal.
pub(crate) fn answer<'a>(
    alloc: Global,
    error: &Error,
    is_disk: bool,
    page: Page,
) -> Result<Task<'a>, UsageError>
    ensures { IsAnswer is_disk page (kind_of error.now) result }
{
    match error.kind() {
        ErrorKind::DisplayHelp => Ok(Task::Help(page)),
        kind => match error.to_string(alloc) {
            Ok(text) => Err(refusal_of(kind, text.as_str(), is_disk, page)),
            Err(_) => Err(UsageError::OutOfMemory),
        },
    }
}
