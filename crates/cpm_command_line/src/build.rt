//! The commands of `clap` that read the words: tables of arguments, and the functions that make a command of one.
ghost use Rattle.std.specs.Prelude.{IfOk};
ghost use Rattle.clap.specs.Words.{App, new_app, with_subcommand};
ghost use Rattle.cpm_command_line.specs.Arguments.{app_for, rule_for, with_arguments, with_commands};
ghost use Rattle.cpm_command_line.specs.CommandLine.{IsArgumentOf, IsCommandOf, count_option, flag, host_app, operand};
ghost use Rattle.cpm_command_line.specs.CommandLine.{repeated_option, top_app, value_option, word_left_out, words_left_out};
ghost use Rattle.cpm_command_line.specs.DiskLine.{disk_app, operands, user_if_any_option, user_option};

use clap::{Arg, ArgAction, Command};
use std::alloc::{AllocError, Global};

/// An argument of a command: the name by which its entry is found, and what a usage text shows for a value.
#[derive(Clone, Copy)]
pub(crate) enum Argument {
    /// A word that has to be there.
    Word(&'static str, &'static str),
    /// A word that has to be there, and further ones.
    Words(&'static str, &'static str),
    /// A word that may be left out.
    WordIfAny(&'static str, &'static str),
    /// Any number of words, which may be left out.
    WordsIfAny(&'static str, &'static str),
    /// A flag of this name.
    Flag(&'static str),
    /// An option of this name with a value, which may be left out.
    Value(&'static str, &'static str),
    /// An option of this name with a value, which may be left out, and given several times.
    Values(&'static str, &'static str),
    /// An option of this name with a number, which may be left out.
    Count(&'static str),
    /// `--user N`, which may be left out.
    UserIfAny,
    /// `--user N`, which is 0 where it is left out.
    User,
}

/// A command by its name, with its arguments in their order.
type NamedCommand = (&'static str, &'static [Argument]);

/// The program's commands, but for `disk`.
const HOST_COMMANDS: [NamedCommand; 9] = [
    (
        "com",
        &[
            Argument::WordIfAny("file", "FILE"),
            Argument::WordsIfAny("tail", "TAIL"),
            Argument::Flag("z80"),
            Argument::Count("steps"),
            Argument::Value("keys", "SCRIPT"),
            Argument::Values("disk", "IMAGE"),
            Argument::Values("out-disk", "IMAGE"),
            Argument::Flag("keyboard"),
            Argument::Value("record", "SCRIPT"),
            Argument::Flag("progress"),
            Argument::Flag("stop-idle"),
            Argument::Flag("raw"),
            Argument::Flag("quiet"),
            Argument::Flag("partial"),
            Argument::Flag("status"),
            Argument::Value("replay", "RECORDING"),
            Argument::Count("pace"),
            Argument::Value("system", "IMAGE"),
            Argument::Values("out-folder", "FOLDER"),
            Argument::Value("list", "FILE"),
            Argument::Value("save", "FILE"),
            Argument::Value("from", "FILE"),
        ],
    ),
    (
        "boot",
        &[
            Argument::WordsIfAny("place", "PLACE"),
            Argument::Flag("z80"),
            Argument::Count("steps"),
            Argument::Value("keys", "SCRIPT"),
            Argument::Values("out-disk", "IMAGE"),
            Argument::Flag("keyboard"),
            Argument::Value("record", "SCRIPT"),
            Argument::Flag("progress"),
            Argument::Flag("stop-idle"),
            Argument::Flag("raw"),
            Argument::Flag("quiet"),
            Argument::Flag("partial"),
            Argument::Flag("status"),
            Argument::Value("replay", "RECORDING"),
            Argument::Count("pace"),
            Argument::Value("system", "IMAGE"),
            Argument::Values("out-folder", "FOLDER"),
            Argument::Value("list", "FILE"),
            Argument::Value("save", "FILE"),
            Argument::Value("from", "FILE"),
        ],
    ),
    (
        "asm",
        &[
            Argument::Word("source", "SOURCE"),
            Argument::Word("out", "OUT"),
            Argument::Value("list", "FILE"),
        ],
    ),
    (
        "list",
        &[Argument::Word("file", "FILE"), Argument::Flag("z80")],
    ),
    ("check", &[Argument::Word("image", "IMAGE")]),
    (
        "run",
        &[
            Argument::Word("config", "CONFIG"),
            Argument::Value("keyboard", "NAME"),
            Argument::Value("record", "SCRIPT"),
            Argument::Flag("progress"),
            Argument::Flag("stop-idle"),
            Argument::Value("record-all", "FOLDER"),
            Argument::Flag("raw"),
            Argument::Values("within", "FOLDER"),
            Argument::Flag("outputs-here"),
            Argument::Count("pace"),
            Argument::Values("replay", "NAME=FILE"),
            Argument::Count("checkpoint"),
        ],
    ),
    (
        "debug",
        &[
            Argument::WordIfAny("file", "FILE"),
            Argument::Flag("z80"),
            Argument::Value("list", "FILE"),
            Argument::Value("from", "FILE"),
            Argument::Value("system", "IMAGE"),
        ],
    ),
    (
        "serve",
        &[
            Argument::Value("system", "IMAGE"),
            Argument::Count("frames"),
            Argument::Value("folder", "FOLDER"),
            Argument::Value("journal", "FILE"),
            Argument::Value("resume", "FILE"),
            Argument::Flag("compact"),
        ],
    ),
    ("saved", &[Argument::Word("file", "FILE")]),
];

/// The commands of `disk`.
const DISK_COMMANDS: [NamedCommand; 6] = [
    (
        "new",
        &[Argument::Word("image", "IMAGE"), Argument::Flag("large")],
    ),
    (
        "list",
        &[Argument::Word("image", "IMAGE"), Argument::UserIfAny],
    ),
    (
        "put",
        &[
            Argument::Word("image", "IMAGE"),
            Argument::Words("file", "FILE"),
            Argument::User,
            Argument::Flag("text"),
            Argument::Flag("read-only"),
            Argument::Flag("system"),
        ],
    ),
    (
        "get",
        &[
            Argument::Word("image", "IMAGE"),
            Argument::Words("name", "NAME.TYP"),
            Argument::User,
            Argument::Flag("text"),
            Argument::Value("to", "PATH"),
            Argument::Flag("force"),
            Argument::Flag("dry-run"),
        ],
    ),
    (
        "remove",
        &[
            Argument::Word("image", "IMAGE"),
            Argument::Words("name", "NAME.TYP"),
            Argument::User,
        ],
    ),
    (
        "rename",
        &[
            Argument::Word("image", "IMAGE"),
            Argument::Word("change", "NEW=OLD"),
            Argument::User,
        ],
    ),
];

/// A word that has to be there.
fn required_word<'a>(alloc: Global, id: &'a str, shown: &'a str) -> Arg<'a>
    ensures { IsArgumentOf (operand id.now) result }
{
    Arg::new(alloc, id).value_name(shown).required(true)
}

/// A word that has to be there, and further ones.
fn required_words<'a>(alloc: Global, id: &'a str, shown: &'a str) -> Arg<'a>
    ensures { IsArgumentOf (operands id.now) result }
{
    required_word(alloc, id, shown).num_args(1..)
}

/// A word that may be left out.
fn optional_word<'a>(alloc: Global, id: &'a str, shown: &'a str) -> Arg<'a>
    ensures { IsArgumentOf (word_left_out id.now) result }
{
    Arg::new(alloc, id).value_name(shown)
}

/// Any number of words, which may be left out.
fn optional_words<'a>(alloc: Global, id: &'a str, shown: &'a str) -> Arg<'a>
    ensures { IsArgumentOf (words_left_out id.now) result }
{
    optional_word(alloc, id, shown).num_args(1..)
}

/// A flag of this name.
fn flag_argument<'a>(alloc: Global, name: &'a str) -> Arg<'a>
    ensures { IsArgumentOf (flag name.now) result }
{
    Arg::new(alloc, name).long(name).action(ArgAction::SetTrue)
}

/// An option of this name with a value, which may be left out.
fn value_argument<'a>(alloc: Global, name: &'a str, shown: &'a str) -> Arg<'a>
    ensures { IsArgumentOf (value_option name.now) result }
{
    Arg::new(alloc, name).long(name).value_name(shown)
}

/// An option of this name with a value, which may be left out, and given several times.
fn repeated_argument<'a>(alloc: Global, name: &'a str, shown: &'a str) -> Arg<'a>
    ensures { IsArgumentOf (repeated_option name.now) result }
{
    value_argument(alloc, name, shown).action(ArgAction::Append)
}

/// An option of this name with a number, which may be left out.
fn count_argument<'a>(alloc: Global, name: &'a str) -> Arg<'a>
    ensures { IsArgumentOf (count_option name.now) result }
{
    value_argument(alloc, name, "N").value_parser(clap::value_parser!(u64))
}

/// `--user N`, which may be left out.
fn user_if_any_argument<'a>(alloc: Global) -> Arg<'a>
    ensures { IsArgumentOf user_if_any_option result }
{
    value_argument(alloc, "user", "N").value_parser(clap::value_parser!(u64).range(0..=15))
}

/// `--user N`, which is 0 where it is left out.
fn user_argument<'a>(alloc: Global) -> Arg<'a>
    ensures { IsArgumentOf user_option result }
{
    user_if_any_argument(alloc).default_value("0")
}

/// The argument of `clap`.
fn argument_of<'a>(alloc: Global, argument: Argument) -> Arg<'a>
    ensures { IsArgumentOf (rule_for argument) result }
{
    match argument {
        Argument::Word(id, shown) => required_word(alloc, id, shown),
        Argument::Words(id, shown) => required_words(alloc, id, shown),
        Argument::WordIfAny(id, shown) => optional_word(alloc, id, shown),
        Argument::WordsIfAny(id, shown) => optional_words(alloc, id, shown),
        Argument::Flag(name) => flag_argument(alloc, name),
        Argument::Value(name, shown) => value_argument(alloc, name, shown),
        Argument::Values(name, shown) => repeated_argument(alloc, name, shown),
        Argument::Count(name) => count_argument(alloc, name),
        Argument::UserIfAny => user_if_any_argument(alloc),
        Argument::User => user_argument(alloc),
    }
}

/// The command of this name with these arguments.
fn command_of<'a>(
    alloc: Global,
    name: &'a str,
    arguments: &[Argument],
) -> Result<Command<'a>, AllocError>
    ensures { IfOk result (IsCommandOf (with_arguments (new_app name.entry.now) arguments.now)) }
{
    let mut command = Command::new(alloc, name);
    for argument in arguments {
        command = command.arg(argument_of(alloc, *argument))?;
    }
    Ok(command)
}

/// A command that wants a subcommand, with none yet. What follows `help` is no line of it.
fn top_command<'a>(alloc: Global, name: &'a str) -> Command<'a>
    ensures { IsCommandOf (top_app name.now) result }
{
    Command::new(alloc, name)
        .subcommand_required(true)
        .disable_help_subcommand(true)
}

/// The command with one more subcommand.
fn with_command<'a>(
    alloc: Global,
    command: Command<'a>,
    inner: NamedCommand,
) -> Result<Command<'a>, AllocError>
    ensures { (a : App) → IsCommandOf a command.entry
        → IfOk result (IsCommandOf (with_subcommand a (app_for inner.entry).top)) }
{
    let (name, arguments) = inner;
    command.subcommand(command_of(alloc, name, arguments)?)
}

/// The command of this name that wants one of these subcommands.
fn command_with<'a>(
    alloc: Global,
    name: &'a str,
    commands: &[NamedCommand],
) -> Result<Command<'a>, AllocError>
    ensures { IfOk result (IsCommandOf (with_commands (top_app name.entry.now) commands.now)) }
{
    let mut command = top_command(alloc, name);
    for inner in commands {
        command = with_command(alloc, command, *inner)?;
    }
    Ok(command)
}

/// The program's command, with its subcommands but for `disk`.
pub(crate) fn host_command<'a>(alloc: Global) -> Result<Command<'a>, AllocError>
    ensures { IfOk result (IsCommandOf host_app) }
{
    command_with(alloc, "cpmhost", &HOST_COMMANDS)
}

/// `disk` with its commands.
pub(crate) fn disk_command<'a>(alloc: Global) -> Result<Command<'a>, AllocError>
    ensures { IfOk result (IsCommandOf disk_app) }
{
    command_with(alloc, "disk", &DISK_COMMANDS)
}
