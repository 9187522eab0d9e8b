//! The entries of a command's arguments.
ghost use Rattle.std.specs.Prelude.{◌≡◌, IfOk, IsSome, Some, codes, option_map};
ghost use Rattle.clap.specs.Values.{bool_text};
ghost use Rattle.clap.specs.Words.{all_of, first_of, found_of, one_of, rows_of};
ghost use Rattle.cpm_command_line.specs.CommandLine.{IsCountIfAny, IsFlag, IsPick, ReadsCountIfAny, ReadsWordsIfAny, flag_text};
ghost use Rattle.cpm_command_line.specs.DiskLine.{IsUser, IsUserIfAny, ReadsUser, ReadsUserIfAny, ReadsWords};

use clap::ArgMatches;
use cpm_flags::Cpu;
use std::alloc::{AllocError, Global};

/// The text of an argument that is there.
pub(crate) fn text_of<'a>(matches: &ArgMatches<'a>, id: &str) -> &'a str
    requires { IsSome (first_of id.now (rows_of (found_of matches.now))) }
    ensures { first_of id.now (rows_of (found_of matches.now)) ≡ Some result.now }
{
    matches.get_str(id).unwrap()
}

/// The text of an argument that may be left out.
pub(crate) fn text_if_any<'a>(matches: &ArgMatches<'a>, id: &str) -> Option<&'a str>
    ensures { first_of id.now (rows_of (found_of matches.now)) ≡ option_map (λ t. t.now) result }
{
    matches.get_str(id)
}

/// The texts of an argument that is there, in their order: one at least.
pub(crate) fn texts_of<'a>(
    alloc: Global,
    matches: &ArgMatches<'a>,
    id: &str,
) -> Result<Vec<&'a str>, AllocError>
    requires { IsSome (first_of id.now (rows_of (found_of matches.now))) }
    ensures { IfOk result (λ texts.
        ReadsWords (all_of id.now (rows_of (found_of matches.now))) texts.items) }
{
    Vec::from_slice(alloc, matches.get_strs(id).unwrap())
}

/// The texts of an argument that may be left out, in their order: none where it is.
pub(crate) fn texts_if_any<'a>(
    alloc: Global,
    matches: &ArgMatches<'a>,
    id: &str,
) -> Result<Vec<&'a str>, AllocError>
    ensures { IfOk result (λ texts.
        ReadsWordsIfAny (all_of id.now (rows_of (found_of matches.now))) texts.items) }
{
    match matches.get_strs(id) {
        Some(texts) => Vec::from_slice(alloc, texts),
        None => Ok(Vec::new(alloc)),
    }
}

/// Whether a flag was given.
pub(crate) fn flag_of(matches: &ArgMatches<'_>, id: &str) -> bool
    requires { IsFlag (one_of id.now (rows_of (found_of matches.now))) }
    ensures { one_of id.now (rows_of (found_of matches.now)) ≡ Some (bool_text result) }
{
    matches.get_flag(id)
}

/// The processor that the flag picks.
pub(crate) fn cpu_of(matches: &ArgMatches<'_>) -> Cpu
    requires { IsPick (one_of (codes "z80") (rows_of (found_of matches.now))) }
    ensures { one_of (codes "z80") (rows_of (found_of matches.now)) ≡ Some (flag_text result) }
{
    if matches.get_flag("z80") {
        Cpu::Z80
    } else {
        Cpu::I8080
    }
}

/// The number of an argument that may be left out.
pub(crate) fn count_if_any(matches: &ArgMatches<'_>, id: &str) -> Option<u64>
    requires { IsCountIfAny (one_of id.now (rows_of (found_of matches.now))) }
    ensures { ReadsCountIfAny (one_of id.now (rows_of (found_of matches.now))) result }
{
    matches.get_one::<u64>(id)
}

/// The number of the user.
pub(crate) fn user_of(matches: &ArgMatches<'_>) -> u8
    requires { IsUser (one_of (codes "user") (rows_of (found_of matches.now))) }
    ensures { ReadsUser (one_of (codes "user") (rows_of (found_of matches.now))) result }
{
    matches.get_one::<u64>("user").unwrap() as u8
}

/// The number of the user, where it was given.
pub(crate) fn user_if_any(matches: &ArgMatches<'_>) -> Option<u8>
    requires { IsUserIfAny (one_of (codes "user") (rows_of (found_of matches.now))) }
    ensures { ReadsUserIfAny (one_of (codes "user") (rows_of (found_of matches.now))) result }
{
    match matches.get_one::<u64>("user") {
        Some(number) => Some(number as u8),
        None => None,
    }
}
