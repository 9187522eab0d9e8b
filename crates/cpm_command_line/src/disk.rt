//! Reading the words from `disk` on. `disk` is no subcommand of the program's command, but a command
//! of its own: the contracts of `clap` are of commands with one level of subcommands.
ghost use Rattle.std.specs.Prelude.{◌≡◌, IfErr, IfOk, IsSomeAnd, codes, map, true};
ghost use Rattle.clap.specs.Words.{fault_of, found_of, rows_of, subcommand_rows_of, takes};
ghost use Rattle.cpm_command_line.specs.DiskLine.{HasDiskEntriesOf, IsWholeDisk, IsWholeDiskOf, IsWholeGet, IsWholeListing};
ghost use Rattle.cpm_command_line.specs.DiskLine.{IsWholeNew, IsWholePut, IsWholeRemove, IsWholeRename, disk_app};
ghost use Rattle.cpm_command_line.specs.Line.{IsDiskTask, IsPageOrMemory, asks_by_flag};
ghost use Rattle.cpm_command_line.specs.Refusals.{IsRefusalBy};

use crate::build::disk_command;
use crate::entries::{flag_of, text_if_any, text_of, texts_of, user_if_any, user_of};
use crate::fault::{UsageError, answer};
use crate::task::{DiskTask, Task};
use crate::usage::Page;
use clap::ArgMatches;
use std::alloc::{AllocError, Global};

/// The task of `new`.
fn new_task<'a>(matches: &ArgMatches<'a>) -> DiskTask<'a>
    requires { IsWholeNew (rows_of (found_of matches.now)) }
    ensures { HasDiskEntriesOf (codes "new", rows_of (found_of matches.now)) result }
{
    DiskTask::New {
        image: text_of(matches, "image"),
        is_large: flag_of(matches, "large"),
    }
}

/// The task of `list`.
fn list_task<'a>(matches: &ArgMatches<'a>) -> DiskTask<'a>
    requires { IsWholeListing (rows_of (found_of matches.now)) }
    ensures { HasDiskEntriesOf (codes "list", rows_of (found_of matches.now)) result }
{
    DiskTask::List {
        image: text_of(matches, "image"),
        user: user_if_any(matches),
    }
}

/// The task of `put`.
fn put_task<'a>(alloc: Global, matches: &ArgMatches<'a>) -> Result<DiskTask<'a>, AllocError>
    requires { IsWholePut (rows_of (found_of matches.now)) }
    ensures { IfOk result (HasDiskEntriesOf (codes "put", rows_of (found_of matches.now))) }
{
    let files = texts_of(alloc, matches, "file")?;
    Ok(DiskTask::Put {
        image: text_of(matches, "image"),
        files,
        user: user_of(matches),
        is_text: flag_of(matches, "text"),
        is_read_only: flag_of(matches, "read-only"),
        is_system: flag_of(matches, "system"),
    })
}

/// The task of `get`.
fn get_task<'a>(alloc: Global, matches: &ArgMatches<'a>) -> Result<DiskTask<'a>, AllocError>
    requires { IsWholeGet (rows_of (found_of matches.now)) }
    ensures { IfOk result (HasDiskEntriesOf (codes "get", rows_of (found_of matches.now))) }
{
    let names = texts_of(alloc, matches, "name")?;
    Ok(DiskTask::Get {
        image: text_of(matches, "image"),
        names,
        user: user_of(matches),
        is_text: flag_of(matches, "text"),
        to: text_if_any(matches, "to"),
        is_forced: flag_of(matches, "force"),
        is_dry: flag_of(matches, "dry-run"),
    })
}

/// The task of `remove`.
fn remove_task<'a>(alloc: Global, matches: &ArgMatches<'a>) -> Result<DiskTask<'a>, AllocError>
    requires { IsWholeRemove (rows_of (found_of matches.now)) }
    ensures { IfOk result (HasDiskEntriesOf (codes "remove", rows_of (found_of matches.now))) }
{
    let names = texts_of(alloc, matches, "name")?;
    Ok(DiskTask::Remove {
        image: text_of(matches, "image"),
        names,
        user: user_of(matches),
    })
}

/// The task of `rename`.
fn rename_task<'a>(matches: &ArgMatches<'a>) -> DiskTask<'a>
    requires { IsWholeRename (rows_of (found_of matches.now)) }
    ensures { HasDiskEntriesOf (codes "rename", rows_of (found_of matches.now)) result }
{
    DiskTask::Rename {
        image: text_of(matches, "image"),
        change: text_of(matches, "change"),
        user: user_of(matches),
    }
}

/// The task of a command's entries.
fn task_named<'a>(
    alloc: Global,
    name: &str,
    matches: &ArgMatches<'a>,
) -> Result<DiskTask<'a>, AllocError>
    requires { IsWholeDiskOf (name.now, rows_of (found_of matches.now)) }
    ensures { IfOk result (HasDiskEntriesOf (name.now, rows_of (found_of matches.now))) }
{
    match name {
        "new" => Ok(new_task(matches)),
        "list" => Ok(list_task(matches)),
        "put" => put_task(alloc, matches),
        "get" => get_task(alloc, matches),
        "remove" => remove_task(alloc, matches),
        _ => Ok(rename_task(matches)),
    }
}

/// The task of a parse.
fn task_of<'a>(alloc: Global, matches: &ArgMatches<'a>) -> Result<DiskTask<'a>, AllocError>
    requires { IsWholeDisk (subcommand_rows_of matches.now) }
    ensures { IfOk result (λ t. IsSomeAnd (subcommand_rows_of matches.now) (λ given. HasDiskEntriesOf given t)) }
{
    match matches.subcommand() {
        Some((name, inner)) => task_named(alloc, name, inner),
        None => unreachable!(),
    }
}

/// The task that the words name, of which the first is `disk`, in a line that has this page.
pub(crate) fn disk_task<'a>(
    alloc: Global,
    words: &'a [&'a str],
    page: Page,
) -> Result<Task<'a>, UsageError>
    ensures task { IfOk result (IsDiskTask page (map (λ w. w.now) words.entry.now)) }
    ensures asked { asks_by_flag (fault_of disk_app (map (λ w. w.now) words.entry.now)) ≡ true
        → IsPageOrMemory page result }
    ensures taken { takes disk_app (map (λ w. w.now) words.entry.now) ≡ true
        → IfErr result (λ e. e ≡ UsageError.OutOfMemory) }
    ensures refusal { IfErr result (IsRefusalBy true page disk_app (map (λ w. w.now) words.entry.now)) }
{
    let command = match disk_command(alloc) {
        Ok(command) => command,
        Err(_) => return Err(UsageError::OutOfMemory),
    };
    let matches = match command.try_get_matches_from(words) {
        Ok(matches) => matches,
        Err(error) => return answer(alloc, &error, true, page),
    };
    match task_of(alloc, &matches) {
        Ok(task) => Ok(Task::Disk(task)),
        Err(_) => Err(UsageError::OutOfMemory),
    }
}
