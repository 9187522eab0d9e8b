//! What a command line asks for, in words: the names of the task's fields, each with its value where it has one.

use crate::{add_cpu, add_number, add_text, add_texts};
use cpm_command_line::{DebugTask, DiskTask, Page, PlayTask, RunTask, ServeTask, Task};
use cpm_flags::Cpu;
use std::alloc::Global;
use test_language::RowFault;

/// A task in words.
pub fn shown_task(alloc: Global, task: &Task<'_>) -> Result<String, RowFault> {
    let mut out = String::new(alloc);
    add_task(alloc, &mut out, task)?;
    Ok(out)
}

/// Adds a task.
fn add_task(alloc: Global, out: &mut String, task: &Task<'_>) -> Result<(), RowFault> {
    match task {
        Task::Com(task) => add_play(alloc, out, "com", task),
        Task::Boot(task) => add_play(alloc, out, "boot", task),
        Task::Asm {
            source,
            out: image,
            list,
        } => add_asm(alloc, out, source, image, *list),
        Task::List { file, cpu } => add_program(alloc, out, "list file", file, *cpu),
        Task::Check { image } => add_text(alloc, out, "check image", Some(image)),
        Task::Run(task) => add_run(alloc, out, task),
        Task::Debug(task) => add_debug(alloc, out, task),
        Task::Serve(task) => add_serve(alloc, out, task),
        Task::Saved { file } => add_text(alloc, out, "saved file", Some(file)),
        Task::Disk(task) => add_disk(alloc, out, task),
        Task::Help(page) => add_help(alloc, out, *page),
    }
}

/// Adds a source that is assembled.
fn add_asm(
    alloc: Global,
    out: &mut String,
    source: &str,
    image: &str,
    list: Option<&str>,
) -> Result<(), RowFault> {
    add_text(alloc, out, "asm source", Some(source))?;
    add_text(alloc, out, " out", Some(image))?;
    add_text(alloc, out, " list", list)
}

/// Adds a program's file and its processor.
fn add_program(
    alloc: Global,
    out: &mut String,
    name: &str,
    file: &str,
    cpu: Cpu,
) -> Result<(), RowFault> {
    add_text(alloc, out, name, Some(file))?;
    add_cpu(out, cpu)
}

/// Adds a program or a saved machine that is debugged.
fn add_debug(alloc: Global, out: &mut String, task: &DebugTask<'_>) -> Result<(), RowFault> {
    out.push_str("debug")?;
    add_text(alloc, out, " file", task.file)?;
    add_cpu(out, task.cpu)?;
    add_text(alloc, out, " list", task.list)?;
    add_text(alloc, out, " from", task.from)?;
    add_text(alloc, out, " system", task.system)
}

/// Adds a host that is served lines.
fn add_serve(alloc: Global, out: &mut String, task: &ServeTask<'_>) -> Result<(), RowFault> {
    out.push_str("serve")?;
    add_text(alloc, out, " system", task.system)?;
    add_count(alloc, out, " frames", task.frames)?;
    add_text(alloc, out, " folder", task.folder)?;
    add_text(alloc, out, " journal", task.journal)?;
    add_text(alloc, out, " resume", task.resume)?;
    add_flag(out, " is_compact", task.is_compact)
}

/// Adds a page of the help.
fn add_help(alloc: Global, out: &mut String, page: Page) -> Result<(), RowFault> {
    out.push_str(format!(in alloc; "help {page:?}")?.as_str())?;
    Ok(())
}

/// Adds a name where it holds.
fn add_flag(out: &mut String, name: &str, holds: bool) -> Result<(), RowFault> {
    if holds {
        out.push_str(name)?;
    }
    Ok(())
}

/// Adds a number after what it is, where there is one.
fn add_count(
    alloc: Global,
    out: &mut String,
    name: &str,
    count: Option<u64>,
) -> Result<(), RowFault> {
    match count {
        Some(count) => add_number(alloc, out, name, count),
        None => Ok(()),
    }
}

/// Adds a user.
fn add_user(alloc: Global, out: &mut String, user: u8) -> Result<(), RowFault> {
    add_number(alloc, out, " user", u64::from(user))
}

/// Adds a machine that is played: the command's name, then its program with its words, its keys and its drives.
fn add_play(
    alloc: Global,
    out: &mut String,
    command: &str,
    task: &PlayTask<'_>,
) -> Result<(), RowFault> {
    out.push_str(command)?;
    add_text(alloc, out, " file", task.file)?;
    add_texts(alloc, out, " tail", task.tail.as_slice())?;
    add_cpu(out, task.cpu)?;
    add_count(alloc, out, " steps", task.steps)?;
    add_keys(alloc, out, task)?;
    add_flags(out, task)?;
    add_replay(alloc, out, task)?;
    add_saved(alloc, out, task)
}

/// Adds the keys of a machine, its drives and what is recorded.
fn add_keys(alloc: Global, out: &mut String, task: &PlayTask<'_>) -> Result<(), RowFault> {
    add_text(alloc, out, " keys", task.keys)?;
    add_texts(alloc, out, " drives", task.drives.as_slice())?;
    add_texts(alloc, out, " outs", task.outs.as_slice())?;
    add_flag(out, " is_live", task.is_live)?;
    add_text(alloc, out, " record", task.record)
}

/// Adds how a machine is played.
fn add_flags(out: &mut String, task: &PlayTask<'_>) -> Result<(), RowFault> {
    add_flag(out, " has_progress", task.has_progress)?;
    add_flag(out, " stops_idle", task.stops_idle)?;
    add_flag(out, " is_raw", task.is_raw)?;
    add_flag(out, " is_quiet", task.is_quiet)?;
    add_flag(out, " is_partial", task.is_partial)?;
    add_flag(out, " has_status", task.has_status)
}

/// Adds the recording that a machine is played from, its system and where its files go.
fn add_replay(alloc: Global, out: &mut String, task: &PlayTask<'_>) -> Result<(), RowFault> {
    add_text(alloc, out, " replay", task.replay)?;
    add_count(alloc, out, " pace", task.pace)?;
    add_text(alloc, out, " system", task.system)?;
    add_texts(alloc, out, " out_folders", task.out_folders.as_slice())?;
    add_text(alloc, out, " list", task.list)
}

/// Adds the file that a machine is saved to, and that of the one that it goes on from.
fn add_saved(alloc: Global, out: &mut String, task: &PlayTask<'_>) -> Result<(), RowFault> {
    add_text(alloc, out, " save", task.save)?;
    add_text(alloc, out, " from", task.from)
}

/// Adds a configuration that is run.
fn add_run(alloc: Global, out: &mut String, task: &RunTask<'_>) -> Result<(), RowFault> {
    add_text(alloc, out, "run config", Some(task.config))?;
    add_text(alloc, out, " keyboard", task.keyboard)?;
    add_text(alloc, out, " record", task.record)?;
    add_flag(out, " has_progress", task.has_progress)?;
    add_flag(out, " stops_idle", task.stops_idle)?;
    add_sessions(alloc, out, task)
}

/// Adds what is read and written for the sessions of a configuration.
fn add_sessions(alloc: Global, out: &mut String, task: &RunTask<'_>) -> Result<(), RowFault> {
    add_text(alloc, out, " scripts", task.scripts)?;
    add_flag(out, " is_raw", task.is_raw)?;
    add_texts(alloc, out, " folders", task.folders.as_slice())?;
    add_flag(out, " has_outputs_here", task.has_outputs_here)?;
    add_count(alloc, out, " pace", task.pace)?;
    add_texts(alloc, out, " replays", task.replays.as_slice())?;
    add_count(alloc, out, " checkpoint", task.checkpoint)
}

/// Adds a command of `disk`.
fn add_disk(alloc: Global, out: &mut String, task: &DiskTask<'_>) -> Result<(), RowFault> {
    match task {
        DiskTask::New { image, is_large } => {
            add_text(alloc, out, "disk new image", Some(image))?;
            add_flag(out, " is_large", *is_large)
        }
        DiskTask::List { image, user } => {
            add_text(alloc, out, "disk list image", Some(image))?;
            match user {
                Some(user) => add_user(alloc, out, *user),
                None => Ok(()),
            }
        }
        DiskTask::Put { .. } => add_put(alloc, out, task),
        DiskTask::Get { .. } => add_get(alloc, out, task),
        DiskTask::Remove { image, names, user } => {
            add_text(alloc, out, "disk remove image", Some(image))?;
            add_texts(alloc, out, " names", names.as_slice())?;
            add_user(alloc, out, *user)
        }
        DiskTask::Rename {
            image,
            change,
            user,
        } => {
            add_text(alloc, out, "disk rename image", Some(image))?;
            add_text(alloc, out, " change", Some(change))?;
            add_user(alloc, out, *user)
        }
    }
}

/// Adds files that are put on a disk.
fn add_put(alloc: Global, out: &mut String, task: &DiskTask<'_>) -> Result<(), RowFault> {
    let DiskTask::Put {
        image,
        files,
        user,
        is_text,
        is_read_only,
        is_system,
    } = task
    else {
        return Ok(());
    };
    add_text(alloc, out, "disk put image", Some(image))?;
    add_texts(alloc, out, " files", files.as_slice())?;
    add_user(alloc, out, *user)?;
    add_flag(out, " is_text", *is_text)?;
    add_flag(out, " is_read_only", *is_read_only)?;
    add_flag(out, " is_system", *is_system)
}

/// Adds files that are taken off a disk.
fn add_get(alloc: Global, out: &mut String, task: &DiskTask<'_>) -> Result<(), RowFault> {
    let DiskTask::Get {
        image,
        names,
        user,
        is_text,
        to,
        is_forced,
        is_dry,
    } = task
    else {
        return Ok(());
    };
    add_text(alloc, out, "disk get image", Some(image))?;
    add_texts(alloc, out, " names", names.as_slice())?;
    add_user(alloc, out, *user)?;
    add_flag(out, " is_text", *is_text)?;
    add_text(alloc, out, " to", *to)?;
    add_flag(out, " is_forced", *is_forced)?;
    add_flag(out, " is_dry", *is_dry)
}
