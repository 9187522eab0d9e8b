//! What a task asks of its files and streams.

use crate::batch::Batch;
use crate::bounds::FileRules;
use crate::files::MachineFiles;
use crate::held::LockableFiles;
use crate::output::Outputs;
use cpm_host::{RunTask, Task};
use std::alloc::{AllocError, Global};

/// The folder of a service, if it has one.
pub fn folders_of<'a>(alloc: Global, task: &Task<'a>) -> Result<Vec<&'a str>, AllocError> {
    let mut folders = Vec::new(alloc);
    if let Task::Serve(task) = task
        && let Some(folder) = task.folder
    {
        folders.push(folder)?;
    }
    Ok(folders)
}

/// The files of a task.
pub fn files_of<'a, R: LockableFiles>(
    rt: &'a R,
    outputs: Outputs,
    task: &'a Task<'_>,
) -> MachineFiles<'a, R> {
    let (rules, shows_controls) = match task {
        Task::Com(task) | Task::Boot(task) => {
            (FileRules::of_program(task.is_live), !task.is_raw)
        }
        Task::Run(task) => (rules_of(task), !task.is_raw),
        _ => return MachineFiles::plain(rt, outputs),
    };
    MachineFiles::new(
        rt,
        outputs,
        rules,
        shows_controls,
        Batch::of_played(rt, outputs),
    )
}

/// Where the files of a run may lie.
fn rules_of<'a>(task: &'a RunTask<'_>) -> FileRules<'a> {
    FileRules {
        folders: &task.folders,
        has_outputs_here: task.has_outputs_here,
        scripts: task.scripts,
        is_typed_at: task.keyboard.is_some(),
        waits_for_others: true,
    }
}

/// The file for what is typed, if there is one.
pub fn record_of<'a>(task: &'a Task<'_>) -> Option<&'a str> {
    match task {
        Task::Com(task) | Task::Boot(task) => task.record,
        Task::Run(task) => task.record,
        _ => None,
    }
}

/// Whether a task has the option that control bytes of a program go to a terminal as they are.
pub fn takes_raw(task: &Task<'_>) -> bool {
    matches!(task, Task::Com(_) | Task::Boot(_) | Task::Run(_))
}

/// Whether one types at disks that are written nowhere, nor saved. (The blank one of a program that has no other is hardly missed.)
pub fn drops_disks(task: &Task<'_>) -> bool {
    match task {
        Task::Com(task) | Task::Boot(task) => {
            let has_disks = task.file.is_none() || !task.drives.is_empty();
            let is_kept = !task.outs.is_empty()
                || !task.out_folders.is_empty()
                || task.save.is_some();
            task.is_live && has_disks && !is_kept
        }
        _ => false,
    }
}

/// Whether control bytes of a program go to a terminal as they are.
pub fn is_raw(task: &Task<'_>) -> bool {
    match task {
        Task::Com(task) | Task::Boot(task) => task.is_raw,
        Task::Run(task) => task.is_raw,
        _ => false,
    }
}

/// Whether it is told how far it has come.
pub fn has_progress(task: &Task<'_>) -> bool {
    match task {
        Task::Com(task) | Task::Boot(task) => task.has_progress,
        Task::Run(task) => task.has_progress,
        _ => false,
    }
}

/// How many thousand steps pass in a second at most of a program.
pub fn pace_of_program(task: &Task<'_>) -> Option<u64> {
    match task {
        Task::Com(task) | Task::Boot(task) => task.pace,
        _ => None,
    }
}

/// How many pass in a second at most where one types.
pub fn pace_of(task: &Task<'_>) -> Option<u64> {
    match task {
        Task::Run(task) => task.pace,
        _ => pace_of_program(task),
    }
}
