//! Options that don't go together, in a task that the reader of command lines takes.
ghost use Rattle.std.specs.Prelude.{◌≡◌};
ghost use Rattle.cpm_command_line.specs.Options.{fault_of_boot, fault_of_com, fault_of_debug, fault_of_play, fault_of_run, fault_of_serve};
ghost use Rattle.cpm_command_line.specs.Options.{fault_of_folders, fault_of_outs, is_outside_frames};
ghost use Rattle.cpm_command_line.specs.Options.{has_start, is_z80, is_zero_count, task_fault, written_at_most};

use crate::fault::UsageFault;
use crate::task::{DebugTask, PlayTask, RunTask, ServeTask, Task};
use cpm_flags::Cpu;

/// How many drives can have an image: A to D.
const DRIVES: usize = 4;

/// Whether a number was given, and is 0.
fn is_zero_count(count: Option<u64>) -> bool
    ensures { result ≡ is_zero_count count }
{
    match count {
        Some(n) => n == 0,
        None => false,
    }
}

/// Whether a processor is the Z80.
fn is_z80(cpu: Cpu) -> bool
    ensures { result ≡ is_z80 cpu }
{
    match cpu {
        Cpu::I8080 => false,
        Cpu::Z80 => true,
    }
}

/// Whether something was given that a saved machine has of its own: a program, the Z80 or drives.
fn has_start(task: &PlayTask<'_>) -> bool
    ensures { result ≡ has_start task.now }
{
    task.file.is_some() || is_z80(task.cpu) || !task.drives.is_empty()
}

/// How many drives can be written at most, where a machine that begins anew has this many. How many a saved one has isn't known yet.
fn written_at_most(task: &PlayTask<'_>, drives: usize) -> usize
    ensures { result ≡ written_at_most task.now drives }
{
    if task.from.is_some() { DRIVES } else { drives }
}

/// What is wrong with too many of `--out-disk` in `com`: each wants a `--disk`, unless it goes on from a saved machine.
fn out_fault(goes_on: bool) -> UsageFault
    ensures { result ≡ fault_of_outs goes_on }
{
    if goes_on {
        UsageFault::OutWithoutDrive
    } else {
        UsageFault::OutWithoutDisk
    }
}

/// What is wrong with too many of `--out-folder` in `com`.
fn folder_fault(goes_on: bool) -> UsageFault
    ensures { result ≡ fault_of_folders goes_on }
{
    if goes_on {
        UsageFault::FolderWithoutDrive
    } else {
        UsageFault::FolderWithoutDisk
    }
}

/// What is wrong first with the options that `com` and `boot` have in common. Where it is typed at, this is wrong with `--progress`.
fn play_fault(task: &PlayTask<'_>, progress: UsageFault) -> Option<UsageFault>
    ensures { result ≡ fault_of_play progress task.now }
{
    if task.is_partial && task.outs.is_empty() && task.out_folders.is_empty() {
        Some(UsageFault::PartialWithoutOut)
    } else if task.has_progress && task.is_live {
        Some(progress)
    } else if is_zero_count(task.pace) {
        Some(UsageFault::PaceZero)
    } else {
        None
    }
}

/// What is wrong first with the options of `com`.
fn com_fault(task: &PlayTask<'_>) -> Option<UsageFault>
    ensures { result ≡ fault_of_com task.now }
{
    let has_script = task.keys.is_some() || task.replay.is_some();
    let most = written_at_most(task, task.drives.len());
    if task.file.is_none() && task.from.is_none() {
        Some(UsageFault::NoProgram)
    } else if task.from.is_some() && has_start(task) {
        Some(UsageFault::FromWithStart)
    } else if task.record.is_some() && !task.is_live && !has_script {
        Some(UsageFault::RecordAlone)
    } else if task.keys.is_some() && task.replay.is_some() {
        Some(UsageFault::TwoScripts)
    } else if task.drives.len() > DRIVES {
        Some(UsageFault::TooManyDisks)
    } else if task.outs.len() > most {
        Some(out_fault(task.from.is_some()))
    } else if task.out_folders.len() > most {
        Some(folder_fault(task.from.is_some()))
    } else {
        play_fault(task, UsageFault::ProgressAtKeyboard)
    }
}

/// What is wrong first with the words and the options of `boot`. Without a place there is still drive A.
fn boot_fault(task: &PlayTask<'_>) -> Option<UsageFault>
    ensures { result ≡ fault_of_boot task.now }
{
    let most = written_at_most(task, task.drives.len().max(1));
    if task.from.is_some() && has_start(task) {
        Some(UsageFault::FromWithPlace)
    } else if task.keys.is_some() && task.replay.is_some() {
        Some(UsageFault::TwoScripts)
    } else if task.drives.len() > DRIVES {
        Some(UsageFault::TooManyPlaces)
    } else if task.outs.len() > most {
        Some(UsageFault::OutWithoutDrive)
    } else if task.out_folders.len() > most {
        Some(UsageFault::FolderWithoutDrive)
    } else {
        play_fault(task, UsageFault::ProgressAtPrompt)
    }
}

/// What is wrong first with the options of `run`.
fn run_fault(task: &RunTask<'_>) -> Option<UsageFault>
    ensures { result ≡ fault_of_run task.now }
{
    if task.record.is_some() && task.keyboard.is_none() {
        Some(UsageFault::RecordUntyped)
    } else if task.has_progress && task.keyboard.is_some() {
        Some(UsageFault::ProgressAtKeyboard)
    } else if is_zero_count(task.pace) {
        Some(UsageFault::PaceZero)
    } else if task.pace.is_some() && task.keyboard.is_none() {
        Some(UsageFault::PaceUntyped)
    } else if is_zero_count(task.checkpoint) {
        Some(UsageFault::CheckpointZero)
    } else {
        None
    }
}

/// What is wrong first with the words and the options of `debug`.
fn debug_fault(task: &DebugTask<'_>) -> Option<UsageFault>
    ensures { result ≡ fault_of_debug task.now }
{
    if task.file.is_none() && task.from.is_none() {
        Some(UsageFault::NoProgram)
    } else if task.from.is_some() && (task.file.is_some() || is_z80(task.cpu)) {
        Some(UsageFault::FromWithProgram)
    } else if task.system.is_some() && task.from.is_none() {
        Some(UsageFault::SystemWithoutFrom)
    } else {
        None
    }
}

/// Whether a number of frames was given that no host has.
fn is_outside_frames(frames: Option<u64>) -> bool
    ensures { result ≡ is_outside_frames frames }
{
    match frames {
        Some(n) => n < 16 || 16_384 < n,
        None => false,
    }
}

/// What is wrong first with the options of `serve`.
fn serve_fault(task: &ServeTask<'_>) -> Option<UsageFault>
    ensures { result ≡ fault_of_serve task.now }
{
    if is_outside_frames(task.frames) {
        Some(UsageFault::FramesOutside)
    } else if task.journal.is_some() && task.resume.is_some() {
        Some(UsageFault::TwoJournals)
    } else if task.is_compact && task.resume.is_none() {
        Some(UsageFault::CompactWithoutResume)
    } else {
        None
    }
}

/// What is wrong first with the options of the task.
pub(crate) fn options_fault(task: &Task<'_>) -> Option<UsageFault>
    ensures { result ≡ task_fault task.now }
{
    match task {
        Task::Com(com) => com_fault(com),
        Task::Boot(boot) => boot_fault(boot),
        Task::Run(run) => run_fault(run),
        Task::Debug(debug) => debug_fault(debug),
        Task::Serve(serve) => serve_fault(serve),
        _ => None,
    }
}
