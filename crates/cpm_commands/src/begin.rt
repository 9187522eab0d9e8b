//! What a machine begins with, and its keys: read of their files.
ghost use Rattle.std.specs.Prelude.{◌≡◌, IfErr, IfOk, is_some, map, option_map};
ghost use Rattle.cpm_commands.specs.Play.{AreCuesRead, AreCuesRefused, AreKeysRead, AreKeysRefused, AreRecordedRead, AreRecordedRefused};
ghost use Rattle.cpm_commands.specs.Play.{IsProgramRead, IsProgramUnread, IsSavedRead, IsSavedUnread, IsStartRead, IsStartRefused};
ghost use Rattle.cpm_commands.specs.Play.{IsSystemRead, IsSystemUnread, IsTailOf};
ghost use Rattle.cpm_host.specs.Program.{AreFit, program_given};
ghost use Rattle.cpm_batch.specs.Savings.{saving_view};
ghost use Rattle.cpm_host.specs.Tails.{IsTailRefusal};

use crate::disk::read_image;
use crate::drives::{DrivePlace, read_drives};
use crate::files::{CommandFiles, read_file};
use cpm_geom::Image;
use cpm_host::{
    Cue, HostError, PlayTask, ProgramStart, SavedMachine, Tail, cues_of, recorded_cues_of,
    saved_machine_of, tail_of,
};
use std::alloc::Global;

/// The tail that is left in the memory: none where there is no program, or neither a word of it nor a disk.
pub(crate) fn tail_if_any(alloc: Global, task: &PlayTask<'_>) -> Result<Option<Tail>, HostError>
    ensures tail { IfOk result (IsTailOf task.now) }
    ensures refusal { IfErr result (IsTailRefusal (map (λ w. w.now) task.now.tail.items)) }
{
    if task.file.is_none() || (task.tail.is_empty() && task.drives.is_empty()) {
        return Ok(None);
    }
    Ok(Some(tail_of(alloc, &task.tail)?))
}

/// The program in a file, if one is named.
fn read_program<F: CommandFiles>(
    alloc: Global,
    name: Option<&str>,
    files: &mut F,
) -> Result<Option<Vec<u8>>, HostError>
    ensures read { IfOk result (λ p. IsProgramRead F.does (option_map (λ n. n.now) name.entry) files.old files.new (option_map (λ v. v.items) p)) }
    ensures refusal { IfErr result (IsProgramUnread F.does (option_map (λ n. n.now) name.entry) files.old files.new) }
{
    match name {
        Some(name) => Ok(Some(read_file(alloc, files, name)?)),
        None => Ok(None),
    }
}

/// The machine that was saved in a file, if one is named.
fn read_saved<F: CommandFiles>(
    alloc: Global,
    name: Option<&str>,
    files: &mut F,
) -> Result<Option<Box<SavedMachine>>, HostError>
    ensures read { IfOk result (λ s. IsSavedRead F.does (option_map (λ n. n.now) name.entry) files.old files.new (option_map (λ b. saving_view b.value) s)) }
    ensures refusal { IfErr result (IsSavedUnread F.does (option_map (λ n. n.now) name.entry) files.old files.new) }
{
    let Some(name) = name else {
        return Ok(None);
    };
    let bytes = read_file(alloc, files, name)?;
    Ok(Some(saved_machine_of(alloc, name, bytes.as_slice())?))
}

/// The system drive in a file, if one is named.
pub(crate) fn read_system<F: CommandFiles>(
    alloc: Global,
    name: Option<&str>,
    files: &mut F,
) -> Result<Option<Image>, HostError>
    ensures read { IfOk result (IsSystemRead F.does (option_map (λ n. n.now) name.entry) files.old files.new) }
    ensures refusal { IfErr result (IsSystemUnread F.does (option_map (λ n. n.now) name.entry) files.old files.new) }
{
    match name {
        Some(name) => Ok(Some(read_image(alloc, name, files)?)),
        None => Ok(None),
    }
}

/// What a machine begins with: a saved machine, or a program and its drives, and then the system drive, each read and checked before the next.
pub(crate) fn read_start<F: CommandFiles>(
    alloc: Global,
    task: &PlayTask<'_>,
    places: &[DrivePlace<'_>],
    tail: Option<Tail>,
    files: &mut F,
) -> Result<ProgramStart, HostError>
    ensures read { IfOk result (λ start. IsStartRead F.does task.now places.now tail files.old files.new (program_given start)) }
    ensures saves { IfOk result (λ start. start.is_saved ≡ is_some task.now.save) }
    ensures refusal { IfErr result (IsStartRefused F.does task.now places.now files.old files.new) }
{
    let saved = read_saved(alloc, task.from, files)?;
    let program = read_program(alloc, task.file, files)?;
    let mut start = ProgramStart {
        cpu: task.cpu,
        program,
        tail,
        drives: Vec::new(alloc),
        system: None,
        saved,
        is_saved: task.save.is_some(),
    };
    start.check()?;
    start.drives = read_drives(alloc, places, files)?;
    start.check()?;
    start.system = read_system(alloc, task.system, files)?;
    Ok(start)
}

/// What the script in a file says, if there is one.
fn read_script<F: CommandFiles>(
    alloc: Global,
    name: Option<&str>,
    files: &mut F,
) -> Result<Vec<Cue>, HostError>
    ensures read { IfOk result (λ v. AreCuesRead F.does (option_map (λ n. n.now) name.entry) files.old files.new v.items) }
    ensures fit { IfOk result (λ v. AreFit v.items) }
    ensures refusal { IfErr result (AreCuesRefused F.does (option_map (λ n. n.now) name.entry) files.old files.new) }
{
    let Some(name) = name else {
        return Ok(Vec::new(alloc));
    };
    let text = read_file(alloc, files, name)?;
    cues_of(alloc, name, text.as_slice())
}

/// The keys of the recording in a file, if there is one, as what a script says.
fn read_recorded<F: CommandFiles>(
    alloc: Global,
    name: Option<&str>,
    files: &mut F,
) -> Result<Vec<Cue>, HostError>
    ensures read { IfOk result (λ v. AreRecordedRead F.does (option_map (λ n. n.now) name.entry) files.old files.new v.items) }
    ensures fit { IfOk result (λ v. AreFit v.items) }
    ensures refusal { IfErr result (AreRecordedRefused F.does (option_map (λ n. n.now) name.entry) files.old files.new) }
{
    let Some(name) = name else {
        return Ok(Vec::new(alloc));
    };
    let text = read_file(alloc, files, name)?;
    recorded_cues_of(alloc, name, text.as_slice())
}

/// What the program is played by before anybody types: its script, or else a recording.
pub(crate) fn read_keys<F: CommandFiles>(
    alloc: Global,
    task: &PlayTask<'_>,
    files: &mut F,
) -> Result<Vec<Cue>, HostError>
    ensures read { IfOk result (λ v. AreKeysRead F.does task.now files.old files.new v.items) }
    ensures fit { IfOk result (λ v. AreFit v.items) }
    ensures refusal { IfErr result (AreKeysRefused F.does task.now files.old files.new) }
{
    if task.keys.is_some() {
        read_script(alloc, task.keys, files)
    } else {
        read_recorded(alloc, task.replay, files)
    }
}
