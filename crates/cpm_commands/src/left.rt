//! What is written once a machine was played: what it printed, the machine itself, images of its drives, and files of them into folders.
ghost use Rattle.std.specs.Prelude.{◌≡◌, ◌⊎◌, ◌<◌, ◌≤◌, ◌+◌, ◌++◌, [], IfErr, IfOk, IsOk, OnOk, Some, map, option_map, string_bytes, vec_len};
ghost use Rattle.std.specs.Vec.{vec_capacity};
ghost use Rattle.cpm_batch.specs.Outputs.{named_image};
ghost use Rattle.cpm_commands.specs.Files.{AreUnwritten, AreWritten};
ghost use Rattle.cpm_commands.specs.Left.{AreFoldersUnwritten, AreFoldersWritten, HasAllLeft, IsPlayLeft, IsPlayUnleft, IsSeenUnwritten, IsSeenWritten};
ghost use Rattle.cpm_commands.specs.Left.{drive_outputs, named_text, outputs_with, plan_of_left, left_texts_view};
ghost use Rattle.cpm_commands.specs.OutFolder.{AreFoldersUnleft, HasAddedFiles, IsEven, folder_view, unwritten_view};
ghost use Rattle.cpm_commands.specs.Plan.{plan_view};
ghost use Rattle.cpm_store.specs.Writes.{named_output};

use crate::files::{CommandFiles, write_named};
use crate::get::outputs_of;
use crate::out_folder::{FolderStart, LeftFiles, UnwrittenFile, left_files};
use crate::plan::{FilePlan, FileRole, OutputNaming};
use cpm_geom::Image;
use cpm_host::{HostError, PlayTask};
use cpm_store::Output;
use std::alloc::{AllocError, Global};

/// What is written beside the drives: what was printed, where it was kept, and the bytes of the machine, where it was saved.
#[derive(Drop)]
pub(crate) struct LeftTexts {
    pub printed: Option<Vec<u8>>,
    pub saved: Option<Vec<u8>>,
}

/// Adds bytes to what is written, where there are any and a file is named for them.
fn add_text<'a>(
    outputs: &mut Vec<Output<'a>>,
    name: Option<&'a str>,
    bytes: Option<Vec<u8>>,
) -> Result<(), AllocError>
    ensures added { OnOk result (map named_output outputs.new.items
        ≡ map named_output outputs.old.items ++ named_text (option_map (λ n. n.now) name.entry) (option_map (λ v. v.items) bytes)) }
    ensures grown { vec_len outputs.new ≤ vec_len outputs.old + 1 }
    ensures capacity { vec_capacity outputs.old ≤ vec_capacity outputs.new }
    ensures room { vec_len outputs.old < vec_capacity outputs.old → IsOk result }
{
    if let (Some(name), Some(bytes)) = (name, bytes) {
        outputs.push(Output { name, bytes })?;
    }
    Ok(())
}

/// Adds the image of a drive to what is written, if there is one.
fn add_drive<'a>(
    outputs: &mut Vec<Output<'a>>,
    name: &'a str,
    drive: Option<Image>,
) -> Result<(), AllocError>
    ensures added { OnOk result (map named_output outputs.new.items ≡ map named_output outputs.old.items ++ named_image (Some name.now) drive) }
    ensures grown { vec_len outputs.new ≤ vec_len outputs.old + 1 }
    ensures capacity { vec_capacity outputs.old ≤ vec_capacity outputs.new }
    ensures room { vec_len outputs.old < vec_capacity outputs.old → IsOk result }
{
    if let Some(image) = drive {
        outputs.push(Output {
            name,
            bytes: image.into_bytes(),
        })?;
    }
    Ok(())
}

/// Adds the images of the drives A to D, as far as files are named for them. Memory is not refused where there is room for four.
fn add_drives<'a>(
    outputs: &mut Vec<Output<'a>>,
    outs: &[&'a str],
    drives: [Option<Image>; 4],
) -> Result<(), AllocError>
    ensures added { OnOk result (map named_output outputs.new.items
        ≡ map named_output outputs.old.items ++ drive_outputs (map (λ n. n.now) outs.now) drives) }
    ensures room { vec_len outputs.old + 4 ≤ vec_capacity outputs.old → IsOk result }
{
    for (name, drive) in outs.iter().zip(drives) {
        add_drive(outputs, name, drive)?;
    }
    Ok(())
}

/// Writes the texts and the images of the drives A to D, as far as files are named for them, and gives them their names.
fn write_texts_and_drives<'a, F: CommandFiles>(
    outputs: Vec<Output<'a>>,
    task: &PlayTask<'a>,
    texts: LeftTexts,
    drives: [Option<Image>; 4],
    files: &mut F,
) -> Result<(), HostError>
    requires none { outputs.items ≡ [] }
    requires room { 6 ≤ vec_capacity outputs }
    ensures written { OnOk result (AreWritten F.does F.gives_names (outputs_with task.now (left_texts_view texts) drives []) files.old files.new) }
    ensures refusal { IfErr result (AreUnwritten F.does F.gives_names (outputs_with task.now (left_texts_view texts) drives []) files.old files.new) }
{
    let mut outputs = outputs;
    add_text(&mut outputs, task.list, texts.printed)?;
    add_text(&mut outputs, task.save, texts.saved)?;
    add_drives(&mut outputs, &task.outs, drives)?;
    write_named(outputs.as_slice(), files)
}

/// Adds bytes to what is written beside the files of folders, where there are any and a file is named for them.
fn add_text_beside(
    alloc: Global,
    left: &mut LeftFiles,
    name: Option<&str>,
    bytes: Option<Vec<u8>>,
) -> Result<(), AllocError>
    requires { IsEven left.old }
    ensures { OnOk result (HasAddedFiles left.old left.new (named_text (option_map (λ n. n.now) name.entry) (option_map (λ v. v.items) bytes)) []) }
{
    match (name, bytes) {
        (Some(name), Some(bytes)) => left.add_output(String::from_str(alloc, name)?, bytes),
        _ => Ok(()),
    }
}

/// Adds the image of a drive to what is written beside the files of folders, if there is one.
fn add_image(
    alloc: Global,
    left: &mut LeftFiles,
    name: &str,
    drive: Option<Image>,
) -> Result<(), AllocError>
    requires { IsEven left.old }
    ensures { OnOk result (HasAddedFiles left.old left.new (named_image (Some name.now) drive) []) }
{
    match drive {
        Some(image) => left.add_output(String::from_str(alloc, name)?, image.into_bytes()),
        None => Ok(()),
    }
}

/// Adds the images of the drives A to D, as far as files are named for them, to what is written beside the files of folders.
fn add_images(
    alloc: Global,
    left: &mut LeftFiles,
    outs: &[&str],
    drives: [Option<Image>; 4],
) -> Result<(), AllocError>
    requires { IsEven left.old }
    ensures { OnOk result (HasAddedFiles left.old left.new (drive_outputs (map (λ n. n.now) outs.now) drives) []) }
{
    for (name, drive) in outs.iter().zip(drives) {
        add_image(alloc, left, name, drive)?;
    }
    Ok(())
}

/// All that is written where there are folders: their files, the texts, and the images.
fn all_left<F: CommandFiles>(
    alloc: Global,
    task: &PlayTask<'_>,
    starts: &[FolderStart],
    texts: LeftTexts,
    drives: [Option<Image>; 4],
    files: &F,
) -> Result<LeftFiles, HostError>
    ensures left { IfOk result (HasAllLeft F.lists files.now task.now (map folder_view starts.now) (left_texts_view texts) drives) }
    ensures refusal { IfErr result (λ e. AreFoldersUnleft F.unlists files.now (map folder_view starts.now) drives e ⊎ (e ≡ HostError.OutOfMemory)) }
{
    let mut left = left_files(alloc, starts, drives.as_slice(), files)?;
    add_text_beside(alloc, &mut left, task.list, texts.printed)?;
    add_text_beside(alloc, &mut left, task.save, texts.saved)?;
    add_images(alloc, &mut left, &task.outs, drives)?;
    Ok(left)
}

/// A name of its own, if there is one.
fn owned_if_any(alloc: Global, name: Option<&str>) -> Result<Option<String>, AllocError>
    ensures { IfOk result (λ owned. option_map string_bytes owned ≡ option_map (λ n. n.now) name.entry) }
{
    match name {
        Some(name) => Ok(Some(String::from_str(alloc, name)?)),
        None => Ok(None),
    }
}

/// The plan of all that is written where there are folders, with the record of the keys, if there is one.
fn plan_of_left<'a>(
    alloc: Global,
    outputs: &'a [Output<'a>],
    record: &'a Option<String>,
) -> Result<FilePlan<'a>, AllocError>
    ensures { IfOk result (λ p. plan_view p ≡ plan_of_left (map named_output outputs.entry.now) (option_map string_bytes record.entry.now)) }
{
    let mut plan = FilePlan::new(alloc, OutputNaming::ReplacesPlain);
    for output in outputs {
        plan.add_output(output.name, FileRole::Plain)?;
    }
    if let Some(name) = record {
        plan.add_output(name.as_str(), FileRole::Plain)?;
    }
    Ok(plan)
}

/// Sees to all that is written where there are folders, writes it, and gives it its names.
fn write_seen<F: CommandFiles>(
    alloc: Global,
    outputs: &[Output<'_>],
    record: &Option<String>,
    files: &mut F,
) -> Result<(), HostError>
    ensures written { OnOk result (IsSeenWritten F.does F.sees_to F.gives_names (map named_output outputs.now) (option_map string_bytes record.now)
        files.old files.new) }
    ensures refusal { IfErr result (IsSeenUnwritten F.does F.sees_to F.gives_names (map named_output outputs.now) (option_map string_bytes record.now)
        files.old files.new) }
{
    let plan = plan_of_left(alloc, outputs, record)?;
    files.see_to(&plan)?;
    write_named(outputs, files)
}

/// Writes the files of drives into their folders, the texts, and images, and gives them their names. What is not written is given.
fn write_folders<F: CommandFiles>(
    alloc: Global,
    task: &PlayTask<'_>,
    starts: &[FolderStart],
    texts: LeftTexts,
    drives: [Option<Image>; 4],
    files: &mut F,
) -> Result<Vec<UnwrittenFile>, HostError>
    ensures left { IfOk result (λ u. AreFoldersWritten
        (record { does = F.does; sees_to = F.sees_to; gives_names = F.gives_names; lists = F.lists; unlists = F.unlists })
        task.now (map folder_view starts.now) (left_texts_view texts) drives files.old files.new (map unwritten_view u.items)) }
    ensures refusal { IfErr result (AreFoldersUnwritten
        (record { does = F.does; sees_to = F.sees_to; gives_names = F.gives_names; lists = F.lists; unlists = F.unlists })
        task.now (map folder_view starts.now) (left_texts_view texts) drives files.old files.new) }
{
    let LeftFiles {
        paths,
        contents,
        unwritten,
    } = all_left(alloc, task, starts, texts, drives, files)?;
    let outputs = outputs_of(alloc, paths.as_slice(), contents)?;
    let record = owned_if_any(alloc, task.record)?;
    write_seen(alloc, outputs.as_slice(), &record, files)?;
    Ok(unwritten)
}

/// Writes what was played: what it printed, the machine, images, and the files of drives that have folders. What is not written into these is given.
pub(crate) fn write_left<'a, F: CommandFiles>(
    alloc: Global,
    task: &PlayTask<'a>,
    starts: &[FolderStart],
    room: Vec<Output<'a>>,
    texts: LeftTexts,
    drives: [Option<Image>; 4],
    files: &mut F,
) -> Result<Vec<UnwrittenFile>, HostError>
    requires none { room.items ≡ [] }
    requires room { 6 ≤ vec_capacity room }
    ensures left { IfOk result (λ u. IsPlayLeft
        (record { does = F.does; sees_to = F.sees_to; gives_names = F.gives_names; lists = F.lists; unlists = F.unlists })
        task.now (map folder_view starts.now) (left_texts_view texts) drives files.old files.new (map unwritten_view u.items)) }
    ensures refusal { IfErr result (IsPlayUnleft
        (record { does = F.does; sees_to = F.sees_to; gives_names = F.gives_names; lists = F.lists; unlists = F.unlists })
        task.now (map folder_view starts.now) (left_texts_view texts) drives files.old files.new) }
{
    if task.out_folders.is_empty() {
        write_texts_and_drives(room, task, texts, drives, files)?;
        Ok(Vec::new(alloc))
    } else {
        write_folders(alloc, task, starts, texts, drives, files)
    }
}
