//! The command `disk get`: files are taken out of an image.
ghost use Rattle.std.specs.Prelude.{◌≡◌, ◌<◌, [], ◌∷◌, ◌++◌, ◌⊎◌, IfErr, IfOk, OnOk, map, option_map, string_bytes};
ghost use Rattle.std.specs.Io.KnownBytes.{Appends};
ghost use Rattle.cpm_shown.specs.Shown.{shown_of};
ghost use Rattle.cpm_store.specs.Writes.{named_output};
ghost use Rattle.cpm_commands.specs.Get.{AreFilesTaken, HasGot, HasNoPath, HasPath, HasTakenNamed};
ghost use Rattle.cpm_commands.specs.Get.{IsCrowded, IsDestination, IsFileTaken, IsFileUntaken, IsGetEnded, IsGetRefused, IsGetUnended, IsNoFolder};
ghost use Rattle.cpm_commands.specs.Get.{IsTakingRefused, IsTakingStopped, naming_of, path_line, path_of, paths_text, plan_of_get, taken_outputs};
ghost use Rattle.cpm_commands.specs.Plan.{plan_view};
ghost use Rattle.cpm_commands.specs.Report.{IsUnprinted};

use crate::disk::{files_named, read_image};
use crate::files::{CommandFiles, write_named};
use crate::plan::{FilePlan, FileRole, OutputNaming};
use cpm_disk_commands::{get_file, host_name};
use cpm_geom::Image;
use cpm_host::{HostError, ShownWord, shown};
use cpm_image_files::FileName;
use cpm_store::Output;
use std::alloc::{AllocError, Global};
use std::io;
use std::io::Write;
use std::path::Path;

/// How files are taken out of an image.
#[derive(Clone, Copy, Drop)]
pub struct GetOptions<'a> {
    pub is_text: bool,
    /// The folder that they go to, or the file that the one goes to.
    pub to: Option<&'a str>,
    /// Whether files that are there are replaced.
    pub is_forced: bool,
    /// Whether the files are only told.
    pub is_dry: bool,
}

/// Where files go that are taken out of an image.
#[derive(Clone, Copy)]
enum Destination<'a> {
    /// Into the current folder.
    Current,
    /// Into this folder.
    Folder(&'a str),
    /// To this file.
    OneFile(&'a str),
}

/// Files that were taken out of an image: the path to which each is to go, and its bytes.
#[derive(Drop)]
struct TakenFiles {
    paths: Vec<String>,
    contents: Vec<Vec<u8>>,
}

/// Where files go, by the name that is given for it, if one is.
fn destination_of<'a, F: CommandFiles>(to: Option<&'a str>, files: &F) -> Destination<'a>
    ensures { IsDestination (F.tells_folder files.now) (option_map (λ n. n.now) to.entry) result }
{
    match to {
        Some(name) if files.is_folder(name) => Destination::Folder(name),
        Some(name) => Destination::OneFile(name),
        None => Destination::Current,
    }
}

/// Where a file goes that is taken out of an image: to the one file, or by its own name into the folder.
fn path_of(
    alloc: Global,
    image: &str,
    file: &FileName,
    to: Destination<'_>,
) -> Result<String, HostError>
    ensures path { IfOk result (λ s. HasPath to.entry file.now × (string_bytes s ≡ path_of to.entry file.now)) }
    ensures refusal { IfErr result (λ e. (e ≡ HostError.OutOfMemory) ⊎ HasNoPath image.now to.entry file.now e) }
{
    match to {
        Destination::Current => {
            let name = host_name(image, file)?;
            Ok(String::from_str(alloc, name.as_str())?)
        }
        Destination::Folder(folder) => {
            let name = host_name(image, file)?;
            let path = Path::new(folder).join(alloc, name.as_str())?;
            Ok(path.into_string())
        }
        Destination::OneFile(path) => Ok(String::from_str(alloc, path)?),
    }
}

/// Takes a file out of an image: its path, and its bytes.
fn take_file(
    alloc: Global,
    image: &Image,
    name: &str,
    file: &FileName,
    to: Destination<'_>,
    is_text: bool,
) -> Result<(String, Vec<u8>), HostError>
    ensures taken { IfOk result (λ t. IsFileTaken image.now to.entry is_text file.now (string_bytes t.0, t.1.items)) }
    ensures refusal { IfErr result (λ e. IsFileUntaken name.now image.now to.entry file.now e) }
{
    let path = path_of(alloc, name, file, to)?;
    let bytes = get_file(alloc, image, name, file, is_text)?;
    Ok((path, bytes))
}

/// Takes files out of an image.
fn take_all(
    alloc: Global,
    image: &Image,
    name: &str,
    named: &[FileName],
    to: Destination<'_>,
    is_text: bool,
) -> Result<TakenFiles, HostError>
    ensures taken { IfOk result (λ t. AreFilesTaken image.now to.entry is_text named.now (taken_outputs t.paths.items t.contents.items)) }
    ensures refusal { IfErr result (λ e. IsTakingStopped name.now image.now to.entry is_text named.now e) }
{
    let mut paths = Vec::new(alloc);
    let mut contents = Vec::new(alloc);
    for file in named {
        let (path, bytes) = take_file(alloc, image, name, file, to, is_text)?;
        paths.push(path)?;
        contents.push(bytes)?;
    }
    Ok(TakenFiles { paths, contents })
}

/// Refuses several files that are to go to one.
fn check_room(to: Destination<'_>, named: &[FileName]) -> Result<(), HostError>
    ensures room { OnOk result (¬ IsCrowded to.entry named.now) }
    ensures refusal { IfErr result (λ e. IsCrowded to.entry named.now × IsNoFolder to.entry e) }
{
    match to {
        Destination::OneFile(name) if named.len() > 1 => Err(HostError::NotAFolder(shown(name))),
        _ => Ok(()),
    }
}

/// Takes the files that patterns name out of an image.
fn take_named<F: CommandFiles>(
    alloc: Global,
    image: &Image,
    name: &str,
    patterns: &[&str],
    user: u8,
    how: GetOptions<'_>,
    files: &F,
) -> Result<TakenFiles, HostError>
    requires { user < 16 }
    ensures taken { IfOk result (λ t. HasTakenNamed (F.tells_folder files.now) image.now (map (λ w. w.now) patterns.now) user how.entry
        (taken_outputs t.paths.items t.contents.items)) }
    ensures refusal { IfErr result (λ e. IsTakingRefused (F.tells_folder files.now) name.now image.now (map (λ w. w.now) patterns.now) user how.entry e) }
{
    let named = files_named(alloc, image, name, patterns, user)?;
    let to = destination_of(how.to, files);
    check_room(to, named.as_slice())?;
    take_all(alloc, image, name, named.as_slice(), to, how.is_text)
}

/// What is written of files that were taken.
pub(crate) fn outputs_of<'a>(
    alloc: Global,
    paths: &'a [String],
    contents: Vec<Vec<u8>>,
) -> Result<Vec<Output<'a>>, AllocError>
    ensures { IfOk result (λ v. map named_output v.items ≡ taken_outputs paths.entry.now contents.items) }
{
    let mut outputs = Vec::new(alloc);
    for (path, bytes) in paths.iter().zip(contents) {
        outputs.push(Output {
            name: path.as_str(),
            bytes,
        })?;
    }
    Ok(outputs)
}

/// How the files take their names.
fn naming_of(is_forced: bool) -> OutputNaming
    ensures { result ≡ naming_of is_forced }
{
    if is_forced {
        OutputNaming::ReplacesPlain
    } else {
        OutputNaming::New
    }
}

/// The files that `disk get` names, once they were taken.
fn plan_of<'a>(
    alloc: Global,
    image: &'a str,
    outputs: &'a [Output<'a>],
    is_forced: bool,
) -> Result<FilePlan<'a>, AllocError>
    ensures { IfOk result (λ p. plan_view p ≡ plan_of_get image.now (map named_output outputs.now) is_forced) }
{
    let mut plan = FilePlan::new(alloc, naming_of(is_forced));
    plan.add_input(image, FileRole::Image)?;
    for output in outputs {
        plan.add_output(output.name, FileRole::Plain)?;
    }
    Ok(plan)
}

/// A character as a message shows it.
fn shown_character(c: char) -> ShownWord
    ensures { result.bytes ≡ shown_of (c ∷ []) }
{
    let mut room = [0; 4];
    shown(c.encode_utf8(&mut room))
}

/// Adds a path as it stands on a line, with `?` for what a refusal doesn't show either.
fn add_path(text: &mut String, path: &str) -> Result<(), AllocError>
    ensures { OnOk result (string_bytes text.new ≡ string_bytes text.old ++ path_line path.now) }
{
    for c in path.chars() {
        text.push_str(shown_character(c).as_str())?;
    }
    text.push('\n')?;
    Ok(())
}

/// The paths of files, a line each.
fn text_of(alloc: Global, outputs: &[Output<'_>]) -> Result<String, AllocError>
    ensures { IfOk result (λ text. string_bytes text ≡ paths_text (map named_output outputs.now)) }
{
    let mut text = String::new(alloc);
    for output in outputs {
        add_path(&mut text, output.name)?;
    }
    Ok(text)
}

/// Writes a text.
fn write_text<W: Write>(out: &mut W, text: &str) -> io::Result<()>
    ensures { OnOk result (Appends (W.contents out.old) (W.contents out.new) text.now) }
{
    out.write_all(text.as_bytes())?;
    out.flush()?;
    Ok(())
}

/// Prints the paths to which files would be written.
fn print_paths<W: Write>(
    alloc: Global,
    outputs: &[Output<'_>],
    out: &mut W,
) -> Result<(), HostError>
    ensures printed { OnOk result (Appends (W.contents out.old) (W.contents out.new) (paths_text (map named_output outputs.now))) }
    ensures refusal { IfErr result IsUnprinted }
{
    let text = text_of(alloc, outputs)?;
    match write_text(out, text.as_str()) {
        Ok(()) => Ok(()),
        Err(reason) => Err(HostError::OutputUnwritable(reason)),
    }
}

/// Prints the paths to which files would be written, if no more is asked; else writes them.
fn end_get<F: CommandFiles, W: Write>(
    alloc: Global,
    outputs: &[Output<'_>],
    is_dry: bool,
    files: &mut F,
    out: &mut W,
) -> Result<(), HostError>
    ensures ended { OnOk result (IsGetEnded F.does F.gives_names is_dry (map named_output outputs.now) files.old files.new
        (W.contents out.old) (W.contents out.new) out.old out.new) }
    ensures refusal { IfErr result (λ e. IsGetUnended F.does F.gives_names is_dry (map named_output outputs.now) files.old files.new out.old out.new e) }
{
    if is_dry {
        print_paths(alloc, outputs, out)
    } else {
        write_named(outputs, files)
    }
}

/// Takes the files that patterns name out of an image: into a folder, by their names in small letters, or the one file to a file. Nothing is written before all
/// of them were read and each of them can be written.
pub fn get_files<F: CommandFiles, W: Write>(
    alloc: Global,
    name: &str,
    patterns: &[&str],
    user: u8,
    how: GetOptions<'_>,
    files: &mut F,
    out: &mut W,
) -> Result<(), HostError>
    requires { user < 16 }
    ensures got { OnOk result (HasGot F.does F.sees_to F.gives_names F.tells_folder name.now (map (λ w. w.now) patterns.now) user how.entry
        files.old files.new (W.contents out.old) (W.contents out.new) out.old out.new) }
    ensures refusal { IfErr result (λ e. IsGetRefused F.does F.sees_to F.gives_names F.tells_folder name.now (map (λ w. w.now) patterns.now) user how.entry
        files.old files.new out.old out.new e) }
{
    let image = read_image(alloc, name, files)?;
    let TakenFiles { paths, contents } = take_named(
        alloc, &image, name, patterns, user, how, files,
    )?;
    let outputs = outputs_of(alloc, paths.as_slice(), contents)?;
    let plan = plan_of(alloc, name, outputs.as_slice(), how.is_forced)?;
    files.see_to(&plan)?;
    end_get(alloc, outputs.as_slice(), how.is_dry, files, out)
}
