//! The commands on disk images that change one or list its files.
ghost use Rattle.std.specs.Prelude.{◌≡◌, ◌<◌, [], IfErr, IfOk, OnOk, map};
ghost use Rattle.cpm_commands.specs.Disk.{ArePut, AreNamedOn, AreRemoved, HasChanged, HasListedDisk, HasMadeDisk, HasRemoved, HasRenamedOn};
ghost use Rattle.cpm_commands.specs.Disk.{IsChangeRefused, IsDiskListRefused, IsFilePut, IsFileUnput, IsDiskRead, IsDiskUnread};
ghost use Rattle.cpm_commands.specs.Disk.{IsNewRefused, IsNoRename, IsNotRemoved, IsDiskOpened, IsPutNamed, IsPutStopped};
ghost use Rattle.cpm_commands.specs.Disk.{IsPutUnnamed, IsPutWord, IsRemovalStopped, IsRename, IsRenameRefused, IsUnnamedOn, IsDiskUnopened};
ghost use Rattle.cpm_commands.specs.Disk.{disk_outputs, is_file_among, plan_of_change, plan_of_new, with_new};
ghost use Rattle.cpm_commands.specs.Files.{AreUnwritten, AreWritten};
ghost use Rattle.cpm_commands.specs.Plan.{plan_view};

use crate::files::{CommandFiles, read_file, write_named};
use crate::plan::{FilePlan, FileRole, OutputNaming};
use cpm_disk_commands::{
    DiskCommandError, base_name, check_new, file_name, image_of, list_files, matching_files,
    new_image, put_file, remove_file, rename_file, split_pair, write_list,
};
use cpm_geom::Image;
use cpm_host::{HostError, shown};
use cpm_image_files::FileName;
use cpm_store::Output;
use std::alloc::{AllocError, Global};
use std::io::Write;

/// The image in a file.
pub(crate) fn read_image<F: CommandFiles>(
    alloc: Global,
    name: &str,
    files: &mut F,
) -> Result<Image, HostError>
    ensures read { IfOk result (λ d. IsDiskRead F.does name.now files.old files.new d) }
    ensures refusal { IfErr result (λ e. IsDiskUnread F.does name.now files.old files.new e) }
{
    let bytes = read_file(alloc, files, name)?;
    Ok(image_of(name, bytes)?)
}

/// Makes a file hold an image, and gives it its name.
fn write_image<F: CommandFiles>(name: &str, image: Image, files: &mut F) -> Result<(), HostError>
    ensures written { OnOk result (AreWritten F.does F.gives_names (disk_outputs name.now image) files.old files.new) }
    ensures refusal { IfErr result (AreUnwritten F.does F.gives_names (disk_outputs name.now image) files.old files.new) }
{
    let outputs = [Output {
        name,
        bytes: image.into_bytes(),
    }];
    write_named(&outputs, files)
}

/// The file of an image that is made.
fn plan_of_new<'a>(alloc: Global, name: &'a str) -> Result<FilePlan<'a>, AllocError>
    ensures { IfOk result (λ p. plan_view p ≡ plan_of_new name.now) }
{
    let mut plan = FilePlan::new(alloc, OutputNaming::New);
    plan.add_output(name, FileRole::Image)?;
    Ok(plan)
}

/// The file of an image that is changed: it is read, and then written.
fn plan_of_change<'a>(alloc: Global, name: &'a str) -> Result<FilePlan<'a>, AllocError>
    ensures { IfOk result (λ p. plan_view p ≡ plan_of_change name.now) }
{
    let mut plan = FilePlan::new(alloc, OutputNaming::Replaces);
    plan.add_input(name, FileRole::Image)?;
    plan.add_output(name, FileRole::Image)?;
    Ok(plan)
}

/// Makes a file that isn't there yet hold a blank disk, a large one or a small one.
pub fn new_disk<F: CommandFiles>(
    alloc: Global,
    name: &str,
    is_large: bool,
    files: &mut F,
) -> Result<(), HostError>
    ensures made { OnOk result (HasMadeDisk F.does F.sees_to F.gives_names name.now is_large files.old files.new) }
    ensures refusal { IfErr result (λ e. IsNewRefused F.does F.sees_to F.gives_names name.now is_large files.old files.new e) }
{
    let plan = plan_of_new(alloc, name)?;
    files.see_to(&plan)?;
    let image = new_image(alloc, is_large)?;
    write_image(name, image, files)
}

/// Prints a line for each file of an image, or for each of one user.
pub fn list_disk<F: CommandFiles, W: Write>(
    alloc: Global,
    name: &str,
    user: Option<u8>,
    files: &mut F,
    out: &mut W,
) -> Result<(), HostError>
    ensures listed { OnOk result (HasListedDisk F.does name.now user files.old files.new (W.contents out.old) (W.contents out.new)) }
    ensures refusal { IfErr result (λ e. IsDiskListRefused F.does name.now files.old files.new out.old out.new e) }
{
    let image = read_image(alloc, name, files)?;
    let listing = list_files(alloc, &image, name)?;
    write_list(alloc, image.format(), &listing, user, out)?;
    Ok(())
}

/// Sees to the file of an image that is to be changed, and reads it.
fn open_image<F: CommandFiles>(alloc: Global, name: &str, files: &mut F) -> Result<Image, HostError>
    ensures opened { IfOk result (λ d. IsDiskOpened F.does F.sees_to name.now files.old files.new d) }
    ensures refusal { IfErr result (λ e. IsDiskUnopened F.does F.sees_to name.now files.old files.new e) }
{
    let plan = plan_of_change(alloc, name)?;
    files.see_to(&plan)?;
    read_image(alloc, name, files)
}

/// How files are put into an image.
#[derive(Clone, Copy, Drop)]
pub struct PutOptions {
    pub is_text: bool,
    pub is_read_only: bool,
    pub is_system: bool,
}

/// The path of a file of the host and the text of its name on a disk, as a word gives them: FILE=NAME.TYP, or FILE alone.
fn split_word(word: &str) -> (&str, &str)
    ensures { IsPutWord word.now result.0.now result.1.now }
{
    match split_pair(word) {
        Some(pair) => pair,
        None => (word, base_name(word)),
    }
}

/// The path of the file of the host that a word names, and the file of a disk, which is none of those before it.
fn named_by<'a>(
    word: &'a str,
    user: u8,
    how: PutOptions,
    before: &[FileName],
) -> Result<(&'a str, FileName), HostError>
    requires { user < 16 }
    ensures named { IfOk result (λ p. IsPutNamed word.now user how before.now p.0.now p.1) }
    ensures refusal { IfErr result (λ e. IsPutUnnamed word.now user how before.now e) }
{
    let (path, text) = split_word(word);
    let file = file_name(text, user, how.is_read_only, how.is_system)?;
    check_new(before, &file, word)?;
    Ok((path, file))
}

/// An image with one more file, which has what the file of a path has.
fn put_path<F: CommandFiles>(
    alloc: Global,
    image: &Image,
    name: &str,
    file: &FileName,
    path: &str,
    is_text: bool,
    files: &mut F,
) -> Result<Image, HostError>
    ensures put { IfOk result (λ d. IsFilePut F.does path.now file.now is_text image.now d files.old files.new) }
    ensures refusal { IfErr result (λ e. IsFileUnput F.does name.now path.now file.now is_text image.now files.old files.new e) }
{
    let bytes = read_file(alloc, files, path)?;
    Ok(put_file(alloc, image, name, file, is_text, bytes.as_slice())?)
}

/// An image with the files that words name, each put after those before it.
fn put_words<F: CommandFiles>(
    alloc: Global,
    image: Image,
    name: &str,
    words: &[&str],
    user: u8,
    how: PutOptions,
    files: &mut F,
) -> Result<Image, HostError>
    requires { user < 16 }
    ensures put { IfOk result (λ d. ArePut F.does user how [] (map (λ w. w.now) words.now) image d files.old files.new) }
    ensures refusal { IfErr result (λ e. IsPutStopped F.does name.now user how [] (map (λ w. w.now) words.now) image files.old files.new e) }
{
    let mut image = image;
    let mut before: Vec<FileName> = Vec::new(alloc);
    for word in words {
        let (path, file) = named_by(word, user, how, before.as_slice())?;
        before.push(file)?;
        image = put_path(alloc, &image, name, &file, path, how.is_text, files)?;
    }
    Ok(image)
}

/// Puts files into an image, each FILE or FILE=NAME.TYP; all of them or none.
pub fn put_files<F: CommandFiles>(
    alloc: Global,
    name: &str,
    words: &[&str],
    user: u8,
    how: PutOptions,
    files: &mut F,
) -> Result<(), HostError>
    requires { user < 16 }
    ensures put { OnOk result (HasChanged F.does F.sees_to F.gives_names name.now
        (ArePut F.does user how [] (map (λ w. w.now) words.now)) files.old files.new) }
    ensures refusal { IfErr result (λ e. IsChangeRefused F.does F.sees_to F.gives_names name.now
        (ArePut F.does user how [] (map (λ w. w.now) words.now))
        (IsPutStopped F.does name.now user how [] (map (λ w. w.now) words.now)) files.old files.new e) }
{
    let image = open_image(alloc, name, files)?;
    let image = put_words(alloc, image, name, words, user, how, files)?;
    write_image(name, image, files)
}

/// Whether a file is one of these.
fn is_file_among(file: &FileName, files: &[FileName]) -> bool
    ensures { result ≡ is_file_among file.now files.now }
{
    files.contains(file)
}

/// Adds those of the files that aren't there yet.
fn add_new(files: &mut Vec<FileName>, others: &[FileName]) -> Result<(), AllocError>
    ensures { OnOk result (files.new.items ≡ with_new files.old.items others.now) }
{
    for file in others {
        if !is_file_among(file, files.as_slice()) {
            files.push(*file)?;
        }
    }
    Ok(())
}

/// The files of a user whose names match one of these patterns, each once.
pub(crate) fn files_named(
    alloc: Global,
    image: &Image,
    name: &str,
    patterns: &[&str],
    user: u8,
) -> Result<Vec<FileName>, HostError>
    requires { user < 16 }
    ensures named { IfOk result (λ v. AreNamedOn image.now (map (λ w. w.now) patterns.now) user v.items) }
    ensures refusal { IfErr result (λ e. IsUnnamedOn name.now image.now (map (λ w. w.now) patterns.now) user e) }
{
    let listing = list_files(alloc, image, name)?;
    let mut named: Vec<FileName> = Vec::new(alloc);
    for pattern in patterns {
        let found = matching_files(alloc, &listing.files, name, user, pattern)?;
        add_new(&mut named, found.as_slice())?;
    }
    Ok(named)
}

/// An image without these files.
fn remove_all(
    alloc: Global,
    image: Image,
    name: &str,
    named: &[FileName],
) -> Result<Image, HostError>
    ensures removed { IfOk result (λ d. AreRemoved named.now image d) }
    ensures refusal { IfErr result (λ e. IsRemovalStopped name.now named.now image e) }
{
    let mut image = image;
    for file in named {
        image = remove_file(alloc, &image, name, file)?;
    }
    Ok(image)
}

/// Removes the files that patterns name from an image; all of them or none.
pub fn remove_from_disk<F: CommandFiles>(
    alloc: Global,
    name: &str,
    patterns: &[&str],
    user: u8,
    files: &mut F,
) -> Result<(), HostError>
    requires { user < 16 }
    ensures removed { OnOk result (HasChanged F.does F.sees_to F.gives_names name.now
        (HasRemoved (map (λ w. w.now) patterns.now) user) files.old files.new) }
    ensures refusal { IfErr result (λ e. IsChangeRefused F.does F.sees_to F.gives_names name.now
        (HasRemoved (map (λ w. w.now) patterns.now) user)
        (IsNotRemoved name.now (map (λ w. w.now) patterns.now) user) files.old files.new e) }
{
    let image = open_image(alloc, name, files)?;
    let named = files_named(alloc, &image, name, patterns, user)?;
    let image = remove_all(alloc, image, name, named.as_slice())?;
    write_image(name, image, files)
}

/// The new name and the old one that NEW=OLD gives.
fn rename_of(change: &str, user: u8) -> Result<(FileName, FileName), HostError>
    requires { user < 16 }
    ensures names { IfOk result (λ p. IsRename change.now user p.1 p.0) }
    ensures refusal { IfErr result (λ e. IsNoRename change.now user e) }
{
    let Some((new, old)) = split_pair(change) else {
        return Err(HostError::from(DiskCommandError::NotPair(shown(change))));
    };
    let new = file_name(new, user, false, false)?;
    let old = file_name(old, user, false, false)?;
    Ok((new, old))
}

/// Gives a file of an image another name, as NEW=OLD says.
pub fn rename_on_disk<F: CommandFiles>(
    alloc: Global,
    name: &str,
    change: &str,
    user: u8,
    files: &mut F,
) -> Result<(), HostError>
    requires { user < 16 }
    ensures renamed { OnOk result (HasRenamedOn F.does F.sees_to F.gives_names name.now change.now user files.old files.new) }
    ensures refusal { IfErr result (λ e. IsRenameRefused F.does F.sees_to F.gives_names name.now change.now user files.old files.new e) }
{
    let (new_file, file) = rename_of(change, user)?;
    let image = open_image(alloc, name, files)?;
    let image = rename_file(alloc, &image, name, &file, &new_file)?;
    write_image(name, image, files)
}
