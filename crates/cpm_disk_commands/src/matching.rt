//! The files of a disk that a pattern names.

ghost use Rattle.std.specs.Prelude.{◌≡◌, ◌≢◌, ◌<◌, true, false, IfErr, IfOk, MatchOption, MatchResult, List, [], map};
ghost use Rattle.std.specs.List.{list_all, zip};
ghost use Rattle.cpm_volume.specs.Files.{has_wildcard, name_matches, wildcard_or_same};
ghost use Rattle.cpm_disk_commands.specs.Matching.{is_meant, listed, meant, AreMeant, IsMatchRefusal};
ghost use Rattle.cpm_disk_commands.specs.Refusals.{file_named};

use crate::error::DiskCommandError;
use crate::names::pattern_of;
use cpm_image_files::{DiskFile, FileName};
use cpm_shown::shown;
use std::alloc::{AllocError, Global};

/// The files of a user whose names match a pattern, in the order of a disk's list; the name is that of the image's file.
/// `NotPattern` where the text is none, and `NoFile` where no name matches.
pub fn matching_files(
    alloc: Global,
    files: &[DiskFile],
    name: &str,
    user: u8,
    pattern: &str,
) -> Result<Vec<FileName>, DiskCommandError>
    requires { user < 16 }
    ensures { MatchResult result
        (λ found. AreMeant pattern.now user files.now (map file_named found.items))
        (λ e. IsMatchRefusal name.now pattern.now user files.now e) }
{
    let Some(wanted) = pattern_of(pattern) else {
        return Err(DiskCommandError::NotPattern(shown(pattern)));
    };
    match files_of(alloc, files, user, &wanted) {
        Ok(found) if found.is_empty() => Err(DiskCommandError::NoFile {
            image: shown(name),
            pattern: shown(pattern),
            user,
        }),
        Ok(found) => Ok(found),
        Err(_) => Err(DiskCommandError::OutOfMemory),
    }
}

/// The files of a user that match; where there is one, refused if out of memory.
fn files_of(
    alloc: Global,
    files: &[DiskFile],
    user: u8,
    pattern: &[u8; 11],
) -> Result<Vec<FileName>, AllocError>
    requires { user < 16 }
    ensures found { IfOk result (λ found. map file_named found.items ≡ meant user pattern.now files.now) }
    ensures some { IfErr result (λ _. meant user pattern.now files.now ≢ []) }
{
    let mut found = Vec::new(alloc);
    for file in files {
        if let Some(name) = file_meant(file, user, pattern) {
            found.push(name)?;
        }
    }
    Ok(found)
}

/// A file, if it is of the user and matches.
#[tactic(auto, unfolding(crate::specs::Matching::is_meant))]
fn file_meant(file: &DiskFile, user: u8, pattern: &[u8; 11]) -> Option<FileName>
    requires { user < 16 }
    ensures { MatchOption result
        (is_meant user pattern.now file.now ≡ false)
        (λ found. (is_meant user pattern.now file.now ≡ true) × (file_named found ≡ listed file.now)) }
{
    if file.user == user && names_match(pattern, &file.name) {
        FileName::new(user, file.name)
    } else {
        None
    }
}

/// Whether a name matches a pattern, in the low seven bits of each character.
fn names_match(pattern: &[u8; 11], name: &[u8; 11]) -> bool
    ensures { result ≡ name_matches pattern.now name.now }
{
    all_match(pattern, name)
}

fn all_match(pattern: &[u8], name: &[u8]) -> bool
    ensures { result ≡ list_all wildcard_or_same (zip pattern.now name.now) }
{
    pattern
        .iter()
        .zip(name)
        .all(|(p, c)| *p % 128 == b'?' || *p % 128 == *c % 128)
}
