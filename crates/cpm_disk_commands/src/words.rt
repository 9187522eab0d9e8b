//! What the words of a command line name.

ghost use Rattle.std.specs.Prelude.{◌≡◌, ◌<◌, ◌==◌, ℕ, List, Some, true, false, MatchOption, MatchResult, length};
ghost use Rattle.std.specs.List.{after_first, before_first, list_any, position_or_len};
ghost use Rattle.cpm_volume.specs.Files.{has_wildcard};
ghost use Rattle.cpm_disk_commands.specs.Names.{with_marks, one_name, with_bit, IsBaseName};
ghost use Rattle.cpm_disk_commands.specs.Refusals.{is_same_file, IsNotName, IsPutTwice};

use crate::damage::NamedFile;
use crate::error::DiskCommandError;
use crate::host_names::is_same_name;
use crate::names::name_of;
use cpm_image_files::FileName;
use cpm_shown::shown;

/// What stands before and after the first `=`; none where there is none.
pub fn split_pair(text: &str) -> Option<(&str, &str)>
    ensures { MatchOption result
        (position_or_len (λ c. c == 0x3D) text.now ≡ length text.now)
        (λ pair. (position_or_len (λ c. c == 0x3D) text.now < length text.now)
        × (pair.0.now ≡ before_first (λ c. c == 0x3D) text.now)
        × (pair.1.now ≡ after_first (λ c. c == 0x3D) text.now)) }
{
    text.split_once('=')
}

/// The last name of a path.
pub fn base_name(path: &str) -> &str
    ensures { IsBaseName path.now result.now }
{
    match path.rsplit_once('/') {
        Some((_, name)) => name,
        None => path,
    }
}

/// The file of a user that a text names, with these attributes. `NotName` where it names none.
pub fn file_name(
    text: &str,
    user: u8,
    is_read_only: bool,
    is_system: bool,
) -> Result<FileName, DiskCommandError>
    requires { user < 16 }
    ensures { MatchResult result
        (λ file. (name : List ℕ) × (one_name text.now ≡ Some name) × (file.user ≡ user) × (file.name ≡ with_marks is_read_only is_system name))
        (λ e. IsNotName text.now e) }
{
    let Some(name) = name_of(text) else {
        return Err(DiskCommandError::NotName(shown(text)));
    };
    let name = with_marks(name, is_read_only, is_system);
    Ok(FileName::new(user, name).unwrap())
}

/// A name with these attributes.
#[tactic(auto, unfolding(crate::specs::Names::with_marks))]
fn with_marks(name: [u8; 11], is_read_only: bool, is_system: bool) -> [u8; 11]
    ensures { result ≡ with_marks is_read_only is_system name }
{
    let mut name = name;
    name[8] = with_bit(name[8], is_read_only);
    name[9] = with_bit(name[9], is_system);
    name
}

/// A character with its attribute bit set or not.
#[tactic(auto, unfolding(crate::specs::Names::with_bit))]
fn with_bit(character: u8, is_set: bool) -> u8
    ensures { result ≡ with_bit is_set character }
{
    if is_set {
        character % 128 + 128
    } else {
        character % 128
    }
}

/// That a file is none of those before it; `PutTwice` where it is one, with the word that names it.
pub fn check_new(before: &[FileName], file: &FileName, word: &str) -> Result<(), DiskCommandError>
    ensures { MatchResult result
        (λ _. list_any (is_same_file file.now) before.now ≡ false)
        (λ e. IsPutTwice before.now file.now word.now e) }
{
    if is_among(before, file) {
        Err(DiskCommandError::PutTwice {
            word: shown(word),
            file: NamedFile {
                user: file.user(),
                name: *file.name(),
            },
        })
    } else {
        Ok(())
    }
}

fn is_among(before: &[FileName], file: &FileName) -> bool
    ensures { result ≡ list_any (is_same_file file.now) before.now }
{
    before.iter().any(|other| is_same_file(file, other))
}

/// Whether two files are one on a disk.
fn is_same_file(file: &FileName, other: &FileName) -> bool
    ensures { result ≡ is_same_file file.now other.now }
{
    file.user() == other.user() && is_same_name(file.name(), other.name())
}
