//! The names that files of a disk get on the host.

ghost use Rattle.std.specs.Prelude.{◌≡◌, ◌≤◌, ◌<◌, ◌+◌, ◌%◌, ◌==◌, ◌++◌, true, false, MatchOption, MatchResult, length};
ghost use Rattle.std.specs.List.{list_all, list_any, zip};
ghost use Rattle.cpm_volume.specs.Files.{same_name};
ghost use Rattle.cpm_disk_commands.specs.Listing.{is_blank_byte};
ghost use Rattle.cpm_disk_commands.specs.HostNames.{host_part, host_text, is_host_name, is_read_as, shown_small, small, IsNoHostName};
ghost use Rattle.cpm_disk_commands.specs.Names.{one_name};

use crate::damage::NamedFile;
use crate::error::DiskCommandError;
use crate::lines::{are_blank, is_blank_byte};
use crate::names::name_of;
use arrayvec::ArrayString;
use cpm_image_files::FileName;
use cpm_shown::shown;

/// The name that a file of an image gets on the host; the image's name is that of its file. `NoHostName` where no file of the
/// host can have it.
pub fn host_name(name: &str, file: &FileName) -> Result<ArrayString<12>, DiskCommandError>
    ensures { MatchResult result
        (λ text. (text.bytes ≡ host_text file.now.name) × (is_host_name text.bytes file.now.name ≡ true))
        (λ e. IsNoHostName name.now file.now e) }
{
    match text_of_name(file.name()) {
        Some(text) => Ok(text),
        None => Err(DiskCommandError::NoHostName {
            image: shown(name),
            file: NamedFile {
                user: file.user(),
                name: *file.name(),
            },
        }),
    }
}

/// A name in small letters, with a dot before its type if it has one. None where the text has a slash, or is not read as the
/// name again.
pub fn text_of_name(name: &[u8; 11]) -> Option<ArrayString<12>>
    ensures { MatchOption result
        (is_host_name (host_text name.now) name.now ≡ false)
        (λ text. (text.bytes ≡ host_text name.now) × (is_host_name text.bytes name.now ≡ true)) }
{
    let text = host_text(name);
    if is_host_name(text.as_str(), name) {
        Some(text)
    } else {
        None
    }
}

/// The text of a name: in small letters, with a dot before its type if it has one.
#[tactic(auto, unfolding(crate::specs::HostNames::host_text))]
pub fn host_text(name: &[u8; 11]) -> ArrayString<12>
    ensures { result.bytes ≡ host_text name.now }
{
    let (name, kind) = name.as_slice().split_at(8);
    let mut text = ArrayString::new();
    add_part(&mut text, name);
    if !are_blank(kind) {
        text.push('.');
        add_part(&mut text, kind);
    }
    text
}

/// Adds a part of a name without its blanks.
fn add_part(text: &mut ArrayString<12>, part: &[u8])
    requires { length text.old.bytes + length part.now ≤ 12 }
    ensures text { text.new.bytes ≡ text.old.bytes ++ host_part part.now }
    ensures length { length text.new.bytes ≤ length text.old.bytes + length part.now }
{
    for byte in part {
        add_character(text, *byte);
    }
}

/// Adds a character of a name, if it is no blank.
fn add_character(text: &mut ArrayString<12>, c: u8)
    requires { length text.old.bytes < 12 }
    ensures text { text.new.bytes ≡ text.old.bytes ++ shown_small c }
    ensures length { length text.new.bytes ≤ length text.old.bytes + 1 }
{
    if !is_blank_byte(c) {
        text.push(char::from(small(c)));
    }
}

/// A capital as the small letter, without its attribute.
#[tactic(auto, unfolding(crate::specs::HostNames::small))]
fn small(c: u8) -> u8
    ensures value { result ≡ small c }
    ensures low { result < 128 }
{
    let c = c % 128;
    if b'A' <= c && c <= b'Z' { c + 32 } else { c }
}

/// Whether a text can be the name that a file of this name gets on the host.
#[tactic(auto, unfolding(crate::specs::HostNames::is_host_name))]
fn is_host_name(text: &str, name: &[u8; 11]) -> bool
    ensures { result ≡ is_host_name text.now name.now }
{
    !has_slash(text.as_bytes()) && is_read_as(name, text)
}

/// Whether a text is read as a name.
pub(crate) fn is_read_as(name: &[u8; 11], text: &str) -> bool
    ensures { result ≡ is_read_as name.now (one_name text.now) }
{
    match name_of(text) {
        Some(found) => is_same_name(&found, name),
        None => false,
    }
}

fn has_slash(text: &[u8]) -> bool
    ensures { result ≡ list_any (λ c. c == 0x2F) text.now }
{
    text.iter().any(|c| *c == b'/')
}

/// Whether two names agree in the low seven bits of each character.
pub(crate) fn is_same_name(name: &[u8; 11], other: &[u8; 11]) -> bool
    ensures { result ≡ same_name name.now other.now }
{
    all_same(name, other)
}

fn all_same(name: &[u8], other: &[u8]) -> bool
    ensures { result ≡ list_all (λ p. p.0 % 128 == p.1 % 128) (zip name.now other.now) }
{
    name.iter().zip(other).all(|(a, b)| *a % 128 == *b % 128)
}
