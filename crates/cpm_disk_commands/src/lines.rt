//! The lines of a list.

ghost use Rattle.std.specs.Prelude.{◌≡◌, ◌≤◌, ◌<◌, ◌++◌, ◌-◌, OnOk, decimal, length, replicate};
ghost use Rattle.std.specs.List.{list_all};
ghost use Rattle.cpm_geom.specs.Geometry.{dpb_of};
ghost use Rattle.cpm_disk_commands.specs.Listing.{free_line, is_blank_byte, is_wanted, left_aligned, file_line, lines_of};
ghost use Rattle.cpm_disk_commands.specs.Listing.{read_only_of, right, visible, seen_name, seen_part, system_of, unit_of};

use cpm_geom::Format;
use cpm_image_files::DiskFile;
use itoa::Buffer;
use std::alloc::AllocError;

/// The characters of a name in a line.
const NAME_WIDTH: usize = 12;

/// The digits of its records: an extent's number goes up to 511, and an extent has 128 records.
const RECORDS_WIDTH: usize = 5;

/// Adds a line for each file, or for each of one user.
pub(crate) fn add_lines(
    text: &mut Vec<u8>,
    user: Option<u8>,
    files: &[DiskFile],
) -> Result<(), AllocError>
    ensures { OnOk result (text.new.items ≡ text.old.items ++ lines_of user files.now) }
{
    for file in files {
        if is_wanted(user, file) {
            add_line(text, file)?;
        }
    }
    Ok(())
}

/// Adds the line that says how many blocks are free.
#[tactic(auto, unfolding(crate::specs::Listing::free_line))]
pub(crate) fn add_free_line(text: &mut Vec<u8>, format: Format, free: u16) -> Result<(), AllocError>
    ensures { OnOk result (text.new.items ≡ text.old.items ++ free_line format free) }
{
    add_digits(text, u32::from(free))?;
    text.extend_from_slice(b" of ")?;
    add_digits(text, file_blocks(format))?;
    text.extend_from_slice(b" blocks are free\n")?;
    Ok(())
}

/// How many blocks files can have.
fn file_blocks(format: Format) -> u32
    ensures { result ≡ (dpb_of format).last_block - 1 }
{
    u32::from(format.dpb().last_block).saturating_sub(1)
}

/// Whether a file is of the user that is asked for, if one is.
#[tactic(auto, unfolding(crate::specs::Listing::is_wanted))]
fn is_wanted(user: Option<u8>, file: &DiskFile) -> bool
    ensures { result ≡ is_wanted user file.now }
{
    match user {
        Some(user) => file.user == user,
        None => true,
    }
}

/// Adds the line of a file.
#[tactic(auto, unfolding(crate::specs::Listing::file_line))]
fn add_line(text: &mut Vec<u8>, file: &DiskFile) -> Result<(), AllocError>
    ensures { OnOk result (text.new.items ≡ text.old.items ++ file_line file.now) }
{
    text.extend_from_slice(b"user ")?;
    add_number(text, u32::from(file.user), 2)?;
    text.extend_from_slice(b"  ")?;
    add_padded_name(text, &file.name)?;
    text.extend_from_slice(b" ")?;
    add_number(text, file.records, RECORDS_WIDTH)?;
    text.extend_from_slice(unit_of(file.records))?;
    text.extend_from_slice(read_only_of(&file.name))?;
    text.extend_from_slice(system_of(&file.name))?;
    text.extend_from_slice(b"\n")?;
    Ok(())
}

/// What records are called, by their count.
#[tactic(auto, unfolding(crate::specs::Listing::unit_of))]
fn unit_of(count: u32) -> &'static [u8]
    ensures { result.now ≡ unit_of count }
{
    if count == 1 { b" record" } else { b" records" }
}

/// What is said of a file that is read-only.
#[tactic(auto, unfolding(crate::specs::Listing::read_only_of))]
fn read_only_of(name: &[u8; 11]) -> &'static [u8]
    ensures { result.now ≡ read_only_of name.now }
{
    if name[8] > 127 { b", read-only" } else { b"" }
}

/// What is said of a file of the system's.
#[tactic(auto, unfolding(crate::specs::Listing::system_of))]
fn system_of(name: &[u8; 11]) -> &'static [u8]
    ensures { result.now ≡ system_of name.now }
{
    if name[9] > 127 { b", system" } else { b"" }
}

/// Adds a number.
fn add_digits(text: &mut Vec<u8>, number: u32) -> Result<(), AllocError>
    ensures { OnOk result (text.new.items ≡ text.old.items ++ decimal number) }
{
    let mut buffer = Buffer::new();
    text.extend_from_slice(buffer.format(number).as_bytes())?;
    Ok(())
}

/// Adds a number at the right of a field.
fn add_number(text: &mut Vec<u8>, number: u32, width: usize) -> Result<(), AllocError>
    requires { width ≤ 12 }
    ensures { OnOk result (text.new.items ≡ text.old.items ++ right width (decimal number)) }
{
    let mut buffer = Buffer::new();
    let digits = buffer.format(number);
    add_blanks(text, width.saturating_sub(digits.len()))?;
    text.extend_from_slice(digits.as_bytes())?;
    Ok(())
}

/// Adds so many blanks.
fn add_blanks(text: &mut Vec<u8>, count: usize) -> Result<(), AllocError>
    requires { count ≤ 12 }
    ensures { OnOk result (text.new.items ≡ text.old.items ++ replicate count 0x20) }
{
    text.resize(text.len() + count, b' ')?;
    Ok(())
}

/// Adds a name at the left of its field.
fn add_padded_name(text: &mut Vec<u8>, name: &[u8; 11]) -> Result<(), AllocError>
    ensures { OnOk result (text.new.items ≡ text.old.items ++ left_aligned 12 (seen_name name.now)) }
{
    let start = text.len();
    add_name(text, name)?;
    add_blanks(text, NAME_WIDTH.saturating_sub(text.len() - start))?;
    Ok(())
}

/// Adds a name as it is shown, with a dot before its type if it has one.
#[tactic(auto, unfolding(crate::specs::Listing::seen_name))]
pub fn add_name(text: &mut Vec<u8>, name: &[u8; 11]) -> Result<(), AllocError>
    ensures { OnOk result (text.new.items ≡ text.old.items ++ seen_name name.now) }
{
    let (name, kind) = name.as_slice().split_at(8);
    add_part(text, name)?;
    if !are_blank(kind) {
        text.push(b'.')?;
        add_part(text, kind)?;
    }
    Ok(())
}

/// Adds a part of a name without the blanks after it.
fn add_part(text: &mut Vec<u8>, part: &[u8]) -> Result<(), AllocError>
    ensures { OnOk result (text.new.items ≡ text.old.items ++ seen_part part.now) }
{
    for place in 0..part.len() {
        if are_blank(&part[place..]) {
            break;
        }
        text.push(visible(part[place]))?;
    }
    Ok(())
}

/// Whether there are only blanks.
pub(crate) fn are_blank(part: &[u8]) -> bool
    ensures { result ≡ list_all is_blank_byte part.now }
{
    part.iter().all(|c| *c % 128 == b' ')
}

/// Whether a character is a blank, whatever its attribute.
pub(crate) fn is_blank_byte(c: u8) -> bool
    ensures { result ≡ is_blank_byte c }
{
    c % 128 == b' '
}

/// A character as it is shown: its low seven bits, and `?` for what can't be seen.
#[tactic(auto, unfolding(crate::specs::Listing::visible))]
fn visible(c: u8) -> u8
    ensures { result ≡ visible c }
{
    let c = c % 128;
    if b' ' < c && c < 0x7F { c } else { b'?' }
}
