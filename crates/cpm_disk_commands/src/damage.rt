//! What is wrong with the directory of an image, as it is told.
ghost use Rattle.std.specs.Prelude.{◌≡◌, ◌≤◌, Err};
ghost use Rattle.cpm_directory.specs.Directory.{entries_of};
ghost use Rattle.cpm_directory.specs.WellFormed.{IsChecked};
ghost use Rattle.cpm_volume.specs.Files.{entry_at};
ghost use Rattle.cpm_geom.specs.Geometry.{dpb_of};
ghost use Rattle.cpm_disk_commands.specs.Damage.{damage_of, fault_entry, file_of, other_of};

use cpm_directory::{DriveFault, entry};
use cpm_geom::Image;
use cpm_volume::Entry;
use std::fmt;

/// A file as a directory entry names it. Its text is `NAME.TYP of user N`.
#[derive(Clone, Copy, Debug)]
pub struct NamedFile {
    pub user: u8,
    /// Eight characters of a name and three of a type, with their attribute bits.
    pub name: [u8; 11],
}

impl NamedFile {
    /// The file that an entry is of.
    fn of(entry: &Entry) -> NamedFile
        ensures { result ≡ file_of entry.now }
    {
        NamedFile {
            user: entry.user,
            name: entry.extent.name,
        }
    }
}

/// The fault of a directory, with what a person has to know of the disk.
#[derive(Clone, Copy, Debug)]
pub struct Damage {
    pub fault: DriveFault,
    /// The file of the entry with the fault.
    pub file: NamedFile,
    /// The file of the entry beside which that is told: of the first that has the block, or of the earlier one.
    pub other: NamedFile,
    /// The number of the last block.
    pub last_block: u16,
}

/// The entry that has a fault.
fn fault_entry(fault: DriveFault) -> u16
    ensures { result ≡ fault_entry fault }
{
    match fault {
        DriveFault::BadBlock { entry, .. }
        | DriveFault::TwiceBlock { entry, .. }
        | DriveFault::TwiceEntry { entry, .. } => entry,
    }
}

/// The entry beside which a fault is told.
fn other_of(fault: DriveFault) -> u16
    ensures { result ≡ other_of fault }
{
    match fault {
        DriveFault::BadBlock { entry, .. } => entry,
        DriveFault::TwiceBlock { owner, .. } => owner,
        DriveFault::TwiceEntry { earlier, .. } => earlier,
    }
}

/// The file that the entry at an index is of.
fn file_at(image: &Image, index: u16) -> NamedFile
    requires { index ≤ (dpb_of image.now.format).last_entry }
    ensures { result ≡ file_of (entry_at (entries_of image.now) index) }
{
    NamedFile::of(&entry(image, index))
}

/// What is told of the fault of an image's directory.
pub fn damage_of(image: &Image, fault: DriveFault) -> Damage
    requires { IsChecked (dpb_of image.now.format) (entries_of image.now) (Err fault) }
    ensures { result ≡ damage_of image.now fault }
{
    Damage {
        fault,
        file: file_at(image, fault_entry(fault)),
        other: file_at(image, other_of(fault)),
        last_block: image.format().dpb().last_block,
    }
}

/// A character of a name as it is shown: its low seven bits, and `?` for what can't be seen.
fn shown_character(byte: u8) -> char {
    match byte & 0x7F {
        seen @ 0x21..=0x7E => char::from(seen),
        _ => '?',
    }
}

/// Writes the characters of a name or of a type, without the blanks after it.
fn write_characters<W: fmt::Write>(bytes: &[u8], f: &mut fmt::Formatter<W>) -> fmt::Result {
    let mut blanks: usize = 0;
    for byte in bytes {
        if *byte & 0x7F == b' ' {
            blanks = blanks.saturating_add(1);
        } else {
            for _blank in 0..blanks {
                f.write_char('?')?;
            }
            blanks = 0;
            f.write_char(shown_character(*byte))?;
        }
    }
    Ok(())
}

impl fmt::Display for NamedFile {
    fn fmt<W: fmt::Write>(&self, f: &mut fmt::Formatter<W>) -> fmt::Result {
        let (name, kind) = self.name.as_slice().split_at(8);
        write_characters(name, f)?;
        if kind.iter().any(|byte| *byte & 0x7F != b' ') {
            f.write_char('.')?;
            write_characters(kind, f)?;
        }
        let user = self.user;
        write!(f, " of user {user}")
    }
}

impl fmt::Display for Damage {
    fn fmt<W: fmt::Write>(&self, f: &mut fmt::Formatter<W>) -> fmt::Result {
        let file = self.file;
        let other = self.other;
        let last = self.last_block;
        match self.fault {
            DriveFault::BadBlock { entry, block } if last < block => write!(
                f,
                "directory entry {entry}, {file}, has block {block}, and the last is {last}"
            ),
            DriveFault::BadBlock { entry, block } => write!(
                f,
                "directory entry {entry}, {file}, has block {block}, which is the directory's"
            ),
            DriveFault::TwiceBlock {
                entry,
                block,
                owner,
            } if owner == entry => {
                write!(
                    f,
                    "directory entry {entry}, {file}, has block {block} twice"
                )
            }
            DriveFault::TwiceBlock {
                entry,
                block,
                owner,
            } => write!(
                f,
                "directory entry {entry}, {file}, has block {block}, which entry {owner}, {other}, has too"
            ),
            DriveFault::TwiceEntry { entry, earlier } => write!(
                f,
                "directory entry {entry}, {file}, and entry {earlier} are of the same extents of one file"
            ),
        }
    }
}
