//! DELETE FILE, RENAME FILE and SET FILE ATTRIBUTES: a call changes all entries of a name.

ghost use Rattle.std.specs.Prelude.{◌≡◌, ◌<◌, ◌≤◌, false, MatchOption, Ok, length};
ghost use Rattle.std.specs.List.{list_any};
ghost use Rattle.cpm_geom.specs.Geometry.{dpb_of};
ghost use Rattle.cpm_volume.specs.Names.{first_named, protects, change_named, named_writes, renaming, with_attributes};
ghost use Rattle.cpm_volume.specs.Names.{erase_files_on_volume, rename_files_on_volume, set_attributes_on_volume};
ghost use Rattle.cpm_directory.specs.Directory.{entries_of};
ghost use Rattle.cpm_drive.specs.Drive.{volume_of};
ghost use Rattle.cpm_drive.specs.Named.{altered, after_named};
ghost use Rattle.cpm_drive.specs.Writes.{drive_written};

use crate::drive::{Drive, directory_code};
use cpm_directory::directory::DELETED;
use cpm_directory::{LentImage, Pattern, find, is_named, without_files};
use cpm_volume::{Entry, Extent, Fault};

/// What becomes of each entry of a name.
#[derive(Clone, Copy, PartialEq, Eq, Debug)]
pub enum Alteration {
    Deletion,
    /// It gets the name.
    Renaming([u8; 11]),
    /// It gets the high bits of the name.
    Marking([u8; 11]),
}

impl Alteration {
    /// What becomes of an entry.
    #[tactic(auto, unfolding(cpm_volume::specs::Names::deletion, cpm_volume::specs::Names::renaming, cpm_volume::specs::Names::marking))]
    fn of(&self, entry: &Entry) -> Entry
        ensures { result ≡ altered self.now entry.now }
    {
        match self {
            Alteration::Deletion => Entry {
                user: DELETED,
                ..*entry
            },
            Alteration::Renaming(name) => with_name(entry, name),
            Alteration::Marking(name) => {
                with_name(entry, &with_attributes(&entry.extent.name, name))
            }
        }
    }
}

/// The entry under another name.
#[tactic(auto, unfolding(cpm_volume::specs::Names::renaming))]
fn with_name(entry: &Entry, name: &[u8; 11]) -> Entry
    ensures { result ≡ renaming name.now entry.now }
{
    let extent = Extent {
        name: *name,
        ..entry.extent
    };
    Entry { extent, ..*entry }
}

/// The low seven bits of a name's characters, with the high bits of another's.
fn with_attributes(name: &[u8; 11], attributes: &[u8; 11]) -> [u8; 11]
    ensures { result ≡ with_attributes name.now attributes.now }
{
    let mut marked = [0; 11];
    for place in 0..11 {
        marked[place] = name[place] % 128 + attributes[place] / 128 * 128;
    }
    marked
}

/// The index of the first entry of a name.
fn first_named(image: &LentImage<'_>, user: u8, name: &[u8; 11]) -> Option<u16>
    ensures { MatchOption result
        (length (entries_of image.now) ≤ first_named (entries_of image.now) user name.now)
        (λ index. (index ≡ first_named (entries_of image.now) user name.now) × (index < length (entries_of image.now))) }
{
    let pattern = Pattern::Files {
        user,
        name: *name,
        group: None,
    };
    match find(image, &pattern, 0) {
        Ok(index) => Some(index),
        Err(_) => None,
    }
}

/// Whether an entry of a name is read-only.
fn has_read_only(image: &LentImage<'_>, user: u8, name: &[u8; 11]) -> bool
    ensures { result ≡ list_any (protects user name.now) (entries_of image.now) }
{
    for index in 0..image.format().dpb().last_entry + 1 {
        if protects(user, name, &image.entry(index)) {
            return true;
        }
    }
    false
}

/// Whether an entry is one of a name and read-only.
#[tactic(auto, unfolding(cpm_volume::specs::Names::protects))]
fn protects(user: u8, name: &[u8; 11], entry: &Entry) -> bool
    ensures { result ≡ protects user name.now entry.now }
{
    is_named(user, name, entry) && entry.extent.is_read_only()
}

impl Drive {
    /// Changes each entry of a name.
    fn alter_files(&mut self, user: u8, name: &[u8; 11], alteration: &Alteration)
        ensures { self.new ≡ drive_written self.old
            (named_writes user name.now 0 (entries_of self.old.image) (change_named user name.now (altered alteration.now) (entries_of self.old.image))) }
    {
        for index in 0..self.image.format().dpb().last_entry + 1 {
            let entry = self.image.entry(index);
            if is_named(user, name, &entry) {
                self.image.put_entry(index, &alteration.of(&entry));
            }
        }
    }

    /// DELETE FILE: the entries of the name are free, and the blocks in them. The directory code of the first, or none
    /// where no entry has the name; a read-only file among them is a fault, and nothing is erased.
    pub fn erase_files(&mut self, user: u8, name: &[u8; 11]) -> Result<Option<u8>, Fault>
        requires { self.old.marks.is_protected ≡ false }
        ensures { (result, self.new) ≡ after_named self.old
            (erase_files_on_volume (dpb_of self.old.image.format) (volume_of self.old.image self.old.marks.reserved) user name.now) }
    {
        let image = self.image.lent();
        let Some(first) = first_named(&image, user, name) else {
            return Ok(None);
        };
        if has_read_only(&image, user, name) {
            return Err(Fault::FileReadOnly);
        }
        self.marks.reserved = without_files(&self.marks.reserved, &image, user, name);
        self.alter_files(user, name, &Alteration::Deletion);
        Ok(Some(directory_code(first)))
    }

    /// RENAME FILE: the entries of the name get another, whose bytes are taken as they are. The directory code of the
    /// first, or none where no entry has the name; a read-only file among them is a fault, and nothing is renamed.
    pub fn rename_files(
        &mut self,
        user: u8,
        old_name: &[u8; 11],
        new_name: &[u8; 11],
    ) -> Result<Option<u8>, Fault>
        requires { self.old.marks.is_protected ≡ false }
        ensures { (result, self.new) ≡ after_named self.old
            (rename_files_on_volume (volume_of self.old.image self.old.marks.reserved) user old_name.now new_name.now) }
    {
        let image = self.image.lent();
        let Some(first) = first_named(&image, user, old_name) else {
            return Ok(None);
        };
        if has_read_only(&image, user, old_name) {
            return Err(Fault::FileReadOnly);
        }
        self.alter_files(user, old_name, &Alteration::Renaming(*new_name));
        Ok(Some(directory_code(first)))
    }

    /// SET FILE ATTRIBUTES: the entries of the name get its high bits. The directory code of the first, or none where no
    /// entry has the name.
    pub fn set_attributes(&mut self, user: u8, name: &[u8; 11]) -> Option<u8>
        requires { self.old.marks.is_protected ≡ false }
        ensures { (Ok result, self.new) ≡ after_named self.old (set_attributes_on_volume (volume_of self.old.image self.old.marks.reserved) user name.now) }
    {
        let first = first_named(&self.image.lent(), user, name)?;
        self.alter_files(user, name, &Alteration::Marking(*name));
        Some(directory_code(first))
    }
}
