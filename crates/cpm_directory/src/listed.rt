//! An image whose directory is kept beside it as a list of entries.

ghost use Rattle.std.specs.Prelude.{◌≡◌, ◌≤◌, IfOk, MatchResult, length};
ghost use Rattle.cpm_geom.specs.Disk.{IsDisk, sector_at, with_sector};
ghost use Rattle.cpm_geom.specs.Geometry.{dpb_of, sector_index, record_index, IsSector, IsRecord};
ghost use Rattle.cpm_volume.specs.Files.{entry_at};
ghost use Rattle.cpm_directory.specs.Directory.{entries_of, Lists, PutsEntry};

use crate::directory;
use crate::lent::LentImage;
use cpm_geom::{Format, GeomError, Image};
use cpm_volume::{Entry, Extent};
use std::alloc::{AllocError, Global};
use std::marker::Model;

/// The most entries that the directory of a format has.
pub(crate) const MOST_ENTRIES: usize = 256;

/// An entry that is not in use.
const NO_ENTRY: Entry = Entry {
    user: 0xe5,
    extent: Extent {
        name: [0xe5; 11],
        ex: 0xe5,
        s1: 0xe5,
        s2: 0xe5,
        record_count: 0xe5,
        blocks: [0; 16],
    },
};

/// Room for the entries of a directory. It is on the heap, since it takes 13 KB.
#[derive(Drop)]
pub struct EntryRoom(Box<[Entry; MOST_ENTRIES]>);

impl EntryRoom {
    /// New room; refused if out of memory.
    pub fn new(alloc: Global) -> Result<EntryRoom, AllocError> {
        Ok(EntryRoom(boxed(alloc, [NO_ENTRY; MOST_ENTRIES])?))
    }
}

/// An image, seen as its disk. The entries of its directory may be kept beside it: they are those in its records at all times.
#[derive(Drop)]
pub struct ListedImage {
    image: Image,
    entries: Option<Box<[Entry; MOST_ENTRIES]>>,
}

impl Model for ListedImage {
    ghost use Rattle.std.specs.Prelude.{IfSome};
    ghost use Rattle.cpm_geom.specs.Disk.{Disk};
    ghost use Rattle.cpm_directory.specs.Directory.{Lists};

    ghost Value = { Disk };

    ghost view = { λ listed. listed.image };

    ghost invariant = { λ listed. IfSome listed.entries (λ entries. Lists entries.value listed.image) };
}

impl ListedImage {
    /// An image whose entries aren't kept yet. It takes no memory.
    pub fn new(image: Image) -> ListedImage
        ensures { result ≡ image }
    {
        ListedImage {
            image,
            entries: None,
        }
    }

    /// Keeps the entries in this room from now on. They are found sooner then, and nothing else is changed.
    pub fn keep_entries(&mut self, room: EntryRoom)
        ensures { self.new ≡ self.old }
    {
        let EntryRoom(mut entries) = room;
        *entries = entries_in(&self.image);
        self.entries = Some(entries);
    }

    /// An equal image, with its entries; refused if out of memory.
    pub fn copy(&self, alloc: Global) -> Result<ListedImage, AllocError>
        ensures { IfOk result (λ listed. listed ≡ self.now) }
    {
        let image = self.image.copy(alloc)?;
        let entries = match &self.entries {
            Some(entries) => Some(boxed(alloc, **entries)?),
            None => None,
        };
        Ok(ListedImage { image, entries })
    }

    /// The image alone.
    pub fn into_image(self) -> Image
        ensures { result ≡ self }
    {
        let ListedImage { image, .. } = self;
        image
    }

    /// The image.
    pub fn image(&self) -> &Image
        ensures { result.now ≡ self.now }
    {
        &self.image
    }

    /// Lends the image and its entries.
    pub fn lent(&self) -> LentImage<'_>
        ensures { result ≡ self.now }
    {
        match &self.entries {
            Some(entries) => LentImage::with_entries(&self.image, entries),
            None => LentImage::new(&self.image),
        }
    }

    /// The image's format.
    pub fn format(&self) -> Format
        ensures format { result ≡ self.now.format }
        ensures whole { IsDisk self.now }
    {
        self.image.format()
    }

    /// The bytes of a record.
    pub fn record(&self, number: u16) -> Result<&[u8], GeomError>
        ensures { MatchResult result
            (λ bytes. IsRecord self.now.format number × (bytes.now ≡ sector_at self.now (record_index self.now.format number)) × (length bytes.now ≡ 128))
            (λ e. ¬ IsRecord self.now.format number × (e ≡ GeomError.NoSuchSector)) }
    {
        self.image.record(number)
    }

    /// The entry at an index.
    pub fn entry(&self, index: u16) -> Entry
        requires { index ≤ (dpb_of self.now.format).last_entry }
        ensures value { result ≡ entry_at (entries_of self.now) index }
    {
        match &self.entries {
            Some(entries) => entries[usize::from(index)],
            None => directory::entry(&self.image, index),
        }
    }

    /// Writes the entry at an index, and no other.
    pub fn put_entry(&mut self, index: u16, entry: &Entry)
        requires { index ≤ (dpb_of self.old.format).last_entry }
        ensures { PutsEntry self.old index entry.now self.new }
    {
        directory::put_entry(&mut self.image, index, entry);
        if let Some(entries) = &mut self.entries {
            entries[usize::from(index)] = directory::entry(&self.image, index);
        }
    }

    /// Writes a record, and no other sector. The entries are listed anew where it is one of the directory's.
    pub fn put_record(&mut self, number: u16, data: &[u8; 128]) -> Result<(), GeomError>
        ensures { MatchResult result
            (λ _. IsRecord self.old.format number × (self.new ≡ with_sector self.old (record_index self.old.format number) «data».now))
            (λ e. ¬ IsRecord self.old.format number × (e ≡ GeomError.NoSuchSector) × (self.new ≡ self.old)) }
    {
        let dpb = self.image.format().dpb();
        self.image.put_record(number, data)?;
        if number <= dpb.last_entry / 4
            && let Some(entries) = &mut self.entries
        {
            **entries = entries_in(&self.image);
        }
        Ok(())
    }

    /// Writes a sector, and no other. The entries are listed anew where its track is the directory's.
    pub fn put_sector(&mut self, track: u16, sector: u16, data: &[u8; 128]) -> Result<(), GeomError>
        ensures { MatchResult result
            (λ _. IsSector self.old.format track sector × (self.new ≡ with_sector self.old (sector_index self.old.format track sector) «data».now))
            (λ e. ¬ IsSector self.old.format track sector × (e ≡ GeomError.NoSuchSector) × (self.new ≡ self.old)) }
    {
        let dpb = self.image.format().dpb();
        self.image.put_sector(track, sector, data)?;
        if track == dpb.track_offset
            && let Some(entries) = &mut self.entries
        {
            **entries = entries_in(&self.image);
        }
        Ok(())
    }
}

/// Entries on the heap; refused if out of memory.
fn boxed(
    alloc: Global,
    entries: [Entry; MOST_ENTRIES],
) -> Result<Box<[Entry; MOST_ENTRIES]>, AllocError>
    ensures { IfOk result (λ b. b.value ≡ entries) }
{
    Ok(Box::new(alloc, entries)?)
}

/// The entries of an image. The places after them have the first one again.
fn entries_in(image: &Image) -> [Entry; MOST_ENTRIES]
    ensures { Lists result image.now }
{
    let mut entries = [directory::entry(image, 0); MOST_ENTRIES];
    for index in 1..image.format().dpb().last_entry + 1 {
        entries[usize::from(index)] = directory::entry(image, index);
    }
    entries
}
