//! A disk image: a list of sectors over a flat vector of bytes.

ghost use Rattle.std.specs.Prelude.{◌≡◌, ◌<◌, ◌≤◌, ◌*◌, Some, None, [], length, IfOk, MatchResult, slice_index, slice_index_or, ℕ};
ghost use Rattle.std.specs.List.{concat};
ghost use Rattle.cpm_geom.specs.Geometry.{format_of_length, sector_count, sector_index, record_index, IsSector, IsRecord};

use crate::format::Format;
use std::alloc::{AllocError, Global};
use std::marker::Model;
use thiserror::Error;

/// The bytes of a sector, and so of a record.
pub const SECTOR_SIZE: usize = 128;

/// Why an image is refused, or a sector of it.
#[derive(Clone, Copy, Debug, PartialEq, Eq, Drop, Error)]
pub enum GeomError {
    #[error("no disk format has images of this length")]
    WrongLength,
    #[error("the disk has no such sector")]
    NoSuchSector,
}

/// A disk image, seen as its sectors in the order of tracks and sector numbers.
#[derive(Drop)]
pub struct Image {
    format: Format,
    bytes: Vec<u8>,
}

impl Model for Image {
    ghost use Rattle.std.specs.Prelude.{◌≡◌, Some, length};
    ghost use Rattle.cpm_geom.specs.Geometry.{format_of_length};
    ghost use Rattle.cpm_geom.specs.Disk.{Disk, disk_of};

    ghost Value = { Disk };

    ghost view = { λ image. disk_of image.format image.bytes.items };

    ghost invariant = { λ image. format_of_length (length image.bytes.items) ≡ Some image.format };
}

impl Image {
    ghost use Rattle.cpm_geom.specs.Disk.{Disk, blank_disk, disk_of, HasBytes, IsDisk, sector_at, with_sector};

    /// The image of these bytes, which come back where no format has their length. It takes no memory.
    pub fn from_bytes(bytes: Vec<u8>) -> Result<Image, (Vec<u8>, GeomError)>
        ensures { MatchResult result
            (λ image. (format_of_length (length bytes.items) ≡ Some image.format) × (concat image.sectors ≡ bytes.items) × IsDisk image)
            (λ e. (format_of_length (length bytes.items) ≡ None) × (e.0 ≡ bytes) × (e.1 ≡ GeomError.WrongLength)) }
    {
        match Format::of_length(bytes.len()) {
            Some(format) => Ok(Image { format, bytes }),
            None => Err((bytes, GeomError::WrongLength)),
        }
    }

    /// The image of a blank disk, all of whose bytes are E5h.
    #[tactic(auto, using(crate::proofs::GeometryLemmas::format_of_size), unfolding(crate::specs::Disk::blank_disk))]
    pub fn blank(alloc: Global, format: Format) -> Result<Image, AllocError>
        ensures { IfOk result (λ image. image ≡ blank_disk format) }
    {
        let bytes = vec![in alloc; 0xE5u8; format.sector_count() * SECTOR_SIZE]?;
        Ok(Image { format, bytes })
    }

    /// An equal image; refused if out of memory.
    pub fn copy(&self, alloc: Global) -> Result<Image, AllocError>
        ensures { IfOk result (λ image. image ≡ self.now) }
    {
        let mut bytes = Vec::with_capacity(alloc, self.bytes.len())?;
        bytes.extend_from_slice(&self.bytes)?;
        Ok(Image {
            format: self.format,
            bytes,
        })
    }

    /// The image's bytes: its sectors one after the other.
    pub fn into_bytes(self) -> Vec<u8>
        ensures { result.items ≡ concat self.sectors }
    {
        let Image { bytes, .. } = self;
        bytes
    }

    /// The image's bytes: its sectors one after the other.
    pub fn bytes(&self) -> &[u8]
        ensures value { result.now ≡ concat self.now.sectors }
        ensures length { format_of_length (length result.now) ≡ Some self.now.format }
        ensures whole { IsDisk self.now }
    {
        &self.bytes
    }

    /// The image's format.
    pub fn format(&self) -> Format
        ensures format { result ≡ self.now.format }
        ensures whole { IsDisk self.now }
        ensures bytes { HasBytes self.now }
    {
        only_bytes(&self.bytes);
        self.format
    }

    /// The bytes of a sector, by its track and its number on it.
    pub fn sector(&self, track: u16, sector: u16) -> Result<&[u8], GeomError>
        ensures { MatchResult result
            (λ bytes. IsSector self.now.format track sector
            × (bytes.now ≡ sector_at self.now (sector_index self.now.format track sector)) × (length bytes.now ≡ 128))
            (λ e. ¬ IsSector self.now.format track sector × (e ≡ GeomError.NoSuchSector)) }
    {
        if self.format.has_sector(track, sector) {
            Ok(self.at(self.format.index_of_sector(track, sector)))
        } else {
            Err(GeomError::NoSuchSector)
        }
    }

    /// The bytes of a record.
    pub fn record(&self, number: u16) -> Result<&[u8], GeomError>
        ensures { MatchResult result
            (λ bytes. IsRecord self.now.format number × (bytes.now ≡ sector_at self.now (record_index self.now.format number)) × (length bytes.now ≡ 128))
            (λ e. ¬ IsRecord self.now.format number × (e ≡ GeomError.NoSuchSector)) }
    {
        if self.format.has_record(number) {
            Ok(self.at(self.format.index_of_record(number)))
        } else {
            Err(GeomError::NoSuchSector)
        }
    }

    /// Writes a sector, and no other.
    pub fn put_sector(&mut self, track: u16, sector: u16, data: &[u8; 128]) -> Result<(), GeomError>
        ensures { MatchResult result
            (λ _. IsSector self.old.format track sector × (self.new ≡ with_sector self.old (sector_index self.old.format track sector) «data».now))
            (λ e. ¬ IsSector self.old.format track sector × (e ≡ GeomError.NoSuchSector) × (self.new ≡ self.old)) }
    {
        if self.format.has_sector(track, sector) {
            let place = self.format.index_of_sector(track, sector);
            self.put(place, data);
            Ok(())
        } else {
            Err(GeomError::NoSuchSector)
        }
    }

    /// Writes a record, and no other sector.
    pub fn put_record(&mut self, number: u16, data: &[u8; 128]) -> Result<(), GeomError>
        ensures { MatchResult result
            (λ _. IsRecord self.old.format number × (self.new ≡ with_sector self.old (record_index self.old.format number) «data».now))
            (λ e. ¬ IsRecord self.old.format number × (e ≡ GeomError.NoSuchSector) × (self.new ≡ self.old)) }
    {
        if self.format.has_record(number) {
            let place = self.format.index_of_record(number);
            self.put(place, data);
            Ok(())
        } else {
            Err(GeomError::NoSuchSector)
        }
    }

    /// The sector at a place of the image.
    fn at(&self, place: usize) -> &[u8]
        requires { place < sector_count self.now.format }
        ensures bytes { result.now ≡ sector_at self.now place }
        ensures size { length result.now ≡ 128 }
    {
        let start = place * SECTOR_SIZE;
        &self.bytes[start..start + SECTOR_SIZE]
    }

    /// Writes the sector at a place of the image.
    fn put(&mut self, place: usize, data: &[u8; 128])
        requires { place < sector_count self.old.format }
        ensures { self.new ≡ with_sector self.old place «data».now }
    {
        let start = place * SECTOR_SIZE;
        self.bytes[start..start + SECTOR_SIZE].copy_from_slice(data);
    }
}

/// Does nothing: that each of these numbers is below 256 is known by their type.
fn only_bytes(bytes: &[u8])
    ensures { (k : ℕ) → slice_index bytes.now k < 256 }
{}
