//! The drives of a session.

ghost use Rattle.std.specs.Prelude.{◌≡◌, ◌<◌, IfOk, IsTrue, None, Some, true, is_some, slice_index_or, drop};
ghost use Rattle.std.specs.List.{slice_get};
ghost use Rattle.std.specs.Borrow.{sem};
ghost use Rattle.cpm_drives.specs.Lending.{LendsDrive};
ghost use Rattle.cpm_drives.specs.Disks.{new_drive, opened_disks, image_of, images_of};

use crate::search::Search;
use cpm_drive::{Drive, Marks};
use cpm_geom::{Format, Image};
use std::alloc::{AllocError, Global};
use std::vec::IntoIter;

/// The drives of a session: its own, and what it keeps of the system drive that all sessions share.
#[derive(Drop)]
pub struct Disks {
    /// The drives A to D, as far as the session has them.
    pub drives: [Option<Drive>; 4],
    /// The marks of the system drive P.
    pub system: Marks,
    /// The number of the current drive: 0 for A, 15 for P.
    pub current: u8,
    pub user: u8,
    pub sought: Option<Search>,
}

impl Disks {
    /// The drives of a session at its opening: the first four images are A to D. It takes no memory.
    pub fn new(images: Vec<Image>) -> Disks
        ensures { result ≡ opened_disks images.items }
    {
        let mut images = images.into_iter();
        Disks {
            drives: [
                next_drive(&mut images),
                next_drive(&mut images),
                next_drive(&mut images),
                next_drive(&mut images),
            ],
            // Its image is seen when it is first used; no format has more blocks.
            system: Marks::new(Format::Large, false),
            current: 0,
            user: 0,
            sought: None,
        }
    }

    /// Equal drives; refused if out of memory.
    pub fn copy(&self, alloc: Global) -> Result<Disks, AllocError>
        ensures { IfOk result (λ disks. disks ≡ self.now) }
    {
        Ok(Disks {
            drives: [
                drive_copy(alloc, &self.drives[0])?,
                drive_copy(alloc, &self.drives[1])?,
                drive_copy(alloc, &self.drives[2])?,
                drive_copy(alloc, &self.drives[3])?,
            ],
            system: self.system.copied(),
            current: self.current,
            user: self.user,
            sought: self.sought,
        })
    }

    /// What is left of the drives A to D.
    pub fn into_images(self) -> [Option<Image>; 4]
        ensures { result ≡ images_of self }
    {
        self.drives.map(image_of)
    }
}

/// A new drive of the next image, if there is one.
fn next_drive(images: &mut IntoIter<Image>) -> Option<Drive>
    ensures drive { result ≡ new_drive (slice_get images.old.rest.items 0) }
    ensures rest { images.new.rest.items ≡ drop 1 images.old.rest.items }
{
    Some(Drive::new(images.next()?))
}

/// An equal drive, where there is one.
fn drive_copy(alloc: Global, drive: &Option<Drive>) -> Result<Option<Drive>, AllocError>
    ensures { IfOk result (λ copy. copy ≡ drive.now) }
{
    match drive {
        Some(own) => Ok(Some(own.copy(alloc)?)),
        None => Ok(None),
    }
}

/// What is left of a drive.
fn image_of(drive: Option<Drive>) -> Option<Image>
    ensures { result ≡ image_of drive }
{
    match drive {
        Some(Drive { image, .. }) => Some(image.into_image()),
        None => None,
    }
}

/// Whether there is a drive at a number.
pub(crate) fn is_in(drives: &[Option<Drive>; 4], number: u8) -> bool
    ensures value { result ≡ is_some (slice_index_or drives.now number None) }
    ensures within { IsTrue result → number < 4 }
{
    number < 4 && drives[usize::from(number)].is_some()
}

/// The drive in a place that has one, to be changed.
pub(crate) fn drive_in(place: &mut Option<Drive>) -> &mut Drive
    requires { is_some place.old ≡ true }
    ensures* writes_back { sem 𝓛 (LendsDrive place.entry result) }
    ensures value { place.old ≡ Some result.now }
{
    match place {
        Some(drive) => drive,
        None => unreachable!(),
    }
}
