//! The drives of open slots, and what an opening is refused for before its drives are there.

ghost use Rattle.std.specs.Prelude.{◌≡◌, ◌<◌, length, slice_get, IfSome, List, Option, option_map};
ghost use Rattle.cpm_drives.specs.Disks.{image_of, own_drive};
ghost use Rattle.cpm_memory.specs.Contents.{Contents};
ghost use Rattle.cpm_slots.specs.Slots.{slots_of};

use crate::event::SlotId;
use crate::host::Host;
use crate::slots::{Slot, index_of};
use cpm_drives::Disks;
use cpm_geom::Image;
use cpm_machine::{LEAST_QUOTA, MOST_DRIVES, MOST_QUOTA, OpenError};

/// The image of a drive of a session, if it has the drive.
#[tactic(auto, unfolding(cpm_drives::specs::Disks::own_drive))]
fn own_image(disks: &Disks, drive: u8) -> Option<&Image>
    ensures { option_map (λ image. image.now) result ≡ image_of (own_drive disks.now drive) }
{
    match disks.drives.get(usize::from(drive)) {
        Some(Some(own)) => Some(own.image.image()),
        _ => None,
    }
}

/// The image of a drive of the session at a place, if it has the drive.
fn image_at(slots: &[Slot], index: usize, drive: u8) -> Option<&Image>
    requires { index < length slots.now }
    ensures { (memories : List (Option Contents)) → IfSome (slice_get (slots_of memories slots.now) index)
        (λ x. option_map (λ image. image.now) result ≡ image_of (own_drive x.state.session.disks drive)) }
{
    let slot = &slots[index];
    own_image(&slot.runner.session.disks, drive)
}

impl Host {
    ghost use Rattle.cpm_slots.specs.Drives.{drive_image, open_fault};
    ghost use Rattle.cpm_slots.specs.Host.{slot_at};

    /// The image of a drive of a slot, as it is now: 0 is drive A. None where the slot is not open, or has no such drive.
    pub fn drive_image(&self, id: SlotId, drive: u8) -> Option<&Image>
        ensures { option_map (λ image. image.now) result ≡ drive_image drive (slot_at id.0 self.now.host.slots) }
    {
        match index_of(&self.slots, id) {
            None => None,
            Some(index) => image_at(&self.slots, index, drive),
        }
    }

    /// Why no session is opened with this quota and so many drives, memory aside.
    pub fn open_fault(&self, quota: u16, drives: usize) -> Option<OpenError>
        ensures { result ≡ open_fault self.now.host quota drives }
    {
        if quota < LEAST_QUOTA || quota > MOST_QUOTA {
            Some(OpenError::BadQuota)
        } else if drives == 0 || drives > MOST_DRIVES {
            Some(OpenError::BadDrives)
        } else if self.lacks_slot() {
            Some(OpenError::NoSlot)
        } else if self.lacks_frames(quota) {
            Some(OpenError::NoFrames)
        } else {
            None
        }
    }
}
