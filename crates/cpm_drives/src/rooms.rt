//! Room for the entries of a session's drives.

ghost use Rattle.std.specs.Prelude.{◌≡◌};

use crate::disks::Disks;
use cpm_directory::EntryRoom;
use cpm_drive::Drive;
use std::alloc::{AllocError, Global};

/// Room for the entries of the drives A to D, as far as a session has them.
#[derive(Drop)]
pub struct EntryRooms([Option<EntryRoom>; 4]);

impl EntryRooms {
    /// Room for the first so many drives; refused if out of memory.
    pub fn new(alloc: Global, drives: usize) -> Result<EntryRooms, AllocError> {
        Ok(EntryRooms([
            room_if(alloc, 0 < drives)?,
            room_if(alloc, 1 < drives)?,
            room_if(alloc, 2 < drives)?,
            room_if(alloc, 3 < drives)?,
        ]))
    }
}

/// Room for the entries of a drive, if it is wanted.
fn room_if(alloc: Global, is_wanted: bool) -> Result<Option<EntryRoom>, AllocError> {
    if is_wanted {
        Ok(Some(EntryRoom::new(alloc)?))
    } else {
        Ok(None)
    }
}

impl Disks {
    /// Keeps the entries of the drives in this room from now on. They are found sooner then, and nothing else is changed.
    pub fn keep_entries(&mut self, rooms: EntryRooms)
        ensures { self.new ≡ self.old }
    {
        let EntryRooms([first, second, third, fourth]) = rooms;
        keep(&mut self.drives[0], first);
        keep(&mut self.drives[1], second);
        keep(&mut self.drives[2], third);
        keep(&mut self.drives[3], fourth);
    }
}

/// Keeps the entries of a drive in this room, where there are both.
fn keep(drive: &mut Option<Drive>, room: Option<EntryRoom>)
    ensures { drive.new ≡ drive.old }
{
    let Some(room) = room else {
        return;
    };
    if let Some(drive) = drive.as_mut() {
        keep_in(drive, room);
    }
}

/// Keeps the entries of a drive in this room.
fn keep_in(drive: &mut Drive, room: EntryRoom)
    ensures { drive.new ≡ drive.old }
{
    drive.image.keep_entries(room);
}
