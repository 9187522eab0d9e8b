//! The sectors of the drives, as the BIOS reads and writes them.

ghost use Rattle.std.specs.Prelude.{◌≡◌, unwrap_or, is_some, if◌then◌else◌};
ghost use Rattle.cpm_drives.specs.Sectors.{has_sector, drive_with_sector, sector_read, sector_written};

use crate::disks::{Disks, drive_in};
use cpm_drive::Drive;
use cpm_geom::Image;

impl Disks {
    /// Reads a sector into a buffer, and says whether it is there. The drive must be; 0 is A.
    pub fn read_sector(
        &self,
        system: &Image,
        drive: u8,
        track: u16,
        sector: u16,
        buffer: &mut [u8; 128],
    ) -> bool
        ensures there { result ≡ is_some (sector_read self.now system.now drive track sector) }
        ensures bytes { buffer.new ≡ unwrap_or (sector_read self.now system.now drive track sector) buffer.old }
    {
        match self.image_at(system, drive).sector(track, sector) {
            Ok(bytes) => {
                buffer.copy_from_slice(bytes);
                true
            }
            Err(_) => false,
        }
    }

    /// Writes a sector of an own drive, and says whether it is there. The system drive is never written.
    pub fn write_sector(&mut self, drive: u8, track: u16, sector: u16, bytes: &[u8; 128]) -> bool
        ensures there { result ≡ is_some (sector_written self.old drive track sector bytes.now) }
        ensures disks { self.new ≡ unwrap_or (sector_written self.old drive track sector bytes.now) self.old }
    {
        if !self.is_own(drive) {
            return false;
        }
        let own = drive_in(&mut self.drives[usize::from(drive)]);
        put_sector(own, track, sector, bytes)
    }
}

/// Writes a sector of a drive, and says whether it is there.
fn put_sector(drive: &mut Drive, track: u16, sector: u16, bytes: &[u8; 128]) -> bool
    ensures there { result ≡ has_sector drive.old.image.format track sector }
    ensures drive { drive.new ≡ if has_sector drive.old.image.format track sector then drive_with_sector drive.old track sector bytes.now else drive.old }
{
    drive.image.put_sector(track, sector, bytes).is_ok()
}
