//! The vectors of drives and of blocks.

ghost use Rattle.std.specs.Prelude.{◌≡◌, ◌≤◌, ◌<◌, ◌+◌, ◌^◌, false, MatchOption, length};
ghost use Rattle.cpm_geom.specs.Geometry.{dpb_of};
ghost use Rattle.cpm_drives.specs.Disks.{drive_at};
ghost use Rattle.cpm_drives.specs.Vectors.{drive_bit, login_vector, read_only_vector, is_reserved_block, allocation_byte, allocation_vector, allocation_of};

use crate::disks::Disks;
use crate::selecting::SYSTEM;
use arrayvec::ArrayVec;
use cpm_directory::Reserved;
use cpm_drive::Drive;
use cpm_geom::{Format, Image};

impl Disks {
    /// RETURN LOGIN VECTOR: a bit for each drive that is logged in, A's the lowest.
    pub fn login_vector(&self) -> u16
        ensures { result ≡ login_vector self.now }
    {
        let own = vector_of(
            is_logged_in(&self.drives[0]),
            is_logged_in(&self.drives[1]),
            is_logged_in(&self.drives[2]),
            is_logged_in(&self.drives[3]),
        );
        own + drive_bit(self.system.is_logged_in, SYSTEM)
    }

    /// GET READ-ONLY VECTOR: a bit for each drive that is protected, A's the lowest.
    pub fn read_only_vector(&self) -> u16
        ensures { result ≡ read_only_vector self.now }
    {
        let own = vector_of(
            is_protected(&self.drives[0]),
            is_protected(&self.drives[1]),
            is_protected(&self.drives[2]),
            is_protected(&self.drives[3]),
        );
        own + drive_bit(true, SYSTEM)
    }

    /// The allocation vector of the current drive: a bit for each block, the highest of a byte first, set where the
    /// block is reserved.
    pub fn allocation_vector(&self, system: &Image) -> ArrayVec<u8, 64>
        ensures value { result.items ≡ allocation_of (drive_at self.now system.now self.now.current) }
        ensures size { length result.items ≤ 64 }
    {
        let format = self.image_at(system, self.current).format();
        if !self.is_own(self.current) {
            return allocation_vector(format, &self.system.reserved);
        }
        let Some(own) = &self.drives[usize::from(self.current)] else {
            unreachable!()
        };
        allocation_vector(format, &own.marks.reserved)
    }
}

/// Whether a drive is there and logged in.
fn is_logged_in(drive: &Option<Drive>) -> bool
    ensures { MatchOption drive.now (result ≡ false) (λ own. result ≡ own.marks.is_logged_in) }
{
    match drive {
        Some(own) => own.marks.is_logged_in,
        None => false,
    }
}

/// Whether a drive is there and protected.
fn is_protected(drive: &Option<Drive>) -> bool
    ensures { MatchOption drive.now (result ≡ false) (λ own. result ≡ own.marks.is_protected) }
{
    match drive {
        Some(own) => own.marks.is_protected,
        None => false,
    }
}

/// The vector of those of the drives A to D that are such.
fn vector_of(a: bool, b: bool, c: bool, d: bool) -> u16
    ensures value { result ≡ drive_bit a 0 + (drive_bit b 1 + (drive_bit c 2 + drive_bit d 3)) }
    ensures small { result < 16 }
{
    drive_bit(a, 0) + (drive_bit(b, 1) + (drive_bit(c, 2) + drive_bit(d, 3)))
}

/// The bit of a drive in a vector, if it is set.
fn drive_bit(set: bool, drive: u8) -> u16
    requires { drive < 16 }
    ensures value { result ≡ drive_bit set drive }
    ensures small { result ≤ 2 ^ drive }
{
    if set { 1 << drive } else { 0 }
}

/// A bit for each block of a drive.
fn allocation_vector(format: Format, reserved: &Reserved) -> ArrayVec<u8, 64>
    ensures value { result.items ≡ allocation_vector (dpb_of format) reserved.now }
    ensures size { length result.items ≤ 64 }
{
    let mut bytes = ArrayVec::new();
    for place in 0..format.dpb().last_block / 8 + 1 {
        bytes.push(allocation_byte(format, reserved, place));
    }
    bytes
}

/// The bits of eight blocks.
fn allocation_byte(format: Format, reserved: &Reserved, place: u16) -> u8
    requires { place < 64 }
    ensures { result ≡ allocation_byte (dpb_of format) reserved.now place }
{
    let mut byte = 0;
    for offset in 0..8u8 {
        let block = 8 * place + u16::from(offset);
        byte += drive_bit(is_reserved(format, reserved, block), 7 - offset);
    }
    byte as u8
}

/// Whether a block is one of the drive's and reserved.
fn is_reserved(format: Format, reserved: &Reserved, block: u16) -> bool
    ensures { result ≡ is_reserved_block (dpb_of format) reserved.now block }
{
    block <= format.dpb().last_block && reserved.contains(block)
}
