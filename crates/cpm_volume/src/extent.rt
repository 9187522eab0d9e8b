//! What a directory entry and a file control block say of a part of a file.

ghost use Rattle.std.specs.Prelude.{◌≡◌, ◌<◌};

use crate::encoding::{extent_byte, extent_from_bytes};
use cpm_geom::Dpb;

/// Bytes 1 to 31 of a directory entry, and of a file control block.
#[derive(Clone, Copy, PartialEq, Eq, Debug)]
pub struct Extent {
    /// Eight characters of a name and three of a type, with their attribute bits.
    pub name: [u8; 11],
    /// The low part of the extent's number.
    pub ex: u8,
    pub s1: u8,
    /// The high part of the extent's number.
    pub s2: u8,
    /// The records in the extent of that number.
    pub record_count: u8,
    /// Block numbers, 0 for none. A drive with more than 256 blocks has eight.
    pub blocks: [u16; 16],
}

/// A directory entry.
#[derive(Clone, Copy, PartialEq, Eq, Debug)]
pub struct Entry {
    /// The user whose file it is, or E5h where the entry is not in use.
    pub user: u8,
    pub extent: Extent,
}

impl Extent {
    ghost use Rattle.cpm_volume.specs.Files.{extent_number};
    ghost use Rattle.cpm_volume.specs.Names.{is_read_only};

    /// The number of the extent.
    #[tactic(auto, unfolding(crate::specs::Files::extent_number))]
    pub fn number(&self) -> u16
        ensures value { result ≡ extent_number self.now }
        ensures small { result < 512 }
    {
        32 * u16::from(self.s2 % 16) + u16::from(self.ex % 32)
    }

    /// Whether the file is read-only: the high bit of its type's first character.
    #[tactic(auto, unfolding(crate::specs::Names::is_read_only))]
    pub fn is_read_only(&self) -> bool
        ensures { result ≡ is_read_only self.now.name }
    {
        127 < self.name[8]
    }
}

impl Entry {
    ghost use Rattle.cpm_volume.specs.Encoding.{entry_of, entry_bytes, entry_byte};

    /// The entry of 32 bytes.
    #[tactic(auto, unfolding(crate::specs::Encoding::entry_of))]
    pub fn from_bytes(dpb: &Dpb, bytes: &[u8; 32]) -> Entry
        ensures { result ≡ entry_of dpb.now bytes.now }
    {
        Entry {
            user: bytes[0],
            extent: extent_from_bytes(dpb, bytes),
        }
    }

    /// Its 32 bytes.
    pub fn to_bytes(&self, dpb: &Dpb) -> [u8; 32]
        ensures { result ≡ entry_bytes dpb.now self.now }
    {
        let mut bytes = [0; 32];
        for offset in 0..32 {
            bytes[offset] = self.byte(dpb, offset);
        }
        bytes
    }

    #[tactic(auto, unfolding(crate::specs::Encoding::entry_byte))]
    fn byte(&self, dpb: &Dpb, offset: usize) -> u8
        requires { offset < 32 }
        ensures { result ≡ entry_byte dpb.now self.now offset }
    {
        if offset == 0 {
            self.user
        } else {
            extent_byte(dpb, &self.extent, offset)
        }
    }
}
