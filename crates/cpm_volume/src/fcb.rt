//! File control blocks.

ghost use Rattle.std.specs.Prelude.{◌≡◌, ◌<◌};
ghost use Rattle.cpm_volume.specs.Encoding.{fcb_of, fcb_bytes, fcb_byte};

use crate::encoding::{extent_byte, extent_from_bytes};
use crate::extent::Extent;
use cpm_geom::Dpb;

/// A file control block.
#[derive(Clone, Copy, PartialEq, Eq, Debug)]
pub struct Fcb {
    /// 0 for the current drive, 1 for A and so on.
    pub drive: u8,
    pub extent: Extent,
    /// The record that the next sequential read or write is of.
    pub current_record: u8,
    /// The record that the next random read or write is of, low byte first.
    pub random_record: [u8; 3],
}

impl Fcb {
    /// The file control block of 36 bytes.
    #[tactic(auto, unfolding(crate::specs::Encoding::fcb_of))]
    pub fn from_bytes(dpb: &Dpb, bytes: &[u8; 36]) -> Fcb
        ensures { result ≡ fcb_of dpb.now bytes.now }
    {
        Fcb {
            drive: bytes[0],
            extent: extent_from_bytes(dpb, bytes),
            current_record: bytes[32],
            random_record: [bytes[33], bytes[34], bytes[35]],
        }
    }

    /// Its 36 bytes.
    pub fn to_bytes(&self, dpb: &Dpb) -> [u8; 36]
        ensures { result ≡ fcb_bytes dpb.now self.now }
    {
        let mut bytes = [0; 36];
        for offset in 0..36 {
            bytes[offset] = self.byte(dpb, offset);
        }
        bytes
    }

    #[tactic(auto, unfolding(crate::specs::Encoding::fcb_byte))]
    fn byte(&self, dpb: &Dpb, offset: usize) -> u8
        requires { offset < 36 }
        ensures { result ≡ fcb_byte dpb.now self.now offset }
    {
        if offset == 0 {
            self.drive
        } else if offset < 32 {
            extent_byte(dpb, &self.extent, offset)
        } else if offset == 32 {
            self.current_record
        } else {
            self.random_record[offset - 33]
        }
    }
}
