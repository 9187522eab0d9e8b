//! The parameters of a drive.

/// The disk parameter block of a drive, as the manual names its fields.
#[derive(Clone, Copy, PartialEq, Eq, Debug)]
pub struct Dpb {
    /// SPT: records of 128 bytes on a track.
    pub sectors_per_track: u16,
    /// BSH: a block has two to this power of records.
    pub block_shift: u8,
    /// BLM: the number of records in a block, less one.
    pub block_mask: u8,
    /// EXM: the number of extents in a directory entry, less one.
    pub extent_mask: u8,
    /// DSM: the greatest block number.
    pub last_block: u16,
    /// DRM: the greatest index of a directory entry.
    pub last_entry: u16,
    /// AL0 and AL1: the directory's blocks, the highest bit for block 0.
    pub directory_bits: u16,
    /// CKS: the size of the directory's checksum vector.
    pub checksum_size: u16,
    /// OFF: the tracks before the first record.
    pub track_offset: u16,
}
