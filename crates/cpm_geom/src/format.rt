//! The formats of disk images, and where a record lies on a disk.

ghost use Rattle.std.specs.Prelude.{◌≡◌, ◌<◌, ◌≤◌, ◌↔◌, IsTrue};
ghost use Rattle.cpm_geom.specs.Geometry.{format_of_length, dpb_of, tracks_of, first_sector_of, sectors_per_track};
ghost use Rattle.cpm_geom.specs.Geometry.{sector_of, sector_count, sector_index, record_index, track_of, IsSector, IsRecord};

use crate::dpb::Dpb;

/// The sectors of an IBM 3740 track in the order of its records.
const SKEW: [u8; 26] = [
    1, 7, 13, 19, 25, 5, 11, 17, 23, 3, 9, 15, 21, 2, 8, 14, 20, 26, 6, 12, 18, 24, 4, 10, 16, 22,
];

/// A format of disk images.
#[derive(Clone, Copy, PartialEq, Eq, Debug)]
pub enum Format {
    /// IBM 3740, single density: 77 tracks of 26 sectors, 256,256 bytes.
    Ibm3740,
    /// This project's large disk: 257 tracks of 64 sectors, 2,105,344 bytes.
    Large,
}

impl Format {
    /// The format of images of this many bytes.
    #[tactic(auto, unfolding(crate::specs::Geometry::format_of_length))]
    pub fn of_length(length: usize) -> Option<Format>
        ensures { result ≡ format_of_length length }
    {
        match length {
            256_256 => Some(Format::Ibm3740),
            2_105_344 => Some(Format::Large),
            _ => None,
        }
    }

    /// The disk parameter block.
    #[tactic(auto, unfolding(crate::specs::Geometry::dpb_of))]
    pub fn dpb(self) -> Dpb
        ensures { result ≡ dpb_of self }
    {
        match self {
            Format::Ibm3740 => Dpb {
                sectors_per_track: 26,
                block_shift: 3,
                block_mask: 7,
                extent_mask: 0,
                last_block: 242,
                last_entry: 63,
                directory_bits: 0xC000,
                checksum_size: 16,
                track_offset: 2,
            },
            Format::Large => Dpb {
                sectors_per_track: 64,
                block_shift: 5,
                block_mask: 31,
                extent_mask: 1,
                last_block: 511,
                last_entry: 255,
                directory_bits: 0xC000,
                checksum_size: 0,
                track_offset: 1,
            },
        }
    }

    /// The number of tracks.
    #[tactic(auto, unfolding(crate::specs::Geometry::tracks_of))]
    pub fn tracks(self) -> u16
        ensures { result ≡ tracks_of self }
    {
        match self {
            Format::Ibm3740 => 77,
            Format::Large => 257,
        }
    }

    /// The number of a track's first sector.
    #[tactic(auto, unfolding(crate::specs::Geometry::first_sector_of))]
    fn first_sector(self) -> u16
        ensures { result ≡ first_sector_of self }
    {
        match self {
            Format::Ibm3740 => 1,
            Format::Large => 0,
        }
    }

    /// The number of sectors, and so of records, on a track.
    #[tactic(auto, using(crate::proofs::GeometryLemmas::track_has_records), unfolding(crate::specs::Geometry::sectors_per_track))]
    fn sectors_per_track(self) -> u16
        ensures value { result ≡ sectors_per_track self }
        ensures some { 0 < result }
    {
        self.dpb().sectors_per_track
    }

    /// The number of sectors.
    #[tactic(auto, unfolding(crate::specs::Geometry::sector_count), using(crate::proofs::GeometryLemmas::sector_count_small))]
    pub(crate) fn sector_count(self) -> usize
        ensures count { result ≡ sector_count self }
        ensures small { result ≤ 65536 }
    {
        usize::from(self.tracks()) * usize::from(self.sectors_per_track())
    }

    /// The sector of a track's record.
    pub fn sector_of(self, place: u16) -> u8
        requires { place < sectors_per_track self }
        ensures { result ≡ sector_of self place }
    {
        match self {
            Format::Ibm3740 => SKEW[usize::from(place)],
            Format::Large => place as u8,
        }
    }

    /// The track of a record.
    #[tactic(auto, unfolding(crate::specs::Geometry::track_of))]
    fn track_of(self, number: u16) -> u32
        ensures { result ≡ track_of self number }
    {
        u32::from(self.dpb().track_offset) + u32::from(number / self.sectors_per_track())
    }

    /// Whether the track and the sector are there.
    pub(crate) fn has_sector(self, track: u16, sector: u16) -> bool
        ensures { IsTrue result ↔ IsSector self track sector }
    {
        track < self.tracks()
            && self.first_sector() <= sector
            && sector - self.first_sector() < self.sectors_per_track()
    }

    /// The place of a sector in an image.
    pub(crate) fn index_of_sector(self, track: u16, sector: u16) -> usize
        requires { IsSector self track sector }
        ensures place { result ≡ sector_index self track sector }
        ensures within { result < sector_count self }
    {
        usize::from(track) * usize::from(self.sectors_per_track())
            + usize::from(sector - self.first_sector())
    }

    /// Whether the record is there.
    pub(crate) fn has_record(self, number: u16) -> bool
        ensures { IsTrue result ↔ IsRecord self number }
    {
        self.track_of(number) < u32::from(self.tracks())
    }

    /// The place of a record's sector in an image.
    pub(crate) fn index_of_record(self, number: u16) -> usize
        requires { IsRecord self number }
        ensures place { result ≡ record_index self number }
        ensures within { result < sector_count self }
    {
        let track = self.track_of(number) as u16;
        let sector = u16::from(self.sector_of(number % self.sectors_per_track()));
        self.index_of_sector(track, sector)
    }
}
