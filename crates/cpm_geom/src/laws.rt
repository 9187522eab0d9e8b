//! Laws on the definitions that the calls of this crate cite.

ghost use Rattle.cpm_geom.specs.Laws.{RecordsLaw, DisksAreTheirBytes, BytesAreTheirDisk};

/// Records lie apart on the disk, and writing one changes one record alone.
pub fn records_lie_apart()
    ensures { RecordsLaw }
{}

/// A disk is read back from its bytes: each whole disk is that of its sectors, one after the other.
pub fn disks_are_their_bytes()
    ensures { DisksAreTheirBytes }
{}

/// The bytes of an image are read back from its disk, which is whole: each list of bytes that has the length of a format's image.
pub fn bytes_are_their_disk()
    ensures { BytesAreTheirDisk }
{}
