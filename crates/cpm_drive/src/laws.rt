//! Laws on the definitions that the calls of this crate cite: what a call leaves is what the disk has then.

ghost use Rattle.cpm_drive.specs.Laws.{VolumeLaw, WritesLaw, CallsLaw, HoldsLaw};

/// A disk is as large as its volume says.
pub fn a_disk_holds_a_volume()
    ensures { VolumeLaw }
{}

/// What is written to a disk is written in the volume that it holds.
pub fn a_log_reaches_the_disk()
    ensures { WritesLaw }
{}

/// What a call leaves of a drive's volume is what its disk holds then.
pub fn calls_reach_the_disk()
    ensures { CallsLaw }
{}

/// A disk that holds a volume has its files.
pub fn a_disk_has_the_files_that_it_holds()
    ensures { HoldsLaw }
{}
