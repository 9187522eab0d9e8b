//! The law that tells beforehand what a file needs of a disk.

ghost use Rattle.cpm_image_files.specs.Laws.{AppendingLaw};

/// At the end of a file a write of the next record takes what the record needs, and nothing else.
pub fn appending_takes_what_it_needs()
    ensures { AppendingLaw }
{}
