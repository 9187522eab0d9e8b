//! Laws on the definitions that the calls of this crate cite.

ghost use Rattle.cpm_volume.specs.Laws.{CloseLaw, SequentialWriteLaw, SequentialReadLaw, RandomWriteLaw};
ghost use Rattle.cpm_volume.specs.Laws.{ClearingWriteLaw, RandomReadLaw, OpenLaw, MakeLaw, FormatsLaw};
ghost use Rattle.cpm_volume.specs.Encoding.{EncodingLaw};
ghost use Rattle.cpm_volume.specs.NameLaws.{EraseLaw};
ghost use Rattle.cpm_volume.specs.LogLaws.{LogLaw};

/// Entries and file control blocks are their bytes.
pub fn entries_are_their_bytes()
    ensures { EncodingLaw }
{}

/// A close keeps the file.
pub fn close_keeps_the_file()
    ensures { CloseLaw }
{}

/// A write of the next record changes one record of one file.
pub fn sequential_write_changes_one_record()
    ensures { SequentialWriteLaw }
{}

/// A read of the next record answers the file's.
pub fn sequential_read_answers_the_file()
    ensures { SequentialReadLaw }
{}

/// A write of any record changes one record of one file.
pub fn random_write_changes_one_record()
    ensures { RandomWriteLaw }
{}

/// A write that takes a block fills the rest of it with zeros.
pub fn clearing_write_clears_a_new_block()
    ensures { ClearingWriteLaw }
{}

/// A read of any record answers the file's.
pub fn random_read_answers_the_file()
    ensures { RandomReadLaw }
{}

/// An open knows the file as the directory has it.
pub fn open_knows_the_file()
    ensures { OpenLaw }
{}

/// A make changes no file.
pub fn make_changes_no_file()
    ensures { MakeLaw }
{}

/// The parameters of each format are those of a drive that serves files.
pub fn formats_serve_files()
    ensures { FormatsLaw }
{}

/// An erase removes the files of a name, frees their blocks and changes no other file.
pub fn erase_frees_the_file()
    ensures { EraseLaw }
{}

/// A call has written what it changed, and changed what it has written.
pub fn calls_log_what_they_change()
    ensures { LogLaw }
{}
