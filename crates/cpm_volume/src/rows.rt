//! Worked rows of the calls on files, computed from their definitions.

ghost use Rattle.cpm_volume.specs.Rows.{Row129, Row300, RowShared, Row1928, Row16320, Row64, Row256, RowMerge};
ghost use Rattle.cpm_volume.specs.Rows.{RowProtected, RowCrowded, RowFill, RowFilledBefore, RowReads, RowBadSector};
ghost use Rattle.cpm_volume.specs.NameRows.{RowErase, RowRename, RowAttributes};

/// 129 records fill one entry of the standard disk and begin another.
pub fn a_full_extent_is_closed_and_the_next_made()
    ensures { Row129 }
{}

/// 300 records fill one entry of the large disk and begin another.
pub fn two_extents_share_an_entry()
    ensures { Row300 }
{}

/// The extents of a shared entry, opened.
pub fn a_shared_entry_is_opened_for_each_extent()
    ensures { RowShared }
{}

/// 1,928 records fit one file on the standard disk.
pub fn the_last_block_is_taken()
    ensures { Row1928 }
{}

/// 16,320 records fit one file on the large disk.
pub fn the_large_disks_last_block_is_taken()
    ensures { Row16320 }
{}

/// 64 files fit the standard disk's directory.
pub fn the_last_entry_is_taken()
    ensures { Row64 }
{}

/// 256 files fit the large disk's directory.
pub fn the_large_disks_last_entry_is_taken()
    ensures { Row256 }
{}

/// A close merges the two maps, and refuses unlike numbers.
pub fn a_close_merges_the_maps()
    ensures { RowMerge }
{}

/// A close on a protected drive changes nothing.
pub fn a_protected_drive_stays()
    ensures { RowProtected }
{}

/// A write that finds no entry for its extent leaves the last one closed.
pub fn a_crossing_that_fails_has_closed()
    ensures { RowCrowded }
{}

/// Only function 40 clears a block that it takes.
pub fn zero_fill_clears_a_new_block()
    ensures { RowFill }
{}

/// Function 40 leaves the rest of a block that the file has.
pub fn zero_fill_leaves_an_old_block()
    ensures { RowFilledBefore }
{}

/// Reads in sequence and at random.
pub fn reads_end_with_the_file()
    ensures { RowReads }
{}

/// A forged block number is a Bad Sector.
pub fn a_forged_number_is_a_bad_sector()
    ensures { RowBadSector }
{}

/// An erase frees the entries and the blocks of a file.
pub fn an_erased_file_frees_its_entries_and_blocks()
    ensures { RowErase }
{}

/// A rename changes each entry of a file.
pub fn a_rename_changes_each_entry()
    ensures { RowRename }
{}

/// Attributes are set in each entry; a read-only file is neither erased nor renamed.
pub fn attributes_are_set_in_each_entry()
    ensures { RowAttributes }
{}
