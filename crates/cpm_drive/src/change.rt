//! Entries of a directory that a call is about to write.

ghost use Rattle.std.specs.Prelude.{◌≡◌, ◌<◌, ◌≤◌, MatchOption, length};
ghost use Rattle.cpm_geom.specs.Geometry.{dpb_of};
ghost use Rattle.cpm_volume.specs.Files.{entry_at, group_of, first_match, first_free, matches};
ghost use Rattle.cpm_directory.specs.Directory.{entries_of};
ghost use Rattle.cpm_drive.specs.Judged.{entries_after};

use cpm_directory::directory::DELETED;
use cpm_directory::{LentImage, Pattern};
use cpm_volume::Entry;

/// An entry of the directory that a call is about to write.
#[derive(Clone, Copy, PartialEq, Eq, Debug)]
pub struct Change {
    pub index: u16,
    pub entry: Entry,
}

/// The entry at an index, once a change is written.
pub(crate) fn entry_after(image: &LentImage<'_>, change: Option<Change>, index: u16) -> Entry
    requires { index ≤ (dpb_of image.now.format).last_entry }
    ensures { result ≡ entry_at (entries_after (entries_of image.now) change) index }
{
    match change {
        Some(change) => {
            if change.index == index {
                change.entry
            } else {
                image.entry(index)
            }
        }
        None => image.entry(index),
    }
}

/// The index of the first entry of a user, a name and a group, once a change is written.
pub(crate) fn first_match(
    image: &LentImage<'_>,
    change: Option<Change>,
    user: u8,
    name: &[u8; 11],
    group: u16,
) -> Option<u16>
    ensures { MatchOption result
        (length (entries_of image.now) ≤ first_match (dpb_of image.now.format) (entries_after (entries_of image.now) change) user name.now group)
        (λ index. (index ≡ first_match (dpb_of image.now.format) (entries_after (entries_of image.now) change) user name.now group)
        × (index ≤ (dpb_of image.now.format).last_entry)) }
{
    let dpb = image.format().dpb();
    let pattern = Pattern::Files {
        user,
        name: *name,
        group: Some(group),
    };
    for index in 0..dpb.last_entry + 1 {
        if pattern.matches(&dpb, &entry_after(image, change, index)) {
            return Some(index);
        }
    }
    None
}

/// The index of the first entry that is not in use, once a change is written.
pub(crate) fn first_free(image: &LentImage<'_>, change: Option<Change>) -> Option<u16>
    ensures { MatchOption result
        (length (entries_of image.now) ≤ first_free (entries_after (entries_of image.now) change))
        (λ index. (index ≡ first_free (entries_after (entries_of image.now) change)) × (index ≤ (dpb_of image.now.format).last_entry)) }
{
    for index in 0..image.format().dpb().last_entry + 1 {
        if entry_after(image, change, index).user == DELETED {
            return Some(index);
        }
    }
    None
}
