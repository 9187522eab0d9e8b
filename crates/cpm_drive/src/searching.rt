//! SEARCH FOR FIRST, SEARCH FOR NEXT and COMPUTE FILE SIZE: what the directory says of a name.

ghost use Rattle.std.specs.Prelude.{◌≡◌, ◌<◌, ◌≤◌, ℕ, IfSome, MatchOption, max};
ghost use Rattle.cpm_geom.specs.Geometry.{dpb_of};
ghost use Rattle.cpm_volume.specs.Names.{records_to, compute_size_on_volume};
ghost use Rattle.cpm_directory.specs.Directory.{entries_of};
ghost use Rattle.cpm_drive.specs.Named.{searched};

use cpm_directory::{LentImage, Pattern, find, is_named};
use cpm_volume::Entry;

/// SEARCH FOR FIRST and SEARCH FOR NEXT: the index of the first entry from a place on that is looked for. Its record of
/// the directory comes into the buffer.
pub fn search(
    image: &LentImage<'_>,
    pattern: &Pattern,
    from: u16,
    buffer: &mut [u8; 128],
) -> Option<u16>
    ensures found { (result, buffer.new) ≡ searched image.now pattern.now from buffer.old }
    ensures within { IfSome result (λ index. index ≤ (dpb_of image.now.format).last_entry) }
{
    match find(image, pattern, from) {
        Ok(index) => {
            buffer.copy_from_slice(image.record(index / 4).unwrap());
            Some(index)
        }
        Err(_) => None,
    }
}

/// COMPUTE FILE SIZE: the records up to the end of the last entry of a name, if there is one.
pub fn compute_size(image: &LentImage<'_>, user: u8, name: &[u8; 11]) -> Option<u32>
    ensures value { result ≡ compute_size_on_volume (entries_of image.now) user name.now }
    ensures small { IfSome result (λ size. size < 65664) }
{
    let mut size = None;
    for index in 0..image.format().dpb().last_entry + 1 {
        let entry = image.entry(index);
        if is_named(user, name, &entry) {
            size = Some(greater(size, records_to(&entry)));
        }
    }
    size
}

/// The records up to the end of an entry.
#[tactic(auto, unfolding(cpm_volume::specs::Names::records_to))]
fn records_to(entry: &Entry) -> u32
    ensures value { result ≡ records_to entry.now }
    ensures small { result < 65664 }
{
    let count = entry.extent.record_count;
    128 * u32::from(entry.extent.number()) + u32::from(count)
}

fn greater(size: Option<u32>, records: u32) -> u32
    ensures value { MatchOption size (result ≡ records) (λ size. result ≡ max size records) }
    ensures small { (bound : ℕ) → IfSome size (λ size. size < bound) → records < bound → result < bound }
{
    match size {
        Some(size) => size.max(records),
        None => records,
    }
}
