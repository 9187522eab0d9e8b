//! Where a call on a record of a file stands when it comes to its record: in the extent that was open, or in another
//! one, for which the open one is closed.

ghost use Rattle.std.specs.Prelude.{◌≡◌, ◌<◌, ◌≤◌, IfOk, Some, None};
ghost use Rattle.cpm_geom.specs.Geometry.{dpb_of};
ghost use Rattle.cpm_volume.specs.Operations.{have_extent, cross, next_place, place_at, target_of};
ghost use Rattle.cpm_drive.specs.Drive.{volume_of};
ghost use Rattle.cpm_drive.specs.Judged.{with_change, arrived, standing_in, stopped_in, purpose_of, place_of_arrival, IsArrival, target_by};

use crate::change::Change;
use crate::closing::{CloseJudgement, judge_close};
use crate::drive::Marks;
use crate::opening::{make_extent, open_extent, open_to_read};
use cpm_directory::LentImage;
use cpm_volume::{Answer, Extent, Fcb};

/// A record in another extent, and the answers where the open extent can't be closed and that one can't be had.
#[derive(Clone, Copy, PartialEq, Eq, Debug)]
pub struct SoughtRecord {
    pub number: u16,
    pub current: u8,
    pub unclosed: Answer,
    pub missing: Answer,
}

/// Where a call stands when it comes to its record, and the entries that it has to write.
#[derive(Clone, Copy, PartialEq, Eq, Debug)]
pub struct Arrival {
    /// The record of the extent, or what the call answers without one.
    pub current: Result<u8, Answer>,
    pub extent: Extent,
    /// The entry that was closed.
    pub closed: Option<Change>,
    /// The entry of the extent where it is a new one.
    pub made: Option<Change>,
}

/// Whether a call reads its record or writes it.
#[derive(Clone, Copy, PartialEq, Eq, Debug)]
pub enum Access {
    Read,
    Write,
}

impl SoughtRecord {
    /// A call that stands at the record, in an extent that was opened or made.
    fn arrived(&self, extent: &Extent, closed: Change, made: Option<Change>) -> Arrival
        ensures { result ≡ arrived self.now extent.now closed made }
    {
        Arrival {
            current: Ok(self.current),
            extent: *extent,
            closed: Some(closed),
            made,
        }
    }
}

impl Arrival {
    /// A call that stands at a record of the extent that was open.
    fn standing(extent: &Extent, current: u8) -> Arrival
        ensures { result ≡ standing_in extent.now current }
    {
        Arrival {
            current: Ok(current),
            extent: *extent,
            closed: None,
            made: None,
        }
    }

    /// A call that stops with the extent that was open.
    fn stopped(extent: &Extent, answer: Answer) -> Arrival
        ensures { result ≡ stopped_in extent.now answer }
    {
        Arrival {
            current: Err(answer),
            extent: *extent,
            closed: None,
            made: None,
        }
    }
}

/// Opens the extent that is sought, or makes it to write it, once the open one was closed.
fn have_extent(
    image: &LentImage<'_>,
    marks: &Marks,
    access: Access,
    closed: Change,
    user: u8,
    extent: &Extent,
    sought: &SoughtRecord,
) -> Arrival
    requires number { sought.now.number < 512 }
    requires within { closed.index ≤ (dpb_of image.now.format).last_entry }
    ensures place { place_of_arrival (volume_of image.now marks.now.reserved) result
        ≡ have_extent (dpb_of image.now.format) (purpose_of access)
        (with_change (volume_of image.now marks.now.reserved) (Some closed)) user extent.now (target_by sought.now) }
    ensures within { IsArrival (dpb_of image.now.format) result }
    ensures made { access ≡ Access.Read → result.made ≡ None }
    ensures current { IfOk result.current (λ here. here ≡ sought.now.current) }
{
    let name = &extent.name;
    let opened = match access {
        Access::Read => open_to_read(image, Some(closed), user, name, sought.number),
        Access::Write => open_extent(image, Some(closed), user, name, sought.number),
    };
    if let Some(opened) = opened {
        return sought.arrived(&opened, closed, None);
    }
    let made = match access {
        Access::Read => None,
        Access::Write => make_extent(image, Some(closed), user, extent, sought.number),
    };
    match made {
        Some(change) => sought.arrived(&change.entry.extent, closed, made),
        None => Arrival {
            current: Err(sought.missing),
            extent: *extent,
            closed: Some(closed),
            made: None,
        },
    }
}

/// Closes the extent that is open, then has another.
fn cross(
    image: &LentImage<'_>,
    marks: &Marks,
    access: Access,
    user: u8,
    extent: &Extent,
    sought: &SoughtRecord,
) -> Arrival
    requires { sought.now.number < 512 }
    ensures place { place_of_arrival (volume_of image.now marks.now.reserved) result
        ≡ cross (dpb_of image.now.format) (purpose_of access) marks.now.is_protected
        (volume_of image.now marks.now.reserved) user extent.now (target_by sought.now) }
    ensures within { IsArrival (dpb_of image.now.format) result }
    ensures made { access ≡ Access.Read → result.made ≡ None }
    ensures current { IfOk result.current (λ here. here ≡ sought.now.current) }
{
    match judge_close(image, marks.is_protected, user, extent) {
        CloseJudgement::Refused => Arrival::stopped(extent, sought.unclosed),
        CloseJudgement::Fault(which) => Arrival::stopped(extent, Answer::Fault(which)),
        CloseJudgement::Closed(closed, both) => {
            have_extent(image, marks, access, closed, user, &both, sought)
        }
    }
}

/// Where a call stands at the record that is next in sequence.
pub(crate) fn next_place(
    image: &LentImage<'_>,
    marks: &Marks,
    access: Access,
    user: u8,
    fcb: &Fcb,
) -> Arrival
    ensures place { place_of_arrival (volume_of image.now marks.now.reserved) result
        ≡ next_place (dpb_of image.now.format) (purpose_of access) marks.now.is_protected
        (volume_of image.now marks.now.reserved) user fcb.now.extent fcb.now.current_record }
    ensures within { IsArrival (dpb_of image.now.format) result }
    ensures made { access ≡ Access.Read → result.made ≡ None }
    ensures current { IfOk result.current (λ here. here < 128) }
{
    if fcb.current_record < 128 {
        return Arrival::standing(&fcb.extent, fcb.current_record);
    }
    let number = fcb.extent.number();
    if number == 511 {
        return Arrival::stopped(&fcb.extent, Answer::NoRecord);
    }
    let sought = SoughtRecord {
        number: number + 1,
        current: 0,
        unclosed: Answer::NoRecord,
        missing: Answer::NoRecord,
    };
    cross(image, marks, access, user, &fcb.extent, &sought)
}

/// Where a call stands at any record of the file, with the answer where its extent can't be had.
pub(crate) fn place_at(
    image: &LentImage<'_>,
    marks: &Marks,
    access: Access,
    user: u8,
    extent: &Extent,
    number: u16,
    missing: Answer,
) -> Arrival
    ensures place { place_of_arrival (volume_of image.now marks.now.reserved) result
        ≡ place_at (dpb_of image.now.format) (purpose_of access) marks.now.is_protected
        (volume_of image.now marks.now.reserved) user extent.now (target_of missing number) }
    ensures within { IsArrival (dpb_of image.now.format) result }
    ensures made { access ≡ Access.Read → result.made ≡ None }
    ensures current { IfOk result.current (λ here. here < 128) }
{
    let sought = SoughtRecord {
        number: number / 128,
        current: (number % 128) as u8,
        unclosed: Answer::CannotClose,
        missing,
    };
    if sought.number == extent.number() {
        return Arrival::standing(extent, sought.current);
    }
    cross(image, marks, access, user, extent, &sought)
}
