//! READ SEQUENTIAL and READ RANDOM: a record of a file comes into the buffer.

ghost use Rattle.std.specs.Prelude.{◌≡◌, ◌+◌, ◌<◌, ◌≤◌, ℕ, IfOk, List, MatchResult, Ok, Err, true};
ghost use Rattle.cpm_geom.specs.Geometry.{dpb_of, IsRecord};
ghost use Rattle.cpm_volume.specs.Files.{Volume};
ghost use Rattle.cpm_volume.specs.Laws.{position};
ghost use Rattle.cpm_volume.specs.Operations.{get_record, read_in, read_next_on_volume, read_random_on_volume, record_in_block};
ghost use Rattle.cpm_drive.specs.Drive.{volume_of, call_result, after_call, buffer_after};
ghost use Rattle.cpm_drive.specs.Judged.{IsEntryWithin, place_of_arrival};
ghost use Rattle.cpm_drive.specs.Reads.{record_found, ahead, read_answer_of, read_of, after_record, after_reading, lent_drive, GivesRecord};

use crate::change::Change;
use crate::drive::{Drive, Marks};
use crate::place::{Access, Arrival, next_place, place_at};
use cpm_directory::{LentImage, block_at};
use cpm_geom::{Format, Image};
use cpm_volume::{Answer, Fault, Fcb};

/// What a read comes to before anything is written: the number of its record or what it answers without one, and the
/// entry of the extent that it closed.
#[derive(Clone, Copy, PartialEq, Eq, Debug)]
pub struct Reading {
    pub found: Result<u16, Answer>,
    pub closed: Option<Change>,
}

/// The record of the drive at a record of an extent, whose block is known.
pub(crate) fn record_in_block(format: Format, block: u16, current: u8) -> u16
    requires { block ≤ (dpb_of format).last_block }
    ensures value { result ≡ record_in_block (dpb_of format) block current }
    ensures there { IsRecord format result }
{
    let block_size = u16::from(format.dpb().block_mask) + 1;
    block * block_size + u16::from(current) % block_size
}

/// Finds the record that a file control block stands at, which goes `step` records on.
fn find_record(format: Format, fcb: &mut Fcb, step: u8) -> Result<u16, Answer>
    requires { fcb.old.current_record + step < 256 }
    ensures value { (v : Volume) → record_found result fcb.new
        ≡ after_record fcb.old (get_record (dpb_of format) v fcb.old.extent fcb.old.current_record (fcb.old.current_record + step)) }
    ensures there { IfOk result (λ number. IsRecord format number) }
{
    if fcb.current_record >= fcb.extent.record_count {
        return Err(Answer::NoRecord);
    }
    let block = match block_at(&format.dpb(), fcb) {
        Ok(block) => block,
        Err(_) => return Err(Answer::Fault(Fault::BadSector)),
    };
    if block == 0 {
        return Err(Answer::NoRecord);
    }
    let number = record_in_block(format, block, fcb.current_record);
    fcb.current_record += step;
    Ok(number)
}

/// Finds the record where a call stands.
fn find_arrived(format: Format, arrival: &Arrival, step: u8, fcb: &mut Fcb) -> Result<u16, Answer>
    requires step { step ≤ 1 }
    requires current { IfOk arrival.now.current (λ here. here < 128) }
    ensures value { (v : Volume) → record_found result fcb.new
        ≡ after_record fcb.old (read_in (dpb_of format) fcb.old.current_record step (place_of_arrival v arrival.now)) }
    ensures there { IfOk result (λ number. IsRecord format number) }
{
    fcb.extent = arrival.extent;
    match arrival.current {
        Ok(here) => {
            fcb.current_record = here;
            find_record(format, fcb, step)
        }
        Err(answer) => Err(answer),
    }
}

/// Reads the record that was found, if one was.
fn take_record(image: &Image, found: Result<u16, Answer>, buffer: &mut [u8; 128]) -> Answer
    requires { IfOk found (λ number. IsRecord image.now.format number) }
    ensures answer { result ≡ read_answer_of found }
    ensures buffer { buffer.new ≡ buffer_after image.now (read_of found) buffer.old }
{
    match found {
        Ok(number) => {
            buffer.copy_from_slice(image.record(number).unwrap());
            Answer::Done
        }
        Err(answer) => answer,
    }
}

/// What READ SEQUENTIAL comes to. Nothing is written.
fn judge_read_next(image: &LentImage<'_>, marks: &Marks, user: u8, fcb: &mut Fcb) -> Reading
    ensures value { (buffer : List ℕ) → after_reading (lent_drive image.now marks.now) result fcb.new buffer
        ≡ after_call (lent_drive image.now marks.now) fcb.old buffer (read_next_on_volume (dpb_of image.now.format) marks.now.is_protected
        (volume_of image.now marks.now.reserved) user fcb.old.extent fcb.old.current_record) }
    ensures record { record_found result.found fcb.new
        ≡ after_record fcb.old (read_next_on_volume (dpb_of image.now.format) marks.now.is_protected
        (volume_of image.now marks.now.reserved) user fcb.old.extent fcb.old.current_record) }
    ensures within { IsEntryWithin (dpb_of image.now.format) result.closed }
    ensures there { IfOk result.found (λ number. IsRecord image.now.format number) }
{
    let arrival = next_place(image, marks, Access::Read, user, fcb);
    let found = find_arrived(image.format(), &arrival, 1, fcb);
    Reading {
        found,
        closed: arrival.closed,
    }
}

/// What READ RANDOM comes to. Nothing is written.
fn judge_read_random(
    image: &LentImage<'_>,
    marks: &Marks,
    user: u8,
    number: u16,
    fcb: &mut Fcb,
) -> Reading
    ensures value { (buffer : List ℕ) → after_reading (lent_drive image.now marks.now) result fcb.new buffer
        ≡ after_call (lent_drive image.now marks.now) fcb.old buffer (read_random_on_volume (dpb_of image.now.format) marks.now.is_protected
        (volume_of image.now marks.now.reserved) user fcb.old.extent fcb.old.current_record number) }
    ensures within { IsEntryWithin (dpb_of image.now.format) result.closed }
    ensures there { IfOk result.found (λ number. IsRecord image.now.format number) }
{
    let arrival = place_at(
        image,
        marks,
        Access::Read,
        user,
        &fcb.extent,
        number,
        Answer::NoExtent,
    );
    let found = find_arrived(image.format(), &arrival, 0, fcb);
    Reading {
        found,
        closed: arrival.closed,
    }
}

/// The record that READ SEQUENTIAL would give now, as it lies on the disk, or its answer without one. Nothing changes.
pub fn peek_next<'a>(
    image: &LentImage<'a>,
    marks: &Marks,
    user: u8,
    fcb: &Fcb,
) -> Result<&'a [u8], Answer>
    ensures { MatchResult result
        (λ bytes. Ok bytes.now ≡ ahead (lent_drive image.now marks.now) user fcb.now)
        (λ answer. Err answer ≡ ahead (lent_drive image.now marks.now) user fcb.now) }
{
    let mut fcb = *fcb;
    match judge_read_next(image, marks, user, &mut fcb).found {
        Ok(number) => Ok(image.record(number).unwrap()),
        Err(answer) => Err(answer),
    }
}

/// READ SEQUENTIAL on a protected image that is lent: as `Drive::read_next`.
pub fn read_next_protected(
    image: &Image,
    marks: &Marks,
    user: u8,
    fcb: &mut Fcb,
    buffer: &mut [u8; 128],
) -> Answer
    requires { marks.now.is_protected ≡ true }
    ensures value { call_result result (lent_drive image.now marks.now) fcb.new buffer.new ≡ after_call (lent_drive image.now marks.now) fcb.old buffer.old
        (read_next_on_volume (dpb_of image.now.format) true (volume_of image.now marks.now.reserved) user fcb.old.extent fcb.old.current_record) }
    ensures file { GivesRecord (lent_drive image.now marks.now) user fcb.old (position fcb.old.extent fcb.old.current_record) result buffer.new }
{
    let reading = judge_read_next(&LentImage::new(image), marks, user, fcb);
    take_record(image, reading.found, buffer)
}

/// READ RANDOM on a protected image that is lent: as `Drive::read_random`.
pub fn read_random_protected(
    image: &Image,
    marks: &Marks,
    user: u8,
    number: u16,
    fcb: &mut Fcb,
    buffer: &mut [u8; 128],
) -> Answer
    requires { marks.now.is_protected ≡ true }
    ensures value { call_result result (lent_drive image.now marks.now) fcb.new buffer.new ≡ after_call (lent_drive image.now marks.now) fcb.old buffer.old
        (read_random_on_volume (dpb_of image.now.format) true (volume_of image.now marks.now.reserved) user fcb.old.extent fcb.old.current_record number) }
    ensures file { GivesRecord (lent_drive image.now marks.now) user fcb.old number result buffer.new }
{
    let reading = judge_read_random(&LentImage::new(image), marks, user, number, fcb);
    take_record(image, reading.found, buffer)
}

impl Drive {
    /// READ SEQUENTIAL: the record that is next in sequence, for which the extent may be closed and the next one opened.
    /// The answer says whether the buffer has it, as it is on the disk once the entry is closed.
    pub fn read_next(&mut self, user: u8, fcb: &mut Fcb, buffer: &mut [u8; 128]) -> Answer
        ensures value { call_result result self.new fcb.new buffer.new
            ≡ after_call self.old fcb.old buffer.old (read_next_on_volume (dpb_of self.old.image.format) self.old.marks.is_protected
            (volume_of self.old.image self.old.marks.reserved) user fcb.old.extent fcb.old.current_record) }
        ensures file { GivesRecord self.old user fcb.old (position fcb.old.extent fcb.old.current_record) result buffer.new }
    {
        let reading = judge_read_next(&self.image.lent(), &self.marks, user, fcb);
        self.write_change(reading.closed);
        take_record(self.image.image(), reading.found, buffer)
    }

    /// READ RANDOM: record `number` of the file, for which the extent may be closed and another one opened. The answer
    /// says whether the buffer has it, as it is on the disk once the entry is closed.
    pub fn read_random(
        &mut self,
        user: u8,
        number: u16,
        fcb: &mut Fcb,
        buffer: &mut [u8; 128],
    ) -> Answer
        ensures value { call_result result self.new fcb.new buffer.new
            ≡ after_call self.old fcb.old buffer.old (read_random_on_volume (dpb_of self.old.image.format) self.old.marks.is_protected
            (volume_of self.old.image self.old.marks.reserved) user fcb.old.extent fcb.old.current_record number) }
        ensures file { GivesRecord self.old user fcb.old number result buffer.new }
    {
        let reading = judge_read_random(&self.image.lent(), &self.marks, user, number, fcb);
        self.write_change(reading.closed);
        take_record(self.image.image(), reading.found, buffer)
    }
}
