//! WRITE SEQUENTIAL, WRITE RANDOM and WRITE RANDOM WITH ZERO FILL: the buffer goes into a record of a file.

ghost use Rattle.std.specs.Prelude.{◌≡◌, ◌+◌, ◌<◌, ◌≤◌, IfOk, false, true, [], ◌∷◌};
ghost use Rattle.cpm_geom.specs.Geometry.{dpb_of};
ghost use Rattle.cpm_volume.specs.Files.{entry_place_of, record_put};
ghost use Rattle.cpm_volume.specs.Operations.{writing, place_at, target_of, put_record, taken_writes, record_in_block, with_block, write_in};
ghost use Rattle.cpm_volume.specs.Operations.{write_next_on_volume, write_random_on_volume, write_random_cleared_on_volume, counting};
ghost use Rattle.cpm_drive.specs.Drive.{volume_of, call_result, after_call};
ghost use Rattle.cpm_drive.specs.Judged.{IsArrival, place_of_arrival};
ghost use Rattle.cpm_drive.specs.Writes.{drive_written, stood_on};

use crate::drive::Drive;
use crate::place::{Access, Arrival, next_place, place_at};
use crate::reading::record_in_block;
use cpm_directory::block_at;
use cpm_geom::Format;
use cpm_volume::{Answer, Extent, Fault, Fcb};

/// The place of a record of an extent in its map.
#[tactic(auto, unfolding(cpm_volume::specs::Files::entry_place_of))]
fn entry_place_of(format: Format, extent: &Extent, current: u8) -> usize
    requires { current < 128 }
    ensures place { result ≡ entry_place_of (dpb_of format) extent.now current }
    ensures within { result < 16 }
{
    let dpb = format.dpb();
    let block_size = usize::from(dpb.block_mask) + 1;
    let part = usize::from(extent.number()) % (usize::from(dpb.extent_mask) + 1);
    part * (128 / block_size) + usize::from(current) / block_size
}

/// The extent counts a record.
#[tactic(auto, unfolding(cpm_volume::specs::Operations::counting))]
fn counting(extent: &Extent, current: u8) -> Extent
    requires { current < 128 }
    ensures { result ≡ counting extent.now current }
{
    Extent {
        record_count: extent.record_count.max(current + 1),
        ..*extent
    }
}

/// The extent with a block at a place of its map.
#[tactic(auto, unfolding(cpm_volume::specs::Operations::with_block))]
fn with_block(extent: &Extent, place: usize, block: u16) -> Extent
    requires { place < 16 }
    ensures { result ≡ with_block extent.now place block }
{
    let mut blocks = extent.blocks;
    blocks[place] = block;
    Extent { blocks, ..*extent }
}

impl Drive {
    /// Writes the record of a block that a file control block stands at, which goes `step` records on.
    fn write_record(&mut self, block: u16, step: u8, fcb: &mut Fcb, bytes: &[u8; 128])
        requires block { block ≤ (dpb_of self.old.image.format).last_block }
        requires current { fcb.old.current_record < 128 }
        requires step { step ≤ 1 }
        ensures drive { self.new ≡ drive_written self.old
            (record_put (record_in_block (dpb_of self.old.image.format) block fcb.old.current_record) bytes.now ∷ []) }
        ensures fcb { fcb.new ≡ stood_on (counting fcb.old.extent fcb.old.current_record) (fcb.old.current_record + step) fcb.old }
    {
        let number = record_in_block(self.image.format(), block, fcb.current_record);
        self.image.put_record(number, bytes).unwrap();
        fcb.extent = counting(&fcb.extent, fcb.current_record);
        fcb.current_record += step;
    }

    /// Clears a block.
    fn clear_block(&mut self, block: u16)
        requires { block ≤ (dpb_of self.old.image.format).last_block }
        ensures { self.new ≡ drive_written self.old (taken_writes (dpb_of self.old.image.format) true block) }
    {
        let format = self.image.format();
        for place in 0..format.dpb().block_mask + 1 {
            let number = record_in_block(format, block, place);
            self.image.put_record(number, &[0; 128]).unwrap();
        }
    }

    /// Clears a block that was taken, if that is asked for.
    fn clear_taken(&mut self, clears: bool, block: u16)
        requires { block ≤ (dpb_of self.old.image.format).last_block }
        ensures { self.new ≡ drive_written self.old (taken_writes (dpb_of self.old.image.format) clears block) }
    {
        if clears {
            self.clear_block(block);
        }
    }

    /// Writes the record that a file control block stands at, which goes `step` records on. Where its map has no block
    /// for it, it takes the lowest that is not reserved, and clears that if it is asked for.
    fn put_record(&mut self, clears: bool, step: u8, fcb: &mut Fcb, bytes: &[u8; 128]) -> Answer
        requires current { fcb.old.current_record < 128 }
        requires step { step ≤ 1 }
        requires writable { self.old.marks.is_protected ≡ false }
        ensures { call_result result self.new fcb.new bytes.now
            ≡ after_call self.old fcb.old bytes.now (put_record (dpb_of self.old.image.format) clears
            (volume_of self.old.image self.old.marks.reserved) fcb.old.extent fcb.old.current_record (fcb.old.current_record + step) bytes.now) }
    {
        let format = self.image.format();
        let dpb = format.dpb();
        let old = match block_at(&dpb, fcb) {
            Ok(block) => block,
            Err(_) => return Answer::Fault(Fault::BadSector),
        };
        if old != 0 {
            self.write_record(old, step, fcb, bytes);
            return Answer::Done;
        }
        let block = match self.marks.reserved.take_lowest(dpb.last_block) {
            Ok(block) => block,
            Err(_) => return Answer::NoBlock,
        };
        self.clear_taken(clears, block);
        let place = entry_place_of(format, &fcb.extent, fcb.current_record);
        fcb.extent = with_block(&fcb.extent, place, block);
        self.write_record(block, step, fcb, bytes);
        Answer::Done
    }

    /// Writes the record where a call stands, once the entries are written that it has to write.
    fn write_arrived(
        &mut self,
        clears: bool,
        arrival: &Arrival,
        step: u8,
        fcb: &mut Fcb,
        bytes: &[u8; 128],
    ) -> Answer
        requires current { IfOk arrival.now.current (λ here. here < 128) }
        requires step { step ≤ 1 }
        requires within { IsArrival (dpb_of self.old.image.format) arrival.now }
        requires writable { self.old.marks.is_protected ≡ false }
        ensures { call_result result self.new fcb.new bytes.now
            ≡ after_call self.old fcb.old bytes.now (write_in (dpb_of self.old.image.format) clears fcb.old.current_record step bytes.now
            (place_of_arrival (volume_of self.old.image self.old.marks.reserved) arrival.now)) }
    {
        self.write_change(arrival.closed);
        self.write_change(arrival.made);
        fcb.extent = arrival.extent;
        match arrival.current {
            Ok(here) => {
                fcb.current_record = here;
                self.put_record(clears, step, fcb, bytes)
            }
            Err(answer) => answer,
        }
    }

    /// WRITE SEQUENTIAL: the record that is next in sequence, for which the extent may be closed and the next one opened
    /// or made.
    pub fn write_next(&mut self, user: u8, fcb: &mut Fcb, bytes: &[u8; 128]) -> Answer
        requires { self.old.marks.is_protected ≡ false }
        ensures { call_result result self.new fcb.new bytes.now
            ≡ after_call self.old fcb.old bytes.now (write_next_on_volume (dpb_of self.old.image.format)
            (volume_of self.old.image self.old.marks.reserved) user fcb.old.extent fcb.old.current_record bytes.now) }
    {
        let arrival = next_place(&self.image.lent(), &self.marks, Access::Write, user, fcb);
        self.write_arrived(false, &arrival, 1, fcb, bytes)
    }

    /// Writes record `number` of the file, and clears a block that is taken if it is asked for.
    fn write_numbered(
        &mut self,
        clears: bool,
        user: u8,
        number: u16,
        fcb: &mut Fcb,
        bytes: &[u8; 128],
    ) -> Answer
        requires { self.old.marks.is_protected ≡ false }
        ensures { call_result result self.new fcb.new bytes.now
            ≡ after_call self.old fcb.old bytes.now (write_in (dpb_of self.old.image.format) clears fcb.old.current_record 0 bytes.now
            (place_at (dpb_of self.old.image.format) writing false
            (volume_of self.old.image self.old.marks.reserved) user fcb.old.extent (target_of Answer.NoEntryFree number))) }
    {
        let arrival = place_at(
            &self.image.lent(),
            &self.marks,
            Access::Write,
            user,
            &fcb.extent,
            number,
            Answer::NoEntryFree,
        );
        self.write_arrived(clears, &arrival, 0, fcb, bytes)
    }

    /// WRITE RANDOM: record `number` of the file, for which the extent may be closed and another one opened or made.
    #[tactic(auto, unfolding(cpm_volume::specs::Operations::write_random_on_volume))]
    pub fn write_random(
        &mut self,
        user: u8,
        number: u16,
        fcb: &mut Fcb,
        bytes: &[u8; 128],
    ) -> Answer
        requires { self.old.marks.is_protected ≡ false }
        ensures { call_result result self.new fcb.new bytes.now
            ≡ after_call self.old fcb.old bytes.now (write_random_on_volume (dpb_of self.old.image.format)
            (volume_of self.old.image self.old.marks.reserved) user fcb.old.extent fcb.old.current_record number bytes.now) }
    {
        self.write_numbered(false, user, number, fcb, bytes)
    }

    /// WRITE RANDOM WITH ZERO FILL: as `write_random`, but a block that is taken is cleared first.
    #[tactic(auto, unfolding(cpm_volume::specs::Operations::write_random_cleared_on_volume))]
    pub fn write_random_cleared(
        &mut self,
        user: u8,
        number: u16,
        fcb: &mut Fcb,
        bytes: &[u8; 128],
    ) -> Answer
        requires { self.old.marks.is_protected ≡ false }
        ensures { call_result result self.new fcb.new bytes.now
            ≡ after_call self.old fcb.old bytes.now (write_random_cleared_on_volume (dpb_of self.old.image.format)
            (volume_of self.old.image self.old.marks.reserved) user fcb.old.extent fcb.old.current_record number bytes.now) }
    {
        self.write_numbered(true, user, number, fcb, bytes)
    }
}
