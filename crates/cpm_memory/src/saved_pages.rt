//! The written pages of a memory by itself, taken out one by one and put into a memory at its opening.

ghost use Rattle.std.specs.Prelude.{◌≡◌, ◌≤◌, ◌+◌, ◌*◌, true, false, length, slice_range, MatchOption};
ghost use Rattle.cpm_memory.specs.Contents.{is_written, room_of, touched_of};
ghost use Rattle.cpm_memory.specs.Scratch.{with_page};
ghost use Rattle.cpm_memory.specs.Stamps.{after_stamp};
ghost use Rattle.cpm_memory.specs.Unwritten.{IsBlankUnwritten};

use crate::flat::FlatMemory;
use crate::scratch::copy_page;

impl FlatMemory {
    ghost use Rattle.cpm_memory.specs.Flat.{flat_contents, flat_stamps};

    /// Does nothing, and says that each page that was not written has its bytes at opening.
    pub fn unwritten_is_blank(&self)
        ensures { IsBlankUnwritten (flat_contents self.now) }
    {}

    /// The 256 bytes of a page, if it was written.
    pub fn written_page(&self, page: u8) -> Option<&[u8]>
        ensures { MatchOption result (is_written (flat_contents self.now) page ≡ false)
            (λ bytes. (is_written (flat_contents self.now) page ≡ true)
            × (bytes.now ≡ slice_range (flat_contents self.now).bytes (256 * page) (256 * page + 256)) × (length bytes.now ≡ 256)) }
    {
        if self.written[page as usize] {
            let start = 256 * usize::from(page);
            Some(&self.bytes[start..start + 256])
        } else {
            None
        }
    }

    /// Gives a page other bytes. It is written from then on, and its stamp is raised as by one store.
    pub fn put_page(&mut self, page: u8, bytes: &[u8])
        requires size { length bytes.now ≡ 256 }
        requires room { room_of (flat_contents self.old) ≡ 0 → is_written (flat_contents self.old) page ≡ true }
        ensures contents { flat_contents self.new ≡ with_page (flat_contents self.old) page bytes.now }
        ensures stamps { flat_stamps self.new ≡ after_stamp (flat_stamps self.old) page }
    {
        let index = page as usize;
        if !self.written[index] {
            self.written[index] = true;
            self.touched += 1;
        }
        self.stamps[index] = self.stamps[index].saturating_add(1);
        copy_page(&mut self.bytes, u16::from(page), bytes);
    }

    /// So many pages may be written from now on, at least those that were.
    #[tactic(auto, unfolding(crate::specs::Contents::touched_of))]
    pub fn limit_to(&mut self, limit: u16)
        requires fits { touched_of (flat_contents self.old) ≤ limit }
        requires most { limit ≤ 256 }
        ensures { flat_contents self.new ≡ record (flat_contents self.old) { limit = limit } }
    {
        self.limit = limit;
    }
}
