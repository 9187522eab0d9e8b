//! The memory of one table of a store.

ghost use Rattle.std.specs.Prelude.{◌≡◌, ◌<◌, ◌+◌, ◌%◌, ℕ, true, false, length, slice_index, slice_index_or};
ghost use Rattle.cpm_memory.specs.Contents.{next, touched_of};
ghost use Rattle.cpm_memory.specs.Frames.{IsStoreSound, IsAlone, HasReservation, memory_of, frame_of_page, reserved_by, table_at};

use crate::memory::Memory;
use crate::pages::TableId;
use crate::store::FrameStore;

/// The memory of one table. It lends the store, and changes no other memory.
///
/// It has its own copy of where the pages are, so that no access but its first store to a page looks into the table.
#[derive(Drop)]
pub struct View<'a> {
    pub(crate) store: &'a mut FrameStore,
    pub(crate) table: TableId,
    /// The frame of each page.
    pub(crate) places: [u16; 256],
    /// The pages that it has stored to. They have private frames that are at no other page.
    pub(crate) owned: [bool; 256],
    /// How many pages were written, and how many may be.
    pub(crate) touched: u16,
    pub(crate) limit: u16,
    ghost taken: { HasReservation store.now table },
    ghost within: { table < 64 },
    ghost sound: { IsStoreSound store.now },
    ghost pages: { length places ≡ 256 },
    ghost marks: { length owned ≡ 256 },
    ghost placed: { (page : ℕ) → page < 256 → slice_index places page ≡ frame_of_page store.now table page },
    ghost alone: { (page : ℕ) → page < 256 → slice_index_or owned page false ≡ true → IsAlone store.now table page },
    ghost counted: { touched ≡ touched_of (memory_of store.now table) },
    ghost limited: { limit ≡ reserved_by (table_at store.now table) },
}

impl View<'_> {
    ghost use Rattle.std.specs.Prelude.{◌/◌};
    ghost use Rattle.cpm_memory.specs.Contents.{CanSet, after_set, page_of};
    ghost use Rattle.cpm_memory.specs.Frames.{MovesAtMost};
    ghost use Rattle.cpm_memory.specs.View.{contents_of, stamps_of, store_of, view_table, ViewLeads};
    ghost use Rattle.cpm_memory.specs.Stamps.{after_stamp};

    /// Stores its first byte of a page, which is copied into a frame of its own, if it has none.
    #[cold]
    #[inline(never)]
    fn set_first(&mut self, address: u16, value: u8)
        requires { CanSet (contents_of self.old) address }
        ensures contents { contents_of self.new ≡ after_set (contents_of self.old) address value }
        ensures stamps { stamps_of self.new ≡ after_stamp (stamps_of self.old) (page_of address) }
        ensures moves { MovesAtMost (store_of self.old) (store_of self.new) (view_table self.old) (page_of address) }
        ensures leads { ViewLeads self.old self.new }
    {
        let page = (address / 256) as u8;
        let table = self.table.index();
        self.store.set_byte(table, address, value);
        self.store.raise_stamp(table, page);
        self.places[page as usize] = self.store.place_at(table, page);
        self.owned[page as usize] = true;
        self.touched = self.store.touched(table);
    }
}

/// The address after one that is not the last of its page. Said so, the machine below sees that it lies in the same page.
#[inline(always)]
fn next_in_page(address: u16) -> u16
    requires { address % 256 < 255 }
    ensures { result ≡ next address }
{
    address / 0x100 * 0x100 + (address + 1) % 0x100
}

impl Memory for View<'_> {
    ghost use Rattle.cpm_memory.specs.Contents.{CanSet, after_set, page_of};
    ghost use Rattle.cpm_memory.specs.Stamps.{after_stamp};
    ghost use Rattle.cpm_memory.specs.Frames.{MovesAtMost};
    ghost use Rattle.cpm_memory.specs.View.{contents_of, stamps_of, surroundings_of, store_of, view_table, ViewLeads};
    ghost use Rattle.cpm_memory.specs.View.{ViewLeads-none, ViewLeads-on, IsContents-view, AreStamps-view};

    ghost contents = { contents_of };

    ghost stamps = { stamps_of };

    ghost surroundings = { surroundings_of };

    ghost Leads = { ViewLeads };

    fn get(&self, address: u16) -> u8 {
        let frame = self.places[(address / 256) as usize];
        self.store.frame(frame)[(address % 256) as usize]
    }

    /// Stores a byte. At most the frame of its page is another one then; no page of another table moves.
    fn set(&mut self, address: u16, value: u8)
        requires { CanSet (contents_of self.old) address }
        ensures contents { contents_of self.new ≡ after_set (contents_of self.old) address value }
        ensures stamps { stamps_of self.new ≡ after_stamp (stamps_of self.old) (page_of address) }
        ensures moves { MovesAtMost (store_of self.old) (store_of self.new) (view_table self.old) (page_of address) }
        ensures leads { ViewLeads self.old self.new }
    {
        let page = (address / 256) as usize;
        if !self.owned[page] {
            self.set_first(address, value);
            return;
        }
        self.store
            .write(self.places[page], (address % 256) as u8, value);
        self.store
            .raise_stamp(self.table.index(), (address / 256) as u8);
    }

    /// A page that it has not stored to is left to `set` alone, which may have to copy it.
    fn is_settled(&self, address: u16) -> bool {
        self.owned[(address / 256) as usize]
    }

    fn set_word_settled(&mut self, address: u16, value: u16) -> bool {
        if address % 0x100 == 0xff || !self.is_settled(address) {
            return false;
        }
        self.set(next_in_page(address), (value >> 8) as u8);
        self.set(address, (value & 0xff) as u8);
        true
    }

    fn touched(&self) -> u16 {
        self.touched
    }

    fn room(&self) -> u16 {
        self.limit - self.touched
    }

    fn stamp(&self, page: u8) -> u64 {
        self.store.stamp(self.table.index(), page)
    }

    ghost sound = { IsContents-view };

    ghost stamped = { AreStamps-view };

    ghost leads_same = { ViewLeads-none };

    ghost leads_on = { ViewLeads-on };

    ghost leads_by = { λ a b h. h.stores };

    ghost leads_stamps = { λ a b h. h.stamps };
}
