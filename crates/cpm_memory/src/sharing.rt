//! Frames that are at pages of several tables.

ghost use Rattle.std.specs.Prelude.{◌≡◌, ◌+◌, ◌<◌, ℕ, Some, None, slice_set, IsErr, IfOk, OnErr, ◌↔◌};

use crate::pages::TableId;
use crate::store::{FrameStore, MemError};

impl FrameStore {
    ghost use Rattle.cpm_memory.specs.Frames.{IsStoreSound, IsTableTaken, table_at, private_at, frame_of_page, owners_at};
    ghost use Rattle.cpm_memory.specs.Frames.{used_by, reserved_by, memory_of, memory_at, memories, KeepsPlaces, KeepsStamps};
    ghost use Rattle.cpm_memory.specs.Reserved.{taken_in, reserved_in};
    ghost use Rattle.cpm_memory.specs.Kept.{table_with_frame, with_table};

    /// How many pages of all tables are made of the private frame of a page; none where it has no private frame.
    pub(crate) fn owners_at(&self, table: usize, page: u8) -> u16
        requires { table < 64 }
        ensures owners { result ≡ owners_at self.now table page }
        ensures sound { IsStoreSound self.now }
    {
        match self.tables[table].place(page) {
            Some(frame) => self.owners[frame as usize],
            None => 0,
        }
    }

    /// Makes a page of a table of the frame that the other table's page is made of.
    fn join(&mut self, table: usize, source: usize, page: u8)
        requires table { table < 64 }
        requires source { source < 64 }
        requires blank { private_at self.old table page ≡ None }
        requires reserved { (frame : ℕ) → private_at self.old source page ≡ Some frame
            → used_by (table_at self.old table) < reserved_by (table_at self.old table) }
        ensures joined { self.new ≡ with_table self.old table (table_with_frame (table_at self.old table) page (private_at self.old source page)) }
        ensures sound { IsStoreSound self.new }
    {
        if let Some(frame) = self.tables[source].place(page) {
            self.owners[frame as usize] += 1;
            self.tables[table].put(page, frame);
        }
    }

    /// Takes a table, whose memory is that of another one, and reserves as many frames as that one has. Its pages are made of the same frames: none is copied.
    pub fn share(&mut self, table: TableId) -> Result<TableId, MemError>
        requires taken { IsTableTaken self.old table }
        requires tables { taken_in (memories self.old) < 64 }
        ensures free { IfOk result (λ t. memory_at self.old t ≡ None) }
        ensures shared { IfOk result (λ t. self.new ≡ with_table self.old t (table_at self.old table)) }
        ensures memories { IfOk result (λ t. memories self.new ≡ slice_set (memories self.old) t (Some (memory_of self.old table))) }
        ensures taken { IfOk result (λ t. IsTableTaken self.new t) }
        ensures places { IfOk result (λ t. (page : ℕ) → frame_of_page self.new t page ≡ frame_of_page self.old table page) }
        ensures others { IfOk result (λ t. KeepsPlaces self.old self.new t) }
        ensures other_stamps { IfOk result (λ t. KeepsStamps self.old self.new t) }
        ensures frames { self.new.frames ≡ self.old.frames }
        ensures refused { IsErr result ↔ (self.old.private < reserved_in (memories self.old) + reserved_by (table_at self.old table)) }
        ensures unchanged { OnErr result (self.new ≡ self.old) }
        ensures sound { IsStoreSound self.new }
    {
        let source = table.index();
        let pages = self.limit(source);
        let target = self.reserve(pages)?;
        let index = target.index();
        for page in 0..256u16 {
            self.join(index, source, page as u8);
        }
        Ok(target)
    }
}
