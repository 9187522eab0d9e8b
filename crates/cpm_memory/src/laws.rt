//! Laws of memories and of the store, as contracts.

ghost use Rattle.std.specs.Prelude.{◌≡◌, ◌/◌, Some, slice_set};
ghost use Rattle.cpm_memory.specs.Contents.{CanSet, after_set, page_of};
ghost use Rattle.cpm_memory.specs.Frames.{IsStoreSound, IsTableTaken, MovesAtMost, memories, memory_of};
ghost use Rattle.cpm_memory.specs.Laws.{OpensBlank, OpensWithDiskTables, FramesMakeMemories, ViewsChangeOwnTable};

use crate::memory::Memory;
use crate::pages::TableId;
use crate::store::FrameStore;

/// A memory at its opening has the bytes of the table of opening bytes, and no page is written.
pub fn opens_blank()
    ensures { OpensBlank }
{}

/// A memory at its opening has the disk tables at their addresses.
pub fn opens_with_disk_tables()
    ensures { OpensWithDiskTables }
{}

/// A byte of a table's memory is a byte of the frame at its page.
pub fn frames_make_memories()
    ensures { FramesMakeMemories }
{}

/// Whatever is done through a view, the memory of its table alone changes: the pages and the frames of all other tables stay.
pub fn views_change_own_table()
    ensures { ViewsChangeOwnTable }
{}

/// Stores one byte through a view, which is dropped.
pub fn set_through_view(store: &mut FrameStore, table: TableId, address: u16, value: u8)
    requires taken { IsTableTaken store.old table }
    requires room { CanSet (memory_of store.old table) address }
    ensures memories { memories store.new ≡ slice_set (memories store.old) table (Some (after_set (memory_of store.old table) address value)) }
    ensures moves { MovesAtMost store.old store.new table (page_of address) }
    ensures sound { IsStoreSound store.new }
{
    let mut view = store.view(table);
    view.set(address, value);
}
