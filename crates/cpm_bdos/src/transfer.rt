//! Records and file control blocks between a session's memory and its calls.

ghost use Rattle.std.specs.Prelude.{◌≡◌, ◌+◌, ℕ};
ghost use Rattle.cpm_memory.specs.Contents.{run_at};
ghost use Rattle.cpm_memory.specs.Room.{HasRoomFor};
ghost use Rattle.cpm_bdos.specs.Disks.{record_size, fcb_size, record_stored, changed_bytes, fcb_stored};

use cpm_memory::{Memory, change_run, get_run};

/// The record at an address.
pub fn get_record<M: Memory>(memory: &M, address: u16) -> [u8; 128]
    ensures { result ≡ run_at (M.contents memory.now) address record_size }
{
    let mut record = [0; 128];
    get_run(memory, address, &mut record);
    record
}

/// Stores a record, of which only bytes that change are written.
pub(crate) fn store_record<M: Memory>(memory: &mut M, address: u16, record: &[u8; 128])
    requires { HasRoomFor 2 (M.contents memory.old) }
    ensures contents { M.contents memory.new ≡ record_stored (M.contents memory.old) address «record».now }
    ensures room { (n : ℕ) → HasRoomFor (n + 2) (M.contents memory.old) → HasRoomFor n (M.contents memory.new) }
    ensures leads { M.Leads memory.old memory.new }
{
    change_run(memory, address, record);
}

/// The file control block at an address.
pub(crate) fn get_fcb<M: Memory>(memory: &M, address: u16) -> [u8; 36]
    ensures { result ≡ run_at (M.contents memory.now) address fcb_size }
{
    let mut bytes = [0; 36];
    get_run(memory, address, &mut bytes);
    bytes
}

/// Stores the bytes of a file control block that a call changed.
pub(crate) fn store_fcb<M: Memory>(memory: &mut M, address: u16, old: &[u8; 36], new: &[u8; 36])
    requires { HasRoomFor 2 (M.contents memory.old) }
    ensures contents { M.contents memory.new ≡ fcb_stored (M.contents memory.old) address old.now new.now }
    ensures leads { M.Leads memory.old memory.new }
{
    let mut bytes = get_fcb(memory, address);
    put_changes(&mut bytes, old, new);
    change_run(memory, address, &bytes);
}

/// Puts the bytes that a call changed over those that lie there now.
fn put_changes(bytes: &mut [u8; 36], old: &[u8; 36], new: &[u8; 36])
    ensures { bytes.new ≡ changed_bytes old.now new.now bytes.old }
{
    for place in 0..36 {
        if new[place] != old[place] {
            bytes[place] = new[place];
        }
    }
}
