//! A memory in a saving.

ghost use Rattle.std.specs.Prelude.{◌≡◌, IfOk, IfSome, List, OnOk, length, option_map, ℕ};
ghost use Rattle.cpm_memory.specs.Flat.{flat_contents};
ghost use Rattle.cpm_saved.specs.Reading.{IsPartAppended, IsPartRead};
ghost use Rattle.cpm_saved.specs.SavedMemory.{memory_fields, memory_layout, page_layout, saved_page};

use crate::append::{append_bytes, append_flag};
use crate::part::SavingPart;
use crate::reader::{Reader, RestoreError};
use cpm_memory::FlatMemory;
use std::alloc::{AllocError, Global};

/// Appends a page of a memory, if it was written.
fn append_page(out: &mut Vec<u8>, memory: &FlatMemory, page: u8) -> Result<(), AllocError>
    ensures { OnOk result (IsPartAppended page_layout (saved_page (flat_contents memory.now) page) out.old.items out.new.items) }
{
    match memory.written_page(page) {
        Some(bytes) => {
            append_flag(out, true)?;
            append_bytes(out, bytes)
        }
        None => append_flag(out, false),
    }
}

/// Appends the pages of a memory that were written.
pub fn append_memory(out: &mut Vec<u8>, memory: &FlatMemory) -> Result<(), AllocError>
    ensures { OnOk result (IsPartAppended memory_layout (memory_fields (flat_contents memory.now)) out.old.items out.new.items) }
{
    for page in 0..256u16 {
        append_page(out, memory, page as u8)?;
    }
    Ok(())
}

/// The bytes of the next page, if it was written.
fn read_page<'a>(reader: &mut Reader<'a>) -> Result<Option<&'a [u8]>, RestoreError>
    ensures read { IsPartRead page_layout (λ page. option_map (λ bytes. bytes.now) page) reader.old reader.new result }
    ensures size { IfOk result (λ page. IfSome page (λ bytes. length bytes.now ≡ 256)) }
{
    if reader.flag(SavingPart::Page)? {
        Ok(Some(reader.take(SavingPart::Page, 256)?))
    } else {
        Ok(None)
    }
}

/// Reads the pages of a memory, all of which may be written. It is refused if out of memory too.
pub fn read_memory(alloc: Global, reader: &mut Reader<'_>) -> Result<FlatMemory, RestoreError>
    ensures read { IsPartRead memory_layout (λ memory. memory_fields (flat_contents memory)) reader.old reader.new result }
    ensures limit { IfOk result (λ memory. (flat_contents memory).limit ≡ 256) }
{
    let mut memory = FlatMemory::new(alloc)?;
    for page in 0..256u16 {
        if let Some(bytes) = read_page(reader)? {
            memory.put_page(page as u8, bytes);
        }
    }
    Ok(memory)
}
