//! The file of the command processor's command, in a saving.

ghost use Rattle.std.specs.Prelude.{◌≡◌, OnOk};
ghost use Rattle.cpm_saved.specs.Layout.{Times, AnyWord};
ghost use Rattle.cpm_saved.specs.Reading.{IsPartAppended, IsPartRead};
ghost use Rattle.cpm_saved.specs.SavedDisks.{file_fields, file_layout};
ghost use Rattle.cpm_saved.specs.declared.part.SavingPart.TheVariants as part;

use crate::append::{append_array, append_byte, append_word};
use crate::part::SavingPart;
use crate::reader::{Reader, RestoreError};
use cpm_volume::{Extent, Fcb};
use std::alloc::AllocError;

/// Appends the numbers of blocks.
fn append_blocks(out: &mut Vec<u8>, blocks: &[u16; 16]) -> Result<(), AllocError>
    ensures { OnOk result (IsPartAppended (Times 16 (AnyWord part.CommandFile)) blocks.now out.old.items out.new.items) }
{
    for block in blocks {
        append_word(out, *block)?;
    }
    Ok(())
}

/// Reads the numbers of blocks.
fn read_blocks(reader: &mut Reader<'_>) -> Result<[u16; 16], RestoreError>
    ensures { IsPartRead (Times 16 (AnyWord part.CommandFile)) (λ blocks. blocks) reader.old reader.new result }
{
    let mut blocks = [0; 16];
    for index in 0..16 {
        blocks[index] = reader.word(SavingPart::CommandFile)?;
    }
    Ok(blocks)
}

/// Appends a file control block.
pub fn append_file(out: &mut Vec<u8>, file: &Fcb) -> Result<(), AllocError>
    ensures { OnOk result (IsPartAppended file_layout (file_fields file.now) out.old.items out.new.items) }
{
    append_byte(out, file.drive)?;
    append_array(out, &file.extent.name)?;
    append_byte(out, file.extent.ex)?;
    append_byte(out, file.extent.s1)?;
    append_byte(out, file.extent.s2)?;
    append_byte(out, file.extent.record_count)?;
    append_blocks(out, &file.extent.blocks)?;
    append_byte(out, file.current_record)?;
    append_array(out, &file.random_record)?;
    Ok(())
}

/// Reads a file control block.
pub fn read_file(reader: &mut Reader<'_>) -> Result<Fcb, RestoreError>
    ensures { IsPartRead file_layout file_fields reader.old reader.new result }
{
    let drive = reader.byte(SavingPart::CommandFile)?;
    let extent = Extent {
        name: reader.array(SavingPart::CommandFile)?,
        ex: reader.byte(SavingPart::CommandFile)?,
        s1: reader.byte(SavingPart::CommandFile)?,
        s2: reader.byte(SavingPart::CommandFile)?,
        record_count: reader.byte(SavingPart::CommandFile)?,
        blocks: read_blocks(reader)?,
    };
    Ok(Fcb {
        drive,
        extent,
        current_record: reader.byte(SavingPart::CommandFile)?,
        random_record: reader.array(SavingPart::CommandFile)?,
    })
}
