//! Values that are appended to bytes.

ghost use Rattle.std.specs.Prelude.{◌≡◌, ◌<◌, ◌≤◌, ◌++◌, ◌+◌, length, true, OnOk};
ghost use Rattle.cpm_flags.specs.Arithmetic.{bit};
ghost use Rattle.cpm_saved.specs.Layout.{Below, AnyByte, Fixed, Long, Run, Within, AnyWord, AreBelow};
ghost use Rattle.cpm_saved.specs.Reading.{IsPartAppended};
ghost use Rattle.cpm_saved.specs.declared.part.SavingPart.{SavingPart};

use std::alloc::AllocError;

/// Appends a byte.
pub fn append_byte(out: &mut Vec<u8>, byte: u8) -> Result<(), AllocError>
    ensures { OnOk result ((field : SavingPart) → IsPartAppended (AnyByte field) byte out.old.items out.new.items) }
{
    Ok(out.push(byte)?)
}

/// Appends 1 for yes, and 0 for no.
pub fn append_flag(out: &mut Vec<u8>, flag: bool) -> Result<(), AllocError>
    ensures { OnOk result ((field : SavingPart) → IsPartAppended (Below field 2) (bit flag) out.old.items out.new.items) }
{
    Ok(out.push(u8::from(flag))?)
}

/// Appends a number of 16 bits.
pub fn append_word(out: &mut Vec<u8>, number: u16) -> Result<(), AllocError>
    ensures { OnOk result ((field : SavingPart) → IsPartAppended (AnyWord field) number out.old.items out.new.items) }
{
    out.extend_from_slice(&number.to_le_bytes())
}

/// Appends a number of 64 bits.
pub fn append_long(out: &mut Vec<u8>, number: u64) -> Result<(), AllocError>
    ensures { OnOk result ((field : SavingPart) → IsPartAppended (Long field) number out.old.items out.new.items) }
{
    out.extend_from_slice(&number.to_le_bytes())
}

/// Appends bytes as they are.
pub fn append_bytes(out: &mut Vec<u8>, bytes: &[u8]) -> Result<(), AllocError>
    ensures { OnOk result ((field : SavingPart) → IsPartAppended (Fixed field (length bytes.now)) bytes.now out.old.items out.new.items) }
{
    out.extend_from_slice(bytes)
}

/// Appends the bytes of an array.
pub fn append_array<const N: usize>(out: &mut Vec<u8>, bytes: &[u8; N]) -> Result<(), AllocError>
    ensures { OnOk result ((field : SavingPart) → IsPartAppended (Fixed field N) bytes.now out.old.items out.new.items) }
{
    append_bytes(out, bytes)?;
    Ok(())
}

/// Appends how many bytes come, at most so many, and then these, which stand in two parts.
pub fn append_run(out: &mut Vec<u8>, front: &[u8], back: &[u8], most: u16) -> Result<(), AllocError>
    requires { length front.now + length back.now ≤ most }
    ensures { OnOk result ((field : SavingPart) → IsPartAppended (Run field most 256) (front.now ++ back.now) out.old.items out.new.items) }
{
    let count = (front.len() + back.len()) as u16;
    out.extend_from_slice(&count.to_le_bytes())?;
    out.extend_from_slice(front)?;
    out.extend_from_slice(back)?;
    Ok(())
}
