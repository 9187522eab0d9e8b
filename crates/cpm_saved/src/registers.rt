//! The registers in a saving.

ghost use Rattle.std.specs.Prelude.{◌≡◌, ◌++◌, OnOk};
ghost use Rattle.cpm_flags.specs.FlagByte.{packed};
ghost use Rattle.cpm_flags.specs.declared.regs.Cpu.{Cpu};
ghost use Rattle.cpm_saved.specs.Layout.{AnyByte};
ghost use Rattle.cpm_saved.specs.Reading.{IsPartAppended, IsPartRead};
ghost use Rattle.cpm_saved.specs.SavedRegisters.{bank_fields, bank_layout, main_bank, pointers_fields, pointers_layout, registers_fields, registers_layout};
ghost use Rattle.cpm_saved.specs.declared.part.SavingPart.TheVariants as part;

use crate::append::{append_byte, append_flag, append_word};
use crate::part::SavingPart;
use crate::reader::{Reader, RestoreError};
use cpm_flags::{Alternate, Cpu, Flags, Regs, pack, unpack};
use std::alloc::AllocError;

/// No flag is set.
const NO_FLAGS: Flags = Flags {
    sign: false,
    zero: false,
    bit5: false,
    half_carry: false,
    bit3: false,
    parity: false,
    subtract: false,
    carry: false,
};

/// The bank of registers that is in use.
fn main_bank(regs: Regs) -> Alternate
    ensures { result ≡ main_bank regs }
{
    Alternate {
        a: regs.a,
        flags: regs.flags,
        c: regs.c,
        b: regs.b,
        e: regs.e,
        d: regs.d,
        l: regs.l,
        h: regs.h,
    }
}

/// Appends a bank of registers.
fn append_bank(out: &mut Vec<u8>, bank: Alternate) -> Result<(), AllocError>
    ensures { OnOk result (IsPartAppended bank_layout (bank_fields bank) out.old.items out.new.items) }
{
    append_byte(out, bank.a)?;
    append_byte(out, pack(Cpu::Z80, bank.flags))?;
    append_byte(out, bank.c)?;
    append_byte(out, bank.b)?;
    append_byte(out, bank.e)?;
    append_byte(out, bank.d)?;
    append_byte(out, bank.l)?;
    append_byte(out, bank.h)?;
    Ok(())
}

/// Appends the pointers, and what else the Z80 has beside the banks.
fn append_pointers(out: &mut Vec<u8>, regs: Regs) -> Result<(), AllocError>
    ensures { OnOk result (IsPartAppended pointers_layout (pointers_fields regs) out.old.items out.new.items) }
{
    append_word(out, regs.sp)?;
    append_word(out, regs.pc)?;
    append_word(out, regs.ix)?;
    append_word(out, regs.iy)?;
    append_byte(out, regs.interrupt_page)?;
    append_byte(out, regs.refresh)?;
    append_flag(out, regs.iff1)?;
    append_flag(out, regs.iff2)?;
    Ok(())
}

/// Appends all registers.
pub fn append_registers(out: &mut Vec<u8>, regs: Regs) -> Result<(), AllocError>
    ensures { OnOk result (IsPartAppended registers_layout (registers_fields regs) out.old.items out.new.items) }
{
    append_bank(out, main_bank(regs))?;
    append_pointers(out, regs)?;
    append_bank(out, regs.alternate)?;
    Ok(())
}

/// Reads the flags, as the Z80 pushes them.
fn read_flags(reader: &mut Reader<'_>) -> Result<Flags, RestoreError>
    ensures { IsPartRead (AnyByte part.Registers) (packed Cpu.Z80) reader.old reader.new result }
{
    let byte = reader.byte(SavingPart::Registers)?;
    Ok(unpack(Cpu::Z80, NO_FLAGS, byte))
}

/// Reads a bank of registers.
fn read_bank(reader: &mut Reader<'_>) -> Result<Alternate, RestoreError>
    ensures { IsPartRead bank_layout bank_fields reader.old reader.new result }
{
    Ok(Alternate {
        a: reader.byte(SavingPart::Registers)?,
        flags: read_flags(reader)?,
        c: reader.byte(SavingPart::Registers)?,
        b: reader.byte(SavingPart::Registers)?,
        e: reader.byte(SavingPart::Registers)?,
        d: reader.byte(SavingPart::Registers)?,
        l: reader.byte(SavingPart::Registers)?,
        h: reader.byte(SavingPart::Registers)?,
    })
}

/// Reads all registers.
pub fn read_registers(reader: &mut Reader<'_>) -> Result<Regs, RestoreError>
    ensures { IsPartRead registers_layout registers_fields reader.old reader.new result }
{
    let bank = read_bank(reader)?;
    Ok(Regs {
        a: bank.a,
        flags: bank.flags,
        c: bank.c,
        b: bank.b,
        e: bank.e,
        d: bank.d,
        l: bank.l,
        h: bank.h,
        sp: reader.word(SavingPart::Registers)?,
        pc: reader.word(SavingPart::Registers)?,
        ix: reader.word(SavingPart::Registers)?,
        iy: reader.word(SavingPart::Registers)?,
        interrupt_page: reader.byte(SavingPart::Registers)?,
        refresh: reader.byte(SavingPart::Registers)?,
        iff1: reader.flag(SavingPart::Registers)?,
        iff2: reader.flag(SavingPart::Registers)?,
        alternate: read_bank(reader)?,
    })
}
