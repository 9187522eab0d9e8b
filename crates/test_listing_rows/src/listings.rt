//! Instructions, bytes and registers on lines.

use crate::filled;
use cpm_flags::{Alternate, Cpu, Flags, Regs, unpack};
use cpm_listing::{dump_line, length_z80, list_line, list_line_z80, regs_line};
use std::alloc::{AllocError, Global};
use test_language::{RowAnswer, RowFault, RowLine, Scene, Word, address, byte, bytes_of, number};

/// No flag is set.
const CLEAR: Flags = Flags {
    sign: false,
    zero: false,
    bit5: false,
    half_carry: false,
    bit3: false,
    parity: false,
    subtract: false,
    carry: false,
};

/// Registers of zeros.
const ZEROS: Regs = Regs {
    a: 0,
    flags: CLEAR,
    b: 0,
    c: 0,
    d: 0,
    e: 0,
    h: 0,
    l: 0,
    sp: 0,
    pc: 0,
    ix: 0,
    iy: 0,
    interrupt_page: 0,
    refresh: 0,
    alternate: Alternate {
        a: 0,
        flags: CLEAR,
        b: 0,
        c: 0,
        d: 0,
        e: 0,
        h: 0,
        l: 0,
    },
    iff1: false,
    iff2: false,
};

/// The address of what is listed, and the registers that are shown.
#[derive(Drop)]
pub struct Listings {
    address: u16,
    registers: Regs,
}

impl Scene for Listings {
    fn new(_alloc: Global) -> Result<Listings, AllocError> {
        Ok(Listings {
            address: 0x0100,
            registers: ZEROS,
        })
    }

    fn is_alone(_verb: &str) -> bool {
        false
    }

    fn takes_text(_verb: &str) -> bool {
        false
    }

    fn act(&mut self, alloc: Global, line: &RowLine<'_>) -> Result<RowAnswer, RowFault> {
        match line.verb() {
            "at" => self.at(line.arguments()),
            "8080" => self.list(alloc, line.arguments()),
            "z80" => self.list_z80(alloc, line.arguments()),
            "length" => length(alloc, line.arguments()),
            "dump" => self.dump(alloc, line.arguments()),
            "set" => self.set(line.arguments()),
            "registers" => self.show(alloc, line.arguments()),
            _ => Err(RowFault::Unknown),
        }
    }
}

impl Listings {
    /// `at ADDRESS`: what is listed stands there.
    fn at(&mut self, arguments: &[Word<'_>]) -> Result<RowAnswer, RowFault> {
        let [place] = arguments else {
            return Err(RowFault::Words);
        };
        self.address = address(*place)?;
        Ok(RowAnswer::Done)
    }

    /// `8080 BYTES`: the line of the 8080's instruction that begins these bytes.
    fn list(&self, alloc: Global, arguments: &[Word<'_>]) -> Result<RowAnswer, RowFault> {
        let bytes = few_bytes::<3>(alloc, arguments)?;
        RowAnswer::words(alloc, list_line(self.address, bytes))
    }

    /// `z80 BYTES`: the line of the Z80's instruction that begins these bytes.
    fn list_z80(&self, alloc: Global, arguments: &[Word<'_>]) -> Result<RowAnswer, RowFault> {
        let bytes = few_bytes::<4>(alloc, arguments)?;
        RowAnswer::words(alloc, list_line_z80(self.address, bytes))
    }

    /// `dump BYTES`: the line of these sixteen bytes.
    fn dump(&self, alloc: Global, arguments: &[Word<'_>]) -> Result<RowAnswer, RowFault> {
        let bytes = few_bytes::<16>(alloc, arguments)?;
        RowAnswer::words(alloc, dump_line(self.address, &bytes))
    }

    /// `set REGISTER VALUE`: A or F has this byte, or BC, DE, HL, SP or PC this word.
    fn set(&mut self, arguments: &[Word<'_>]) -> Result<RowAnswer, RowFault> {
        let [name, value] = arguments else {
            return Err(RowFault::Words);
        };
        set_register(&mut self.registers, name.text, *value)?;
        Ok(RowAnswer::Done)
    }

    /// `registers 8080 COUNT`, `registers z80 COUNT`: the line of the registers after so many steps.
    fn show(&self, alloc: Global, arguments: &[Word<'_>]) -> Result<RowAnswer, RowFault> {
        let [cpu, steps] = arguments else {
            return Err(RowFault::Words);
        };
        let (cpu, steps) = (cpu_of(cpu.text)?, number(*steps)?);
        RowAnswer::words(alloc, regs_line(cpu, &self.registers, steps))
    }
}

/// Gives a register a value.
fn set_register(registers: &mut Regs, name: &str, value: Word<'_>) -> Result<(), RowFault> {
    match name {
        "A" => registers.a = byte(value)?,
        "F" => registers.flags = unpack(Cpu::Z80, CLEAR, byte(value)?),
        "SP" => registers.sp = address(value)?,
        "PC" => registers.pc = address(value)?,
        _ => return set_pair(registers, name, value),
    }
    Ok(())
}

/// Gives a pair of registers a value.
fn set_pair(registers: &mut Regs, name: &str, value: Word<'_>) -> Result<(), RowFault> {
    match name {
        "BC" => [registers.b, registers.c] = address(value)?.to_be_bytes(),
        "DE" => [registers.d, registers.e] = address(value)?.to_be_bytes(),
        "HL" => [registers.h, registers.l] = address(value)?.to_be_bytes(),
        _ => return Err(RowFault::Words),
    }
    Ok(())
}

/// The processor of this name.
fn cpu_of(name: &str) -> Result<Cpu, RowFault> {
    match name {
        "8080" => Ok(Cpu::I8080),
        "z80" => Ok(Cpu::Z80),
        _ => Err(RowFault::Words),
    }
}

/// `length z80 BYTES`: how many bytes the Z80's instruction has that begins these.
fn length(alloc: Global, arguments: &[Word<'_>]) -> Result<RowAnswer, RowFault> {
    match arguments {
        [cpu, bytes @ ..] if cpu.text == "z80" => {
            RowAnswer::words(alloc, length_z80(few_bytes::<4>(alloc, bytes)?))
        }
        _ => Err(RowFault::Words),
    }
}

/// At most so many bytes that words stand for, with zeros after them.
fn few_bytes<const N: usize>(alloc: Global, words: &[Word<'_>]) -> Result<[u8; N], RowFault> {
    let bytes = bytes_of(alloc, words)?;
    if bytes.is_empty() || bytes.len() > N {
        return Err(RowFault::Bytes);
    }
    Ok(filled(bytes.as_slice()))
}
