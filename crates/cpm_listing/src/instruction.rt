//! An instruction of either processor on a line.
ghost use Rattle.std.specs.Prelude.{◌≡◌, ◌≤◌};
ghost use Rattle.cpm_listing.specs.Instruction.{first_three, instruction_length, instruction_line, length_8080};

use crate::listing::list_line;
use crate::listing_z80::{length_z80, list_line_z80};
use arrayvec::ArrayString;
use cpm_decode::row8080;
use cpm_flags::Cpu;

/// The first three of four bytes.
fn first_three(bytes: [u8; 4]) -> [u8; 3]
    ensures { result ≡ first_three bytes }
{
    [bytes[0], bytes[1], bytes[2]]
}

/// How many bytes the instruction of a processor has that begins four bytes; a byte that begins none is listed alone.
pub fn instruction_length(cpu: Cpu, bytes: [u8; 4]) -> usize
    ensures value { result ≡ instruction_length cpu bytes }
    ensures some { 1 ≤ result }
{
    match cpu {
        Cpu::I8080 => length_8080(first_three(bytes)),
        Cpu::Z80 => length_z80(bytes),
    }
}

/// The same of three bytes and the 8080.
#[tactic(auto, unfolding(crate::specs::Instruction::length_8080))]
fn length_8080(bytes: [u8; 3]) -> usize
    ensures value { result ≡ length_8080 bytes }
    ensures some { 1 ≤ result }
{
    match row8080(bytes) {
        Some(decoded) => usize::from(decoded.length),
        None => 1,
    }
}

/// The instruction of a processor that begins four bytes at an address: the address, its bytes, its mnemonic and its operands.
pub fn instruction_line(cpu: Cpu, address: u16, bytes: [u8; 4]) -> ArrayString<96>
    ensures { result.bytes ≡ instruction_line cpu address bytes }
{
    match cpu {
        Cpu::I8080 => list_line(address, first_three(bytes)),
        Cpu::Z80 => list_line_z80(address, bytes),
    }
}
