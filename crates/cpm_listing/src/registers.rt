//! Registers on a line.
ghost use Rattle.std.specs.Prelude.{◌≡◌, ◌≤◌, ◌+◌, ◌++◌, length, decimal};
ghost use Rattle.cpm_listing.specs.Registers.{named_pair, regs_line};

use crate::digits::{ListingLine, add_byte, add_text, add_word};
use arrayvec::ArrayString;
use cpm_flags::{Cpu, Regs, pack};
use itoa::Buffer;

/// Adds a pair of registers after its name.
#[tactic(auto, unfolding(crate::specs::Registers::named_pair))]
fn add_pair(line: &mut ListingLine, name: &str, high: u8, low: u8)
    requires { length line.old.bytes + length name.now + 4 ≤ 96 }
    ensures text { line.new.bytes ≡ line.old.bytes ++ named_pair name.now high low }
    ensures length { length line.new.bytes ≡ length line.old.bytes + length name.now + 4 }
{
    add_text(line, name);
    add_byte(line, high);
    add_byte(line, low);
}

/// Adds a number in decimal digits.
fn add_number(line: &mut ListingLine, value: u64)
    requires { length line.old.bytes + 20 ≤ 96 }
    ensures { line.new.bytes ≡ line.old.bytes ++ decimal value }
{
    let mut buffer = Buffer::new();
    let digits = buffer.format(value);
    add_text(line, digits);
}

/// The 8080's registers, with the flag byte as this processor pushes it, and the count of executed
/// instructions.
#[tactic(auto, unfolding(crate::specs::Registers::regs_line))]
pub fn regs_line(cpu: Cpu, regs: &Regs, count: u64) -> ArrayString<96>
    ensures { result.bytes ≡ regs_line cpu regs.now count }
{
    let mut line: ListingLine = ArrayString::new();
    add_text(&mut line, "A=");
    add_byte(&mut line, regs.a);
    add_text(&mut line, " F=");
    add_byte(&mut line, pack(cpu, regs.flags));
    add_pair(&mut line, " BC=", regs.b, regs.c);
    add_pair(&mut line, " DE=", regs.d, regs.e);
    add_pair(&mut line, " HL=", regs.h, regs.l);
    add_text(&mut line, " SP=");
    add_word(&mut line, regs.sp);
    add_text(&mut line, " PC=");
    add_word(&mut line, regs.pc);
    add_text(&mut line, " N=");
    add_number(&mut line, count);
    line
}
