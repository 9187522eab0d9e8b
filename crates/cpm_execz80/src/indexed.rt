//! The instructions with the byte at (IX+d) or (IY+d).
ghost use Rattle.std.specs.Prelude.{◌≡◌};
ghost use Rattle.cpm_memory.specs.Contents.{Contents, after_sets};
ghost use Rattle.cpm_memory.specs.Room.{HasRoom};
ghost use Rattle.cpm_execz80.specs.Indexed.{meaning_indexed};

use crate::bits::{apply, is_test_of_bit};
use cpm_decode::IndexedOp;
use cpm_exec8080::exec::arithmetic;
use cpm_exec8080::operands::{read_place, write_place};
use cpm_flags::{Cpu, Regs, dec8, inc8};
use cpm_memory::{Memory, set_byte};

/// Does an operation with the byte at an address, which IX or IY and a displacement gave.
/// Zilog Z80 CPU User Manual, "Indexed Addressing".
#[inline(always)]
pub fn perform_indexed<M: Memory>(regs: &mut Regs, memory: &mut M, op: IndexedOp, address: u16)
    requires { HasRoom (M.contents memory.old) }
    ensures regs { regs.new ≡ (meaning_indexed op address (M.contents memory.old) regs.old).regs }
    ensures memory { M.contents memory.new ≡ after_sets (M.contents memory.old) (meaning_indexed op address (M.contents memory.old) regs.old).stores }
    ensures leads { M.Leads memory.old memory.new }
{
    match op {
        IndexedOp::Increment => {
            let sum = inc8(Cpu::Z80, regs.flags, memory.get(address));
            regs.flags = sum.flags;
            set_byte(memory, address, sum.value);
        }
        IndexedOp::Decrement => {
            let difference = dec8(Cpu::Z80, regs.flags, memory.get(address));
            regs.flags = difference.flags;
            set_byte(memory, address, difference.value);
        }
        IndexedOp::StoreImmediate(value) => set_byte(memory, address, value),
        IndexedOp::Load(target) => {
            let value = memory.get(address);
            write_place(regs, memory, target, value);
        }
        IndexedOp::Store(source) => {
            let value = read_place(regs, memory, source);
            set_byte(memory, address, value);
        }
        IndexedOp::Arithmetic(operation) => {
            let operand = memory.get(address);
            arithmetic(Cpu::Z80, regs, operation, operand);
        }
        IndexedOp::Bits(operation) => {
            let outcome = apply(operation, regs.flags, memory.get(address));
            regs.flags = outcome.flags;
            if !is_test_of_bit(operation) {
                set_byte(memory, address, outcome.value);
            }
        }
    }
}
