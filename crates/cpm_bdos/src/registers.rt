//! What a call reads from the registers and leaves in them.

ghost use Rattle.std.specs.Prelude.{◌≡◌, ◌+◌, ◌*◌, ◌/◌, ◌%◌};
ghost use Rattle.cpm_bdos.specs.Registers.{at_opening, pair_bc, pair_de, with_hl, with_call_result, returned_to};

use cpm_flags::{Alternate, Flags, Regs};
use cpm_memory::layout::{COMMAND_PROCESSOR, STACK};

const NO_FLAGS: Flags = Flags {
    sign: false,
    zero: false,
    bit5: false,
    half_carry: false,
    bit3: false,
    parity: false,
    subtract: false,
    carry: false,
};

/// The registers of a session at its opening.
pub fn at_opening() -> Regs
    ensures { result ≡ at_opening }
{
    Regs {
        a: 0,
        flags: NO_FLAGS,
        b: 0,
        c: 0,
        d: 0,
        e: 0,
        h: 0,
        l: 0,
        sp: STACK,
        pc: COMMAND_PROCESSOR,
        ix: 0,
        iy: 0,
        interrupt_page: 0,
        refresh: 0,
        alternate: Alternate {
            a: 0,
            flags: NO_FLAGS,
            b: 0,
            c: 0,
            d: 0,
            e: 0,
            h: 0,
            l: 0,
        },
        iff1: false,
        iff2: false,
    }
}

/// The pair DE.
pub fn pair_de(regs: &Regs) -> u16
    ensures { result ≡ pair_de regs.now }
{
    256 * u16::from(regs.d) + u16::from(regs.e)
}

/// The pair BC.
pub fn pair_bc(regs: &Regs) -> u16
    ensures { result ≡ pair_bc regs.now }
{
    256 * u16::from(regs.b) + u16::from(regs.c)
}

/// Puts a word into HL.
pub fn put_hl(regs: &mut Regs, value: u16)
    ensures { regs.new ≡ with_hl regs.old value }
{
    regs.h = (value >> 8) as u8;
    regs.l = (value & 0xff) as u8;
}

/// Puts a call's result into HL, A and B.
pub fn put_result(regs: &mut Regs, value: u16)
    ensures { regs.new ≡ with_call_result regs.old value }
{
    let high = (value >> 8) as u8;
    let low = (value & 0xff) as u8;
    regs.h = high;
    regs.l = low;
    regs.a = low;
    regs.b = high;
}

/// Returns to an address that was popped.
pub fn return_to(regs: &mut Regs, address: u16)
    ensures { regs.new ≡ returned_to regs.old address }
{
    regs.pc = address;
    regs.sp = regs.sp.wrapping_add(2);
}
