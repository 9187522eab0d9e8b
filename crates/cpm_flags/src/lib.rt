//! The registers and flags of the Intel 8080 and the Zilog Z80, and their arithmetic on bytes and words.
#![tactic(auto)]

pub mod arithmetic;
pub mod arithmetic_z80;
pub mod flag_byte;
pub mod regs;

pub use arithmetic::{ByteResult, WordResult, add8, add16, and8, daa, dec8, inc8, logic8, sub8};
pub use arithmetic_z80::{
    add16_carry, set_byte_flags, set_shift_flags, set_test_flags, sub16_borrow,
};
pub use flag_byte::{pack, unpack};
pub use regs::{Alternate, Cpu, Flags, Regs};
