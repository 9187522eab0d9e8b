//! Lines of text that show memory: as instructions of the 8080 or of the Z80, as bytes, and the registers beside it.
#![tactic(auto)]

mod digits;
mod dump;
mod instruction;
mod listing;
mod listing_z80;
mod mnemonics;
mod mnemonics_z80;
mod operands;
mod operands_z80;
mod registers;

pub use digits::four_digits;
pub use dump::dump_line;
pub use instruction::{instruction_length, instruction_line};
pub use listing::list_line;
pub use listing_z80::{length_z80, list_line_z80};
pub use registers::regs_line;
