//! The assembler: from a source in 8080 assembly language to the bytes of a program.
#![tactic(auto)]

mod emit;
mod encode;
mod error;
mod head;
pub mod laws;
mod lines;
mod measure;
mod nesting;
mod operands;
mod pass;
mod pieces;
mod place;
mod placed;
mod statement;
mod values;
mod word;

pub use cpm_listing::{dump_line, list_line, regs_line};
pub use encode::{Encoding, encoded};
pub use error::{AsmError, AsmErrorKind};
pub use lines::{first_line, source_text};
pub use pass::{assemble, assemble_placed};
pub use placed::{Assembly, Placement};
