//! Bytes to operations of the Intel 8080 and the Zilog Z80.
#![tactic(auto)]

pub mod bits_z80;
pub mod cache;
pub mod decoder;
pub mod decoder_z80;
pub mod extended_z80;
pub mod index_z80;
pub mod operation;
pub mod operation_z80;

pub use cache::DecodeCache;
pub use decoder::{decode8080, row8080};
pub use decoder_z80::{decodez80, rowz80};
pub use operation::{Arithmetic, Condition, Decoded, Op, Operand, Pair, Ran, Rotation, StackPair};
pub use operation_z80::{
    BitOp, DecodedZ80, Direction, ExtendedOp, IndexRegister, IndexedOp, OpZ80, Repeat, Shift,
};
