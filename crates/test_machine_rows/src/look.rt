//! What is seen of a machine, a field at a time.

use cpm_machine::{Granted, Look};
use std::alloc::Global;
use test_language::{RowAnswer, RowFault, Word};
use test_memory_rows::register;

/// How many steps a grant made, and why it ended.
pub fn granted(alloc: Global, granted: Granted) -> Result<RowAnswer, RowFault> {
    let Granted { executed, why } = granted;
    RowAnswer::words(alloc, format!(in alloc; "{executed} {why:?}")?)
}

/// A field of what is seen of a machine.
pub fn field(alloc: Global, look: &Look, name: Word<'_>) -> Result<RowAnswer, RowFault> {
    match name.text {
        "count" => RowAnswer::words(alloc, look.count),
        "end" => RowAnswer::name(alloc, look.ended),
        "pages" => RowAnswer::words(alloc, look.pages),
        "waiting" => RowAnswer::truth(alloc, look.waiting),
        "keys" => RowAnswer::words(alloc, look.keys),
        "console" => RowAnswer::words(alloc, look.console),
        "list" => RowAnswer::words(alloc, look.list),
        _ => register(alloc, &look.regs, name),
    }
}
