//! Lines about one memory.

ghost use Rattle.std.specs.Prelude.{IfOk, ◌≤◌};

use cpm_memory::Memory;
use std::alloc::{AllocError, Global};
use test_language::{RowAnswer, RowFault, Word, address, byte, count, number};

/// A number of pages, up to 256.
pub fn page_count(word: Word<'_>) -> Result<u16, RowFault>
    ensures { IfOk result (λ pages. pages ≤ 256) }
{
    let pages = number(word)?;
    if pages > 256 {
        return Err(RowFault::Unready);
    }
    Ok(pages as u16)
}

/// Does a line about a memory: `set`, `get`, `stamp` or `pages`.
pub fn use_memory<M: Memory>(
    alloc: Global,
    memory: &mut M,
    verb: &str,
    arguments: &[Word<'_>],
) -> Result<RowAnswer, RowFault> {
    match verb {
        "set" => set(memory, arguments),
        "get" => get(alloc, memory, arguments),
        "stamp" => stamp(alloc, memory, arguments),
        _ => pages(alloc, memory, arguments),
    }
}

/// `set ADDRESS BYTE`, or `set ADDRESS BYTE PAGES`.
fn set<M: Memory>(memory: &mut M, arguments: &[Word<'_>]) -> Result<RowAnswer, RowFault> {
    match arguments {
        [at, value] => set_pages(memory, address(*at)?, byte(*value)?, 1),
        [at, value, pages] => set_pages(memory, address(*at)?, byte(*value)?, page_count(*pages)?),
        _ => Err(RowFault::Words),
    }
}

/// Stores a byte at an address, and at the same place of the pages after it, so many in all.
fn set_pages<M: Memory>(
    memory: &mut M,
    at: u16,
    value: u8,
    pages: u16,
) -> Result<RowAnswer, RowFault> {
    let mut at = at;
    for _ in 0..pages {
        if memory.room() == 0 {
            return Err(RowFault::Unready);
        }
        memory.set(at, value);
        at = at.wrapping_add(256);
    }
    Ok(RowAnswer::Done)
}

/// `get ADDRESS`, or `get ADDRESS N`.
fn get<M: Memory>(
    alloc: Global,
    memory: &M,
    arguments: &[Word<'_>],
) -> Result<RowAnswer, RowFault> {
    match arguments {
        [at] => RowAnswer::byte(alloc, memory.get(address(*at)?)),
        [at, length] => bytes_at(alloc, memory, address(*at)?, count(*length)?),
        _ => Err(RowFault::Words),
    }
}

/// So many bytes of a memory from an address on.
pub fn bytes_at<M: Memory>(
    alloc: Global,
    memory: &M,
    at: u16,
    length: usize,
) -> Result<RowAnswer, RowFault> {
    Ok(RowAnswer::Bytes(run_of(alloc, memory, at, length)?))
}

/// The same as they are.
fn run_of<M: Memory>(
    alloc: Global,
    memory: &M,
    at: u16,
    length: usize,
) -> Result<Vec<u8>, AllocError> {
    let mut bytes = Vec::new(alloc);
    let mut at = at;
    for _ in 0..length {
        bytes.push(memory.get(at))?;
        at = at.wrapping_add(1);
    }
    Ok(bytes)
}

/// `stamp PAGE`.
fn stamp<M: Memory>(
    alloc: Global,
    memory: &M,
    arguments: &[Word<'_>],
) -> Result<RowAnswer, RowFault> {
    match arguments {
        [page] => RowAnswer::words(alloc, memory.stamp(byte(*page)?)),
        _ => Err(RowFault::Words),
    }
}

/// `pages`: how many were written, and how many may be written yet.
fn pages<M: Memory>(
    alloc: Global,
    memory: &M,
    arguments: &[Word<'_>],
) -> Result<RowAnswer, RowFault> {
    if !arguments.is_empty() {
        return Err(RowFault::Words);
    }
    let (written, room) = (memory.touched(), memory.room());
    Ok(RowAnswer::Words(format!(in alloc; "{written} {room}")?))
}
