//! Keys of the person's terminal, and what the machine gets of them.

use crate::screens::terminal_named;
use cpm_screen::{Arrows, TerminalKind, first_key};
use std::alloc::{AllocError, Global};
use test_language::{RowAnswer, RowFault, Word, bytes_of};

/// What arrows send, by a name.
pub(crate) fn arrows_named(name: &str) -> Result<Arrows, RowFault> {
    match name {
        "own" => Ok(Arrows::Own),
        "wordstar" => Ok(Arrows::WordStar),
        _ => Err(RowFault::Words),
    }
}

/// Adds what the machine gets of the key at the front of bytes, and how many of them that key took.
fn add_first(
    out: &mut Vec<u8>,
    terminal: TerminalKind,
    arrows: Arrows,
    bytes: &[u8],
) -> Result<usize, AllocError> {
    let read = first_key(bytes);
    match read.key {
        Some(key) => out.extend_from_slice(terminal.key_text(arrows, key))?,
        None => add_one(out, bytes)?,
    }
    Ok(read.taken)
}

/// Adds the first byte, if there is one.
fn add_one(out: &mut Vec<u8>, bytes: &[u8]) -> Result<(), AllocError> {
    match bytes.first() {
        Some(byte) => Ok(out.push(*byte)?),
        None => Ok(()),
    }
}

/// What stands behind so many bytes.
fn rest_of(bytes: &[u8], taken: usize) -> &[u8] {
    match bytes.split_at_checked(taken) {
        Some((_, rest)) => rest,
        None => &[],
    }
}

/// `press TERMINAL BYTES`: what the machine gets where the person's terminal sends these bytes at once.
pub(crate) fn machine_keys(
    alloc: Global,
    arrows: Arrows,
    arguments: &[Word<'_>],
) -> Result<RowAnswer, RowFault> {
    let [name, words @ ..] = arguments else {
        return Err(RowFault::Words);
    };
    let terminal = terminal_named(name.text)?;
    let bytes = bytes_of(alloc, words)?;
    let mut out = Vec::new(alloc);
    let mut rest = bytes.as_slice();
    for _ in 0..bytes.len() {
        let taken = add_first(&mut out, terminal, arrows, rest)?;
        rest = rest_of(rest, taken);
    }
    Ok(RowAnswer::Bytes(out))
}
