//! Numbers and texts that several kinds of rows have.

use cpm_console::Console;
use std::alloc::{AllocError, Global};
use test_language::{RowAnswer, RowFault, Word};

/// A decimal number of 8 bits.
pub fn small(word: Word<'_>) -> Result<u8, RowFault> {
    word.text.parse::<u8>().map_err(|_| RowFault::Number)
}

/// A decimal number of 16 bits.
pub fn middle(word: Word<'_>) -> Result<u16, RowFault> {
    word.text.parse::<u16>().map_err(|_| RowFault::Number)
}

/// Adds bytes to a text, between quotes.
pub fn add_quoted(alloc: Global, out: &mut String, bytes: &[u8]) -> Result<(), AllocError> {
    out.push('"')?;
    for byte in bytes {
        add_character(alloc, out, *byte)?;
    }
    out.push('"')
}

/// Adds a byte to a text, as it stands between quotes.
fn add_character(alloc: Global, out: &mut String, byte: u8) -> Result<(), AllocError> {
    match byte {
        b'\r' => out.push_str("\\r"),
        b'\n' => out.push_str("\\n"),
        b'\\' => out.push_str("\\\\"),
        b' ' | b'!' | b'#'..=b'~' => out.push(char::from(byte)),
        _ => out.push_str(format!(in alloc; "\\x{byte:02X}")?.as_str()),
    }
}

/// Adds a word and a decimal number to a text.
pub fn add_number(
    alloc: Global,
    out: &mut String,
    word: &str,
    value: u16,
) -> Result<(), AllocError> {
    out.push_str(word)?;
    out.push_str(format!(in alloc; "{value}")?.as_str())
}

/// Adds a word and an address to a text.
pub fn add_address(alloc: Global, out: &mut String, word: &str, at: u16) -> Result<(), AllocError> {
    out.push_str(word)?;
    out.push_str(format!(in alloc; "{at:04X}")?.as_str())
}

/// All bytes that the console holds, which are taken.
pub fn taken(alloc: Global, console: &mut Console) -> Result<Vec<u8>, AllocError> {
    let mut out = vec![in alloc; 0u8; console.held()]?;
    console.take(out.as_mut_slice());
    Ok(out)
}

/// The same of the list device.
pub fn taken_list(alloc: Global, console: &mut Console) -> Result<Vec<u8>, AllocError> {
    let mut out = vec![in alloc; 0u8; console.held_list()]?;
    console.take_list(out.as_mut_slice());
    Ok(out)
}

/// Presses keys, until one is refused.
pub fn press(alloc: Global, console: &mut Console, keys: &[u8]) -> Result<RowAnswer, RowFault> {
    if takes_all(console, keys) {
        Ok(RowAnswer::Done)
    } else {
        RowAnswer::refused_text(alloc, "KeysFull")
    }
}

/// Presses keys, until one is refused. Whether none is.
pub fn takes_all(console: &mut Console, keys: &[u8]) -> bool {
    for key in keys {
        if !console.give(*key) {
            return false;
        }
    }
    true
}

/// A key, if one is there: two digits, or `none`.
pub fn key_answer(alloc: Global, key: Option<u8>) -> Result<RowAnswer, RowFault> {
    match key {
        Some(key) => RowAnswer::byte(alloc, key),
        None => RowAnswer::words(alloc, "none"),
    }
}

/// Says whether the list device gets what the console shows; with a word, `yes` or `no`, makes it so.
pub fn list_echo(
    alloc: Global,
    console: &mut Console,
    arguments: &[Word<'_>],
) -> Result<RowAnswer, RowFault> {
    match arguments {
        [] => RowAnswer::truth(alloc, console.list_echo()),
        [word] if word.text == "yes" || word.text == "no" => {
            console.set_list_echo(word.text == "yes");
            Ok(RowAnswer::Done)
        }
        _ => Err(RowFault::Words),
    }
}
