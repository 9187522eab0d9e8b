//! Numbers, names and records, as rows of disks write them.

use std::alloc::{AllocError, Global};
use test_language::{RowAnswer, RowFault, Word, bytes_of, count};

/// A decimal number of 16 bits.
pub(crate) fn number(word: Word<'_>) -> Result<u16, RowFault> {
    word.text.parse::<u16>().map_err(|_| RowFault::Number)
}

/// A decimal number of 8 bits.
pub(crate) fn small(word: Word<'_>) -> Result<u8, RowFault> {
    word.text.parse::<u8>().map_err(|_| RowFault::Number)
}

/// Bytes that begin so, and else are zeros.
pub(crate) fn filled<const N: usize>(
    alloc: Global,
    words: &[Word<'_>],
) -> Result<[u8; N], RowFault> {
    padded(bytes_of(alloc, words)?.as_slice())
}

/// These bytes, with zeros behind them.
fn padded<const N: usize>(start: &[u8]) -> Result<[u8; N], RowFault> {
    if start.len() > N {
        return Err(RowFault::Bytes);
    }
    let mut bytes = [0; N];
    bytes[..start.len()].copy_from_slice(start);
    Ok(bytes)
}

/// Eight characters of a name and three of a type, with their attribute bits.
pub(crate) fn name(alloc: Global, word: Word<'_>) -> Result<[u8; 11], RowFault> {
    let bytes = bytes_of(alloc, [word].as_slice())?;
    <[u8; 11]>::try_from(bytes.as_slice()).map_err(|_| RowFault::Bytes)
}

/// The one word after a first one.
pub(crate) fn only<'a>(arguments: &[Word<'a>]) -> Result<Word<'a>, RowFault> {
    match arguments {
        [word] => Ok(*word),
        _ => Err(RowFault::Words),
    }
}

/// `buffer PLACE`: a byte of a buffer.
pub(crate) fn byte_at(
    alloc: Global,
    buffer: &[u8],
    arguments: &[Word<'_>],
) -> Result<RowAnswer, RowFault> {
    match buffer.get(count(only(arguments)?)?) {
        Some(byte) => RowAnswer::bytes(alloc, [*byte].as_slice()),
        None => Err(RowFault::Number),
    }
}

/// Whether a line is one about images, which `Images` does.
pub(crate) fn is_of_images(verb: &str) -> bool {
    ["image", "entry", "record", "sector"].contains(&verb)
}

/// What a line answers that is done, where no word stands after its first.
pub(crate) fn done(arguments: &[Word<'_>]) -> Result<RowAnswer, RowFault> {
    if arguments.is_empty() {
        Ok(RowAnswer::Done)
    } else {
        Err(RowFault::Words)
    }
}

/// Adds a name as rows write it, in quotes, its characters with an attribute bit as `\xHH`.
pub(crate) fn write_name(text: &mut String, name: &[u8; 11]) -> Result<(), AllocError> {
    text.push('"')?;
    for character in name {
        write_character(text, *character)?;
    }
    text.push('"')
}

fn write_character(text: &mut String, character: u8) -> Result<(), AllocError> {
    if matches!(character, b' '..=b'~') {
        text.push(char::from(character))
    } else {
        write!(text, "\\x{character:02X}")
    }
}
