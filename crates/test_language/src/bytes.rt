//! Bytes as rows write them: `0D 0A "A>"`, `128*E5`, `4*"AB"`, `20000*rising`.

use crate::fault::RowFault;
use crate::word::{Word, byte};
use std::alloc::{AllocError, Global};
use std::slice::Iter;

/// The most bytes that a repeated item may make, twice the length of a large disk.
const MOST: usize = 4_210_688;

/// The bytes that words stand for. An item is a byte of two digits, a text in quotes with the escapes `\r`, `\n`, `\t`, `\\` and
/// `\xHH`, or `rising`, the bytes 0 to 250 over and over. A number and `*` before an item repeat it. No word stands for no bytes: those are `""`.
pub fn bytes_of(alloc: Global, words: &[Word<'_>]) -> Result<Vec<u8>, RowFault> {
    if words.is_empty() {
        return Err(RowFault::Words);
    }
    bytes_if_any(alloc, words)
}

/// The bytes that words stand for, where there may be none.
pub fn bytes_if_any(alloc: Global, words: &[Word<'_>]) -> Result<Vec<u8>, RowFault> {
    let mut bytes = Vec::new(alloc);
    add_words(&mut bytes, words)?;
    Ok(bytes)
}

/// Adds the bytes that words stand for.
fn add_words(bytes: &mut Vec<u8>, words: &[Word<'_>]) -> Result<(), RowFault> {
    let mut times = None;
    for word in words {
        times = add_word(bytes, times, *word)?;
    }
    // (a number that repeats nothing)
    match times {
        None => Ok(()),
        Some(_) => Err(RowFault::Bytes),
    }
}

/// Adds the bytes of a word, as often as one before it said. How often a later word stands, where one said it that repeats nothing yet.
fn add_word(
    bytes: &mut Vec<u8>,
    times: Option<usize>,
    word: Word<'_>,
) -> Result<Option<usize>, RowFault> {
    match times_of(word)? {
        // (a number repeats no other one)
        Some(_) if times.is_some() => Err(RowFault::Bytes),
        Some((count, rest)) if rest.text.is_empty() => Ok(Some(count)),
        Some((count, rest)) => {
            add_items(bytes, count, rest)?;
            Ok(None)
        }
        None => {
            add_items(bytes, times.unwrap_or(1), word)?;
            Ok(None)
        }
    }
}

/// How often an item stands, and the item, where a word begins with a number and `*`.
fn times_of(word: Word<'_>) -> Result<Option<(usize, Word<'_>)>, RowFault> {
    if word.is_quoted {
        return Ok(None);
    }
    match word.text.split_once('*') {
        Some((count, text)) => match count.parse::<usize>() {
            Ok(count) if count <= MOST => Ok(Some((
                count,
                Word {
                    text,
                    is_quoted: false,
                },
            ))),
            _ => Err(RowFault::Bytes),
        },
        None => Ok(None),
    }
}

/// Adds an item so often.
fn add_items(bytes: &mut Vec<u8>, times: usize, word: Word<'_>) -> Result<(), RowFault> {
    if !word.is_quoted && word.text == "rising" {
        return add_rising(bytes, times);
    }
    for _ in 0..times {
        add_item(bytes, word)?;
    }
    Ok(())
}

/// Adds an item once: a text in quotes, or a byte.
fn add_item(bytes: &mut Vec<u8>, word: Word<'_>) -> Result<(), RowFault> {
    if word.is_quoted {
        return add_text(bytes, word.text);
    }
    match byte(word) {
        Ok(byte) => Ok(bytes.push(byte)?),
        Err(_) => Err(RowFault::Bytes),
    }
}

/// Adds so many bytes, no two neighbours alike.
fn add_rising(bytes: &mut Vec<u8>, times: usize) -> Result<(), RowFault> {
    for place in 0..times {
        bytes.push((place % 251) as u8)?;
    }
    Ok(())
}

/// Adds the bytes of a text in quotes.
fn add_text(bytes: &mut Vec<u8>, text: &str) -> Result<(), RowFault> {
    let mut rest = text.as_bytes().iter();
    for _ in 0..text.len() {
        match next_byte(&mut rest)? {
            Some(byte) => bytes.push(byte)?,
            None => return Ok(()),
        }
    }
    Ok(())
}

/// The next byte of a text in quotes.
fn next_byte(rest: &mut Iter<'_, u8>) -> Result<Option<u8>, RowFault> {
    match rest.next() {
        Some(b'\\') => Ok(Some(escaped(rest)?)),
        Some(character) => Ok(Some(*character)),
        None => Ok(None),
    }
}

/// The byte that an escape stands for, after its `\`.
fn escaped(rest: &mut Iter<'_, u8>) -> Result<u8, RowFault> {
    match rest.next() {
        Some(b'r') => Ok(b'\r'),
        Some(b'n') => Ok(b'\n'),
        Some(b't') => Ok(b'\t'),
        Some(b'\\') => Ok(b'\\'),
        Some(b'x') => escaped_digits(rest),
        _ => Err(RowFault::Bytes),
    }
}

/// The byte that two digits stand for, after `\x`.
fn escaped_digits(rest: &mut Iter<'_, u8>) -> Result<u8, RowFault> {
    let (Some(high), Some(low)) = (rest.next(), rest.next()) else {
        return Err(RowFault::Bytes);
    };
    let mut byte = [0];
    match hex::decode_to_slice([*high, *low].as_slice(), &mut byte) {
        Ok(()) => Ok(byte[0]),
        Err(_) => Err(RowFault::Bytes),
    }
}

/// Adds bytes to a text as rows write them.
pub fn write_bytes(alloc: Global, out: &mut String, bytes: &[u8]) -> Result<(), AllocError> {
    let mut before = None;
    for byte in bytes {
        let is_shown = is_shown(*byte);
        out.push_str(between(before, is_shown))?;
        add_byte(alloc, out, *byte, is_shown)?;
        before = Some(is_shown);
    }
    if matches!(before, Some(true)) {
        out.push('"')?;
    }
    Ok(())
}

/// Whether a byte is shown as a character, between quotes.
fn is_shown(byte: u8) -> bool {
    matches!(byte, b' '..=b'!' | b'#'..=b'[' | b']'..=b'~')
}

/// What stands before a byte, by whether the byte before it is shown as a character, if there is one, and whether it is itself.
fn between(before: Option<bool>, is_shown: bool) -> &'static str {
    match (before, is_shown) {
        (None, true) => "\"",
        (Some(false), true) => " \"",
        (Some(true), false) => "\" ",
        (Some(false), false) => " ",
        (None, false) | (Some(true), true) => "",
    }
}

/// Adds a byte: a character, or two digits.
fn add_byte(alloc: Global, out: &mut String, byte: u8, is_shown: bool) -> Result<(), AllocError> {
    if is_shown {
        out.push(char::from(byte))
    } else {
        out.push_str(hex::encode_upper(alloc, [byte].as_slice())?.as_str())
    }
}
