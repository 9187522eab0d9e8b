//! Words of a line, and the numbers that they are.

use crate::fault::RowFault;
use std::alloc::{AllocError, Global};

/// A word of a line: what stands between spaces, or between quotes.
#[derive(Clone, Copy)]
pub struct Word<'a> {
    /// The characters, without the quotes.
    pub text: &'a str,
    /// Whether they stood between quotes.
    pub is_quoted: bool,
}

/// The words of a text, where every second part between quotes is one word. The last quote must be closed.
pub fn words_of(alloc: Global, text: &str) -> Result<Vec<Word<'_>>, RowFault> {
    let mut words = Vec::new(alloc);
    add_words(&mut words, text)?;
    Ok(words)
}

/// Adds the words of a text.
fn add_words<'a>(words: &mut Vec<Word<'a>>, text: &'a str) -> Result<(), RowFault> {
    let mut is_quoted = false;
    for part in text.split('"') {
        if is_quoted {
            add_word(words, part, true)?;
        } else {
            add_plain(words, part)?;
        }
        is_quoted = !is_quoted;
    }
    // after the last part it is what stands in quotes next, unless a quote is open
    if is_quoted {
        Ok(())
    } else {
        Err(RowFault::Quote)
    }
}

/// Adds the words between the spaces of a part.
fn add_plain<'a>(words: &mut Vec<Word<'a>>, part: &'a str) -> Result<(), AllocError> {
    for text in part.split_whitespace() {
        add_word(words, text, false)?;
    }
    Ok(())
}

/// Adds a word.
fn add_word<'a>(
    words: &mut Vec<Word<'a>>,
    text: &'a str,
    is_quoted: bool,
) -> Result<(), AllocError> {
    words.push(Word { text, is_quoted })?;
    Ok(())
}

/// A decimal number.
pub fn number(word: Word<'_>) -> Result<u64, RowFault> {
    word.text.parse::<u64>().map_err(|_| RowFault::Number)
}

/// A decimal number of things.
pub fn count(word: Word<'_>) -> Result<usize, RowFault> {
    word.text.parse::<usize>().map_err(|_| RowFault::Number)
}

/// A number of bytes of a memory, 65,536 at most.
pub fn memory_length(word: Word<'_>) -> Result<usize, RowFault> {
    let length = count(word)?;
    if length > 0x1_0000 {
        return Err(RowFault::Number);
    }
    Ok(length)
}

/// The bytes that so many pairs of hexadecimal digits are.
fn digits<const N: usize>(word: Word<'_>) -> Result<[u8; N], RowFault> {
    let mut bytes = [0; N];
    match hex::decode_to_slice(word.text, &mut bytes) {
        Ok(()) => Ok(bytes),
        Err(_) => Err(RowFault::Digits),
    }
}

/// A byte: two hexadecimal digits.
pub fn byte(word: Word<'_>) -> Result<u8, RowFault> {
    let [byte] = digits::<1>(word)?;
    Ok(byte)
}

/// An address, or any number of 16 bits: four hexadecimal digits.
pub fn address(word: Word<'_>) -> Result<u16, RowFault> {
    let [high, low] = digits::<2>(word)?;
    Ok(256 * u16::from(high) + u16::from(low))
}
