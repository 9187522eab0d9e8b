//! Bytes as JSON text: a character stands for the byte of its number.
ghost use Rattle.std.specs.Prelude.{◌≡◌, ◌<◌, ◌≤◌, IfOk, MatchOption, chars, filter, string_bytes, true};
ghost use Rattle.cpm_protocol.specs.Bytes.{text_of_bytes, is_byte_character, is_byte_text};

use std::alloc::{AllocError, Global};

/// Whether a character stands for a byte.
fn is_byte_character(c: char) -> bool
    ensures { result ≡ is_byte_character c }
{
    (c as u32) < 256
}

/// Whether each character of a text stands for a byte.
pub fn is_byte_text(text: &str) -> bool
    ensures { result ≡ is_byte_text text.now }
{
    text.chars().all(|c| is_byte_character(c))
}

/// The byte that a character stands for.
fn byte_of(c: char) -> Option<u8>
    ensures { MatchOption result (256 ≤ c) (λ b. (b ≡ c) × (c < 256)) }
{
    u8::try_from(c as u32).ok()
}

/// The bytes that a text stands for. A character above U+00FF stands for none.
pub fn bytes_of(alloc: Global, text: &str) -> Result<Vec<u8>, AllocError>
    ensures bytes { IfOk result (λ bytes. bytes.items ≡ filter is_byte_character (chars text.now)) }
    ensures all { IfOk result (λ bytes. is_byte_text text.now ≡ true → bytes.items ≡ chars text.now) }
{
    let mut bytes = Vec::new(alloc);
    for c in text.chars() {
        if let Some(byte) = byte_of(c) {
            bytes.push(byte)?;
        }
    }
    Ok(bytes)
}

/// The text that stands for bytes.
pub fn text_of(alloc: Global, bytes: &[u8]) -> Result<String, AllocError>
    ensures { IfOk result (λ text. string_bytes text ≡ text_of_bytes bytes.now) }
{
    let mut text = String::new(alloc);
    for byte in bytes {
        text.push(char::from(*byte))?;
    }
    Ok(text)
}
