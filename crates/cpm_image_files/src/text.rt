//! Texts: their lines end in a carriage return and a line feed on a CP/M disk, and in a line feed alone on a host.

ghost use Rattle.std.specs.Prelude.{◌≡◌, ◌<◌, ◌+◌, ◌==◌, ◌&&◌, not, IfOk, length, drop, slice_index};
ghost use Rattle.cpm_image_files.specs.Texts.{to_text, from_text, carriage_return, line_feed, begins_with_line_feed, TextLaw};

use std::alloc::{AllocError, Global};

const LINE_FEED: u8 = 0x0A;

const CARRIAGE_RETURN: u8 = 0x0D;

/// Ends a text.
const END_OF_FILE: u8 = 0x1A;

/// A text as CP/M's programs want it: each line feed that follows no carriage return gets one, and nothing else changes.
/// No end of file is added. `put` fills the last record up with it; where the length is a multiple of a record's there is
/// none, and CP/M's programs take the end of the records for the end of the text. Refused if out of memory.
pub fn to_text(alloc: Global, bytes: &[u8]) -> Result<Vec<u8>, AllocError>
    ensures { IfOk result (λ text. text.items ≡ to_text bytes.now) }
{
    let mut text = Vec::new(alloc);
    let mut previous = 0;
    for byte in bytes {
        if lacks_return(previous, *byte) {
            text.push(CARRIAGE_RETURN)?;
        }
        text.push(*byte)?;
        previous = *byte;
    }
    Ok(text)
}

/// A text as a host wants it: up to the first end of file if there is one, without the carriage return of each line's
/// end. Refused if out of memory.
pub fn from_text(alloc: Global, bytes: &[u8]) -> Result<Vec<u8>, AllocError>
    ensures { IfOk result (λ text. text.items ≡ from_text bytes.now) }
{
    let mut text = Vec::new(alloc);
    for place in 0..bytes.len() {
        if bytes[place] == END_OF_FILE {
            return Ok(text);
        }
        if !ends_line(bytes, place) {
            text.push(bytes[place])?;
        }
    }
    Ok(text)
}

/// Whether a byte is a line feed that needs a carriage return before it.
fn lacks_return(previous: u8, byte: u8) -> bool
    ensures { result ≡ ((byte == line_feed) && not (previous == carriage_return)) }
{
    byte == LINE_FEED && previous != CARRIAGE_RETURN
}

/// Whether a byte is the carriage return of a line's end.
fn ends_line(bytes: &[u8], place: usize) -> bool
    requires { place < length bytes.now }
    ensures { result ≡ ((slice_index bytes.now place == carriage_return) && begins_with_line_feed (drop (place + 1) bytes.now)) }
{
    bytes[place] == CARRIAGE_RETURN && is_line_feed(bytes, place + 1)
}

/// Whether a line feed stands at a place.
fn is_line_feed(bytes: &[u8], place: usize) -> bool
    ensures { result ≡ begins_with_line_feed (drop place bytes.now) }
{
    place < bytes.len() && bytes[place] == LINE_FEED
}

/// A text without carriage returns and ends of file comes back as it was.
pub fn texts_come_back()
    ensures { TextLaw }
{}
