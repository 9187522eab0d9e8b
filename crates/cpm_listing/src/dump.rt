//! Sixteen bytes of memory on a line.
ghost use Rattle.std.specs.Prelude.{◌≡◌, ◌<◌, ◌≤◌, ◌+◌, ◌++◌, length, map};
ghost use Rattle.cpm_listing.specs.Dump.{dump_line, dump_character};

use crate::digits::{ListingLine, add_character, add_spaced, add_text, add_word};
use arrayvec::ArrayString;

/// A byte as a character; a full stop stands for what doesn't print.
fn dump_character(byte: u8) -> char
    ensures value { result ≡ dump_character byte }
    ensures ascii { result < 128 }
{
    match byte {
        0x20..=0x7E => char::from(byte),
        _ => '.',
    }
}

/// Adds each byte as a character.
fn add_shown(line: &mut ListingLine, bytes: &[u8])
    requires { length line.old.bytes + length bytes.now ≤ 96 }
    ensures text { line.new.bytes ≡ line.old.bytes ++ map dump_character bytes.now }
    ensures length { length line.new.bytes ≡ length line.old.bytes + length bytes.now }
{
    for byte in bytes {
        add_character(line, dump_character(*byte));
    }
}

/// An address, and the sixteen bytes from there on as numbers and as characters.
#[tactic(auto, unfolding(crate::specs::Dump::dump_line))]
pub fn dump_line(address: u16, bytes: &[u8; 16]) -> ArrayString<96>
    ensures { result.bytes ≡ dump_line address bytes.now }
{
    let mut line: ListingLine = ArrayString::new();
    add_word(&mut line, address);
    add_text(&mut line, "  ");
    add_spaced(&mut line, bytes);
    add_text(&mut line, "  ");
    add_shown(&mut line, bytes);
    line
}
