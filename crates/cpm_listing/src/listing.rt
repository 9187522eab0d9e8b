//! An instruction of the 8080 on a line.
ghost use Rattle.std.specs.Prelude.{◌≡◌, ◌≤◌, ◌+◌, ◌*◌, ◌++◌, length};
ghost use Rattle.cpm_listing.specs.Listing.{listing_line, statement, list_line};

use crate::digits::{ListingLine, add_padded, add_spaced, add_text, add_word};
use crate::mnemonics::mnemonic_of;
use crate::operands::{add_byte_number, add_operands};
use arrayvec::ArrayString;
use cpm_decode::{Decoded, row8080};

/// Adds a name alone, or in four places with its operands after a space.
#[tactic(auto, unfolding(crate::specs::Listing::statement))]
fn add_statement(line: &mut ListingLine, name: &str, operands: &str)
    requires short { length name.now ≤ 4 }
    requires room { length line.old.bytes + 5 + length operands.now ≤ 96 }
    ensures { line.new.bytes ≡ line.old.bytes ++ statement name.now operands.now }
{
    if operands.is_empty() {
        add_text(line, name);
    } else {
        add_padded(line, name, 4);
        add_text(line, " ");
        add_text(line, operands);
    }
}

/// An address, its bytes in so many places, and a name with its operands.
#[tactic(auto, unfolding(crate::specs::Listing::listing_line))]
pub(crate) fn listing_line(
    places: usize,
    address: u16,
    bytes: &[u8],
    name: &str,
    operands: &str,
) -> ListingLine
    requires few { 3 * length bytes.now ≤ places + 1 }
    requires places { places ≤ 11 }
    requires short { length name.now ≤ 4 }
    requires room { length operands.now ≤ 13 }
    ensures { result.bytes ≡ listing_line places address bytes.now (statement name.now operands.now) }
{
    let mut shown: ListingLine = ArrayString::new();
    add_spaced(&mut shown, bytes);
    let mut line: ListingLine = ArrayString::new();
    add_word(&mut line, address);
    add_text(&mut line, "  ");
    add_padded(&mut line, shown.as_str(), places);
    add_text(&mut line, "  ");
    add_statement(&mut line, name, operands);
    line
}

/// The 8080's instruction that begins three bytes at an address: the address, the instruction's bytes, its
/// mnemonic and its operands. A byte that begins no instruction is listed as DB.
#[tactic(auto, unfolding(crate::specs::Listing::list_line))]
pub fn list_line(address: u16, bytes: [u8; 3]) -> ArrayString<96>
    ensures { result.bytes ≡ list_line address bytes }
{
    let mut operands: ListingLine = ArrayString::new();
    match row8080(bytes) {
        Some(Decoded { op, length }) => {
            add_operands(&mut operands, op);
            let shown = &bytes[..usize::from(length)];
            listing_line(8, address, shown, mnemonic_of(op), operands.as_str())
        }
        None => {
            add_byte_number(&mut operands, bytes[0]);
            listing_line(8, address, &bytes[..1], "DB", operands.as_str())
        }
    }
}
