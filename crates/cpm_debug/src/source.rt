//! The line of a listing that shows what stands at an address.
ghost use Rattle.std.specs.Prelude.{◌≡◌};
ghost use Rattle.cpm_debug.specs.Source.{begins_with_text, has_bytes, line_head, source_line};

use cpm_listing::four_digits;
use cpm_script::first_line;

/// How a line begins that has this address.
fn line_head(address: u16) -> [u8; 6]
    ensures { result ≡ line_head address }
{
    let [a, b, c, d] = four_digits(address);
    [b' ', a, b, c, d, b' ']
}

/// Whether something stands first that is no space.
fn begins_with_text(text: &[u8]) -> bool
    ensures { result ≡ begins_with_text text.now }
{
    match text.first() {
        Some(first) => *first != b' ',
        None => false,
    }
}

/// Whether a line has this beginning, and bytes after it.
fn has_bytes(head: &[u8; 6], line: &[u8]) -> bool
    ensures { result ≡ has_bytes head.now line.now }
{
    line.starts_with(head) && begins_with_text(&line[head.len()..])
}

/// The line of a listing that shows the bytes at an address, without its end; nothing where there is none.
pub(crate) fn source_line(listing: &[u8], pc: u16) -> &[u8]
    ensures { result.now ≡ source_line listing.now pc }
{
    let head = line_head(pc);
    let mut rest = listing;
    while !rest.is_empty() {
        let (line, after) = first_line(rest);
        if has_bytes(&head, line) {
            return line;
        }
        rest = after;
    }
    &[]
}
