//! Lines, and the statements in a line.
ghost use Rattle.std.specs.Prelude.{◌≡◌, ◌∷◌, ◌+◌, ◌<◌, ◌≤◌, IfSome, false, length};
ghost use Rattle.std.specs.Str.Lines.{lines, strip_carriage_return};
ghost use Rattle.cpm_asm.specs.Lines.{line_code, outside, parts, parts_behind, source_text};

use memchr::memchr;

/// The byte that ends a source.
const END_OF_SOURCE: u8 = 0x1A;

/// A source up to the byte that ends it.
pub fn source_text(source: &[u8]) -> &[u8]
    ensures { result.now ≡ source_text source.now }
{
    match memchr(END_OF_SOURCE, source) {
        Some(end) => &source[..end],
        None => source,
    }
}

/// A line without the carriage return before its end.
fn without_return(line: &[u8]) -> &[u8]
    ensures { result.now ≡ strip_carriage_return line.now }
{
    match line.split_last() {
        Some((b'\r', front)) => front,
        _ => line,
    }
}

/// The first line of a text, and the text after it.
pub fn first_line(text: &[u8]) -> (&[u8], &[u8])
    requires { 0 < length text.now }
    ensures lines { lines text.now ≡ result.0.now ∷ lines result.1.now }
    ensures shorter { length result.0.now + length result.1.now ≤ length text.now }
    ensures rest { length result.1.now < length text.now }
{
    match memchr(b'\n', text) {
        Some(end) => (without_return(&text[..end]), text.split_at(end + 1).1),
        None => (text, &[]),
    }
}

/// How many bytes stand before the first sign that is in no quoted text.
fn outside_quotes(text: &[u8], sign: u8) -> usize
    ensures count { result ≡ outside sign false text.now }
    ensures within { result ≤ length text.now }
{
    let mut quoted = false;
    for (place, byte) in text.iter().enumerate() {
        if *byte == sign && !quoted {
            return place;
        }
        if *byte == b'\'' {
            quoted = !quoted;
        }
    }
    text.len()
}

/// The first of the parts into which a sign that is in no quoted text cuts a text, and what follows the sign.
pub(crate) fn first_part(text: &[u8], sign: u8) -> (&[u8], Option<&[u8]>)
    ensures parts { parts sign false text.now ≡ result.0.now ∷ parts_behind sign result.1 }
    ensures shorter { IfSome result.1 (λ rest. length rest.now < length text.now) }
{
    let place = outside_quotes(text, sign);
    if place < text.len() {
        (&text[..place], Some(text.split_at(place + 1).1))
    } else {
        (text, None)
    }
}

/// A line without its comment.
pub(crate) fn line_code(line: &[u8]) -> &[u8]
    ensures code { result.now ≡ line_code line.now }
    ensures shorter { length result.now ≤ length line.now }
{
    match line.first() {
        Some(b'*') => &[],
        _ => line.split_at(outside_quotes(line, b';')).0,
    }
}
