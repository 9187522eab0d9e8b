//! Quoted text.
ghost use Rattle.std.specs.Prelude.{◌≡◌, ◌≤◌, option_map, length};
ghost use Rattle.cpm_asm_expression.specs.Quotes.{Character, character, quoted_text, text_number};
ghost use Rattle.cpm_asm_expression.specs.Quotes.{seen_as};

use arrayvec::ArrayVec;

/// The most characters of a text.
pub const LONGEST_TEXT: usize = 64;

/// What stands next in a text after its first quote.
enum QuotedPart<'a> {
    /// A character, and what follows it.
    Character(u8, &'a [u8]),
    /// The last quote, and what follows it.
    End(&'a [u8]),
    /// No quote ends the text.
    Open,
}

/// The next character of a text; two quotes are one character.
fn next_character(text: &[u8]) -> QuotedPart<'_>
    ensures { seen_as result ≡ character text.now }
{
    match text.split_first() {
        None => QuotedPart::Open,
        Some((b'\'', rest)) => match rest.split_first() {
            Some((b'\'', after)) => QuotedPart::Character(b'\'', after),
            _ => QuotedPart::End(rest),
        },
        Some((byte, rest)) => QuotedPart::Character(*byte, rest),
    }
}

/// The characters of a text after its first quote, 1 to 64 of them, and what follows its last quote.
pub fn quoted_text(text: &[u8]) -> Option<(ArrayVec<u8, 64>, &[u8])>
    ensures { option_map (λ p. (p.0.items, p.1.now)) result ≡ quoted_text text.now }
{
    let mut characters: ArrayVec<u8, 64> = ArrayVec::new();
    let mut rest = text;
    loop {
        match next_character(rest) {
            QuotedPart::Open => return None,
            QuotedPart::End(after) => {
                return if characters.is_empty() {
                    None
                } else {
                    Some((characters, after))
                };
            }
            QuotedPart::Character(byte, after) => {
                if characters.is_full() {
                    return None;
                }
                characters.push(byte);
                rest = after;
            }
        }
    }
}

/// The value of a text of one character or two, the first one high.
pub(crate) fn text_number(characters: &[u8]) -> Option<u16>
    ensures { result ≡ text_number characters.now }
{
    match characters {
        [only] => Some(u16::from(*only)),
        [high, low] => Some(u16::from(*high) * 256 + u16::from(*low)),
        _ => None,
    }
}
