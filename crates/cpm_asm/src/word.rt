//! The word at the front of a text.
ghost use Rattle.std.specs.Prelude.{◌≡◌};
ghost use Rattle.cpm_asm.specs.Heads.{after_colon, is_blank_text, seen_word, word_front};

use cpm_asm_expression::{Letters, after_blanks, begins_name, letters_of, split_word};

/// What stands at the front of a text, after its blanks.
pub(crate) enum FirstWord<'a> {
    Nothing,
    /// A word of at most 16 characters, and what follows it.
    Word(Letters, &'a [u8]),
    Other,
}

/// The word at the front of a text.
pub(crate) fn word_front(text: &[u8]) -> FirstWord<'_>
    ensures { seen_word result ≡ word_front text.now }
{
    let text = after_blanks(text);
    match text.first() {
        None => FirstWord::Nothing,
        Some(first) => {
            if begins_name(*first) {
                let (word, after) = split_word(text);
                match letters_of(word) {
                    Some(letters) => FirstWord::Word(letters, after),
                    None => FirstWord::Other,
                }
            } else {
                FirstWord::Other
            }
        }
    }
}

/// Nothing but blanks.
pub(crate) fn is_blank_text(text: &[u8]) -> bool
    ensures { result ≡ is_blank_text text.now }
{
    after_blanks(text).is_empty()
}

/// A text without the colon that it may begin with.
pub(crate) fn after_colon(text: &[u8]) -> &[u8]
    ensures { result.now ≡ after_colon text.now }
{
    let text = after_blanks(text);
    match text.split_first() {
        Some((b':', rest)) => rest,
        _ => text,
    }
}
