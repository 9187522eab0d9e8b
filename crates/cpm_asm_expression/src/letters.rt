//! The characters of words.
ghost use Rattle.std.specs.Prelude.{◌≡◌, ◌≤◌, length, option_map};
ghost use Rattle.std.specs.List.{prefix_len};
ghost use Rattle.cpm_asm_expression.specs.Letters.{after_blanks, begins_name, continues_word, is_blank, letters_of, short_letters, split_word};

use arrayvec::ArrayVec;

/// The most characters of a name.
pub const LONGEST_NAME: usize = 16;

/// The characters of a name or of another word: capital letters, digits, `@` and `?`.
pub type Letters = ArrayVec<u8, 16>;

fn is_blank(byte: u8) -> bool
    ensures { result ≡ is_blank byte }
{
    byte == b' ' || byte == b'\t'
}

/// A character that a word may begin with.
pub fn begins_name(byte: u8) -> bool
    ensures { result ≡ begins_name byte }
{
    byte.is_ascii_alphabetic() || byte == b'@' || byte == b'?'
}

/// A character of a word or a number.
fn continues_word(byte: u8) -> bool
    ensures { result ≡ continues_word byte }
{
    begins_name(byte) || byte.is_ascii_digit() || byte == b'$'
}

/// How many bytes at the front of a text are blanks.
fn blanks(text: &[u8]) -> usize
    ensures count { result ≡ prefix_len is_blank text.now }
    ensures within { result ≤ length text.now }
{
    for (place, byte) in text.iter().enumerate() {
        if !is_blank(*byte) {
            return place;
        }
    }
    text.len()
}

/// How many bytes at the front of a text go on with a word.
fn word_length(text: &[u8]) -> usize
    ensures count { result ≡ prefix_len continues_word text.now }
    ensures within { result ≤ length text.now }
{
    for (place, byte) in text.iter().enumerate() {
        if !continues_word(*byte) {
            return place;
        }
    }
    text.len()
}

/// A text without the blanks before it.
pub fn after_blanks(text: &[u8]) -> &[u8]
    ensures { result.now ≡ after_blanks text.now }
{
    text.split_at(blanks(text)).1
}

/// The word at the front of a text, and the text after it.
pub fn split_word(text: &[u8]) -> (&[u8], &[u8])
    ensures { (result.0.now, result.1.now) ≡ split_word text.now }
{
    text.split_at(word_length(text))
}

/// The characters of a word without its dollar signs, in capital letters; none where they are more than 16.
pub fn letters_of(word: &[u8]) -> Option<Letters>
    ensures { option_map (λ letters. letters.items) result ≡ short_letters word.now }
{
    let mut letters = Letters::new();
    for byte in word {
        if *byte != b'$' && letters.try_push(byte.to_ascii_uppercase()).is_err() {
            return None;
        }
    }
    Some(letters)
}
