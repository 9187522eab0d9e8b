//! The keys that a text stands for.
ghost use Rattle.std.specs.Prelude.{◌≡◌, is_some, length, option_map};
ghost use Rattle.cpm_script.specs.KeyText.{control_key, first_key_of_text, keys_of, plain_key};

/// A byte that stands for itself.
fn plain_key(byte: u8) -> Option<u8>
    ensures { result ≡ plain_key byte }
{
    match byte {
        b'^' => None,
        b' '..=b'~' => Some(byte),
        _ => None,
    }
}

/// The key that a caret and this byte stand for.
fn control_key(byte: u8) -> Option<u8>
    ensures { result ≡ control_key byte }
{
    match byte {
        b'@'..=b'_' | b'a'..=b'z' => Some(byte & 0x1F),
        b'?' => Some(0x7F),
        b'~' => Some(b'^'),
        _ => None,
    }
}

/// The first key of a text, and the text after it.
pub fn first_key(text: &[u8]) -> Option<(u8, &[u8])>
    ensures { option_map (λ p. (p.0, p.1.now)) result ≡ first_key_of_text text.now }
{
    let (first, rest) = text.split_first()?;
    match rest.split_first() {
        Some((second, after)) if *first == b'^' => Some((control_key(*second)?, after)),
        _ => Some((plain_key(*first)?, rest)),
    }
}

/// Whether a text stands for keys and nothing else.
pub fn are_keys(text: &[u8]) -> bool
    ensures { result ≡ is_some (keys_of text.now) }
{
    let mut rest = text;
    while !rest.is_empty() {
        match first_key(rest) {
            Some((_, after)) => rest = after,
            None => return false,
        }
    }
    true
}

/// How many keys a text stands for, if it stands for keys and nothing else.
pub(crate) fn count_keys(text: &[u8]) -> Option<usize>
    ensures { result ≡ option_map length (keys_of text.now) }
{
    let mut rest = text;
    let mut count = 0;
    while !rest.is_empty() {
        let (_, after) = first_key(rest)?;
        rest = after;
        count += 1;
    }
    Some(count)
}
