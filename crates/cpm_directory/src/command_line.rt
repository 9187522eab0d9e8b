//! File names of command lines.

ghost use Rattle.std.specs.Prelude.{◌≡◌, ◌≤◌, ◌==◌, ◌++◌, length, not};
ghost use Rattle.std.specs.List.{position_or_len, position};
ghost use Rattle.cpm_directory.specs.CommandLine.{is_delimiter, after_spaces, drive_of, after_drive, word_in, after_word};
ghost use Rattle.cpm_directory.specs.CommandLine.{type_of, after_type, character_of, name_field, fcb_named, text_behind_name};

use cpm_volume::{Extent, Fcb};

/// The file control block of the name at the front of a text of capitals, spaces before it skipped, and the text
/// after it.
pub fn parse_fcb(text: &[u8]) -> (Fcb, &[u8])
    ensures fcb { result.0 ≡ fcb_named text.now }
    ensures rest { result.1.now ≡ text_behind_name text.now }
{
    let (drive, text) = split_drive(after_spaces(text));
    let (name, text) = split_word(text);
    let (kind, text) = split_type(text);
    let extent = Extent {
        name: fields(name, kind),
        ex: 0,
        s1: 0,
        s2: 0,
        record_count: 0,
        blocks: [0; 16],
    };
    let fcb = Fcb {
        drive,
        extent,
        current_record: 0,
        random_record: [0; 3],
    };
    (fcb, text)
}

/// Whether a character ends a name or a type.
fn is_delimiter(c: u8) -> bool
    ensures { result ≡ is_delimiter c }
{
    c < b' ' || matches!(c, b' ' | b'=' | b'_' | b'.' | b':' | b';' | b'<' | b'>')
}

/// The text after the spaces in front.
fn after_spaces(text: &[u8]) -> &[u8]
    ensures { result.now ≡ after_spaces text.now }
{
    &text[spaces_in_front(text)..]
}

fn spaces_in_front(text: &[u8]) -> usize
    ensures count { result ≡ position_or_len (λ c. not (c == 32)) text.now }
    ensures within { result ≤ length text.now }
{
    first_character(text).unwrap_or(text.len())
}

fn first_character(text: &[u8]) -> Option<usize>
    ensures { result ≡ position (λ c. not (c == 32)) text.now }
{
    text.iter().position(|c| *c != b' ')
}

/// The drive that is named in front, 0 for none, and the text after its name.
fn split_drive(text: &[u8]) -> (u8, &[u8])
    ensures drive { result.0 ≡ drive_of text.now }
    ensures rest { result.1.now ≡ after_drive text.now }
{
    if text.len() >= 2 && text[1] == b':' && b'A' <= text[0] && text[0] <= b'P' {
        (text[0] - b'@', &text[2..])
    } else {
        (0, text)
    }
}

/// The characters up to a delimiter, and the text from it on.
fn split_word(text: &[u8]) -> (&[u8], &[u8])
    ensures word { result.0.now ≡ word_in text.now }
    ensures rest { result.1.now ≡ after_word text.now }
{
    let end = word_length(text);
    (&text[..end], &text[end..])
}

fn word_length(text: &[u8]) -> usize
    ensures count { result ≡ position_or_len is_delimiter text.now }
    ensures within { result ≤ length text.now }
{
    first_delimiter(text).unwrap_or(text.len())
}

fn first_delimiter(text: &[u8]) -> Option<usize>
    ensures { result ≡ position is_delimiter text.now }
{
    text.iter().position(|c| is_delimiter(*c))
}

/// The type after a period, and the text after it.
fn split_type(text: &[u8]) -> (&[u8], &[u8])
    ensures kind { result.0.now ≡ type_of text.now }
    ensures rest { result.1.now ≡ after_type text.now }
{
    if !text.is_empty() && text[0] == b'.' {
        split_word(&text[1..])
    } else {
        (&text[..0], text)
    }
}

/// A name and a type in their fields.
fn fields(name: &[u8], kind: &[u8]) -> [u8; 11]
    ensures { result ≡ name_field 8 name.now ++ name_field 3 kind.now }
{
    let mut both = [0; 11];
    for place in 0..11 {
        both[place] = if place < 8 {
            character_of(name, place)
        } else {
            character_of(kind, place - 8)
        };
    }
    both
}

/// The character at a place of a field.
#[tactic(auto, unfolding(crate::specs::CommandLine::character_of))]
fn character_of(word: &[u8], place: usize) -> u8
    ensures { result ≡ character_of word.now place }
{
    let star = before_star(word);
    if place < star {
        word[place]
    } else if star < word.len() {
        b'?'
    } else {
        b' '
    }
}

fn before_star(word: &[u8]) -> usize
    ensures count { result ≡ position_or_len (λ c. c == 42) word.now }
    ensures within { result ≤ length word.now }
{
    first_star(word).unwrap_or(word.len())
}

fn first_star(word: &[u8]) -> Option<usize>
    ensures { result ≡ position (λ c. c == 42) word.now }
{
    word.iter().position(|c| *c == b'*')
}
