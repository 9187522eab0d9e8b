//! How a word and a line stand in a message of one line.
ghost use Rattle.std.specs.Prelude.{◌≡◌, ◌+◌, ◌<◌, ◌≤◌, ◌++◌, false, IsTrue, chars, codes, encode_utf8, length};
ghost use Rattle.cpm_shown.specs.Shown.{characters_of, has_room_to_show, shown_character, shown_of};
ghost use Rattle.cpm_shown.specs.Shown.{is_format_of_letters, is_format_of_lines, is_format_past_ffff, is_from, is_hidden};

use arrayvec::ArrayString;

/// What a word looks like in a message: `?` stands for each control character, and a word that is
/// too long ends in dots.
pub type ShownWord = ArrayString<200>;

/// A text as it is shown in a message of one line.
pub fn shown(text: &str) -> ShownWord
    ensures { result.bytes ≡ shown_of (chars text.now) }
{
    let mut word = ShownWord::new();
    for c in text.chars() {
        if !add_shown(&mut word, c) {
            break;
        }
    }
    word
}

/// A line of a file as it is shown in a message of one line, without the blanks at its ends.
pub fn shown_line(line: &[u8]) -> ShownWord
    ensures { result.bytes ≡ shown_of (characters_of line.now) }
{
    let mut word = ShownWord::new();
    let trimmed = line.trim_ascii();
    for byte in trimmed {
        let c = if *byte == b'\t' {
            ' '
        } else {
            char::from(*byte)
        };
        if !add_shown(&mut word, c) {
            break;
        }
    }
    word
}

/// Whether a character is one of these, from the first to the last.
fn is_from(c: char, first: char, last: char) -> bool
    ensures { result ≡ is_from first last c }
{
    first <= c && c <= last
}

/// Whether a character before those of general punctuation is for the format of a text.
fn is_format_of_letters(c: char) -> bool
    ensures { result ≡ is_format_of_letters c }
{
    is_from(c, '\u{AD}', '\u{AD}')
        || is_from(c, '\u{600}', '\u{605}')
        || is_from(c, '\u{61C}', '\u{61C}')
        || is_from(c, '\u{6DD}', '\u{6DD}')
        || is_from(c, '\u{70F}', '\u{70F}')
        || is_from(c, '\u{890}', '\u{891}')
        || is_from(c, '\u{8E2}', '\u{8E2}')
        || is_from(c, '\u{180E}', '\u{180E}')
}

/// Whether a character from general punctuation on is for the format of a text, or ends a line of it.
fn is_format_of_lines(c: char) -> bool
    ensures { result ≡ is_format_of_lines c }
{
    is_from(c, '\u{200B}', '\u{200F}')
        || is_from(c, '\u{2028}', '\u{202E}')
        || is_from(c, '\u{2060}', '\u{206F}')
        || is_from(c, '\u{FEFF}', '\u{FEFF}')
        || is_from(c, '\u{FFF9}', '\u{FFFB}')
}

/// Whether a character past the first plane is for the format of a text.
fn is_format_past_ffff(c: char) -> bool
    ensures { result ≡ is_format_past_ffff c }
{
    is_from(c, '\u{110BD}', '\u{110BD}')
        || is_from(c, '\u{110CD}', '\u{110CD}')
        || is_from(c, '\u{13430}', '\u{1343F}')
        || is_from(c, '\u{1BCA0}', '\u{1BCA3}')
        || is_from(c, '\u{1D173}', '\u{1D17A}')
        || is_from(c, '\u{E0000}', '\u{E007F}')
}

/// Whether a character is not shown as itself.
fn is_hidden(c: char) -> bool
    ensures { result ≡ is_hidden c }
{
    c.is_control() || is_format_of_letters(c) || is_format_of_lines(c) || is_format_past_ffff(c)
}

/// Adds a character where there is room for more, else dots: it says which.
fn add_shown(word: &mut ShownWord, c: char) -> bool
    ensures room { result ≡ has_room_to_show word.old.bytes }
    ensures shown { IsTrue result → word.new.bytes ≡ word.old.bytes ++ encode_utf8 (shown_character c) }
    ensures short { IsTrue result → length word.new.bytes ≤ 196 }
    ensures dots { result ≡ false → length word.old.bytes + 3 ≤ 200 → word.new.bytes ≡ word.old.bytes ++ codes "..." }
    ensures full { 200 < length word.old.bytes + 3 → word.new ≡ word.old }
{
    let c = if is_hidden(c) { '?' } else { c };
    if word.remaining_capacity() < 8 || word.try_push(c).is_err() {
        // There is room for the dots, since fewer than five bytes went in since the last look.
        let _ = word.try_push_str("...");
        return false;
    }
    true
}
