//! Keys as lines of a key script.

ghost use Rattle.std.specs.Prelude.{◌≡◌, ◌<◌, ◌≤◌, ◌+◌, ◌++◌, ◌∷◌, [], length, MatchOption};
ghost use Rattle.cpm_script.specs.KeyText.{caret};
ghost use Rattle.cpm_script.specs.Recording.{key_line, key_text};

use crate::script::Key;
use arrayvec::ArrayString;
use itoa::Buffer;

/// A line with one key: at most 20 digits, a space, two characters and a line feed.
type KeyLine = ArrayString<32>;

/// Adds a character below 80h.
fn add_character(line: &mut KeyLine, byte: u8)
    requires ascii { byte < 128 }
    requires room { length line.old.bytes < 32 }
    ensures text { line.new.bytes ≡ line.old.bytes ++ byte ∷ [] }
    ensures length { length line.new.bytes ≡ length line.old.bytes + 1 }
{
    line.push(char::from(byte));
}

/// Adds a caret and a character below 80h.
fn add_behind_caret(line: &mut KeyLine, byte: u8)
    requires ascii { byte < 128 }
    requires room { length line.old.bytes + 2 ≤ 32 }
    ensures text { line.new.bytes ≡ line.old.bytes ++ caret ∷ byte ∷ [] }
    ensures length { length line.new.bytes ≡ length line.old.bytes + 2 }
{
    add_character(line, b'^');
    add_character(line, byte);
}

/// Adds a key below 80h.
#[tactic(auto, unfolding(crate::specs::Recording::key_text))]
fn add_key(line: &mut KeyLine, byte: u8)
    requires ascii { byte < 128 }
    requires room { length line.old.bytes + 2 ≤ 32 }
    ensures text { line.new.bytes ≡ line.old.bytes ++ key_text byte }
    ensures length { length line.new.bytes ≤ length line.old.bytes + 2 }
{
    match byte {
        0x00..=0x1F => add_behind_caret(line, byte + 0x40),
        b'^' => add_behind_caret(line, b'~'),
        0x7F => add_behind_caret(line, b'?'),
        _ => add_character(line, byte),
    }
}

/// The line of a key script that has just this key: its count, a space, the key and a line feed.
///
/// A byte of 80h or more is no key.
#[tactic(auto, unfolding(crate::specs::Recording::key_line))]
pub fn key_line(key: Key) -> Option<ArrayString<32>>
    ensures { MatchOption result (128 ≤ key.byte) (λ line. (key.byte < 128) × (line.bytes ≡ key_line key)) }
{
    if !key.byte.is_ascii() {
        return None;
    }
    let mut line: KeyLine = ArrayString::new();
    let mut buffer = Buffer::new();
    line.push_str(buffer.format(key.count));
    add_character(&mut line, b' ');
    add_key(&mut line, key.byte);
    add_character(&mut line, b'\n');
    Some(line)
}
