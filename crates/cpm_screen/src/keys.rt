//! The keys of the person's ANSI terminal, and what the terminal of the time sent for them.

ghost use Rattle.std.specs.Prelude.{◌≡◌, ◌≢◌, ◌<◌, ◌≤◌, ◌++◌, [], ◌∷◌, None, Some, length, slice_index, IfOk, IfSome, IsNone, ◌↔◌};
ghost use Rattle.cpm_screen.specs.Keys.{adm3a_sends, bracket_key, byte_alone, console_letters, function_letters, key_at_front, key_in, key_sends, letter_keys};
ghost use Rattle.cpm_screen.specs.Keys.{numbered_key, numbered_keys, one_digit_key, single_shift_key, taken_or, televideo_function};
ghost use Rattle.cpm_screen.specs.Keys.{televideo_sends, terminal_sends, two_digit_key, vt100_function, vt100_sends, vt52_function, vt52_sends, wordstar_sends};

use crate::terminal::TerminalKind;

/// A key of the person's terminal that sends more than one byte.
#[derive(Clone, Copy, Debug, PartialEq, Eq)]
pub enum PersonKey {
    Up,
    Down,
    Right,
    Left,
    Home,
    End,
    PageUp,
    PageDown,
    /// F1 to F10, by their numbers.
    Function(u8),
}

/// What the arrows send.
#[derive(Clone, Copy, Debug, PartialEq, Eq)]
pub enum Arrows {
    /// What the terminal's own keys sent.
    Own,
    /// WordStar's diamond: ^E, ^X, ^S and ^D, and what goes with it.
    WordStar,
}

/// What stands at the front of bytes: a key, or none where the first byte is a key by itself; and how many bytes it took.
#[derive(Clone, Copy)]
pub struct KeyRead {
    pub key: Option<PersonKey>,
    pub taken: usize,
}

/// A byte at a place, or 0 past the end.
fn byte_at(bytes: &[u8], place: usize) -> u8
    ensures value { result ≡ slice_index bytes.now place }
    ensures within { result ≢ 0 → place < length bytes.now }
{
    match bytes.get(place) {
        Some(byte) => *byte,
        None => 0,
    }
}

/// The first byte alone.
fn alone() -> KeyRead
    ensures { result ≡ byte_alone }
{
    KeyRead {
        key: None,
        taken: 1,
    }
}

/// A key of so many bytes, or else another reading.
fn taken_or(taken: usize, key: Option<PersonKey>, other: KeyRead) -> KeyRead
    ensures { result ≡ taken_or taken key other }
{
    match key {
        Some(_) => KeyRead { key, taken },
        None => other,
    }
}

/// The key of a letter after ESC [ or ESC O.
fn letter_key(letter: u8) -> Option<PersonKey>
    ensures { result ≡ key_in letter_keys letter }
{
    match letter {
        b'A' => Some(PersonKey::Up),
        b'B' => Some(PersonKey::Down),
        b'C' => Some(PersonKey::Right),
        b'D' => Some(PersonKey::Left),
        b'F' => Some(PersonKey::End),
        b'H' => Some(PersonKey::Home),
        _ => None,
    }
}

/// The function key of a letter after ESC O.
fn function_key(letter: u8) -> Option<PersonKey>
    ensures { result ≡ key_in function_letters letter }
{
    match letter {
        b'P' => Some(PersonKey::Function(1)),
        b'Q' => Some(PersonKey::Function(2)),
        b'R' => Some(PersonKey::Function(3)),
        b'S' => Some(PersonKey::Function(4)),
        _ => None,
    }
}

/// The function key of a letter after ESC [ [.
fn console_key(letter: u8) -> Option<PersonKey>
    ensures { result ≡ key_in console_letters letter }
{
    match letter {
        b'A' => Some(PersonKey::Function(1)),
        b'B' => Some(PersonKey::Function(2)),
        b'C' => Some(PersonKey::Function(3)),
        b'D' => Some(PersonKey::Function(4)),
        b'E' => Some(PersonKey::Function(5)),
        _ => None,
    }
}

/// The key of a number.
fn key_numbered(number: u8) -> Option<PersonKey>
    ensures { result ≡ key_in numbered_keys number }
{
    match number {
        1 | 7 => Some(PersonKey::Home),
        4 | 8 => Some(PersonKey::End),
        5 => Some(PersonKey::PageUp),
        6 => Some(PersonKey::PageDown),
        11 => Some(PersonKey::Function(1)),
        12 => Some(PersonKey::Function(2)),
        13 => Some(PersonKey::Function(3)),
        14 => Some(PersonKey::Function(4)),
        15 => Some(PersonKey::Function(5)),
        17 => Some(PersonKey::Function(6)),
        18 => Some(PersonKey::Function(7)),
        19 => Some(PersonKey::Function(8)),
        20 => Some(PersonKey::Function(9)),
        21 => Some(PersonKey::Function(10)),
        _ => None,
    }
}

/// The key of a number of one digit.
#[tactic(auto, unfolding(crate::specs::Keys::one_digit_key))]
fn one_digit_key(digit: u8) -> Option<PersonKey>
    ensures { result ≡ one_digit_key digit }
{
    match digit {
        b'0'..=b'9' => key_numbered(digit - b'0'),
        _ => None,
    }
}

/// The key of a number of two digits.
#[tactic(auto, unfolding(crate::specs::Keys::two_digit_key))]
fn two_digit_key(tens: u8, ones: u8) -> Option<PersonKey>
    ensures { result ≡ two_digit_key tens ones }
{
    match (tens, ones) {
        (b'1'..=b'9', b'0'..=b'9') => key_numbered((tens - b'0') * 10 + (ones - b'0')),
        _ => None,
    }
}

/// What stands at the front, after ESC [, by a number or a second [.
#[tactic(auto, unfolding(crate::specs::Keys::numbered_key))]
fn numbered_key(bytes: &[u8]) -> KeyRead
    ensures { result ≡ numbered_key bytes.now }
{
    let third = byte_at(bytes, 2);
    let fourth = byte_at(bytes, 3);
    if third == b'[' {
        taken_or(4, console_key(fourth), alone())
    } else if fourth == b'~' {
        taken_or(4, one_digit_key(third), alone())
    } else if byte_at(bytes, 4) == b'~' {
        taken_or(5, two_digit_key(third, fourth), alone())
    } else {
        alone()
    }
}

/// What stands at the front, after ESC [.
#[tactic(auto, unfolding(crate::specs::Keys::bracket_key))]
fn bracket_key(bytes: &[u8]) -> KeyRead
    ensures { result ≡ bracket_key bytes.now }
{
    taken_or(3, letter_key(byte_at(bytes, 2)), numbered_key(bytes))
}

/// What stands at the front, after ESC O.
#[tactic(auto, unfolding(crate::specs::Keys::single_shift_key))]
fn single_shift_key(bytes: &[u8]) -> KeyRead
    ensures { result ≡ single_shift_key bytes.now }
{
    let letter = byte_at(bytes, 2);
    taken_or(
        3,
        letter_key(letter),
        taken_or(3, function_key(letter), alone()),
    )
}

/// What stands at the front, as its first two bytes say.
#[tactic(auto, unfolding(crate::specs::Keys::key_at_front))]
fn key_at_front(bytes: &[u8]) -> KeyRead
    ensures { result ≡ key_at_front bytes.now }
{
    match (byte_at(bytes, 0), byte_at(bytes, 1)) {
        (0x1B, b'[') => bracket_key(bytes),
        (0x1B, b'O') => single_shift_key(bytes),
        _ => alone(),
    }
}

/// What stands at the front of bytes that came at once: the longest sequence of a key, or else the first byte, which may be an Escape by itself;
/// so of no byte too.
#[tactic(auto, using(crate::proofs::KeyLemmas::takes_few))]
pub fn first_key(bytes: &[u8]) -> KeyRead
    ensures key { result ≡ key_at_front bytes.now }
    ensures some { 0 < result.taken }
    ensures within { 0 < length bytes.now → result.taken ≤ length bytes.now }
{
    key_at_front(bytes)
}

/// What an ADM-3A or a Kaypro sends for a key.
#[tactic(auto, unfolding(crate::specs::Keys::adm3a_sends))]
fn adm3a_text(key: PersonKey) -> &'static [u8]
    ensures { result.now ≡ adm3a_sends key }
{
    match key {
        PersonKey::Up => b"\x0B",
        PersonKey::Down => b"\x0A",
        PersonKey::Right => b"\x0C",
        PersonKey::Left => b"\x08",
        PersonKey::Home => b"\x1E",
        _ => b"",
    }
}

/// What a TeleVideo sends for a function key.
fn televideo_function(number: u8) -> &'static [u8]
    ensures { result.now ≡ televideo_function number }
{
    match number {
        1 => b"\x01@\r",
        2 => b"\x01A\r",
        3 => b"\x01B\r",
        4 => b"\x01C\r",
        5 => b"\x01D\r",
        6 => b"\x01E\r",
        7 => b"\x01F\r",
        8 => b"\x01G\r",
        9 => b"\x01H\r",
        10 => b"\x01I\r",
        _ => b"",
    }
}

/// What a TeleVideo sends for a key.
#[tactic(auto, unfolding(crate::specs::Keys::televideo_sends))]
fn televideo_text(key: PersonKey) -> &'static [u8]
    ensures { result.now ≡ televideo_sends key }
{
    match key {
        PersonKey::Up => b"\x0B",
        PersonKey::Down => b"\x16",
        PersonKey::Right => b"\x0C",
        PersonKey::Left => b"\x08",
        PersonKey::Home => b"\x1E",
        PersonKey::Function(number) => televideo_function(number),
        _ => b"",
    }
}

/// What a VT52 sends for a function key.
fn vt52_function(number: u8) -> &'static [u8]
    ensures { result.now ≡ vt52_function number }
{
    match number {
        1 => b"\x1BP",
        2 => b"\x1BQ",
        3 => b"\x1BR",
        _ => b"",
    }
}

/// What a VT52 sends for a key.
#[tactic(auto, unfolding(crate::specs::Keys::vt52_sends))]
fn vt52_text(key: PersonKey) -> &'static [u8]
    ensures { result.now ≡ vt52_sends key }
{
    match key {
        PersonKey::Up => b"\x1BA",
        PersonKey::Down => b"\x1BB",
        PersonKey::Right => b"\x1BC",
        PersonKey::Left => b"\x1BD",
        PersonKey::Function(number) => vt52_function(number),
        _ => b"",
    }
}

/// What a VT100 sends for a function key.
fn vt100_function(number: u8) -> &'static [u8]
    ensures { result.now ≡ vt100_function number }
{
    match number {
        1 => b"\x1BOP",
        2 => b"\x1BOQ",
        3 => b"\x1BOR",
        4 => b"\x1BOS",
        _ => b"",
    }
}

/// What a VT100 sends for a key.
#[tactic(auto, unfolding(crate::specs::Keys::vt100_sends))]
fn vt100_text(key: PersonKey) -> &'static [u8]
    ensures { result.now ≡ vt100_sends key }
{
    match key {
        PersonKey::Up => b"\x1B[A",
        PersonKey::Down => b"\x1B[B",
        PersonKey::Right => b"\x1B[C",
        PersonKey::Left => b"\x1B[D",
        PersonKey::Function(number) => vt100_function(number),
        _ => b"",
    }
}

/// What moves the cursor in WordStar.
#[tactic(auto, unfolding(crate::specs::Keys::wordstar_sends))]
fn wordstar_text(key: PersonKey) -> &'static [u8]
    ensures { result.now ≡ wordstar_sends key }
{
    match key {
        PersonKey::Up => b"\x05",
        PersonKey::Down => b"\x18",
        PersonKey::Right => b"\x04",
        PersonKey::Left => b"\x13",
        PersonKey::Home => b"\x11\x13",
        PersonKey::End => b"\x11\x04",
        PersonKey::PageUp => b"\x12",
        PersonKey::PageDown => b"\x03",
        PersonKey::Function(_) => b"",
    }
}

impl TerminalKind {
    /// What the terminal's own key sends; nothing for a key that it has not.
    fn own_text(self, key: PersonKey) -> &'static [u8]
        ensures { result.now ≡ terminal_sends self key }
    {
        match self {
            TerminalKind::Adm3a | TerminalKind::Kaypro => adm3a_text(key),
            TerminalKind::Televideo => televideo_text(key),
            TerminalKind::Vt52 => vt52_text(key),
            TerminalKind::Vt100 => vt100_text(key),
        }
    }

    /// What a program gets for a key of the person's terminal; nothing for a key that the terminal has not.
    pub fn key_text(self, arrows: Arrows, key: PersonKey) -> &'static [u8]
        ensures { result.now ≡ key_sends arrows self key }
    {
        match (arrows, key) {
            (Arrows::WordStar, PersonKey::Function(_)) | (Arrows::Own, _) => self.own_text(key),
            (Arrows::WordStar, _) => wordstar_text(key),
        }
    }
}
