//! Digits and words at the end of a line.
ghost use Rattle.std.specs.Prelude.{◌≡◌, ◌<◌, ◌≤◌, ◌+◌, ◌-◌, ◌*◌, ◌++◌, ◌∷◌, [], length};
ghost use Rattle.cpm_listing.specs.Digits.{hexadecimal, two_digits, four_digits, behind_spaces, spaced, padded};

use arrayvec::ArrayString;

/// A line of text.
pub(crate) type ListingLine = ArrayString<96>;

/// The digit of a number below 16.
fn digit_of(value: u8) -> u8
    requires { value < 16 }
    ensures value { result ≡ hexadecimal value }
    ensures ascii { result < 128 }
{
    if value < 10 {
        b'0' + value
    } else {
        b'A' + (value - 10)
    }
}

/// A word in four hexadecimal digits, 0 to 9 and A to F.
#[tactic(auto, unfolding(crate::specs::Digits::four_digits, crate::specs::Digits::two_digits))]
pub fn four_digits(value: u16) -> [u8; 4]
    ensures { result ≡ four_digits value }
{
    let [high, low] = value.to_be_bytes();
    [
        digit_of(high / 16),
        digit_of(high % 16),
        digit_of(low / 16),
        digit_of(low % 16),
    ]
}

/// Adds a character below 80h.
pub(crate) fn add_character(line: &mut ListingLine, character: char)
    requires ascii { character < 128 }
    requires room { length line.old.bytes < 96 }
    ensures text { line.new.bytes ≡ line.old.bytes ++ character ∷ [] }
    ensures length { length line.new.bytes ≡ length line.old.bytes + 1 }
{
    line.push(character);
}

/// Adds a byte in two digits.
#[tactic(auto, unfolding(crate::specs::Digits::two_digits))]
pub(crate) fn add_byte(line: &mut ListingLine, value: u8)
    requires { length line.old.bytes + 2 ≤ 96 }
    ensures text { line.new.bytes ≡ line.old.bytes ++ two_digits value }
    ensures length { length line.new.bytes ≡ length line.old.bytes + 2 }
{
    add_character(line, char::from(digit_of(value / 16)));
    add_character(line, char::from(digit_of(value % 16)));
}

/// Adds a word in four digits.
#[tactic(auto, unfolding(crate::specs::Digits::four_digits))]
pub(crate) fn add_word(line: &mut ListingLine, value: u16)
    requires { length line.old.bytes + 4 ≤ 96 }
    ensures text { line.new.bytes ≡ line.old.bytes ++ four_digits value }
    ensures length { length line.new.bytes ≡ length line.old.bytes + 4 }
{
    let [high, low] = value.to_be_bytes();
    add_byte(line, high);
    add_byte(line, low);
}

/// Adds a text.
pub(crate) fn add_text(line: &mut ListingLine, text: &str)
    requires { length line.old.bytes + length text.now ≤ 96 }
    ensures text { line.new.bytes ≡ line.old.bytes ++ text.now }
    ensures length { length line.new.bytes ≡ length line.old.bytes + length text.now }
{
    line.push_str(text);
}

/// Adds a text at the left of so many places.
#[tactic(auto, unfolding(crate::specs::Digits::padded))]
pub(crate) fn add_padded(line: &mut ListingLine, text: &str, places: usize)
    requires fits { length text.now ≤ places }
    requires room { length line.old.bytes + places ≤ 96 }
    ensures text { line.new.bytes ≡ line.old.bytes ++ padded places text.now }
    ensures length { length line.new.bytes ≡ length line.old.bytes + places }
{
    add_text(line, text);
    for _place in text.len()..places {
        add_character(line, ' ');
    }
}

/// Adds each byte in two digits after a space.
fn add_behind_spaces(line: &mut ListingLine, bytes: &[u8])
    requires { length line.old.bytes + 3 * length bytes.now ≤ 96 }
    ensures text { line.new.bytes ≡ line.old.bytes ++ behind_spaces bytes.now }
    ensures length { length line.new.bytes ≡ length line.old.bytes + 3 * length bytes.now }
{
    for byte in bytes {
        add_text(line, " ");
        add_byte(line, *byte);
    }
}

/// Adds bytes in two digits each, single spaces between them.
#[tactic(auto, unfolding(crate::specs::Digits::spaced))]
pub(crate) fn add_spaced(line: &mut ListingLine, bytes: &[u8])
    requires { length line.old.bytes + 3 * length bytes.now ≤ 96 }
    ensures text { line.new.bytes ≡ line.old.bytes ++ spaced bytes.now }
    ensures length { length line.new.bytes ≡ length line.old.bytes + (3 * length bytes.now - 1) }
{
    if let Some((first, rest)) = bytes.split_first() {
        add_byte(line, *first);
        add_behind_spaces(line, rest);
    }
}
