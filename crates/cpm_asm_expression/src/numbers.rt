//! Numbers, in the base that their last letter tells.
ghost use Rattle.std.specs.Prelude.{◌≡◌, ◌<◌, ◌≤◌, length};
ghost use Rattle.cpm_asm_expression.specs.Numbers.{base_of, digit_of, number_of, number_to_base, without_dollars};

/// The base of a number that ends in this character.
fn base_of(suffix: u8) -> Option<u16>
    ensures base { result ≡ base_of suffix }
{
    match suffix.to_ascii_uppercase() {
        b'B' => Some(2),
        b'O' | b'Q' => Some(8),
        b'D' => Some(10),
        b'H' => Some(16),
        _ => None,
    }
}

/// The value of a digit.
fn digit_of(digit: u8) -> Option<u16>
    ensures { result ≡ digit_of digit }
{
    match digit.to_ascii_uppercase() {
        letter @ b'0'..=b'9' => Some(u16::from(letter - b'0')),
        letter @ b'A'..=b'F' => Some(u16::from(letter - b'A') + 10),
        _ => None,
    }
}

/// The number that digits write to a base, modulo 65,536.
fn number_to_base(base: u16, digits: &[u8]) -> Option<u16>
    ensures { result ≡ number_to_base base 0 digits.now }
{
    let mut number: u16 = 0;
    for digit in digits {
        if *digit != b'$' {
            let value = digit_of(*digit)?;
            if value >= base {
                return None;
            }
            number = number.wrapping_mul(base).wrapping_add(value);
        }
    }
    Some(number)
}

/// A text without the dollar signs at its end.
fn without_dollars(text: &[u8]) -> &[u8]
    ensures { result.now ≡ without_dollars text.now }
{
    let mut front = text;
    while let Some((last, before)) = front.split_last() {
        if *last != b'$' {
            return front;
        }
        front = before;
    }
    front
}

/// The number that a word writes which begins with a digit.
pub(crate) fn number_of(word: &[u8]) -> Option<u16>
    ensures { result ≡ number_of word.now }
{
    let digits = without_dollars(word);
    let (last, front) = digits.split_last()?;
    match base_of(*last) {
        Some(base) => number_to_base(base, front),
        None => number_to_base(10, digits),
    }
}
