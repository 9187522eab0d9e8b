//! Numbers of a command line.

ghost use Rattle.std.specs.Prelude.{◌≡◌, ◌≤◌, MatchOption, true};
ghost use Rattle.std.specs.Char.{is_ascii_digit};
ghost use Rattle.std.specs.List.{list_all};
ghost use Rattle.std.specs.Str.Parse.{digits_value};
ghost use Rattle.cpm_ccp.specs.Words.{number_up_to};

/// The number that a word of digits writes, where it is not above a greatest one.
#[tactic(auto, unfolding(crate::specs::Words::number_up_to))]
pub(crate) fn number_up_to(most: u8, word: &[u8]) -> Option<u8>
    ensures { result ≡ number_up_to most word.now }
{
    if word.is_empty() || !are_digits(word) {
        return None;
    }
    match value_of(word) {
        Some(value) if value <= most => Some(value),
        _ => None,
    }
}

fn are_digits(word: &[u8]) -> bool
    ensures { result ≡ list_all is_ascii_digit word.now }
{
    word.iter().all(|c| c.is_ascii_digit())
}

/// The number that these digits write, where a byte holds it.
fn value_of(digits: &[u8]) -> Option<u8>
    requires { list_all is_ascii_digit digits.now ≡ true }
    ensures { MatchOption result (256 ≤ digits_value 10 digits.now) (λ n. n ≡ digits_value 10 digits.now) }
{
    let mut value: u8 = 0;
    for digit in digits {
        value = value.checked_mul(10)?;
        value = value.checked_add(*digit - b'0')?;
    }
    Some(value)
}
