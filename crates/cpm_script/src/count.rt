//! The count at the front of a line.
ghost use Rattle.std.specs.Prelude.{◌≡◌, ◌≤◌, ◌^◌, MatchOption, true};
ghost use Rattle.std.specs.Char.{is_ascii_digit};
ghost use Rattle.std.specs.List.{list_all};
ghost use Rattle.std.specs.Str.Parse.{digits_value};
ghost use Rattle.cpm_script.specs.KeyText.{count_of};

/// The number that these digits write, where 64 bits hold it.
fn value_of(digits: &[u8]) -> Option<u64>
    requires { list_all is_ascii_digit digits.now ≡ true }
    ensures { MatchOption result (2 ^ 64 ≤ digits_value 10 digits.now) (λ n. n ≡ digits_value 10 digits.now) }
{
    let mut value: u64 = 0;
    for digit in digits {
        value = value.checked_mul(10)?;
        value = value.checked_add(u64::from(*digit - b'0'))?;
    }
    Some(value)
}

fn are_digits(text: &[u8]) -> bool
    ensures { result ≡ list_all is_ascii_digit text.now }
{
    text.iter().all(|b| b.is_ascii_digit())
}

/// The count that a text of decimal digits writes, where 64 bits hold it.
pub fn count_of(text: &[u8]) -> Option<u64>
    ensures { result ≡ count_of text.now }
{
    if !text.is_empty() && are_digits(text) {
        value_of(text)
    } else {
        None
    }
}
