//! Numbers as hexadecimal digits, in capitals.
ghost use Rattle.std.specs.Prelude.{◌≡◌, ◌<◌, Some};
ghost use Rattle.cpm_run.specs.Ending.{digit_text, four_digits_text, two_digits_text};

use std::fmt;

/// The digit of a number below 16.
fn digit(number: u16) -> &'static str
    requires { number < 16 }
    ensures { result.now ≡ digit_text number }
{
    match number {
        0 => "0",
        1 => "1",
        2 => "2",
        3 => "3",
        4 => "4",
        5 => "5",
        6 => "6",
        7 => "7",
        8 => "8",
        9 => "9",
        10 => "A",
        11 => "B",
        12 => "C",
        13 => "D",
        14 => "E",
        _ => "F",
    }
}

/// A byte. Its text is two digits.
#[derive(Clone, Copy, Drop)]
pub(crate) struct TwoDigits(pub(crate) u8);

/// A word. Its text is four digits.
#[derive(Clone, Copy, Drop)]
pub(crate) struct FourDigits(pub(crate) u16);

impl fmt::Display for TwoDigits {
    ghost output = { λ n. Some (two_digits_text n.0) };

    fn fmt<W: fmt::Write>(&self, f: &mut fmt::Formatter<W>) -> fmt::Result {
        let number = u16::from(self.0);
        let (high, low) = (digit(number / 16), digit(number % 16));
        write!(f, "{high}{low}")
    }
}

impl fmt::Display for FourDigits {
    ghost output = { λ n. Some (four_digits_text n.0) };

    fn fmt<W: fmt::Write>(&self, f: &mut fmt::Formatter<W>) -> fmt::Result {
        let number = self.0;
        let (first, second) = (digit(number / 4096), digit(number / 256 % 16));
        let (third, fourth) = (digit(number / 16 % 16), digit(number % 16));
        write!(f, "{first}{second}{third}{fourth}")
    }
}
