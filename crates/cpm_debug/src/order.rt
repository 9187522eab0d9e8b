//! What a line orders.
ghost use Rattle.std.specs.Prelude.{◌≡◌, ◌<◌, IfSome};
ghost use Rattle.cpm_script.specs.KeyText.{count_of};
ghost use Rattle.cpm_debug.specs.Dialog.{is_quit};
ghost use Rattle.cpm_debug.specs.Orders.{address_of, addressed_grant, request_of_order, byte_of_digits, hex_digit_of};
ghost use Rattle.cpm_debug.specs.Orders.{dump_of, grant_of, list_of, request_of, text_request, word_of_digits};

use cpm_script::count_of;

/// An order to the debugger.
#[derive(Clone, Copy)]
pub enum Order<'a> {
    /// Grant so many steps.
    Grant(u64),
    /// Grant so many steps, but stop before the program comes to an address.
    GrantUntil(u16, u64),
    /// Show sixteen bytes.
    Dump(u16),
    /// Show the instruction at an address.
    ListAt(u16),
    /// Show the registers.
    Registers,
    /// Press the keys that a text stands for.
    Press(&'a [u8]),
    /// Show what waits on the console.
    Output,
    /// End.
    Quit,
    /// No order.
    Unknown,
}

/// The value of a hexadecimal digit.
fn hex_digit_of(byte: u8) -> Option<u8>
    ensures value { result ≡ hex_digit_of byte }
    ensures small { IfSome result (λ d. d < 16) }
{
    match byte {
        b'0'..=b'9' => Some(byte - b'0'),
        b'A'..=b'F' => Some(byte - b'A' + 10),
        b'a'..=b'f' => Some(byte - b'a' + 10),
        _ => None,
    }
}

/// The byte that two hexadecimal digits write.
fn byte_of_digits(high: u8, low: u8) -> Option<u8>
    ensures { result ≡ byte_of_digits high low }
{
    let high = hex_digit_of(high)?;
    let low = hex_digit_of(low)?;
    Some(high * 16 + low)
}

/// The word that four hexadecimal digits write.
fn word_of_digits(digits: [u8; 4]) -> Option<u16>
    ensures { result ≡ address_of digits }
{
    let [a, b, c, d] = digits;
    let high = byte_of_digits(a, b)?;
    let low = byte_of_digits(c, d)?;
    Some(u16::from(high) * 256 + u16::from(low))
}

/// The address that a text of four hexadecimal digits writes.
fn address_of(text: &[u8]) -> Option<u16>
    ensures { result ≡ address_of text.now }
{
    match text {
        [a, b, c, d] => word_of_digits([*a, *b, *c, *d]),
        _ => None,
    }
}

impl<'a> Order<'a> {
    /// The order of a count.
    fn grant(text: &[u8]) -> Order<'a>
        ensures { request_of_order result ≡ grant_of (count_of text.now) }
    {
        match count_of(text) {
            Some(steps) => Order::Grant(steps),
            None => Order::Unknown,
        }
    }

    /// The order of an address whose bytes are shown.
    fn dump(text: &[u8]) -> Order<'a>
        ensures { request_of_order result ≡ dump_of (address_of text.now) }
    {
        match address_of(text) {
            Some(address) => Order::Dump(address),
            None => Order::Unknown,
        }
    }

    /// The order of an address whose instruction is shown.
    fn list_at(text: &[u8]) -> Order<'a>
        ensures { request_of_order result ≡ list_of (address_of text.now) }
    {
        match address_of(text) {
            Some(address) => Order::ListAt(address),
            None => Order::Unknown,
        }
    }

    /// The order of an address, a space and a count.
    fn grant_until(text: &'a [u8]) -> Order<'a>
        ensures { request_of_order result ≡ addressed_grant text.now }
    {
        match text {
            [a, b, c, d, b' ', count @ ..] => match (
                word_of_digits([*a, *b, *c, *d]),
                count_of(count),
            ) {
                (Some(pc), Some(steps)) => Order::GrantUntil(pc, steps),
                _ => Order::Unknown,
            },
            _ => Order::Unknown,
        }
    }

    /// The order of a letter and the text after its space.
    fn of_text(letter: u8, text: &'a [u8]) -> Order<'a>
        ensures { request_of_order result ≡ text_request letter text.now }
    {
        match letter {
            b'S' => Order::grant(text),
            b'G' => Order::grant_until(text),
            b'D' => Order::dump(text),
            b'L' => Order::list_at(text),
            b'K' => Order::Press(text),
            _ => Order::Unknown,
        }
    }

    /// The order that a line gives.
    pub fn read(line: &'a [u8]) -> Order<'a>
        ensures { request_of_order result ≡ request_of line.now }
    {
        match line {
            [b'R'] => Order::Registers,
            [b'O'] => Order::Output,
            [b'Q'] => Order::Quit,
            [letter, b' ', text @ ..] => Order::of_text(*letter, text),
            _ => Order::Unknown,
        }
    }
    /// Whether it ends the dialog.
    #[tactic(auto, unfolding(crate::specs::Dialog::is_quit))]
    pub(crate) fn is_quit(self) -> bool
        ensures { result ≡ is_quit (request_of_order self.entry) }
    {
        match self {
            Order::Quit => true,
            _ => false,
        }
    }
}
