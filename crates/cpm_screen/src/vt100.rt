//! What bytes mean to the VT100.

ghost use Rattle.std.specs.Prelude.{◌≡◌, ◌≤◌, slice_index};
ghost use Rattle.cpm_screen.specs.Receipts.{nothing_done, receipt_in};
ghost use Rattle.cpm_screen.specs.Vt100.{first_count, line_span_receipt, no_parameters, screen_span_receipt, span_numbered, tabs_cleared, vt100_character};
ghost use Rattle.cpm_screen.specs.Vt100.{vt100_controls, vt100_designation, vt100_escape, vt100_final, vt100_finals, vt100_parameter};
ghost use Rattle.cpm_screen.specs.Vt100.{vt100_private_finals, vt100_receipt, with_digit, with_next};

use crate::action::{Action, Parameters, Receipt, Sequence, Span, does, reads};
use crate::cell::CharacterSet;

impl Parameters {
    /// No parameter yet.
    fn none() -> Parameters
        ensures { result ≡ no_parameters }
    {
        Parameters {
            numbers: [0; 16],
            place: 0,
            is_private: false,
            is_unknown: false,
        }
    }

    /// With a digit more of the number.
    #[tactic(auto, unfolding(crate::specs::Vt100::with_digit))]
    fn with_digit(self, digit: u8) -> Parameters
        ensures { result ≡ with_digit self digit }
    {
        if self.place >= 16 {
            return self;
        }
        let mut numbers = self.numbers;
        let place = usize::from(self.place);
        numbers[place] = numbers[place].saturating_mul(10).saturating_add(digit);
        Parameters { numbers, ..self }
    }

    /// With the next number.
    #[tactic(auto, unfolding(crate::specs::Vt100::with_next))]
    fn with_next(self) -> Parameters
        ensures { result ≡ with_next self }
    {
        if self.place < 16 {
            Parameters {
                place: self.place + 1,
                ..self
            }
        } else {
            self
        }
    }

    /// The first parameter where it counts: 0 is 1.
    fn first_count(&self) -> u8
        ensures { result ≡ first_count self.now }
    {
        self.numbers[0].max(1)
    }
}

/// A control character.
fn control(byte: u8) -> Action
    ensures { result ≡ (receipt_in vt100_controls nothing_done byte).action }
{
    match byte {
        0x08 => Action::Left(1),
        0x09 => Action::Tab,
        0x0A..=0x0C => Action::LineFeed,
        0x0D => Action::LineStart,
        0x0E => Action::Shift(true),
        0x0F => Action::Shift(false),
        _ => Action::Nothing,
    }
}

/// A byte of a sequence that is none of the terminal.
#[tactic(auto, unfolding(crate::specs::Vt100::vt100_character))]
fn intermediate(byte: u8) -> Receipt
    ensures { result ≡ vt100_character Sequence.Intermediate byte }
{
    if byte < 0x30 {
        reads(Sequence::Intermediate)
    } else {
        does(Action::Nothing)
    }
}

/// The byte after ESC.
#[tactic(auto, unfolding(crate::specs::Vt100::vt100_escape, crate::specs::Vt100::vt100_character))]
fn escape(byte: u8) -> Receipt
    ensures { result ≡ vt100_escape byte }
{
    match byte {
        b'(' => reads(Sequence::Designation(false)),
        b')' => reads(Sequence::Designation(true)),
        b'7' => does(Action::SaveCursor),
        b'8' => does(Action::RestoreCursor),
        b'D' => does(Action::LineFeed),
        b'E' => does(Action::NextLine),
        b'H' => does(Action::SetTab),
        b'M' => does(Action::ReverseLineFeed),
        b'[' => reads(Sequence::Control(Parameters::none())),
        b'c' => does(Action::Reset),
        _ => intermediate(byte),
    }
}

/// What is erased by a number.
#[tactic(auto, unfolding(crate::specs::Vt100::span_numbered))]
fn span_numbered(number: u8) -> Option<Span>
    ensures { result ≡ span_numbered number }
{
    match number {
        0 => Some(Span::ToEnd),
        1 => Some(Span::FromStart),
        2 => Some(Span::Whole),
        _ => None,
    }
}

/// A part of the screen erased by its number.
fn screen_span_receipt(number: u8) -> Receipt
    ensures { result ≡ screen_span_receipt (span_numbered number) }
{
    match span_numbered(number) {
        Some(span) => does(Action::EraseScreen(span)),
        None => does(Action::Nothing),
    }
}

/// A part of the line erased by its number.
fn line_span_receipt(number: u8) -> Receipt
    ensures { result ≡ line_span_receipt (span_numbered number) }
{
    match span_numbered(number) {
        Some(span) => does(Action::EraseLine(span)),
        None => does(Action::Nothing),
    }
}

/// Tab stops cleared by a number.
#[tactic(auto, unfolding(crate::specs::Vt100::tabs_cleared))]
fn tabs_cleared(number: u8) -> Receipt
    ensures { result ≡ tabs_cleared number }
{
    match number {
        0 => does(Action::ClearTab),
        3 => does(Action::ClearTabs),
        _ => does(Action::Nothing),
    }
}

/// The final byte of a control sequence without a `?`.
fn plain_final(p: &Parameters, byte: u8) -> Receipt
    ensures { result ≡ receipt_in (vt100_finals p.now) nothing_done byte }
{
    let [first, second, ..] = p.numbers;
    match byte {
        b'A' => does(Action::Up(p.first_count())),
        b'B' => does(Action::Down(p.first_count())),
        b'C' => does(Action::Right(p.first_count())),
        b'D' => does(Action::Left(p.first_count())),
        b'H' | b'f' => does(Action::Place(first.saturating_sub(1), second.saturating_sub(1))),
        b'J' => screen_span_receipt(first),
        b'K' => line_span_receipt(first),
        b'L' => does(Action::InsertLines(p.first_count())),
        b'M' => does(Action::DeleteLines(p.first_count())),
        b'P' => does(Action::DeleteCharacters(p.first_count())),
        b'g' => tabs_cleared(first),
        b'h' => does(Action::Modes(*p, true)),
        b'l' => does(Action::Modes(*p, false)),
        b'm' => does(Action::Rendition(*p)),
        b'r' => does(Action::Region(first, second)),
        _ => does(Action::Nothing),
    }
}

/// The final byte of a control sequence with a `?`.
fn private_final(p: &Parameters, byte: u8) -> Receipt
    ensures { result ≡ receipt_in (vt100_private_finals p.now) nothing_done byte }
{
    match byte {
        b'h' => does(Action::Modes(*p, true)),
        b'l' => does(Action::Modes(*p, false)),
        _ => does(Action::Nothing),
    }
}

/// The final byte of a control sequence.
#[tactic(auto, unfolding(crate::specs::Vt100::vt100_final))]
fn final_byte(p: &Parameters, byte: u8) -> Receipt
    ensures { result ≡ vt100_final p.now byte }
{
    if p.is_unknown {
        does(Action::Nothing)
    } else if p.is_private {
        private_final(p, byte)
    } else {
        plain_final(p, byte)
    }
}

/// A byte of a control sequence.
#[tactic(auto, unfolding(crate::specs::Vt100::vt100_parameter))]
fn parameter(p: Parameters, byte: u8) -> Receipt
    ensures { result ≡ vt100_parameter p byte }
{
    match byte {
        b'0'..=b'9' => reads(Sequence::Control(p.with_digit(byte - b'0'))),
        b';' => reads(Sequence::Control(p.with_next())),
        b'?' => reads(Sequence::Control(Parameters {
            is_private: true,
            ..p
        })),
        0x00..=0x3F => reads(Sequence::Control(Parameters {
            is_unknown: true,
            ..p
        })),
        0x40..=0x7F => final_byte(&p, byte),
        _ => does(Action::Nothing),
    }
}

/// The byte of a character set.
#[tactic(auto, unfolding(crate::specs::Vt100::vt100_designation, crate::specs::Vt100::vt100_character))]
fn designation(is_g1: bool, byte: u8) -> Receipt
    ensures { result ≡ vt100_designation is_g1 byte }
{
    match byte {
        b'0' | b'2' => does(Action::Designate(is_g1, CharacterSet::Drawing)),
        b'A' | b'B' | b'1' => does(Action::Designate(is_g1, CharacterSet::Ascii)),
        _ => intermediate(byte),
    }
}

/// A byte that is no control character.
#[tactic(auto, unfolding(crate::specs::Vt100::vt100_character))]
fn character(sequence: Sequence, byte: u8) -> Receipt
    ensures { result ≡ vt100_character sequence byte }
{
    match sequence {
        Sequence::Text => does(Action::Character(byte)),
        Sequence::Escape => escape(byte),
        Sequence::Control(p) => parameter(p, byte),
        Sequence::Designation(is_g1) => designation(is_g1, byte),
        Sequence::Intermediate => intermediate(byte),
        _ => does(Action::Nothing),
    }
}

/// What a byte means to a VT100.
#[tactic(auto, unfolding(crate::specs::Vt100::vt100_receipt))]
pub(crate) fn vt100_receipt(sequence: Sequence, byte: u8) -> Receipt
    ensures { result ≡ vt100_receipt sequence byte }
{
    match byte {
        0x1B => reads(Sequence::Escape),
        0x18 | 0x1A => does(Action::Nothing),
        0x7F => Receipt {
            action: Action::Nothing,
            sequence,
        },
        0x00..=0x1F => Receipt {
            action: control(byte),
            sequence,
        },
        _ => character(sequence, byte),
    }
}
