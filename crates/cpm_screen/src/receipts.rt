//! What bytes mean to the ADM-3A, the Kaypro, the TeleVideo and the VT52.

ghost use Rattle.std.specs.Prelude.{◌≡◌, true, false};
ghost use Rattle.cpm_screen.specs.Receipts.{adm3a_controls, adm3a_escapes, adm3a_receipt, kaypro_controls, kaypro_escapes, kaypro_attributes, kaypro_receipt};
ghost use Rattle.cpm_screen.specs.Receipts.{televideo_controls, televideo_escapes, televideo_look, televideo_receipt, vt52_controls, vt52_escapes};
ghost use Rattle.cpm_screen.specs.Receipts.{vt52_receipt};
ghost use Rattle.cpm_screen.specs.Receipts.{consumed_one, consumed_to, nothing_done, of_text, receipt_in};

use crate::action::{Action, Receipt, Sequence, Span, does, reads};
use crate::cell::{Attribute, Attributes};

/// A control character of the ADM-3A.
fn adm3a_control(byte: u8) -> Receipt
    ensures { result ≡ receipt_in adm3a_controls nothing_done byte }
{
    match byte {
        0x08 => does(Action::Left(1)),
        0x0A => does(Action::LineFeed),
        0x0B => does(Action::Up(1)),
        0x0C => does(Action::Right(1)),
        0x0D => does(Action::LineStart),
        0x1A => does(Action::Clear),
        0x1B => reads(Sequence::Escape),
        0x1E => does(Action::Home),
        _ => does(Action::Nothing),
    }
}

/// What a byte means to an ADM-3A.
#[tactic(auto, unfolding(crate::specs::Receipts::adm3a_receipt, crate::specs::Receipts::of_text))]
pub(crate) fn adm3a_receipt(sequence: Sequence, byte: u8) -> Receipt
    ensures { result ≡ adm3a_receipt sequence byte }
{
    match sequence {
        Sequence::Text => match byte {
            0x00..=0x1F => adm3a_control(byte),
            0x7F => does(Action::Nothing),
            _ => does(Action::Character(byte)),
        },
        Sequence::Escape => match byte {
            b'=' => reads(Sequence::Row),
            _ => does(Action::Nothing),
        },
        Sequence::Row => reads(Sequence::Column(byte)),
        Sequence::Column(row) => does(Action::Address(row, byte)),
        _ => does(Action::Nothing),
    }
}

/// A control character of the Kaypro.
fn kaypro_control(byte: u8) -> Receipt
    ensures { result ≡ receipt_in kaypro_controls nothing_done byte }
{
    match byte {
        0x08 => does(Action::Left(1)),
        0x0A => does(Action::LineFeed),
        0x0B => does(Action::Up(1)),
        0x0C => does(Action::Right(1)),
        0x0D => does(Action::LineStart),
        0x17 => does(Action::EraseScreen(Span::ToEnd)),
        0x18 => does(Action::EraseLine(Span::ToEnd)),
        0x1A => does(Action::Clear),
        0x1B => reads(Sequence::Escape),
        0x1E => does(Action::Home),
        _ => does(Action::Nothing),
    }
}

/// The byte after ESC on the Kaypro.
fn kaypro_escape(byte: u8) -> Receipt
    ensures { result ≡ receipt_in kaypro_escapes nothing_done byte }
{
    match byte {
        b' ' | b'*' => reads(Sequence::Consumed(2)),
        b'=' => reads(Sequence::Row),
        b'B' => reads(Sequence::Switch(true)),
        b'C' => reads(Sequence::Switch(false)),
        b'D' | b'L' => reads(Sequence::Consumed(4)),
        b'E' => does(Action::InsertLines(1)),
        b'R' => does(Action::DeleteLines(1)),
        _ => does(Action::Nothing),
    }
}

/// The digit of an attribute of the Kaypro.
fn kaypro_attribute(on: bool, byte: u8) -> Receipt
    ensures { result ≡ receipt_in (kaypro_attributes on) nothing_done byte }
{
    match byte {
        b'0' => does(Action::Switch(Attribute::Reverse, on)),
        b'1' => does(Action::Switch(Attribute::Bold, on)),
        b'2' => does(Action::Switch(Attribute::Blink, on)),
        b'3' => does(Action::Switch(Attribute::Underline, on)),
        b'6' if on => does(Action::SaveCursor),
        b'6' => does(Action::RestoreCursor),
        _ => does(Action::Nothing),
    }
}

/// Of so many bytes that are consumed one is gone.
#[tactic(auto, unfolding(crate::specs::Receipts::consumed_one))]
fn consumed_one(count: u8) -> Receipt
    ensures { result ≡ consumed_one count }
{
    if count <= 1 {
        does(Action::Nothing)
    } else {
        reads(Sequence::Consumed(count - 1))
    }
}

/// A byte that is consumed, up to the last one.
#[tactic(auto, unfolding(crate::specs::Receipts::consumed_to))]
fn consumed_to(last: u8, byte: u8) -> Receipt
    ensures { result ≡ consumed_to last byte }
{
    if byte == last {
        does(Action::Nothing)
    } else {
        reads(Sequence::ConsumedTo(last))
    }
}

/// What a byte means to a Kaypro.
#[tactic(auto, unfolding(crate::specs::Receipts::kaypro_receipt, crate::specs::Receipts::of_text))]
pub(crate) fn kaypro_receipt(sequence: Sequence, byte: u8) -> Receipt
    ensures { result ≡ kaypro_receipt sequence byte }
{
    match sequence {
        Sequence::Text => match byte {
            0x00..=0x1F => kaypro_control(byte),
            0x7F => does(Action::Nothing),
            _ => does(Action::Character(byte)),
        },
        Sequence::Escape => kaypro_escape(byte),
        Sequence::Row => reads(Sequence::Column(byte)),
        Sequence::Column(row) => does(Action::Address(row, byte)),
        Sequence::Switch(on) => kaypro_attribute(on, byte),
        Sequence::Consumed(count) => consumed_one(count),
        _ => does(Action::Nothing),
    }
}

/// A control character of the TeleVideo.
fn televideo_control(byte: u8) -> Receipt
    ensures { result ≡ receipt_in televideo_controls nothing_done byte }
{
    match byte {
        0x08 => does(Action::Left(1)),
        0x09 => does(Action::Tab),
        0x0A => does(Action::LineFeed),
        0x0B => does(Action::Up(1)),
        0x0C => does(Action::Right(1)),
        0x0D => does(Action::LineStart),
        0x16 => does(Action::Down(1)),
        0x1A => does(Action::Clear),
        0x1B => reads(Sequence::Escape),
        0x1E => does(Action::Home),
        0x1F => does(Action::NextLine),
        _ => does(Action::Nothing),
    }
}

/// The byte after ESC on the TeleVideo.
fn televideo_escape(byte: u8) -> Receipt
    ensures { result ≡ receipt_in televideo_escapes nothing_done byte }
{
    match byte {
        b'(' => does(Action::Switch(Attribute::Bold, false)),
        b')' => does(Action::Switch(Attribute::Bold, true)),
        b'*' | b'+' | b',' | b':' | b';' => does(Action::Clear),
        b'-' => reads(Sequence::Page),
        b'.' | b'D' => reads(Sequence::Consumed(1)),
        b'0' => reads(Sequence::Consumed(2)),
        b'1' => does(Action::SetTab),
        b'2' => does(Action::ClearTab),
        b'3' => does(Action::ClearTabs),
        b'=' => reads(Sequence::Row),
        b'E' => does(Action::InsertLines(1)),
        b'G' => reads(Sequence::Looks),
        b'Q' => does(Action::InsertCharacters(1)),
        b'R' => does(Action::DeleteLines(1)),
        b'T' | b't' => does(Action::EraseLine(Span::ToEnd)),
        b'W' => does(Action::DeleteCharacters(1)),
        b'Y' | b'y' => does(Action::EraseScreen(Span::ToEnd)),
        b'f' => reads(Sequence::ConsumedTo(0x0D)),
        b'j' => does(Action::ReverseLineFeed),
        b'q' => does(Action::Insertion(true)),
        b'r' => does(Action::Insertion(false)),
        b'x' => reads(Sequence::Consumed(3)),
        b'|' => reads(Sequence::ConsumedTo(0x19)),
        _ => does(Action::Nothing),
    }
}

/// The attributes of a TeleVideo by their byte.
#[tactic(auto, unfolding(crate::specs::Receipts::televideo_look))]
fn televideo_look(byte: u8) -> Attributes
    ensures { result ≡ televideo_look byte }
{
    Attributes {
        bold: false,
        underline: byte & 8 != 0,
        blink: byte & 2 != 0,
        reverse: byte & 4 != 0,
    }
}

/// What a byte means to a TeleVideo.
#[tactic(auto, unfolding(crate::specs::Receipts::televideo_receipt, crate::specs::Receipts::of_text))]
pub(crate) fn televideo_receipt(sequence: Sequence, byte: u8) -> Receipt
    ensures { result ≡ televideo_receipt sequence byte }
{
    match sequence {
        Sequence::Text => match byte {
            0x00..=0x1F => televideo_control(byte),
            0x7F => does(Action::Nothing),
            _ => does(Action::Character(byte)),
        },
        Sequence::Escape => televideo_escape(byte),
        Sequence::Row => reads(Sequence::Column(byte)),
        Sequence::Column(row) => does(Action::Address(row, byte)),
        Sequence::Page => reads(Sequence::Row),
        Sequence::Looks => does(Action::Look(televideo_look(byte))),
        Sequence::Consumed(count) => consumed_one(count),
        Sequence::ConsumedTo(last) => consumed_to(last, byte),
        _ => does(Action::Nothing),
    }
}

/// A control character of the VT52.
fn vt52_control(byte: u8) -> Receipt
    ensures { result ≡ receipt_in vt52_controls nothing_done byte }
{
    match byte {
        0x08 => does(Action::Left(1)),
        0x09 => does(Action::FixedTab),
        0x0A => does(Action::LineFeed),
        0x0D => does(Action::LineStart),
        0x1B => reads(Sequence::Escape),
        _ => does(Action::Nothing),
    }
}

/// The byte after ESC on the VT52.
fn vt52_escape(byte: u8) -> Receipt
    ensures { result ≡ receipt_in vt52_escapes nothing_done byte }
{
    match byte {
        0x1B => reads(Sequence::Escape),
        b'A' => does(Action::Up(1)),
        b'B' => does(Action::Down(1)),
        b'C' => does(Action::Right(1)),
        b'D' => does(Action::Left(1)),
        b'H' => does(Action::Home),
        b'I' => does(Action::ReverseLineFeed),
        b'J' => does(Action::EraseScreen(Span::ToEnd)),
        b'K' => does(Action::EraseLine(Span::ToEnd)),
        b'Y' => reads(Sequence::Row),
        _ => does(Action::Nothing),
    }
}

/// What a byte means to a VT52.
#[tactic(auto, unfolding(crate::specs::Receipts::vt52_receipt, crate::specs::Receipts::of_text))]
pub(crate) fn vt52_receipt(sequence: Sequence, byte: u8) -> Receipt
    ensures { result ≡ vt52_receipt sequence byte }
{
    match sequence {
        Sequence::Text => match byte {
            0x00..=0x1F => vt52_control(byte),
            0x7F => does(Action::Nothing),
            _ => does(Action::Character(byte)),
        },
        Sequence::Escape => vt52_escape(byte),
        Sequence::Row => reads(Sequence::Column(byte)),
        Sequence::Column(row) => does(Action::Address(row, byte)),
        _ => does(Action::Nothing),
    }
}
