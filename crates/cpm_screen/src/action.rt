//! What a byte does to a screen, and the sequence that is being read.

ghost use Rattle.std.specs.Prelude.{◌≡◌};
ghost use Rattle.cpm_screen.specs.Receipts.{does, reads};

use crate::cell::{Attribute, Attributes, CharacterSet};

/// What part of a line or of a screen is erased.
#[derive(Clone, Copy)]
pub enum Span {
    /// From the cursor to the end.
    ToEnd,
    /// From the start to the cursor.
    FromStart,
    Whole,
}

/// The parameters of a control sequence, as they are being read.
#[derive(Clone, Copy)]
pub struct Parameters {
    /// The numbers, 0 where none was given; one above 255 counts as 255.
    pub numbers: [u8; 16],
    /// The place of the number that is being read; 16 where no more are kept.
    pub place: u8,
    /// Whether a `?` stands before them.
    pub is_private: bool,
    /// Whether a byte came by which the sequence is none of the terminal.
    pub is_unknown: bool,
}

/// The sequence that is being read.
#[derive(Clone, Copy)]
pub enum Sequence {
    /// None: characters are shown.
    Text,
    /// ESC was read.
    Escape,
    /// The row of a place comes next.
    Row,
    /// The column of a place comes next; the byte of its row.
    Column(u8),
    /// The page of a place comes next, and then its row.
    Page,
    /// The byte of a TeleVideo's attributes comes next.
    Looks,
    /// The number of a Kaypro's attribute comes next, which is turned on or off.
    Switch(bool),
    /// So many bytes more are consumed.
    Consumed(u8),
    /// Bytes are consumed up to this one.
    ConsumedTo(u8),
    /// The parameters of a control sequence.
    Control(Parameters),
    /// The character set of G0 or of G1 comes next.
    Designation(bool),
    /// A sequence that is none of the terminal, up to its final byte.
    Intermediate,
}

/// What a byte does.
#[derive(Clone, Copy)]
pub enum Action {
    Nothing,
    /// A character is shown.
    Character(u8),
    Up(u8),
    Down(u8),
    Left(u8),
    Right(u8),
    /// To the first column.
    LineStart,
    /// Down a line; at the bottom the lines move up.
    LineFeed,
    /// Up a line; at the top the lines move down.
    ReverseLineFeed,
    /// To the start of the next line.
    NextLine,
    /// To the upper left.
    Home,
    /// To a row and a column, counted from 0, or to the last ones.
    Place(u8, u8),
    /// To a row and a column by their bytes, each 20h more than its number.
    Address(u8, u8),
    /// To the next tab stop, or the last column.
    Tab,
    /// To the next column that is a multiple of 8; near the end of the line by one column.
    FixedTab,
    SetTab,
    ClearTab,
    ClearTabs,
    /// The screen is blank, and the cursor at the upper left.
    Clear,
    EraseScreen(Span),
    EraseLine(Span),
    InsertLines(u8),
    DeleteLines(u8),
    InsertCharacters(u8),
    DeleteCharacters(u8),
    /// The attributes of what comes.
    Look(Attributes),
    /// One of them on or off.
    Switch(Attribute, bool),
    /// The attributes by their numbers.
    Rendition(Parameters),
    /// Modes on or off.
    Modes(Parameters, bool),
    /// Whether a character moves those after it to the right.
    Insertion(bool),
    /// The rows of the scrolling region, counted from 1; 0 stands for the first or the last.
    Region(u8, u8),
    SaveCursor,
    RestoreCursor,
    /// A character set as G1 or as G0.
    Designate(bool, CharacterSet),
    /// Characters are of G1 or of G0.
    Shift(bool),
    /// As when it was turned on.
    Reset,
}

/// What a byte means: what it does, and which sequence is being read after it.
#[derive(Clone, Copy)]
pub struct Receipt {
    pub action: Action,
    pub sequence: Sequence,
}

/// A byte that ends what was being read.
#[inline]
pub(crate) fn does(action: Action) -> Receipt
    ensures { result ≡ does action }
{
    Receipt {
        action,
        sequence: Sequence::Text,
    }
}

/// A byte after which a sequence is being read.
#[inline]
pub(crate) fn reads(sequence: Sequence) -> Receipt
    ensures { result ≡ reads sequence }
{
    Receipt {
        action: Action::Nothing,
        sequence,
    }
}
