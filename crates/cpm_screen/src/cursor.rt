//! The cursor, with all that a terminal saves with it.

ghost use Rattle.std.specs.Prelude.{◌≡◌};
ghost use Rattle.cpm_screen.specs.State.{cell_shown, current_set, drawn};

use crate::cell::{Attributes, CharacterSet, PLAIN, ScreenCell};

/// The cursor, with the attributes and the character sets of what comes.
#[derive(Clone, Copy)]
pub struct Cursor {
    /// Its row, counted from 0 at the top.
    pub row: usize,
    /// Its column, counted from 0 at the left.
    pub column: usize,
    /// Whether the next character begins the next line.
    pub is_past: bool,
    pub attributes: Attributes,
    /// Whether rows are counted from the top of the scrolling region.
    pub is_origin: bool,
    /// Whether characters are of G1.
    pub is_shifted: bool,
    pub g0: CharacterSet,
    pub g1: CharacterSet,
}

/// The cursor of a terminal that was just turned on.
pub const FRESH: Cursor = Cursor {
    row: 0,
    column: 0,
    is_past: false,
    attributes: PLAIN,
    is_origin: false,
    is_shifted: false,
    g0: CharacterSet::Ascii,
    g1: CharacterSet::Ascii,
};

/// What a byte stands for in a character set.
#[inline(always)]
#[tactic(auto, unfolding(crate::specs::State::drawn))]
fn drawn(set: CharacterSet, character: u8) -> CharacterSet
    ensures { result ≡ drawn set character }
{
    match set {
        CharacterSet::Ascii => CharacterSet::Ascii,
        CharacterSet::Drawing => match character {
            0x5F..=0x7E => CharacterSet::Drawing,
            _ => CharacterSet::Ascii,
        },
    }
}

impl Cursor {
    /// The cell of a character that is shown.
    #[inline(always)]
    pub(crate) fn cell(&self, character: u8) -> ScreenCell
        ensures { result ≡ cell_shown self.now character }
    {
        let set = if self.is_shifted { self.g1 } else { self.g0 };
        ScreenCell {
            character,
            set: drawn(set, character),
            attributes: self.attributes,
        }
    }
}
