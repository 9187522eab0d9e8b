//! What a person sees of a screen's cells.

ghost use Rattle.std.specs.Prelude.{◌≡◌, ◌<◌, ◌≤◌, ◌-◌, drop, length, map, replicate, IsTrue, ◌↔◌};
ghost use Rattle.cpm_screen.specs.Painting.{drawn_stand_in, seen, stand_in_of};

use crate::cell::{BLANK, CharacterSet, ScreenCell};

/// What stands for a drawn character.
#[tactic(auto, unfolding(crate::specs::Painting::drawn_stand_in))]
fn drawn_stand_in(character: u8) -> u8
    ensures { result ≡ drawn_stand_in character }
{
    match character {
        0x5F => b' ',
        0x61 => b'#',
        0x78 => b'|',
        0x7E => b'.',
        0x6F..=0x73 => b'-',
        0x6A..=0x77 => b'+',
        _ => b'*',
    }
}

/// What stands for a character.
fn stand_in(set: CharacterSet, character: u8) -> u8
    ensures { result ≡ stand_in_of set character }
{
    match set {
        CharacterSet::Drawing => drawn_stand_in(character),
        CharacterSet::Ascii => match character {
            0x20..=0x7E => character,
            _ => b'?',
        },
    }
}

/// What a person sees of a cell: a character of 20h to 7Eh.
#[tactic(auto, unfolding(crate::specs::Painting::seen))]
pub(crate) fn seen(cell: ScreenCell) -> ScreenCell
    ensures { result ≡ seen cell }
{
    ScreenCell {
        character: stand_in(cell.set, cell.character),
        set: CharacterSet::Ascii,
        attributes: cell.attributes,
    }
}

/// Whether two cells are seen as one.
pub(crate) fn looks_same(one: ScreenCell, other: ScreenCell) -> bool
    ensures { IsTrue result ↔ (seen one ≡ seen other) }
{
    seen(one) == seen(other)
}

/// Whether nothing is seen of a cell.
fn looks_blank(cell: ScreenCell) -> bool
    ensures { IsTrue result ↔ (seen cell ≡ BLANK) }
{
    seen(cell) == BLANK
}

/// The column from which on nothing is seen.
#[tactic(auto, using(crate::proofs::SeenLemmas::seen_tails))]
pub(crate) fn text_end(cells: &[ScreenCell]) -> usize
    ensures within { result ≤ length cells.now }
    ensures blank { drop result (map seen cells.now) ≡ replicate (length cells.now - result) BLANK }
{
    let mut end = cells.len();
    while end > 0 {
        if !looks_blank(cells[end - 1]) {
            return end;
        }
        end -= 1;
    }
    end
}
