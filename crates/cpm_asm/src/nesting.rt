//! IFs that are left open.
ghost use Rattle.std.specs.Prelude.{◌≡◌, ◌+◌, ◌<◌, ◌^◌, length};
ghost use Rattle.cpm_asm.specs.Pieces.{bytes_left, statements_left};
ghost use Rattle.cpm_asm.specs.Places.{IsPlace, blamed, closes, opens_first, shallower, seen_turn, nesting_change_of};

use crate::error::{AsmError, AsmErrorKind};
use crate::head::statement_front;
use crate::pieces::{Pieces, next_piece};
use crate::place::{Position, first_open};
use cpm_asm_expression::Operation;

/// What a statement does to the IFs that are open.
#[derive(Clone, Copy)]
pub enum NestingChange {
    Opens,
    Closes,
    Ends,
    Stays,
}

/// How many IFs are held: those that are read, and those that are only counted.
#[derive(Clone, Copy)]
pub struct Depth {
    pub held: u8,
    pub skipped: u128,
}

#[tactic(auto, unfolding(crate::specs::Places::nesting_change_of))]
fn nesting_change_of(text: &[u8]) -> NestingChange
    ensures { seen_turn result ≡ nesting_change_of text.now }
{
    match statement_front(text) {
        Some(head) => match head.operation {
            Some(Operation::If) => NestingChange::Opens,
            Some(Operation::EndIf) => NestingChange::Closes,
            Some(Operation::End) => NestingChange::Ends,
            _ => NestingChange::Stays,
        },
        None => NestingChange::Stays,
    }
}

fn shallower(depth: Depth) -> Depth
    ensures { result ≡ shallower depth }
{
    if depth.skipped == 0 {
        Depth {
            held: depth.held.saturating_sub(1),
            skipped: 0,
        }
    } else {
        Depth {
            held: depth.held,
            skipped: depth.skipped - 1,
        }
    }
}

/// Whether the IFs that are open are closed by the statements that are left.
fn closes(from: Depth, start: &Pieces) -> bool
    requires lines { start.now.line + length start.now.rest.now < 2 ^ 64 }
    requires small { from.skipped + bytes_left start.now < 2 ^ 100 }
    ensures { result ≡ closes from (statements_left start.now) }
{
    let mut depth = from;
    let mut pieces = *start;
    while let Some((piece, behind)) = next_piece(&pieces) {
        match nesting_change_of(piece.text) {
            NestingChange::Stays => {}
            NestingChange::Opens => depth = Depth {
                held: depth.held,
                skipped: depth.skipped + 1,
            },
            NestingChange::Ends => {
                if depth.skipped == 0 {
                    return false;
                }
            }
            NestingChange::Closes => {
                depth = shallower(depth);
                if depth.held == 0 && depth.skipped == 0 {
                    return true;
                }
            }
        }
        pieces = behind;
    }
    false
}

/// Whether the first of the statements that are left opens an IF.
fn opens_first(pieces: &Pieces) -> bool
    requires { pieces.now.line + length pieces.now.rest.now < 2 ^ 64 }
    ensures { result ≡ opens_first (statements_left pieces.now) }
{
    match next_piece(pieces) {
        Some((piece, _)) => match nesting_change_of(piece.text) {
            NestingChange::Opens => true,
            _ => false,
        },
        None => false,
    }
}

/// A fault of the first of the statements that are left. But where an IF before it or its own is left open, that of the first such IF.
#[tactic(auto, unfolding(crate::specs::Places::blamed))]
pub(crate) fn blamed(place: Position, line: u64, kind: AsmErrorKind, pieces: &Pieces) -> AsmError
    requires place { IsPlace place }
    requires lines { pieces.now.line + length pieces.now.rest.now < 2 ^ 64 }
    requires small { bytes_left pieces.now < 2 ^ 99 }
    ensures { result ≡ blamed place line kind (statements_left pieces.now) }
{
    let depth = Depth {
        held: place.held,
        skipped: u128::from(place.skipped),
    };
    if (place.held + place.skipped == 0 && !opens_first(pieces)) || closes(depth, pieces) {
        AsmError { line, kind }
    } else {
        AsmError {
            line: first_open(place, line),
            kind: AsmErrorKind::Syntax,
        }
    }
}
