//! Where a pass stands.
ghost use Rattle.std.specs.Prelude.{◌≡◌, ◌≤◌, IfOk};
ghost use Rattle.cpm_asm_expression.specs.Names.{in_table};
ghost use Rattle.cpm_asm.specs.Statements.{seen_statement, seen_work};
ghost use Rattle.cpm_asm.specs.Places.{IsPlace, lowest_fault, first_open, in_if, is_defined, is_misplaced, is_nameless, position_after, placed_over, start};

use crate::error::AsmErrorKind;
use crate::measure::{Measure, is_wrong};
use crate::statement::{Statement, Work};
use cpm_asm_expression::{Name, Names};
use std::alloc::{AllocError, Global};

/// IFs are at most so deep.
const DEEPEST: u8 = 8;

/// The address of the next statement, and the IFs that are open.
#[derive(Clone, Copy)]
pub struct Position {
    pub address: usize,
    /// IFs that hold.
    pub held: u8,
    /// The first IF that doesn't hold, and those under it.
    pub skipped: u8,
    /// The line of the first IF that is open.
    pub outermost: u64,
}

/// Where a pass begins.
pub(crate) fn start() -> Position
    ensures place { result ≡ start }
    ensures within { IsPlace result }
{
    Position {
        address: 0x100,
        held: 0,
        skipped: 0,
        outermost: 0,
    }
}

/// The line of the first IF that is open behind an IF in this line.
pub(crate) fn first_open(place: Position, line: u64) -> u64
    requires { IsPlace place }
    ensures { result ≡ first_open place line }
{
    if place.held + place.skipped == 0 {
        line
    } else {
        place.outermost
    }
}

/// A place after an IF.
fn in_if(place: Position, line: u64, holds: bool) -> Position
    requires { IsPlace place }
    ensures place { result ≡ in_if place line holds }
    ensures within { IsPlace result }
{
    let depth = place.held + place.skipped;
    let outermost = first_open(place, line);
    if depth >= DEEPEST {
        place
    } else if holds {
        Position {
            held: place.held + 1,
            outermost,
            ..place
        }
    } else {
        Position {
            skipped: place.skipped + 1,
            outermost,
            ..place
        }
    }
}

/// The place after a statement.
pub(crate) fn position_after(place: Position, line: u64, work: &Work, measure: Measure) -> Position
    requires place { IsPlace place }
    requires measure { measure.next ≤ 65536 }
    ensures place { result ≡ position_after place line (seen_work work.now) measure }
    ensures within { IsPlace result }
{
    let behind = Position {
        address: measure.next,
        ..place
    };
    match *work {
        Work::If(_) => in_if(behind, line, measure.holds),
        Work::Nest => in_if(behind, line, false),
        Work::EndIf => Position {
            held: place.held.saturating_sub(1),
            ..behind
        },
        Work::Unnest => Position {
            skipped: place.skipped.saturating_sub(1),
            ..behind
        },
        _ => behind,
    }
}

/// A ninth IF, or an ENDIF with no IF.
fn is_misplaced(place: Position, work: &Work) -> bool
    requires { IsPlace place }
    ensures { result ≡ is_misplaced place (seen_work work.now) }
{
    match *work {
        Work::If(_) | Work::Nest => place.held + place.skipped >= DEEPEST,
        Work::EndIf => place.held == 0,
        _ => false,
    }
}

/// EQU without a name before it.
fn is_nameless(statement: &Statement) -> bool
    ensures { result ≡ is_nameless (seen_statement statement.now) }
{
    statement.label.is_none() && matches!(statement.work, Work::Equate(_))
}

/// A name that has a value stands before the statement.
fn is_defined(names: &Names, label: Option<Name>) -> bool
    ensures { result ≡ is_defined (in_table names.now) label }
{
    match label {
        Some(name) => names.contains_key(&name),
        None => false,
    }
}

/// A label after the last address.
fn placed_over(address: usize, statement: &Statement) -> bool
    ensures { result ≡ placed_over address (seen_statement statement.now) }
{
    address >= 65536 && statement.label.is_some() && !matches!(statement.work, Work::Equate(_))
}

/// What the first pass finds in a statement.
#[tactic(auto, unfolding(crate::specs::Places::lowest_fault))]
pub(crate) fn lowest_fault(
    alloc: Global,
    names: &Names,
    place: Position,
    statement: &Statement,
    measure: Measure,
) -> Result<Option<AsmErrorKind>, AllocError>
    requires { IsPlace place }
    ensures { IfOk result (λ fault. fault ≡ lowest_fault (in_table names.now) place (seen_statement statement.now) measure) }
{
    let found = if is_wrong(alloc, &statement.work)?
        || is_misplaced(place, &statement.work)
        || is_nameless(statement)
    {
        Some(AsmErrorKind::Syntax)
    } else if is_defined(names, statement.label) {
        Some(AsmErrorKind::DefinedTwice)
    } else if measure.is_outside || placed_over(place.address, statement) {
        Some(AsmErrorKind::OutOfRange)
    } else if measure.is_unknown {
        Some(AsmErrorKind::NotYetDefined)
    } else if measure.is_below {
        Some(AsmErrorKind::OriginBelow)
    } else {
        None
    };
    Ok(found)
}
