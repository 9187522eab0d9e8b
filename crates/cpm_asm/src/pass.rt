//! The two passes.
ghost use Rattle.std.specs.Prelude.{◌≡◌, ◌+◌, ◌++◌, ◌<◌, ◌≤◌, ◌^◌, [], IfOk, OnOk, length};
ghost use Rattle.cpm_asm_expression.specs.Names.{no_names, in_table};
ghost use Rattle.cpm_asm.specs.Assembled.{AssemblesTo};
ghost use Rattle.cpm_asm.specs.Emitting.{emitted};
ghost use Rattle.cpm_asm.specs.Measures.{measured};
ghost use Rattle.cpm_asm.specs.Pieces.{bytes_left, statements_left, pieces};
ghost use Rattle.cpm_asm.specs.Places.{IsPlace, lowest_fault, start};
ghost use Rattle.cpm_asm.specs.Placing.{ArePlaces, Assembles, program_image, placement_of, placement, places, places_from};
ghost use Rattle.cpm_asm.specs.Statements.{seen_statement, seen_work};
ghost use Rattle.cpm_asm.specs.Passes.{Answers, Gives, at_end, both_passes, first_pass, is_end_statement, laid, second_pass, table_after};

use crate::emit::{Doubt, add_work, add_zeros, second_fault};
use crate::error::{AsmError, AsmErrorKind};
use crate::measure::{Measure, measured};
use crate::nesting::blamed;
use crate::pieces::{next_piece, pieces_of};
use crate::place::{Position, lowest_fault, position_after, start};
use crate::placed::{Assembly, Placement, add_place};
use crate::statement::{Statement, Work, statement_at};
use cpm_asm_expression::{Name, Names};
use std::alloc::{AllocError, Global};
use std::collections::BTreeMap;

/// Why a pass stops.
#[derive(Clone, Copy)]
pub enum PassStop {
    Refused(AsmError),
    /// At a line.
    OutOfMemory(u64),
}

/// Gives a statement's name its value.
fn define(names: &mut Names, label: Option<Name>, value: u16) -> Result<(), AllocError>
    ensures { OnOk result (in_table names.new ≡ table_after (in_table names.old) label value) }
{
    if let Some(name) = label {
        names.insert(name, value)?;
    }
    Ok(())
}

/// END ends the source.
fn is_end_statement(work: &Work) -> bool
    ensures { result ≡ is_end_statement (seen_work work.now) }
{
    matches!(*work, Work::End)
}

/// What a statement takes, and what the first pass finds in it.
fn examined(
    alloc: Global,
    names: &Names,
    place: Position,
    statement: &Statement,
) -> Result<(Measure, Option<AsmErrorKind>), AllocError>
    requires { IsPlace place }
    ensures measure { IfOk result (λ p. p.0 ≡ measured (in_table names.now) place.address (seen_work statement.now.work)) }
    ensures fault { IfOk result (λ p. p.1 ≡ lowest_fault (in_table names.now) place (seen_statement statement.now) p.0) }
    ensures within { IfOk result (λ p. p.0.next ≤ 65536) }
{
    let measure = measured(alloc, names, place.address, &statement.work)?;
    let fault = lowest_fault(alloc, names, place, statement, measure)?;
    Ok((measure, fault))
}

/// The names, where no IF is left open.
fn at_end(place: Position, names: Names) -> Result<Names, PassStop>
    requires { IsPlace place }
    ensures { Gives in_table result (at_end place (in_table names)) }
{
    if place.held + place.skipped == 0 {
        Ok(names)
    } else {
        Err(PassStop::Refused(AsmError {
            line: place.outermost,
            kind: AsmErrorKind::Syntax,
        }))
    }
}

/// The values of all names.
fn first_pass(alloc: Global, source: &[u8]) -> Result<Names, PassStop>
    ensures { Gives in_table result (first_pass no_names start (pieces source.now)) }
{
    let mut names = BTreeMap::new(alloc);
    let mut place = start();
    let mut pieces = pieces_of(source);
    while let Some((piece, behind)) = next_piece(&pieces) {
        let statement = statement_at(place.skipped > 0, piece.text);
        let Ok((measure, fault)) = examined(alloc, &names, place, &statement) else {
            return Err(PassStop::OutOfMemory(piece.line));
        };
        if let Some(kind) = fault {
            return Err(PassStop::Refused(blamed(place, piece.line, kind, &pieces)));
        }
        let Ok(()) = define(&mut names, statement.label, measure.label) else {
            return Err(PassStop::OutOfMemory(piece.line));
        };
        if is_end_statement(&statement.work) {
            return at_end(place, names);
        }
        place = position_after(place, piece.line, &statement.work, measure);
        pieces = behind;
    }
    at_end(place, names)
}

/// Adds bytes at an address, after zeros.
#[tactic(auto, unfolding(crate::specs::Passes::laid))]
fn lay(image: &mut Vec<u8>, address: usize, bytes: &[u8]) -> Result<(), AllocError>
    ensures { OnOk result (image.new.items ≡ laid image.old.items address bytes.now) }
{
    if bytes.is_empty() {
        return Ok(());
    }
    let gap = address.saturating_sub(0x100).saturating_sub(image.len());
    add_zeros(image, gap)?;
    image.extend_from_slice(bytes)?;
    Ok(())
}

/// Adds a statement's bytes at its address; how many there are, and what is wrong with them.
fn lay_work(
    image: &mut Vec<u8>,
    alloc: Global,
    names: &Names,
    here: usize,
    next: usize,
    work: &Work,
) -> Result<(usize, Doubt), AllocError>
    ensures bytes { OnOk result (image.new.items ≡ laid image.old.items here (emitted (in_table names.now) here next (seen_work work.now)).bytes) }
    ensures count { IfOk result (λ p. p.0 ≡ length (emitted (in_table names.now) here next (seen_work work.now)).bytes) }
    ensures doubt { IfOk result (λ p. p.1 ≡ (emitted (in_table names.now) here next (seen_work work.now)).doubt) }
{
    let mut bytes: Vec<u8> = Vec::new(alloc);
    let doubt = add_work(&mut bytes, alloc, names, here, next, work)?;
    lay(image, here, &bytes)?;
    Ok((bytes.len(), doubt))
}

/// Adds a statement at its place; what it takes, and what is wrong with its bytes.
fn lay_statement(
    assembly: &mut Assembly,
    alloc: Global,
    names: &Names,
    place: Position,
    line: u64,
    statement: &Statement,
) -> Result<(Measure, Doubt), AllocError>
    requires { IsPlace place }
    ensures measure { IfOk result (λ p. p.0 ≡ measured (in_table names.now) place.address (seen_work statement.now.work)) }
    ensures within { IfOk result (λ p. p.0.next ≤ 65536) }
    ensures bytes { IfOk result (λ p. assembly.new.image.items
        ≡ laid assembly.old.image.items place.address (emitted (in_table names.now) place.address p.0.next (seen_work statement.now.work)).bytes) }
    ensures placed { IfOk result (λ p. assembly.new.places.items ≡ assembly.old.places.items
        ++ placement_of (placement line place.address (emitted (in_table names.now) place.address p.0.next (seen_work statement.now.work)).bytes)
        (seen_statement statement.now)) }
    ensures doubt { IfOk result (λ p. p.1 ≡ (emitted (in_table names.now) place.address p.0.next (seen_work statement.now.work)).doubt) }
{
    let measure = measured(alloc, names, place.address, &statement.work)?;
    let (length, doubt) = lay_work(
        &mut assembly.image,
        alloc,
        names,
        place.address,
        measure.next,
        &statement.work,
    )?;
    let placed = Placement {
        line,
        address: place.address,
        length,
    };
    add_place(&mut assembly.places, placed, statement)?;
    Ok((measure, doubt))
}

/// The image and the places.
fn second_pass(alloc: Global, names: &Names, source: &[u8]) -> Result<Assembly, PassStop>
    ensures image { Gives program_image result (second_pass (in_table names.now) [] start (pieces source.now)) }
    ensures places { IfOk result (λ a. a.places.items ≡ places_from (in_table names.now) start (pieces source.now)) }
{
    let mut assembly = Assembly {
        image: Vec::new(alloc),
        places: Vec::new(alloc),
    };
    let mut place = start();
    let mut pieces = pieces_of(source);
    while let Some((piece, behind)) = next_piece(&pieces) {
        let statement = statement_at(place.skipped > 0, piece.text);
        let Ok((measure, doubt)) = lay_statement(
            &mut assembly,
            alloc,
            names,
            place,
            piece.line,
            &statement,
        ) else {
            return Err(PassStop::OutOfMemory(piece.line));
        };
        if let Some(kind) = second_fault(doubt) {
            return Err(PassStop::Refused(AsmError {
                line: piece.line,
                kind,
            }));
        }
        if is_end_statement(&statement.work) {
            return Ok(assembly);
        }
        place = position_after(place, piece.line, &statement.work, measure);
        pieces = behind;
    }
    Ok(assembly)
}

/// The image and the places, or why there are none.
#[tactic(auto, unfolding(crate::specs::Passes::both_passes, crate::specs::Placing::places))]
fn both_passes(alloc: Global, source: &[u8]) -> Result<Assembly, PassStop>
    ensures image { Gives program_image result (both_passes source.now) }
    ensures places { IfOk result (λ a. a.places.items ≡ places source.now) }
{
    match first_pass(alloc, source) {
        Ok(names) => second_pass(alloc, &names, source),
        Err(stop) => Err(stop),
    }
}

/// The image of a source in 8080 assembly language, as `assemble` gives it, and where its statements stand in it: those that
/// have bytes, DS, and labels, ORG and EQU, which have none.
///
/// It is refused as by `assemble`.
pub fn assemble_placed(alloc: Global, source: &[u8]) -> Result<Assembly, AsmError>
    ensures exact { Assembles result (both_passes source.now) }
    ensures assembled { IfOk result (λ a. AssemblesTo source.now a.image.items) }
    ensures places { IfOk result (λ a. ArePlaces source.now a.image.items a.places.items) }
{
    match both_passes(alloc, source) {
        Ok(assembly) => Ok(assembly),
        Err(PassStop::Refused(refusal)) => Err(refusal),
        Err(PassStop::OutOfMemory(line)) => Err(AsmError {
            line,
            kind: AsmErrorKind::OutOfMemory,
        }),
    }
}

/// The image of a source in 8080 assembly language, from 0100h to its last byte.
///
/// A refusal names the first statement with a fault of the first pass (syntax, names defined twice, addresses, and the
/// operands of ORG, EQU, IF and DS), else of the second (names that are defined nowhere, values out of range); of several
/// faults of a statement that of the lowest code. An IF that is left open is a fault of its line. `OutOfMemory` comes
/// only where memory is refused, whatever is wrong after that line.
pub fn assemble(alloc: Global, source: &[u8]) -> Result<Vec<u8>, AsmError>
    ensures exact { Answers result (both_passes source.now) }
    ensures assembled { IfOk result (λ image. AssemblesTo source.now image.items) }
{
    match assemble_placed(alloc, source) {
        Ok(assembly) => Ok(assembly.image),
        Err(error) => Err(error),
    }
}
