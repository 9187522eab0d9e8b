//! What a statement takes, and what the first pass finds in it.
ghost use Rattle.std.specs.Prelude.{◌≡◌, ◌<◌, ◌≤◌, IfOk, IfSome, min, option_map};
ghost use Rattle.cpm_asm_expression.specs.Names.{in_table};
ghost use Rattle.cpm_asm.specs.Data.{list_size, operand_size};
ghost use Rattle.cpm_asm.specs.Statements.{seen_statement, seen_work};
ghost use Rattle.cpm_asm.specs.Measures.{equated, is_wrong, list_measure, measured, origin, sized, space_measure, tested};

use crate::encode::encoded;
use crate::lines::first_part;
use crate::statement::Work;
use crate::values::{expression_value, is_expression, text_in};
use cpm_asm_expression::{CheckedValue, Names};
use std::alloc::{AllocError, Global};

/// What a statement at an address takes.
#[derive(Clone, Copy)]
pub struct Measure {
    /// The value of its label.
    pub label: u16,
    /// The address after it.
    pub next: usize,
    pub is_unknown: bool,
    pub is_outside: bool,
    /// ORG goes back.
    pub is_below: bool,
    /// IF holds.
    pub holds: bool,
}

/// Sizes are counted up to here, which no address has room for.
const TOO_LARGE: usize = 65537;

/// How many bytes an operand of DB or DW takes.
fn operand_size(alloc: Global, is_words: bool, operand: &[u8]) -> Result<Option<usize>, AllocError>
    ensures size { IfOk result (λ size. size ≡ operand_size is_words operand.now) }
    ensures small { IfOk result (λ size. IfSome size (λ n. n ≤ 64)) }
{
    if is_words {
        return Ok(if is_expression(alloc, operand)? {
            Some(2)
        } else {
            None
        });
    }
    match text_in(operand) {
        Some(characters) => Ok(Some(characters.len())),
        None => Ok(if is_expression(alloc, operand)? {
            Some(1)
        } else {
            None
        }),
    }
}

/// How many bytes a list of operands takes, counted up to 65,537.
fn list_size(alloc: Global, is_words: bool, list: &[u8]) -> Result<Option<usize>, AllocError>
    ensures { IfOk result (λ size. size ≡ option_map (λ n. min n 65537) (list_size is_words list.now)) }
{
    let mut size: usize = 0;
    let mut rest = Some(list);
    while let Some(text) = rest {
        let (operand, behind) = first_part(text, b',');
        match operand_size(alloc, is_words, operand)? {
            Some(own) => size = (size + own).min(TOO_LARGE),
            None => return Ok(None),
        }
        rest = behind;
    }
    Ok(Some(size))
}

/// A statement of so many bytes.
fn sized(address: usize, size: usize) -> Measure
    requires { address ≤ 65536 }
    ensures measure { result ≡ sized address size }
    ensures within { result.next ≤ 65536 }
{
    let is_outside = size > 65536 - address;
    Measure {
        label: (address % 65536) as u16,
        next: if is_outside { 65536 } else { address + size },
        is_unknown: false,
        is_outside,
        is_below: false,
        holds: false,
    }
}

fn origin(address: usize, target: CheckedValue) -> Measure
    ensures measure { result ≡ origin address target }
    ensures within { result.next ≤ 65536 }
{
    let next = usize::from(target.number);
    Measure {
        label: (address % 65536) as u16,
        next,
        is_unknown: target.is_unknown,
        is_outside: target.is_outside,
        is_below: next < address,
        holds: false,
    }
}

fn equated(address: usize, own: CheckedValue) -> Measure
    ensures { result ≡ equated address own }
{
    Measure {
        label: own.number,
        next: address,
        is_unknown: own.is_unknown,
        is_outside: own.is_outside,
        is_below: false,
        holds: false,
    }
}

fn tested(address: usize, condition: CheckedValue) -> Measure
    ensures { result ≡ tested address condition }
{
    Measure {
        label: (address % 65536) as u16,
        next: address,
        is_unknown: condition.is_unknown,
        is_outside: condition.is_outside,
        is_below: false,
        holds: condition.number != 0,
    }
}

/// A space whose size isn't known takes nothing.
fn space_measure(address: usize, size: CheckedValue) -> Measure
    requires { address ≤ 65536 }
    ensures measure { result ≡ space_measure address size }
    ensures within { result.next ≤ 65536 }
{
    let bytes = if size.is_unknown {
        0
    } else {
        usize::from(size.number)
    };
    let measure = sized(address, bytes);
    Measure {
        is_unknown: size.is_unknown,
        is_outside: size.is_outside || measure.is_outside,
        ..measure
    }
}

/// What a list of operands takes.
fn list_measure(
    alloc: Global,
    is_words: bool,
    address: usize,
    list: &[u8],
) -> Result<Measure, AllocError>
    requires { address ≤ 65536 }
    ensures measure { IfOk result (λ measure. measure ≡ list_measure is_words address list.now) }
    ensures within { IfOk result (λ measure. measure.next ≤ 65536) }
{
    Ok(sized(address, list_size(alloc, is_words, list)?.unwrap_or(0)))
}

/// What a statement at an address takes.
#[tactic(auto, unfolding(crate::specs::Measures::measured))]
pub(crate) fn measured(
    alloc: Global,
    names: &Names,
    address: usize,
    work: &Work,
) -> Result<Measure, AllocError>
    requires { address ≤ 65536 }
    ensures measure { IfOk result (λ measure. measure ≡ measured (in_table names.now) address (seen_work work.now)) }
    ensures within { IfOk result (λ measure. measure.next ≤ 65536) }
{
    match *work {
        Work::Wrong | Work::Nothing | Work::End | Work::EndIf | Work::Nest | Work::Unnest => Ok(
            sized(address, 0),
        ),
        Work::Origin(target) => Ok(origin(
            address,
            expression_value(alloc, names, address, target)?,
        )),
        Work::Equate(own) => Ok(equated(address, expression_value(alloc, names, address, own)?)),
        Work::If(condition) => Ok(tested(
            address,
            expression_value(alloc, names, address, condition)?,
        )),
        Work::Space(size) => Ok(space_measure(
            address,
            expression_value(alloc, names, address, size)?,
        )),
        Work::Bytes(list) => list_measure(alloc, false, address, list),
        Work::Words(list) => list_measure(alloc, true, address, list),
        Work::Plain(op) => Ok(sized(address, encoded(op).len())),
        Work::Byte(_, _) => Ok(sized(address, 2)),
        Work::Word(_, _) => Ok(sized(address, 3)),
        Work::Restart(_) => Ok(sized(address, 1)),
    }
}

/// Whether a statement is none, or has an operand that is no expression.
#[tactic(auto, unfolding(crate::specs::Measures::is_wrong))]
pub(crate) fn is_wrong(alloc: Global, work: &Work) -> Result<bool, AllocError>
    ensures { IfOk result (λ wrong. wrong ≡ is_wrong (seen_work work.now)) }
{
    match *work {
        Work::Wrong => Ok(true),
        Work::Nothing | Work::End | Work::EndIf | Work::Nest | Work::Unnest | Work::Plain(_) => Ok(
            false,
        ),
        Work::Bytes(list) => Ok(list_size(alloc, false, list)?.is_none()),
        Work::Words(list) => Ok(list_size(alloc, true, list)?.is_none()),
        Work::Origin(text)
        | Work::Equate(text)
        | Work::If(text)
        | Work::Space(text)
        | Work::Byte(_, text)
        | Work::Word(_, text)
        | Work::Restart(text) => Ok(!is_expression(alloc, text)?),
    }
}
