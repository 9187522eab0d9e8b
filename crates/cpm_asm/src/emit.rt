//! The bytes of a statement.
ghost use Rattle.std.specs.Prelude.{◌≡◌, ◌++◌, ◌∷◌, [], IfOk, OnOk, replicate};
ghost use Rattle.cpm_asm_expression.specs.Names.{in_table};
ghost use Rattle.cpm_asm.specs.Data.{byte_doubt, either, list_bytes, operand_bytes};
ghost use Rattle.cpm_asm.specs.Encoding.{encoded};
ghost use Rattle.cpm_asm.specs.Statements.{seen_work};
ghost use Rattle.cpm_asm.specs.Emitting.{emitted, restart_doubt, second_fault};

use crate::encode::{encoded, op_with_byte, op_with_word};
use crate::error::AsmErrorKind;
use crate::lines::first_part;
use crate::statement::Work;
use crate::values::{expression_value, text_in};
use cpm_asm_expression::{CheckedValue, Names};
use cpm_decode::Op;
use std::alloc::{AllocError, Global};

/// What may be wrong with bytes.
#[derive(Clone, Copy)]
pub struct Doubt {
    pub is_unknown: bool,
    pub is_outside: bool,
}

fn either(one: Doubt, other: Doubt) -> Doubt
    ensures { result ≡ either one other }
{
    Doubt {
        is_unknown: one.is_unknown || other.is_unknown,
        is_outside: one.is_outside || other.is_outside,
    }
}

/// A byte is 0 to 255, or FF80h to FFFFh.
fn byte_doubt(found: CheckedValue) -> Doubt
    ensures { result ≡ byte_doubt found }
{
    let is_byte = found.number < 0x100 || found.number >= 0xFF80;
    Doubt {
        is_unknown: found.is_unknown,
        is_outside: found.is_outside || !is_byte,
    }
}

/// A restart has a number from 0 to 7.
fn restart_doubt(found: CheckedValue) -> Doubt
    ensures { result ≡ restart_doubt found }
{
    Doubt {
        is_unknown: found.is_unknown,
        is_outside: found.is_outside || found.number > 7,
    }
}

fn add_bytes(image: &mut Vec<u8>, bytes: &[u8]) -> Result<(), AllocError>
    ensures { OnOk result (image.new.items ≡ image.old.items ++ bytes.now) }
{
    image.extend_from_slice(bytes)?;
    Ok(())
}

/// Adds zeros.
pub(crate) fn add_zeros(image: &mut Vec<u8>, count: usize) -> Result<(), AllocError>
    ensures { OnOk result (image.new.items ≡ image.old.items ++ replicate count 0) }
{
    for _index in 0..count {
        image.push(0)?;
    }
    Ok(())
}

/// Adds the bytes of an operand of DB or DW.
fn add_operand(
    image: &mut Vec<u8>,
    alloc: Global,
    names: &Names,
    here: usize,
    is_words: bool,
    operand: &[u8],
) -> Result<Doubt, AllocError>
    ensures bytes { OnOk result (image.new.items ≡ image.old.items ++ (operand_bytes is_words (in_table names.now) here operand.now).bytes) }
    ensures doubt { IfOk result (λ doubt. doubt ≡ (operand_bytes is_words (in_table names.now) here operand.now).doubt) }
{
    if is_words {
        let found = expression_value(alloc, names, here, operand)?;
        add_bytes(
            image,
            &[(found.number % 256) as u8, (found.number / 256) as u8],
        )?;
        return Ok(Doubt {
            is_unknown: found.is_unknown,
            is_outside: found.is_outside,
        });
    }
    match text_in(operand) {
        Some(characters) => {
            add_bytes(image, &characters)?;
            Ok(Doubt {
                is_unknown: false,
                is_outside: false,
            })
        }
        None => {
            let found = expression_value(alloc, names, here, operand)?;
            add_bytes(image, &[(found.number % 256) as u8])?;
            Ok(byte_doubt(found))
        }
    }
}

/// Adds the bytes of a list of operands.
#[tactic(auto, unfolding(crate::specs::Data::list_bytes))]
fn add_list(
    image: &mut Vec<u8>,
    alloc: Global,
    names: &Names,
    here: usize,
    is_words: bool,
    list: &[u8],
) -> Result<Doubt, AllocError>
    ensures bytes { OnOk result (image.new.items ≡ image.old.items ++ (list_bytes is_words (in_table names.now) here list.now).bytes) }
    ensures doubt { IfOk result (λ doubt. doubt ≡ (list_bytes is_words (in_table names.now) here list.now).doubt) }
{
    let mut doubt = Doubt {
        is_unknown: false,
        is_outside: false,
    };
    let mut rest = Some(list);
    while let Some(text) = rest {
        let (operand, behind) = first_part(text, b',');
        doubt = either(
            doubt,
            add_operand(image, alloc, names, here, is_words, operand)?,
        );
        rest = behind;
    }
    Ok(doubt)
}

/// Adds the bytes of an instruction.
fn add_op(image: &mut Vec<u8>, op: Op) -> Result<(), AllocError>
    ensures { OnOk result (image.new.items ≡ image.old.items ++ encoded op) }
{
    add_bytes(image, &encoded(op))
}

/// Adds the bytes of a statement.
#[tactic(auto, unfolding(crate::specs::Emitting::emitted))]
pub(crate) fn add_work(
    image: &mut Vec<u8>,
    alloc: Global,
    names: &Names,
    here: usize,
    next: usize,
    work: &Work,
) -> Result<Doubt, AllocError>
    ensures bytes { OnOk result (image.new.items ≡ image.old.items ++ (emitted (in_table names.now) here next (seen_work work.now)).bytes) }
    ensures doubt { IfOk result (λ doubt. doubt ≡ (emitted (in_table names.now) here next (seen_work work.now)).doubt) }
{
    let sure = Doubt {
        is_unknown: false,
        is_outside: false,
    };
    match *work {
        Work::Wrong
        | Work::Nothing
        | Work::End
        | Work::Origin(_)
        | Work::Equate(_)
        | Work::If(_)
        | Work::EndIf
        | Work::Nest
        | Work::Unnest => Ok(sure),
        Work::Bytes(list) => add_list(image, alloc, names, here, false, list),
        Work::Words(list) => add_list(image, alloc, names, here, true, list),
        Work::Space(_) => {
            add_zeros(image, next.saturating_sub(here))?;
            Ok(sure)
        }
        Work::Plain(op) => {
            add_op(image, op)?;
            Ok(sure)
        }
        Work::Byte(form, operand) => {
            let found = expression_value(alloc, names, here, operand)?;
            add_op(image, op_with_byte(form, (found.number % 256) as u8))?;
            Ok(byte_doubt(found))
        }
        Work::Word(form, operand) => {
            let found = expression_value(alloc, names, here, operand)?;
            add_op(image, op_with_word(form, found.number))?;
            Ok(Doubt {
                is_unknown: found.is_unknown,
                is_outside: found.is_outside,
            })
        }
        Work::Restart(operand) => {
            let found = expression_value(alloc, names, here, operand)?;
            add_op(image, Op::Restart(8 * (found.number % 8)))?;
            Ok(restart_doubt(found))
        }
    }
}

/// What the second pass finds.
pub(crate) fn second_fault(doubt: Doubt) -> Option<AsmErrorKind>
    ensures { result ≡ second_fault doubt }
{
    if doubt.is_unknown {
        Some(AsmErrorKind::Undefined)
    } else if doubt.is_outside {
        Some(AsmErrorKind::OutOfRange)
    } else {
        None
    }
}
