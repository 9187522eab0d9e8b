//! What a statement does.
ghost use Rattle.std.specs.Prelude.{◌≡◌, option_map};
ghost use Rattle.cpm_asm.specs.Heads.{seen_head};
ghost use Rattle.cpm_asm.specs.Statements.{deed_of, move_deed, read_head, seen_statement, seen_work, skipped_deed};
ghost use Rattle.cpm_asm.specs.Statements.{skipped_head, statement_at, with_expression, with_register, with_two};

use crate::head::{Head, statement_front};
use crate::operands::{
    byte_operand_in, direct_pair_in, one_operand, pair_in, stack_pair_in, two_operands,
};
use crate::word::is_blank_text;
use cpm_asm_expression::{ByteForm, Name, Operation, WordForm};
use cpm_decode::{Op, Operand};

/// What a statement does. Texts are expressions, or lists of operands.
#[derive(Clone, Copy)]
pub enum Work<'a> {
    /// The text is no statement.
    Wrong,
    Nothing,
    End,
    Origin(&'a [u8]),
    Equate(&'a [u8]),
    If(&'a [u8]),
    EndIf,
    /// An IF under one that doesn't hold.
    Nest,
    /// An ENDIF that ends such an IF, or the one that doesn't hold.
    Unnest,
    Space(&'a [u8]),
    Bytes(&'a [u8]),
    Words(&'a [u8]),
    Plain(Op),
    Byte(ByteForm, &'a [u8]),
    Word(WordForm, &'a [u8]),
    Restart(&'a [u8]),
}

/// A statement.
#[derive(Clone, Copy)]
pub struct Statement<'a> {
    pub label: Option<Name>,
    pub work: Work<'a>,
}

/// An operation with one expression as its operand.
fn with_expression(operation: Operation, operand: &[u8]) -> Work<'_>
    ensures { seen_work result ≡ with_expression operation operand.now }
{
    match operation {
        Operation::Origin => Work::Origin(operand),
        Operation::Equate => Work::Equate(operand),
        Operation::If => Work::If(operand),
        Operation::Space => Work::Space(operand),
        Operation::Byte(form) => Work::Byte(form, operand),
        Operation::Word(form) => Work::Word(form, operand),
        Operation::Restart => Work::Restart(operand),
        _ => Work::Wrong,
    }
}

/// The instruction of an operation with one register as its operand.
fn with_register(operation: Operation, operand: &[u8]) -> Option<Op>
    ensures { result ≡ with_register operation operand.now }
{
    match operation {
        Operation::Increment => Some(Op::Increment(byte_operand_in(operand)?)),
        Operation::Decrement => Some(Op::Decrement(byte_operand_in(operand)?)),
        Operation::Arithmetic(arithmetic) => Some(Op::Arithmetic(
            arithmetic,
            byte_operand_in(operand)?,
        )),
        Operation::IncrementPair => Some(Op::IncrementPair(pair_in(operand)?)),
        Operation::DecrementPair => Some(Op::DecrementPair(pair_in(operand)?)),
        Operation::AddPair => Some(Op::AddPair(pair_in(operand)?)),
        Operation::StoreAAtPair => Some(Op::StoreAAtPair(direct_pair_in(operand)?)),
        Operation::LoadAAtPair => Some(Op::LoadAAtPair(direct_pair_in(operand)?)),
        Operation::Push => Some(Op::Push(stack_pair_in(operand)?)),
        Operation::Pop => Some(Op::Pop(stack_pair_in(operand)?)),
        _ => None,
    }
}

/// MOV; from M to M there is none.
fn move_work(target: Option<Operand>, source: Option<Operand>) -> Work<'static>
    ensures { seen_work result ≡ move_deed target source }
{
    match (target, source) {
        (Some(Operand::AtHl), Some(Operand::AtHl)) => Work::Wrong,
        (Some(target), Some(source)) => Work::Plain(Op::Move(target, source)),
        _ => Work::Wrong,
    }
}

/// An operation with two operands.
fn with_two<'a>(operation: Operation, first: &[u8], second: &'a [u8]) -> Work<'a>
    ensures { seen_work result ≡ with_two operation first.now second.now }
{
    match operation {
        Operation::Move => move_work(byte_operand_in(first), byte_operand_in(second)),
        Operation::MoveImmediate => match byte_operand_in(first) {
            Some(place) => Work::Byte(ByteForm::MoveImmediate(place), second),
            None => Work::Wrong,
        },
        Operation::LoadPair => match pair_in(first) {
            Some(pair) => Work::Word(WordForm::LoadPair(pair), second),
            None => Work::Wrong,
        },
        _ => Work::Wrong,
    }
}

/// What an operation does with its operands.
fn work_of(operation: Operation, operands: &[u8]) -> Work<'_>
    ensures { seen_work result ≡ deed_of operation operands.now }
{
    match operation {
        Operation::End => Work::End,
        Operation::Bytes => Work::Bytes(operands),
        Operation::Words => Work::Words(operands),
        Operation::EndIf if is_blank_text(operands) => Work::EndIf,
        Operation::Plain(op) if is_blank_text(operands) => Work::Plain(op),
        Operation::EndIf | Operation::Plain(_) => Work::Wrong,
        Operation::Origin
        | Operation::Equate
        | Operation::If
        | Operation::Space
        | Operation::Byte(_)
        | Operation::Word(_)
        | Operation::Restart => match one_operand(operands) {
            Some(operand) => with_expression(operation, operand),
            None => Work::Wrong,
        },
        Operation::Move | Operation::MoveImmediate | Operation::LoadPair => match two_operands(
            operands,
        ) {
            Some((first, second)) => with_two(operation, first, second),
            None => Work::Wrong,
        },
        _ => match with_register(operation, operands) {
            Some(op) => Work::Plain(op),
            None => Work::Wrong,
        },
    }
}

/// What an operation does under an IF that doesn't hold: IF and ENDIF are counted.
fn skipped_work(operation: Option<Operation>) -> Work<'static>
    ensures { seen_work result ≡ skipped_deed operation }
{
    match operation {
        Some(Operation::If) => Work::Nest,
        Some(Operation::EndIf) => Work::Unnest,
        _ => Work::Nothing,
    }
}

/// A statement that is read.
fn read_statement(head: Option<Head<'_>>) -> Statement<'_>
    ensures { seen_statement result ≡ read_head (option_map seen_head head.entry) }
{
    match head {
        Some(head) => match head.operation {
            Some(operation) => Statement {
                label: head.label,
                work: work_of(operation, head.operands),
            },
            None => Statement {
                label: head.label,
                work: Work::Nothing,
            },
        },
        None => Statement {
            label: None,
            work: Work::Wrong,
        },
    }
}

/// A statement under an IF that doesn't hold.
fn skipped_statement(head: Option<Head<'_>>) -> Statement<'_>
    ensures { seen_statement result ≡ skipped_head (option_map seen_head head.entry) }
{
    match head {
        Some(head) => Statement {
            label: None,
            work: skipped_work(head.operation),
        },
        None => Statement {
            label: None,
            work: Work::Nothing,
        },
    }
}

/// The statement that a text is, where statements are read or skipped.
#[tactic(auto, unfolding(crate::specs::Statements::statement_at))]
pub(crate) fn statement_at(is_skipped: bool, text: &[u8]) -> Statement<'_>
    ensures { seen_statement result ≡ statement_at is_skipped text.now }
{
    let head = statement_front(text);
    if is_skipped {
        skipped_statement(head)
    } else {
        read_statement(head)
    }
}
