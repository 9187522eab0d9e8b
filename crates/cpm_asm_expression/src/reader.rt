//! Reading an expression from left to right, with a stack of its own.
ghost use Rattle.std.specs.Prelude.{◌≡◌, ◌∷◌, IfOk, OnOk, reverse};
ghost use Rattle.cpm_asm_expression.specs.Names.{in_table};
ghost use Rattle.cpm_asm_expression.specs.Grammar.{level, prefix_level, right_level};
ghost use Rattle.cpm_asm_expression.specs.Values.{changed, combined};
ghost use Rattle.cpm_asm_expression.specs.Reading.{after_token, after_operand, value_read, value_behind, binds};
ghost use Rattle.cpm_asm_expression.specs.Reading.{group_closed, settled, state, value_at, wanted, with_prefix};
ghost use Rattle.cpm_asm_expression.specs.declared.reader.Stage.TheVariants as stages;

use crate::letters::after_blanks;
use crate::lexer::first_token;
use crate::names::Names;
use crate::tokens::{Operator, Prefix, Token};
use crate::values::{CheckedValue, atom_value, changed, combined};
use std::alloc::{AllocError, Global};

/// What waits for its right operand.
#[derive(Clone, Copy)]
pub enum PendingOperator {
    Bracket,
    Prefix(Prefix),
    Left(CheckedValue, Operator),
}

/// Where reading stands: an operand is wanted, there is one, or the text is no expression.
#[derive(Clone, Copy)]
pub enum Stage {
    Wants,
    Has(CheckedValue),
    Wrong,
}

/// How strongly an operator binds; an atom binds at 6.
fn level(operator: Operator) -> u8
    ensures { result ≡ level operator }
{
    match operator {
        Operator::Or | Operator::Xor => 0,
        Operator::And => 1,
        Operator::Add | Operator::Subtract => 3,
        Operator::Multiply
        | Operator::Divide
        | Operator::Modulo
        | Operator::ShiftLeft
        | Operator::ShiftRight => 5,
    }
}

fn right_level(operator: Operator) -> u8
    ensures { result ≡ right_level operator }
{
    match operator {
        Operator::Or | Operator::Xor => 1,
        Operator::And => 2,
        Operator::Add | Operator::Subtract => 5,
        Operator::Multiply
        | Operator::Divide
        | Operator::Modulo
        | Operator::ShiftLeft
        | Operator::ShiftRight => 6,
    }
}

fn prefix_level(prefix: Prefix) -> u8
    ensures { result ≡ prefix_level prefix }
{
    match prefix {
        Prefix::Not => 2,
        Prefix::Plus | Prefix::Minus => 4,
    }
}

/// What waits binds as strongly as a level.
fn binds(level_of_next: u8, waiting: PendingOperator) -> bool
    ensures { result ≡ binds level_of_next waiting }
{
    match waiting {
        PendingOperator::Bracket => false,
        PendingOperator::Prefix(prefix) => level_of_next <= prefix_level(prefix),
        PendingOperator::Left(_, operator) => level_of_next <= level(operator),
    }
}

/// The value after what waited.
fn value_behind(waiting: PendingOperator, value: CheckedValue) -> CheckedValue
    ensures { result ≡ value_behind waiting value }
{
    match waiting {
        PendingOperator::Bracket => value,
        PendingOperator::Prefix(prefix) => changed(prefix, value),
        PendingOperator::Left(left, operator) => combined(operator, left, value),
    }
}

/// The value with all that binds as strongly as a level; the last one waits for it first.
fn settle(waiting: &mut Vec<PendingOperator>, own: CheckedValue, next: u8) -> CheckedValue
    ensures { settled next own (reverse waiting.old.items) ≡ record { value = result; waiting = reverse waiting.new.items } }
{
    let mut value = own;
    while let Some(last) = waiting.last() {
        let last = *last;
        if !binds(next, last) {
            return value;
        }
        waiting.pop();
        value = value_behind(last, value);
    }
    value
}

/// How strongly the operand that is wanted has to bind.
fn wanted(waiting: &[PendingOperator]) -> u8
    ensures { result ≡ wanted (reverse waiting.now) }
{
    match waiting.last() {
        Some(PendingOperator::Prefix(prefix)) => prefix_level(*prefix),
        Some(PendingOperator::Left(_, operator)) => right_level(*operator),
        Some(PendingOperator::Bracket) | None => 0,
    }
}

fn wait_for(waiting: &mut Vec<PendingOperator>, last: PendingOperator) -> Result<(), AllocError>
    ensures { OnOk result (reverse waiting.new.items ≡ last ∷ reverse waiting.old.items) }
{
    waiting.push(last)?;
    Ok(())
}

fn with_prefix(waiting: &mut Vec<PendingOperator>, prefix: Prefix) -> Result<Stage, AllocError>
    ensures { IfOk result (λ next. state next (reverse waiting.new.items) ≡ with_prefix (reverse waiting.old.items) prefix) }
{
    if wanted(waiting) <= prefix_level(prefix) {
        wait_for(waiting, PendingOperator::Prefix(prefix))?;
        Ok(Stage::Wants)
    } else {
        Ok(Stage::Wrong)
    }
}

/// A token where an operand is wanted.
fn operand(
    waiting: &mut Vec<PendingOperator>,
    names: &Names,
    here: usize,
    token: Token,
) -> Result<Stage, AllocError>
    ensures { IfOk result (λ next. state next (reverse waiting.new.items)
        ≡ after_token (in_table names.now) here (state stages.Wants (reverse waiting.old.items)) token) }
{
    match token {
        Token::Atom(atom) => Ok(Stage::Has(atom_value(names, here, atom))),
        Token::Operator(Operator::Add) => with_prefix(waiting, Prefix::Plus),
        Token::Operator(Operator::Subtract) => with_prefix(waiting, Prefix::Minus),
        Token::Not => with_prefix(waiting, Prefix::Not),
        Token::Open => {
            wait_for(waiting, PendingOperator::Bracket)?;
            Ok(Stage::Wants)
        }
        Token::Operator(_) | Token::Close => Ok(Stage::Wrong),
    }
}

/// The last bracket is closed.
fn close(waiting: &mut Vec<PendingOperator>, value: CheckedValue) -> Stage
    ensures { state result (reverse waiting.new.items) ≡ group_closed value (reverse waiting.old.items) }
{
    match waiting.pop() {
        Some(PendingOperator::Bracket) => Stage::Has(value),
        _ => Stage::Wrong,
    }
}

/// A token after an operand.
fn operator(
    waiting: &mut Vec<PendingOperator>,
    value: CheckedValue,
    token: Token,
) -> Result<Stage, AllocError>
    ensures { IfOk result (λ next. state next (reverse waiting.new.items) ≡ after_operand value (reverse waiting.old.items) token) }
{
    match token {
        Token::Operator(operator) => {
            let left = settle(waiting, value, level(operator));
            wait_for(waiting, PendingOperator::Left(left, operator))?;
            Ok(Stage::Wants)
        }
        Token::Close => {
            let inner = settle(waiting, value, 0);
            Ok(close(waiting, inner))
        }
        Token::Atom(_) | Token::Not | Token::Open => Ok(Stage::Wrong),
    }
}

fn step(
    waiting: &mut Vec<PendingOperator>,
    names: &Names,
    here: usize,
    stage: Stage,
    token: Token,
) -> Result<Stage, AllocError>
    ensures { IfOk result (λ next. state next (reverse waiting.new.items)
        ≡ after_token (in_table names.now) here (state stage (reverse waiting.old.items)) token) }
{
    match stage {
        Stage::Wants => operand(waiting, names, here, token),
        Stage::Has(value) => operator(waiting, value, token),
        Stage::Wrong => Ok(Stage::Wrong),
    }
}

fn value_read(waiting: &mut Vec<PendingOperator>, stage: Stage) -> Option<CheckedValue>
    ensures { result ≡ value_read (state stage (reverse waiting.old.items)) }
{
    match stage {
        Stage::Has(value) => {
            let whole = settle(waiting, value, 0);
            if waiting.is_empty() {
                Some(whole)
            } else {
                None
            }
        }
        Stage::Wants | Stage::Wrong => None,
    }
}

/// The value of the expression that a text is, in a statement at an address; none where the text is no expression.
pub fn value_of(
    alloc: Global,
    names: &Names,
    here: usize,
    text: &[u8],
) -> Result<Option<CheckedValue>, AllocError>
    ensures { IfOk result (λ found. found ≡ value_at (in_table names.now) here text.now) }
{
    let mut waiting: Vec<PendingOperator> = Vec::new(alloc);
    let mut stage = Stage::Wants;
    let mut rest = after_blanks(text);
    while !rest.is_empty() {
        let Some((token, behind)) = first_token(rest) else {
            return Ok(None);
        };
        stage = step(&mut waiting, names, here, stage, token)?;
        rest = after_blanks(behind);
    }
    Ok(value_read(&mut waiting, stage))
}
