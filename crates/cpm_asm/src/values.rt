//! Values of the operands of statements.
ghost use Rattle.std.specs.Prelude.{◌≡◌, IfOk, option_map};
ghost use Rattle.cpm_asm_expression.specs.Names.{in_table};
ghost use Rattle.cpm_asm.specs.Data.{is_expression, text_in, expression_value};

use crate::word::is_blank_text;
use arrayvec::ArrayVec;
use cpm_asm_expression::{CheckedValue, Names, after_blanks, quoted_text, value_of};
use std::alloc::{AllocError, Global};
use std::collections::BTreeMap;

/// The value of an expression in a statement at an address; 0 for a text that is none.
#[tactic(auto, unfolding(crate::specs::Data::expression_value))]
pub(crate) fn expression_value(
    alloc: Global,
    names: &Names,
    here: usize,
    text: &[u8],
) -> Result<CheckedValue, AllocError>
    ensures { IfOk result (λ found. found ≡ expression_value (in_table names.now) here text.now) }
{
    let nothing = CheckedValue {
        number: 0,
        is_unknown: false,
        is_outside: false,
    };
    Ok(value_of(alloc, names, here, text)?.unwrap_or(nothing))
}

/// Whether a text is an expression.
pub(crate) fn is_expression(alloc: Global, text: &[u8]) -> Result<bool, AllocError>
    ensures { IfOk result (λ is. is ≡ is_expression text.now) }
{
    let no_names: Names = BTreeMap::new(alloc);
    Ok(value_of(alloc, &no_names, 0, text)?.is_some())
}

/// The characters of an operand that is a quoted text and nothing else.
pub(crate) fn text_in(operand: &[u8]) -> Option<ArrayVec<u8, 64>>
    ensures { option_map (λ characters. characters.items) result ≡ text_in operand.now }
{
    match after_blanks(operand).split_first() {
        Some((b'\'', rest)) => {
            let (characters, after) = quoted_text(rest)?;
            if is_blank_text(after) {
                Some(characters)
            } else {
                None
            }
        }
        _ => None,
    }
}
