//! The label and the operation of a statement.
ghost use Rattle.std.specs.Prelude.{◌≡◌, option_map};
ghost use Rattle.cpm_asm.specs.Heads.{behind_label, statement_front, seen_head};

use crate::word::{FirstWord, after_colon, word_front};
use cpm_asm_expression::{Keyword, Name, Operation, keyword_of, name_of};

/// The front of a statement.
#[derive(Clone, Copy)]
pub struct Head<'a> {
    pub label: Option<Name>,
    pub operation: Option<Operation>,
    /// What stands after the operation.
    pub operands: &'a [u8],
}

/// The operation after a label, if there is one.
fn behind_label(label: Name, text: &[u8]) -> Option<Head<'_>>
    ensures { option_map seen_head result ≡ behind_label label text.now }
{
    match word_front(text) {
        FirstWord::Nothing => Some(Head {
            label: Some(label),
            operation: None,
            operands: &[],
        }),
        FirstWord::Other => None,
        FirstWord::Word(letters, operands) => match keyword_of(&letters) {
            Some(Keyword::Operation(operation)) => {
                Some(Head {
                    label: Some(label),
                    operation: Some(operation),
                    operands,
                })
            }
            _ => None,
        },
    }
}

/// The label, the operation and the operands of a text, if it begins as a statement does.
///
/// A first word that is no operation is a label, with or without a colon after it; a register isn't one.
pub(crate) fn statement_front(text: &[u8]) -> Option<Head<'_>>
    ensures { option_map seen_head result ≡ statement_front text.now }
{
    match word_front(text) {
        FirstWord::Nothing => Some(Head {
            label: None,
            operation: None,
            operands: &[],
        }),
        FirstWord::Other => None,
        FirstWord::Word(letters, after) => match keyword_of(&letters) {
            Some(Keyword::Operation(operation)) => {
                Some(Head {
                    label: None,
                    operation: Some(operation),
                    operands: after,
                })
            }
            Some(Keyword::Register(_)) => None,
            None | Some(Keyword::Operator(_) | Keyword::Not) => behind_label(
                name_of(&letters),
                after_colon(after),
            ),
        },
    }
}
