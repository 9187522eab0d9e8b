//! Why a source is refused.

use thiserror::Error;

/// What is wrong with a statement.
#[derive(Clone, Copy, Debug, PartialEq, Eq, Drop, Error)]
pub enum AsmErrorKind {
    /// The text is no statement, or an operand of it no expression; or IF and ENDIF don't match.
    #[error("AS1: syntax: [label[:]] [operation [operands]] is wanted, each IF with its ENDIF, at most 8 deep")]
    Syntax,
    /// A name in it is the label of no statement.
    #[error("AS2: a name in an operand is defined nowhere")]
    Undefined,
    /// Its label is that of an earlier statement too.
    #[error("AS3: the label is defined by an earlier statement too")]
    DefinedTwice,
    /// A value or an address is too large, or something is divided by 0.
    #[error("AS4: a value is out of range (bytes 0 to 255 or FF80H to FFFFH, RST 0 to 7), an address is past FFFFH, or something is divided by 0")]
    OutOfRange,
    /// A name in ORG, EQU, IF or DS isn't the label of an earlier statement.
    #[error("AS5: a name in ORG, EQU, IF or DS has to be defined by an earlier statement")]
    NotYetDefined,
    /// ORG goes back.
    #[error("AS6: ORG is below the present address")]
    OriginBelow,
    /// Memory was refused.
    #[error("AS7: out of memory")]
    OutOfMemory,
}

/// The statement that is refused, by its line from 1 on, and why.
#[derive(Clone, Copy, Debug, PartialEq, Eq, Drop, Error)]
#[error("line {line}: {kind}")]
pub struct AsmError {
    pub line: u64,
    pub kind: AsmErrorKind,
}
