//! Why a key script is refused.

use thiserror::Error;

/// What is wrong with a line of a key script.
#[derive(Clone, Copy, Debug, PartialEq, Eq, Drop, Error)]
pub enum LineFault {
    /// What stands before the first space is no decimal number of 64 bits.
    #[error("a count from 0 to 18446744073709551615 is wanted, or '#' before a comment")]
    NoCount,
    /// The count is less than that of the key before it.
    #[error("the count is less than the one before it")]
    CountFalls,
    /// A byte of the keys, or of a text in quotes, is no key, and no key begins with it.
    #[error("a key is a character from ' ' to '~', or '^' with '@', a letter, '[', '\\', ']', '^', '_', '?' or '~'")]
    NotAKey,
    /// No key stands after the count, after `wait`, or after a text in quotes.
    #[error("keys are missing: a space and at least one key are wanted at the end of the line")]
    NoKey,
    /// No text in quotes with a space after it stands after `expect`, or an empty one.
    #[error("a text in quotes with a space after it is wanted")]
    NoText,
    /// With the keys of this line there are more than 4,096.
    #[error("a script has at most 4096 keys; a recording, by '--replay', may have more")]
    TooManyKeys,
    /// The count is below that at which the session is forked.
    #[error("the count is below that at which the session is forked")]
    BeforeFork,
    /// With the keys of this line, those of the lines before it and those that the parent had before the
    /// fork there are more than 4,096.
    #[error("with the keys of the session that it is forked from there are more than 4096")]
    TooManyForked,
}

/// Why a key script is refused.
#[derive(Clone, Copy, Debug, PartialEq, Eq, Drop, Error)]
pub enum ScriptError {
    /// The first line with a fault, from 1.
    #[error("key script, line {number}: {fault}")]
    Line { number: u64, fault: LineFault },
    /// Memory was refused.
    #[error("out of memory")]
    OutOfMemory,
}
