//! What a line answers, and whether it is what must come.

use crate::bytes::{bytes_of, write_bytes};
use crate::fault::RowFault;
use crate::line::{Expectation, RowLine};
use crate::word::words_of;
use std::alloc::{AllocError, Global};
use std::fmt::{Debug, Display};

/// What a line answers.
#[derive(Drop)]
pub enum RowAnswer {
    /// It was done, and there is nothing to compare.
    Done,
    /// Words.
    Words(String),
    /// Bytes.
    Bytes(Vec<u8>),
    /// A refusal, in words. A row that doesn't say that it must come fails.
    Refused(String),
}

impl RowAnswer {
    /// Words, as a value is shown by `{}`.
    pub fn words(alloc: Global, value: impl Display + Drop) -> Result<RowAnswer, RowFault> {
        Ok(RowAnswer::Words(format!(in alloc; "{value}")?))
    }

    /// Words, as a value is shown by `{:?}`: the name of a variant.
    pub fn name(alloc: Global, value: impl Debug + Drop) -> Result<RowAnswer, RowFault> {
        Ok(RowAnswer::Words(format!(in alloc; "{value:?}")?))
    }

    /// The same of a refusal.
    pub fn refused(alloc: Global, value: impl Debug + Drop) -> Result<RowAnswer, RowFault> {
        Ok(RowAnswer::Refused(format!(in alloc; "{value:?}")?))
    }

    /// The text of a refusal.
    pub fn refused_text(alloc: Global, value: impl Display + Drop) -> Result<RowAnswer, RowFault> {
        Ok(RowAnswer::Refused(format!(in alloc; "{value}")?))
    }

    /// Bytes.
    pub fn bytes(alloc: Global, bytes: &[u8]) -> Result<RowAnswer, RowFault> {
        Ok(RowAnswer::Bytes(Vec::from_slice(alloc, bytes)?))
    }

    /// An address: four hexadecimal digits.
    pub fn address(alloc: Global, value: u16) -> Result<RowAnswer, RowFault> {
        Ok(RowAnswer::Words(format!(in alloc; "{value:04X}")?))
    }

    /// A byte: two hexadecimal digits.
    pub fn byte(alloc: Global, value: u8) -> Result<RowAnswer, RowFault> {
        Ok(RowAnswer::Words(format!(in alloc; "{value:02X}")?))
    }

    /// `yes` or `no`.
    pub fn truth(alloc: Global, value: bool) -> Result<RowAnswer, RowFault> {
        RowAnswer::words(alloc, if value { "yes" } else { "no" })
    }

    /// Whether it is what must come.
    pub(crate) fn is(&self, alloc: Global, line: &RowLine<'_>) -> Result<bool, RowFault> {
        match line.wanted {
            Expectation::Nothing => Ok(!matches!(self, RowAnswer::Refused(_))),
            Expectation::Words(wanted) => self.is_words(alloc, wanted),
            Expectation::Text => Ok(self.is_text(line.text.as_str())),
        }
    }

    /// Whether it is these words, or the bytes that they stand for.
    fn is_words(&self, alloc: Global, wanted: &str) -> Result<bool, RowFault> {
        match self {
            RowAnswer::Done => Ok(false),
            RowAnswer::Words(words) | RowAnswer::Refused(words) => Ok(words.as_str() == wanted),
            RowAnswer::Bytes(bytes) => is_bytes(alloc, bytes.as_slice(), wanted),
        }
    }

    /// Whether it is a text whose lines have their ends.
    fn is_text(&self, wanted: &str) -> bool {
        match self {
            RowAnswer::Done => false,
            RowAnswer::Words(words) | RowAnswer::Refused(words) => {
                wanted.strip_suffix('\n') == Some(words.as_str())
            }
            RowAnswer::Bytes(bytes) => wanted.as_bytes() == bytes.as_slice(),
        }
    }

    /// Adds it to a text as rows write it.
    pub(crate) fn write(&self, alloc: Global, out: &mut String) -> Result<(), AllocError> {
        match self {
            RowAnswer::Done => out.push_str("nothing"),
            RowAnswer::Words(words) => out.push_str(words.as_str()),
            RowAnswer::Refused(words) => {
                out.push_str("refused: ")?;
                out.push_str(words.as_str())
            }
            RowAnswer::Bytes(bytes) => write_bytes(alloc, out, bytes.as_slice()),
        }
    }
}

/// Whether bytes are those that a text stands for.
fn is_bytes(alloc: Global, bytes: &[u8], wanted: &str) -> Result<bool, RowFault> {
    Ok(bytes_in(alloc, wanted)?.as_slice() == bytes)
}

/// The bytes that a text stands for.
fn bytes_in(alloc: Global, text: &str) -> Result<Vec<u8>, RowFault> {
    let words = words_of(alloc, text)?;
    bytes_of(alloc, words.as_slice())
}
