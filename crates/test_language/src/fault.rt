//! Why a row fails before anything is compared. In files of wrong rows these faults have the names of the variants.

use std::alloc::{AllocError, AllocFailed};

/// Why a line can't be done, or a row says nothing.
#[derive(Clone, Copy, Drop)]
pub enum RowFault {
    /// Its first word is none that rows of this kind have.
    Unknown,
    /// After its first word stand too few words, too many, or others.
    Words,
    /// A quote is not closed.
    Quote,
    /// After the equals sign there is nothing.
    NoAnswer,
    /// The text between marks is not one that this line takes, or its words are given beside it.
    Text,
    /// A decimal number is wanted, of at most 64 bits.
    Number,
    /// Two hexadecimal digits are wanted, or four.
    Digits,
    /// Bytes are wanted.
    Bytes,
    /// What the line works on was not made before, or has another name.
    Absent,
    /// A condition of the call doesn't hold.
    Unready,
    /// No line of the row says what must come.
    NoExpectation,
    /// Memory was refused.
    OutOfMemory,
}

impl RowFault {
    /// Its name in files of wrong rows: that of the variant.
    pub(crate) fn name(self) -> &'static str {
        match self {
            RowFault::Unknown => "Unknown",
            RowFault::Words => "Words",
            RowFault::Quote => "Quote",
            RowFault::NoAnswer => "NoAnswer",
            RowFault::Text => "Text",
            RowFault::Number => "Number",
            RowFault::Digits => "Digits",
            RowFault::Bytes => "Bytes",
            RowFault::Absent => "Absent",
            RowFault::Unready => "Unready",
            RowFault::NoExpectation => "NoExpectation",
            RowFault::OutOfMemory => "OutOfMemory",
        }
    }

    /// What is told of it.
    pub(crate) fn text(self) -> &'static str {
        match self {
            RowFault::Unknown => "no line of these rows begins so",
            RowFault::Words => "the words behind the first one are not those of this line",
            RowFault::Quote => "a quote is not closed",
            RowFault::NoAnswer => "an answer is wanted behind the equals sign: no bytes are \"\"",
            RowFault::Text => "this line takes no text between marks, or no words beside it",
            RowFault::Number => "a decimal number is wanted",
            RowFault::Digits => "two hexadecimal digits are wanted for a byte, four for an address",
            RowFault::Bytes =>
                "bytes are wanted: digits, texts in quotes, and each so often, as 3*1A",
            RowFault::Absent => "what this line works on is not there",
            RowFault::Unready => "the call can't be made here: a condition of it doesn't hold",
            RowFault::NoExpectation => "the row expects nothing",
            RowFault::OutOfMemory => "out of memory",
        }
    }
}

impl From<AllocError> for RowFault {
    fn from(_error: AllocError) -> RowFault {
        RowFault::OutOfMemory
    }
}

impl<T: Drop> From<AllocFailed<T>> for RowFault {
    fn from(_error: AllocFailed<T>) -> RowFault {
        RowFault::OutOfMemory
    }
}
