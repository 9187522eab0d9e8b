//! What the rows of a file are about.

use crate::answer::RowAnswer;
use crate::fault::RowFault;
use crate::line::RowLine;
use std::alloc::{AllocError, Global};

/// What the lines of a row work on: each kind of rows has one, which each row begins with anew.
pub trait Scene: Drop {
    /// Before the first line of a row.
    fn new(alloc: Global) -> Result<Self, AllocError>;

    /// Whether a line that begins with this word has no other word.
    fn is_alone(verb: &str) -> bool;

    /// Whether a line that begins with this word may be given a text between marks.
    fn takes_text(verb: &str) -> bool;

    /// Does a line, and gives its answer.
    fn act(&mut self, alloc: Global, line: &RowLine<'_>) -> Result<RowAnswer, RowFault>;
}
