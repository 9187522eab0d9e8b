//! Rows of a line that is being typed.

use crate::consoles::console_at;
use crate::text::{small, taken, taken_list};
use cpm_console::{Console, Line as EditedLine, LineState};
use std::alloc::{AllocError, Global};
use test_language::{RowAnswer, RowFault, RowLine, Scene, Word, byte};

/// A line at a console, and whether it goes on.
#[derive(Drop)]
pub struct EditedLines {
    console: Console,
    draft: EditedLine,
    progress: LineState,
}

impl EditedLines {
    /// `begin COLUMN LIMIT`: a line that begins at a column and has this greatest length, at a console of its own.
    fn begin(&mut self, alloc: Global, arguments: &[Word<'_>]) -> Result<RowAnswer, RowFault> {
        let [start, limit] = arguments else {
            return Err(RowFault::Words);
        };
        let (start, limit) = (small(*start)?, small(*limit)?);
        self.console = console_at(alloc, start)?;
        self.draft = EditedLine::new(start, limit);
        self.progress = LineState::GoesOn;
        Ok(RowAnswer::Done)
    }

    /// `key HH`: types a key, and answers what it shows.
    fn key(&mut self, alloc: Global, arguments: &[Word<'_>]) -> Result<RowAnswer, RowFault> {
        let [key] = arguments else {
            return Err(RowFault::Words);
        };
        let key = byte(*key)?;
        let is_open = self.draft.characters().len() < usize::from(self.draft.limit());
        if !is_open || self.progress != LineState::GoesOn || !self.console.has_room() {
            return Err(RowFault::Unready);
        }
        self.progress = self.draft.key_into_line(&mut self.console, key);
        Ok(RowAnswer::Bytes(taken(alloc, &mut self.console)?))
    }

    /// Does a line that leaves all as it is.
    fn look(&self, alloc: Global, verb: &str) -> Result<RowAnswer, RowFault> {
        match verb {
            "line" => RowAnswer::bytes(alloc, self.draft.characters()),
            "start" => RowAnswer::words(alloc, self.draft.start()),
            "limit" => RowAnswer::words(alloc, self.draft.limit()),
            "progress" => RowAnswer::name(alloc, self.progress),
            "column" => RowAnswer::words(alloc, self.console.column()),
            _ => Err(RowFault::Unknown),
        }
    }
}

impl Scene for EditedLines {
    fn new(alloc: Global) -> Result<Self, AllocError> {
        Ok(EditedLines {
            console: Console::new(alloc)?,
            draft: EditedLine::new(0, 0),
            progress: LineState::GoesOn,
        })
    }

    fn is_alone(verb: &str) -> bool {
        matches!(
            verb,
            "line" | "start" | "limit" | "progress" | "column" | "list"
        )
    }

    fn takes_text(_verb: &str) -> bool {
        false
    }

    fn act(&mut self, alloc: Global, line: &RowLine<'_>) -> Result<RowAnswer, RowFault> {
        match line.verb() {
            "begin" => self.begin(alloc, line.arguments()),
            "key" => self.key(alloc, line.arguments()),
            "list" => Ok(RowAnswer::Bytes(taken_list(alloc, &mut self.console)?)),
            verb => self.look(alloc, verb),
        }
    }
}
