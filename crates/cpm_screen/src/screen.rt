//! A screen: its rows of cells, its cursor, and what the terminal keeps.

ghost use Rattle.std.specs.Prelude.{◌≡◌, ◌<◌, ◌≤◌, ◌+◌, ◌-◌, [], length, take, IfOk, ◌⊎◌, MatchOption, MatchResult, replicate, slice_index_or};
ghost use Rattle.cpm_screen.specs.Rows.{blank_row};

use crate::action::Sequence;
use crate::cell::ScreenCell;
use crate::cursor::{Cursor, FRESH};
use crate::modes::fresh_tabs;
use crate::row::{MOST_COLUMNS, ScreenRow, copy_rows};
use crate::terminal::{TerminalKind, Wrap};
use std::alloc::{AllocError, Global};
use std::marker::Model;
use thiserror::Error;

/// The most rows that a screen may have.
pub const MOST_ROWS: usize = 60;

/// The rows and the columns of these terminals.
pub const USUAL_ROWS: usize = 24;

pub const USUAL_COLUMNS: usize = 80;

/// Why there is no screen.
#[derive(Clone, Copy, Debug, PartialEq, Eq, Drop, Error)]
pub enum ScreenError {
    #[error("a screen has 1 to 60 rows and 1 to 132 columns")]
    WrongSize,
    #[error("out of memory")]
    OutOfMemory,
}

/// The screen of a terminal, after the bytes that a program has shown.
#[derive(Drop)]
pub struct TextScreen {
    pub(crate) terminal: TerminalKind,
    pub(crate) columns: usize,
    pub(crate) lines: Vec<ScreenRow>,
    pub(crate) cursor: Cursor,
    pub(crate) saved: Cursor,
    pub(crate) top: usize,
    pub(crate) bottom: usize,
    pub(crate) tabs: [bool; 132],
    pub(crate) wrap: Wrap,
    pub(crate) inserts: bool,
    pub(crate) sequence: Sequence,
}

impl Model for TextScreen {
    ghost use Rattle.cpm_screen.specs.State.{ScreenState};

    ghost Value = { ScreenState };

    ghost use Rattle.cpm_screen.specs.Inside.{screen_state_of, IsScreen};

    ghost view = { screen_state_of };

    ghost invariant = { IsScreen };
}

/// Blank rows.
fn blank_rows(alloc: Global, count: usize) -> Result<Vec<ScreenRow>, AllocError>
    ensures { IfOk result (λ rows. rows.items ≡ replicate count blank_row) }
{
    let mut rows = Vec::with_capacity(alloc, count)?;
    for _ in 0..count {
        rows.push(ScreenRow::new(alloc)?)?;
    }
    Ok(rows)
}

/// Equal rows.
fn copied_rows(alloc: Global, rows: &[ScreenRow]) -> Result<Vec<ScreenRow>, AllocError>
    ensures { IfOk result (λ copies. copies.items ≡ rows.now) }
{
    let mut copies = Vec::with_capacity(alloc, rows.len())?;
    for row in rows {
        copies.push(row.copy(alloc)?)?;
    }
    Ok(copies)
}

impl TextScreen {
    ghost use Rattle.cpm_screen.specs.State.{IsSize, SameSize, fresh_screen};

    /// A screen on which nothing was shown. All the memory that it ever takes is taken here.
    pub fn new(
        alloc: Global,
        terminal: TerminalKind,
        rows: usize,
        columns: usize,
    ) -> Result<TextScreen, ScreenError>
        ensures { MatchResult result
            (λ screen. IsSize rows columns × (screen ≡ fresh_screen terminal rows columns))
            (λ e. (¬ IsSize rows columns × (e ≡ ScreenError.WrongSize)) ⊎ (IsSize rows columns × (e ≡ ScreenError.OutOfMemory))) }
    {
        if rows == 0 || MOST_ROWS < rows || columns == 0 || MOST_COLUMNS < columns {
            return Err(ScreenError::WrongSize);
        }
        match blank_rows(alloc, rows) {
            Ok(lines) => Ok(TextScreen {
                terminal,
                columns,
                lines,
                cursor: FRESH,
                saved: FRESH,
                top: 0,
                bottom: rows - 1,
                tabs: fresh_tabs(),
                wrap: terminal.wrap(),
                inserts: false,
                sequence: Sequence::Text,
            }),
            Err(_) => Err(ScreenError::OutOfMemory),
        }
    }

    /// An equal screen; refused if out of memory.
    pub fn copy(&self, alloc: Global) -> Result<TextScreen, AllocError>
        ensures { IfOk result (λ screen. screen ≡ self.now) }
    {
        let lines = copied_rows(alloc, &self.lines)?;
        Ok(TextScreen {
            terminal: self.terminal,
            columns: self.columns,
            lines,
            cursor: self.cursor,
            saved: self.saved,
            top: self.top,
            bottom: self.bottom,
            tabs: self.tabs,
            wrap: self.wrap,
            inserts: self.inserts,
            sequence: self.sequence,
        })
    }

    /// Becomes equal to another screen of its size. It takes no memory.
    pub fn copy_from(&mut self, other: &TextScreen)
        requires { SameSize self.old other.now }
        ensures { self.new ≡ other.now }
    {
        copy_rows(&mut self.lines, &other.lines);
        self.terminal = other.terminal;
        self.columns = other.columns;
        self.cursor = other.cursor;
        self.saved = other.saved;
        self.top = other.top;
        self.bottom = other.bottom;
        self.tabs = other.tabs;
        self.wrap = other.wrap;
        self.inserts = other.inserts;
        self.sequence = other.sequence;
    }

    /// How many rows it has.
    pub fn rows(&self) -> usize
        ensures value { result ≡ length self.now.lines }
        ensures size { IsSize result self.now.columns }
    {
        let _ = self.columns;
        self.lines.len()
    }

    /// How many columns it has.
    pub fn columns(&self) -> usize
        ensures value { result ≡ self.now.columns }
        ensures size { IsSize (length self.now.lines) result }
    {
        self.columns
    }

    /// The cursor.
    pub fn cursor(&self) -> Cursor
        ensures value { result ≡ self.now.cursor }
        ensures row { result.row < length self.now.lines }
        ensures column { result.column < self.now.columns }
        ensures screen { IsSize (length self.now.lines) self.now.columns }
    {
        self.cursor
    }

    /// The cells of a row that the screen has.
    pub(crate) fn line(&self, place: usize) -> &[ScreenCell]
        requires { place < length self.now.lines }
        ensures value { result.now ≡ take self.now.columns (slice_index_or self.now.lines place []) }
        ensures size { length result.now ≡ self.now.columns }
        ensures screen { IsSize (length self.now.lines) self.now.columns }
    {
        let columns = self.columns;
        let row = &self.lines[place];
        &row.cells()[..columns]
    }

    /// The cells of a row, counted from 0 at the top; none where the screen has no such row.
    pub fn row(&self, place: usize) -> Option<&[ScreenCell]>
        ensures { MatchOption result (length self.now.lines ≤ place)
            (λ cells. (place < length self.now.lines)
            × (cells.now ≡ take self.now.columns (slice_index_or self.now.lines place [])) × (length cells.now ≡ self.now.columns)) }
    {
        let row = self.lines.get(place)?;
        Some(&row.cells()[..self.columns])
    }
}
