//! What is erased, inserted and deleted, and the characters that are shown.

ghost use Rattle.std.specs.Prelude.{◌≡◌};
ghost use Rattle.cpm_screen.specs.Edits.{advanced, character_shown, characters_deleted, characters_inserted, cleared, line_erased, lines_deleted};
ghost use Rattle.cpm_screen.specs.Edits.{lines_inserted};
ghost use Rattle.cpm_screen.specs.Edits.{after_last_column, opened_for_one, rows_erased, screen_erased_by, with_shown, wrapped};
ghost use Rattle.cpm_screen.specs.State.{SameSize};

use crate::action::Span;
use crate::cell::ScreenCell;
use crate::row::{close_cells, erase_cells, erase_rows, move_down, move_up, open_cells, put_cell};
use crate::screen::TextScreen;
use crate::terminal::Wrap;

impl TextScreen {
    /// Erases a part of the cursor's line.
    #[tactic(auto, unfolding(crate::specs::Edits::line_erased), using(crate::proofs::RowLemmas::sizes))]
    pub(crate) fn erase_line(&mut self, span: Span)
        ensures value { self.new ≡ line_erased span self.old }
        ensures size { SameSize self.old self.new }
    {
        let (from, to) = match span {
            Span::ToEnd => (self.cursor.column, self.columns),
            Span::FromStart => (0, self.cursor.column + 1),
            Span::Whole => (0, self.columns),
        };
        erase_cells(&mut self.lines, self.cursor.row, from, to);
    }

    /// Erases the lines of a part of the screen, but not the cursor's.
    #[tactic(auto, unfolding(crate::specs::Edits::rows_erased), using(crate::proofs::RowLemmas::sizes))]
    fn erase_lines(&mut self, span: Span)
        ensures value { self.new ≡ rows_erased span self.old }
        ensures size { SameSize self.old self.new }
    {
        let (from, to) = match span {
            Span::ToEnd => (self.cursor.row + 1, self.lines.len()),
            Span::FromStart => (0, self.cursor.row),
            Span::Whole => (0, self.lines.len()),
        };
        erase_rows(&mut self.lines, from, to);
    }

    /// Erases a part of the screen.
    #[tactic(auto, unfolding(crate::specs::Edits::screen_erased_by))]
    pub(crate) fn erase_screen(&mut self, span: Span)
        ensures value { self.new ≡ screen_erased_by span self.old }
        ensures size { SameSize self.old self.new }
    {
        self.erase_lines(span);
        self.erase_line(span);
    }

    /// Blanks the lines of the whole screen.
    pub(crate) fn blank(&mut self)
        ensures value { self.new ≡ rows_erased Span.Whole self.old }
        ensures size { SameSize self.old self.new }
    {
        self.erase_lines(Span::Whole);
    }

    /// Blanks the screen, and puts the cursor at home.
    #[tactic(auto, unfolding(crate::specs::Edits::cleared))]
    pub(crate) fn clear(&mut self)
        ensures value { self.new ≡ cleared self.old }
        ensures size { SameSize self.old self.new }
    {
        self.blank();
        self.go_home();
    }

    /// Inserts blank lines at the cursor, within the scrolling region.
    #[tactic(auto, unfolding(crate::specs::Edits::lines_inserted), using(crate::proofs::RowLemmas::sizes))]
    pub(crate) fn insert_lines(&mut self, count: u8)
        ensures value { self.new ≡ lines_inserted count self.old }
        ensures size { SameSize self.old self.new }
    {
        let row = self.cursor.row;
        if self.top <= row && row <= self.bottom {
            let count = usize::from(count).min(self.bottom + 1 - row);
            move_down(&mut self.lines, row, self.bottom, count);
        }
    }

    /// Deletes lines at the cursor, within the scrolling region.
    #[tactic(auto, unfolding(crate::specs::Edits::lines_deleted), using(crate::proofs::RowLemmas::sizes))]
    pub(crate) fn delete_lines(&mut self, count: u8)
        ensures value { self.new ≡ lines_deleted count self.old }
        ensures size { SameSize self.old self.new }
    {
        let row = self.cursor.row;
        if self.top <= row && row <= self.bottom {
            let count = usize::from(count).min(self.bottom + 1 - row);
            move_up(&mut self.lines, row, self.bottom, count);
        }
    }

    /// Inserts blanks at the cursor.
    #[inline(never)]
    #[tactic(auto, unfolding(crate::specs::Edits::characters_inserted), using(crate::proofs::RowLemmas::sizes))]
    pub(crate) fn insert_characters(&mut self, count: u8)
        ensures value { self.new ≡ characters_inserted count self.old }
        ensures size { SameSize self.old self.new }
    {
        let column = self.cursor.column;
        let count = usize::from(count).min(self.columns - column);
        open_cells(
            &mut self.lines,
            self.cursor.row,
            column,
            self.columns,
            count,
        );
    }

    /// Deletes characters at the cursor.
    #[tactic(auto, unfolding(crate::specs::Edits::characters_deleted), using(crate::proofs::RowLemmas::sizes))]
    pub(crate) fn delete_characters(&mut self, count: u8)
        ensures value { self.new ≡ characters_deleted count self.old }
        ensures size { SameSize self.old self.new }
    {
        let column = self.cursor.column;
        let count = usize::from(count).min(self.columns - column);
        close_cells(
            &mut self.lines,
            self.cursor.row,
            column,
            self.columns,
            count,
        );
    }

    /// Begins the next line, if the last character was shown in the last column and the next one wraps.
    #[inline(always)]
    #[tactic(auto, unfolding(crate::specs::Edits::wrapped))]
    fn wrap_line(&mut self)
        ensures value { self.new ≡ wrapped self.old }
        ensures size { SameSize self.old self.new }
    {
        if self.cursor.is_past {
            self.go_to_next_line();
        }
    }

    /// Opens a gap for a character, where characters are inserted.
    #[inline(always)]
    #[tactic(auto, unfolding(crate::specs::Edits::opened_for_one))]
    fn open_for_one(&mut self)
        ensures value { self.new ≡ opened_for_one self.old }
        ensures size { SameSize self.old self.new }
    {
        if self.inserts {
            self.insert_characters(1);
        }
    }

    /// Puts a cell at the cursor.
    #[inline(always)]
    #[tactic(auto, unfolding(crate::specs::Edits::with_shown), using(crate::proofs::RowLemmas::sizes))]
    fn put(&mut self, cell: ScreenCell)
        ensures value { self.new ≡ with_shown cell self.old }
        ensures size { SameSize self.old self.new }
    {
        put_cell(&mut self.lines, self.cursor.row, self.cursor.column, cell);
    }

    /// What follows on a character in the last column.
    #[inline(never)]
    fn end_line(&mut self)
        ensures value { self.new ≡ after_last_column self.old.wrap self.old }
        ensures size { SameSize self.old self.new }
    {
        match self.wrap {
            Wrap::Now => self.go_to_next_line(),
            Wrap::Later => self.cursor.is_past = true,
            Wrap::Never => {}
        }
    }

    /// One column on, after a character.
    #[inline(always)]
    #[tactic(auto, unfolding(crate::specs::Edits::advanced))]
    fn advance(&mut self)
        ensures value { self.new ≡ advanced self.old }
        ensures size { SameSize self.old self.new }
    {
        let column = self.cursor.column + 1;
        if column < self.columns {
            self.move_to(self.cursor.row, column);
        } else {
            self.end_line();
        }
    }

    /// Shows a character at the cursor.
    #[inline(always)]
    #[tactic(auto, unfolding(crate::specs::Edits::character_shown))]
    pub(crate) fn show_character(&mut self, character: u8)
        ensures value { self.new ≡ character_shown character self.old }
        ensures size { SameSize self.old self.new }
    {
        let cell = self.cursor.cell(character);
        self.wrap_line();
        self.open_for_one();
        self.put(cell);
        self.advance();
    }
}
