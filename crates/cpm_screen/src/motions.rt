//! Where the cursor goes, and how lines move up and down under it.

ghost use Rattle.std.specs.Prelude.{◌≡◌, ◌<◌, ◌≤◌, ◌+◌, ◌-◌, length, MatchOption};
ghost use Rattle.std.specs.List.{position};
ghost use Rattle.cpm_screen.specs.Motions.{addressed, addressed_column, addressed_row, at_line_start, column_past_edge, last_column, last_row};
ghost use Rattle.cpm_screen.specs.Motions.{line_fed, line_fed_back};
ghost use Rattle.cpm_screen.specs.Motions.{moved_down, moved_left, moved_right, moved_to, moved_up, on_next_line, placed, tabbed, tabbed_by_eight};
ghost use Rattle.cpm_screen.specs.State.{SameSize};

use crate::row::{move_down, move_up};
use crate::screen::TextScreen;
use crate::terminal::TerminalKind;

impl TextScreen {
    /// The cursor at a row and a column.
    #[inline(always)]
    #[tactic(auto, unfolding(crate::specs::Motions::moved_to))]
    pub(crate) fn move_to(&mut self, row: usize, column: usize)
        requires row { row < length self.old.lines }
        requires column { column < self.old.columns }
        ensures value { self.new ≡ moved_to row column self.old }
        ensures size { SameSize self.old self.new }
    {
        self.cursor.row = row;
        self.cursor.column = column;
        self.cursor.is_past = false;
    }

    /// To the upper left.
    #[tactic(auto, unfolding(crate::specs::Motions::moved_to))]
    pub(crate) fn go_home(&mut self)
        ensures value { self.new ≡ moved_to 0 0 self.old }
        ensures size { SameSize self.old self.new }
    {
        self.cursor.row = 0;
        self.cursor.column = 0;
        self.cursor.is_past = false;
    }

    /// Up by rows, to the top of the scrolling region or of the screen.
    #[tactic(auto, unfolding(crate::specs::Motions::moved_up))]
    pub(crate) fn go_up(&mut self, count: u8)
        ensures value { self.new ≡ moved_up count self.old }
        ensures size { SameSize self.old self.new }
    {
        let edge = if self.cursor.row < self.top {
            0
        } else {
            self.top
        };
        let row = self.cursor.row.saturating_sub(usize::from(count));
        self.move_to(row.max(edge), self.cursor.column);
    }

    /// Down by rows, to the bottom of the scrolling region or of the screen.
    #[tactic(auto, unfolding(crate::specs::Motions::moved_down))]
    pub(crate) fn go_down(&mut self, count: u8)
        ensures value { self.new ≡ moved_down count self.old }
        ensures size { SameSize self.old self.new }
    {
        let edge = if self.bottom < self.cursor.row {
            self.lines.len() - 1
        } else {
            self.bottom
        };
        let row = self.cursor.row + usize::from(count);
        self.move_to(row.min(edge), self.cursor.column);
    }

    /// Left by columns, to the first.
    #[tactic(auto, unfolding(crate::specs::Motions::moved_left))]
    pub(crate) fn go_left(&mut self, count: u8)
        ensures value { self.new ≡ moved_left count self.old }
        ensures size { SameSize self.old self.new }
    {
        let column = self.cursor.column.saturating_sub(usize::from(count));
        self.move_to(self.cursor.row, column);
    }

    /// Right by columns, to the last.
    #[tactic(auto, unfolding(crate::specs::Motions::moved_right))]
    pub(crate) fn go_right(&mut self, count: u8)
        ensures value { self.new ≡ moved_right count self.old }
        ensures size { SameSize self.old self.new }
    {
        let column = self.cursor.column + usize::from(count);
        self.move_to(self.cursor.row, column.min(self.columns - 1));
    }

    /// To the first column.
    #[tactic(auto, unfolding(crate::specs::Motions::at_line_start))]
    pub(crate) fn go_to_line_start(&mut self)
        ensures value { self.new ≡ at_line_start self.old }
        ensures size { SameSize self.old self.new }
    {
        self.move_to(self.cursor.row, 0);
    }

    /// Down a line; at the bottom of the scrolling region its lines move up.
    #[tactic(auto, unfolding(crate::specs::Motions::line_fed), using(crate::proofs::RowLemmas::sizes))]
    pub(crate) fn feed_line(&mut self)
        ensures value { self.new ≡ line_fed self.old }
        ensures size { SameSize self.old self.new }
    {
        if self.cursor.row == self.bottom {
            move_up(&mut self.lines, self.top, self.bottom, 1);
            self.cursor.is_past = false;
        } else {
            let row = (self.cursor.row + 1).min(self.lines.len() - 1);
            self.move_to(row, self.cursor.column);
        }
    }

    /// Up a line; at the top of the scrolling region its lines move down.
    #[tactic(auto, unfolding(crate::specs::Motions::line_fed_back), using(crate::proofs::RowLemmas::sizes))]
    pub(crate) fn feed_line_back(&mut self)
        ensures value { self.new ≡ line_fed_back self.old }
        ensures size { SameSize self.old self.new }
    {
        if self.cursor.row == self.top {
            move_down(&mut self.lines, self.top, self.bottom, 1);
            self.cursor.is_past = false;
        } else {
            let row = self.cursor.row.saturating_sub(1);
            self.move_to(row, self.cursor.column);
        }
    }

    /// To the start of the next line.
    #[inline(never)]
    pub(crate) fn go_to_next_line(&mut self)
        ensures value { self.new ≡ on_next_line self.old }
        ensures size { SameSize self.old self.new }
    {
        self.go_to_line_start();
        self.feed_line();
    }

    /// To a row and a column, or to the last ones.
    #[tactic(auto, unfolding(crate::specs::Motions::placed))]
    pub(crate) fn place(&mut self, row: usize, column: usize)
        requires row { row < 256 }
        ensures value { self.new ≡ placed row column self.old }
        ensures size { SameSize self.old self.new }
    {
        let row = if self.cursor.is_origin {
            (self.top + row).min(self.bottom)
        } else {
            row.min(self.lines.len() - 1)
        };
        self.move_to(row, column.min(self.columns - 1));
    }

    /// To a row and a column by their bytes.
    #[tactic(auto, unfolding(crate::specs::Motions::addressed))]
    pub(crate) fn address(&mut self, row: u8, column: u8)
        ensures value { self.new ≡ addressed row column self.old }
        ensures size { SameSize self.old self.new }
    {
        let row = self.addressed_row(row);
        let column = self.addressed_column(column);
        self.move_to(row, column);
    }

    /// The row by its byte.
    fn addressed_row(&self, byte: u8) -> usize
        ensures value { result ≡ addressed_row byte self.now }
        ensures within { result < length self.now.lines }
    {
        if byte >= 0x20 && usize::from(byte - 0x20) < self.lines.len() {
            usize::from(byte - 0x20)
        } else {
            self.cursor.row
        }
    }

    /// The column by its byte.
    fn addressed_column(&self, byte: u8) -> usize
        ensures value { result ≡ addressed_column byte self.now }
        ensures within { result < self.now.columns }
    {
        if byte >= 0x20 && usize::from(byte - 0x20) < self.columns {
            usize::from(byte - 0x20)
        } else {
            self.column_past_edge()
        }
    }

    /// The column for one that the screen has not.
    fn column_past_edge(&self) -> usize
        ensures value { result ≡ column_past_edge self.now.terminal self.now }
        ensures within { result < self.now.columns }
    {
        match self.terminal {
            TerminalKind::Vt52 => self.columns - 1,
            _ => self.cursor.column,
        }
    }

    /// To the next tab stop, or the last column.
    #[tactic(auto, unfolding(crate::specs::Motions::tabbed))]
    pub(crate) fn tab(&mut self)
        ensures value { self.new ≡ tabbed self.old }
        ensures size { SameSize self.old self.new }
    {
        let after = self.cursor.column + 1;
        let column = match first_stop(&self.tabs[after..self.columns]) {
            Some(distance) => after + distance,
            None => self.columns - 1,
        };
        self.move_to(self.cursor.row, column);
    }

    /// To the next column that is a multiple of 8; near the end of the line by one column.
    #[tactic(auto, unfolding(crate::specs::Motions::tabbed_by_eight))]
    pub(crate) fn tab_by_eight(&mut self)
        ensures value { self.new ≡ tabbed_by_eight self.old }
        ensures size { SameSize self.old self.new }
    {
        let next = self.cursor.column / 8 * 8 + 8;
        let column = if next < self.columns {
            next
        } else {
            (self.cursor.column + 1).min(self.columns - 1)
        };
        self.move_to(self.cursor.row, column);
    }
}

/// The place of the first tab stop.
fn first_stop(stops: &[bool]) -> Option<usize>
    ensures value { result ≡ position (λ stop. stop) stops.now }
    ensures within { MatchOption result (Unit {0}) (λ place. place < length stops.now) }
{
    stops.iter().position(|stop| *stop)
}
