//! A screen as far as a terminal shows it that may be too small.

ghost use Rattle.std.specs.Prelude.{◌≡◌, ◌<◌, ◌≤◌, ◌-◌, ◌++◌, ◌∷◌, [], length, take};
ghost use Rattle.cpm_screen.specs.Painted.{cursor_within, cut_screen, fitted, notice, text_row};
ghost use Rattle.cpm_screen.specs.Painting.{seen_screen};

use crate::cell::{CharacterSet, PLAIN, ScreenCell};
use crate::cursor::Cursor;
use crate::row::ScreenRow;
use crate::screen::TextScreen;

impl ScreenRow {
    /// Becomes a text without attributes, and blank behind it.
    fn write(&mut self, text: &[u8])
        requires { length text.now ≤ 132 }
        ensures { self.new ≡ text_row text.now }
    {
        self.clear();
        for column in 0..text.len() {
            let cell = ScreenCell {
                character: text[column],
                set: CharacterSet::Ascii,
                attributes: PLAIN,
            };
            self.put(column, cell);
        }
    }

    /// Becomes the line of a terminal that is too small.
    #[tactic(auto, unfolding(crate::specs::Painted::notice))]
    fn notice(&mut self)
        ensures { self.new ≡ text_row notice }
    {
        self.write(b"cpmhost: this terminal shows a part of a screen of 24 rows by 80 columns");
    }
}

/// Where a cursor is shown that may be beyond the end of so many rows and columns.
fn cursor_within(rows: usize, columns: usize, cursor: Cursor) -> Cursor
    requires rows { 0 < rows }
    requires columns { 0 < columns }
    ensures value { result ≡ cursor_within rows columns cursor }
    ensures row { result.row < rows }
    ensures column { result.column < columns }
{
    Cursor {
        row: cursor.row.min(rows - 1),
        column: cursor.column.min(columns - 1),
        ..cursor
    }
}

/// Rows become the first of others, as many as they are, and the last of them says so.
fn cut_rows(rows: &mut [ScreenRow], others: &[ScreenRow])
    requires some { 0 < length rows.old }
    requires fewer { length rows.old ≤ length others.now }
    ensures { rows.new ≡ take (length rows.old - 1) others.now ++ text_row notice ∷ [] }
{
    let last = rows.len() - 1;
    for place in 0..last {
        let row = &mut rows[place];
        row.copy_from(&others[place]);
    }
    let row = &mut rows[last];
    row.notice();
}

impl TextScreen {
    /// Becomes the first rows and columns of a screen, as many as it has, with a line that says so in the last of them.
    #[tactic(auto, unfolding(crate::specs::Painted::cut_screen, crate::specs::Painting::seen_screen, crate::specs::Painting::seen_rows))]
    fn cut_from(&mut self, screen: &TextScreen)
        requires { length self.old.lines ≤ length screen.now.lines }
        ensures rows { length self.new.lines ≡ length self.old.lines }
        ensures columns { self.new.columns ≡ self.old.columns }
        ensures seen { seen_screen self.new ≡ seen_screen (cut_screen (length self.old.lines) self.old.columns screen.now) }
    {
        cut_rows(&mut self.lines, &screen.lines);
        self.cursor = cursor_within(self.lines.len(), self.columns, screen.cursor);
    }

    /// Becomes what a terminal of its size shows of a screen.
    #[tactic(auto, unfolding(crate::specs::Painted::fitted))]
    pub(crate) fn fit(&mut self, screen: &TextScreen)
        requires { length self.old.lines ≤ length screen.now.lines }
        ensures rows { length self.new.lines ≡ length self.old.lines }
        ensures columns { self.new.columns ≡ self.old.columns }
        ensures seen { seen_screen self.new ≡ fitted (length self.old.lines) self.old.columns screen.now }
    {
        if screen.lines.len() == self.lines.len() && screen.columns == self.columns {
            self.copy_from(screen);
        } else {
            self.cut_from(screen);
        }
    }
}
