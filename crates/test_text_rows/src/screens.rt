//! Screens: what bytes show on a terminal, and the bytes that paint it.

use crate::screen_keys::{arrows_named, machine_keys};
use cpm_screen::{
    Arrows, Attributes, CharacterSet, ScreenCell, ScreenError, TerminalKind, TextScreen,
    USUAL_COLUMNS, USUAL_ROWS, paint,
};
use std::alloc::{AllocError, Global};
use test_language::{RowAnswer, RowFault, RowLine, Scene, Word, bytes_of, count};

/// A screen, what it was before, and what arrows send.
#[derive(Drop)]
pub struct Screens {
    screen: Option<TextScreen>,
    kept: Option<TextScreen>,
    arrows: Arrows,
}

impl Scene for Screens {
    fn new(_alloc: Global) -> Result<Screens, AllocError> {
        Ok(Screens {
            screen: None,
            kept: None,
            arrows: Arrows::Own,
        })
    }

    fn is_alone(verb: &str) -> bool {
        matches!(verb, "text" | "cursor" | "size" | "keep" | "paint")
    }

    fn takes_text(_verb: &str) -> bool {
        false
    }

    fn act(&mut self, alloc: Global, line: &RowLine<'_>) -> Result<RowAnswer, RowFault> {
        match line.verb() {
            "screen" => self.begin(alloc, line.arguments()),
            "show" => self.show(alloc, line.arguments()),
            "keep" => self.keep(alloc),
            "paint" => self.paint(alloc),
            "arrows" => self.choose_arrows(line.arguments()),
            _ => self.ask(alloc, line),
        }
    }
}

impl Screens {
    /// `screen TERMINAL`, `screen TERMINAL ROWS COLUMNS`: a terminal that was just turned on.
    fn begin(&mut self, alloc: Global, arguments: &[Word<'_>]) -> Result<RowAnswer, RowFault> {
        let (name, rows, columns) = match arguments {
            [name] => (*name, USUAL_ROWS, USUAL_COLUMNS),
            [name, rows, columns] => (*name, count(*rows)?, count(*columns)?),
            _ => return Err(RowFault::Words),
        };
        match TextScreen::new(alloc, terminal_named(name.text)?, rows, columns) {
            Ok(screen) => {
                self.screen = Some(screen);
                Ok(RowAnswer::Done)
            }
            Err(ScreenError::OutOfMemory) => Err(RowFault::OutOfMemory),
            Err(error) => RowAnswer::refused(alloc, error),
        }
    }

    /// `show BYTES`: shows them.
    fn show(&mut self, alloc: Global, arguments: &[Word<'_>]) -> Result<RowAnswer, RowFault> {
        let bytes = bytes_of(alloc, arguments)?;
        match self.screen.as_mut() {
            Some(screen) => {
                screen.show_all(bytes.as_slice());
                Ok(RowAnswer::Done)
            }
            None => Err(RowFault::Absent),
        }
    }

    /// `keep`: the screen as it is now is what is painted over.
    fn keep(&mut self, alloc: Global) -> Result<RowAnswer, RowFault> {
        let copy = self.shown()?.copy(alloc)?;
        self.kept = Some(copy);
        Ok(RowAnswer::Done)
    }

    /// `paint`: the bytes that turn the screen that was kept into the one that is.
    fn paint(&self, alloc: Global) -> Result<RowAnswer, RowFault> {
        match self.kept.as_ref() {
            Some(before) => painted(alloc, before, self.shown()?),
            None => Err(RowFault::Absent),
        }
    }

    /// `arrows NAME`: what arrows send from here on.
    fn choose_arrows(&mut self, arguments: &[Word<'_>]) -> Result<RowAnswer, RowFault> {
        let [name] = arguments else {
            return Err(RowFault::Words);
        };
        self.arrows = arrows_named(name.text)?;
        Ok(RowAnswer::Done)
    }

    /// What only asks.
    fn ask(&self, alloc: Global, line: &RowLine<'_>) -> Result<RowAnswer, RowFault> {
        match line.verb() {
            "row" => row_of(alloc, self.shown()?, line.arguments()),
            "cell" => cell_of(alloc, self.shown()?, line.arguments()),
            "text" => Ok(RowAnswer::Bytes(text_of(alloc, self.shown()?)?)),
            "cursor" => cursor_of(alloc, self.shown()?),
            "size" => size_of(alloc, self.shown()?),
            "cuts" => cuts_show_nothing(alloc, self.shown()?, line.arguments()),
            "press" => machine_keys(alloc, self.arrows, line.arguments()),
            _ => Err(RowFault::Unknown),
        }
    }

    /// The screen.
    fn shown(&self) -> Result<&TextScreen, RowFault> {
        match self.screen.as_ref() {
            Some(screen) => Ok(screen),
            None => Err(RowFault::Absent),
        }
    }
}

/// The terminal of a name.
pub(crate) fn terminal_named(name: &str) -> Result<TerminalKind, RowFault> {
    match name {
        "adm3a" => Ok(TerminalKind::Adm3a),
        "kaypro" => Ok(TerminalKind::Kaypro),
        "televideo" => Ok(TerminalKind::Televideo),
        "vt52" => Ok(TerminalKind::Vt52),
        "vt100" => Ok(TerminalKind::Vt100),
        _ => Err(RowFault::Words),
    }
}

/// The bytes that turn the one screen into the other, which must be as large.
fn painted(alloc: Global, before: &TextScreen, after: &TextScreen) -> Result<RowAnswer, RowFault> {
    if before.rows() != after.rows() || before.columns() != after.columns() {
        return Err(RowFault::Unready);
    }
    let mut bytes = Vec::new(alloc);
    paint(alloc, before, after, &mut bytes)?;
    Ok(RowAnswer::Bytes(bytes))
}

/// The cells of a row.
fn cells_of(screen: &TextScreen, row: usize) -> Result<&[ScreenCell], RowFault> {
    match screen.row(row) {
        Some(cells) => Ok(cells),
        None => Err(RowFault::Absent),
    }
}

/// The cells before the spaces at the end.
fn without_spaces(cells: &[ScreenCell]) -> &[ScreenCell] {
    let mut rest = cells;
    for _ in 0..cells.len() {
        match rest.split_last() {
            Some((last, before)) if last.character == b' ' => rest = before,
            _ => return rest,
        }
    }
    rest
}

/// Adds the characters of cells, without the spaces at the end.
fn add_row(out: &mut Vec<u8>, cells: &[ScreenCell]) -> Result<(), AllocError> {
    for cell in without_spaces(cells) {
        out.push(cell.character)?;
    }
    Ok(())
}

/// `row N`: the characters of a row, without the spaces at its end.
fn row_of(
    alloc: Global,
    screen: &TextScreen,
    arguments: &[Word<'_>],
) -> Result<RowAnswer, RowFault> {
    let [row] = arguments else {
        return Err(RowFault::Words);
    };
    let mut out = Vec::new(alloc);
    add_row(&mut out, cells_of(screen, count(*row)?)?)?;
    Ok(RowAnswer::Bytes(out))
}

/// `text`: the rows, each as a line without the spaces at its end.
fn text_of(alloc: Global, screen: &TextScreen) -> Result<Vec<u8>, RowFault> {
    let mut out = Vec::new(alloc);
    for row in 0..screen.rows() {
        add_row(&mut out, cells_of(screen, row)?)?;
        out.push(b'\n')?;
    }
    Ok(out)
}

/// `cursor`: its row and its column.
fn cursor_of(alloc: Global, screen: &TextScreen) -> Result<RowAnswer, RowFault> {
    let cursor = screen.cursor();
    let (row, column) = (cursor.row, cursor.column);
    Ok(RowAnswer::Words(format!(in alloc; "{row} {column}")?))
}

/// `size`: how many rows and columns.
fn size_of(alloc: Global, screen: &TextScreen) -> Result<RowAnswer, RowFault> {
    let (rows, columns) = (screen.rows(), screen.columns());
    Ok(RowAnswer::Words(format!(in alloc; "{rows} {columns}")?))
}

/// Adds a word where something is so.
fn add_if(out: &mut String, holds: bool, word: &str) -> Result<(), AllocError> {
    if holds { out.push_str(word) } else { Ok(()) }
}

/// Adds the names of attributes.
fn add_look(out: &mut String, look: Attributes) -> Result<(), AllocError> {
    add_if(out, look.bold, " bold")?;
    add_if(out, look.underline, " underline")?;
    add_if(out, look.blink, " blink")?;
    add_if(out, look.reverse, " reverse")
}

/// `cell ROW COLUMN`: the byte of its character, `drawn` where it is a drawing, and its attributes.
fn cell_of(
    alloc: Global,
    screen: &TextScreen,
    arguments: &[Word<'_>],
) -> Result<RowAnswer, RowFault> {
    let [row, column] = arguments else {
        return Err(RowFault::Words);
    };
    let cells = cells_of(screen, count(*row)?)?;
    let Some(cell) = cells.get(count(*column)?) else {
        return Err(RowFault::Absent);
    };
    let character = cell.character;
    let mut out = format!(in alloc; "{character:02X}")?;
    add_if(&mut out, cell.set == CharacterSet::Drawing, " drawn")?;
    add_look(&mut out, cell.attributes)?;
    Ok(RowAnswer::Words(out))
}

/// Whether two screens have the same characters, and the cursor at the same place.
fn shows_same(alloc: Global, one: &TextScreen, other: &TextScreen) -> Result<bool, RowFault> {
    let (here, there) = (one.cursor(), other.cursor());
    let text = text_of(alloc, one)?;
    let other_text = text_of(alloc, other)?;
    Ok(
        text.as_slice() == other_text.as_slice()
            && here.row == there.row
            && here.column == there.column,
    )
}

/// `cuts BYTES`: whether these bytes show nothing before the last of them has come.
fn cuts_show_nothing(
    alloc: Global,
    screen: &TextScreen,
    arguments: &[Word<'_>],
) -> Result<RowAnswer, RowFault> {
    let bytes = bytes_of(alloc, arguments)?;
    let Some((_, first)) = bytes.split_last() else {
        return Err(RowFault::Words);
    };
    let mut cut = screen.copy(alloc)?;
    for byte in first {
        cut.show(*byte);
        if !shows_same(alloc, screen, &cut)? {
            return RowAnswer::truth(alloc, false);
        }
    }
    RowAnswer::truth(alloc, true)
}
