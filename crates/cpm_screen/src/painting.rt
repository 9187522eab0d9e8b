//! A screen that is painted over another, on an ANSI terminal.

ghost use Rattle.std.specs.Prelude.{◌≡◌, ◌<◌, ◌≤◌, ◌+◌, ◌++◌, List, ℕ, length, take, slice_index_or, [], IfOk, IfErr};
ghost use Rattle.cpm_screen.specs.Painting.{HasPainted, Paints};

use crate::cell::PLAIN;
use crate::painter::Painter;
use crate::screen::TextScreen;
use crate::seeing::{looks_same, text_end};
use std::alloc::{AllocError, Global};

impl Painter {
    /// Paints what differs in a row: cells, and what is erased after the last that is seen.
    fn row(&mut self, before: &TextScreen, after: &TextScreen, row: usize) -> Result<(), AllocError>
        requires columns { before.now.columns ≡ after.now.columns }
        requires in_before { row < length before.now.lines }
        requires in_after { row < length after.now.lines }
        requires so_far { HasPainted row before.now after.now self.old }
        ensures { IfOk result (λ _. HasPainted (row + 1) before.now after.now self.new) }
    {
        let from = before.line(row);
        let to = after.line(row);
        let old_end = text_end(from);
        let end = text_end(to);
        for column in 0..end {
            if !looks_same(from[column], to[column]) {
                self.cell(row, column, to[column])?;
            }
        }
        if end < old_end {
            self.erase(row, end)?;
        }
        Ok(())
    }

    /// Paints what differs in the rows.
    fn rows(&mut self, before: &TextScreen, after: &TextScreen) -> Result<(), AllocError>
        requires columns { before.now.columns ≡ after.now.columns }
        requires rows { length before.now.lines ≡ length after.now.lines }
        requires so_far { HasPainted 0 before.now after.now self.old }
        ensures { IfOk result (λ _. HasPainted (length after.now.lines) before.now after.now self.new) }
    {
        for row in 0..after.rows() {
            self.row(before, after, row)?;
        }
        Ok(())
    }
}

/// The bytes that turn the one screen into the other on an ANSI terminal.
fn painted(alloc: Global, before: &TextScreen, after: &TextScreen) -> Result<Vec<u8>, AllocError>
    requires columns { before.now.columns ≡ after.now.columns }
    requires rows { length before.now.lines ≡ length after.now.lines }
    ensures { IfOk result (λ bytes. Paints bytes.items before.now after.now) }
{
    let old = before.cursor();
    let mut painter = Painter::at(alloc, old.row, old.column);
    painter.rows(before, after)?;
    let new = after.cursor();
    painter.go(new.row, new.column)?;
    painter.wear(PLAIN)?;
    Ok(painter.bytes)
}

/// Appends the bytes that turn the one screen into the other, which is as large, on an ANSI terminal of this size or a larger one: only what
/// differs, in moves, erased ends of lines, attributes and characters of 20h to 7Eh. Refused if out of memory; then nothing is appended.
pub fn paint(
    alloc: Global,
    before: &TextScreen,
    after: &TextScreen,
    out: &mut Vec<u8>,
) -> Result<(), AllocError>
    requires columns { before.now.columns ≡ after.now.columns }
    requires rows { length before.now.lines ≡ length after.now.lines }
    ensures painted { IfOk result (λ _. (bytes : List ℕ) × (out.new.items ≡ out.old.items ++ bytes) × Paints bytes before.now after.now) }
    ensures refused { IfErr result (λ _. out.new.items ≡ out.old.items) }
{
    let bytes = painted(alloc, before, after)?;
    out.extend_from_slice(&bytes)
}
