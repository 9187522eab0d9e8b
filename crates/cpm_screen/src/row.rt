//! Rows of cells: what is put, erased, moved up and down.

ghost use Rattle.std.specs.Prelude.{◌≡◌, ◌<◌, ◌≤◌, ◌+◌, ◌-◌, ◌*◌, [], length, IfOk, slice_index_or};
ghost use Rattle.cpm_screen.specs.Rows.{blank_row, with_cell, erased_cells, opened_cells, closed_cells, with_row};
ghost use Rattle.cpm_screen.specs.Rows.{cells_erased, cells_opened, cells_closed, erased_rows, rows_up, rows_down};

use crate::cell::{BLANK, ScreenCell};
use std::alloc::{AllocError, Global};
use std::marker::Model;

/// The most columns that a screen may have; a row has so many cells, and those past the screen's columns stay blank.
pub const MOST_COLUMNS: usize = 132;

/// A row of a screen.
#[derive(Drop)]
pub struct ScreenRow {
    cells: Box<[ScreenCell; 132]>,
}

impl Model for ScreenRow {
    ghost use Rattle.std.specs.Prelude.{◌≡◌, List, length};
    ghost use Rattle.cpm_screen.specs.declared.cell.ScreenCell.{ScreenCell};

    ghost Value = { List ScreenCell };

    ghost view = { λ r. r.cells.value };

    ghost invariant = { λ r. length r.cells.value ≡ 132 };
}

impl ScreenRow {
    /// A blank row; refused if out of memory.
    #[tactic(auto, unfolding(crate::specs::Rows::blank_row))]
    pub(crate) fn new(alloc: Global) -> Result<ScreenRow, AllocError>
        ensures { IfOk result (λ row. row ≡ blank_row) }
    {
        let cells = Box::new(alloc, [BLANK; MOST_COLUMNS])?;
        Ok(ScreenRow { cells })
    }

    /// An equal row; refused if out of memory.
    pub(crate) fn copy(&self, alloc: Global) -> Result<ScreenRow, AllocError>
        ensures { IfOk result (λ row. row ≡ self.now) }
    {
        let cells = Box::new(alloc, *self.cells)?;
        Ok(ScreenRow { cells })
    }

    /// Becomes equal to another row.
    pub(crate) fn copy_from(&mut self, other: &ScreenRow)
        ensures { self.new ≡ other.now }
    {
        *self.cells = *other.cells;
    }

    /// The cells.
    pub(crate) fn cells(&self) -> &[ScreenCell]
        ensures cells { result.now ≡ self.now }
        ensures size { length self.now ≡ 132 }
    {
        self.cells.as_slice()
    }

    /// Puts a cell in a column.
    #[inline(always)]
    pub(crate) fn put(&mut self, column: usize, cell: ScreenCell)
        requires { column < 132 }
        ensures { self.new ≡ with_cell column cell self.old }
    {
        self.cells[column] = cell;
    }

    /// Makes the cells from one column up to another, without it, blank.
    #[tactic(auto, unfolding(crate::specs::Rows::erased_cells))]
    fn erase(&mut self, from: usize, to: usize)
        requires order { from ≤ to }
        requires within { to ≤ 132 }
        ensures { self.new ≡ erased_cells from to self.old }
    {
        self.cells[from..to].fill(BLANK);
    }

    /// Makes all cells blank.
    #[tactic(auto, unfolding(crate::specs::Rows::blank_row))]
    pub(crate) fn clear(&mut self)
        ensures { self.new ≡ blank_row }
    {
        self.cells.fill(BLANK);
    }

    /// Moves the cells from a column on to the right by a number of columns, up to an end; blank ones come.
    #[tactic(auto, using(crate::proofs::RowLemmas::turning))]
    fn open(&mut self, at: usize, end: usize, count: usize)
        requires order { at + count ≤ end }
        requires within { end ≤ 132 }
        ensures { self.new ≡ opened_cells at end count self.old }
    {
        let part = &mut self.cells[at..end];
        part.rotate_right(count);
        self.erase(at, at + count);
    }

    /// Takes out a number of cells from a column on; those up to an end move to the left, and blank ones come.
    #[tactic(auto, using(crate::proofs::RowLemmas::turning))]
    fn close(&mut self, at: usize, end: usize, count: usize)
        requires order { at + count ≤ end }
        requires within { end ≤ 132 }
        ensures { self.new ≡ closed_cells at end count self.old }
    {
        let part = &mut self.cells[at..end];
        part.rotate_left(count);
        self.erase(end - count, end);
    }
}

/// Puts a cell in a column of a row.
#[inline(always)]
#[tactic(auto, unfolding(crate::specs::Rows::with_row))]
pub(crate) fn put_cell(rows: &mut [ScreenRow], row: usize, column: usize, cell: ScreenCell)
    requires row { row < length rows.old }
    requires column { column < 132 }
    ensures { rows.new ≡ with_row row (with_cell column cell) rows.old }
{
    let line = &mut rows[row];
    line.put(column, cell);
}

/// Makes cells of a row blank.
#[tactic(auto, unfolding(crate::specs::Rows::with_row))]
pub(crate) fn erase_cells(rows: &mut [ScreenRow], row: usize, from: usize, to: usize)
    requires row { row < length rows.old }
    requires order { from ≤ to }
    requires within { to ≤ 132 }
    ensures { rows.new ≡ cells_erased row from to rows.old }
{
    let line = &mut rows[row];
    line.erase(from, to);
}

/// Opens a gap in a row.
#[tactic(auto, unfolding(crate::specs::Rows::with_row))]
pub(crate) fn open_cells(rows: &mut [ScreenRow], row: usize, at: usize, end: usize, count: usize)
    requires row { row < length rows.old }
    requires order { at + count ≤ end }
    requires within { end ≤ 132 }
    ensures { rows.new ≡ cells_opened row at end count rows.old }
{
    let line = &mut rows[row];
    line.open(at, end, count);
}

/// Takes cells out of a row.
#[tactic(auto, unfolding(crate::specs::Rows::with_row))]
pub(crate) fn close_cells(rows: &mut [ScreenRow], row: usize, at: usize, end: usize, count: usize)
    requires row { row < length rows.old }
    requires order { at + count ≤ end }
    requires within { end ≤ 132 }
    ensures { rows.new ≡ cells_closed row at end count rows.old }
{
    let line = &mut rows[row];
    line.close(at, end, count);
}

/// Makes the rows from one up to another, without it, blank.
#[tactic(auto, using(crate::proofs::RowLemmas::erasing))]
pub(crate) fn erase_rows(rows: &mut [ScreenRow], from: usize, to: usize)
    requires order { from ≤ to }
    requires within { to ≤ length rows.old }
    ensures { rows.new ≡ erased_rows from to rows.old }
{
    for place in from..to {
        let line = &mut rows[place];
        line.clear();
    }
}

/// Moves the rows of a region up by a number of rows; blank ones come at its bottom.
#[tactic(auto, using(crate::proofs::RowLemmas::turning))]
pub(crate) fn move_up(rows: &mut [ScreenRow], top: usize, bottom: usize, count: usize)
    requires order { top + count ≤ bottom + 1 }
    requires within { bottom < length rows.old }
    ensures { rows.new ≡ rows_up top bottom count rows.old }
{
    let region = &mut rows[top..bottom + 1];
    region.rotate_left(count);
    erase_rows(rows, bottom + 1 - count, bottom + 1);
}

/// Moves the rows of a region down by a number of rows; blank ones come at its top.
#[tactic(auto, using(crate::proofs::RowLemmas::turning))]
pub(crate) fn move_down(rows: &mut [ScreenRow], top: usize, bottom: usize, count: usize)
    requires order { top + count ≤ bottom + 1 }
    requires within { bottom < length rows.old }
    ensures { rows.new ≡ rows_down top bottom count rows.old }
{
    let region = &mut rows[top..bottom + 1];
    region.rotate_right(count);
    erase_rows(rows, top, top + count);
}

/// Rows become equal to others.
pub(crate) fn copy_rows(rows: &mut [ScreenRow], others: &[ScreenRow])
    requires { length rows.old ≡ length others.now }
    ensures { rows.new ≡ others.now }
{
    for place in 0..others.len() {
        let row = &mut rows[place];
        row.copy_from(&others[place]);
    }
}
