//! The bytes that an ANSI terminal gets, and where they leave it.

ghost use Rattle.std.specs.Prelude.{◌≡◌, ◌<◌, ◌≤◌, ◌+◌, ◌-◌, ◌++◌, ◌∷◌, [], IfOk};
ghost use Rattle.cpm_screen.specs.Painting.{cell_bytes, digits, erase_bytes, look_bytes, look_change, move_bytes, move_change, number_if, same_look};
ghost use Rattle.cpm_screen.specs.Painting.{tail_bytes};
ghost use Rattle.cpm_screen.specs.Painting.{seen};

use crate::cell::{Attributes, PLAIN, ScreenCell};
use crate::seeing::seen;
use std::alloc::{AllocError, Global};

/// The bytes so far, and where the cursor is and which attributes are on after them.
#[derive(Drop)]
pub(crate) struct Painter {
    pub(crate) bytes: Vec<u8>,
    pub(crate) row: usize,
    pub(crate) column: usize,
    pub(crate) look: Attributes,
}

/// Whether two looks are one.
pub(crate) fn same_look(one: Attributes, other: Attributes) -> bool
    ensures { result ≡ same_look one other }
{
    one.bold == other.bold
        && one.underline == other.underline
        && one.blink == other.blink
        && one.reverse == other.reverse
}

/// Writes a number below 1000 in decimal digits.
#[tactic(auto, unfolding(crate::specs::Painting::digits))]
fn write_digits(bytes: &mut Vec<u8>, number: usize) -> Result<(), AllocError>
    requires { number < 1000 }
    ensures { IfOk result (λ _. bytes.new.items ≡ bytes.old.items ++ digits number) }
{
    let ones = b'0' + (number % 10) as u8;
    if number < 10 {
        bytes.extend_from_slice(&[b'0' + number as u8])
    } else if number < 100 {
        bytes.extend_from_slice(&[b'0' + (number / 10) as u8, ones])
    } else {
        let tens = b'0' + (number / 10 % 10) as u8;
        bytes.extend_from_slice(&[b'0' + (number / 100) as u8, tens, ones])
    }
}

/// Writes a move to a row and a column, counted from 0.
#[tactic(auto, unfolding(crate::specs::Painting::move_bytes))]
pub(crate) fn write_move(bytes: &mut Vec<u8>, row: usize, column: usize) -> Result<(), AllocError>
    requires row { row < 999 }
    requires column { column < 999 }
    ensures { IfOk result (λ _. bytes.new.items ≡ bytes.old.items ++ move_bytes row column) }
{
    bytes.extend_from_slice(&[0x1B, b'['])?;
    write_digits(bytes, row + 1)?;
    bytes.push(b';')?;
    write_digits(bytes, column + 1)?;
    bytes.extend_from_slice(b"H")
}

/// Writes `;` and a digit, if an attribute is on.
fn write_number_if(bytes: &mut Vec<u8>, on: bool, digit: u8) -> Result<(), AllocError>
    ensures { IfOk result (λ _. bytes.new.items ≡ bytes.old.items ++ number_if on digit) }
{
    if on {
        bytes.extend_from_slice(&[b';', digit])
    } else {
        Ok(())
    }
}

/// Writes attributes.
#[tactic(auto, unfolding(crate::specs::Painting::look_bytes))]
pub(crate) fn write_look(bytes: &mut Vec<u8>, look: Attributes) -> Result<(), AllocError>
    ensures { IfOk result (λ _. bytes.new.items ≡ bytes.old.items ++ look_bytes look) }
{
    bytes.extend_from_slice(&[0x1B, b'[', b'0'])?;
    write_number_if(bytes, look.bold, b'1')?;
    write_number_if(bytes, look.underline, b'4')?;
    write_number_if(bytes, look.blink, b'5')?;
    write_number_if(bytes, look.reverse, b'7')?;
    bytes.extend_from_slice(b"m")
}

impl Painter {
    /// No byte yet, with the cursor at a row and a column and no attribute on.
    pub(crate) fn at(alloc: Global, row: usize, column: usize) -> Painter
        ensures bytes { result.bytes.items ≡ [] }
        ensures row { result.row ≡ row }
        ensures column { result.column ≡ column }
        ensures look { result.look ≡ PLAIN }
    {
        Painter {
            bytes: Vec::new(alloc),
            row,
            column,
            look: PLAIN,
        }
    }

    /// Moves the cursor, if it isn't there.
    #[tactic(auto, unfolding(crate::specs::Painting::move_change))]
    pub(crate) fn go(&mut self, row: usize, column: usize) -> Result<(), AllocError>
        requires row { row < 999 }
        requires column { column < 999 }
        ensures { IfOk result (λ _. (self.new.bytes.items ≡ self.old.bytes.items ++ move_change self.old.row self.old.column row column)
            × (self.new.row ≡ row) × (self.new.column ≡ column) × (self.new.look ≡ self.old.look)) }
    {
        if self.row != row || self.column != column {
            write_move(&mut self.bytes, row, column)?;
            self.row = row;
            self.column = column;
        }
        Ok(())
    }

    /// Turns attributes on and off, if they aren't so.
    #[tactic(auto, unfolding(crate::specs::Painting::look_change))]
    pub(crate) fn wear(&mut self, look: Attributes) -> Result<(), AllocError>
        ensures { IfOk result (λ _. (self.new.bytes.items ≡ self.old.bytes.items ++ look_change self.old.look look)
            × (self.new.row ≡ self.old.row) × (self.new.column ≡ self.old.column) × (self.new.look ≡ look)) }
    {
        if !same_look(self.look, look) {
            write_look(&mut self.bytes, look)?;
            self.look = look;
        }
        Ok(())
    }

    /// Paints a cell.
    #[tactic(auto, unfolding(crate::specs::Painting::seen))]
    pub(crate) fn cell(
        &mut self,
        row: usize,
        column: usize,
        cell: ScreenCell,
    ) -> Result<(), AllocError>
        requires row { row < 999 }
        requires column { column < 999 }
        ensures { IfOk result (λ _.
            (self.new.bytes.items ≡ self.old.bytes.items ++ cell_bytes self.old.row self.old.column self.old.look row column (seen cell))
            × (self.new.row ≡ row) × (self.new.column ≡ column + 1) × (self.new.look ≡ cell.attributes)) }
    {
        let cell = seen(cell);
        self.go(row, column)?;
        self.wear(cell.attributes)?;
        self.bytes.push(cell.character)?;
        self.column = column + 1;
        Ok(())
    }

    /// Erases a row from a column on.
    pub(crate) fn erase(&mut self, row: usize, column: usize) -> Result<(), AllocError>
        requires row { row < 999 }
        requires column { column < 999 }
        ensures { IfOk result (λ _. (self.new.bytes.items ≡ self.old.bytes.items ++ tail_bytes self.old.row self.old.column self.old.look row column)
            × (self.new.row ≡ row) × (self.new.column ≡ column) × (self.new.look ≡ PLAIN)) }
    {
        self.go(row, column)?;
        self.wear(PLAIN)?;
        self.bytes.extend_from_slice(&[0x1B, b'[', b'K'])
    }
}
