//! A source beside its program.
ghost use Rattle.std.specs.Prelude.{◌≡◌, ◌-◌, ◌++◌, ◌<◌, ◌≤◌, IfOk, OnOk, drop, length, replicate, take};
ghost use Rattle.std.specs.List.{position};
ghost use Rattle.cpm_listing.specs.Digits.{hexadecimal, two_digits};
ghost use Rattle.cpm_asm.specs.Placing.{bytes_at};
ghost use Rattle.cpm_host.specs.AsmListing.{address_column, cells_at, cells_of, digits_of, front, further_rows, head};
ghost use Rattle.cpm_host.specs.AsmListing.{is_behind, later_places, left_after, line_text, own_places, row_start, source_listing};

use cpm_asm::{Assembly, Placement, first_line, source_text};
use std::alloc::{AllocError, Global};

/// What stands before a line has so many columns, a multiple of 8, so that the tabs of the line stop where they do in the source.
const COLUMNS: usize = 24;

/// So many bytes stand in a row.
const ROW: usize = 8;

/// A byte of a program, and its address.
#[derive(Clone, Copy)]
struct Cell {
    address: u16,
    byte: u8,
}

/// The bytes of an image at a place.
fn bytes_at(image: &[u8], place: Placement) -> &[u8]
    ensures { result.now ≡ bytes_at image.now place }
{
    let first = place.address.saturating_sub(0x100).min(image.len());
    let behind = image.split_at(first).1;
    behind.split_at(place.length.min(behind.len())).0
}

/// Adds bytes, of which the first has this address, and the one after FFFFh 0000h.
fn add_cells(cells: &mut Vec<Cell>, first: u16, bytes: &[u8]) -> Result<(), AllocError>
    ensures { OnOk result (cells.new.items ≡ cells.old.items ++ cells_at first bytes.now) }
{
    let mut address = first;
    for byte in bytes {
        cells.push(Cell {
            address,
            byte: *byte,
        })?;
        address = address.wrapping_add(1);
    }
    Ok(())
}

/// The bytes at places, one after another.
fn cells_of(alloc: Global, image: &[u8], places: &[Placement]) -> Result<Vec<Cell>, AllocError>
    ensures { IfOk result (λ cells. cells.items ≡ cells_of image.now places.now) }
{
    let mut cells = Vec::new(alloc);
    for place in places {
        let first = (place.address % 0x1_0000) as u16;
        add_cells(&mut cells, first, bytes_at(image, *place))?;
    }
    Ok(cells)
}

/// The digit of a number below 16.
fn digit_of(value: u8) -> u8
    requires { value < 16 }
    ensures { result ≡ hexadecimal value }
{
    if value < 10 {
        b'0' + value
    } else {
        b'A' + (value - 10)
    }
}

/// Adds a byte in two digits.
#[tactic(auto, unfolding(cpm_listing::specs::Digits::two_digits))]
fn add_byte(text: &mut Vec<u8>, byte: u8) -> Result<(), AllocError>
    ensures { OnOk result (text.new.items ≡ text.old.items ++ two_digits byte) }
{
    text.push(digit_of(byte / 16))?;
    text.push(digit_of(byte % 16))?;
    Ok(())
}

/// Adds an address in four digits, a space on each side.
#[tactic(auto, unfolding(cpm_listing::specs::Digits::four_digits))]
fn add_address(text: &mut Vec<u8>, address: u16) -> Result<(), AllocError>
    ensures { OnOk result (text.new.items ≡ text.old.items ++ address_column address) }
{
    let [high, low] = address.to_be_bytes();
    text.push(b' ')?;
    add_byte(text, high)?;
    add_byte(text, low)?;
    text.push(b' ')?;
    Ok(())
}

/// Adds bytes in two digits each.
fn add_bytes(text: &mut Vec<u8>, cells: &[Cell]) -> Result<(), AllocError>
    ensures { OnOk result (text.new.items ≡ text.old.items ++ digits_of cells.now) }
{
    for cell in cells {
        add_byte(text, cell.byte)?;
    }
    Ok(())
}

/// Adds the address of the first byte, else that of the first place, if there is one.
fn add_head(text: &mut Vec<u8>, cells: &[Cell], places: &[Placement]) -> Result<(), AllocError>
    ensures { OnOk result (text.new.items ≡ text.old.items ++ head cells.now places.now) }
{
    match (cells.first(), places.first()) {
        (Some(cell), _) => add_address(text, cell.address),
        (None, Some(place)) => add_address(text, (place.address % 0x1_0000) as u16),
        (None, None) => Ok(()),
    }
}

/// Adds spaces up to a column of what was begun at a place of the text.
fn pad(text: &mut Vec<u8>, begun: usize) -> Result<(), AllocError>
    requires { begun ≤ length text.old.items }
    ensures { OnOk result (text.new.items ≡ text.old.items ++ replicate (24 - (length text.old.items - begun)) 0x20) }
{
    let missing = COLUMNS.saturating_sub(text.len() - begun);
    for _column in 0..missing {
        text.push(b' ')?;
    }
    Ok(())
}

/// The bytes of a first row, and those after them.
fn split_row(cells: &[Cell]) -> (&[Cell], &[Cell])
    ensures row { result.0.now ≡ take 8 cells.now }
    ensures further { result.1.now ≡ drop 8 cells.now }
{
    cells.split_at(cells.len().min(ROW))
}

/// Adds what stands before a line: an address, and the first eight bytes.
fn add_front(text: &mut Vec<u8>, cells: &[Cell], places: &[Placement]) -> Result<(), AllocError>
    ensures { OnOk result (text.new.items ≡ text.old.items ++ front cells.now places.now) }
{
    let begun = text.len();
    add_head(text, cells, places)?;
    add_bytes(text, split_row(cells).0)?;
    pad(text, begun)?;
    Ok(())
}

/// Adds a byte to a row that has room for so many more, else to a new one; the room that it leaves.
fn add_cell(text: &mut Vec<u8>, left: usize, cell: Cell) -> Result<usize, AllocError>
    ensures text { OnOk result (text.new.items ≡ text.old.items ++ row_start left cell ++ two_digits cell.byte) }
    ensures left { IfOk result (λ after. after ≡ left_after left) }
{
    if left == 0 {
        text.push(b'\n')?;
        add_address(text, cell.address)?;
        add_byte(text, cell.byte)?;
        Ok(ROW - 1)
    } else {
        add_byte(text, cell.byte)?;
        Ok(left - 1)
    }
}

/// Adds bytes in rows of their own.
fn add_further_rows(text: &mut Vec<u8>, cells: &[Cell]) -> Result<(), AllocError>
    ensures { OnOk result (text.new.items ≡ text.old.items ++ further_rows 0 cells.now) }
{
    let mut left = 0;
    for cell in cells {
        left = add_cell(text, left, *cell)?;
    }
    Ok(())
}

/// Adds a line of the source with its places.
fn add_line(
    text: &mut Vec<u8>,
    alloc: Global,
    image: &[u8],
    places: &[Placement],
    line: &[u8],
) -> Result<(), AllocError>
    ensures { OnOk result (text.new.items ≡ text.old.items ++ line_text image.now places.now line.now) }
{
    let cells = cells_of(alloc, image, places)?;
    add_front(text, &cells, places)?;
    text.extend_from_slice(line)?;
    add_further_rows(text, split_row(&cells).1)?;
    text.push(b'\n')?;
    Ok(())
}

/// The first place that isn't of a line.
fn first_behind(places: &[Placement], line: u64) -> Option<usize>
    ensures { result ≡ position (is_behind line) places.now }
{
    places.iter().position(|place| place.line != line)
}

/// The places of a line, which stand at the front, and those after them.
fn split_at_line(places: &[Placement], line: u64) -> (&[Placement], &[Placement])
    ensures own { result.0.now ≡ own_places line places.now }
    ensures later { result.1.now ≡ later_places line places.now }
{
    let count = first_behind(places, line).unwrap_or(places.len());
    places.split_at(count)
}

/// The listing of a source: its lines, each after the address and the bytes of its statements.
pub(crate) fn source_listing(
    alloc: Global,
    source: &[u8],
    program: &Assembly,
) -> Result<Vec<u8>, AllocError>
    ensures { IfOk result (λ text. text.items ≡ source_listing source.now program.now.image.items program.now.places.items) }
{
    let mut text: Vec<u8> = Vec::new(alloc);
    let mut places: &[Placement] = &program.places;
    let mut rest = source_text(source);
    let mut number: u64 = 0;
    while !rest.is_empty() {
        let (line, behind) = first_line(rest);
        number += 1;
        let (own, later) = split_at_line(places, number);
        add_line(&mut text, alloc, &program.image, own, line)?;
        places = later;
        rest = behind;
    }
    Ok(text)
}
