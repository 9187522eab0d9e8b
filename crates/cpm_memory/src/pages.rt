//! The tables of a store, and their numbers.

ghost use Rattle.std.specs.Prelude.{◌≡◌, ℕ, ◌<◌, Option, Some, None, length, count_by, is_some, slice_index_or, IfOk};
ghost use Rattle.cpm_memory.specs.Stamps.{AreStamps};
ghost use Rattle.cpm_memory.specs.Frames.{is_table_taken, blank_table, AreTablesStamps, IsBlank};

use std::alloc::{AllocError, Global};
use std::marker::Model;

/// The number of a table.
#[derive(Clone, Copy, Debug, PartialEq, Eq)]
pub struct TableId {
    index: u8,
}

impl Model for TableId {
    ghost use Rattle.std.specs.Prelude.{ℕ, ◌<◌};

    ghost Value = { ℕ };

    ghost view = { λ t. t.index };

    ghost invariant = { λ t. t.index < 64 };

    ghost inverse = { λ n. record { index = n } };
}

impl TableId {
    /// The table of a place among the 64.
    pub(crate) fn at(index: usize) -> TableId
        requires { index < 64 }
        ensures { result ≡ index }
    {
        TableId { index: index as u8 }
    }

    /// Its place among the 64.
    pub(crate) fn index(self) -> usize
        ensures index { result ≡ self }
        ensures within { result < 64 }
    {
        self.index as usize
    }
}

/// A table: for each page of a memory its private frame, if it has one, and how many it may have.
#[derive(Drop)]
pub struct PageTable {
    places: [Option<u16>; 256],
    used: u16,
    reservation: Option<u16>,
}

impl Model for PageTable {
    ghost use Rattle.std.specs.Prelude.{◌≡◌, length, count_by, is_some};
    ghost use Rattle.cpm_memory.specs.Frames.{Table};

    ghost Value = { Table };

    ghost view = { λ t. record { places = t.places; reservation = t.reservation } };

    ghost invariant = { λ t. (length t.places ≡ 256) × (t.used ≡ count_by is_some t.places) };
}

impl PageTable {
    ghost use Rattle.cpm_memory.specs.Frames.{used_by, reserved_by, IsBlank};
    ghost use Rattle.cpm_memory.specs.Kept.{table_with_frame};

    /// A table that is not taken.
    pub fn new() -> PageTable
        ensures { IsBlank result }
    {
        PageTable {
            places: [None; 256],
            used: 0,
            reservation: None,
        }
    }

    /// The private frame of a page.
    pub fn place(&self, page: u8) -> Option<u16>
        ensures place { result ≡ slice_index_or self.now.places page None }
        ensures pages { length self.now.places ≡ 256 }
    {
        self.places[page as usize]
    }

    /// How many pages have a private frame.
    pub fn used(&self) -> u16
        ensures { result ≡ used_by self.now }
    {
        self.used
    }

    /// How many private frames its pages may have, while it is taken.
    pub fn reservation(&self) -> Option<u16>
        ensures { result ≡ self.now.reservation }
    {
        self.reservation
    }

    /// Makes a page of a private frame.
    pub fn put(&mut self, page: u8, frame: u16)
        requires { slice_index_or self.old.places page None ≡ None }
        ensures { self.new ≡ table_with_frame self.old page (Some frame) }
    {
        self.used += 1;
        self.places[page as usize] = Some(frame);
    }

    /// Makes a page of its boot frame, and answers the frame that it had.
    pub fn clear(&mut self, page: u8) -> Option<u16>
        ensures place { result ≡ slice_index_or self.old.places page None }
        ensures cleared { self.new ≡ table_with_frame self.old page None }
    {
        let place = self.places[page as usize];
        if place.is_some() {
            self.used -= 1;
            self.places[page as usize] = None;
        }
        place
    }

    /// Takes the table, of which so many pages may get private frames.
    pub fn reserve(&mut self, pages: u16)
        ensures { self.new ≡ record self.old { reservation = Some pages } }
    {
        self.reservation = Some(pages);
    }

    /// Gives the table up, and answers how many frames it had reserved.
    pub fn give_up(&mut self) -> u16
        ensures pages { result ≡ reserved_by self.old }
        ensures given { self.new ≡ record self.old { reservation = None } }
    {
        self.reservation.take().unwrap_or(0)
    }
}

/// The 64 tables, of which none is taken.
pub fn new_tables(alloc: Global) -> Result<Vec<PageTable>, AllocError>
    ensures count { IfOk result (λ tables. length tables.items ≡ 64) }
    ensures blank { IfOk result (λ tables. (k : ℕ) → k < 64 → IsBlank (slice_index_or tables.items k blank_table)) }
{
    let mut tables = Vec::with_capacity(alloc, 64)?;
    for _table in 0..64u8 {
        tables.push(PageTable::new())?;
    }
    Ok(tables)
}

/// The stamps of pages that were never stored to.
pub fn page_stamps() -> [u64; 256]
    ensures { AreStamps result }
{
    [0; 256]
}

/// The stamps of the pages of 64 tables.
pub fn new_stamps(alloc: Global) -> Result<Vec<[u64; 256]>, AllocError>
    ensures { IfOk result (λ stamps. AreTablesStamps stamps.items) }
{
    let mut stamps = Vec::with_capacity(alloc, 64)?;
    for _table in 0..64u8 {
        stamps.push(page_stamps())?;
    }
    Ok(stamps)
}

/// The first table that is not taken.
pub fn find_free_table(tables: &[PageTable]) -> usize
    requires { count_by is_table_taken tables.now < length tables.now }
    ensures within { result < length tables.now }
    ensures blank { (slice_index_or tables.now result blank_table).reservation ≡ None }
{
    for (index, table) in tables.iter().enumerate() {
        if table.reservation().is_none() {
            return index;
        }
    }
    unreachable!()
}

/// How many tables are taken.
pub fn count_taken(tables: &[PageTable]) -> usize
    ensures { result ≡ count_by is_table_taken tables.now }
{
    tables
        .iter()
        .filter(|table| table.reservation().is_some())
        .count()
}
