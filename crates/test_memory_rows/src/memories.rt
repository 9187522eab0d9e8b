//! Rows of memories: a flat one, and tables over a store of shared frames.

use crate::memory_lines::{page_count, use_memory};
use cpm_memory::{FlatMemory, FrameStore, MOST_FRAMES, MemError, Memory, TableId};
use std::alloc::{AllocError, Global};
use test_language::{RowAnswer, RowFault, RowLine, Scene, Word, address, byte, count, number};

/// A flat memory, and a store with the tables that were taken of it, in order.
#[derive(Drop)]
pub struct Memories {
    flat: Option<FlatMemory>,
    store: Option<FrameStore>,
    tables: Vec<TableId>,
}

impl Scene for Memories {
    fn new(alloc: Global) -> Result<Memories, AllocError> {
        Ok(Memories {
            flat: None,
            store: None,
            tables: Vec::new(alloc),
        })
    }

    fn is_alone(verb: &str) -> bool {
        matches!(verb, "used" | "taken")
    }

    fn takes_text(_verb: &str) -> bool {
        false
    }

    fn act(&mut self, alloc: Global, line: &RowLine<'_>) -> Result<RowAnswer, RowFault> {
        let arguments = line.arguments();
        match line.verb() {
            "flat" => self.flat(alloc, arguments),
            "frames" => self.frames(alloc, arguments),
            "reserve" => self.reserve(alloc, arguments),
            "share" => self.share(alloc, arguments),
            "release" => self.release(arguments),
            verb => self.act_on_bytes(alloc, verb, arguments),
        }
    }
}

impl Memories {
    /// Does a line about the bytes of the flat memory or of a table, or one that asks the store.
    fn act_on_bytes(
        &mut self,
        alloc: Global,
        verb: &str,
        arguments: &[Word<'_>],
    ) -> Result<RowAnswer, RowFault> {
        match verb {
            "set" | "get" | "pages" | "stamp" => self.memory(alloc, verb, arguments),
            "place" | "frame" => self.place(alloc, verb, arguments),
            "reflect" => self.reflect(arguments),
            "put-back" => self.put_back(arguments),
            _ => self.ask(alloc, verb, arguments),
        }
    }

    /// `flat`, or `flat PAGES`.
    fn flat(&mut self, alloc: Global, arguments: &[Word<'_>]) -> Result<RowAnswer, RowFault> {
        self.flat = Some(new_flat(alloc, arguments)?);
        Ok(RowAnswer::Done)
    }

    /// `frames N`.
    fn frames(&mut self, alloc: Global, arguments: &[Word<'_>]) -> Result<RowAnswer, RowFault> {
        let [frames] = arguments else {
            return Err(RowFault::Words);
        };
        self.store = Some(new_store(alloc, *frames)?);
        Ok(RowAnswer::Done)
    }

    /// The table of a number.
    fn table(&self, word: Word<'_>) -> Result<TableId, RowFault> {
        self.tables
            .get(count(word)?)
            .copied()
            .ok_or(RowFault::Absent)
    }

    /// Keeps a table that was taken, and answers its number.
    fn keep(
        &mut self,
        alloc: Global,
        table: Result<TableId, MemError>,
    ) -> Result<RowAnswer, RowFault> {
        match table {
            Ok(table) => {
                let place = self.tables.len();
                self.tables.push(table)?;
                RowAnswer::words(alloc, place)
            }
            Err(error) => RowAnswer::refused(alloc, error),
        }
    }

    /// `reserve PAGES`.
    fn reserve(&mut self, alloc: Global, arguments: &[Word<'_>]) -> Result<RowAnswer, RowFault> {
        let [pages] = arguments else {
            return Err(RowFault::Words);
        };
        let pages = page_count(*pages)?;
        let Some(store) = &mut self.store else {
            return Err(RowFault::Absent);
        };
        if store.taken() >= 64 {
            return Err(RowFault::Unready);
        }
        let table = store.reserve(pages);
        self.keep(alloc, table)
    }

    /// `share TABLE`.
    fn share(&mut self, alloc: Global, arguments: &[Word<'_>]) -> Result<RowAnswer, RowFault> {
        let [table] = arguments else {
            return Err(RowFault::Words);
        };
        let table = self.table(*table)?;
        let Some(store) = &mut self.store else {
            return Err(RowFault::Absent);
        };
        if store.taken() >= 64 || !store.is_taken(table) {
            return Err(RowFault::Unready);
        }
        let shared = store.share(table);
        self.keep(alloc, shared)
    }

    /// `release TABLE`.
    fn release(&mut self, arguments: &[Word<'_>]) -> Result<RowAnswer, RowFault> {
        let [table] = arguments else {
            return Err(RowFault::Words);
        };
        let table = self.table(*table)?;
        let Some(store) = &mut self.store else {
            return Err(RowFault::Absent);
        };
        if !store.is_taken(table) {
            return Err(RowFault::Unready);
        }
        store.release(table);
        Ok(RowAnswer::Done)
    }

    /// A line about the flat memory or that of a table, which its first word names.
    fn memory(
        &mut self,
        alloc: Global,
        verb: &str,
        arguments: &[Word<'_>],
    ) -> Result<RowAnswer, RowFault> {
        let [name, rest @ ..] = arguments else {
            return Err(RowFault::Words);
        };
        if name.text != "flat" {
            return self.table_memory(alloc, verb, *name, rest);
        }
        match &mut self.flat {
            Some(flat) => use_memory(alloc, flat, verb, rest),
            None => Err(RowFault::Absent),
        }
    }

    /// A line about the memory of a table.
    fn table_memory(
        &mut self,
        alloc: Global,
        verb: &str,
        name: Word<'_>,
        arguments: &[Word<'_>],
    ) -> Result<RowAnswer, RowFault> {
        let table = self.table(name)?;
        match &mut self.store {
            Some(store) if store.is_taken(table) => {
                use_memory(alloc, &mut store.view(table), verb, arguments)
            }
            _ => Err(RowFault::Absent),
        }
    }

    /// `place TABLE PAGE`, or `frame TABLE PAGE OFFSET`.
    fn place(
        &mut self,
        alloc: Global,
        verb: &str,
        arguments: &[Word<'_>],
    ) -> Result<RowAnswer, RowFault> {
        let [table, page, offset @ ..] = arguments else {
            return Err(RowFault::Words);
        };
        let table = self.table(*table)?;
        match &self.store {
            Some(store) if verb == "place" => place_of(alloc, store, table, *page, offset),
            Some(store) => frame_byte(alloc, store, table, *page, offset),
            None => Err(RowFault::Absent),
        }
    }

    /// `reflect TABLE`.
    fn reflect(&mut self, arguments: &[Word<'_>]) -> Result<RowAnswer, RowFault> {
        let [table] = arguments else {
            return Err(RowFault::Words);
        };
        let table = self.table(*table)?;
        let (Some(flat), Some(store)) = (&mut self.flat, &self.store) else {
            return Err(RowFault::Absent);
        };
        if !store.is_taken(table) {
            return Err(RowFault::Absent);
        }
        flat.reflect(store, table);
        Ok(RowAnswer::Done)
    }

    /// `put-back TABLE ADDRESS BYTE`.
    fn put_back(&mut self, arguments: &[Word<'_>]) -> Result<RowAnswer, RowFault> {
        let [table, at, value] = arguments else {
            return Err(RowFault::Words);
        };
        let (at, value) = (address(*at)?, byte(*value)?);
        let table = self.table(*table)?;
        match (&mut self.flat, &mut self.store) {
            (Some(flat), Some(store)) => set_by_flat(flat, store, table, at, value),
            _ => Err(RowFault::Absent),
        }
    }

    /// A line that asks the store.
    fn ask(
        &self,
        alloc: Global,
        verb: &str,
        arguments: &[Word<'_>],
    ) -> Result<RowAnswer, RowFault> {
        let Some(store) = &self.store else {
            return Err(RowFault::Unknown);
        };
        match arguments {
            [] if verb == "used" => RowAnswer::words(alloc, store.used()),
            [] if verb == "taken" => RowAnswer::words(alloc, store.taken()),
            [table] => self.ask_table(alloc, store, verb, *table),
            [table, page] if verb == "page-stamp" => {
                let table = self.table(*table)?;
                RowAnswer::words(alloc, store.page_stamp(table, byte(*page)?))
            }
            _ => Err(RowFault::Unknown),
        }
    }

    /// A line that asks the store about a table.
    fn ask_table(
        &self,
        alloc: Global,
        store: &FrameStore,
        verb: &str,
        table: Word<'_>,
    ) -> Result<RowAnswer, RowFault> {
        let pages = match verb {
            "pages-written" => store.pages_written(self.table(table)?),
            "pages-reserved" => store.pages_reserved(self.table(table)?),
            _ => return Err(RowFault::Unknown),
        };
        RowAnswer::words(alloc, pages)
    }
}

/// A flat memory, of which all pages may be written, or so many.
fn new_flat(alloc: Global, arguments: &[Word<'_>]) -> Result<FlatMemory, RowFault> {
    match arguments {
        [] => Ok(FlatMemory::new(alloc)?),
        [pages] => Ok(FlatMemory::with_limit(alloc, page_count(*pages)?)?),
        _ => Err(RowFault::Words),
    }
}

/// A store of so many frames.
fn new_store(alloc: Global, frames: Word<'_>) -> Result<FrameStore, RowFault> {
    let frames = number(frames)?;
    if frames > u64::from(MOST_FRAMES) {
        return Err(RowFault::Unready);
    }
    Ok(FrameStore::new(alloc, frames as u16)?)
}

/// The frame of a page of a table, where no word stands behind.
fn place_of(
    alloc: Global,
    store: &FrameStore,
    table: TableId,
    page: Word<'_>,
    rest: &[Word<'_>],
) -> Result<RowAnswer, RowFault> {
    if !store.is_taken(table) {
        return Err(RowFault::Absent);
    }
    let place = store.place(table, byte(page)?);
    if !rest.is_empty() {
        return Err(RowFault::Words);
    }
    RowAnswer::words(alloc, place)
}

/// A byte of the frame of a page of a table.
fn frame_byte(
    alloc: Global,
    store: &FrameStore,
    table: TableId,
    page: Word<'_>,
    offset: &[Word<'_>],
) -> Result<RowAnswer, RowFault> {
    if !store.is_taken(table) {
        return Err(RowFault::Absent);
    }
    let place = store.place(table, byte(page)?);
    let [offset] = offset else {
        return Err(RowFault::Words);
    };
    match store.frame(place).get(usize::from(byte(*offset)?)) {
        Some(byte) => RowAnswer::byte(alloc, *byte),
        None => Err(RowFault::Unready),
    }
}

/// Stores a byte in the memory of a table by way of the flat one.
fn set_by_flat(
    flat: &mut FlatMemory,
    store: &mut FrameStore,
    table: TableId,
    at: u16,
    value: u8,
) -> Result<RowAnswer, RowFault> {
    if !store.is_taken(table) {
        return Err(RowFault::Absent);
    }
    flat.reflect(store, table);
    if flat.room() == 0 {
        return Err(RowFault::Unready);
    }
    flat.set(at, value);
    store.put_back(table, flat);
    Ok(RowAnswer::Done)
}
