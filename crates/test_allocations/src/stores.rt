//! The calls of a store in memory.

use crate::CallOutcome;
use cpm_host::{MemoryStore, Store, StoreError};
use std::alloc::{AllocError, Global};

/// A store with two files.
fn filled(alloc: Global) -> Result<MemoryStore, AllocError> {
    let mut store = MemoryStore::new(alloc);
    put(&mut store, "old", b"what it held")?;
    put(&mut store, "other", b"another one")?;
    Ok(store)
}

/// Writes a file before the call in question.
pub fn put(store: &mut MemoryStore, name: &str, bytes: &[u8]) -> Result<(), AllocError> {
    match store.write(name, bytes) {
        Ok(()) => Ok(()),
        Err(_) => Err(AllocError),
    }
}

/// Whether a store has a file of this name with these bytes.
pub fn holds(store: &MemoryStore, name: &str, bytes: &[u8]) -> bool {
    store.file(name).is_some_and(|found| found == bytes)
}

/// Whether a store has these files up to one of them, and none after it.
pub fn are_in_order(store: &MemoryStore, files: &[(&str, &[u8])]) -> bool {
    let mut is_there = true;
    for (name, bytes) in files {
        is_there = is_there && store.file(*name).is_some();
        if is_there != store.file(*name).is_some() || (is_there && !holds(store, *name, *bytes)) {
            return false;
        }
    }
    true
}

/// Whether the two files are as they were, and no other is there.
fn is_as_filled(store: &MemoryStore) -> bool {
    holds(store, "old", b"what it held")
        && holds(store, "other", b"another one")
        && store.file("new").is_none()
}

pub fn read(alloc: Global) -> Result<CallOutcome, AllocError> {
    let mut store = filled(alloc)?;
    Ok(read_old(alloc, &mut store))
}

fn read_old(alloc: Global, store: &mut MemoryStore) -> CallOutcome {
    match store.read(alloc, "old") {
        Ok(bytes) if bytes.as_slice() == b"what it held".as_slice() => CallOutcome::Made,
        Err(StoreError::OutOfMemory) => {
            CallOutcome::refused_if(is_as_filled(store) && store.failures() == 0)
        }
        _ => CallOutcome::Wrong,
    }
}

/// Writes a file that is there, and one that is not.
pub fn write(alloc: Global) -> Result<CallOutcome, AllocError> {
    let mut store = filled(alloc)?;
    Ok(match write_old(&mut store) {
        CallOutcome::Made => write_new(&mut store),
        outcome => outcome,
    })
}

fn write_old(store: &mut MemoryStore) -> CallOutcome {
    match store.write("old", b"what it holds") {
        Ok(()) => CallOutcome::Made,
        Err(StoreError::OutOfMemory) => {
            CallOutcome::refused_if(is_as_filled(store) && store.failures() == 0)
        }
        Err(_) => CallOutcome::Wrong,
    }
}

fn write_new(store: &mut MemoryStore) -> CallOutcome {
    match store.write("new", b"a new one") {
        Ok(()) if holds(store, "new", b"a new one") => CallOutcome::Made,
        Err(StoreError::OutOfMemory) => CallOutcome::refused_if(
            holds(store, "old", b"what it holds") && store.file("new").is_none(),
        ),
        _ => CallOutcome::Wrong,
    }
}
