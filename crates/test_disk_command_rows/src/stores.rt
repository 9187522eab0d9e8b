//! A store over memory, of which one call can be made to fail, and files that are written to it in a batch.

use crate::names::only;
use cpm_store::{MemoryStore, Output, Store, WriteError, write_all};
use std::alloc::{AllocError, Global};
use test_language::{RowAnswer, RowFault, RowLine, Scene, Word, bytes_of, number};

/// A file that is to be written.
#[derive(Drop)]
struct PlannedWrite {
    name: String,
    bytes: Vec<u8>,
}

/// The store, the files that are to be written to it, and what was said of the last refusal.
#[derive(Drop)]
pub struct Stores {
    pub store: MemoryStore,
    planned: Vec<PlannedWrite>,
    told: String,
}

impl Scene for Stores {
    fn new(alloc: Global) -> Result<Stores, AllocError> {
        Ok(Stores {
            store: MemoryStore::new(alloc),
            planned: Vec::new(alloc),
            told: String::new(alloc),
        })
    }

    fn is_alone(verb: &str) -> bool {
        matches!(verb, "failures" | "write-all" | "told")
    }

    fn takes_text(_verb: &str) -> bool {
        false
    }

    fn act(&mut self, alloc: Global, line: &RowLine<'_>) -> Result<RowAnswer, RowFault> {
        let arguments = line.arguments();
        match line.verb() {
            "write" => self.write(alloc, arguments),
            "read" => self.read(alloc, arguments),
            "file" => self.file(alloc, arguments),
            "fail-call" => self.fail(arguments),
            "failures" => RowAnswer::words(alloc, self.store.failures()),
            "output" => self.plan(alloc, arguments),
            "write-all" => self.write_all(alloc),
            "told" => RowAnswer::words(alloc, self.told.as_str()),
            _ => Err(RowFault::Unknown),
        }
    }
}

impl Stores {
    /// `write NAME BYTES`: makes a file hold these bytes.
    fn write(&mut self, alloc: Global, arguments: &[Word<'_>]) -> Result<RowAnswer, RowFault> {
        let [name, bytes @ ..] = arguments else {
            return Err(RowFault::Words);
        };
        let bytes = bytes_of(alloc, bytes)?;
        match self.store.write(name.text, bytes.as_slice()) {
            Ok(()) => RowAnswer::words(alloc, "written"),
            Err(error) => RowAnswer::refused(alloc, error),
        }
    }

    /// `read NAME`: the bytes of a file.
    fn read(&mut self, alloc: Global, arguments: &[Word<'_>]) -> Result<RowAnswer, RowFault> {
        match self.store.read(alloc, only(arguments)?.text) {
            Ok(bytes) => Ok(RowAnswer::Bytes(bytes)),
            Err(error) => RowAnswer::refused(alloc, error),
        }
    }

    /// `file NAME`: the bytes of a file without a call of the store, or `none`.
    fn file(&self, alloc: Global, arguments: &[Word<'_>]) -> Result<RowAnswer, RowFault> {
        match self.store.file(only(arguments)?.text) {
            Some(bytes) => RowAnswer::bytes(alloc, bytes),
            None => RowAnswer::words(alloc, "none"),
        }
    }

    /// `fail N`: the call of this number fails, the next one being 1.
    fn fail(&mut self, arguments: &[Word<'_>]) -> Result<RowAnswer, RowFault> {
        let call = number(only(arguments)?)?;
        if call == 0 {
            return Err(RowFault::Unready);
        }
        self.store.fail_call(call);
        Ok(RowAnswer::Done)
    }

    /// `output NAME BYTES`: one more file that is to be written.
    fn plan(&mut self, alloc: Global, arguments: &[Word<'_>]) -> Result<RowAnswer, RowFault> {
        let [name, bytes @ ..] = arguments else {
            return Err(RowFault::Words);
        };
        let bytes = bytes_of(alloc, bytes)?;
        let name = String::from_str(alloc, name.text)?;
        self.planned.push(PlannedWrite { name, bytes })?;
        Ok(RowAnswer::Done)
    }

    /// `write-all`: writes them in order.
    fn write_all(&mut self, alloc: Global) -> Result<RowAnswer, RowFault> {
        let outputs = outputs_of(alloc, self.planned.as_slice())?;
        match write_all(outputs.as_slice(), &mut self.store) {
            Ok(()) => RowAnswer::words(alloc, "written"),
            Err(error) => {
                self.told = error.to_string(alloc)?;
                refused_write(alloc, error)
            }
        }
    }
}

/// The files that are to be written, with copies of their bytes.
fn outputs_of(alloc: Global, planned: &[PlannedWrite]) -> Result<Vec<Output<'_>>, RowFault> {
    let mut outputs = Vec::new(alloc);
    for PlannedWrite { name, bytes } in planned {
        let bytes = Vec::from_slice(alloc, bytes.as_slice())?;
        let name = name.as_str();
        outputs.push(Output { name, bytes })?;
    }
    Ok(outputs)
}

/// Which of them could not be written, and why.
fn refused_write(alloc: Global, error: WriteError) -> Result<RowAnswer, RowFault> {
    let WriteError { place, cause } = error;
    RowAnswer::refused_text(alloc, format_args!("output {place}: {cause:?}"))
}
