//! Bytes that were taken from a device.

use std::alloc::Global;
use test_language::{RowAnswer, RowFault, Word, byte, count};

/// How many bytes are taken where a line doesn't say so: all that a device holds.
const ROOM: usize = 8192;

/// Room for the bytes that a line takes.
pub fn room(alloc: Global, arguments: &[Word<'_>]) -> Result<Vec<u8>, RowFault> {
    let room = match arguments {
        [] => ROOM,
        [room] => count(*room)?,
        _ => return Err(RowFault::Words),
    };
    Ok(vec![in alloc; 0u8; room]?)
}

/// The bytes that were taken last.
#[derive(Drop)]
pub struct TakenBytes {
    bytes: Vec<u8>,
}

impl TakenBytes {
    /// None yet.
    pub fn new(alloc: Global) -> TakenBytes {
        TakenBytes {
            bytes: Vec::new(alloc),
        }
    }

    /// Keeps the first bytes of these, which were taken, and answers them.
    pub fn keep(
        &mut self,
        alloc: Global,
        bytes: Vec<u8>,
        count: usize,
    ) -> Result<RowAnswer, RowFault> {
        let mut bytes = bytes;
        bytes.truncate(count);
        self.bytes = bytes;
        RowAnswer::bytes(alloc, self.bytes.as_slice())
    }

    /// `ending N`: the last bytes. `has BYTE`: whether this is one of them.
    pub fn act(
        &self,
        alloc: Global,
        verb: &str,
        arguments: &[Word<'_>],
    ) -> Result<RowAnswer, RowFault> {
        let [argument] = arguments else {
            return Err(RowFault::Words);
        };
        if verb == "has" {
            return RowAnswer::truth(alloc, self.bytes.contains(&byte(*argument)?));
        }
        let start = self.bytes.len().saturating_sub(count(*argument)?);
        match self.bytes.get(start..) {
            Some(ending) => RowAnswer::bytes(alloc, ending),
            None => Err(RowFault::Unready),
        }
    }
}
