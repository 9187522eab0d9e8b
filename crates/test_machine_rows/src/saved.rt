//! Rows of machines each of which is saved after each line, and goes on from its bytes.

use crate::machines::Machines;
use cpm_machine::{Machine, RestoreError, SystemDigest};
use std::alloc::{AllocError, Global};
use test_language::{RowAnswer, RowFault, RowLine, Scene, number};

/// A digest that no row looks at.
const DIGEST: SystemDigest = [0x5A; 32];

/// The machine of a row, which is another one after each line.
#[derive(Drop)]
pub struct SavedMachines(Machines);

impl Scene for SavedMachines {
    fn new(alloc: Global) -> Result<SavedMachines, AllocError> {
        Ok(SavedMachines(Machines::new(alloc)?))
    }

    fn is_alone(verb: &str) -> bool {
        matches!(verb, "prefixes" | "every-prefix") || Machines::is_alone(verb)
    }

    fn takes_text(verb: &str) -> bool {
        Machines::takes_text(verb)
    }

    fn act(&mut self, alloc: Global, line: &RowLine<'_>) -> Result<RowAnswer, RowFault> {
        match (line.verb(), line.arguments()) {
            ("prefixes", []) => return self.prefixes(alloc, false),
            ("every-prefix", []) => return self.prefixes(alloc, true),
            ("mutations", [count]) => return self.mutations(alloc, number(*count)?),
            _ => {}
        }
        let answer = self.0.act(alloc, line)?;
        if let Some(machine) = self.0.machine.take() {
            self.0.machine = Some(gone_on(alloc, &machine)?);
        }
        Ok(answer)
    }
}

impl SavedMachines {
    /// The bytes of the machine.
    fn bytes(&self, alloc: Global) -> Result<Vec<u8>, RowFault> {
        let Some(machine) = &self.0.machine else {
            return Err(RowFault::Absent);
        };
        Ok(machine.save(alloc, &DIGEST)?)
    }

    /// `prefixes`: whether the first bytes of its saving are refused, however many they are. Behind its front only one of so many lengths is tried: each, where
    /// it is `every-prefix`.
    fn prefixes(&self, alloc: Global, is_every: bool) -> Result<RowAnswer, RowFault> {
        let bytes = self.bytes(alloc)?;
        for length in 0..bytes.len() {
            let is_tried = is_every || length < FRONT || length % STRIDE == 0;
            if is_tried && !is_refused(alloc, &bytes.as_slice()[..length]) {
                return RowAnswer::truth(alloc, false);
            }
        }
        RowAnswer::truth(alloc, true)
    }

    /// `mutations N`: whether its saving with one byte changed, N times another one, is refused, or is the saving of what it says.
    fn mutations(&self, alloc: Global, count: u64) -> Result<RowAnswer, RowFault> {
        let mut bytes = self.bytes(alloc)?;
        let mut places = Places { state: 1 };
        for turn in 0..count {
            let within = if turn % 2 == 0 { FRONT } else { bytes.len() };
            let (place, value) = places.next(within);
            if !is_exact_with(alloc, &mut bytes, place, value)? {
                return RowAnswer::truth(alloc, false);
            }
        }
        RowAnswer::truth(alloc, true)
    }
}

/// How many of the first bytes of a saving are tried one by one: in them is all but most of the images.
const FRONT: usize = 1_000;

/// How many bytes lie between those that are tried behind them.
const STRIDE: usize = 997;

/// Places and values without an order, the same each time.
#[derive(Drop)]
struct Places {
    state: u64,
}

impl Places {
    /// The next place below a limit, and a byte.
    fn next(&mut self, limit: usize) -> (usize, u8) {
        // (the multiplier is Knuth's, of MMIX)
        self.state = self
            .state
            .wrapping_mul(6_364_136_223_846_793_005)
            .wrapping_add(1_442_695_040_888_963_407);
        let place = (self.state >> 33) as usize % limit.max(1);
        (place, (self.state >> 24 & 0xFF) as u8)
    }
}

/// Whether bytes are refused as no saving.
fn is_refused(alloc: Global, bytes: &[u8]) -> bool {
    matches!(
        Machine::restored(alloc, bytes),
        Err(RestoreError::Damaged(_))
    )
}

/// Whether bytes with this one at a place are refused, or are the saving of what they say.
fn is_exact_with(
    alloc: Global,
    bytes: &mut Vec<u8>,
    place: usize,
    value: u8,
) -> Result<bool, RowFault> {
    let Some(byte) = bytes.get_mut(place) else {
        return Err(RowFault::Number);
    };
    let old = *byte;
    *byte = value;
    let is_exact = is_exact(alloc, bytes.as_slice())?;
    if let Some(byte) = bytes.get_mut(place) {
        *byte = old;
    }
    Ok(is_exact)
}

/// Whether bytes are refused, or are the saving of what they say.
fn is_exact(alloc: Global, bytes: &[u8]) -> Result<bool, RowFault> {
    let (digest, machine) = match Machine::restored(alloc, bytes) {
        Ok(restored) => restored,
        Err(RestoreError::Damaged(_)) => return Ok(true),
        Err(RestoreError::OutOfMemory) => return Err(RowFault::Unready),
    };
    Ok(machine.save(alloc, &digest)?.as_slice() == bytes)
}

/// The machine of another one's bytes, whose own bytes are these.
fn gone_on(alloc: Global, machine: &Machine) -> Result<Machine, RowFault> {
    let bytes = machine.save(alloc, &DIGEST)?;
    let Ok((_, restored)) = Machine::restored(alloc, bytes.as_slice()) else {
        return Err(RowFault::Unready);
    };
    let again = restored.save(alloc, &DIGEST)?;
    if again.as_slice() == bytes.as_slice() {
        Ok(restored)
    } else {
        Err(RowFault::Unready)
    }
}
