//! Machines that are saved, and go on, by the commands.

use crate::CallOutcome;
use crate::commands::{Counter, play, start};
use crate::machines::{begun, letter};
use cpm_geom::{Format, Image};
use cpm_host::{
    CuedKeys, HostError, ProgramStart, SavedMachine, Source, debug_start, run_saved,
    saved_machine_of,
};
use cpm_machine::digest_of;
use std::alloc::{AllocError, Global};

/// A machine that has begun to print its letter, saved over a blank system drive.
fn saved(alloc: Global) -> Result<SavedMachine, AllocError> {
    let system = Image::blank(alloc, Format::Ibm3740)?;
    Ok(SavedMachine {
        digest: digest_of(&system),
        machine: begun(alloc)?,
    })
}

/// What goes on with it.
fn going_on(alloc: Global) -> Result<ProgramStart, AllocError> {
    let mut start = start(alloc, None, None)?;
    start.drives.clear();
    start.tail = None;
    start.saved = Some(Box::new(alloc, saved(alloc)?)?);
    Ok(start)
}

pub fn read(alloc: Global) -> Result<CallOutcome, AllocError> {
    let SavedMachine { digest, machine } = saved(alloc)?;
    let bytes = machine.save(alloc, &digest)?;
    Ok(match saved_machine_of(alloc, "a.sav", bytes.as_slice()) {
        Ok(_) => CallOutcome::Made,
        Err(HostError::OutOfMemory) => CallOutcome::Refused,
        Err(_) => CallOutcome::Wrong,
    })
}

pub fn told(alloc: Global) -> Result<CallOutcome, AllocError> {
    let saved = saved(alloc)?;
    let mut out = Counter { count: 0 };
    Ok(match run_saved(alloc, saved, &mut out) {
        Ok(()) if out.count > 0 => CallOutcome::Made,
        Err(HostError::OutOfMemory) => CallOutcome::Refused,
        _ => CallOutcome::Wrong,
    })
}

pub fn debugged(alloc: Global) -> Result<CallOutcome, AllocError> {
    let start = going_on(alloc)?;
    let mut lines: &[u8] = b"S 2\nR\nK ^M\nG EC06 100\nO\nD 0100\nL 0100\nQ\n";
    let mut out = Counter { count: 0 };
    Ok(match debug_start(alloc, start, &[], &mut lines, &mut out) {
        Ok(()) if out.count > 0 => CallOutcome::Made,
        Err(HostError::OutOfMemory) => CallOutcome::Refused,
        _ => CallOutcome::Wrong,
    })
}

/// The program that prints a letter, which is saved at its end.
pub fn played(alloc: Global) -> Result<CallOutcome, AllocError> {
    let mut start = start(alloc, Some(letter(alloc)?), None)?;
    start.is_saved = true;
    let source = Source::Cues(CuedKeys {
        cues: &[],
        waits_from: 0,
        stops_idle: false,
    });
    let played = play(alloc, start, 100, source, &[]);
    Ok(match &played.answer {
        Ok(play) if play.saved.is_some() => CallOutcome::Made,
        Err(HostError::OutOfMemory) => CallOutcome::Refused,
        _ => CallOutcome::Wrong,
    })
}
