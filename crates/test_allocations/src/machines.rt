//! Machines with what is passed to them.

use crate::CallOutcome;
use cpm_flags::Cpu;
use cpm_geom::{Format, Image};
use cpm_machine::{Machine, OpenError, Opening, RestoreError, Tail};
use std::alloc::{AllocError, Global};

/// The byte of the mark in the directory of a drive.
const MARK: u8 = 0x5A;

/// Prints `A` and returns.
const LETTER: &[u8] = &[0x0E, 0x02, 0x1E, 0x41, 0xCD, 0x05, 0x00, 0xC9];

/// A drive with a mark in its last record.
pub fn marked(alloc: Global) -> Result<Image, AllocError> {
    let mut drive = Image::blank(alloc, Format::Ibm3740)?;
    let _ = drive.put_record(1949, &[MARK; 128]);
    Ok(drive)
}

/// Whether each byte of a record of a drive is this one.
fn is_filled(drive: &Image, number: u16, byte: u8) -> bool {
    drive
        .record(number)
        .is_ok_and(|record| record.iter().all(|found| *found == byte))
}

/// Whether a drive is as `marked` made it.
pub fn is_marked(drive: &Image) -> bool {
    for number in 0..1949 {
        if !is_filled(drive, number, 0xE5) {
            return false;
        }
    }
    is_filled(drive, 1949, MARK)
}

/// An opening with two marked drives.
pub fn opening(alloc: Global, cpu: Cpu, quota: u16) -> Result<Opening, AllocError> {
    let mut drives = Vec::with_capacity(alloc, 2)?;
    drives.push(marked(alloc)?)?;
    drives.push(marked(alloc)?)?;
    Ok(Opening { cpu, quota, drives })
}

/// Whether an opening is as `opening` made it.
pub fn is_handed_back(opening: &Opening, cpu: Cpu, quota: u16) -> bool {
    for drive in &opening.drives {
        if !is_marked(drive) {
            return false;
        }
    }
    opening.cpu == cpu && opening.quota == quota && opening.drives.len() == 2
}

pub fn machine(alloc: Global) -> Result<CallOutcome, AllocError> {
    let opening = opening(alloc, Cpu::Z80, 16)?;
    Ok(match Machine::new(alloc, opening) {
        Ok(_) => CallOutcome::Made,
        Err((back, OpenError::OutOfMemory)) => {
            CallOutcome::refused_if(is_handed_back(&back, Cpu::Z80, 16))
        }
        Err(_) => CallOutcome::Wrong,
    })
}

pub fn machine_with_program(alloc: Global) -> Result<CallOutcome, AllocError> {
    let program = letter(alloc)?;
    let opening = opening(alloc, Cpu::I8080, 256)?;
    Ok(of_program(Machine::with_program(alloc, opening, program)))
}

/// The outcome of a call that makes a machine with that program.
fn of_program(made: Result<Machine, (Opening, Vec<u8>, OpenError)>) -> CallOutcome {
    match made {
        Ok(_) => CallOutcome::Made,
        Err((back, program, OpenError::OutOfMemory)) => CallOutcome::refused_if(
            program.as_slice() == LETTER && is_handed_back(&back, Cpu::I8080, 256),
        ),
        Err(_) => CallOutcome::Wrong,
    }
}

pub fn machine_with_command(alloc: Global) -> Result<CallOutcome, AllocError> {
    let tail = Tail::new(b" A.TXT").ok_or(AllocError)?;
    let program = letter(alloc)?;
    let opening = opening(alloc, Cpu::I8080, 256)?;
    Ok(of_program(Machine::with_command(alloc, opening, program, &tail)))
}

/// A program that prints a letter and returns.
pub fn letter(alloc: Global) -> Result<Vec<u8>, AllocError> {
    Vec::from_slice(alloc, LETTER)
}

/// A machine that has begun to print its letter.
pub fn begun(alloc: Global) -> Result<Machine, AllocError> {
    let program = letter(alloc)?;
    let opening = opening(alloc, Cpu::I8080, 256)?;
    match Machine::with_program(alloc, opening, program) {
        Ok(machine) => Ok(machine),
        Err(_) => Err(AllocError),
    }
}

pub fn save(alloc: Global) -> Result<CallOutcome, AllocError> {
    let machine = begun(alloc)?;
    Ok(CallOutcome::of(machine.save(alloc, &[MARK; 32])))
}

pub fn restored(alloc: Global) -> Result<CallOutcome, AllocError> {
    let saved = begun(alloc)?.save(alloc, &[MARK; 32])?;
    Ok(match Machine::restored(alloc, saved.as_slice()) {
        Ok(_) => CallOutcome::Made,
        Err(RestoreError::OutOfMemory) => CallOutcome::Refused,
        Err(RestoreError::Damaged(_)) => CallOutcome::Wrong,
    })
}
