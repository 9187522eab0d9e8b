//! The debugger.
ghost use Rattle.std.specs.Prelude.{◌≡◌, ◌∷◌, [], ◌↔◌, ◌<◌, ◌≤◌, length, IfErr, IfOk, IsErrOf, OnOk};
ghost use Rattle.cpm_geom.specs.Disk.{blank_disk};
ghost use Rattle.cpm_debug.specs.Debug.{IsDebugRefusal, IsFailure, IsHeld, debugged, debug_system_drive};
ghost use Rattle.cpm_machine.specs.Opening.{most_program};

use crate::answer::obey;
use crate::error::DebugError;
use crate::hear::{hear, without_end};
use crate::order::Order;
use cpm_flags::Cpu;
use cpm_geom::{Format, Image};
use cpm_machine::{MOST_PROGRAM, MOST_QUOTA, Machine, Opening};
use std::alloc::Global;
use std::io::{BufRead, Read, Write};

/// The most lines that are heard.
const MOST_LINES: u64 = 1_000_000;

/// The most bytes within which a line ends that is heard.
const MOST_BYTES: usize = 16_777_216;

/// One blank drive.
fn blank_drives(alloc: Global) -> Result<Vec<Image>, DebugError>
    ensures drives { IfOk result (λ drives. drives.items ≡ blank_disk Format.Ibm3740 ∷ []) }
    ensures refusal { IfErr result (λ e. e ≡ DebugError.OutOfMemory) }
{
    let mut drives = Vec::new(alloc);
    drives.push(Image::blank(alloc, Format::Ibm3740)?)?;
    Ok(drives)
}

/// The system drive, and the machine with a program.
fn made(alloc: Global, cpu: Cpu, program: Vec<u8>) -> Result<(Image, Machine), DebugError>
    requires { length program.items ≤ most_program }
    ensures made { IfOk result (λ parts. (parts.0 ≡ debug_system_drive) × (parts.1 ≡ debugged cpu program.items)) }
    ensures refusal { IfErr result (λ e. e ≡ DebugError.OutOfMemory) }
{
    let system = Image::blank(alloc, Format::Ibm3740)?;
    let opening = Opening {
        cpu,
        quota: MOST_QUOTA,
        drives: blank_drives(alloc)?,
    };
    match Machine::with_program(alloc, opening, program) {
        Ok(machine) => Ok((system, machine)),
        Err(_) => Err(DebugError::OutOfMemory),
    }
}

/// Answers lines, one after another.
fn converse<R: BufRead, W: Write>(
    alloc: Global,
    system: &Image,
    cpu: Cpu,
    listing: &[u8],
    machine: &mut Machine,
    input: &mut R,
    out: &mut W,
) -> Result<(), DebugError>
    ensures held { OnOk result (IsHeld system.now cpu listing.now machine.old (R.remaining input.old) (W.contents out.old) (W.contents out.new)) }
    ensures failed { IfErr result (IsFailure system.now cpu listing.now machine.old (R.remaining input.old) (W.contents out.old) (W.contents out.new)) }
{
    let mut room = MOST_BYTES;
    for _line in 0..MOST_LINES {
        let Some(line) = hear(alloc, input, &mut room)? else {
            return Ok(());
        };
        let order = Order::read(without_end(line.as_slice()));
        if order.is_quit() {
            return Ok(());
        }
        match obey(system, cpu, listing, order, machine, out) {
            Ok(()) => {}
            Err(error) => return Err(DebugError::Unwritable(error)),
        }
    }
    Ok(())
}

/// Answers the orders of the lines that it reads with a machine over this system drive, each before it reads the next, up to `Q`, to the end of the input, or
/// to 1,000,000 lines. A line is dropped, and ends the dialog, where it doesn't end within the first 16,777,216 bytes. The machine may have been stopped
/// anywhere.
///
/// The orders are `S n`, `G addr n`, `D addr`, `L addr`, `R`, `K text`, `O` and `Q`. After the answer to `S`, `G` and `R` comes the line of the
/// assembler's listing that shows the bytes at the program's PC, if it has one. An empty listing has none.
///
/// What a live reader gives can't be named; what is written is then the answer to some lines.
///
/// `Unreadable` has the reader's error: all lines before it are answered; so they are where `OutOfMemory` comes. `Unwritable` has the error of the writer, who
/// may have got the beginning.
pub fn debug_machine<R: BufRead, W: Write>(
    alloc: Global,
    system: &Image,
    listing: &[u8],
    machine: Machine,
    input: &mut R,
    out: &mut W,
) -> Result<(), DebugError>
    ensures held { OnOk result (IsHeld system.now machine.cpu listing.now machine (R.remaining input.old) (W.contents out.old) (W.contents out.new)) }
    ensures refusal { IfErr result (IsFailure system.now machine.cpu listing.now machine (R.remaining input.old) (W.contents out.old) (W.contents out.new)) }
{
    let cpu = machine.cpu();
    let mut debugged = machine;
    let mut heard = input.take(MOST_BYTES as u64 + 1);
    converse(alloc, system, cpu, listing, &mut debugged, &mut heard, out)
}

/// Makes a machine with a program, with this processor, a blank drive and a blank system drive, and answers lines with it as `debug_machine` does.
///
/// `ProgramTooLong` comes before anything is read or written. The other errors are those of `debug_machine`.
pub fn run_debug<R: BufRead, W: Write>(
    alloc: Global,
    cpu: Cpu,
    program: Vec<u8>,
    listing: &[u8],
    input: &mut R,
    out: &mut W,
) -> Result<(), DebugError>
    ensures held { OnOk result (IsHeld debug_system_drive cpu listing.now (debugged cpu program.items)
        (R.remaining input.old) (W.contents out.old) (W.contents out.new)) }

    ensures too_long { IsErrOf result (DebugError.ProgramTooLong (length program.items))
        ↔ (most_program < length program.items) }
    ensures refusal { IfErr result (IsDebugRefusal cpu listing.now program.items
        (R.remaining input.old) (W.contents out.old) (W.contents out.new) out.old out.new) }
{
    if program.len() > MOST_PROGRAM {
        return Err(DebugError::ProgramTooLong(program.len()));
    }
    let (system, machine) = made(alloc, cpu, program)?;
    debug_machine(alloc, &system, listing, machine, input, out)
}
