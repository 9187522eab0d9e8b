//! What a machine of `com` and `boot` begins with, and the machine that begins so or goes on.
ghost use Rattle.std.specs.Prelude.{◌≡◌, ◌≢◌, ◌<◌, ◌≤◌, IfErr, IfOk, OnOk, length, option_map};
ghost use Rattle.cpm_machine.specs.MachineState.{opened_with};
ghost use Rattle.cpm_machine.specs.Opening.{program_fault, IsRefusal, most_program};
ghost use Rattle.cpm_host.specs.Program.{IsProgramFit, IsProgramRefusal, begin_fault, disk_or_blank, drives_or_blank, machine_begun, machine_of};
ghost use Rattle.cpm_host.specs.Program.{program_given, program_length, system_disk, with_tail_if_any};

use crate::error::HostError;
use crate::saved::machine_over;
use cpm_batch::SavedMachine;
use cpm_flags::Cpu;
use cpm_geom::{Format, Image};
use cpm_machine::{MOST_DRIVES, MOST_PROGRAM, MOST_QUOTA, Machine, OpenError, Opening, Tail};
use std::alloc::Global;

/// What a machine is played with.
#[derive(Drop)]
pub struct ProgramStart {
    pub cpu: Cpu,
    /// The bytes of a program, which lie from 0100h on; without one the machine begins at the prompt of CP/M.
    pub program: Option<Vec<u8>>,
    /// The tail of the program's command, where one is left in the memory. Without a program none is.
    pub tail: Option<Tail>,
    /// The images of its drives, the first as A; a blank one where there is none.
    pub drives: Vec<Image>,
    /// The image of its system drive; a blank one where there is none.
    pub system: Option<Image>,
    /// The saved machine that it goes on from, in place of a processor, a program, a tail and drives. It is on the heap, since it takes 4 KB.
    pub saved: Option<Box<SavedMachine>>,
    /// Whether it is saved at the end.
    pub is_saved: bool,
}

impl ProgramStart {
    /// How many bytes its program has, 0 where there is none.
    fn program_length(&self) -> usize
        ensures { result ≡ program_length (program_given self.now) }
    {
        match &self.program {
            Some(program) => program.len(),
            None => 0,
        }
    }

    /// Refuses what no machine begins: `ProgramTooLong` for a program of more than 58,112 bytes, then `OpeningRefused` for more than four drives.
    pub fn check(&self) -> Result<(), HostError>
        ensures fits { OnOk result ((program_length (program_given self.now) ≤ most_program) × (length (program_given self.now).drives ≤ 4)) }
        ensures refusal { IfErr result (λ e. IsProgramRefusal (program_given self.now) e × (e ≢ HostError.OutOfMemory)) }
    {
        let length = self.program_length();
        if length > MOST_PROGRAM {
            return Err(HostError::ProgramTooLong(length));
        }
        if self.drives.len() > MOST_DRIVES {
            return Err(HostError::OpeningRefused(OpenError::BadDrives));
        }
        Ok(())
    }
}

/// The drives, or one blank drive where there are none.
fn drives_or_blank(alloc: Global, drives: Vec<Image>) -> Result<Vec<Image>, HostError>
    ensures drives { IfOk result (λ d. d.items ≡ drives_or_blank drives.items) }
    ensures refusal { IfErr result (λ e. e ≡ HostError.OutOfMemory) }
{
    if !drives.is_empty() {
        return Ok(drives);
    }
    let mut drives = Vec::new(alloc);
    drives.push(Image::blank(alloc, Format::Ibm3740)?)?;
    Ok(drives)
}

/// The system drive, or a blank one where there is none.
fn disk_or_blank(alloc: Global, image: Option<Image>) -> Result<Image, HostError>
    ensures disk { IfOk result (λ d. d ≡ disk_or_blank image) }
    ensures refusal { IfErr result (λ e. e ≡ HostError.OutOfMemory) }
{
    match image {
        Some(image) => Ok(image),
        None => Ok(Image::blank(alloc, Format::Ibm3740)?),
    }
}

/// The machine that begins so, or goes on, and its system drive.
pub(crate) fn machine_of(alloc: Global, start: ProgramStart) -> Result<(Machine, Image), HostError>
    ensures made { IfOk result (λ m. m.0 ≡ machine_of (program_given start)) }
    ensures system { IfOk result (λ m. m.1 ≡ system_disk (program_given start)) }
    ensures fits { OnOk result (IsProgramFit (program_given start)) }
    ensures refusal { IfErr result (IsProgramRefusal (program_given start)) }
{
    start.check()?;
    let ProgramStart {
        cpu,
        program,
        tail,
        drives,
        system,
        saved,
        ..
    } = start;
    let system = disk_or_blank(alloc, system)?;
    if let Some(saved) = saved {
        let machine = machine_over(Box::into_inner(saved), &system)?;
        return Ok((machine, system));
    }
    let opening = Opening {
        cpu,
        quota: MOST_QUOTA,
        drives: drives_or_blank(alloc, drives)?,
    };
    let machine = begun(alloc, opening, program, &tail)?;
    Ok((machine, system))
}

/// A machine that begins this program, with a tail if there is one; without a program it begins at the prompt.
fn begun(
    alloc: Global,
    opening: Opening,
    program: Option<Vec<u8>>,
    tail: &Option<Tail>,
) -> Result<Machine, OpenError>
    requires all { opening.quota ≡ 256 }
    ensures made { IfOk result (λ m. m ≡ machine_begun opening.cpu opening.drives.items (option_map (λ p. p.items) program) tail.now) }
    ensures refused { IfErr result (IsRefusal (begin_fault opening (option_map (λ p. p.items) program))) }
{
    match program {
        Some(program) => with_program(alloc, opening, program, tail),
        None => match Machine::new(alloc, opening) {
            Ok(machine) => Ok(machine),
            Err((_, fault)) => Err(fault),
        },
    }
}

/// A machine that begins this program, with a tail if there is one.
fn with_program(
    alloc: Global,
    opening: Opening,
    program: Vec<u8>,
    tail: &Option<Tail>,
) -> Result<Machine, OpenError>
    ensures made { IfOk result (λ m. m ≡ with_tail_if_any tail.now (opened_with opening.cpu opening.drives.items program.items)) }
    ensures refused { IfErr result (IsRefusal (program_fault opening program.items)) }
{
    let made = match tail {
        Some(tail) => Machine::with_command(alloc, opening, program, tail),
        None => Machine::with_program(alloc, opening, program),
    };
    match made {
        Ok(machine) => Ok(machine),
        Err((_, _, fault)) => Err(fault),
    }
}
