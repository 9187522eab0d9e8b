//! A session that is played by itself, before the run.
ghost use Rattle.std.specs.Prelude.{◌≡◌, ◌++◌, IfErr, IfOk, None, map};
ghost use Rattle.cpm_batch.specs.Inputs.{IsOpened, start_view};
ghost use Rattle.cpm_machine.specs.MachineState.{opened_machine};
ghost use Rattle.cpm_machine.specs.Opening.{opening_fault};
ghost use Rattle.cpm_script.specs.declared.cue.Cue.TheVariants.{Key as Timed};
ghost use Rattle.cpm_run.specs.Settled.{opening_of};
ghost use Rattle.cpm_run.specs.Settling.{IsOpenable};

use crate::error::RunError;
use cpm_batch::Start;
use cpm_geom::Image;
use cpm_machine::{Machine, OpenError, Opening};
use cpm_script::{Cue, Key};
use std::alloc::{AllocError, Global};

/// Equal images.
pub(crate) fn copies_of(alloc: Global, images: &[Image]) -> Result<Vec<Image>, AllocError>
    ensures { IfOk result (λ v. v.items ≡ images.now) }
{
    let mut copies = Vec::new(alloc);
    for image in images {
        copies.push(image.copy(alloc)?)?;
    }
    Ok(copies)
}

/// A machine at an opening that has no fault.
fn opened(alloc: Global, opening: Opening) -> Result<Machine, RunError>
    requires { opening_fault opening ≡ None }
    ensures machine { IfOk result (λ m. m ≡ opened_machine opening.cpu opening.quota opening.drives.items) }
    ensures refusal { IfErr result (λ e. e ≡ RunError.OutOfMemory) }
{
    match Machine::new(alloc, opening) {
        Ok(machine) => Ok(machine),
        Err((_, OpenError::OutOfMemory)) => Err(RunError::OutOfMemory),
        Err(_) => unreachable!(),
    }
}

/// The machine with which a session begins that isn't forked.
pub(crate) fn machine_of(alloc: Global, start: &Start) -> Result<Machine, RunError>
    requires opened { IsOpened (start_view start.now) }
    requires openable { IsOpenable (start_view start.now) }
    ensures machine { IfOk result (λ m. m ≡ opening_of (start_view start.now)) }
    ensures refusal { IfErr result (λ e. e ≡ RunError.OutOfMemory) }
{
    match start {
        Start::Opened { cpu, quota, drives } => {
            let opening = Opening {
                cpu: *cpu,
                quota: *quota,
                drives: copies_of(alloc, drives)?,
            };
            opened(alloc, opening)
        }
        Start::Restored(saved) => Ok(saved.machine(alloc)?),
        Start::Forked { .. } => unreachable!(),
    }
}

/// Keys as cues.
fn cues_of(alloc: Global, keys: &[Key]) -> Result<Vec<Cue>, AllocError>
    ensures { IfOk result (λ v. v.items ≡ map Timed keys.now) }
{
    keys.iter().map(|key| Cue::Key(*key)).collect(alloc)
}

/// Keys as cues, with others after them.
pub(crate) fn after_keys(
    alloc: Global,
    keys: &[Key],
    mut others: Vec<Cue>,
) -> Result<Vec<Cue>, AllocError>
    ensures { IfOk result (λ v. v.items ≡ map Timed keys.now ++ others.items) }
{
    let mut cues = cues_of(alloc, keys)?;
    cues.append(&mut others)?;
    Ok(cues)
}
