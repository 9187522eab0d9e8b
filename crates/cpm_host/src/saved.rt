//! Machines that were saved in files, and machines that are saved.

ghost use Rattle.std.specs.Prelude.{◌≡◌, false, true, IfErr, IfOk, Ok, option_map};
ghost use Rattle.cpm_machine.specs.Saving.{restored};
ghost use Rattle.cpm_machine.specs.SystemDigest.{system_digest};
ghost use Rattle.cpm_batch.specs.Savings.{saving_view};
ghost use Rattle.cpm_host.specs.Saved.{IsSavingRefusal, IsSavingTold, is_of_system, saved_if};

use crate::error::HostError;
use cpm_batch::{SavedMachine, SavingRefusal, version_in};
use cpm_geom::Image;
use cpm_machine::{Machine, RestoreError, digest_of};
use cpm_shown::shown;
use std::alloc::{AllocError, Global};

/// The machine that goes on over this system drive; `SavedElsewhere` over another one than it was saved.
pub(crate) fn machine_over(saved: SavedMachine, system: &Image) -> Result<Machine, HostError>
    ensures same { IfOk result (λ m. (m ≡ saved.machine) × (is_of_system saved.digest system.now ≡ true)) }
    ensures refused { IfErr result (λ e. (e ≡ HostError.SavedElsewhere) × (is_of_system saved.digest system.now ≡ false)) }
{
    if saved.digest == digest_of(system) {
        Ok(saved.machine)
    } else {
        Err(HostError::SavedElsewhere)
    }
}

/// The refusal of the saving in a file of this name.
fn saving_refused(name: &str, error: RestoreError, bytes: &[u8]) -> HostError
    ensures { IsSavingTold name.now bytes.now error result }
{
    match error {
        RestoreError::Damaged(damage) => HostError::SavingRefused(SavingRefusal {
            name: shown(name),
            damage,
            version: version_in(bytes),
        }),
        RestoreError::OutOfMemory => HostError::OutOfMemory,
    }
}

/// A saved machine on the heap, since it takes 4 KB.
fn boxed(alloc: Global, saved: SavedMachine) -> Result<Box<SavedMachine>, AllocError>
    ensures { IfOk result (λ b. b.value ≡ saved) }
{
    Ok(Box::new(alloc, saved)?)
}

/// The machine that was saved in a file of this name, by its bytes. `SavingRefused` names the part that makes them no saving.
pub fn saved_machine_of(
    alloc: Global,
    name: &str,
    bytes: &[u8],
) -> Result<Box<SavedMachine>, HostError>
    ensures read { IfOk result (λ s. restored bytes.now ≡ Ok (saving_view s.value)) }
    ensures refusal { IfErr result (IsSavingRefusal name.now bytes.now) }
{
    let (digest, machine) = match Machine::restored(alloc, bytes) {
        Ok(restored) => restored,
        Err(error) => return Err(saving_refused(name, error, bytes)),
    };
    Ok(boxed(alloc, SavedMachine { digest, machine })?)
}

/// The bytes of a machine over this system drive, if it is saved.
pub(crate) fn saved_if(
    alloc: Global,
    is_saved: bool,
    system: &Image,
    machine: &Machine,
) -> Result<Option<Vec<u8>>, AllocError>
    ensures saved { IfOk result (λ s. option_map (λ v. v.items) s ≡ saved_if is_saved system.now machine.now) }
    ensures refused { IfErr result (λ _. is_saved ≡ true) }
{
    if is_saved {
        Ok(Some(machine.save(alloc, &digest_of(system))?))
    } else {
        Ok(None)
    }
}
