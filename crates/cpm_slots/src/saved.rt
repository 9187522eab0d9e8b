//! Slots that are saved as bytes, and slots that go on from a saving.

ghost use Rattle.std.specs.Prelude.{◌≡◌, ◌<◌, ℕ, false, length, slice_get, IfErr, IfNone, IfOk, IfSome, List, None, OnErr};
ghost use Rattle.cpm_decode.specs.Cache.{IsRightFor};
ghost use Rattle.cpm_memory.specs.Contents.{Contents};
ghost use Rattle.cpm_memory.specs.Flat.{flat_contents};
ghost use Rattle.cpm_memory.specs.Frames.{memories};
ghost use Rattle.cpm_machine.specs.Runner.{IsRunnerSound, state_of};
ghost use Rattle.cpm_machine.specs.Saving.{restored, saving_with};
ghost use Rattle.cpm_slots.specs.Restoring.{IsSavingBytes};
ghost use Rattle.cpm_slots.specs.Slots.{slots_of, HaveTables};

use crate::event::{HostRestoreError, SaveError, SlotId};
use crate::host::Host;
use crate::slots::{Slot, index_of};
use cpm_machine::steps::Runner;
use cpm_machine::{RestoreError, SystemDigest, saving};
use cpm_memory::{FlatMemory, FrameStore};
use std::alloc::{AllocError, Global};

/// The bytes of the session at a place, with the digest of its system drive.
fn save_at(
    alloc: Global,
    slots: &[Slot],
    store: &FrameStore,
    scratch: &mut FlatMemory,
    digest: &SystemDigest,
    index: usize,
) -> Result<Vec<u8>, AllocError>
    requires index { index < length slots.now }
    requires have_tables { HaveTables (memories store.now) slots.now }
    ensures { IfOk result (λ bytes. IfSome (slice_get (slots_of (memories store.now) slots.now) index)
        (λ x. IsSavingBytes (saving_with digest.now x.state) bytes.items)) }
{
    let slot = &slots[index];
    scratch.reflect(store, slot.table);
    saving::save(alloc, digest, &slot.runner, scratch)
}

impl From<RestoreError> for HostRestoreError {
    ghost use Rattle.std.specs.Prelude.{◌≡◌};
    ghost use Rattle.cpm_slots.specs.Restoring.{host_restore_error};

    ghost from_gives = { λ error e. e ≡ host_restore_error error };

    fn from(error: RestoreError) -> HostRestoreError {
        match error {
            RestoreError::Damaged(damage) => HostRestoreError::Damaged(damage),
            RestoreError::OutOfMemory => HostRestoreError::OutOfMemory,
        }
    }
}

impl Host {
    ghost use Rattle.cpm_slots.specs.Host.{IsRestoreRefusal, IsSaveRefusal, lacks_frames, lacks_slot, restore_fault, slot_at, system_fault, with_added};
    ghost use Rattle.cpm_slots.specs.Host.{with_slot_restored};
    ghost use Rattle.cpm_slots.specs.Restoring.{IsSlotSaved};

    /// The bytes of a slot's whole state, with the digest of the system drive. What is restored of them is that state. It is refused where no slot of
    /// that number is open, and then if out of memory. Nothing is changed.
    pub fn save(&mut self, alloc: Global, id: SlotId) -> Result<Vec<u8>, SaveError>
        ensures saved { IfOk result (λ bytes. IsSlotSaved self.old.host id.0 bytes.items) }
        ensures refused { IfErr result (IsSaveRefusal (slot_at id.0 self.old.host.slots)) }
        ensures unchanged { self.new ≡ self.old }
    {
        let Some(index) = index_of(&self.slots, id) else {
            return Err(SaveError::NoSuchSlot);
        };
        let digest = self.system.digest();
        let saved = save_at(
            alloc,
            &self.slots,
            &self.store,
            &mut self.scratch,
            &digest,
            index,
        );
        match saved {
            Ok(bytes) => Ok(bytes),
            Err(AllocError) => Err(SaveError::OutOfMemory),
        }
    }

    /// Why no slot goes on from a saving with this digest and this quota.
    fn restore_fault(&mut self, digest: &SystemDigest, quota: u16) -> Option<HostRestoreError>
        ensures fault { result ≡ system_fault self.old.host digest.now quota }
        ensures room { IfNone result (length self.old.host.slots < 64) }
        ensures unchanged { self.new ≡ self.old }
    {
        if *digest != self.system.digest() {
            Some(HostRestoreError::OtherSystem)
        } else if self.lacks_slot() {
            Some(HostRestoreError::NoSlot)
        } else if self.lacks_frames(quota) {
            Some(HostRestoreError::NoFrames)
        } else {
            None
        }
    }

    /// Opens a slot whose whole state is that of a saving, whose bytes these are, and gives its number. It is refused where the bytes are no saving, then
    /// where it was saved over another system drive, then where 64 slots are open or no number is left, then where the quotas of all open slots and this
    /// one exceed the frames; and if out of memory. Nothing is changed then.
    pub fn restore(&mut self, alloc: Global, bytes: &[u8]) -> Result<SlotId, HostRestoreError>
        ensures restored { IfOk result (λ id. self.new.host ≡ with_slot_restored self.old.host (restored bytes.now)) }
        ensures number { IfOk result (λ id. id.0 ≡ self.old.host.openings) }
        ensures fits { IfOk result (λ id. restore_fault self.old.host (restored bytes.now) ≡ None) }
        ensures refused { IfErr result (IsRestoreRefusal (restore_fault self.old.host (restored bytes.now))) }
        ensures unchanged { OnErr result (self.new ≡ self.old) }
    {
        let (digest, runner, memory) = saving::restored(alloc, bytes)?;
        if let Some(fault) = self.restore_fault(&digest, runner.quota) {
            return Err(fault);
        }
        self.add_restored(runner, &memory)
    }

    /// Opens a slot of this session and this memory, for which there is a place. It is refused if out of memory alone.
    fn add_restored(
        &mut self,
        runner: Runner,
        memory: &FlatMemory,
    ) -> Result<SlotId, HostRestoreError>
        requires slot { lacks_slot self.old.host ≡ false }
        requires frames { lacks_frames self.old.host runner.quota ≡ false }
        requires sound { IsRunnerSound (state_of runner (flat_contents memory.now)) }
        requires right { (contents : Contents) (stamps : List ℕ) → IsRightFor contents stamps runner.cache }
        ensures added { IfOk result (λ id. self.new.host ≡ with_added self.old.host (state_of runner (flat_contents memory.now))) }
        ensures number { IfOk result (λ id. id.0 ≡ self.old.host.openings) }
        ensures refused { IfErr result (λ fault. fault ≡ HostRestoreError.OutOfMemory) }
        ensures unchanged { OnErr result (self.new ≡ self.old) }
    {
        if self.slots.try_reserve(1).is_err() {
            return Err(HostRestoreError::OutOfMemory);
        }
        let Ok(table) = self.store.reserve(runner.quota) else {
            unreachable!();
        };
        self.store.fill(table, memory);
        let id = self.openings;
        self.slots.push_reserved(Slot { id, runner, table });
        self.openings += 1;
        Ok(SlotId(id))
    }
}
