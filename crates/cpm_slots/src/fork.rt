//! Forks of slots.

ghost use Rattle.std.specs.Prelude.{◌≡◌, IfErr, IfOk, IfSome, None, OnErr};
ghost use Rattle.cpm_machine.specs.MachineState.{MachineState};

use crate::event::{ForkError, SlotId};
use crate::host::Host;
use crate::slots::{Slot, index_of};
use std::alloc::Global;

impl Host {
    ghost use Rattle.cpm_slots.specs.Host.{IsForkRefusal, fork_fault, slot_at, with_forked};
    ghost use Rattle.cpm_slots.specs.HostWithStore.{SharesPages};

    /// Opens a slot whose whole state is that of an open one, and gives its number: its registers, memory, drives, pending keys and the bytes that
    /// wait. No page is copied: those that were written are shared until one of the two writes them. It is refused where no slot of that
    /// number is open, then where 64 slots are open or no number is left, then where the quotas of all open slots and this one exceed the
    /// frames, then if out of memory. Nothing is changed then.
    pub fn fork(&mut self, alloc: Global, id: SlotId) -> Result<SlotId, ForkError>
        ensures forked { IfOk result (λ child. self.new.host ≡ with_forked self.old.host (slot_at id.0 self.old.host.slots)) }
        ensures number { IfOk result (λ child. child.0 ≡ self.old.host.openings) }
        ensures fits { IfOk result (λ child. fork_fault self.old.host (slot_at id.0 self.old.host.slots) ≡ None) }
        ensures pages { IfOk result (λ child. SharesPages self.old self.new id.0 child.0) }
        ensures refused { IfErr result (λ fault. IsForkRefusal (fork_fault self.old.host (slot_at id.0 self.old.host.slots)) fault) }
        ensures unchanged { OnErr result (self.new ≡ self.old) }
    {
        let Some(index) = index_of(&self.slots, id) else {
            return Err(ForkError::NoSuchSlot);
        };
        if self.lacks_slot() {
            return Err(ForkError::NoSlot);
        }
        if self.lacks_frames(self.slots[index].runner.quota) {
            return Err(ForkError::NoFrames);
        }
        let Ok(runner) = self.slots[index].runner.copy(alloc) else {
            return Err(ForkError::OutOfMemory);
        };
        if self.slots.try_reserve(1).is_err() {
            return Err(ForkError::OutOfMemory);
        }
        let Ok(table) = self.store.share(self.slots[index].table) else {
            unreachable!();
        };
        let id = self.openings;
        self.slots.push_reserved(Slot { id, runner, table });
        self.openings += 1;
        Ok(SlotId(id))
    }
}
