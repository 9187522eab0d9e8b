//! Grants that stop where a slot begins to wait for a key.

ghost use Rattle.std.specs.Prelude.{◌≡◌, ◌<◌, length, slice_get, IfOk, IfSome, OnErr};
ghost use Rattle.cpm_decode.specs.Cache.{IsRightFor};
ghost use Rattle.cpm_memory.specs.Frames.{memories, stamps_at, IsTableTaken, KeepsStamps, IsStoreSound as IsSoundStore};
ghost use Rattle.cpm_machine.specs.Calls.{Grant};
ghost use Rattle.cpm_machine.specs.Runner.{state_of, IsRunnerSound};
ghost use Rattle.cpm_machine.specs.Step.{after};
ghost use Rattle.cpm_machine.specs.ToWait.{executed_to_wait};
ghost use Rattle.cpm_slots.specs.Index.{IsServed};
ghost use Rattle.cpm_slots.specs.Serving.{all_granted};
ghost use Rattle.cpm_slots.specs.Slots.{contents_at, slots_of, HaveTables, AllCached, ChangesAt};

use crate::event::{Refusal, SlotId};
use crate::host::Host;
use crate::slots::{LEAST_COPIED, Slot, index_of};
use cpm_bdos::Mode;
use cpm_geom::Image;
use cpm_machine::steps::Runner;
use cpm_machine::to_wait::grant_to_wait;
use cpm_memory::{FlatMemory, FrameStore, TableId};

/// Executes the greatest number of steps, at most `steps`, that can be made and of which none waits for a key, in a session whose memory is a table of
/// the store; says how many. Where it begins in a program, and there are steps enough, the memory is copied for them, and its copy is put back.
fn work_in_table(
    runner: &mut Runner,
    store: &mut FrameStore,
    scratch: &mut FlatMemory,
    table: TableId,
    system: &Image,
    steps: u64,
) -> u64
    requires taken { IsTableTaken store.old table }
    requires sound { IsRunnerSound (state_of runner.old (contents_at (memories store.old) table)) }
    requires right { IsRightFor (contents_at (memories store.old) table) (stamps_at store.old table) runner.old.cache }
    ensures executed { result ≡ executed_to_wait system.now steps (state_of runner.old (contents_at (memories store.old) table)) }
    ensures state { state_of runner.new (contents_at (memories store.new) table)
        ≡ after system.now result (state_of runner.old (contents_at (memories store.old) table)) }
    ensures others { ChangesAt table (memories store.old) (memories store.new) }
    ensures stamps { KeepsStamps store.old store.new table }
    ensures sound { IsRunnerSound (state_of runner.new (contents_at (memories store.new) table)) }
    ensures right { IsRightFor (contents_at (memories store.new) table) (stamps_at store.new table) runner.new.cache }
    ensures frames { store.new.private ≡ store.old.private }
    ensures store { IsSoundStore store.new }
{
    if steps < LEAST_COPIED || runner.session.mode != Mode::Program {
        let mut view = store.view(table);
        return grant_to_wait(system, runner, &mut view, steps);
    }
    scratch.reflect(store, table);
    let executed = grant_to_wait(system, runner, scratch, steps);
    store.put_back(table, scratch);
    executed
}

/// The same in the session at a place.
fn work_at(
    slots: &mut Vec<Slot>,
    store: &mut FrameStore,
    scratch: &mut FlatMemory,
    system: &Image,
    index: usize,
    steps: u64,
) -> u64
    requires index { index < length slots.old.items }
    requires have_tables { HaveTables (memories store.old) slots.old.items }
    requires cached { AllCached (memories store.old) store.old.stamps slots.old.items }
    ensures executed { IfSome (slice_get (slots_of (memories store.old) slots.old.items) index) (λ x. result ≡ executed_to_wait system.now steps x.state) }
    ensures served { IsServed system.now (Grant result) index (all_granted result)
        (slots_of (memories store.old) slots.old.items) (slots_of (memories store.new) slots.new.items) }
    ensures have_tables { HaveTables (memories store.new) slots.new.items }
    ensures cached { AllCached (memories store.new) store.new.stamps slots.new.items }
    ensures frames { store.new.private ≡ store.old.private }
    ensures store { IsSoundStore store.new }
{
    let slot = &mut slots[index];
    let table = slot.table;
    work_in_table(&mut slot.runner, store, scratch, table, system, steps)
}

impl Host {
    ghost use Rattle.cpm_slots.specs.Host.{after_ask, slot_at, work_reply};
    ghost use Rattle.cpm_slots.specs.Serving.{Calls};

    /// Executes the greatest number of steps of a slot, at most `steps`, that can be made and of which none waits for a key; says how many.
    pub fn grant_to_wait(&mut self, id: SlotId, steps: u64) -> Result<u64, Refusal>
        ensures reply { result ≡ work_reply self.old.host.system steps (slot_at id.0 self.old.host.slots) }
        ensures host { IfOk result (λ executed. self.new.host ≡ after_ask self.old.host id.0 (Calls (Grant executed))) }
        ensures unchanged { OnErr result (self.new ≡ self.old) }
    {
        match index_of(&self.slots, id) {
            None => Err(Refusal::NoSuchSlot),
            Some(index) => Ok(work_at(
                &mut self.slots,
                &mut self.store,
                &mut self.scratch,
                self.system.image(),
                index,
                steps,
            )),
        }
    }
}
