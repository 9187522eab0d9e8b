//! Up to 64 sessions over one system drive.

ghost use Rattle.std.specs.Prelude.{◌≡◌, ℕ, ◌≤◌, ◌<◌, [], length, drop, None, Some, IfOk, IfErr, IfNone, IfSome, OnErr};
ghost use Rattle.cpm_geom.specs.Disk.{Disk};
ghost use Rattle.cpm_drives.specs.Disks.{images_of};
ghost use Rattle.cpm_console.specs.Terminal.{blank_terminal};
ghost use Rattle.cpm_memory.specs.Frames.{memories, IsStoreSound, IsTableTaken};
ghost use Rattle.cpm_memory.specs.Opening.{opening as memory_opening};
ghost use Rattle.cpm_memory.specs.Tabulated.{tabulated};
ghost use Rattle.cpm_machine.specs.Laws.{IsStepBounded};
ghost use Rattle.cpm_machine.specs.MachineState.{MachineState};
ghost use Rattle.cpm_machine.specs.Opening.{IsRefusal};
ghost use Rattle.cpm_machine.specs.Runner.{state_of};
ghost use Rattle.cpm_machine.specs.Serve.{look_of};
ghost use Rattle.cpm_machine.specs.Step.{step};
ghost use Rattle.cpm_machine.specs.Calls.{Key, Grant, GrantUntil, Take, TakeList, LookAt, Peek};
ghost use Rattle.cpm_slots.specs.Host.{opened_slot};
ghost use Rattle.cpm_slots.specs.Serving.{Calls, Closes, take_call, grant_call};

use crate::event::{Refusal, SlotId};
use crate::slots::{
    Slot, close_at, cpu_at, grant_at, index_of, key_at, look_at, numbers_fit, peek_at, quotas_of,
    table_at, take_at,
};
use crate::system::SystemDrive;
use cpm_bdos::Session;
use cpm_console::{Console, Device};
use cpm_decode::DecodeCache;
use cpm_drives::EntryRooms;
use cpm_flags::Cpu;
use cpm_geom::Image;
use cpm_machine::steps::Runner;
use cpm_machine::{Closed, End, Granted, Look, OpenError, Opening};
use cpm_memory::{FlatMemory, FrameStore, MOST_FRAMES, TableId};
use std::alloc::{AllocError, Global};
use std::marker::Model;

/// How many slots may be open.
pub const MOST_SLOTS: usize = 64;

/// The fewest frames that a host may have: the least quota of one slot.
pub const LEAST_FRAMES: u16 = 16;

/// Up to 64 sessions over one system drive. Their memories are made of frames of one store.
#[derive(Drop)]
pub struct Host {
    pub(crate) system: SystemDrive,
    pub(crate) frames: u16,
    pub(crate) openings: u64,
    pub(crate) store: FrameStore,
    pub(crate) slots: Vec<Slot>,
    /// A copy of the memory that is worked on. What is in it between calls makes no difference to any slot.
    pub(crate) scratch: FlatMemory,
}

impl Model for Host {
    ghost use Rattle.std.specs.Prelude.{◌≡◌};
    ghost use Rattle.cpm_memory.specs.Frames.{memories, IsStoreSound};
    ghost use Rattle.cpm_slots.specs.Host.{IsHost};
    ghost use Rattle.cpm_slots.specs.HostWithStore.{HostWithStore};
    ghost use Rattle.cpm_slots.specs.Slots.{host_with_store, HaveTables, AllCached};

    ghost Value = { HostWithStore };

    ghost view = { λ h. host_with_store h.system h.frames h.openings h.store h.slots.items };

    ghost invariant = { λ h. IsHost (host_with_store h.system h.frames h.openings h.store h.slots.items).host
        × HaveTables (memories h.store) h.slots.items × (h.store.private ≡ h.frames) × IsStoreSound h.store
        × AllCached (memories h.store) h.store.stamps h.slots.items };
}

/// What a host takes memory for: its frames, its places and the copy that it works on.
fn allocate(alloc: Global, frames: u16) -> Result<(FrameStore, Vec<Slot>, FlatMemory), AllocError>
    requires { frames ≤ MOST_FRAMES }
    ensures frames { IfOk result (λ r. r.0.private ≡ frames) }
    ensures sound { IfOk result (λ r. IsStoreSound r.0) }
    ensures memories { IfOk result (λ r. memories r.0 ≡ tabulated 64 (λ _. None)) }
    ensures slots { IfOk result (λ r. r.1.items ≡ []) }
{
    let store = FrameStore::new(alloc, frames)?;
    let slots = Vec::with_capacity(alloc, MOST_SLOTS)?;
    let scratch = FlatMemory::new(alloc)?;
    Ok((store, slots, scratch))
}

impl Host {
    ghost use Rattle.cpm_slots.specs.Host.{new_host, lacks_frames, lacks_slot, refusal_of, with_opened, slot_at, reply_at, after_ask};
    ghost use Rattle.cpm_slots.specs.Host.{IsHost, cpu_reply, key_reply, grant_reply, take_reply, look_reply, peek_reply, close_reply};
    ghost use Rattle.cpm_slots.specs.HostWithStore.{table_of, table_reply, IsInTable, IsHostWithStore};

    /// A host with this system drive and so many frames, and no slot open. Out of memory, it hands the drive back.
    pub fn new(alloc: Global, system: Image, frames: u16) -> Result<Host, (Image, OpenError)>
        requires least { LEAST_FRAMES ≤ frames }
        requires most { frames ≤ MOST_FRAMES }
        ensures made { IfOk result (λ h. h.host ≡ new_host system frames) }
        ensures refused { IfErr result (λ r. (r.0 ≡ system) × (r.1 ≡ OpenError.OutOfMemory)) }
    {
        match allocate(alloc, frames) {
            Ok((store, slots, scratch)) => Ok(Host {
                system: SystemDrive::new(system),
                frames,
                openings: 0,
                store,
                slots,
                scratch,
            }),
            Err(_) => Err((system, OpenError::OutOfMemory)),
        }
    }

    /// Why an opening is refused, memory aside.
    fn refusal(&self, opening: &Opening) -> Option<OpenError>
        ensures refusal { result ≡ refusal_of self.now.host opening.now }
        ensures room { IfNone result (length self.now.host.slots < MOST_SLOTS) }
    {
        if let Some(fault) = opening.fault() {
            return Some(fault);
        }
        if self.lacks_slot() {
            Some(OpenError::NoSlot)
        } else if self.lacks_frames(opening.quota) {
            Some(OpenError::NoFrames)
        } else {
            None
        }
    }

    /// Whether 64 slots are open, or no number is left.
    pub(crate) fn lacks_slot(&self) -> bool
        ensures { result ≡ lacks_slot self.now.host }
    {
        self.slots.len() >= MOST_SLOTS || self.openings == u64::MAX
    }

    /// Whether the quotas of all open slots and this one exceed the frames.
    pub(crate) fn lacks_frames(&self, quota: u16) -> bool
        ensures { result ≡ lacks_frames self.now.host quota }
    {
        u64::from(self.frames) < quotas_of(&self.slots) + u64::from(quota)
    }

    /// Opens a slot, and gives its number. What is refused comes back with the reason: a quota that is not 16 to 256 pages, then no drive
    /// or more than four, then 64 slots open or no number left, then quotas of all open slots and this one that exceed the frames, then
    /// if out of memory. Nothing is changed then.
    pub fn open(&mut self, alloc: Global, opening: Opening) -> Result<SlotId, (Opening, OpenError)>
        ensures opened { IfOk result (λ id. self.new.host ≡ with_opened self.old.host opening) }
        ensures number { IfOk result (λ id. id.0 ≡ self.old.host.openings) }
        ensures fits { IfOk result (λ id. refusal_of self.old.host opening ≡ None) }
        ensures refused { IfErr result (λ r. IsRefusal (refusal_of self.old.host opening) r.1) }
        ensures handed_back { IfErr result (λ r. r.0 ≡ opening) }
        ensures unchanged { OnErr result (self.new ≡ self.old) }
    {
        if let Some(fault) = self.refusal(&opening) {
            return Err((opening, fault));
        }
        let Ok(console) = Console::new(alloc) else {
            return Err((opening, OpenError::OutOfMemory));
        };
        let Ok(cache) = DecodeCache::new(alloc) else {
            return Err((opening, OpenError::OutOfMemory));
        };
        let Ok(rooms) = EntryRooms::new(alloc, opening.drives.len()) else {
            return Err((opening, OpenError::OutOfMemory));
        };
        if self.slots.try_reserve(1).is_err() {
            return Err((opening, OpenError::OutOfMemory));
        }
        let Ok(table) = self.store.reserve(opening.quota) else {
            unreachable!();
        };
        let id = self.openings;
        let runner = opened(opening, console, cache, rooms);
        self.slots.push_reserved(Slot { id, runner, table });
        self.openings += 1;
        Ok(SlotId(id))
    }

    /// Presses a key in a slot. It is refused where 4,096 keys are pending.
    pub fn key(&mut self, id: SlotId, key: u8) -> Result<(), Refusal>
        ensures reply { key_reply result ≡ reply_at self.old.host id.0 (Calls (Key key)) }
        ensures host { self.new.host ≡ after_ask self.old.host id.0 (Calls (Key key)) }
        ensures unchanged { OnErr result (self.new ≡ self.old) }
    {
        match index_of(&self.slots, id) {
            None => Err(Refusal::NoSuchSlot),
            Some(index) => key_at(&mut self.slots, index, key),
        }
    }

    /// Executes the greatest number of steps of a slot, at most `steps`, that can be made and of which none but the first begins
    /// in the program at the stop, where there is one.
    fn grant_to(&mut self, id: SlotId, steps: u64, stop: Option<u16>) -> Result<Granted, Refusal>
        ensures reply { grant_reply result ≡ reply_at self.old.host id.0 (Calls (grant_call stop steps)) }
        ensures host { self.new.host ≡ after_ask self.old.host id.0 (Calls (grant_call stop steps)) }
        ensures unchanged { OnErr result (self.new ≡ self.old) }
    {
        match index_of(&self.slots, id) {
            None => Err(Refusal::NoSuchSlot),
            Some(index) => Ok(grant_at(
                &mut self.slots,
                &mut self.store,
                &mut self.scratch,
                self.system.image(),
                index,
                steps,
                stop,
            )),
        }
    }

    /// Executes the greatest number of steps of a slot, at most `steps`, that can be made.
    pub fn grant(&mut self, id: SlotId, steps: u64) -> Result<Granted, Refusal>
        ensures reply { grant_reply result ≡ reply_at self.old.host id.0 (Calls (Grant steps)) }
        ensures host { self.new.host ≡ after_ask self.old.host id.0 (Calls (Grant steps)) }
        ensures unchanged { OnErr result (self.new ≡ self.old) }
    {
        self.grant_to(id, steps, None)
    }

    /// Executes the greatest number of steps of a slot, at most `steps`, that can be made and of which none but the first begins
    /// in the program at `pc`.
    pub fn grant_until(&mut self, id: SlotId, steps: u64, pc: u16) -> Result<Granted, Refusal>
        ensures reply { grant_reply result ≡ reply_at self.old.host id.0 (Calls (GrantUntil steps pc)) }
        ensures host { self.new.host ≡ after_ask self.old.host id.0 (Calls (GrantUntil steps pc)) }
        ensures unchanged { OnErr result (self.new ≡ self.old) }
    {
        self.grant_to(id, steps, Some(pc))
    }

    /// Moves out the first bytes of a slot's device, as many as fit, and says how many.
    pub fn take_from(
        &mut self,
        id: SlotId,
        device: Device,
        out: &mut [u8],
    ) -> Result<usize, Refusal>
        ensures reply { take_reply result out.new ≡ reply_at self.old.host id.0 (Calls (take_call device (length out.old))) }
        ensures rest { IfOk result (λ count. drop count out.new ≡ drop count out.old) }
        ensures count { IfOk result (λ count. count ≤ length out.old) }
        ensures length { length out.new ≡ length out.old }
        ensures refused { OnErr result (out.new ≡ out.old) }
        ensures host { self.new.host ≡ after_ask self.old.host id.0 (Calls (take_call device (length out.old))) }
        ensures unchanged { OnErr result (self.new ≡ self.old) }
    {
        match index_of(&self.slots, id) {
            None => Err(Refusal::NoSuchSlot),
            Some(index) => Ok(take_at(&mut self.slots, index, device, out)),
        }
    }

    /// Moves out the first console bytes of a slot, as many as fit, and says how many.
    pub fn take(&mut self, id: SlotId, out: &mut [u8]) -> Result<usize, Refusal>
        ensures reply { take_reply result out.new ≡ reply_at self.old.host id.0 (Calls (Take (length out.old))) }
        ensures rest { IfOk result (λ count. drop count out.new ≡ drop count out.old) }
        ensures count { IfOk result (λ count. count ≤ length out.old) }
        ensures length { length out.new ≡ length out.old }
        ensures refused { OnErr result (out.new ≡ out.old) }
        ensures host { self.new.host ≡ after_ask self.old.host id.0 (Calls (Take (length out.old))) }
        ensures unchanged { OnErr result (self.new ≡ self.old) }
    {
        self.take_from(id, Device::Console, out)
    }

    /// Moves out the first list bytes of a slot, as many as fit, and says how many.
    pub fn take_list(&mut self, id: SlotId, out: &mut [u8]) -> Result<usize, Refusal>
        ensures reply { take_reply result out.new ≡ reply_at self.old.host id.0 (Calls (TakeList (length out.old))) }
        ensures rest { IfOk result (λ count. drop count out.new ≡ drop count out.old) }
        ensures count { IfOk result (λ count. count ≤ length out.old) }
        ensures length { length out.new ≡ length out.old }
        ensures refused { OnErr result (out.new ≡ out.old) }
        ensures host { self.new.host ≡ after_ask self.old.host id.0 (Calls (TakeList (length out.old))) }
        ensures unchanged { OnErr result (self.new ≡ self.old) }
    {
        self.take_from(id, Device::List, out)
    }

    /// What is seen of a slot. Its memory is lent for reading alone.
    pub fn look(&mut self, id: SlotId) -> Result<Look, Refusal>
        ensures reply { look_reply result ≡ reply_at self.old.host id.0 (Calls LookAt) }
        ensures host { self.new.host ≡ after_ask self.old.host id.0 (Calls LookAt) }
        ensures unchanged { self.new ≡ self.old }
    {
        match index_of(&self.slots, id) {
            None => Err(Refusal::NoSuchSlot),
            Some(index) => Ok(look_at(&self.slots, &mut self.store, index)),
        }
    }

    /// The byte at an address of a slot's memory.
    pub fn peek(&self, id: SlotId, address: u16) -> Result<u8, Refusal>
        ensures reply { peek_reply result ≡ reply_at self.now.host id.0 (Calls (Peek address)) }
        ensures unchanged { after_ask self.now.host id.0 (Calls (Peek address)) ≡ self.now.host }
    {
        match index_of(&self.slots, id) {
            None => Err(Refusal::NoSuchSlot),
            Some(index) => Ok(peek_at(&self.slots, &self.store, index, address)),
        }
    }

    /// The processor of a slot.
    pub fn cpu(&self, id: SlotId) -> Result<Cpu, Refusal>
        ensures { result ≡ cpu_reply (slot_at id.0 self.now.host.slots) }
    {
        match index_of(&self.slots, id) {
            None => Err(Refusal::NoSuchSlot),
            Some(index) => Ok(cpu_at(&self.slots, index)),
        }
    }

    /// The table of a slot's memory, which no other slot has.
    pub fn table(&self, id: SlotId) -> Result<TableId, Refusal>
        ensures table { result ≡ table_reply (table_of id.0 self.now.tables) }
        ensures taken { IfOk result (λ t. IsTableTaken self.now.store t) }
        ensures in_table { IfOk result (λ t. IfSome (slot_at id.0 self.now.host.slots) (λ s. IsInTable self.now id.0 s t)) }
        ensures refused { IfErr result (λ fault. slot_at id.0 self.now.host.slots ≡ None) }
    {
        match index_of(&self.slots, id) {
            None => Err(Refusal::NoSuchSlot),
            Some(index) => Ok(table_at(&self.slots, index)),
        }
    }

    /// The store of which the memories of all slots are made.
    pub fn store(&self) -> &FrameStore
        ensures store { result.now ≡ self.now.store }
        ensures frames { IsHostWithStore self.now }
    {
        &self.store
    }

    /// Does nothing, and says that a step of a slot that is open newly writes at most 8 pages and puts at most 4,096 bytes on each
    /// device, whatever the system drive.
    pub fn steps_are_bounded(&self)
        ensures { (system : Disk) (id : ℕ) (s : MachineState) → slot_at id self.now.host.slots ≡ Some s → IsStepBounded s (step system s) }
    {
        numbers_fit(&self.slots);
    }

    /// Does nothing, and says that the slots are in the order of their numbers, which were all given, that they are at most 64, and that their quotas
    /// are within the frames.
    pub fn slots_are_orderly(&self)
        ensures { IsHost self.now.host }
    {
        let _open = self.slots.len();
    }

    /// Closes a slot, whose number never comes again, and gives what is left of it. Bytes not taken are dropped.
    pub fn close(&mut self, id: SlotId) -> Result<Closed, Refusal>
        ensures reply { close_reply result ≡ reply_at self.old.host id.0 Closes }
        ensures closed { IfOk result (λ c. IfSome (slot_at id.0 self.old.host.slots) (λ s. (c.look ≡ look_of s) × (c.drives ≡ images_of s.session.disks))) }
        ensures host { self.new.host ≡ after_ask self.old.host id.0 Closes }
        ensures unchanged { OnErr result (self.new ≡ self.old) }
    {
        match index_of(&self.slots, id) {
            None => Err(Refusal::NoSuchSlot),
            Some(index) => Ok(close_at(&mut self.slots, &mut self.store, index)),
        }
    }
}

/// A session at its opening, with this console, this cache and this room for the entries of its drives.
fn opened(opening: Opening, console: Console, cache: DecodeCache, rooms: EntryRooms) -> Runner
    requires { console ≡ blank_terminal }
    ensures state { state_of result (memory_opening opening.quota) ≡ opened_slot opening }
    ensures cache { result.cache ≡ cache }
{
    let Opening { cpu, quota, drives } = opening;
    let mut session = Session::new(console, drives);
    session.disks.keep_entries(rooms);
    Runner {
        cpu,
        session,
        quota,
        count: 0,
        ended: End::Running,
        with_program: false,
        cache,
    }
}
