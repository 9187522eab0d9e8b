//! Sessions whose memories lie in one store of frames, by their places.

ghost use Rattle.std.specs.Prelude.{◌≡◌, ℕ, true, false, nat_lt, IfOk, IfErr, OnErr, ◌<◌, ◌≤◌, ◌*◌, ◌+◌};
ghost use Rattle.std.specs.Prelude.{List, Option, length, take, drop, sum_by, slice_get, remove, IfSome};
ghost use Rattle.std.specs.List.{All};
ghost use Rattle.cpm_geom.specs.Disk.{Disk};
ghost use Rattle.cpm_bdos.specs.Bounds.{IsFit};
ghost use Rattle.cpm_console.specs.Terminal.{pressed, most_pending};
ghost use Rattle.cpm_drives.specs.Disks.{images_of};
ghost use Rattle.cpm_memory.specs.Contents.{Contents, byte_at};
ghost use Rattle.cpm_memory.specs.Frames.{memories, stamps_at, IsTableTaken, KeepsStamps, IsStoreSound as IsSoundStore};
ghost use Rattle.cpm_decode.specs.Cache.{IsRightFor};
ghost use Rattle.cpm_machine.specs.Step.{after};
ghost use Rattle.cpm_machine.specs.Serve.{look_of};
ghost use Rattle.cpm_machine.specs.Calls.{Key};
ghost use Rattle.cpm_machine.specs.Runner.{state_of, IsRunnerSound};
ghost use Rattle.cpm_slots.specs.Host.{key_reply};
ghost use Rattle.cpm_slots.specs.Index.{IsIndex, Serves, IsServed};
ghost use Rattle.cpm_slots.specs.Serving.{take_call, grant_call, executed_to, why_to};
ghost use Rattle.cpm_slots.specs.Slots.{contents_at, slots_of, HaveTables, AllCached, ChangesAt};

use crate::event::{Refusal, Reply, SlotId};
use cpm_bdos::Mode;
use cpm_console::{Console, Device};
use cpm_flags::Cpu;
use cpm_geom::Image;
use cpm_machine::steps::{self, Runner};
use cpm_machine::{Closed, Granted, Look, until};
use cpm_memory::{FlatMemory, FrameStore, Memory, TableId};

/// The fewest steps for which the memory is copied. Below them its copy costs more than the steps gain by it.
pub(crate) const LEAST_COPIED: u64 = 1_500;

/// A session under the number of its opening, with the table of its memory.
#[derive(Drop)]
pub struct Slot {
    pub id: u64,
    pub runner: Runner,
    pub table: TableId,
}

/// Where the slot of that number is, if it is open.
pub fn index_of(slots: &[Slot], id: SlotId) -> Option<usize>
    ensures { (memories : List (Option Contents)) → IsIndex id.0 (slots_of memories slots.now) result }
{
    for (index, slot) in slots.iter().enumerate() {
        if slot.id == id.0 {
            return Some(index);
        }
    }
    None
}

/// How many pages all of them may write.
pub fn quotas_of(slots: &[Slot]) -> u64
    requires { length slots.now ≤ 64 }
    ensures sum { result ≡ sum_by (λ x. x.runner.quota) slots.now }
    ensures small { result ≤ 65535 * length slots.now }
{
    let mut total = 0;
    for slot in slots {
        total += u64::from(slot.runner.quota);
    }
    total
}

/// Does nothing, and says of each session that its columns and its line's length are bytes, and its addresses words.
pub fn numbers_fit(slots: &[Slot])
    ensures { All (λ slot. IsFit slot.runner.session) slots.now }
{
    for slot in slots {
        slot.runner.session.numbers_fit();
    }
}

/// Presses a key, which is refused where 4,096 are pending.
fn give(console: &mut Console, key: u8) -> Result<(), Refusal>
    ensures accepted { IfOk result (λ _. (nat_lt (length console.old.keys) most_pending ≡ true) × (console.new ≡ pressed console.old key)) }
    ensures refused { IfErr result (λ refusal. (refusal ≡ Refusal.KeysFull)
        × (nat_lt (length console.old.keys) most_pending ≡ false) × (console.new ≡ console.old)) }
{
    if console.give(key) {
        Ok(())
    } else {
        Err(Refusal::KeysFull)
    }
}

/// Presses a key in a session.
fn press(runner: &mut Runner, key: u8) -> Result<(), Refusal>
    ensures serves { (system : Disk) (memory : Contents) → Serves system (Key key) (key_reply result)
        (state_of runner.old memory) (state_of runner.new memory) }
    ensures sound { (memory : Contents) → IsRunnerSound (state_of runner.old memory) → IsRunnerSound (state_of runner.new memory) }
    ensures quota { runner.new.quota ≡ runner.old.quota }
    ensures cache { runner.new.cache ≡ runner.old.cache }
    ensures kept { OnErr result (runner.new ≡ runner.old) }
{
    give(&mut runner.session.console, key)
}

/// Moves out the first bytes of a session's device.
fn take_from(runner: &mut Runner, device: Device, out: &mut [u8]) -> usize
    ensures serves { (system : Disk) (memory : Contents) → Serves system (take_call device (length out.old))
        (Reply.Bytes (record { items = take result out.new })) (state_of runner.old memory) (state_of runner.new memory) }
    ensures rest { drop result out.new ≡ drop result out.old }
    ensures count { result ≤ length out.old }
    ensures length { length out.new ≡ length out.old }
    ensures sound { (memory : Contents) → IsRunnerSound (state_of runner.old memory) → IsRunnerSound (state_of runner.new memory) }
    ensures quota { runner.new.quota ≡ runner.old.quota }
    ensures cache { runner.new.cache ≡ runner.old.cache }
{
    runner.session.console.take_from(device, out)
}

/// Presses a key in the session at a place.
pub fn key_at(slots: &mut Vec<Slot>, index: usize, key: u8) -> Result<(), Refusal>
    requires { index < length slots.old.items }
    ensures served { (system : Disk) (memories : List (Option Contents)) → IsServed system (Key key) index (key_reply result)
        (slots_of memories slots.old.items) (slots_of memories slots.new.items) }
    ensures have_tables { (memories : List (Option Contents)) → HaveTables memories slots.old.items → HaveTables memories slots.new.items }
    ensures cached { (memories : List (Option Contents)) (stamps : List (List ℕ)) → AllCached memories stamps slots.old.items
        → AllCached memories stamps slots.new.items }
    ensures kept { OnErr result (slots.new.items ≡ slots.old.items) }
{
    let slot = &mut slots[index];
    press(&mut slot.runner, key)
}

/// Moves out the first bytes of a device of the session at a place, as many as fit, and says how many.
pub fn take_at(slots: &mut Vec<Slot>, index: usize, device: Device, out: &mut [u8]) -> usize
    requires { index < length slots.old.items }
    ensures served { (system : Disk) (memories : List (Option Contents)) → IsServed system (take_call device (length out.old)) index
        (Reply.Bytes (record { items = take result out.new })) (slots_of memories slots.old.items) (slots_of memories slots.new.items) }
    ensures rest { drop result out.new ≡ drop result out.old }
    ensures count { result ≤ length out.old }
    ensures length { length out.new ≡ length out.old }
    ensures have_tables { (memories : List (Option Contents)) → HaveTables memories slots.old.items → HaveTables memories slots.new.items }
    ensures cached { (memories : List (Option Contents)) (stamps : List (List ℕ)) → AllCached memories stamps slots.old.items
        → AllCached memories stamps slots.new.items }
{
    let slot = &mut slots[index];
    take_from(&mut slot.runner, device, out)
}

/// Executes the greatest number of steps, at most `steps`, that can be made and of which none but the first begins in the program
/// at the stop, where there is one.
fn grant_to<M: Memory>(
    system: &Image,
    runner: &mut Runner,
    memory: &mut M,
    steps: u64,
    stop: Option<u16>,
) -> Granted
    requires sound { IsRunnerSound (state_of runner.old (M.contents memory.old)) }
    requires right { IsRightFor (M.contents memory.old) (M.stamps memory.old) runner.old.cache }
    ensures executed { result.executed ≡ executed_to system.now stop steps (state_of runner.old (M.contents memory.old)) }
    ensures why { result.why ≡ why_to stop steps result.executed (state_of runner.new (M.contents memory.new)) }
    ensures state { state_of runner.new (M.contents memory.new) ≡ after system.now result.executed (state_of runner.old (M.contents memory.old)) }
    ensures sound { IsRunnerSound (state_of runner.new (M.contents memory.new)) }
    ensures right { IsRightFor (M.contents memory.new) (M.stamps memory.new) runner.new.cache }
    ensures leads { M.Leads memory.old memory.new }
{
    match stop {
        None => steps::grant(system, runner, memory, steps),
        Some(pc) => until::grant_until(system, runner, memory, steps, pc),
    }
}

/// The same in a session whose memory is a table of the store. Where it begins in a program, and there are steps enough and no
/// stop, the memory is copied for them, and its copy is put back. What the copy was before makes no difference.
fn grant_table(
    runner: &mut Runner,
    store: &mut FrameStore,
    scratch: &mut FlatMemory,
    table: TableId,
    system: &Image,
    steps: u64,
    stop: Option<u16>,
) -> Granted
    requires taken { IsTableTaken store.old table }
    requires sound { IsRunnerSound (state_of runner.old (contents_at (memories store.old) table)) }
    requires right { IsRightFor (contents_at (memories store.old) table) (stamps_at store.old table) runner.old.cache }
    ensures executed { result.executed ≡ executed_to system.now stop steps (state_of runner.old (contents_at (memories store.old) table)) }
    ensures why { result.why ≡ why_to stop steps result.executed (state_of runner.new (contents_at (memories store.new) table)) }
    ensures state { state_of runner.new (contents_at (memories store.new) table)
        ≡ after system.now result.executed (state_of runner.old (contents_at (memories store.old) table)) }
    ensures others { ChangesAt table (memories store.old) (memories store.new) }
    ensures stamps { KeepsStamps store.old store.new table }
    ensures sound { IsRunnerSound (state_of runner.new (contents_at (memories store.new) table)) }
    ensures right { IsRightFor (contents_at (memories store.new) table) (stamps_at store.new table) runner.new.cache }
    ensures frames { store.new.private ≡ store.old.private }
    ensures store { IsSoundStore store.new }
{
    if stop.is_some() || steps < LEAST_COPIED || runner.session.mode != Mode::Program {
        let mut view = store.view(table);
        return grant_to(system, runner, &mut view, steps, stop);
    }
    scratch.reflect(store, table);
    let granted = steps::grant(system, runner, scratch, steps);
    store.put_back(table, scratch);
    granted
}

/// The same in the session at a place.
pub fn grant_at(
    slots: &mut Vec<Slot>,
    store: &mut FrameStore,
    scratch: &mut FlatMemory,
    system: &Image,
    index: usize,
    steps: u64,
    stop: Option<u16>,
) -> Granted
    requires index { index < length slots.old.items }
    requires have_tables { HaveTables (memories store.old) slots.old.items }
    requires cached { AllCached (memories store.old) store.old.stamps slots.old.items }
    ensures served { IsServed system.now (grant_call stop steps) index (Reply.Granted result)
        (slots_of (memories store.old) slots.old.items) (slots_of (memories store.new) slots.new.items) }
    ensures have_tables { HaveTables (memories store.new) slots.new.items }
    ensures cached { AllCached (memories store.new) store.new.stamps slots.new.items }
    ensures frames { store.new.private ≡ store.old.private }
    ensures store { IsSoundStore store.new }
{
    let slot = &mut slots[index];
    let table = slot.table;
    grant_table(&mut slot.runner, store, scratch, table, system, steps, stop)
}

/// What is seen of the session at a place. The store is lent for reading alone.
pub fn look_at(slots: &[Slot], store: &mut FrameStore, index: usize) -> Look
    requires index { index < length slots.now }
    requires have_tables { HaveTables (memories store.old) slots.now }
    ensures look { IfSome (slice_get (slots_of (memories store.old) slots.now) index) (λ x. result ≡ look_of x.state) }
    ensures unchanged { store.new ≡ store.old }
{
    let slot = &slots[index];
    let view = store.view(slot.table);
    steps::look_of(&slot.runner, &view)
}

/// A byte of the memory of the session at a place.
pub fn peek_at(slots: &[Slot], store: &FrameStore, index: usize, address: u16) -> u8
    requires index { index < length slots.now }
    requires have_tables { HaveTables (memories store.now) slots.now }
    ensures { IfSome (slice_get (slots_of (memories store.now) slots.now) index) (λ x. result ≡ byte_at x.state.memory address) }
{
    let slot = &slots[index];
    let frame = store.place(slot.table, (address / 256) as u8);
    store.frame(frame)[(address % 256) as usize]
}

/// The table of the session at a place.
pub fn table_at(slots: &[Slot], index: usize) -> TableId
    requires { index < length slots.now }
    ensures { IfSome (slice_get slots.now index) (λ slot. result ≡ slot.table) }
{
    let slot = &slots[index];
    slot.table
}

/// The processor of the session at a place.
pub fn cpu_at(slots: &[Slot], index: usize) -> Cpu
    requires { index < length slots.now }
    ensures { (memories : List (Option Contents)) → IfSome (slice_get (slots_of memories slots.now) index) (λ x. result ≡ x.state.cpu) }
{
    let slot = &slots[index];
    slot.runner.cpu
}

/// Takes the session at a place away, and gives its frames up. Bytes not taken are dropped.
pub fn close_at(slots: &mut Vec<Slot>, store: &mut FrameStore, index: usize) -> Closed
    requires index { index < length slots.old.items }
    requires have_tables { HaveTables (memories store.old) slots.old.items }
    requires cached { AllCached (memories store.old) store.old.stamps slots.old.items }
    ensures closed { IfSome (slice_get (slots_of (memories store.old) slots.old.items) index)
        (λ x. (result.look ≡ look_of x.state) × (result.drives ≡ images_of x.state.session.disks)) }
    ensures slots { slots_of (memories store.new) slots.new.items ≡ remove (slots_of (memories store.old) slots.old.items) index }
    ensures have_tables { HaveTables (memories store.new) slots.new.items }
    ensures cached { AllCached (memories store.new) store.new.stamps slots.new.items }
    ensures frames { store.new.private ≡ store.old.private }
    ensures store { IsSoundStore store.new }
{
    let look = look_at(slots, store, index);
    let Slot { runner, table, .. } = slots.remove(index);
    store.release(table);
    let Runner { session, .. } = runner;
    let drives = session.disks.into_images();
    Closed { look, drives }
}
