//! A host, and a slot that is opened beside two others.

use crate::CallOutcome;
use crate::machines::{is_handed_back, is_marked, marked, opening};
use cpm_flags::Cpu;
use cpm_machine::{Look, OpenError};
use cpm_slots::{ForkError, Host, HostRestoreError, SaveError, SlotId};
use std::alloc::{AllocError, Global};

pub fn new(alloc: Global) -> Result<CallOutcome, AllocError> {
    let system = marked(alloc)?;
    Ok(match Host::new(alloc, system, 64) {
        Ok(_) => CallOutcome::Made,
        Err((back, OpenError::OutOfMemory)) => CallOutcome::refused_if(is_marked(&back)),
        Err(_) => CallOutcome::Wrong,
    })
}

/// All that can be seen of a slot: its look, and each byte of its memory.
#[derive(Drop, PartialEq)]
struct WholeSlot {
    look: Option<Look>,
    memory: Vec<u8>,
}

fn memory_of(alloc: Global, host: &Host, id: SlotId) -> Result<Vec<u8>, AllocError> {
    let mut memory = Vec::with_capacity(alloc, 65_536)?;
    for address in 0..=u16::MAX {
        memory.push(host.peek(id, address).unwrap_or(0))?;
    }
    Ok(memory)
}

fn look_at(alloc: Global, host: &mut Host, id: SlotId) -> Result<WholeSlot, AllocError> {
    let memory = memory_of(alloc, host, id)?;
    let look = host.look(id).ok();
    Ok(WholeSlot { look, memory })
}

/// Opens a slot, types a command at it, and makes so many steps of it.
fn start(alloc: Global, host: &mut Host, cpu: Cpu, steps: u64) -> Result<SlotId, AllocError> {
    let Ok(id) = host.open(alloc, opening(alloc, cpu, 16)?) else {
        return Err(AllocError);
    };
    for key in *b"SAVE 2 A.COM\r" {
        let _ = host.key(id, key);
    }
    let _ = host.grant(id, steps);
    Ok(id)
}

/// Opens a third slot, once more where memory was refused.
fn open_third(alloc: Global, host: &mut Host) -> Result<CallOutcome, AllocError> {
    let opening = opening(alloc, Cpu::I8080, 16)?;
    Ok(match host.open(alloc, opening) {
        Ok(id) if id == SlotId(2) => CallOutcome::Made,
        Err((back, OpenError::OutOfMemory)) => {
            CallOutcome::refused_if(is_handed_back(&back, Cpu::I8080, 16))
        }
        _ => CallOutcome::Wrong,
    })
}

/// Whether what can be seen of a slot is what was seen, and it goes on.
fn is_as_before(
    alloc: Global,
    host: &mut Host,
    id: SlotId,
    before: &WholeSlot,
) -> Result<bool, AllocError> {
    let now = look_at(alloc, host, id)?;
    Ok(now.look.is_some() && now == *before && host.grant(id, 5).is_ok_and(|did| did.executed == 5))
}

/// Whether that holds of both slots.
fn are_as_before(
    alloc: Global,
    host: &mut Host,
    before: &[WholeSlot; 2],
) -> Result<bool, AllocError> {
    let [first, second] = before;
    Ok(
        is_as_before(alloc, host, SlotId(0), first)?
            && is_as_before(alloc, host, SlotId(1), second)?,
    )
}

/// A host with two slots, and what can be seen of them.
#[derive(Drop)]
struct HostOfTwo {
    host: Host,
    before: [WholeSlot; 2],
}

/// Starts two slots, and looks at them.
fn start_both(alloc: Global, host: &mut Host) -> Result<[WholeSlot; 2], AllocError> {
    let first = start(alloc, host, Cpu::I8080, 17)?;
    let second = start(alloc, host, Cpu::Z80, 3)?;
    let first = look_at(alloc, host, first)?;
    let second = look_at(alloc, host, second)?;
    Ok([first, second])
}

/// A new host with two slots.
fn host_of_two(alloc: Global) -> Result<HostOfTwo, AllocError> {
    let Ok(mut host) = Host::new(alloc, marked(alloc)?, 48) else {
        return Err(AllocError);
    };
    let before = start_both(alloc, &mut host)?;
    Ok(HostOfTwo { host, before })
}

/// Opens a slot in a host that has two, whose looks and memories are compared before and after. After a refusal the third opens with the
/// number that it would have had.
fn open_beside(
    alloc: Global,
    host: &mut Host,
    before: &[WholeSlot; 2],
) -> Result<CallOutcome, AllocError> {
    let outcome = open_third(alloc, host)?;
    if !are_as_before(alloc, host, before)? {
        return Ok(CallOutcome::Wrong);
    }
    if outcome == CallOutcome::Refused && open_third(alloc, host)? != CallOutcome::Made {
        return Ok(CallOutcome::Wrong);
    }
    Ok(outcome)
}

/// Forks the first slot, once more where memory was refused.
fn fork_first(alloc: Global, host: &mut Host) -> CallOutcome {
    match host.fork(alloc, SlotId(0)) {
        Ok(id) if id == SlotId(2) => CallOutcome::Made,
        Err(ForkError::OutOfMemory) => CallOutcome::Refused,
        _ => CallOutcome::Wrong,
    }
}

/// Forks a slot in a host that has two, whose looks and memories are compared before and after. What is seen of the fork is what is seen of
/// the slot that was forked.
fn fork_beside(
    alloc: Global,
    host: &mut Host,
    before: &[WholeSlot; 2],
) -> Result<CallOutcome, AllocError> {
    let outcome = fork_first(alloc, host);
    if outcome == CallOutcome::Refused && fork_first(alloc, host) != CallOutcome::Made {
        return Ok(CallOutcome::Wrong);
    }
    let is_right = are_as_before(alloc, host, before)?
        && is_as_before(alloc, host, SlotId(2), &before[0])?;
    Ok(if is_right {
        outcome
    } else {
        CallOutcome::Wrong
    })
}

/// The same in a new host.
pub fn fork(alloc: Global) -> Result<CallOutcome, AllocError> {
    let mut two = host_of_two(alloc)?;
    fork_beside(alloc, &mut two.host, &two.before)
}

/// A third slot beside two in a new host.
pub fn open(alloc: Global) -> Result<CallOutcome, AllocError> {
    let mut two = host_of_two(alloc)?;
    open_beside(alloc, &mut two.host, &two.before)
}

/// Saves the first slot, once more where memory was refused.
fn save_first(alloc: Global, host: &mut Host) -> Result<CallOutcome, AllocError> {
    Ok(match host.save(alloc, SlotId(0)) {
        Ok(_) => CallOutcome::Made,
        Err(SaveError::OutOfMemory) => CallOutcome::refused_if(host.save(alloc, SlotId(0)).is_ok()),
        Err(SaveError::NoSuchSlot) => CallOutcome::Wrong,
    })
}

/// Saves a slot of a new host that has two, whose looks and memories are compared before and after.
pub fn save(alloc: Global) -> Result<CallOutcome, AllocError> {
    let mut two = host_of_two(alloc)?;
    let outcome = save_first(alloc, &mut two.host)?;
    if are_as_before(alloc, &mut two.host, &two.before)? {
        Ok(outcome)
    } else {
        Ok(CallOutcome::Wrong)
    }
}

/// Opens a third slot of a saving.
fn restore_third(alloc: Global, host: &mut Host, saved: &[u8]) -> CallOutcome {
    match host.restore(alloc, saved) {
        Ok(id) if id == SlotId(2) => CallOutcome::Made,
        Err(HostRestoreError::OutOfMemory) => CallOutcome::Refused,
        _ => CallOutcome::Wrong,
    }
}

/// Opens a slot of a saving of the first one in a host that has two, whose looks and memories are compared before and after. After a refusal it opens with the
/// number that it would have had.
fn restore_beside(
    alloc: Global,
    host: &mut Host,
    before: &[WholeSlot; 2],
) -> Result<CallOutcome, AllocError> {
    let Ok(saved) = host.save(alloc, SlotId(0)) else {
        return Err(AllocError);
    };
    let outcome = restore_third(alloc, host, saved.as_slice());
    if outcome == CallOutcome::Refused
        && restore_third(alloc, host, saved.as_slice()) != CallOutcome::Made
    {
        return Ok(CallOutcome::Wrong);
    }
    let is_right = are_as_before(alloc, host, before)?
        && is_as_before(alloc, host, SlotId(2), &before[0])?;
    Ok(if is_right {
        outcome
    } else {
        CallOutcome::Wrong
    })
}

/// The same in a new host.
pub fn restore(alloc: Global) -> Result<CallOutcome, AllocError> {
    let mut two = host_of_two(alloc)?;
    restore_beside(alloc, &mut two.host, &two.before)
}
