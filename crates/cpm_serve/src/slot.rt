//! Requests that a slot answers by itself.
ghost use Rattle.std.specs.Prelude.{◌≡◌, ◌++◌, IfOk, IfSome, chars, true};
ghost use Rattle.cpm_memory.specs.Contents.{run_at};
ghost use Rattle.cpm_protocol.specs.Bytes.{is_byte_text};
ghost use Rattle.cpm_protocol.specs.Requests.{Key, Look, Peek};
ghost use Rattle.cpm_slots.specs.Host.{slot_at};
ghost use Rattle.cpm_serve.specs.Owned.{owned_answer};
ghost use Rattle.cpm_serve.specs.Served.{IsRequestServed, after_asks};
ghost use Rattle.cpm_serve.specs.Slot.{accepted_in, key_asks, device_asked};

use crate::owned::{OwnedReply, refused};
use crate::seen::look_seen;
use cpm_console::Device;
use cpm_protocol::{WireRefusal, WireReply, bytes_of};
use cpm_slots::{Host, SlotId};
use std::alloc::{AllocError, Global};

/// Offers keys to a slot, one after another, and says how many it accepted.
pub(crate) fn offer(host: &mut Host, id: SlotId, keys: &[u8]) -> usize
    ensures host { host.new.host ≡ after_asks id.0 (key_asks keys.now) host.old.host }
    ensures accepted { result ≡ accepted_in keys.now (slot_at id.0 host.old.host.slots) }
{
    let mut accepted = 0;
    for key in keys {
        if host.key(id, *key).is_ok() {
            accepted += 1;
        }
    }
    accepted
}

/// Presses keys, as many as there is room for from the first on.
pub(crate) fn press(host: &mut Host, alloc: Global, slot: u64, keys: &str) -> OwnedReply
    requires { is_byte_text keys.now ≡ true }
    ensures { IsRequestServed (Key slot (chars keys.now)) host.old.host host.new.host (owned_answer result) }
{
    let id = SlotId(slot);
    if host.cpu(id).is_err() {
        return refused(WireRefusal::NoSuchSlot);
    }
    let Ok(keys) = bytes_of(alloc, keys) else {
        return refused(WireRefusal::OutOfMemory);
    };
    let accepted = offer(host, id, &keys) as u64;
    OwnedReply::Plain(WireReply::Accepted { accepted })
}

/// Gives the first bytes that wait on a device, and takes them away.
pub(crate) fn take(
    host: &mut Host,
    alloc: Global,
    slot: u64,
    device: Device,
    most: u16,
) -> OwnedReply
    ensures { IsRequestServed (device_asked device slot most) host.old.host host.new.host (owned_answer result) }
{
    let Ok(mut room) = vec![in alloc; 0u8; most as usize] else {
        return refused(WireRefusal::OutOfMemory);
    };
    match host.take_from(SlotId(slot), device, &mut room) {
        Ok(count) => {
            room.truncate(count);
            OwnedReply::Bytes(room)
        }
        Err(_) => refused(WireRefusal::NoSuchSlot),
    }
}

/// Says what is seen of a session.
pub(crate) fn look(host: &mut Host, slot: u64) -> OwnedReply
    ensures { IsRequestServed (Look slot) host.old.host host.new.host (owned_answer result) }
{
    let id = SlotId(slot);
    let Ok(cpu) = host.cpu(id) else {
        return refused(WireRefusal::NoSuchSlot);
    };
    match host.look(id) {
        Ok(look) => OwnedReply::Plain(WireReply::Looked(look_seen(cpu, &look))),
        Err(_) => refused(WireRefusal::NoSuchSlot),
    }
}

/// Bytes of a slot's memory.
fn memory_bytes(
    host: &Host,
    alloc: Global,
    id: SlotId,
    address: u16,
    length: u16,
) -> Result<Vec<u8>, AllocError>
    ensures { IfOk result (λ bytes. IfSome (slot_at id.0 host.now.host.slots) (λ s. bytes.items ≡ run_at s.memory address length)) }
{
    let mut bytes = Vec::new(alloc);
    let mut place = address;
    for _ in 0..length {
        bytes.push(host.peek(id, place).unwrap_or(0))?;
        place = place.wrapping_add(1);
    }
    Ok(bytes)
}

/// Gives bytes of the memory. Behind FFFFh comes 0000h.
pub(crate) fn peek(host: &Host, alloc: Global, slot: u64, address: u16, length: u16) -> OwnedReply
    ensures { IsRequestServed (Peek slot address length) host.now.host host.now.host (owned_answer result) }
{
    let id = SlotId(slot);
    if host.cpu(id).is_err() {
        return refused(WireRefusal::NoSuchSlot);
    }
    match memory_bytes(host, alloc, id, address, length) {
        Ok(bytes) => OwnedReply::Bytes(bytes),
        Err(AllocError) => refused(WireRefusal::OutOfMemory),
    }
}
