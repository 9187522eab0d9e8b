//! Turns: what a live session needs in one round.
ghost use Rattle.std.specs.Prelude.{◌≡◌, IfOk, IfSome, chars, length, true};
ghost use Rattle.cpm_protocol.specs.Bytes.{is_byte_text};
ghost use Rattle.cpm_protocol.specs.Requests.{Turn};
ghost use Rattle.cpm_slots.specs.Host.{slot_at};
ghost use Rattle.cpm_serve.specs.Owned.{owned_answer};
ghost use Rattle.cpm_serve.specs.Served.{IsRequestServed, asked_slot, outcome};
ghost use Rattle.cpm_serve.specs.Slot.{turn_bytes};
ghost use Rattle.cpm_serve.specs.Turns.{IsMoved, IsSeen, IsWorked};

use crate::grant::grant_to_wait;
use crate::owned::{OwnedReply, OwnedTurn, refused};
use crate::seen::end_seen;
use crate::slot::offer;
use cpm_console::Device;
use cpm_protocol::{GrantStop, WireEnd, WireRefusal, bytes_of};
use cpm_slots::{Host, SlotId};
use std::alloc::{AllocError, Global};

/// The most bytes that a turn gives of each device.
const TURN_BYTES: usize = 8192;

/// Executes steps of an open slot up to a wait; says how many, and why no more.
fn work(host: &mut Host, id: SlotId, steps: u64) -> (u64, GrantStop)
    ensures { IfSome (slot_at id.0 host.old.host.slots) (IsWorked id.0 steps result host.old.host host.new.host) }
{
    match grant_to_wait(host, id, steps) {
        Ok(granted) => granted,
        Err(_) => (0, GrantStop::Stopped),
    }
}

/// Moves out the first bytes of a device of an open slot.
fn move_out(host: &mut Host, id: SlotId, device: Device, mut room: Vec<u8>) -> Vec<u8>
    requires { length room.items ≡ turn_bytes }
    ensures { IfSome (slot_at id.0 host.old.host.slots) (IsMoved id.0 device result.items host.old.host host.new.host) }
{
    let count = host.take_from(id, device, &mut room).unwrap_or(0);
    room.truncate(count);
    room
}

/// Whether an open slot waits for a key, and how it ended.
fn look_behind(host: &mut Host, id: SlotId) -> (bool, WireEnd)
    ensures { IfSome (slot_at id.0 host.old.host.slots) (IsSeen result host.old.host host.new.host) }
{
    match host.look(id) {
        Ok(look) => (look.waiting, end_seen(look.ended)),
        Err(_) => (false, WireEnd::Running),
    }
}

/// Room for the bytes of a device.
fn turn_room(alloc: Global) -> Result<Vec<u8>, AllocError>
    ensures { IfOk result (λ room. length room.items ≡ turn_bytes) }
{
    vec![in alloc; 0u8; TURN_BYTES]
}

/// Does a turn of an open slot.
fn play(
    host: &mut Host,
    id: SlotId,
    keys: &[u8],
    steps: u64,
    text: Vec<u8>,
    list: Vec<u8>,
) -> OwnedReply
    requires text { length text.items ≡ turn_bytes }
    requires list { length list.items ≡ turn_bytes }
    ensures { IfSome (slot_at id.0 host.old.host.slots)
        (λ s. outcome host.new.host (owned_answer result) ≡ asked_slot host.old.host id.0 (Turn id.0 keys.now steps)) }
{
    let accepted = offer(host, id, keys) as u64;
    let (executed, why) = work(host, id, steps);
    let text = move_out(host, id, Device::Console, text);
    let list = move_out(host, id, Device::List, list);
    let (waiting, end) = look_behind(host, id);
    OwnedReply::Turned(OwnedTurn {
        accepted,
        executed,
        why,
        text,
        list,
        waiting,
        end,
    })
}

/// Presses keys, grants steps to a wait, gives console and list bytes, and says what is seen.
pub(crate) fn turn(host: &mut Host, alloc: Global, slot: u64, keys: &str, steps: u64) -> OwnedReply
    requires { is_byte_text keys.now ≡ true }
    ensures { IsRequestServed (Turn slot (chars keys.now) steps) host.old.host host.new.host (owned_answer result) }
{
    let id = SlotId(slot);
    if host.cpu(id).is_err() {
        return refused(WireRefusal::NoSuchSlot);
    }
    let Ok(keys) = bytes_of(alloc, keys) else {
        return refused(WireRefusal::OutOfMemory);
    };
    let Ok(text) = turn_room(alloc) else {
        return refused(WireRefusal::OutOfMemory);
    };
    let Ok(list) = turn_room(alloc) else {
        return refused(WireRefusal::OutOfMemory);
    };
    play(host, id, &keys, steps, text, list)
}
