//! Lists of events.

ghost use Rattle.std.specs.Prelude.{◌≡◌, ℕ, ◌≤◌, Some, length, map, take, drop};
ghost use Rattle.cpm_slots.specs.Serving.{ask_of};
ghost use Rattle.cpm_machine.specs.MachineState.{MachineState};
ghost use Rattle.cpm_machine.specs.Calls.{no_account};
ghost use Rattle.cpm_slots.specs.Account.{account_by, slot_after, replies_of, IsRunAlone};

use crate::event::{Event, Reply, Request, SlotId};
use crate::host::Host;
use arrayvec::ArrayVec;
use cpm_console::Device;

/// The bytes, in a vector that takes no memory.
fn chunk(bytes: &[u8]) -> ArrayVec<u8, 128>
    requires { length bytes.now ≤ 128 }
    ensures { result.items ≡ bytes.now }
{
    let mut chunk = ArrayVec::new();
    let _ = chunk.try_extend_from_slice(bytes);
    chunk
}

impl Host {
    ghost use Rattle.cpm_slots.specs.Host.{reply_at, after_ask, happening_of, host_after, replies_told, own, replies_to, slot_at};
    ghost use Rattle.cpm_slots.specs.Serving.{Calls, take_call};

    /// Gives up to 128 bytes of a device.
    fn take_chunk(&mut self, id: SlotId, device: Device) -> Reply
        ensures reply { result ≡ reply_at self.old.host id.0 (Calls (take_call device 128)) }
        ensures host { self.new.host ≡ after_ask self.old.host id.0 (Calls (take_call device 128)) }
    {
        let mut bytes = [0; 128];
        match self.take_from(id, device, &mut bytes) {
            Ok(count) => Reply::Bytes(chunk(&bytes[..count])),
            Err(refusal) => Reply::Refused(refusal),
        }
    }

    /// Serves one event.
    fn serve(&mut self, event: &Event) -> Reply
        ensures reply { result ≡ reply_at self.old.host event.now.slot.0 (ask_of event.now.request) }
        ensures host { self.new.host ≡ after_ask self.old.host event.now.slot.0 (ask_of event.now.request) }
    {
        let id = event.slot;
        match event.request {
            Request::Key(key) => match self.key(id, key) {
                Ok(()) => Reply::Done,
                Err(refusal) => Reply::Refused(refusal),
            },
            Request::Grant(steps) => match self.grant(id, steps) {
                Ok(granted) => Reply::Granted(granted),
                Err(refusal) => Reply::Refused(refusal),
            },
            Request::GrantUntil { steps, pc } => match self.grant_until(id, steps, pc) {
                Ok(granted) => Reply::Granted(granted),
                Err(refusal) => Reply::Refused(refusal),
            },
            Request::Take => self.take_chunk(id, Device::Console),
            Request::TakeList => self.take_chunk(id, Device::List),
            Request::Look => match self.look(id) {
                Ok(look) => Reply::Looked(look),
                Err(refusal) => Reply::Refused(refusal),
            },
            Request::Peek(address) => match self.peek(id, address) {
                Ok(byte) => Reply::Peeked(byte),
                Err(refusal) => Reply::Refused(refusal),
            },
            Request::Close => match self.close(id) {
                Ok(_) => Reply::Done,
                Err(refusal) => Reply::Refused(refusal),
            },
        }
    }

    /// Serves a list of events in order, and puts the reply to each in its place. A slot's replies and its state are those of the slot by
    /// itself, by its own events. A slot that was open and still is was the machine run alone, from its state before, by the account
    /// of its own events and replies. Places past the last event are left as they are.
    pub fn run(&mut self, events: &[Event], replies: &mut [Reply])
        requires { length events.now ≤ length replies.old }
        ensures host { self.new.host ≡ host_after (map happening_of events.now) self.old.host }
        ensures replies { take (length events.now) replies.new ≡ map (λ t. t.reply) (replies_told (map happening_of events.now) self.old.host) }
        ensures rest { drop (length events.now) replies.new ≡ drop (length events.now) replies.old }
        ensures own_replies { (id : ℕ) →
            replies_to id events.now replies.new ≡ replies_of self.old.host.system (own id (map happening_of events.now)) (slot_at id self.old.host.slots) }
        ensures own_state { (id : ℕ) →
            slot_at id self.new.host.slots ≡ slot_after self.old.host.system (own id (map happening_of events.now)) (slot_at id self.old.host.slots) }
        ensures own_account { (id : ℕ) (start : MachineState) → slot_at id self.old.host.slots ≡ Some start →
            IsRunAlone self.old.host.system start
            (account_by no_account (own id (map happening_of events.now)) (replies_to id events.now replies.new)) (slot_at id self.new.host.slots) }
    {
        self.serve_all(events, replies);
    }

    /// Serves a list of events in order.
    fn serve_all(&mut self, events: &[Event], replies: &mut [Reply])
        requires { length events.now ≤ length replies.old }
        ensures host { self.new.host ≡ host_after (map happening_of events.now) self.old.host }
        ensures replies { take (length events.now) replies.new ≡ map (λ t. t.reply) (replies_told (map happening_of events.now) self.old.host) }
        ensures rest { drop (length events.now) replies.new ≡ drop (length events.now) replies.old }
    {
        for (index, event) in events.iter().enumerate() {
            replies[index] = self.serve(event);
        }
    }
}
