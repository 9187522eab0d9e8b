//! Grants.
ghost use Rattle.std.specs.Prelude.{◌≡◌, IfOk, OnErr};
ghost use Rattle.cpm_machine.specs.Calls.{Grant as GrantCall};
ghost use Rattle.cpm_protocol.specs.Requests.{Grant};
ghost use Rattle.cpm_slots.specs.Host.{after_ask, slot_at};
ghost use Rattle.cpm_slots.specs.Serving.{Calls};
ghost use Rattle.cpm_serve.specs.Owned.{owned_answer};
ghost use Rattle.cpm_serve.specs.Seen.{grant_result};
ghost use Rattle.cpm_serve.specs.Served.{IsRequestServed};
ghost use Rattle.cpm_serve.specs.Slot.{wait_answer, wait_result, wait_stop};

use crate::owned::{OwnedReply, refused};
use crate::seen::stop_seen;
use cpm_machine::{End, Granted, Look};
use cpm_protocol::{GrantGoal, GrantStop, WireRefusal, WireReply};
use cpm_slots::{Host, Refusal, SlotId};

/// Why a grant to a wait ended after so many steps, by the look afterwards.
fn wait_stop(steps: u64, executed: u64, look: &Look) -> GrantStop
    ensures { result ≡ wait_stop steps executed look.now }
{
    if executed == steps {
        GrantStop::All
    } else if look.ended != End::Running {
        GrantStop::Stopped
    } else if look.waiting {
        GrantStop::Waiting
    } else {
        GrantStop::Blocked
    }
}

/// Executes steps of a slot up to a wait for a key; says how many, and why no more.
pub(crate) fn grant_to_wait(
    host: &mut Host,
    id: SlotId,
    steps: u64,
) -> Result<(u64, GrantStop), Refusal>
    ensures reply { result ≡ wait_result host.old.host.system steps (slot_at id.0 host.old.host.slots) }
    ensures host { IfOk result (λ r. host.new.host ≡ after_ask host.old.host id.0 (Calls (GrantCall r.0))) }
    ensures unchanged { OnErr result (host.new.host ≡ host.old.host) }
{
    let executed = match host.grant_to_wait(id, steps) {
        Ok(executed) => executed,
        Err(refusal) => return Err(refusal),
    };
    match host.look(id) {
        Ok(look) => Ok((executed, wait_stop(steps, executed, &look))),
        Err(refusal) => Err(refusal),
    }
}

/// The reply to a grant that the host made.
fn granted(outcome: Result<Granted, Refusal>) -> OwnedReply
    ensures { owned_answer result ≡ grant_result outcome }
{
    match outcome {
        Ok(granted) => OwnedReply::Plain(WireReply::Granted {
            executed: granted.executed,
            why: stop_seen(granted.why),
        }),
        Err(_) => refused(WireRefusal::NoSuchSlot),
    }
}

/// The reply to a grant to a wait.
fn granted_to_wait(outcome: Result<(u64, GrantStop), Refusal>) -> OwnedReply
    ensures { owned_answer result ≡ wait_answer outcome }
{
    match outcome {
        Ok((executed, why)) => OwnedReply::Plain(WireReply::Granted { executed, why }),
        Err(_) => refused(WireRefusal::NoSuchSlot),
    }
}

/// Executes steps.
pub(crate) fn grant(host: &mut Host, slot: u64, steps: u64, goal: GrantGoal) -> OwnedReply
    ensures { IsRequestServed (Grant slot steps goal) host.old.host host.new.host (owned_answer result) }
{
    let id = SlotId(slot);
    match goal {
        GrantGoal::Steps => granted(host.grant(id, steps)),
        GrantGoal::Address(pc) => granted(host.grant_until(id, steps, pc)),
        GrantGoal::Wait => granted_to_wait(grant_to_wait(host, id, steps)),
    }
}
