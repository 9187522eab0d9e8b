//! One turn of a scripted slot: its keys that are due, its steps, and what it shows.

ghost use Rattle.std.specs.Prelude.{◌≡◌, ℕ, ◌+◌, ◌-◌, ◌≤◌, ◌<◌, ◌⊎◌, OnOk, None, Some, [], false, length, slice_get, take};
ghost use Rattle.cpm_slots.specs.Host.{after_ask, slot_at};
ghost use Rattle.cpm_slots.specs.Serving.{Calls, take_call};
ghost use Rattle.cpm_machine.specs.Calls.{Grant};
ghost use Rattle.cpm_machine.specs.MachineState.{MachineState};
ghost use Rattle.cpm_machine.specs.Serve.{executed};
ghost use Rattle.cpm_machine.specs.Step.{is_running};
ghost use Rattle.cpm_play.specs.Pacing.{due_at};
ghost use Rattle.cpm_play.specs.Players.{AllBefore};
ghost use Rattle.cpm_play.specs.ScriptedSlots.{AreTaken, IsPlaying, IsResting, Moves, script_keys, steps_of, waits_in};

use crate::scripted_slot::ScriptedSlot;
use cpm_console::Device;
use cpm_machine::End;
use cpm_slots::{Host, SlotId};
use std::alloc::AllocError;

/// How many bytes are taken at once. A turn that shows nothing fills as many for each device, and a short turn is not to notice.
const CHUNK: usize = 512;

/// Whether the machine of a slot still runs.
fn runs(host: &mut Host, id: SlotId) -> bool
    ensures runs { (s : MachineState) → slot_at id.0 host.old.host.slots ≡ Some s → result ≡ is_running s.ended }
    ensures unchanged { host.new ≡ host.old }
{
    let Ok(look) = host.look(id) else {
        return false;
    };
    match look.ended {
        End::Running => true,
        _ => false,
    }
}

/// Presses the keys that are due, while the machine runs.
fn press_due(host: &mut Host, slot: &mut ScriptedSlot)
    requires { 0 < steps_of slot.old }
    ensures playing { (steps : ℕ) (start : MachineState) → IsResting steps start slot.old host.old.host → IsResting steps start slot.new host.new.host }
    ensures moves { Moves slot.old slot.new host.old.host host.new.host }
    ensures left { steps_of slot.new ≡ steps_of slot.old }
    ensures due { (due_at slot.new.pace.done (slice_get (script_keys slot.new) slot.new.pace.pressed) ≡ None)
        ⊎ ((s : MachineState) → slot_at slot.new.id.0 host.new.host.slots ≡ Some s → is_running s.ended ≡ false) }
    ensures early { (at : ℕ) → slot.old.pace.done < at → AllBefore at (take slot.old.pace.pressed (script_keys slot.old))
        → AllBefore at (take slot.new.pace.pressed (script_keys slot.new)) }
    ensures done { slot.new.pace.done ≡ slot.old.pace.done }
{
    while let Some(key) = slot.pace.due(&slot.keys) {
        if !runs(host, slot.id) {
            return;
        }
        // It finds room where it comes, so that it is not refused.
        let _ = host.key(slot.id, key);
        slot.pace.pressed += 1;
    }
}

/// Moves out the first bytes of a slot's device, as many as fit, and says how many.
fn read(host: &mut Host, id: SlotId, device: Device, chunk: &mut [u8]) -> usize
    ensures bytes { AreTaken result (length chunk.old) chunk.new (waits_in device (slot_at id.0 host.old.host.slots)) }
    ensures length { length chunk.new ≡ length chunk.old }
    ensures within { result ≤ length chunk.old }
    ensures host { host.new.host ≡ after_ask host.old.host id.0 (Calls (take_call device (length chunk.old))) }
{
    match host.take_from(id, device, chunk) {
        Ok(count) => count,
        Err(_) => 0,
    }
}

/// Takes all bytes of a device.
fn take_all(host: &mut Host, slot: &mut ScriptedSlot, device: Device) -> Result<(), AllocError>
    ensures playing { OnOk result ((steps : ℕ) (start : MachineState) → IsPlaying steps start slot.old host.old.host
        → IsPlaying steps start slot.new host.new.host) }
    ensures empty { OnOk result (waits_in device (slot_at slot.new.id.0 host.new.host.slots) ≡ []) }
    ensures stays { OnOk result ((other : Device) → waits_in other (slot_at slot.old.id.0 host.old.host.slots) ≡ []
        → waits_in other (slot_at slot.new.id.0 host.new.host.slots) ≡ []) }
    ensures moves { OnOk result (Moves slot.old slot.new host.old.host host.new.host) }
    ensures pace { slot.new.pace ≡ slot.old.pace }
{
    let mut chunk = [0u8; CHUNK];
    loop {
        let count = read(host, slot.id, device, &mut chunk);
        slot.add_bytes(device, &chunk[..count])?;
        if count == 0 {
            return Ok(());
        }
    }
}

/// Takes all bytes of both devices.
pub(crate) fn take_output(host: &mut Host, slot: &mut ScriptedSlot) -> Result<(), AllocError>
    ensures resting { OnOk result ((steps : ℕ) (start : MachineState) → IsPlaying steps start slot.old host.old.host
        → IsResting steps start slot.new host.new.host) }
    ensures moves { OnOk result (Moves slot.old slot.new host.old.host host.new.host) }
    ensures pace { slot.new.pace ≡ slot.old.pace }
{
    take_all(host, slot, Device::Console)?;
    take_all(host, slot, Device::List)
}

/// Executes steps of a slot, at most so many, and says how many.
fn grant(host: &mut Host, id: SlotId, most: u64) -> u64
    ensures executed { (s : MachineState) → slot_at id.0 host.old.host.slots ≡ Some s → result ≡ executed host.old.host.system most s }
    ensures within { result ≤ most }
    ensures host { host.new.host ≡ after_ask host.old.host id.0 (Calls (Grant most)) }
{
    match host.grant(id, most) {
        Ok(granted) => granted.executed,
        Err(_) => 0,
    }
}

/// Executes the steps of a turn: at most `quantum`, and none past the next key.
fn execute(host: &mut Host, slot: &mut ScriptedSlot, quantum: u64)
    requires some { 1 ≤ quantum }
    requires left { 0 < steps_of slot.old }
    ensures playing { (steps : ℕ) (start : MachineState) → IsResting steps start slot.old host.old.host → IsPlaying steps start slot.new host.new.host }
    ensures moves { Moves slot.old slot.new host.old.host host.new.host }
    ensures left { steps_of slot.new ≤ steps_of slot.old - 1 }
    ensures early { (at : ℕ) → slot.old.pace.done < at → AllBefore at (take slot.old.pace.pressed (script_keys slot.old))
        → AllBefore at (take slot.new.pace.pressed (script_keys slot.new)) }
    ensures done { slot.new.pace.done ≤ slot.old.pace.done + quantum }
{
    press_due(host, slot);
    let most = slot.pace.turn(&slot.keys, quantum);
    let executed = grant(host, slot.id, most);
    slot.pace.advance(executed);
}

/// Gives a scripted slot a turn of at most `quantum` steps, which ends at the count of its next key, and takes what it shows.
pub(crate) fn turn(host: &mut Host, slot: &mut ScriptedSlot, quantum: u64) -> Result<(), AllocError>
    requires { 1 ≤ quantum }
    ensures playing { OnOk result ((steps : ℕ) (start : MachineState) → IsResting steps start slot.old host.old.host
        → IsResting steps start slot.new host.new.host) }
    ensures moves { OnOk result (Moves slot.old slot.new host.old.host host.new.host) }
    ensures left { OnOk result (steps_of slot.new ≤ steps_of slot.old - 1) }
    ensures early { OnOk result ((at : ℕ) → slot.old.pace.done < at → AllBefore at (take slot.old.pace.pressed (script_keys slot.old))
        → AllBefore at (take slot.new.pace.pressed (script_keys slot.new))) }
    ensures done { OnOk result (slot.new.pace.done ≤ slot.old.pace.done + quantum) }
{
    if slot.pace.left() == 0 {
        return Ok(());
    }
    execute(host, slot, quantum);
    take_output(host, slot)
}
