//! A session of a host that is played.

ghost use Rattle.std.specs.Prelude.{◌≡◌, OnOk, IfOk};
ghost use Rattle.cpm_play.specs.Pacing.{forked_pace};

use crate::pace::Pace;
use cpm_console::Device;
use cpm_script::Key;
use cpm_slots::SlotId;
use std::alloc::{AllocError, Global};

/// A session of a host that is played by its keys, and what it has shown.
#[derive(Drop)]
pub struct ScriptedSlot {
    /// The slot of the session.
    pub id: SlotId,
    /// The console bytes so far.
    pub console: Vec<u8>,
    /// The list bytes so far.
    pub list: Vec<u8>,
    pub(crate) keys: Vec<Key>,
    pub(crate) pace: Pace,
}

impl ScriptedSlot {
    ghost use Rattle.cpm_play.specs.ScriptedSlots.{HasAdded, IsNew, script_keys, steps_of};

    /// A scripted slot that has shown nothing yet, with its keys, each with the count of steps at which it comes, and with so many steps to execute.
    pub fn new(alloc: Global, id: SlotId, keys: Vec<Key>, steps: u64) -> ScriptedSlot
        ensures id { result.id ≡ id }
        ensures keys { script_keys result ≡ keys.items }
        ensures steps { steps_of result ≡ steps }
        ensures unplayed { IsNew result }
    {
        ScriptedSlot {
            id,
            console: Vec::new(alloc),
            list: Vec::new(alloc),
            keys,
            pace: Pace::new(steps),
        }
    }

    /// How many of its keys were pressed so far.
    pub fn pressed(&self) -> usize
        ensures { result ≡ self.now.pace.pressed }
    {
        self.pace.pressed
    }

    /// How many of its steps it has executed so far.
    pub fn done(&self) -> u64
        ensures { result ≡ self.now.pace.done }
    {
        self.pace.done
    }

    /// A scripted slot for a fork of this one's slot: it has shown and pressed and executed what this one has, and goes on by these keys for so many
    /// steps in all.
    pub(crate) fn forked(
        &self,
        alloc: Global,
        id: SlotId,
        keys: &[Key],
        steps: u64,
    ) -> Result<ScriptedSlot, AllocError>
        ensures id { IfOk result (λ child. child.id ≡ id) }
        ensures keys { IfOk result (λ child. script_keys child ≡ keys.now) }
        ensures console { IfOk result (λ child. child.console.items ≡ self.now.console.items) }
        ensures list { IfOk result (λ child. child.list.items ≡ self.now.list.items) }
        ensures pace { IfOk result (λ child. child.pace ≡ forked_pace self.now.pace steps) }
    {
        let mut own = Vec::with_capacity(alloc, keys.len())?;
        own.extend_from_slice(keys)?;
        Ok(ScriptedSlot {
            id,
            console: self.console.clone()?,
            list: self.list.clone()?,
            keys: own,
            pace: self.pace.forked(steps),
        })
    }

    /// Adds bytes of a device to those that it has shown so far. Out of memory, it adds none.
    pub(crate) fn add_bytes(&mut self, device: Device, bytes: &[u8]) -> Result<(), AllocError>
        ensures added { OnOk result (HasAdded device bytes.now self.old self.new) }
        ensures pace { self.new.pace ≡ self.old.pace }
    {
        match device {
            Device::Console => self.console.extend_from_slice(bytes),
            Device::List => self.list.extend_from_slice(bytes),
        }
    }
}
