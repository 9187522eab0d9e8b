//! Sessions of a host that are played, and those that are forked from them on the way.

use crate::scripted_slot::ScriptedSlot;
use cpm_script::Key;

/// A session that is to be forked from another one.
#[derive(Drop)]
pub struct Fork {
    /// The place among the players of the one that it is forked from, which is played from its opening.
    pub parent: usize,
    /// At how many steps of that one. Where it executes fewer, it is forked when that one executes no more.
    pub at: u64,
    /// Its keys: those of the other one that come before the fork, and then its own.
    pub keys: Vec<Key>,
    /// How many steps it executes in all, those up to the fork included.
    pub steps: u64,
}

/// A session that is played, or is still to be forked from one that is.
#[derive(Drop)]
pub enum Player {
    Playing(ScriptedSlot),
    Waiting(Fork),
}
