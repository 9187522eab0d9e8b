//! Who is told how a run goes on.

use cpm_play::{NoWatcher, Watcher};

/// What a run begins.
#[derive(Clone, Copy, Drop)]
pub enum RunStage {
    /// One types at a session.
    Typing,
    /// The session at this place is played by itself.
    Alone(usize),
    /// All sessions are played.
    All,
}

/// Who is told how far sessions have come, and before which of them it is told.
pub trait RunWatcher: Watcher {
    fn begin(&mut self, stage: RunStage);

    /// Whether it keeps where the sessions stand on the way, as checkpoints.
    fn keeps_checkpoints(&self) -> bool {
        false
    }

    /// Tells whether the run goes on from the checkpoint that it was given, which may be another's.
    fn tell_kept(&mut self, _goes_on: bool) {}

    /// Whether it wants one now, now that all sessions had a turn.
    fn wants_checkpoint(&self) -> bool {
        false
    }

    /// Keeps the bytes of one.
    fn keep_checkpoint(&mut self, _bytes: &[u8]) {}
}

impl RunWatcher for NoWatcher {
    fn begin(&mut self, _stage: RunStage) {}
}
