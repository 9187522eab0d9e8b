//! How far a session has been played.

ghost use Rattle.std.specs.Prelude.{◌≡◌, ◌+◌, ◌-◌, ◌≤◌, ◌==◌, if◌then◌else◌, slice_get};
ghost use Rattle.cpm_play.specs.Pacing.{due_at, first_pace, forked_pace, left_in, turn_of};

use cpm_script::Key;

/// How far a session has been played.
#[derive(Clone, Copy, Drop)]
pub struct Pace {
    /// How many of its keys were pressed.
    pub(crate) pressed: usize,
    /// How many steps it has executed.
    pub(crate) done: u64,
    /// How many steps it executes in all. Once it has ended it executes no more.
    pub(crate) until: u64,
}

impl Pace {
    /// Before the first turn.
    pub(crate) fn new(steps: u64) -> Pace
        ensures { result ≡ first_pace steps }
    {
        Pace {
            pressed: 0,
            done: 0,
            until: steps,
        }
    }

    /// That of a fork, which has come as far and executes so many steps in all.
    pub(crate) fn forked(&self, steps: u64) -> Pace
        ensures { result ≡ forked_pace self.now steps }
    {
        Pace {
            pressed: self.pressed,
            done: self.done,
            until: steps,
        }
    }

    /// How many steps it may still execute.
    pub(crate) fn left(&self) -> u64
        ensures { result ≡ left_in self.now }
    {
        self.until.saturating_sub(self.done)
    }

    /// The next key, if it is due.
    pub(crate) fn due(&self, keys: &[Key]) -> Option<u8>
        ensures { result ≡ due_at self.now.done (slice_get keys.now self.now.pressed) }
    {
        match keys.get(self.pressed) {
            Some(key) if key.count <= self.done => Some(key.byte),
            _ => None,
        }
    }

    /// How many steps the next turn has at most: no more than `quantum`, and none past the next key.
    pub(crate) fn turn(&self, keys: &[Key], quantum: u64) -> u64
        ensures { result ≡ turn_of self.now keys.now quantum }
    {
        let most = self.left().min(quantum);
        match keys.get(self.pressed) {
            Some(key) => most.min(key.count.saturating_sub(self.done)),
            None => most,
        }
    }

    /// Counts the steps of a turn. With none the session has ended.
    pub(crate) fn advance(&mut self, executed: u64)
        requires { executed ≤ left_in self.old }
        ensures pressed { self.new.pressed ≡ self.old.pressed }
        ensures done { self.new.done ≡ self.old.done + executed }
        ensures until { self.new.until ≡ (if executed == 0 then self.old.done else self.old.until) }
    {
        if executed == 0 {
            self.until = self.done;
        } else {
            self.done += executed;
        }
    }
}
