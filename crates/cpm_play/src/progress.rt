//! How far sessions have come, for whoever wants to be told.

ghost use Rattle.std.specs.Prelude.{◌<◌, ◌≡◌};
ghost use Rattle.cpm_play.specs.Players.{AreOnTheWay};

use crate::player::Player;
use cpm_slots::Host;

/// How far sessions have come.
#[derive(Clone, Copy, Drop)]
pub struct Progress {
    /// How many steps all of them have executed. (It stays at its greatest value if it gets there, as do all.)
    pub done: u64,
    /// How many they execute in all, as far as is known: one that has ended executes no more.
    pub all: u64,
    /// How many have ended or executed all their steps.
    pub ended: usize,
    /// How many there are.
    pub sessions: usize,
    /// The place of the one with the most steps left.
    pub slowest: usize,
}

/// Who is told how far sessions have come, each time that all had a turn.
pub trait Watcher {
    /// Whether it is to be told at all. For one that isn't, nothing is counted.
    fn is_watching(&self) -> bool;

    /// How many steps a turn of a machine that is played alone has at most, after which it is told.
    fn most_steps(&self) -> u64
        ensures { 0 < result };

    fn see(&mut self, progress: Progress);

    /// Whether it wants to look at the sessions themselves, now that all had a turn.
    fn wants_rest(&self) -> bool {
        false
    }

    /// Looks at the sessions of a host where they rest between two turns: some that could be played have become these. It leaves the host as it is.
    fn rest(&mut self, host: &mut Host, players: &[Player])
        requires { AreOnTheWay host.old.host players.now }
        ensures { host.new ≡ host.old }
    {}
}

/// Nobody.
#[derive(Clone, Copy, Drop)]
pub struct NoWatcher;

impl Watcher for NoWatcher {
    fn is_watching(&self) -> bool {
        false
    }

    fn most_steps(&self) -> u64 {
        u64::MAX
    }

    fn see(&mut self, _progress: Progress) {}
}

/// How many steps a player has executed, and how many it executes in all.
fn steps_of(player: &Player) -> (u64, u64) {
    match player {
        Player::Playing(slot) => (slot.pace.done, slot.pace.until),
        Player::Waiting(fork) => (fork.at, fork.steps),
    }
}

/// How far players have come.
pub(crate) fn progress_of(players: &[Player]) -> Progress {
    let mut progress = Progress {
        done: 0,
        all: 0,
        ended: 0,
        sessions: players.len(),
        slowest: 0,
    };
    let mut most_left = 0;
    for (place, player) in players.iter().enumerate() {
        let (done, until) = steps_of(player);
        progress.done = progress.done.saturating_add(done);
        progress.all = progress.all.saturating_add(until);
        let left = until.saturating_sub(done);
        if left == 0 {
            progress.ended = progress.ended.saturating_add(1);
        }
        if left > most_left {
            most_left = left;
            progress.slowest = place;
        }
    }
    progress
}

/// How far one session has come.
pub(crate) fn progress_of_one(done: u64, until: u64) -> Progress {
    Progress {
        done,
        all: until,
        ended: usize::from(done >= until),
        sessions: 1,
        slowest: 0,
    }
}
