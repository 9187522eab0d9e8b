//! Who keeps where the sessions of a run stand, while they are played.

ghost use Rattle.std.specs.Prelude.{◌≡◌, IfOk, IfSome};
ghost use Rattle.cpm_run.specs.Keeping.{IsCheckpointFor, IsKeptOf, before_view};
ghost use Rattle.cpm_run.specs.Kept.{standing_of, standing_view};
ghost use Rattle.cpm_run.specs.Rest.{RunStanding};

use crate::beginning::RunBeginning;
use crate::joining::join_kept;
use crate::keeping::keep_sessions;
use crate::settled::SettledInput;
use crate::standing::KeptSession;
use crate::watcher::RunWatcher;
use crate::written::checkpoint_of;
use cpm_play::{Player, Progress, Watcher};
use cpm_slots::Host;
use std::alloc::{AllocError, Global};

/// A run whose rest is played.
#[derive(Clone, Copy)]
pub(crate) struct RunBefore<'k, 'a> {
    /// All of its sessions.
    pub(crate) inputs: &'k [SettledInput<'a>],
    /// Where they stood.
    pub(crate) kept: &'k [Option<KeptSession>],
}

/// What is kept of all sessions of a run that is played by these players in a host; or where its rest is, of all of it.
fn keep_all(
    alloc: Global,
    before: Option<RunBefore<'_, '_>>,
    host: &mut Host,
    players: &[Player],
) -> Result<Vec<Option<KeptSession>>, AllocError>
    ensures kept { IfOk result (λ v. IsKeptOf (before_view before.entry) (standing_of host.old.host players.now) (standing_view v.items)) }
    ensures host { host.new ≡ host.old }
{
    let rest = keep_sessions(alloc, host, players)?;
    match before {
        Some(before) => join_kept(alloc, before.inputs, before.kept, rest),
        None => Ok(rest),
    }
}

/// The bytes of a checkpoint of them; none where there are more than it may have.
fn keep_bytes(
    alloc: Global,
    beginning: RunBeginning,
    before: Option<RunBefore<'_, '_>>,
    host: &mut Host,
    players: &[Player],
) -> Result<Option<Vec<u8>>, AllocError>
    ensures kept { IfOk result (λ bytes. IfSome bytes (λ b. (kept : RunStanding)
        × IsKeptOf (before_view before.entry) (standing_of host.old.host players.now) kept × IsCheckpointFor beginning kept b.items)) }
    ensures host { host.new ≡ host.old }
{
    let kept = keep_all(alloc, before, host, players)?;
    checkpoint_of(alloc, beginning, kept.as_slice())
}

/// A watcher of a run that keeps where its sessions stand.
#[derive(Drop)]
pub(crate) struct Keeper<'w, 'k, 'a, T: RunWatcher> {
    pub(crate) alloc: Global,
    pub(crate) watcher: &'w mut T,
    pub(crate) beginning: RunBeginning,
    /// The run whose rest is played, if it is one.
    pub(crate) before: Option<RunBefore<'k, 'a>>,
}

impl<T: RunWatcher> Watcher for Keeper<'_, '_, '_, T> {
    fn is_watching(&self) -> bool {
        self.watcher.is_watching()
    }

    fn most_steps(&self) -> u64 {
        self.watcher.most_steps()
    }

    fn see(&mut self, progress: Progress) {
        self.watcher.see(progress);
    }

    fn wants_rest(&self) -> bool {
        self.watcher.wants_checkpoint()
    }

    // (where memory is refused for a checkpoint, the run goes on without it)
    fn rest(&mut self, host: &mut Host, players: &[Player]) {
        if let Ok(Some(bytes)) = keep_bytes(
            self.alloc,
            self.beginning,
            self.before,
            host,
            players,
        ) {
            self.watcher.keep_checkpoint(bytes.as_slice());
        }
    }
}
