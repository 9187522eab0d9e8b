//! What is asked of a run besides its configuration.

ghost use Rattle.std.specs.Prelude.{◌≡◌, [], false, true};

use cpm_batch::Replay;
use cpm_checkpoint::Checkpoint;

/// The file for the keys of a session, as a script by which it does the same again.
#[derive(Clone, Copy)]
pub struct RecordFile<'a> {
    pub name: &'a str,
    /// Whether it is written only where the session has a key of its own.
    pub needs_key: bool,
}

/// What is asked of a run besides its configuration.
#[derive(Clone, Copy)]
pub struct RunOptions<'a> {
    /// The name of the session that is typed at, after its script, if it has one.
    pub typed: Option<&'a str>,
    /// Whether each session ends where it waits for a key and no key of its script will come.
    pub stops_idle: bool,
    /// The file for the keys of each session, in their order; none where no keys are to be recorded.
    pub records: &'a [RecordFile<'a>],
    /// The sessions that are played by recordings, each in place of its script. Of several for one session the first counts.
    pub replays: &'a [Replay<'a>],
    /// Where its sessions stood, as that was kept of it, if it is to go on from there.
    pub kept: Option<&'a Checkpoint>,
}

/// Whether a session may be played by a recording.
pub(crate) fn has_replays(options: RunOptions<'_>) -> bool
    ensures none { result ≡ false → options.entry.replays.now ≡ [] }
    ensures some { result ≡ true → options.entry.replays.now ≡ [] → ⊥ }
{
    !options.replays.is_empty()
}
