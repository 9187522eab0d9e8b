//! Where the keys of a session come from: its script, or a recording in place of that.
ghost use Rattle.std.specs.Prelude.{◌≡◌, Some, option_map};
ghost use Rattle.cpm_batch.specs.Sources.{key_file, key_source, replay_of, source_view};

use cpm_config::SessionConfig;

/// A session that is played by the recording of its keys in a file, in place of its script.
#[derive(Clone, Copy)]
pub struct Replay<'a> {
    /// The name of the session.
    pub session: &'a str,
    /// The name of the file.
    pub file: &'a str,
}

/// Where the keys of a session come from.
#[derive(Clone, Copy)]
pub(crate) enum KeySource<'a> {
    /// It has no script.
    Nothing,
    /// The script in this file.
    Script(&'a str),
    /// The recording in this file.
    Recording(&'a str),
}

/// The file of the first recording that the session of this name is played by, if it is by one.
pub(crate) fn replay_of<'a>(replays: &[Replay<'a>], name: &str) -> Option<&'a str>
    ensures { option_map (λ f. f.now) result ≡ replay_of replays.now name.now }
{
    for replay in replays {
        if replay.session == name {
            return Some(replay.file);
        }
    }
    None
}

/// Where the keys of a session come from.
pub(crate) fn key_source<'a>(replays: &[Replay<'a>], session: &'a SessionConfig) -> KeySource<'a>
    ensures { source_view result ≡ key_source replays.now session.entry.now }
{
    match (replay_of(replays, session.name.as_str()), &session.keys) {
        (Some(file), _) => KeySource::Recording(file),
        (None, Some(script)) => KeySource::Script(script.as_str()),
        (None, None) => KeySource::Nothing,
    }
}

/// The file that the keys of a session come from: its script, or its recording in place of that; none where it has neither.
pub fn key_file<'a>(replays: &[Replay<'a>], session: &'a SessionConfig) -> Option<&'a str>
    ensures { option_map (λ f. f.now) result ≡ key_file (key_source replays.now session.entry.now) }
{
    match key_source(replays, session) {
        KeySource::Script(file) | KeySource::Recording(file) => Some(file),
        KeySource::Nothing => None,
    }
}
