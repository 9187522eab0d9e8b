//! The sessions that `run --replay NAME=FILE` plays by recordings.
ghost use Rattle.std.specs.Prelude.{◌≡◌, [], IfErr, IfOk, Ok, is_some, map, option_map};
ghost use Rattle.std.specs.List.{list_any};
ghost use Rattle.std.specs.Str.{bytes_eq};
ghost use Rattle.cpm_config.specs.Rules.{place_of, session_view};
ghost use Rattle.cpm_commands.specs.Replays.{IsReplayRefusal, IsNextRefused, replay_view, replays_from, next_replay, replay_parts};

use cpm_batch::Replay;
use cpm_config::{Config, place_of};
use cpm_disk_commands::split_pair;
use cpm_host::{HostError, RunError, shown};
use std::alloc::Global;

/// The name and the file of a word `NAME=FILE`, which has both.
fn replay_parts<'a>(word: &'a str) -> Option<Replay<'a>>
    ensures { option_map replay_view result ≡ replay_parts word.entry.now }
{
    let Some((session, file)) = split_pair(word) else {
        return None;
    };
    if session.is_empty() {
        return None;
    }
    if file.is_empty() {
        return None;
    }
    Some(Replay { session, file })
}

/// Whether the configuration has a session of this name.
fn has_session(config: &Config, name: &str) -> bool
    ensures { result ≡ is_some (place_of name.now (map session_view config.now.sessions.items)) }
{
    place_of(config.sessions.as_slice(), name).is_some()
}

/// Whether one of these is for the session of this name.
fn is_replayed(replays: &[Replay<'_>], name: &str) -> bool
    ensures { result ≡ list_any (λ r. bytes_eq r.session.now name.now) replays.now }
{
    replays.iter().any(|replay| replay.session == name)
}

/// The session of a word with its recording, after those of the words before it.
fn next_replay<'a>(
    config: &Config,
    before: &[Replay<'_>],
    word: &'a str,
) -> Result<Replay<'a>, HostError>
    ensures replay { IfOk result (λ r. next_replay config.now.sessions.items (map replay_view before.now) word.entry.now ≡ Ok (replay_view r)) }
    ensures refusal { IfErr result (IsNextRefused config.now.sessions.items (map replay_view before.now) word.entry.now) }
{
    let Some(replay) = replay_parts(word) else {
        return Err(HostError::NoReplay(shown(word)));
    };
    if !has_session(config, replay.session) {
        return Err(HostError::RunRefused(RunError::NoSession(shown(replay.session))));
    }
    if is_replayed(before, replay.session) {
        return Err(HostError::ReplayedTwice(shown(replay.session)));
    }
    Ok(replay)
}

/// The sessions of these words with their recordings. The first word is refused that is not `NAME=FILE`, whose session the configuration doesn't have, or whose
/// session an earlier word has.
pub(crate) fn replays_of<'a>(
    alloc: Global,
    config: &Config,
    words: &[&'a str],
) -> Result<Vec<Replay<'a>>, HostError>
    ensures replays { IfOk result (λ v. replays_from config.now.sessions.items [] (map (λ w. w.now) words.now) ≡ Ok (map replay_view v.items)) }
    ensures refusal { IfErr result (IsReplayRefusal config.now.sessions.items (map (λ w. w.now) words.now)) }
{
    let mut replays = Vec::new(alloc);
    for word in words {
        let replay = next_replay(config, replays.as_slice(), *word)?;
        replays.push(replay)?;
    }
    Ok(replays)
}
