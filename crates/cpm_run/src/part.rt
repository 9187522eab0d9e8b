//! What there is to play a session of a run by, before it is settled.
ghost use Rattle.std.specs.Prelude.{◌≡◌, Some, IfOk, IfSome, length, map, option_map};
ghost use Rattle.cpm_batch.specs.Inputs.{IsOpened, start_view, timed_keys};
ghost use Rattle.cpm_play.specs.Cued.{key_count};
ghost use Rattle.cpm_script.specs.Cues.{all_said, cue_text};
ghost use Rattle.cpm_run.specs.Settled.{before_in, fork_count, forked_at, last_fork, opened_by, opening_of, part_of, said_at};
ghost use Rattle.cpm_run.specs.Settled.{settled_view, starts_of, steps_at, typed_view, typing_at};
ghost use Rattle.cpm_run.specs.Settling.{AreCounts, HasParent, part_view};

use crate::alone::after_keys;
use crate::settled::SettledInput;
use cpm_batch::Start;
use cpm_config::{Config, Origin, SessionConfig};
use cpm_play::{PlayEnd, TypedPlay};
use cpm_script::{Cue, Key, keys_before};
use std::alloc::{AllocError, Global};

/// What there is to play a session by.
#[derive(Drop)]
pub(crate) struct Part<'a> {
    /// How it begins, or the session that it is forked from.
    pub(crate) opened: &'a Start,
    /// The keys that that session had before the fork.
    pub(crate) before: Vec<Key>,
    /// At which count it is forked, which begins where it does; 0 where it isn't.
    pub(crate) at: u64,
    /// What it says itself.
    pub(crate) cues: Vec<Cue>,
    /// How many steps it has.
    pub(crate) steps: u64,
    /// The greatest count at which a session is forked from it.
    pub(crate) last: u64,
}

/// How many keys a script has.
pub(crate) fn key_count(cues: &[Cue]) -> usize
    ensures { result ≡ key_count cues.now }
{
    let mut count = 0;
    for cue in cues {
        match cue {
            Cue::Key(_) | Cue::Press(_) => count += 1,
            Cue::Wait(_) => {}
        }
    }
    count
}

/// The keys of a script, each with its count; none where one of its lines waits.
pub(crate) fn timed_keys(alloc: Global, cues: &[Cue]) -> Result<Option<Vec<Key>>, AllocError>
    ensures keys { IfOk result (λ keys. option_map (λ v. v.items) keys ≡ timed_keys (map cue_text cues.now)) }
    ensures counts { IfOk result (λ keys. IfSome keys (λ v. AreCounts v.items)) }
{
    let mut keys = Vec::new(alloc);
    for cue in cues {
        let Cue::Key(key) = cue else {
            return Ok(None);
        };
        // (its type says so; by that its line can be read again)
        let count = key.count;
        prove!(count <= u64::MAX);
        keys.push(*key)?;
    }
    Ok(Some(keys))
}

/// The whole count at which a session is forked from the one of this name; 0 where it isn't.
fn fork_count(session: &SessionConfig, name: &str) -> u64
    ensures { result ≡ fork_count name.now session.now.origin }
{
    match &session.origin {
        Origin::Forked { parent, at } if parent.as_str() == name => *at,
        _ => 0,
    }
}

/// The greatest whole count at which a session is forked from the one of this name.
pub(crate) fn last_fork(config: &Config, name: &str) -> u64
    ensures { result ≡ last_fork name.now config.now.sessions.items }
{
    let mut last = 0;
    for session in &config.sessions {
        last = fork_count(session, name).max(last);
    }
    last
}

/// At which count a session is forked; 0 where it isn't.
fn forked_at(start: &Start) -> u64
    ensures { result ≡ forked_at (start_view start.now) }
{
    match start {
        Start::Opened { .. } | Start::Restored(_) => 0,
        Start::Forked { at, .. } => *at,
    }
}

/// How a session begins that isn't forked, or the one of these that it is forked from.
fn opened_by<'a>(settled: &'a [SettledInput<'_>], start: &'a Start) -> &'a Start
    requires { HasParent (starts_of (map settled_view settled.now)) (start_view start.now) }
    ensures start { opened_by (starts_of (map settled_view settled.now)) (start_view start.now) ≡ Some (start_view result.now) }
    ensures opened { IsOpened (start_view result.now) }
{
    match start {
        Start::Opened { .. } | Start::Restored(_) => start,
        Start::Forked { parent, .. } => &settled[*parent].start,
    }
}

/// The keys that the session had before that one is forked from.
fn before_in(
    alloc: Global,
    settled: &[SettledInput<'_>],
    start: &Start,
) -> Result<Vec<Key>, AllocError>
    requires { HasParent (starts_of (map settled_view settled.now)) (start_view start.now) }
    ensures { IfOk result (λ v. v.items ≡ before_in (map settled_view settled.now) (start_view start.now)) }
{
    match start {
        Start::Opened { .. } | Start::Restored(_) => Ok(Vec::new(alloc)),
        Start::Forked { parent, at } => keys_before(alloc, settled[*parent].keys.as_slice(), *at),
    }
}

/// What the session at a place says: the keys that were typed at it, or else its script.
fn said_at(
    alloc: Global,
    typed: &Option<(usize, TypedPlay)>,
    place: usize,
    cues: Vec<Cue>,
) -> Result<Vec<Cue>, AllocError>
    ensures { IfOk result (λ v. all_said v ≡ said_at (typed_view typed.now) place (all_said cues)) }
{
    match typed {
        Some((typed_at, play)) if *typed_at == place => {
            after_keys(alloc, play.live.keys.as_slice(), Vec::new(alloc))
        }
        _ => Ok(cues),
    }
}

/// The steps of the session at a place: those for which it was typed at, or else these.
fn steps_at(typed: &Option<(usize, TypedPlay)>, place: usize, steps: u64) -> u64
    ensures { result ≡ steps_at (typed_view typed.now) place steps }
{
    match typed {
        Some((typed_at, play)) if *typed_at == place => play.live.steps,
        _ => steps,
    }
}

/// How many keys are pending where a session begins that isn't forked.
#[tactic(auto, unfolding(cpm_machine::specs::Serve::look_of))]
pub(crate) fn pending_keys(start: &Start) -> usize
    ensures { result ≡ length (opening_of (start_view start.now)).session.console.keys }
{
    match start {
        Start::Restored(saved) => saved.machine.look().keys,
        Start::Opened { .. } | Start::Forked { .. } => 0,
    }
}

/// Why no more was typed at the session at a place, where one typed at it.
pub(crate) fn typing_at(typed: &Option<(usize, TypedPlay)>, place: usize) -> Option<PlayEnd>
    ensures { result ≡ typing_at (typed_view typed.now) place }
{
    match typed {
        Some((typed_at, play)) if *typed_at == place => Some(play.end),
        _ => None,
    }
}

/// What there is to play a session by that begins so and whose script says this, after those before it were settled.
pub(crate) fn part_of<'a>(
    alloc: Global,
    config: &Config,
    typed: &Option<(usize, TypedPlay)>,
    settled: &'a [SettledInput<'_>],
    session: &SessionConfig,
    start: &'a Start,
    steps: u64,
    cues: Vec<Cue>,
) -> Result<Part<'a>, AllocError>
    requires { HasParent (starts_of (map settled_view settled.now)) (start_view start.now) }
    ensures part { IfOk result (λ p. part_view p ≡ part_of (typed_view typed.now) config.now.sessions.items (map settled_view settled.entry.now)
        (record { session = session.now; start = start_view start.entry.now; steps = steps; said = all_said cues })) }
    ensures opened { IfOk result (λ p. opened_by (starts_of (map settled_view settled.entry.now)) (start_view start.entry.now)
        ≡ Some (start_view p.opened.now)) }
    ensures open { IfOk result (λ p. IsOpened (start_view p.opened.now)) }
{
    let place = settled.len();
    Ok(Part {
        opened: opened_by(settled, start),
        before: before_in(alloc, settled, start)?,
        at: forked_at(start),
        cues: said_at(alloc, typed, place, cues)?,
        steps: steps_at(typed, place, steps),
        last: last_fork(config, session.name.as_str()).saturating_sub(start.saved_count()),
    })
}
