//! What each session of a run is played by: the keys of its script, or where that waits or sessions are to stop idle, those that come where it is played
//! by itself.
ghost use Rattle.std.specs.Prelude.{◌≡◌, ◌++◌, [], drop, IfErr, IfOk, IfSome, map};
ghost use Rattle.cpm_batch.specs.Inputs.{IsOpened, given, start_view, timed_keys};
ghost use Rattle.cpm_script.specs.Cues.{all_said};
ghost use Rattle.cpm_run.specs.Settled.{AreSettled, HasPlayedKeys, HasSettledBy, IsSettled, opened_by, part_of, said_at, settled_view, starts_of};
ghost use Rattle.cpm_run.specs.Settled.{typed_view, typing_at};
ghost use Rattle.cpm_run.specs.Run.{starts_read};
ghost use Rattle.cpm_run.specs.Settling.{AreFitInputs, AreOpenable, AreSound, AreSoundKeys, IsFitInput, IsFitPart, IsOpenable, IsPartRefusal};
ghost use Rattle.cpm_run.specs.Settling.{IsSettlingRefusal, IsSoundAfter, part_view};
ghost use Rattle.std.specs.Prelude.{Some, ◌+◌, false, length, nat_le, true};
ghost use Rattle.cpm_run.specs.Refusing.{IsLimited};
ghost use Rattle.cpm_script.specs.Script.{most_keys};

use crate::alone::{after_keys, machine_of};
use crate::error::RunError;
use crate::options::{RunOptions, has_replays};
use crate::part::{Part, key_count, part_of, pending_keys, timed_keys, typing_at};
use crate::settled::SettledInput;
use crate::watcher::{RunStage, RunWatcher};
use cpm_batch::Input;
use cpm_config::Config;
use cpm_geom::Image;
use cpm_play::{CuedKeys, LivePlay, TypedPlay, play_cues};
use cpm_script::{Key, MOST_KEYS};
use cpm_shown::shown;
use std::alloc::{AllocError, Global};
use std::io;

/// Keys with others after them.
fn joined(alloc: Global, first: &[Key], others: &[Key]) -> Result<Vec<Key>, AllocError>
    ensures { IfOk result (λ v. v.items ≡ first.now ++ others.now) }
{
    let mut keys = Vec::new(alloc);
    keys.extend_from_slice(first)?;
    keys.extend_from_slice(others)?;
    Ok(keys)
}

/// The keys after so many.
pub(crate) fn keys_after(keys: &[Key], count: usize) -> &[Key]
    ensures { result.now ≡ drop count keys.now }
{
    if count <= keys.len() {
        &keys[count..]
    } else {
        &[]
    }
}

/// Plays a session by itself, by the keys that it has from before and by what it says. It gives its keys and steps, and whether it stopped idle.
fn play_part<T: RunWatcher>(
    alloc: Global,
    system: &Image,
    part: Part<'_>,
    stops_idle: bool,
    watcher: &mut T,
) -> Result<(LivePlay, bool), RunError>
    requires fit { IsFitPart system.now (part_view part) }
    requires opened { IsOpened (start_view part.opened.now) }
    requires openable { IsOpenable (start_view part.opened.now) }
    ensures played { IfOk result (λ p. HasPlayedKeys system.now (part_view part.entry) stops_idle p.0.keys.items p.0.steps p.1) }
    ensures sound { IfOk result (λ p. AreSoundKeys system.now (part_view part.entry) p.0.keys.items p.0.steps) }
    ensures refusal { IfErr result (λ e. e ≡ RunError.OutOfMemory) }
{
    let Part {
        opened,
        before,
        at,
        cues,
        steps,
        last,
    } = part;
    let mut machine = machine_of(alloc, opened)?;
    let cues = after_keys(alloc, before.as_slice(), cues)?;
    let cued = CuedKeys {
        cues: cues.as_slice(),
        waits_from: at,
        stops_idle,
    };
    let played = play_cues(
        alloc,
        system,
        &mut machine,
        steps,
        cued,
        &mut io::sink(),
        &mut io::sink(),
        &mut io::sink(),
        watcher,
    );
    // (what is dropped can always be written, so that it fails for nothing else)
    let Ok(
        LivePlay {
            keys: came,
            steps: done,
        },
    ) = played
    else {
        return Err(RunError::OutOfMemory);
    };
    let own = keys_after(came.as_slice(), before.len());
    let keys = joined(alloc, before.as_slice(), own)?;
    let steps = if stops_idle {
        done.max(at.max(last))
    } else {
        steps
    };
    let is_idle = stops_idle && machine.look().waiting;
    Ok((LivePlay { keys, steps }, is_idle))
}

/// Whether a script can have so many keys, those from before and own ones.
fn is_few(before: usize, own: usize) -> bool
    ensures { result ≡ nat_le (before + own) most_keys }
{
    before <= MOST_KEYS && own <= MOST_KEYS - before
}

/// Whether a machine takes so many keys wherever they come, those from before and own ones, where so many are pending at first.
pub(crate) fn has_room(pending: usize, before: usize, own: usize) -> bool
    ensures { result ≡ nat_le (pending + before + own) most_keys }
{
    is_few(before, own) && is_few(pending, before + own)
}

/// Whether the keys of a session are limited to so many as a script can have: nobody types, and no session is played by a recording.
fn is_limited(options: RunOptions<'_>, typed: &Option<(usize, TypedPlay)>) -> bool
    ensures limited { result ≡ true → IsLimited options.entry (typed_view typed.now) }
    ensures free { result ≡ false → IsLimited options.entry (typed_view typed.now) → ⊥ }
{
    typed.is_none() && !has_replays(options)
}

/// What a session is played by: the keys of its script as they are written, or those that come.
fn settle_part<T: RunWatcher>(
    alloc: Global,
    system: &Image,
    place: usize,
    part: Part<'_>,
    stops_idle: bool,
    watcher: &mut T,
) -> Result<(LivePlay, bool), RunError>
    requires fit { IsFitPart system.now (part_view part) }
    requires opened { IsOpened (start_view part.opened.now) }
    requires openable { IsOpenable (start_view part.opened.now) }
    ensures settled { IfOk result (λ p. HasSettledBy system.now (part_view part.entry) stops_idle (timed_keys (all_said part.entry.cues))
        p.0.keys.items p.0.steps p.1) }
    ensures sound { IfOk result (λ p. AreSoundKeys system.now (part_view part.entry) p.0.keys.items p.0.steps) }
    ensures refusal { IfErr result (λ e. e ≡ RunError.OutOfMemory) }
{
    let pending = pending_keys(part.opened);
    match timed_keys(alloc, part.cues.as_slice())? {
        Some(own) if !stops_idle && has_room(pending, part.before.len(), own.len()) => {
            let live = LivePlay {
                keys: joined(alloc, part.before.as_slice(), own.as_slice())?,
                steps: part.steps,
            };
            Ok((live, false))
        }
        _ => {
            watcher.begin(RunStage::Alone(place));
            play_part(alloc, system, part, stops_idle, watcher)
        }
    }
}

/// Settles a session, after those before it.
fn settle_session<'a, T: RunWatcher>(
    alloc: Global,
    config: &Config,
    options: RunOptions<'_>,
    system: &Image,
    input: Input<'a>,
    settled: &[SettledInput<'_>],
    typed: &Option<(usize, TypedPlay)>,
    watcher: &mut T,
) -> Result<SettledInput<'a>, RunError>
    requires fit { IsFitInput (typed_view typed.now) (starts_of (map settled_view settled.now)) (given input) }
    requires sound { AreSound system.now (map settled_view settled.now) }
    requires openable { IfSome (opened_by (starts_of (map settled_view settled.now)) (start_view input.start)) IsOpenable }
    ensures settled { IfOk result (λ s. IsSettled system.now options.entry.stops_idle
        (typing_at (typed_view typed.now) (length settled.now))
        (part_of (typed_view typed.now) config.now.sessions.items (map settled_view settled.now) (given input.entry)) (given input.entry) (settled_view s)) }
    ensures sound { IfOk result (λ s. IsSoundAfter system.now (map settled_view settled.now) (settled_view s)) }
    ensures refusal { IfErr result (IsPartRefusal options.entry (typed_view typed.now)
        (part_of (typed_view typed.now) config.now.sessions.items (map settled_view settled.now) (given input.entry)) (given input.entry)) }
{
    let Input {
        session,
        start,
        steps,
        cues,
    } = input;
    let part = part_of(alloc, config, typed, settled, session, &start, steps, cues)?;
    let place = settled.len();
    let before = part.before.len();
    if is_limited(options, typed) && !is_few(before, key_count(part.cues.as_slice())) {
        return Err(RunError::TooManyKeys(shown(session.name.as_str())));
    }
    let stops_idle = options.stops_idle;
    let (live, is_idle) = settle_part(alloc, system, place, part, stops_idle, watcher)?;
    Ok(SettledInput {
        session,
        start,
        keys: live.keys,
        before,
        steps: live.steps,
        is_idle,
        typing: typing_at(typed, place),
    })
}

/// Settles all sessions, in their order.
pub(crate) fn settle<'a, T: RunWatcher>(
    alloc: Global,
    config: &Config,
    options: RunOptions<'_>,
    system: &Image,
    inputs: Vec<Input<'a>>,
    typed: &Option<(usize, TypedPlay)>,
    watcher: &mut T,
) -> Result<Vec<SettledInput<'a>>, RunError>
    requires fit { AreFitInputs (typed_view typed.now) [] (map given inputs.items) }
    requires openable { AreOpenable (starts_read (map given inputs.items)) }
    ensures settled { IfOk result (λ v. AreSettled system.now options.entry.stops_idle (typed_view typed.now) config.now.sessions.items []
        (map given inputs.entry.items) (map settled_view v.items)) }
    ensures sound { IfOk result (λ v. AreSound system.now (map settled_view v.items)) }
    ensures refusal { IfErr result (IsSettlingRefusal system.now options.entry (typed_view typed.now) config.now.sessions.items
        (map given inputs.entry.items)) }
{
    let mut settled = Vec::new(alloc);
    let mut rest = inputs.into_iter();
    while let Some(input) = rest.next() {
        let before = settled.as_slice();
        let next = settle_session(
            alloc, config, options, system, input, before, typed, watcher,
        )?;
        settled.push(next)?;
    }
    Ok(settled)
}
