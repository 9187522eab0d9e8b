//! Reading what a session needs that is forked from an earlier one.
ghost use Rattle.std.specs.Prelude.{◌≡◌, ◌<◌, ◌≤◌, ◌∷◌, [], IfErr, IfOk, IfSome, OnOk, Some, ℕ, is_some, length, map, true};
ghost use Rattle.cpm_config.specs.Rules.{parent_in, session_view};
ghost use Rattle.cpm_script.specs.Cues.{all_said, cue_text};
ghost use Rattle.cpm_store.specs.Log.{LogLeadsBy};
ghost use Rattle.cpm_batch.specs.Held.{IsForkedScriptIn};
ghost use Rattle.cpm_batch.specs.Inputs.{AllInputs, CanFork, ForkedScriptIn, Forks, HasForkedSaid, HasSaidFrom, IsForkedInput};
ghost use Rattle.cpm_batch.specs.Inputs.{IsForkGivenUp, IsNeedRefusal, forked_key_needs, forked_needs, given, known_before, known_of};
ghost use Rattle.cpm_batch.specs.Inputs.{own_count, saved_count, session_named, session_place, start_view};
ghost use Rattle.cpm_batch.specs.Savings.{names_wanted};
ghost use Rattle.cpm_batch.specs.Sources.{key_source};
ghost use Rattle.cpm_batch.specs.Reads.{IsForkedRead, IsForkedSaidRead, IsForkedScriptRead, IsSaidReadFrom, OnlyRead, StopsAmongNeeds};
ghost use Rattle.cpm_script.specs.Script.{most_keys};

use crate::error::ReadError;
use crate::input::{Input, Start, read_bytes};
use crate::recording::read_replay;
use crate::restored::check_names;
use crate::source::{KeySource, Replay, key_source, replay_of};
use cpm_config::SessionConfig;
use cpm_script::{Cue, ScriptError, read_forked_cues};
use cpm_shown::shown;
use cpm_store::Store;
use std::alloc::Global;

/// The place of the first of these sessions that has a name.
fn session_place(before: &[Input], name: &str) -> Option<usize>
    ensures place { result ≡ session_place (map given before.now) name.now }
    ensures within { IfSome result (λ place. place < length before.now) }
{
    before
        .iter()
        .position(|input| input.session.name.as_str() == name)
}

/// How many keys a script is known to have before a count: none where one of its lines waits.
fn known_before(cues: &[Cue], at: u64) -> usize
    ensures { result ≡ known_before at (map cue_text cues.now) }
{
    let mut count = 0;
    for cue in cues {
        let Cue::Key(key) = cue else {
            return 0;
        };
        if key.count < at {
            count += 1;
        }
    }
    count
}

/// How many keys a session is known to have before a count; those of a recording aren't counted.
fn known_of(input: &Input, replays: &[Replay<'_>], at: u64) -> usize
    ensures { result ≡ known_of replays.now at (given input.now) }
{
    match replay_of(replays, input.session.name.as_str()) {
        Some(_) => 0,
        None => known_before(input.cues.as_slice(), at),
    }
}

/// What the script in a file says for a session that is forked at a count of steps, after so many keys.
fn read_forked_script<S: Store>(
    alloc: Global,
    store: &mut S,
    name: &str,
    at: u64,
    before: usize,
) -> Result<Vec<Cue>, ReadError>
    requires { before ≤ most_keys }
    ensures cues { IfOk result (λ v. IsForkedScriptIn (S.files store.old) name.now at before (all_said v)) }
    ensures log { IfOk result (λ v. LogLeadsBy S.does (IsForkedScriptRead name.now at before (all_said v)) store.old store.new) }
    ensures refusal { IfErr result (IsNeedRefusal (S.files store.old) (ForkedScriptIn name.now at before ∷ [])) }
    ensures refused_log { IfErr result (λ e. LogLeadsBy S.does (StopsAmongNeeds (ForkedScriptIn name.now at before ∷ []) e) store.old store.new) }
    ensures store { OnlyRead S.does S.files S.failed result store.old store.new }
{
    let text = read_bytes(alloc, store, name)?;
    match read_forked_cues(alloc, text.as_slice(), at, before) {
        Ok(cues) => Ok(cues),
        Err(ScriptError::Line { number, fault }) => Err(ReadError::Script {
            name: shown(name),
            line: number,
            fault,
        }),
        Err(ScriptError::OutOfMemory) => Err(ReadError::OutOfMemory),
    }
}

/// What the script of a session says that is forked at a count of steps, after so many keys, or the recording in place of it, if it has one.
fn read_forked_cues_of<S: Store>(
    alloc: Global,
    store: &mut S,
    session: &SessionConfig,
    replays: &[Replay<'_>],
    at: u64,
    before: usize,
) -> Result<Vec<Cue>, ReadError>
    requires { before ≤ most_keys }
    ensures cues { let keys = key_source replays.now session.now in
        IfOk result (λ v. HasForkedSaid (S.files store.old) keys at before (all_said v)) }
    ensures log { let keys = key_source replays.now session.now in
        IfOk result (λ v. LogLeadsBy S.does (IsForkedSaidRead keys at before (all_said v)) store.old store.new) }
    ensures refusal { let keys = key_source replays.now session.now in
        IfErr result (IsNeedRefusal (S.files store.old) (forked_key_needs at before keys)) }
    ensures refused_log { let needs = forked_key_needs at before (key_source replays.now session.now) in
        IfErr result (λ e. LogLeadsBy S.does (StopsAmongNeeds needs e) store.old store.new) }
    ensures store { OnlyRead S.does S.files S.failed result store.old store.new }
{
    match key_source(replays, session) {
        KeySource::Script(name) => read_forked_script(alloc, store, name, at, before),
        KeySource::Recording(name) => read_replay(alloc, store, name, at),
        KeySource::Nothing => Ok(Vec::new(alloc)),
    }
}

/// Refuses a fork, at this whole count, of a session that begins so: one before the count that that was saved at, and one that names another number of
/// files for the images of its drives than that has.
fn check_fork(
    alloc: Global,
    session: &SessionConfig,
    parent: &Start,
    at: u64,
) -> Result<(), ReadError>
    ensures fits { OnOk result (CanFork (start_view parent.now) at (names_wanted session.now)) }
    ensures refusal { IfErr result (IsForkGivenUp session.now (start_view parent.now) at) }
{
    let Start::Restored(saved) = parent else {
        return Ok(());
    };
    let count = saved.count();
    if at < count {
        return Err(ReadError::ForkedEarly {
            session: shown(session.name.as_str()),
            at,
            count,
        });
    }
    check_names(alloc, session, saved)
}

/// What a session needs that is forked from this one, which stands at this place, at a whole count of steps.
fn read_forked_from<'a, S: Store>(
    alloc: Global,
    store: &mut S,
    session: &'a SessionConfig,
    replays: &[Replay<'_>],
    parent: &Input,
    place: usize,
    at: u64,
) -> Result<Input<'a>, ReadError>
    requires few { (own : ℕ) → known_of replays.now own (given parent.now) ≤ most_keys }
    ensures fits { OnOk result (CanFork (given parent.now).start at (names_wanted session.entry.now)) }
    ensures start { IfOk result (λ i. (given i).start ≡ Forks place (own_count (given parent.now) at)) }
    ensures steps { IfOk result (λ i. i.steps ≡ own_count (given parent.now) session.entry.now.steps) }
    ensures said { let own = own_count (given parent.now) at in
        IfOk result (λ i. HasSaidFrom (S.files store.old) replays.now session.entry.now (given parent.now) own (given i).said) }
    ensures log { let own = own_count (given parent.now) at in
        IfOk result (λ i. LogLeadsBy S.does (IsSaidReadFrom replays.now session.entry.now (given parent.now) own (given i).said) store.old store.new) }
    ensures session { IfOk result (λ i. i.session.now ≡ session.entry.now) }
    ensures refusal { let needs = forked_needs replays.now session.entry.now at (Some (given parent.now)) in
        IfErr result (IsNeedRefusal (S.files store.old) needs) }
    ensures refused_log { let needs = forked_needs replays.now session.entry.now at (Some (given parent.now)) in
        IfErr result (λ e. LogLeadsBy S.does (StopsAmongNeeds needs e) store.old store.new) }
    ensures store { OnlyRead S.does S.files S.failed result store.old store.new }
{
    check_fork(alloc, session, &parent.start, at)?;
    let saved = parent.start.saved_count();
    let own = at - saved;
    let known = known_of(parent, replays, own);
    let cues = read_forked_cues_of(alloc, store, session, replays, own, known)?;
    Ok(Input {
        session,
        start: Start::Forked {
            parent: place,
            at: own,
        },
        steps: session.steps.saturating_sub(saved),
        cues,
    })
}

/// What a session needs that is forked from the one of a name, which isn't forked and stands before it, at a whole count of steps.
pub(crate) fn read_forked<'a, S: Store>(
    alloc: Global,
    store: &mut S,
    session: &'a SessionConfig,
    replays: &[Replay<'_>],
    before: &[Input],
    name: &str,
    at: u64,
) -> Result<Input<'a>, ReadError>
    requires before { AllInputs (S.files store.old) replays.now [] (map given before.now) }
    requires parent { is_some (parent_in (map (λ i. session_view i.session) (map given before.now)) name.now) ≡ true }
    ensures input { IfOk result (λ i. IsForkedInput (S.files store.old) replays.now (map given before.now) name.now at (given i)) }
    ensures log { IfOk result (λ i. LogLeadsBy S.does (IsForkedRead replays.now (map given before.now) name.now at (given i)) store.old store.new) }
    ensures session { IfOk result (λ i. i.session.now ≡ session.entry.now) }
    ensures refusal { let needs = forked_needs replays.now session.entry.now at (session_named (map given before.now) name.now) in
        IfErr result (IsNeedRefusal (S.files store.old) needs) }
    ensures refused_log { let needs = forked_needs replays.now session.entry.now at (session_named (map given before.now) name.now) in
        IfErr result (λ e. LogLeadsBy S.does (StopsAmongNeeds needs e) store.old store.new) }
    ensures store { OnlyRead S.does S.files S.failed result store.old store.new }
{
    let Some(place) = session_place(before, name) else {
        unreachable!()
    };
    read_forked_from(alloc, store, session, replays, &before[place], place, at)
}
