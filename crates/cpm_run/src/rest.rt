//! What is left to play of a run from where it stands.
ghost use Rattle.std.specs.Prelude.{◌≡◌, IfOk, None, Some, map, option_map};
ghost use Rattle.cpm_batch.specs.Inputs.{start_view};
ghost use Rattle.cpm_batch.specs.Savings.{saving_view};
ghost use Rattle.cpm_run.specs.Kept.{kept_view, standing_view};
ghost use Rattle.cpm_run.specs.Settled.{settled_view};
ghost use Rattle.cpm_run.specs.Rest.{keys_left, rest_from, rest_of, rest_of_session, rest_start, standing_at};

use crate::alone::copies_of;
use crate::settle::keys_after;
use crate::settled::SettledInput;
use crate::standing::{KeptSession, kept_at, kept_by};
use cpm_batch::{SavedMachine, Start};
use cpm_script::Key;
use std::alloc::{AllocError, Global};

/// Equal keys.
fn copied(alloc: Global, keys: &[Key]) -> Result<Vec<Key>, AllocError>
    ensures { IfOk result (λ v. v.items ≡ keys.now) }
{
    let mut copies = Vec::with_capacity(alloc, keys.len())?;
    copies.extend_from_slice(keys)?;
    Ok(copies)
}

/// The keys after so many, whose counts begin at this one.
fn keys_left(alloc: Global, keys: &[Key], pressed: usize, done: u64) -> Result<Vec<Key>, AllocError>
    ensures { IfOk result (λ v. v.items ≡ keys_left pressed done keys.now) }
{
    keys_after(keys, pressed)
        .iter()
        .map(|key| Key {
            count: key.count.saturating_sub(done),
            byte: key.byte,
        })
        .collect(alloc)
}

/// An equal saving.
pub(crate) fn saving_copy(alloc: Global, saved: &SavedMachine) -> Result<SavedMachine, AllocError>
    ensures { IfOk result (λ s. saving_view s ≡ saving_view saved.now) }
{
    Ok(SavedMachine {
        digest: saved.digest,
        machine: saved.machine(alloc)?,
    })
}

/// An equal beginning.
fn start_copy(alloc: Global, start: &Start) -> Result<Start, AllocError>
    ensures { IfOk result (λ s. start_view s ≡ start_view start.now) }
{
    Ok(match start {
        Start::Opened { cpu, quota, drives } => Start::Opened {
            cpu: *cpu,
            quota: *quota,
            drives: copies_of(alloc, drives)?,
        },
        Start::Forked { parent, at } => Start::Forked {
            parent: *parent,
            at: *at,
        },
        Start::Restored(saved) => Start::Restored(saving_copy(alloc, saved)?),
    })
}

/// How the rest of a session begins: from its saving; or where it is still to be forked, so many steps sooner as the other one has executed.
fn rest_start(
    alloc: Global,
    own: Option<&KeptSession>,
    from: &KeptSession,
    start: &Start,
) -> Result<Start, AllocError>
    ensures { IfOk result (λ s. start_view s
        ≡ rest_start (option_map (λ k. kept_view k.now) own.entry) (Some (kept_view from.now)) (start_view start.now)) }
{
    match (own, start) {
        (Some(session), _) => Ok(Start::Restored(saving_copy(alloc, &session.saved)?)),
        (None, Start::Forked { parent, at }) => Ok(Start::Forked {
            parent: *parent,
            at: at.saturating_sub(from.done),
        }),
        (None, start) => start_copy(alloc, start),
    }
}

/// A session that has not begun, which is left whole.
fn unbegun<'a>(alloc: Global, input: &SettledInput<'a>) -> Result<SettledInput<'a>, AllocError>
    ensures { IfOk result (λ r. settled_view r ≡ settled_view input.now) }
{
    Ok(SettledInput {
        session: input.session,
        start: start_copy(alloc, &input.start)?,
        keys: copied(alloc, input.keys.as_slice())?,
        before: input.before,
        steps: input.steps,
        is_idle: input.is_idle,
        typing: input.typing,
    })
}

/// What is left of a session that stands so, or is still to be forked from one that does.
fn begun<'a>(
    alloc: Global,
    own: Option<&KeptSession>,
    from: &KeptSession,
    input: &SettledInput<'a>,
) -> Result<SettledInput<'a>, AllocError>
    ensures { let own_one = option_map (λ k. kept_view k.now) own.entry in let from_one = Some (kept_view from.now) in
        IfOk result (λ r. settled_view r ≡ rest_from from_one (rest_start own_one from_one (settled_view input.now).start) (settled_view input.now)) }
{
    Ok(SettledInput {
        session: input.session,
        start: rest_start(alloc, own, from, &input.start)?,
        keys: keys_left(alloc, input.keys.as_slice(), from.pressed, from.done)?,
        before: input.before.saturating_sub(from.pressed),
        steps: input.steps.saturating_sub(from.done),
        is_idle: input.is_idle,
        typing: input.typing,
    })
}

/// What is left to play of the session at a place.
fn rest_session<'a>(
    alloc: Global,
    kept: &[Option<KeptSession>],
    place: usize,
    input: &SettledInput<'a>,
) -> Result<SettledInput<'a>, AllocError>
    ensures { IfOk result (λ r. settled_view r
        ≡ rest_of_session (standing_view kept.now) (standing_at (standing_view kept.now) place) (settled_view input.now)) }
{
    match kept_by(kept, &input.start, place) {
        Some(from) => begun(alloc, kept_at(kept, place), from, input),
        None => unbegun(alloc, input),
    }
}

/// What is left to play of all sessions of a run, by what is kept of them.
pub(crate) fn rest_inputs<'a>(
    alloc: Global,
    inputs: &[SettledInput<'a>],
    kept: &[Option<KeptSession>],
) -> Result<Vec<SettledInput<'a>>, AllocError>
    ensures { IfOk result (λ v. map settled_view v.items ≡ rest_of (map settled_view inputs.now) (standing_view kept.now)) }
{
    let mut rests = Vec::new(alloc);
    for (place, input) in inputs.iter().enumerate() {
        rests.push(rest_session(alloc, kept, place, input)?)?;
    }
    Ok(rests)
}
