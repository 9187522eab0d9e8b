//! Keeping a run on its way that had gone on from where it stood.
ghost use Rattle.std.specs.Prelude.{◌≡◌, IfOk, map, option_map};
ghost use Rattle.cpm_geom.specs.Disk.{Disk};
ghost use Rattle.cpm_run.specs.Kept.{FitIfAny, FitTogether, kept_view, standing_view};
ghost use Rattle.cpm_run.specs.Settled.{settled_view};
ghost use Rattle.cpm_run.specs.Rest.{rest_of, stands_all, standing_at};
ghost use Rattle.cpm_run.specs.Standing.{IsTrueStanding, join_standings, joined, joined_if};

use crate::going_on::{behind, kept_for};
use crate::rest::saving_copy;
use crate::settled::SettledInput;
use crate::standing::{KeptSession, kept_at};
use std::alloc::{AllocError, Global};

/// What is kept of a session whose rest, from where it had stood, stands so.
fn joined(alloc: Global, before: &KeptSession, rest: KeptSession) -> Result<KeptSession, AllocError>
    ensures { FitTogether (kept_view before.now) (kept_view rest) → IfOk result (λ k. kept_view k ≡ joined (kept_view before.now) (kept_view rest)) }
{
    let KeptSession {
        pressed,
        done,
        console,
        list,
        saved,
    } = rest;
    Ok(KeptSession {
        pressed: before.pressed.saturating_add(pressed),
        done: before.done.saturating_add(done),
        console: behind(alloc, before.console.as_slice(), console)?,
        list: behind(alloc, before.list.as_slice(), list)?,
        saved,
    })
}

/// The same once more.
fn kept_copy(
    alloc: Global,
    session: Option<&KeptSession>,
) -> Result<Option<KeptSession>, AllocError>
    ensures { IfOk result (λ k. option_map kept_view k ≡ option_map (λ s. kept_view s.now) session.entry) }
{
    let Some(session) = session else {
        return Ok(None);
    };
    Ok(Some(KeptSession {
        pressed: session.pressed,
        done: session.done,
        console: session.console.clone()?,
        list: session.list.clone()?,
        saved: saving_copy(alloc, &session.saved)?,
    }))
}

/// What is kept of the session at a place, where this is kept of its rest.
fn join_session(
    alloc: Global,
    inputs: &[SettledInput<'_>],
    kept: &[Option<KeptSession>],
    place: usize,
    rest: Option<KeptSession>,
) -> Result<Option<KeptSession>, AllocError>
    ensures { let from = standing_at (stands_all (standing_view kept.now) (map settled_view inputs.now) (standing_view kept.now)) place in
        FitIfAny from (option_map kept_view rest)
        → IfOk result (λ k. option_map kept_view k ≡ joined_if from (standing_at (standing_view kept.now) place) (option_map kept_view rest)) }
{
    let Some(rest) = rest else {
        return kept_copy(alloc, kept_at(kept, place));
    };
    match kept_for(inputs, kept, place) {
        Some(before) => Ok(Some(joined(alloc, before, rest)?)),
        None => Ok(Some(rest)),
    }
}

/// How many steps a session executes in all.
fn most_steps(input: &SettledInput<'_>) -> u64
    ensures { result ≡ input.now.steps }
{
    input.steps
}

/// What is kept of all sessions of a run, where this is kept of its rest, with which it had gone on from what was kept before.
pub(crate) fn join_kept(
    alloc: Global,
    inputs: &[SettledInput<'_>],
    kept: &[Option<KeptSession>],
    rest: Vec<Option<KeptSession>>,
) -> Result<Vec<Option<KeptSession>>, AllocError>
    ensures { (system : Disk) → IsTrueStanding system (map settled_view inputs.now) (standing_view kept.now)
        → IsTrueStanding system (rest_of (map settled_view inputs.now) (standing_view kept.now)) (standing_view rest.items)
        → IfOk result (λ v. standing_view v.items ≡ join_standings (map settled_view inputs.now) (standing_view kept.now) (standing_view rest.items)) }
{
    let mut all = Vec::new(alloc);
    let mut others = rest.into_iter();
    while let Some(session) = others.next() {
        let place = all.len();
        let Some(input) = inputs.get(place) else {
            return Ok(all);
        };
        // (by the types of these two sums fit, of what was done and of what is left)
        let _steps = most_steps(input);
        let _keys = input.keys.len();
        all.push(join_session(alloc, inputs, kept, place, session)?)?;
    }
    Ok(all)
}
