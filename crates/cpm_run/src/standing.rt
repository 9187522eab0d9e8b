//! Where the sessions of a run stand on its way.
ghost use Rattle.std.specs.Prelude.{◌≡◌, option_map};
ghost use Rattle.cpm_batch.specs.Inputs.{start_view};
ghost use Rattle.cpm_run.specs.Kept.{kept_view, standing_view};
ghost use Rattle.cpm_run.specs.Rest.{standing_at, stands_by};

use cpm_batch::{SavedMachine, Start};

/// What is kept of a session on the way of a run, so that it can go on from there.
#[derive(Drop)]
pub struct KeptSession {
    /// How many of its keys it has got.
    pub pressed: usize,
    /// How many of its steps it has executed.
    pub done: u64,
    /// The console bytes that it has shown so far.
    pub console: Vec<u8>,
    /// Its list bytes so far.
    pub list: Vec<u8>,
    /// Its machine, whose output was taken.
    pub saved: SavedMachine,
}

/// What is kept of the session at a place; nothing where it has not begun, or is still to be forked.
pub(crate) fn kept_at(kept: &[Option<KeptSession>], place: usize) -> Option<&KeptSession>
    ensures { option_map (λ k. kept_view k.now) result ≡ standing_at (standing_view kept.entry.now) place }
{
    match kept.get(place) {
        Some(Some(session)) => Some(session),
        _ => None,
    }
}

/// Where a session stands that begins so, by what is kept of it or of the one that it is still to be forked from.
pub(crate) fn kept_by<'k>(
    kept: &'k [Option<KeptSession>],
    start: &Start,
    place: usize,
) -> Option<&'k KeptSession>
    ensures { option_map (λ k. kept_view k.now) result
        ≡ stands_by (standing_view kept.entry.now) (standing_at (standing_view kept.entry.now) place) (start_view start.now) }
{
    match (kept_at(kept, place), start) {
        (None, Start::Forked { parent, .. }) => kept_at(kept, *parent),
        (own, _) => own,
    }
}
