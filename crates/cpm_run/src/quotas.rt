//! The pages that sessions may write.
ghost use Rattle.std.specs.Prelude.{◌≡◌, map, slice_get};
ghost use Rattle.cpm_batch.specs.Inputs.{given, start_view};
ghost use Rattle.cpm_run.specs.Openings.{quota_read};
ghost use Rattle.cpm_run.specs.Run.{pages_of_starts, starts_read};
ghost use Rattle.cpm_run.specs.Settled.{opening_of, start_by};

use cpm_batch::{Input, Start};

/// The pages that a session may write that isn't forked.
fn own_quota(start: &Start) -> u16
    ensures { result ≡ (opening_of (start_view start.now)).quota }
{
    match start {
        Start::Opened { quota, .. } => *quota,
        Start::Restored(saved) => saved.machine.quota(),
        Start::Forked { .. } => 0,
    }
}

/// Those that the session at a place may write, if it isn't forked.
pub(crate) fn quota_at(inputs: &[Input<'_>], place: usize) -> u16
    ensures { result ≡ quota_read (slice_get (starts_read (map given inputs.now)) place) }
{
    match inputs.get(place) {
        Some(input) => own_quota(&input.start),
        None => 0,
    }
}

/// Those that a session of these may write: as many as the one that it is forked from, where it is.
fn quota_in(inputs: &[Input<'_>], start: &Start) -> u16
    ensures { result ≡ (start_by (starts_read (map given inputs.now)) (start_view start.now)).quota }
{
    match start {
        Start::Opened { .. } | Start::Restored(_) => own_quota(start),
        Start::Forked { parent, .. } => quota_at(inputs, *parent),
    }
}

/// The pages that all sessions may write.
pub(crate) fn pages_of_starts(inputs: &[Input<'_>]) -> u128
    ensures { result ≡ pages_of_starts (starts_read (map given inputs.now)) }
{
    let mut quotas: u128 = 0;
    for input in inputs {
        quotas += u128::from(quota_in(inputs, &input.start));
    }
    quotas
}
