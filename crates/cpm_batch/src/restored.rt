//! Reading what a session needs that goes on from a saving, and how many files are named for its drives.
ghost use Rattle.std.specs.Prelude.{◌≡◌, ◌∷◌, [], IfErr, IfOk, OnOk};
ghost use Rattle.cpm_store.specs.Log.{LogLeadsBy};
ghost use Rattle.cpm_batch.specs.Held.{IsSavingIn};
ghost use Rattle.cpm_batch.specs.Inputs.{IsNeedRefusal, IsRestoredInput, given, restored_needs, saving_need};
ghost use Rattle.cpm_batch.specs.Reads.{IsRestoredRead, IsSavingRead, OnlyRead, StopsAmongNeeds};
ghost use Rattle.cpm_batch.specs.Savings.{AreAllNamed, IsMisnamedTold, names_wanted, saving_view};

use crate::error::ReadError;
use crate::input::{Input, Start, read_bytes, read_cues_of};
use crate::saved::{SavedMachine, restored_machine};
use crate::source::Replay;
use cpm_config::SessionConfig;
use cpm_shown::shown;
use cpm_store::Store;
use std::alloc::Global;

/// Refuses another number of files for the images of a saved machine's drives than it has, where any are named.
pub(crate) fn check_names(
    alloc: Global,
    session: &SessionConfig,
    saved: &SavedMachine,
) -> Result<(), ReadError>
    ensures named { OnOk result (AreAllNamed (names_wanted session.now) saved.now.machine) }
    ensures refusal { IfErr result (IsMisnamedTold session.now saved.now.machine) }
{
    let Some(names) = &session.out else {
        return Ok(());
    };
    let drives = saved.drive_count(alloc)?;
    if names.len() == drives {
        Ok(())
    } else {
        Err(ReadError::SavedDrives {
            session: shown(session.name.as_str()),
            drives,
            names: names.len(),
        })
    }
}

/// The saving in a file that a session goes on from.
fn read_saving<S: Store>(
    alloc: Global,
    store: &mut S,
    session: &SessionConfig,
    name: &str,
) -> Result<SavedMachine, ReadError>
    ensures saving { IfOk result (λ s. IsSavingIn (S.files store.old) name.now (names_wanted session.now) (saving_view s)) }
    ensures log { IfOk result (λ s. LogLeadsBy S.does (IsSavingRead name.now (names_wanted session.now) (saving_view s)) store.old store.new) }
    ensures refusal { IfErr result (IsNeedRefusal (S.files store.old) (saving_need session.now name.now ∷ [])) }
    ensures refused_log { IfErr result (λ e. LogLeadsBy S.does (StopsAmongNeeds (saving_need session.now name.now ∷ []) e) store.old store.new) }
    ensures store { OnlyRead S.does S.files S.failed result store.old store.new }
{
    let bytes = read_bytes(alloc, store, name)?;
    let saved = restored_machine(alloc, name, bytes.as_slice())?;
    check_names(alloc, session, &saved)?;
    Ok(saved)
}

/// What a session needs that goes on from the saving in the file of a name.
pub(crate) fn read_restored<'a, S: Store>(
    alloc: Global,
    store: &mut S,
    session: &'a SessionConfig,
    replays: &[Replay<'_>],
    name: &str,
) -> Result<Input<'a>, ReadError>
    ensures input { IfOk result (λ i. IsRestoredInput (S.files store.old) replays.now name.now (given i)) }
    ensures log { IfOk result (λ i. LogLeadsBy S.does (IsRestoredRead replays.now name.now (given i)) store.old store.new) }
    ensures session { IfOk result (λ i. i.session.now ≡ session.entry.now) }
    ensures refusal { IfErr result (IsNeedRefusal (S.files store.old) (restored_needs replays.now session.entry.now name.now)) }
    ensures refused_log { let needs = restored_needs replays.now session.entry.now name.now in
        IfErr result (λ e. LogLeadsBy S.does (StopsAmongNeeds needs e) store.old store.new) }
    ensures store { OnlyRead S.does S.files S.failed result store.old store.new }
{
    let saved = read_saving(alloc, store, session, name)?;
    let cues = read_cues_of(alloc, store, session, replays)?;
    let steps = session.steps.saturating_sub(saved.count());
    Ok(Input {
        session,
        start: Start::Restored(saved),
        steps,
        cues,
    })
}
