//! A run that goes on from where it stood: its rest is played, and what was shown before is put in front.
ghost use Rattle.std.specs.Prelude.{◌≡◌, ◌≤◌, ◌++◌, ℕ, IfErr, IfOk, IfSome, None, OnOk, Some, length, map, option_map, false, true};
ghost use Rattle.cpm_batch.specs.Outputs.{left_by};
ghost use Rattle.cpm_machine.specs.SystemDigest.{system_digest};
ghost use Rattle.cpm_run.specs.Kept.{kept_view, standing_view};
ghost use Rattle.cpm_run.specs.Pressable.{ArePressable, HaveFewKeys};
ghost use Rattle.cpm_run.specs.Playing.{IsSlotRefusal};
ghost use Rattle.cpm_run.specs.Run.{AllAccepted, AreRestorable, HasPlayedFrom, LeavesFiles, files_from, files_left, report_behind, report_view};
ghost use Rattle.cpm_run.specs.Run.{reports_behind, reports_from, reports_of};
ghost use Rattle.cpm_run.specs.Settled.{settled_view, starts_of};
ghost use Rattle.cpm_run.specs.Rest.{output_behind, outputs_behind, rest_of, stands_all, standing_at};
ghost use Rattle.cpm_slots.specs.Host.{new_host};

use crate::beginning::RunBeginning;
use crate::error::RunError;
use crate::keeper::{Keeper, RunBefore};
use crate::play::play_all;
use crate::pressable::are_pressable;
use crate::report::SessionReport;
use crate::rest::rest_inputs;
use crate::settled::SettledInput;
use crate::standing::{KeptSession, kept_at, kept_by};
use crate::watcher::RunWatcher;
use cpm_batch::SessionFiles;
use cpm_config::Config;
use cpm_geom::Image;
use cpm_machine::{SystemDigest, digest_of};
use cpm_slots::{LEAST_FRAMES, MOST_FRAMES};
use std::alloc::{AllocError, Global};

/// Whether what is kept of a session, if anything is, was saved with a system drive of this digest.
fn is_over(digest: &SystemDigest, session: Option<&KeptSession>) -> bool
    ensures over { result ≡ true → IfSome (option_map (λ k. kept_view k.now) session.entry) (λ s. s.saving.system_digest ≡ digest.now) }
    ensures other { result ≡ false → IfSome (option_map (λ k. kept_view k.now) session.entry) (λ s. s.saving.system_digest ≡ digest.now) → ⊥ }
{
    match session {
        Some(session) => session.saved.digest == *digest,
        None => true,
    }
}

/// Whether all that is kept was saved with this system drive.
fn are_over(system: &Image, kept: &[Option<KeptSession>]) -> bool
    ensures over { result ≡ true → (place : ℕ)
        → IfSome (standing_at (standing_view kept.now) place) (λ s. s.saving.system_digest ≡ system_digest system.now) }
    ensures other { result ≡ false → ((place : ℕ)
        → IfSome (standing_at (standing_view kept.now) place) (λ s. s.saving.system_digest ≡ system_digest system.now)) → ⊥ }
{
    let digest = digest_of(system);
    for place in 0..kept.len() {
        if !is_over(&digest, kept_at(kept, place)) {
            return false;
        }
    }
    true
}

/// Bytes with others in front.
pub(crate) fn behind(alloc: Global, front: &[u8], mut bytes: Vec<u8>) -> Result<Vec<u8>, AllocError>
    ensures { IfOk result (λ v. v.items ≡ front.now ++ bytes.items) }
{
    let mut all = Vec::new(alloc);
    all.extend_from_slice(front)?;
    all.append(&mut bytes)?;
    Ok(all)
}

/// What is kept of the session at a place, or of the one that it is still to be forked from.
pub(crate) fn kept_for<'k>(
    inputs: &[SettledInput<'_>],
    kept: &'k [Option<KeptSession>],
    place: usize,
) -> Option<&'k KeptSession>
    ensures { option_map (λ k. kept_view k.now) result
        ≡ standing_at (stands_all (standing_view kept.entry.now) (map settled_view inputs.now) (standing_view kept.entry.now)) place }
{
    match inputs.get(place) {
        Some(input) => kept_by(kept, &input.start, place),
        None => None,
    }
}

/// What a session leaves whose rest left this, with what it had shown before in front.
fn whole_session<'a>(
    alloc: Global,
    from: Option<&KeptSession>,
    report: SessionReport,
    files: SessionFiles<'a>,
) -> Result<(SessionReport, SessionFiles<'a>), AllocError>
    requires { report.bytes ≡ length files.console.items }
    ensures report { IfOk result (λ w. report_view w.0 ≡ report_behind (option_map (λ k. kept_view k.now) from.entry) (report_view report)) }
    ensures files { IfOk result (λ w. left_by w.1 ≡ output_behind (option_map (λ k. kept_view k.now) from.entry) (left_by files.entry)) }
{
    let Some(before) = from else {
        return Ok((report, files));
    };
    let SessionReport { name, ending, .. } = report;
    let SessionFiles {
        session,
        console,
        list,
        drives,
        saved,
    } = files;
    let console = behind(alloc, before.console.as_slice(), console)?;
    let list = behind(alloc, before.list.as_slice(), list)?;
    let bytes = console.len() as u64;
    let report = SessionReport {
        name,
        ending,
        bytes,
    };
    let files = SessionFiles {
        session,
        console,
        list,
        drives,
        saved,
    };
    Ok((report, files))
}

/// What sessions leave whose rests left these, with what each had shown before in front.
fn whole_sessions<'a>(
    alloc: Global,
    inputs: &[SettledInput<'_>],
    kept: &[Option<KeptSession>],
    reports: Vec<SessionReport>,
    files: Vec<SessionFiles<'a>>,
) -> Result<(Vec<SessionReport>, Vec<SessionFiles<'a>>), AllocError>
    requires { map (λ r. r.bytes) reports.items ≡ map (λ f. length f.console.items) files.items }
    ensures reports { let from = stands_all (standing_view kept.now) (map settled_view inputs.now) (standing_view kept.now) in
        IfOk result (λ w. map report_view w.0.items ≡ reports_behind from (map report_view reports.items)) }
    ensures files { let from = stands_all (standing_view kept.now) (map settled_view inputs.now) (standing_view kept.now) in
        IfOk result (λ w. map left_by w.1.items ≡ outputs_behind from (map left_by files.entry.items)) }
{
    let mut whole_reports = Vec::new(alloc);
    let mut whole_files = Vec::new(alloc);
    let mut others = reports.into_iter();
    let mut rest = files.into_iter();
    while let Some(report) = others.next() {
        let Some(left) = rest.next() else {
            return Ok((whole_reports, whole_files));
        };
        let from = kept_for(inputs, kept, whole_reports.len());
        let (report, left) = whole_session(alloc, from, report, left)?;
        whole_reports.push(report)?;
        whole_files.push(left)?;
    }
    Ok((whole_reports, whole_files))
}

/// What is left of sessions whose playing is refused: nothing. It fails if that is out of memory.
fn left_of_refused<'a>(
    error: RunError,
) -> Result<Option<(Vec<SessionReport>, Vec<SessionFiles<'a>>)>, AllocError>
    ensures none { IfOk result (λ left. left ≡ None) }
    ensures refused { OnOk result (error ≡ RunError.OutOfMemory → ⊥) }
{
    match error {
        RunError::OutOfMemory => Err(AllocError),
        _ => Ok(None),
    }
}

/// Plays the rest of a run from where it stands, and gives what is left of all of it; nothing where a host refuses the rest.
fn play_rest<'a, T: RunWatcher>(
    alloc: Global,
    config: &'a Config,
    system: Image,
    inputs: &[SettledInput<'_>],
    rest: Vec<SettledInput<'_>>,
    kept: &[Option<KeptSession>],
    beginning: RunBeginning,
    watcher: &mut T,
) -> Result<Option<(Vec<SessionReport>, Vec<SessionFiles<'a>>)>, AllocError>
    requires least { LEAST_FRAMES ≤ config.now.frames }
    requires most { config.now.frames ≤ MOST_FRAMES }
    requires quantum { 1 ≤ config.now.quantum }
    requires rest { map settled_view rest.items ≡ rest_of (map settled_view inputs.now) (standing_view kept.now) }
    requires keys { ArePressable system (map settled_view rest.items) }
    requires sessions { map (λ i. i.session) (map settled_view inputs.now) ≡ config.now.sessions.items }
    ensures reports { IfOk result (λ left. IfSome left (λ p. map report_view p.0.items
        ≡ reports_from system (map settled_view inputs.now) (Some (standing_view kept.now)))) }
    ensures files { IfOk result (λ left. IfSome left (λ p. map left_by p.1.items
        ≡ files_from system (map settled_view inputs.now) (Some (standing_view kept.now)))) }
    ensures savings { IfOk result (λ left. IfSome left (λ p. AreRestorable system (rest_of (map settled_view inputs.now) (standing_view kept.now)))) }
    ensures refused { IfOk result (λ left. left ≡ None
        → AllAccepted (starts_of (map settled_view rest.entry.items)) (new_host system config.entry.now.frames)
        (starts_of (map settled_view rest.entry.items)) → ⊥) }
{
    let mut keeper = Keeper {
        alloc,
        watcher,
        beginning,
        before: Some(RunBefore { inputs, kept }),
    };
    let played = match play_all(alloc, config, system, rest, &mut keeper) {
        Ok(played) => played,
        Err(error) => return left_of_refused(error),
    };
    let whole = whole_sessions(alloc, inputs, kept, played.0, played.1)?;
    Ok(Some(whole))
}

/// Plays the sessions of a run from their beginnings, and keeps where they stand.
pub(crate) fn play_kept<'a, T: RunWatcher>(
    alloc: Global,
    config: &'a Config,
    system: Image,
    inputs: Vec<SettledInput<'_>>,
    beginning: RunBeginning,
    watcher: &mut T,
) -> Result<(Vec<SessionReport>, Vec<SessionFiles<'a>>), RunError>
    requires least { LEAST_FRAMES ≤ config.now.frames }
    requires most { config.now.frames ≤ MOST_FRAMES }
    requires quantum { 1 ≤ config.now.quantum }
    requires keys { ArePressable system (map settled_view inputs.items) }
    requires sessions { map (λ i. i.session) (map settled_view inputs.items) ≡ config.now.sessions.items }
    ensures reports { IfOk result (λ p. map report_view p.0.items ≡ reports_of system (map settled_view inputs.entry.items)) }
    ensures files { IfOk result (λ p. map left_by p.1.items ≡ files_left system (map settled_view inputs.entry.items)) }
    ensures savings { OnOk result (AreRestorable system (map settled_view inputs.entry.items)) }
    ensures refusal { IfErr result (IsSlotRefusal config.entry.now.sessions.items (new_host system config.entry.now.frames)
        (starts_of (map settled_view inputs.entry.items))) }
{
    let mut keeper = Keeper {
        alloc,
        watcher,
        beginning,
        before: None,
    };
    play_all(alloc, config, system, inputs, &mut keeper)
}

/// Whether the rest of a run can be played from where it stood, but for the room that a host has: each saving was made over this system drive, and the keys
/// that are left can be pressed.
fn can_go_on(
    alloc: Global,
    system: &Image,
    kept: &[Option<KeptSession>],
    rest: &[SettledInput<'_>],
) -> Result<bool, AllocError>
    ensures can { IfOk result (λ can. can ≡ true
        → ((place : ℕ) → IfSome (standing_at (standing_view kept.now) place) (λ s. s.saving.system_digest ≡ system_digest system.now))
        × ArePressable system.now (map settled_view rest.now)) }
    ensures other { IfOk result (λ can. can ≡ false
        → ((place : ℕ) → IfSome (standing_at (standing_view kept.now) place) (λ s. s.saving.system_digest ≡ system_digest system.now))
        → ArePressable system.now (map settled_view rest.now) → HaveFewKeys (map settled_view rest.now) → ⊥) }
{
    if !are_over(system, kept) {
        return Ok(false);
    }
    are_pressable(alloc, rest)
}

/// Plays the sessions of a run from where they stood by what was kept of them, and gives what is left of them. Where their rests can't be played, which may
/// be so if what was kept isn't theirs, they are played from their beginnings.
pub(crate) fn play_from<'a, T: RunWatcher>(
    alloc: Global,
    config: &'a Config,
    system: Image,
    inputs: Vec<SettledInput<'_>>,
    kept: &[Option<KeptSession>],
    beginning: RunBeginning,
    watcher: &mut T,
) -> Result<(Vec<SessionReport>, Vec<SessionFiles<'a>>), RunError>
    requires least { LEAST_FRAMES ≤ config.now.frames }
    requires most { config.now.frames ≤ MOST_FRAMES }
    requires quantum { 1 ≤ config.now.quantum }
    requires keys { ArePressable system (map settled_view inputs.items) }
    requires sessions { map (λ i. i.session) (map settled_view inputs.items) ≡ config.now.sessions.items }
    ensures left { IfOk result (λ p. HasPlayedFrom system config.entry.now.frames (map settled_view inputs.entry.items) (Some (standing_view kept.now))
        (LeavesFiles system (map settled_view inputs.entry.items) (map report_view p.0.items) (map left_by p.1.items))) }
    ensures refusal { IfErr result (IsSlotRefusal config.entry.now.sessions.items (new_host system config.entry.now.frames)
        (starts_of (map settled_view inputs.entry.items))) }
{
    let sessions = inputs.as_slice();
    let rest = rest_inputs(alloc, sessions, kept)?;
    if !can_go_on(alloc, &system, kept, rest.as_slice())? {
        return play_kept(alloc, config, system, inputs, beginning, watcher);
    }
    let drive = system.copy(alloc)?;
    let left = play_rest(
        alloc, config, drive, sessions, rest, kept, beginning, watcher,
    )?;
    match left {
        Some(left) => Ok(left),
        None => play_kept(alloc, config, system, inputs, beginning, watcher),
    }
}
