//! A run of the sessions of a configuration: it is read, settled, played and written.
ghost use Rattle.std.specs.Prelude.{◌≡◌, ◌<◌, ◌≤◌, ℕ, IfErr, IfOk, OnOk, map};
ghost use Rattle.cpm_slots.specs.Host.{new_host};
ghost use Rattle.cpm_store.specs.Files.{CountsFailure, WhereTold};
ghost use Rattle.cpm_store.specs.Log.{LogLeadsBy, StopsAfter};
ghost use Rattle.cpm_store.specs.Writes.{StopsAt, named_output};
ghost use Rattle.cpm_batch.specs.Outputs.{left_by};
ghost use Rattle.cpm_run.specs.Playing.{IsSlotRefusal};
ghost use Rattle.cpm_run.specs.Pressable.{ArePressable};
ghost use Rattle.cpm_run.specs.Refusing.{IsDeviceFault, IsRunRefusal, IsWriteRefusal};
ghost use Rattle.cpm_run.specs.Run.{HasPlayedFrom, HasRun, HasWrittenOutputs, LeavesFiles, LeavesOutputs, config_fault, kept_by_options};
ghost use Rattle.cpm_run.specs.Run.{report_view, top_fault};
ghost use Rattle.cpm_run.specs.Settled.{settled_view, starts_of, streams};
ghost use Rattle.cpm_run.specs.Settling.{AreSound};

use crate::beginning::beginning_of;
use crate::checkpoint::kept_of;
use crate::error::RunError;
use crate::going_on::{play_from, play_kept};
use crate::options::RunOptions;
use crate::play::play_all;
use crate::records::{records_of, stops_of};
use crate::report::{Report, SessionReport};
use crate::settled::SettledInput;
use crate::stages::settle_inputs;
use crate::typed::typed_place;
use crate::watcher::{RunStage, RunWatcher};
use cpm_batch::{SessionFiles, outputs_of, read_inputs};
use cpm_config::{Config, ConfigError, ConfigKey, Field};
use cpm_geom::Image;
use cpm_play::Typist;
use cpm_shown::shown;
use cpm_slots::{LEAST_FRAMES, MOST_FRAMES};
use cpm_store::{Output, Store, StoreError, write_all};
use std::alloc::Global;
use std::io::Write;

/// A number of the configuration with which nothing can be run.
fn top_fault(config: &Config) -> Option<Field>
    ensures { result ≡ top_fault config.now }
{
    if config.frames < LEAST_FRAMES || config.frames > MOST_FRAMES {
        Some(Field::Frames)
    } else if config.quantum == 0 {
        Some(Field::Quantum)
    } else {
        None
    }
}

/// The first place of the configuration at which nothing can be run: one of these numbers, or a fork from no earlier session that is opened, or at a
/// count above the steps of either.
fn config_fault(config: &Config) -> Option<ConfigKey>
    ensures { result ≡ config_fault config.now }
{
    match top_fault(config) {
        Some(field) => Some(ConfigKey { session: 0, field }),
        None => config.fork_fault(),
    }
}

/// Writes files in order, up to the first that can't be written.
fn write_files<S: Store>(outputs: &[Output<'_>], store: &mut S) -> Result<(), RunError>
    ensures written { OnOk result (HasWrittenOutputs (record { does = S.does; files = S.files }) (map named_output outputs.now) store.old store.new) }
    ensures refusal { IfErr result (λ e. (place : ℕ) × IsWriteRefusal (map named_output outputs.now) place e
        × WhereTold (S.files store.old) (S.files store.new) (StopsAt (map named_output outputs.now) place)
        × LogLeadsBy S.does (StopsAfter (map named_output outputs.now) place) store.old store.new) }
    ensures device { IfErr result (λ e. IsDeviceFault e → CountsFailure (S.failed store.old) (S.failed store.new)) }
    ensures memory { IfErr result (λ e. e ≡ RunError.OutOfMemory → S.failed store.new ≡ S.failed store.old) }
    ensures uncounted { OnOk result (S.failed store.new ≡ S.failed store.old) }
    ensures counted { S.failed store.old ≤ S.failed store.new }
{
    match write_all(outputs, store) {
        Ok(()) => Ok(()),
        Err(error) => match error.cause {
            StoreError::Device => Err(RunError::WriteFault(shown(outputs[error.place].name))),
            StoreError::OutOfMemory => Err(RunError::OutOfMemory),
        },
    }
}

/// Plays the sessions of a configuration from where they stood if that was kept and they can go on from there, or else from their beginnings, and gives what is
/// left of them. Where the watcher keeps checkpoints, it gets them on the way.
fn play_sessions<'a, T: RunWatcher>(
    alloc: Global,
    config: &'a Config,
    options: RunOptions<'_>,
    system: Image,
    inputs: Vec<SettledInput<'_>>,
    watcher: &mut T,
) -> Result<(Vec<SessionReport>, Vec<SessionFiles<'a>>), RunError>
    requires least { LEAST_FRAMES ≤ config.now.frames }
    requires most { config.now.frames ≤ MOST_FRAMES }
    requires quantum { 1 ≤ config.now.quantum }
    requires keys { ArePressable system (map settled_view inputs.items) }
    requires sessions { map (λ i. i.session) (map settled_view inputs.items) ≡ config.now.sessions.items }
    ensures left { IfOk result (λ p. HasPlayedFrom system config.entry.now.frames (map settled_view inputs.entry.items)
        (kept_by_options system options.entry (map settled_view inputs.entry.items))
        (LeavesFiles system (map settled_view inputs.entry.items) (map report_view p.0.items) (map left_by p.1.items))) }
    ensures refusal { IfErr result (IsSlotRefusal config.entry.now.sessions.items (new_host system config.entry.now.frames)
        (starts_of (map settled_view inputs.entry.items))) }
{
    if options.kept.is_none() && !watcher.keeps_checkpoints() {
        return play_all(alloc, config, system, inputs, watcher);
    }
    let beginning = beginning_of(alloc, &system, inputs.as_slice())?;
    let kept = kept_of(alloc, options.kept, &beginning)?;
    if options.kept.is_some() {
        watcher.tell_kept(kept.is_some());
    }
    match kept {
        Some(kept) => play_from(
            alloc,
            config,
            system,
            inputs,
            kept.as_slice(),
            beginning,
            watcher,
        ),
        None => play_kept(alloc, config, system, inputs, beginning, watcher),
    }
}

/// Plays the sessions of a configuration, and gives what is reported of them and what is written after them.
fn play_inputs<'a, T: RunWatcher>(
    alloc: Global,
    config: &'a Config,
    options: RunOptions<'a>,
    system: Image,
    inputs: Vec<SettledInput<'_>>,
    watcher: &mut T,
) -> Result<(Report, Vec<Output<'a>>), RunError>
    requires least { LEAST_FRAMES ≤ config.now.frames }
    requires most { config.now.frames ≤ MOST_FRAMES }
    requires quantum { 1 ≤ config.now.quantum }
    requires sound { AreSound system (map settled_view inputs.items) }
    requires sessions { map (λ i. i.session) (map settled_view inputs.items) ≡ config.now.sessions.items }
    ensures played { IfOk result (λ p. HasPlayedFrom system config.entry.now.frames (map settled_view inputs.entry.items)
        (kept_by_options system options.entry (map settled_view inputs.entry.items))
        (LeavesOutputs system options.entry (map settled_view inputs.entry.items) p.0 (map named_output p.1.items))) }
    ensures refusal { IfErr result (IsSlotRefusal config.entry.now.sessions.items (new_host system config.entry.now.frames)
        (starts_of (map settled_view inputs.entry.items))) }
{
    watcher.begin(RunStage::All);
    let stops = stops_of(alloc, inputs.as_slice())?;
    let mut records = records_of(alloc, options.records, inputs.as_slice())?;
    let (reports, files) = play_sessions(alloc, config, options, system, inputs, watcher)?;
    let mut outputs = outputs_of(alloc, files)?;
    outputs.append(&mut records)?;
    let report = Report {
        sessions: reports,
        stops,
    };
    Ok((report, outputs))
}

/// Runs the sessions of a configuration over the files of a store. It reads the system drive's image, then each session's drives and
/// script, or the recording that stands in place of that, each once and checked before the next is read. Where a session is to be typed at, where one is
/// played by a recording, where a script waits, or where sessions stop idle, all openings and forks are judged then; the session that is named is played by
/// itself by its script and then by the keys that are typed, and what it shows goes to `out` and its keys to `record`; and each other one is that waits
/// or stops idle, so that its keys are those that come. It opens all that aren't forked; plays them by turns in their order, and forks the others from
/// them on the way; then writes of each in order its console's text, its list device's and its drives, and at last the records of their keys. Each
/// session is reported. The watcher is told on the way how far they have come.
///
/// The first refusal met is answered. But for `WriteFault` and `OutOfMemory` nothing was written then, and but for these, `TooManyKeys` and the faults of the
/// three streams no key was read. With `WriteFault` and `OutOfMemory` the files before one hold what they should, and no name after it was written.
pub fn run_host<'a, S: Store, P: Typist, W: Write, R: Write, T: RunWatcher>(
    alloc: Global,
    config: &'a Config,
    options: RunOptions<'a>,
    store: &mut S,
    typist: &mut P,
    out: &mut W,
    record: &mut R,
    watcher: &mut T,
) -> Result<Report, RunError>
    // Each session stands in its files and its report as its machine alone by its keys, whatever the turns. So it is of each store, by the calls that were
    // made, and by what its files hold, where it tells that. Where the run goes on from a checkpoint, the rest of each session is its machine alone, behind
    // what the checkpoint says that it had shown: as the whole, if the checkpoint is true (`laws::rest_is_whole`).
    ensures run { IfOk result (λ report. HasRun (record { does = S.does; files = S.files }) config.entry.now options.entry report
        (streams (P.typing typist.old) (P.typing typist.new) (W.contents out.old) (W.contents out.new) (R.contents «record».old) (R.contents «record».new))
        store.old store.new) }
    ensures refusal { IfErr result (IsRunRefusal (record { does = S.does; files = S.files }) config.entry.now options.entry
        (streams (P.typing typist.old) (P.typing typist.new) (W.contents out.old) (W.contents out.new) (R.contents «record».old) (R.contents «record».new))
        store.old store.new) }
    ensures device { IfErr result (λ e. IsDeviceFault e → CountsFailure (S.failed store.old) (S.failed store.new)) }
    ensures memory { IfErr result (λ e. e ≡ RunError.OutOfMemory → S.failed store.new ≡ S.failed store.old) }
    ensures uncounted { OnOk result (S.failed store.new ≡ S.failed store.old) }
    ensures counted { S.failed store.old ≤ S.failed store.new }
{
    if let Some(place) = config_fault(config) {
        return Err(RunError::ConfigRefused(ConfigError::Range(place)));
    }
    let typed = typed_place(config, options)?;
    let (system, inputs) = read_inputs(alloc, config, options.replays, store)?;
    let settled = settle_inputs(
        alloc, config, options, typed, &system, inputs, typist, out, record, watcher,
    )?;
    let (report, outputs) = play_inputs(alloc, config, options, system, settled, watcher)?;
    write_files(outputs.as_slice(), store)?;
    Ok(report)
}
