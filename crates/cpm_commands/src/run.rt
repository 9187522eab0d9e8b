//! The command `run`.
ghost use Rattle.std.specs.Prelude.{◌≡◌, ◌++◌, ◌&&◌, IfErr, IfOk, None, OnOk, map, option_map, string_bytes, zip};
ghost use Rattle.cpm_commands.specs.Messages.{HasToldIllegal};
ghost use Rattle.cpm_commands.specs.Plan.{all_planned, named_files, plan_view};
ghost use Rattle.cpm_commands.specs.Record.{HasEndedRecord};
ghost use Rattle.cpm_commands.specs.Report.{IsReported, report_text};
ghost use Rattle.cpm_commands.specs.Replays.{IsReplayRefusal};
ghost use Rattle.cpm_commands.specs.Run.{ArePlayedBack, HasRunAll, HasRunSessions, IsConfigRead, IsConfigRefused, IsEndStopped, IsRunAllStopped, IsRunStopped};
ghost use Rattle.cpm_commands.specs.Run.{IsRunUnseen, plan_by, plan_of_run, record_mark, record_marks, run_inputs, run_outputs, script_names};
ghost use Rattle.cpm_commands.specs.Run.{beginning_named, role_of, session_inputs, session_outputs};
ghost use Rattle.cpm_commands.specs.Typed.{IsScriptKept, is_typed_at, typed_script};
ghost use Rattle.cpm_run.specs.Settled.{streams};

use crate::files::{CommandFiles, read_file};
use crate::messages::{Messages, tell_all_illegal};
use crate::plan::{
    FilePlan, FileRole, OutputNaming, PlannedFile, add_file, add_if_any, add_strings,
};
use crate::record::{KeyRecord, end_record};
use crate::replays::replays_of;
use crate::report::{LineWriter, print_report};
use crate::typed::is_typed_at;
use cpm_batch::{Replay, key_file};
use cpm_checkpoint::Checkpoint;
use cpm_config::Field;
use cpm_host::{
    Config, HostError, Origin, RecordFile, Report, RunOptions, RunTask, RunWatcher, SessionConfig,
    Typist, run_host,
};
use std::alloc::{AllocError, Global};
use std::io::Write;

/// Who is told how a run goes on, and of its sessions before.
pub trait SessionsWatcher: RunWatcher {
    /// The sessions are these.
    fn meet(&mut self, config: &Config);

    /// All was played. The script of this name is as it was, if no key came.
    fn end(&mut self, kept: Option<&str>);
}

/// The configuration in a file.
fn read_config<F: CommandFiles>(
    alloc: Global,
    name: &str,
    files: &mut F,
) -> Result<Config, HostError>
    ensures read { IfOk result (λ c. IsConfigRead F.does name.now files.old files.new c) }
    ensures refusal { IfErr result (IsConfigRefused F.does name.now files.old files.new) }
{
    let text = read_file(alloc, files, name)?;
    Ok(Config::read(alloc, text.as_slice())?)
}

/// The files in a folder that the scripts of all sessions go to, in their order; none where there is no folder.
fn script_names(
    alloc: Global,
    config: &Config,
    folder: Option<&str>,
) -> Result<Vec<String>, AllocError>
    ensures { IfOk result (λ v. map string_bytes v.items ≡ script_names (option_map (λ f. f.now) folder.entry) config.now.sessions.items) }
{
    let mut names = Vec::new(alloc);
    let Some(folder) = folder else {
        return Ok(names);
    };
    for session in &config.sessions {
        let name = session.name.as_str();
        names.push(format!(in alloc; "{folder}/{name}.keys")?)?;
    }
    Ok(names)
}

/// Adds what a session begins with: its drives where it is opened, and the saving that it goes on from.
fn add_beginning<'a>(files: &mut Vec<PlannedFile<'a>>, origin: &'a Origin) -> Result<(), AllocError>
    ensures { OnOk result (named_files files.new.items ≡ named_files files.old.items ++ beginning_named origin.entry.now) }
{
    match origin {
        Origin::Opened { drives, .. } => add_strings(files, drives, FileRole::Image),
        Origin::Restored { saving } => add_file(files, saving.as_str(), FileRole::Saving),
        Origin::Forked { .. } => Ok(()),
    }
}

/// Adds what a session begins with, and its script, or the recording in place of that.
fn add_inputs<'a>(
    files: &mut Vec<PlannedFile<'a>>,
    session: &'a SessionConfig,
    replays: &[Replay<'a>],
) -> Result<(), AllocError>
    ensures { OnOk result (named_files files.new.items ≡ named_files files.old.items ++ session_inputs replays.now session.entry.now) }
{
    add_beginning(files, &session.origin)?;
    add_if_any(files, key_file(replays, session), FileRole::Plain)
}

/// What a file is that a session names by this key.
fn role_of(key: Field) -> FileRole
    ensures { result ≡ role_of key }
{
    match key {
        Field::Out => FileRole::Image,
        Field::Save => FileRole::Saving,
        _ => FileRole::Plain,
    }
}

/// Adds the files that a session writes.
fn add_outputs<'a>(
    alloc: Global,
    files: &mut Vec<PlannedFile<'a>>,
    session: &'a SessionConfig,
) -> Result<(), AllocError>
    ensures { OnOk result (named_files files.new.items ≡ named_files files.old.items ++ session_outputs session.entry.now) }
{
    let named = session.output_files(alloc)?;
    for file in named.as_slice() {
        add_file(files, file.name, role_of(file.key))?;
    }
    Ok(())
}

/// The files that a run reads.
fn inputs_of<'a>(
    alloc: Global,
    file: &'a str,
    config: &'a Config,
    replays: &[Replay<'a>],
) -> Result<Vec<PlannedFile<'a>>, AllocError>
    ensures { IfOk result (λ v. named_files v.items ≡ run_inputs file.now config.entry.now replays.now) }
{
    let mut inputs = Vec::new(alloc);
    add_file(&mut inputs, file, FileRole::Configuration)?;
    add_file(&mut inputs, config.system.as_str(), FileRole::Image)?;
    for session in &config.sessions {
        add_inputs(&mut inputs, session, replays)?;
    }
    Ok(inputs)
}

/// The files that a run writes.
fn outputs_of<'a>(
    alloc: Global,
    config: &'a Config,
    record: Option<&'a str>,
    scripts: &'a [String],
) -> Result<Vec<PlannedFile<'a>>, AllocError>
    ensures { IfOk result (λ v. named_files v.items
        ≡ run_outputs config.entry.now (option_map (λ n. n.now) «record».entry) (map string_bytes scripts.entry.now)) }
{
    let mut outputs = Vec::new(alloc);
    for session in &config.sessions {
        add_outputs(alloc, &mut outputs, session)?;
    }
    add_if_any(&mut outputs, record, FileRole::Plain)?;
    add_strings(&mut outputs, scripts, FileRole::Script)?;
    Ok(outputs)
}

/// The files that a run names.
fn plan_of<'a>(
    alloc: Global,
    file: &'a str,
    config: &'a Config,
    replays: &[Replay<'a>],
    record: Option<&'a str>,
    scripts: &'a [String],
) -> Result<FilePlan<'a>, AllocError>
    ensures { IfOk result (λ p. plan_view p
        ≡ plan_of_run file.now config.entry.now replays.now (option_map (λ n. n.now) «record».entry) (map string_bytes scripts.entry.now)) }
{
    Ok(FilePlan {
        inputs: inputs_of(alloc, file, config, replays)?,
        outputs: outputs_of(alloc, config, record, scripts)?,
        naming: OutputNaming::Replaces,
    })
}

/// The script of the session that is typed at, if there is one.
fn typed_script<'a>(config: &Config, scripts: &'a [String], typed: Option<&str>) -> Option<&'a str>
    ensures { option_map (λ n. n.now) result
        ≡ typed_script (option_map (λ n. n.now) typed.entry) (zip config.now.sessions.items scripts.entry.now) }
{
    for (session, script) in config.sessions.iter().zip(scripts) {
        if is_typed_at(typed, session) {
            return Some(script.as_str());
        }
    }
    None
}

/// The script of the session that is typed at, if something has its name.
fn kept_script<'a, F: CommandFiles>(
    config: &Config,
    scripts: &'a [String],
    typed: Option<&str>,
    files: &F,
) -> Option<&'a str>
    ensures { IsScriptKept (F.tells_name files.now) (typed_script (option_map (λ n. n.now) typed.entry) (zip config.now.sessions.items scripts.entry.now))
        (option_map (λ n. n.now) result) }
{
    match typed_script(config, scripts, typed) {
        Some(name) if files.has(name) => Some(name),
        _ => None,
    }
}

/// The file for the keys of a session. That of the one that is typed at wants a key, if it is to be kept.
fn record_file<'a>(
    session: &SessionConfig,
    script: &'a str,
    typed: Option<&str>,
    is_kept: bool,
) -> RecordFile<'a>
    ensures { record_mark result ≡ (script.entry.now, is_typed_at (option_map (λ n. n.now) typed.entry) session.now && is_kept) }
{
    RecordFile {
        name: script,
        needs_key: is_typed_at(typed, session) && is_kept,
    }
}

/// The files for the keys of all sessions.
fn records_of<'a>(
    alloc: Global,
    config: &Config,
    scripts: &'a [String],
    typed: Option<&str>,
    is_kept: bool,
) -> Result<Vec<RecordFile<'a>>, AllocError>
    ensures { IfOk result (λ v. map record_mark v.items
        ≡ record_marks is_kept (option_map (λ n. n.now) typed.entry) (zip config.now.sessions.items scripts.entry.now)) }
{
    let mut records = Vec::new(alloc);
    for (session, script) in config.sessions.iter().zip(scripts) {
        records.push(record_file(session, script.as_str(), typed, is_kept))?;
    }
    Ok(records)
}

/// Gives what was written its names, prints how each session ended, and tells the bytes at which one ended that are no instruction: also where a file can't
/// have its name.
fn end_run<F: CommandFiles, W: LineWriter, M: Messages>(
    alloc: Global,
    report: &Report,
    files: &mut F,
    out: &mut W,
    messages: &mut M,
) -> Result<(), HostError>
    ensures ended { OnOk result (F.gives_names files.old None files.new
        × IsReported (W.contents out.old) (W.contents out.new) (report_text (zip report.now.sessions.items report.now.stops.items))) }
    ensures refusal { IfErr result (IsEndStopped F.gives_names files.old files.new) }
    ensures told { HasToldIllegal M.tells report.now.sessions.items messages.new }
{
    let named = files.give_names();
    let printed = print_report(alloc, report, out);
    tell_all_illegal(&report.sessions, messages);
    named?;
    printed
}

/// The sessions that are played by recordings.
fn played_back<'a>(
    alloc: Global,
    task: &RunTask<'a>,
    config: &Config,
) -> Result<Vec<Replay<'a>>, HostError>
    ensures replays { IfOk result (λ v. ArePlayedBack task.now config.now v.items) }
    ensures refusal { IfErr result (IsReplayRefusal config.now.sessions.items (map (λ w. w.now) task.now.replays.items)) }
{
    replays_of(alloc, config, task.replays.as_slice())
}

/// Sees to the files of a run.
fn see_to_run<F: CommandFiles>(
    alloc: Global,
    task: &RunTask<'_>,
    config: &Config,
    replays: &[Replay<'_>],
    scripts: &[String],
    files: &mut F,
) -> Result<(), HostError>
    ensures seen { OnOk result (F.sees_to files.old (plan_by task.now config.now replays.now scripts.now) None files.new) }
    ensures refusal { IfErr result (λ e. IsRunUnseen F.sees_to task.now config.now replays.now scripts.now files.old files.new e) }
{
    let plan = plan_of(alloc, task.config, config, replays, task.record, scripts)?;
    files.see_to(&plan)
}

/// Runs the sessions of a configuration with what was asked, and writes what they leave and their records.
fn run_asked<'a, F: CommandFiles, P: Typist, W: Write, R: KeyRecord, T: SessionsWatcher>(
    alloc: Global,
    task: &RunTask<'a>,
    config: &Config,
    replays: &'a [Replay<'a>],
    scripts: &'a [String],
    stood: Option<&'a Checkpoint>,
    files: &mut F,
    typist: &mut P,
    out: &mut W,
    record: &mut R,
    watcher: &mut T,
) -> Result<Report, HostError>
    ensures ran { IfOk result (λ report. HasRunAll (record { does = F.does; files = F.files }) F.tells_name
        (option_map (λ c. c.now) stood.entry) task.now config.now replays.entry.now scripts.entry.now report
        (streams (P.typing typist.old) (P.typing typist.new) (W.contents out.old) (W.contents out.new) (R.contents «record».old) (R.contents «record».new))
        files.old files.new) }
    ensures refusal { IfErr result (IsRunAllStopped (record { does = F.does; files = F.files }) F.tells_name
        (option_map (λ c. c.now) stood.entry) task.now config.now replays.entry.now scripts.entry.now
        (streams (P.typing typist.old) (P.typing typist.new) (W.contents out.old) (W.contents out.new) (R.contents «record».old) (R.contents «record».new))
        files.old files.new) }
{
    let kept = kept_script(config, scripts, task.keyboard, files);
    let records = records_of(alloc, config, scripts, task.keyboard, kept.is_some())?;
    let options = RunOptions {
        typed: task.keyboard,
        stops_idle: task.stops_idle,
        records: records.as_slice(),
        replays,
        kept: stood,
    };
    watcher.meet(config);
    let report = run_host(alloc, config, options, files, typist, out, record, watcher)?;
    watcher.end(kept);
    Ok(report)
}

/// The same of names that are lent for times of their own.
fn run_all<F: CommandFiles, P: Typist, W: Write, R: KeyRecord, T: SessionsWatcher>(
    alloc: Global,
    task: &RunTask<'_>,
    config: &Config,
    replays: &[Replay<'_>],
    scripts: &[String],
    stood: Option<&Checkpoint>,
    files: &mut F,
    typist: &mut P,
    out: &mut W,
    record: &mut R,
    watcher: &mut T,
) -> Result<Report, HostError>
    ensures ran { IfOk result (λ report. HasRunAll (record { does = F.does; files = F.files }) F.tells_name
        (option_map (λ c. c.now) stood.entry) task.now config.now replays.now scripts.now report
        (streams (P.typing typist.old) (P.typing typist.new) (W.contents out.old) (W.contents out.new) (R.contents «record».old) (R.contents «record».new))
        files.old files.new) }
    ensures refusal { IfErr result (IsRunAllStopped (record { does = F.does; files = F.files }) F.tells_name
        (option_map (λ c. c.now) stood.entry) task.now config.now replays.now scripts.now
        (streams (P.typing typist.old) (P.typing typist.new) (W.contents out.old) (W.contents out.new) (R.contents «record».old) (R.contents «record».new))
        files.old files.new) }
{
    run_asked(
        alloc, task, config, replays, scripts, stood, files, typist, out, record, watcher,
    )
}

/// Runs the sessions of the configuration in a file, some of them by recordings in place of their scripts, and one by the keys that are typed, as that is
/// asked; gives what they leave its names, and prints how each ended. Where it is given where they stood, they go on from there.
pub fn run_sessions<
    F: CommandFiles,
    P: Typist,
    W: LineWriter,
    R: KeyRecord,
    T: SessionsWatcher + Messages,
>(
    alloc: Global,
    task: &RunTask<'_>,
    stood: Option<&Checkpoint>,
    files: &mut F,
    typist: &mut P,
    out: &mut W,
    record: &mut R,
    watcher: &mut T,
) -> Result<(), HostError>
    ensures ran { OnOk result (HasRunSessions (record { does = F.does; files = F.files }) F.sees_to F.gives_names F.tells_name
        (option_map (λ c. c.now) stood.entry)
        (HasEndedRecord R.ends R.contents (R.contents «record».new) «record».new) (λ sessions. HasToldIllegal T.tells sessions watcher.new)
        task.now files.old files.new (P.typing typist.old) (P.typing typist.new) (W.contents out.old) (W.contents out.new)
        (R.contents «record».old) (R.contents «record».new)) }
    ensures refusal { IfErr result (IsRunStopped (record { does = F.does; files = F.files }) F.sees_to F.gives_names F.tells_name
        (option_map (λ c. c.now) stood.entry)
        (HasEndedRecord R.ends R.contents (R.contents «record».new) «record».new) (λ sessions. HasToldIllegal T.tells sessions watcher.new)
        task.now files.old files.new (P.typing typist.old) (P.typing typist.new) (W.contents out.old) (W.contents out.new)
        (R.contents «record».old) (R.contents «record».new)) }
{
    let config = read_config(alloc, task.config, files)?;
    let replays = played_back(alloc, task, &config)?;
    let scripts = script_names(alloc, &config, task.scripts)?;
    see_to_run(alloc, task, &config, &replays, &scripts, files)?;
    let report = run_all(
        alloc, task, &config, &replays, &scripts, stood, files, typist, out, record, watcher,
    )?;
    let ended = end_run(alloc, &report, files, out, watcher);
    // (what was typed is recorded also where what was played can't be written)
    let recorded = end_record(record);
    ended?;
    recorded
}
