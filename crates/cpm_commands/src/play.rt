//! The commands `com` and `boot`: a machine is played.
ghost use Rattle.std.specs.Prelude.{◌≡◌, ◌&&◌, ◌∷◌, [], IfErr, IfOk, map};
ghost use Rattle.cpm_commands.specs.Drives.{HasToldLeftOut};
ghost use Rattle.cpm_commands.specs.Messages.{HasToldEnd};
ghost use Rattle.cpm_commands.specs.Plan.{plan_view};
ghost use Rattle.cpm_commands.specs.Play.{HasPlayedTask, HasPlayedWith, IsPlayRefused, IsPlayStopped, is_cut_off, is_kept_back, plan_of_play};
ghost use Rattle.cpm_commands.specs.Play.{by_steps, source_of, status_of, status_of_end, steps_asked, writes_disks, writes_files};
ghost use Rattle.cpm_commands.specs.Record.{HasEndedRecord};
ghost use Rattle.cpm_machine.specs.Step.{is_running};
ghost use Rattle.cpm_play.specs.Output.{output_state};
ghost use Rattle.cpm_run.specs.Settled.{play_streams, streams};
ghost use Rattle.cpm_script.specs.Cues.{cue_text, last_cue_count};

use crate::begin::{read_keys, read_start, tail_if_any};
use crate::drives::{DrivePlace, add_places, find_places, tell_left_out};
use crate::files::CommandFiles;
use crate::left::{LeftTexts, write_left};
use crate::list_text::ListText;
use crate::messages::{Messages, tell_end};
use crate::out_folder::{FolderStart, folder_starts, tell_unwritten};
use crate::plan::{FilePlan, FileRole, OutputNaming, add_all, add_if_any};
use crate::record::{KeyRecord, end_record};
use cpm_host::{
    Cue, CuedKeys, End, Ending, HostError, PlayEnd, PlayTask, ProgramPlay, RunStage, RunWatcher,
    Source, Typist, run_program,
};
use std::alloc::{AllocError, Global};
use std::io::Write;

/// How many steps a program has at most where nobody says, behind its last key that has a count.
const STEPS: u64 = 1_000_000;

/// The files that are read and written, where the drives come from these places.
fn plan_of<'a>(
    alloc: Global,
    task: &PlayTask<'a>,
    places: &'a [DrivePlace<'a>],
) -> Result<FilePlan<'a>, AllocError>
    ensures { IfOk result (λ p. plan_view p ≡ plan_of_play task.now places.entry.now) }
{
    let mut inputs = Vec::new(alloc);
    add_if_any(&mut inputs, task.from, FileRole::Saving)?;
    add_if_any(&mut inputs, task.file, FileRole::Plain)?;
    add_places(&mut inputs, places)?;
    add_if_any(&mut inputs, task.system, FileRole::Image)?;
    add_if_any(&mut inputs, task.keys, FileRole::Plain)?;
    add_if_any(&mut inputs, task.replay, FileRole::Plain)?;
    let mut outputs = Vec::new(alloc);
    add_all(&mut outputs, &task.outs, FileRole::Image)?;
    add_all(&mut outputs, &task.out_folders, FileRole::Folder)?;
    add_if_any(&mut outputs, task.record, FileRole::Plain)?;
    add_if_any(&mut outputs, task.list, FileRole::Plain)?;
    add_if_any(&mut outputs, task.save, FileRole::Saving)?;
    Ok(FilePlan {
        inputs,
        outputs,
        naming: OutputNaming::Replaces,
    })
}

/// Where the keys of the program come from.
fn source_of<'a>(task: &PlayTask<'_>, cues: &'a [Cue]) -> Source<'a>
    ensures { source_of task.now cues.entry.now result }
{
    if task.is_live {
        Source::Typed { cues }
    } else {
        Source::Cues(CuedKeys {
            cues,
            waits_from: 0,
            stops_idle: task.stops_idle,
        })
    }
}

/// Whether its disks are written, or files of them.
fn writes_disks(task: &PlayTask<'_>) -> bool
    ensures { result ≡ writes_disks task.now }
{
    !task.outs.is_empty() || !task.out_folders.is_empty()
}

/// Whether files are written of what comes of it: its disks, what it prints, its keys, or the machine.
fn writes_files(task: &PlayTask<'_>) -> bool
    ensures { result ≡ writes_files task.now }
{
    writes_disks(task) || task.list.is_some() || task.record.is_some() || task.save.is_some()
}

/// The count of a key, where it has one; and else this one.
fn count_after(last: u64, cue: &Cue) -> u64
    ensures { result ≡ last_cue_count last (cue_text cue.now ∷ []) }
{
    match cue {
        Cue::Key(key) => key.count,
        Cue::Wait(_) | Cue::Press(_) => last,
    }
}

/// The count of the last key that has one; 0 where none has.
fn last_count(cues: &[Cue]) -> u64
    ensures { result ≡ last_cue_count 0 (map cue_text cues.now) }
{
    let mut last = 0;
    for cue in cues {
        last = count_after(last, cue);
    }
    last
}

/// How many steps it has at most. Where a person ends it, or files are written, there is no limit that nobody asked for; and else all keys come that have
/// counts.
fn steps_asked(task: &PlayTask<'_>, cues: &[Cue]) -> u64
    ensures { result ≡ steps_asked task.now cues.now }
{
    let unasked = if task.is_live || writes_files(task) {
        u64::MAX
    } else {
        last_count(cues).saturating_add(STEPS)
    };
    task.steps.unwrap_or(unasked)
}

/// Whether a machine still runs.
fn runs(end: End) -> bool
    ensures { result ≡ is_running end }
{
    matches!(end, End::Running)
}

/// The exit status that tells how a machine ended.
fn status_of_end(end: End) -> u8
    ensures { result ≡ status_of_end end }
{
    match end {
        End::Exited | End::Halted => 0,
        End::Running => 11,
        End::Illegal => 12,
        End::Quota => 13,
        End::CountEnd => 14,
    }
}

/// Whether its steps were all that could end a play that goes on, and not who typed.
fn by_steps(end: Option<PlayEnd>) -> bool
    ensures { result ≡ by_steps end }
{
    match end {
        None | Some(PlayEnd::Steps) => true,
        Some(PlayEnd::Ended | PlayEnd::Typing(_)) => false,
    }
}

/// Whether its limit of steps has cut a program off: it still runs, doesn't wait for a key, and nobody has ended it.
fn is_cut_off(task: &PlayTask<'_>, play: &ProgramPlay) -> bool
    ensures { result ≡ is_cut_off task.now play.now }
{
    task.steps.is_some() && runs(play.ending.ended) && !play.waits && by_steps(play.end)
}

/// Whether its disks are to be written only where it was not cut off, and it was. Where the machine is saved, which can go on, they are written too.
fn is_kept_back(task: &PlayTask<'_>, play: &ProgramPlay) -> bool
    ensures { result ≡ is_kept_back task.now play.now }
{
    writes_disks(task) && !task.is_partial && task.save.is_none() && is_cut_off(task, play)
}

/// The exit status.
fn status_of(task: &PlayTask<'_>, ending: Ending) -> u8
    ensures { result ≡ status_of task.now ending }
{
    if task.has_status {
        status_of_end(ending.ended)
    } else {
        0
    }
}

/// What its run begins.
fn stage_of(task: &PlayTask<'_>) -> RunStage {
    if task.is_live {
        RunStage::Typing
    } else {
        RunStage::All
    }
}

/// Whether a program was to stop where it waits, and waits.
fn is_idle(waits: bool, stops_idle: bool) -> bool
    ensures { result ≡ waits && stops_idle }
{
    waits && stops_idle
}

/// What was played, and the drives at the start of it whose files go into folders.
#[derive(Drop)]
struct StartedPlay {
    play: ProgramPlay,
    starts: Vec<FolderStart>,
}

/// Reads what a machine begins with and its keys, and plays it. What it shows and prints is written as it comes. What is left out of its drives is told
/// before.
fn play_machine<F: CommandFiles, P: Typist, W: Write, L: Write, R: Write, T: RunWatcher + Messages>(
    alloc: Global,
    task: &PlayTask<'_>,
    files: &mut F,
    typist: &mut P,
    out: &mut W,
    list: &mut L,
    record: &mut R,
    watcher: &mut T,
) -> Result<StartedPlay, HostError>
    ensures played { IfOk result (HasPlayedWith
        (record {
          does = F.does;
          sees_to = F.sees_to;
          tells_folder = F.tells_folder;
          lists = F.lists;
          unlists = F.unlists;
          told_left_out = λ places. HasToldLeftOut T.tells watcher.old places;
        })
        task.now
        (play_streams (P.typing typist.old) (P.typing typist.new)
        (output_state (W.contents out.old) (L.contents list.old)) (output_state (W.contents out.new) (L.contents list.new))
        (R.contents «record».old) (R.contents «record».new))
        files.old files.new) }
    ensures refusal { IfErr result (IsPlayStopped
        (record {
          does = F.does;
          sees_to = F.sees_to;
          tells_folder = F.tells_folder;
          lists = F.lists;
          unlists = F.unlists;
          told_left_out = λ places. HasToldLeftOut T.tells watcher.old places;
        })
        task.now
        (play_streams (P.typing typist.old) (P.typing typist.new)
        (output_state (W.contents out.old) (L.contents list.old)) (output_state (W.contents out.new) (L.contents list.new))
        (R.contents «record».old) (R.contents «record».new))
        files.old files.new) }
{
    let tail = tail_if_any(alloc, task)?;
    let places = find_places(alloc, &task.drives, files)?;
    let plan = plan_of(alloc, task, places.as_slice())?;
    files.see_to(&plan)?;
    tell_left_out(places.as_slice(), watcher);
    let start = read_start(alloc, task, places.as_slice(), tail, files)?;
    let cues = read_keys(alloc, task, files)?;
    let source = source_of(task, cues.as_slice());
    let starts = folder_starts(alloc, &task.out_folders, start.drives.as_slice())?;
    watcher.begin(stage_of(task));
    let play = run_program(
        alloc,
        start,
        steps_asked(task, cues.as_slice()),
        source,
        typist,
        out,
        list,
        record,
        watcher,
    )?;
    Ok(StartedPlay { play, starts })
}

/// Plays a machine, by a program, from the prompt of CP/M, or from where it was saved. It shows its text as it comes. Once it was played it writes what it
/// printed, its drives and the machine itself where files are named for them, and those of their files that are new or changed where folders are, and tells
/// how it ended. It gives the exit status.
///
/// One that its limit of steps has cut off is `CutOff` where files or folders are named for its drives, and these are not to be written in part: nothing is
/// written then, but the record of its keys is.
pub fn do_play_task<F: CommandFiles, P: Typist, W: Write, R: KeyRecord, T: RunWatcher + Messages>(
    alloc: Global,
    task: &PlayTask<'_>,
    files: &mut F,
    typist: &mut P,
    out: &mut W,
    record: &mut R,
    watcher: &mut T,
) -> Result<u8, HostError>
    ensures ran { IfOk result (HasPlayedTask
        (record {
          does = F.does;
          sees_to = F.sees_to;
          tells_folder = F.tells_folder;
          lists = F.lists;
          unlists = F.unlists;
          told_left_out = λ places. HasToldLeftOut T.tells watcher.old places;
        })
        F.gives_names (HasEndedRecord R.ends R.contents (R.contents «record».new) «record».new)
        (λ unwritten ending waits end dropped. HasToldEnd T.tells T.is_read task.now unwritten ending waits end dropped watcher.new) task.now
        (streams (P.typing typist.old) (P.typing typist.new) (W.contents out.old) (W.contents out.new) (R.contents «record».old) (R.contents «record».new))
        files.old files.new) }
    ensures refusal { IfErr result (IsPlayRefused
        (record {
          does = F.does;
          sees_to = F.sees_to;
          tells_folder = F.tells_folder;
          lists = F.lists;
          unlists = F.unlists;
          told_left_out = λ places. HasToldLeftOut T.tells watcher.old places;
        })
        F.gives_names (HasEndedRecord R.ends R.contents (R.contents «record».new) «record».new)
        task.now
        (streams (P.typing typist.old) (P.typing typist.new) (W.contents out.old) (W.contents out.new) (R.contents «record».old) (R.contents «record».new))
        files.old files.new) }
{
    let room = Vec::with_capacity(alloc, 6)?;
    let mut list = ListText::new(alloc, task.list.is_some());
    let StartedPlay { play, starts } = play_machine(
        alloc, task, files, typist, out, &mut list, record, watcher,
    )?;
    end_record(record)?;
    if is_kept_back(task, &play) {
        return Err(HostError::CutOff(play.steps));
    }
    let ProgramPlay {
        ending,
        drives,
        waits,
        end,
        saved,
        ..
    } = play;
    let dropped = list.has_dropped();
    let texts = LeftTexts {
        printed: list.into_kept(),
        saved,
    };
    let unwritten = write_left(alloc, task, starts.as_slice(), room, texts, drives, files)?;
    tell_unwritten(unwritten.as_slice(), watcher);
    tell_end(
        ending,
        is_idle(waits, task.stops_idle),
        end,
        dropped,
        task,
        watcher,
    );
    Ok(status_of(task, ending))
}
