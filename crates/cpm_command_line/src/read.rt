//! Reading the entries that a command line gave.
ghost use Rattle.std.specs.Prelude.{◌≡◌, IfOk, IfErr, IsSomeAnd, None, Some, codes, map, true, false};
ghost use Rattle.clap.specs.Words.{all_of, fault_of, found_of, one_of, rows_of, subcommand_rows_of, takes};
ghost use Rattle.cpm_command_line.specs.CommandLine.{HasEntriesOf, HasPlayEntries, IsFlag, IsTyped, IsWhole, IsWholeAsm};
ghost use Rattle.cpm_command_line.specs.CommandLine.{IsWholeCheck, IsWholeDebug, IsWholeList, IsWholeOf, IsWholePlay};
ghost use Rattle.cpm_command_line.specs.CommandLine.{IsWholeRun, IsWholeSaved, IsWholeServe, ReadsWordsIfAny, host_app};
ghost use Rattle.cpm_command_line.specs.HelpWords.{is_help_line, named_by, page_of_line};
ghost use Rattle.cpm_command_line.specs.Line.{HasUsers, IsFaultless, IsHostTask, IsPageOrMemory, IsTaskOf};
ghost use Rattle.cpm_command_line.specs.Line.{app_of_line, asked_page, asks_by_flag, names_disk, words_of_line};
ghost use Rattle.cpm_command_line.specs.Options.{task_fault};
ghost use Rattle.cpm_command_line.specs.Refusals.{IsHelpAnswer, IsRefusalBy, IsRefusalOf, IsTaskRefusal};

use crate::build::host_command;
use crate::disk::disk_task;
use crate::entries::{count_if_any, cpu_of, flag_of, text_if_any, text_of, texts_if_any};
use crate::fault::{UsageError, UsageRefusal, answer};
use crate::options::options_fault;
use crate::task::{DebugTask, PlayTask, RunTask, ServeTask, Task};
use crate::usage::{Page, is_help_line, page_of_help_line, page_of_line};
use clap::ArgMatches;
use std::alloc::{AllocError, Global};

/// The task of a machine that is played, with what `com` and `boot` take from entries of their own.
fn play_task<'a>(
    matches: &ArgMatches<'a>,
    file: Option<&'a str>,
    tail: Vec<&'a str>,
    drives: Vec<&'a str>,
    outs: Vec<&'a str>,
    out_folders: Vec<&'a str>,
    is_live: bool,
) -> PlayTask<'a>
    requires whole { IsWholePlay (rows_of (found_of matches.now)) }
    requires outs { ReadsWordsIfAny (all_of (codes "out-disk") (rows_of (found_of matches.now))) outs.items }
    requires folders { ReadsWordsIfAny (all_of (codes "out-folder") (rows_of (found_of matches.now))) out_folders.items }
    ensures entries { HasPlayEntries (rows_of (found_of matches.now)) result }
    ensures own { (result.file ≡ file.entry) × (result.tail ≡ tail.entry) × (result.drives ≡ drives.entry) × (result.is_live ≡ is_live) }
{
    PlayTask {
        file,
        tail,
        cpu: cpu_of(matches),
        steps: count_if_any(matches, "steps"),
        keys: text_if_any(matches, "keys"),
        drives,
        outs,
        is_live,
        record: text_if_any(matches, "record"),
        has_progress: flag_of(matches, "progress"),
        stops_idle: flag_of(matches, "stop-idle"),
        is_raw: flag_of(matches, "raw"),
        is_quiet: flag_of(matches, "quiet"),
        is_partial: flag_of(matches, "partial"),
        has_status: flag_of(matches, "status"),
        replay: text_if_any(matches, "replay"),
        pace: count_if_any(matches, "pace"),
        system: text_if_any(matches, "system"),
        out_folders,
        list: text_if_any(matches, "list"),
        save: text_if_any(matches, "save"),
        from: text_if_any(matches, "from"),
    }
}

/// The task of `com`. What it owns is made here, where memory may be refused.
fn com_task<'a>(alloc: Global, matches: &ArgMatches<'a>) -> Result<Task<'a>, AllocError>
    requires { IsWholePlay (rows_of (found_of matches.now)) }
    ensures { IfOk result (HasEntriesOf (codes "com", rows_of (found_of matches.now))) }
{
    let tail = texts_if_any(alloc, matches, "tail")?;
    let drives = texts_if_any(alloc, matches, "disk")?;
    let outs = texts_if_any(alloc, matches, "out-disk")?;
    let out_folders = texts_if_any(alloc, matches, "out-folder")?;
    let file = text_if_any(matches, "file");
    let is_live = flag_of(matches, "keyboard");
    let task = play_task(matches, file, tail, drives, outs, out_folders, is_live);
    Ok(Task::Com(task))
}

/// Whether the keys of `boot` are typed.
fn is_typed(matches: &ArgMatches<'_>) -> bool
    requires { IsFlag (one_of (codes "keyboard") (rows_of (found_of matches.now))) }
    ensures { IsTyped (rows_of (found_of matches.now)) result }
{
    let is_asked = flag_of(matches, "keyboard");
    let keys = text_if_any(matches, "keys");
    let replay = text_if_any(matches, "replay");
    is_asked || (keys.is_none() && replay.is_none())
}

/// The task of `boot`.
fn boot_task<'a>(alloc: Global, matches: &ArgMatches<'a>) -> Result<Task<'a>, AllocError>
    requires { IsWholePlay (rows_of (found_of matches.now)) }
    ensures { IfOk result (HasEntriesOf (codes "boot", rows_of (found_of matches.now))) }
{
    let drives = texts_if_any(alloc, matches, "place")?;
    let outs = texts_if_any(alloc, matches, "out-disk")?;
    let out_folders = texts_if_any(alloc, matches, "out-folder")?;
    let is_live = is_typed(matches);
    let tail = Vec::new(alloc);
    let task = play_task(matches, None, tail, drives, outs, out_folders, is_live);
    Ok(Task::Boot(task))
}

/// The task of `asm`.
fn asm_task<'a>(matches: &ArgMatches<'a>) -> Task<'a>
    requires { IsWholeAsm (rows_of (found_of matches.now)) }
    ensures { HasEntriesOf (codes "asm", rows_of (found_of matches.now)) result }
{
    Task::Asm {
        source: text_of(matches, "source"),
        out: text_of(matches, "out"),
        list: text_if_any(matches, "list"),
    }
}

/// The task of `list`.
fn list_task<'a>(matches: &ArgMatches<'a>) -> Task<'a>
    requires { IsWholeList (rows_of (found_of matches.now)) }
    ensures { HasEntriesOf (codes "list", rows_of (found_of matches.now)) result }
{
    let cpu = cpu_of(matches);
    Task::List {
        file: text_of(matches, "file"),
        cpu,
    }
}

/// The task of `check`.
fn check_task<'a>(matches: &ArgMatches<'a>) -> Task<'a>
    requires { IsWholeCheck (rows_of (found_of matches.now)) }
    ensures { HasEntriesOf (codes "check", rows_of (found_of matches.now)) result }
{
    Task::Check {
        image: text_of(matches, "image"),
    }
}

/// The task of `run`.
fn run_task<'a>(alloc: Global, matches: &ArgMatches<'a>) -> Result<Task<'a>, AllocError>
    requires { IsWholeRun (rows_of (found_of matches.now)) }
    ensures { IfOk result (HasEntriesOf (codes "run", rows_of (found_of matches.now))) }
{
    let folders = texts_if_any(alloc, matches, "within")?;
    let replays = texts_if_any(alloc, matches, "replay")?;
    Ok(Task::Run(RunTask {
        config: text_of(matches, "config"),
        keyboard: text_if_any(matches, "keyboard"),
        record: text_if_any(matches, "record"),
        has_progress: flag_of(matches, "progress"),
        stops_idle: flag_of(matches, "stop-idle"),
        scripts: text_if_any(matches, "record-all"),
        is_raw: flag_of(matches, "raw"),
        folders,
        has_outputs_here: flag_of(matches, "outputs-here"),
        pace: count_if_any(matches, "pace"),
        replays,
        checkpoint: count_if_any(matches, "checkpoint"),
    }))
}

/// The task of `debug`.
fn debug_task<'a>(matches: &ArgMatches<'a>) -> Task<'a>
    requires { IsWholeDebug (rows_of (found_of matches.now)) }
    ensures { HasEntriesOf (codes "debug", rows_of (found_of matches.now)) result }
{
    Task::Debug(DebugTask {
        file: text_if_any(matches, "file"),
        cpu: cpu_of(matches),
        list: text_if_any(matches, "list"),
        from: text_if_any(matches, "from"),
        system: text_if_any(matches, "system"),
    })
}

/// The task of `serve`.
fn serve_task<'a>(matches: &ArgMatches<'a>) -> Task<'a>
    requires { IsWholeServe (rows_of (found_of matches.now)) }
    ensures { HasEntriesOf (codes "serve", rows_of (found_of matches.now)) result }
{
    Task::Serve(ServeTask {
        system: text_if_any(matches, "system"),
        frames: count_if_any(matches, "frames"),
        folder: text_if_any(matches, "folder"),
        journal: text_if_any(matches, "journal"),
        resume: text_if_any(matches, "resume"),
        is_compact: flag_of(matches, "compact"),
    })
}

/// The task of `saved`.
fn saved_task<'a>(matches: &ArgMatches<'a>) -> Task<'a>
    requires { IsWholeSaved (rows_of (found_of matches.now)) }
    ensures { HasEntriesOf (codes "saved", rows_of (found_of matches.now)) result }
{
    Task::Saved {
        file: text_of(matches, "file"),
    }
}

/// The task of a subcommand's entries.
fn task_named<'a>(
    alloc: Global,
    name: &str,
    matches: &ArgMatches<'a>,
) -> Result<Task<'a>, AllocError>
    requires { IsWholeOf (name.now, rows_of (found_of matches.now)) }
    ensures { IfOk result (HasEntriesOf (name.now, rows_of (found_of matches.now))) }
{
    match name {
        "com" => com_task(alloc, matches),
        "boot" => boot_task(alloc, matches),
        "asm" => Ok(asm_task(matches)),
        "list" => Ok(list_task(matches)),
        "check" => Ok(check_task(matches)),
        "run" => run_task(alloc, matches),
        "debug" => Ok(debug_task(matches)),
        "serve" => Ok(serve_task(matches)),
        _ => Ok(saved_task(matches)),
    }
}

/// The task of a parse.
fn task_of<'a>(alloc: Global, matches: &ArgMatches<'a>) -> Result<Task<'a>, AllocError>
    requires { IsWhole (subcommand_rows_of matches.now) }
    ensures { IfOk result (λ t. IsSomeAnd (subcommand_rows_of matches.now) (λ given. HasEntriesOf given t)) }
{
    match matches.subcommand() {
        Some((name, inner)) => task_named(alloc, name, inner),
        None => unreachable!(),
    }
}

/// The task that words name which don't name `disk`, in a line that has this page.
fn host_task<'a>(alloc: Global, words: &'a [&'a str], page: Page) -> Result<Task<'a>, UsageError>
    ensures task { IfOk result (IsHostTask page (map (λ w. w.now) words.entry.now)) }
    ensures asked { asks_by_flag (fault_of host_app (map (λ w. w.now) words.entry.now)) ≡ true
        → IsPageOrMemory page result }
    ensures taken { takes host_app (map (λ w. w.now) words.entry.now) ≡ true
        → IfErr result (λ e. e ≡ UsageError.OutOfMemory) }
    ensures refusal { IfErr result (IsRefusalBy false page host_app (map (λ w. w.now) words.entry.now)) }
{
    let command = match host_command(alloc) {
        Ok(command) => command,
        Err(_) => return Err(UsageError::OutOfMemory),
    };
    let matches = match command.try_get_matches_from(words) {
        Ok(matches) => matches,
        Err(error) => return answer(alloc, &error, false, page),
    };
    match task_of(alloc, &matches) {
        Ok(task) => Ok(task),
        Err(_) => Err(UsageError::OutOfMemory),
    }
}

/// Whether the word after the program's name is `disk`.
fn is_disk_line(words: &[&str]) -> bool
    ensures { result ≡ names_disk (map (λ w. w.now) words.now) }
{
    match words {
        [_, first, ..] => *first == "disk",
        _ => false,
    }
}

/// The task that the words name by clap's rules, where they are no question behind `help`.
fn task_by_rules<'a>(alloc: Global, words: &'a [&'a str]) -> Result<Task<'a>, UsageError>
    ensures task { is_help_line (map (λ w. w.now) words.entry.now) ≡ false
        → IfOk result (λ t. IsTaskOf (map (λ w. w.now) words.entry.now) t
        × IsFaultless (map (λ w. w.now) words.entry.now) t) }
    ensures asked { (p : Page) → is_help_line (map (λ w. w.now) words.entry.now) ≡ false
        → asked_page (map (λ w. w.now) words.entry.now) ≡ Some p → IsPageOrMemory p result }
    ensures taken { takes (app_of_line (map (λ w. w.now) words.entry.now))
        (words_of_line (map (λ w. w.now) words.entry.now)) ≡ true
        → IfErr result (λ e. e ≡ UsageError.OutOfMemory) }
    ensures refusal { IfErr result (IsRefusalBy (names_disk (map (λ w. w.now) words.entry.now))
        (page_of_line (map (λ w. w.now) words.entry.now))
        (app_of_line (map (λ w. w.now) words.entry.now))
        (words_of_line (map (λ w. w.now) words.entry.now))) }
{
    let page = page_of_line(words);
    if is_disk_line(words) {
        disk_task(alloc, &words[1..], page)
    } else {
        host_task(alloc, words, page)
    }
}

/// The page that a question behind `help` asks for, or its refusal.
fn help_task<'a>(words: &[&str]) -> Result<Task<'a>, UsageError>
    ensures { IsHelpAnswer (named_by (map (λ w. w.now) words.now)) result }
{
    match page_of_help_line(words) {
        Ok(page) => Ok(Task::Help(page)),
        Err(refusal) => Err(UsageError::Usage(refusal)),
    }
}

/// The task that the words name, of which the first is the program's own name.
///
/// `Usage` says what is wrong first with words that name none. `OutOfMemory` comes only where memory
/// is refused, whatever is wrong with the words after that place.
pub fn command<'a>(alloc: Global, words: &'a [&'a str]) -> Result<Task<'a>, UsageError>
    // The task has the subcommand and all entries that clap's rules give the words, and its options
    // go together. Or it is the page of the help that the words ask for.
    ensures task { IfOk result (λ t. IsTaskOf (map (λ w. w.now) words.entry.now) t × (task_fault t ≡ None)) }

    // Where the words ask for a page, the task is that page.
    ensures asked { (p : Page) → asked_page (map (λ w. w.now) words.entry.now) ≡ Some p → IsPageOrMemory p result }

    // The number of a user is from 0 to 15.
    ensures users { IfOk result HasUsers }

    // Words with a fault are refused. Words that the rules take are refused for what is wrong first with
    // the options of the task that they name.
    ensures faultless { IfOk result (IsFaultless (map (λ w. w.now) words.entry.now)) }
    ensures taken { takes (app_of_line (map (λ w. w.now) words.entry.now))
        (words_of_line (map (λ w. w.now) words.entry.now)) ≡ true
        → IfErr result (IsTaskRefusal (map (λ w. w.now) words.entry.now)) }

    // A refusal says what is wrong first, and points to the page of the command that the words name.
    ensures refusal { IfErr result (IsRefusalOf (map (λ w. w.now) words.entry.now)) }
{
    if is_help_line(words) {
        return help_task(words);
    }
    let task = match task_by_rules(alloc, words) {
        Ok(task) => task,
        Err(error) => return Err(error),
    };
    match options_fault(&task) {
        Some(fault) => Err(UsageError::Usage(UsageRefusal {
            fault,
            page: page_of_line(words),
        })),
        None => Ok(task),
    }
}
