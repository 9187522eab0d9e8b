//! What the words of a command line ask for, done by whoever does tasks.
ghost use Rattle.std.specs.Prelude.{◌≡◌, ◌⊎◌, ℕ, if◌then◌else◌, Err, IfOk, List, MatchResult, Option, Result, map, option_map, string_bytes};
ghost use Rattle.cpm_command_line.specs.Line.{HasUsers};
ghost use Rattle.cpm_command_line.specs.declared.task.Task.{Task};
ghost use Rattle.cpm_commands.specs.Words.{IsCommandDone, IsLineDone, IsOrderDone, IsTypedAtTold, IsVersionTold, line_behind, order_of_words};
ghost use Rattle.cpm_commands.specs.Words.{outcome_status, takes_typed_keys, typed_from_order};
ghost use Rattle.cpm_host.specs.declared.error.HostError.{HostError};
ghost use Rattle.cpm_host.specs.declared.error.HostError.TheVariants.{OutOfMemory};

use crate::report::print_text;
use cpm_host::{HostError, Task, VERSION, asks_version, command};
use std::alloc::{AllocError, Global};
use std::io::Write;

/// Who does tasks, over files and streams.
pub trait TaskDoer {
    // From this state to that one by doing a task, with this status or refusal. Where one types at a terminal, a name is given: typing ends where a file of it
    // comes.
    ghost does_task: { Self → Option (List ℕ) → Task → Result ℕ HostError → Self → Type 0 };

    /// Does a task, and gives its exit status.
    fn do_task(&mut self, task: &Task<'_>, end: Option<&str>) -> Result<u8, HostError>
        requires { HasUsers task.now }
        ensures { does_task self.old (option_map (λ n. n.now) end.entry) task.now result self.new };
}

/// A line that begins after the program's own name, with that name.
fn line_behind<'a>(alloc: Global, line: &[&'a str]) -> Result<Vec<&'a str>, AllocError>
    ensures { IfOk result (λ v. map (λ w. w.now) v.items ≡ line_behind (map (λ w. w.now) line.now)) }
{
    let mut words = Vec::new(alloc);
    words.push("cpmhost")?;
    words.extend_from_slice(line)?;
    Ok(words)
}

/// Whether the keys of standard input are typed at a task as they come.
fn takes_typed_keys(task: &Task<'_>) -> bool
    ensures { result ≡ takes_typed_keys task.now }
{
    match task {
        Task::Com(task) | Task::Boot(task) => task.is_live,
        Task::Run(task) => task.keyboard.is_some(),
        _ => false,
    }
}

/// The status that says whether the keys of standard input are typed at a task as they come: 0 where they are.
fn typed_status(task: &Task<'_>) -> u8
    ensures { result ≡ (if takes_typed_keys task.now then 0 else 1) }
{
    if takes_typed_keys(task) { 0 } else { 1 }
}

/// Says by its status whether one types at a line, which begins with the program's own name: 0 where one does. The launcher asks for that.
fn typed_at_status(alloc: Global, line: &[&str]) -> u8
    ensures { IsTypedAtTold (map (λ w. w.now) line.now) result }
{
    match command(alloc, line) {
        Ok(task) => typed_status(&task),
        Err(_) => 1,
    }
}

/// The same of a line that begins after the program's own name.
fn tell_typed_at(alloc: Global, line: &[&str]) -> Result<u8, HostError>
    ensures { MatchResult result (IsTypedAtTold (line_behind (map (λ w. w.now) line.now))) (λ e. e ≡ OutOfMemory) }
{
    let words = line_behind(alloc, line)?;
    Ok(typed_at_status(alloc, words.as_slice()))
}

/// Does the command of a line, which begins with the program's own name.
fn do_command<D: TaskDoer>(
    alloc: Global,
    line: &[&str],
    end: Option<&str>,
    doer: &mut D,
) -> Result<u8, HostError>
    ensures { IsCommandDone D.does_task (option_map (λ n. n.now) end.entry) (map (λ w. w.now) line.now) doer.old doer.new result }
{
    match command(alloc, line) {
        Ok(task) => doer.do_task(&task, end),
        Err(error) => Err(HostError::from(error)),
    }
}

/// Does the command of a line behind `typed-from END`, or of the whole line where no name stands there.
fn do_typed_from<D: TaskDoer>(
    alloc: Global,
    words: &[&str],
    behind: &[&str],
    doer: &mut D,
) -> Result<u8, HostError>
    ensures { IsOrderDone D.does_task (typed_from_order (map (λ w. w.now) words.now) (map (λ w. w.now) behind.now)) doer.old doer.new result }
{
    match behind {
        [end, line @ ..] => {
            let words = line_behind(alloc, line)?;
            do_command(alloc, words.as_slice(), Some(end), doer)
        }
        [] => do_command(alloc, words, None, doer),
    }
}

/// Does what a line asks for, but for the version.
fn do_order<D: TaskDoer>(alloc: Global, words: &[&str], doer: &mut D) -> Result<u8, HostError>
    ensures { IsOrderDone D.does_task (order_of_words (map (λ w. w.now) words.now)) doer.old doer.new result }
{
    match words {
        [_, word, rest @ ..] => {
            if *word == "typed-at" {
                tell_typed_at(alloc, rest)
            } else if *word == "typed-from" {
                do_typed_from(alloc, words, rest, doer)
            } else {
                do_command(alloc, words, None, doer)
            }
        }
        _ => do_command(alloc, words, None, doer),
    }
}

/// Prints which version it is.
fn tell_version<W: Write>(out: &mut W) -> Result<u8, HostError>
    ensures { IsVersionTold W.contents out.old out.new result }
{
    match print_text(out, VERSION) {
        Ok(()) => Ok(0),
        Err(error) => Err(error),
    }
}

/// Does what words ask for, which begin with the program's own name, and gives the exit status.
pub fn do_words<D: TaskDoer, W: Write>(
    alloc: Global,
    words: &[&str],
    doer: &mut D,
    out: &mut W,
) -> Result<u8, HostError>
    ensures { IsLineDone D.does_task W.contents (map (λ w. w.now) words.now) doer.old doer.new out.old out.new result }
{
    if asks_version(words) {
        tell_version(out)
    } else {
        do_order(alloc, words, doer)
    }
}

/// The same words as texts that are lent.
fn texts_of<'a>(alloc: Global, words: &'a [String]) -> Result<Vec<&'a str>, AllocError>
    ensures { IfOk result (λ v. map (λ w. w.now) v.items ≡ map string_bytes words.entry.now) }
{
    let mut texts = Vec::new(alloc);
    for word in words {
        texts.push(word.as_str())?;
    }
    Ok(texts)
}

/// Does what the words of a command line ask for, which begin with the program's own name, and gives the exit status.
pub fn do_line<D: TaskDoer, W: Write>(
    alloc: Global,
    words: &[String],
    doer: &mut D,
    out: &mut W,
) -> Result<u8, HostError>
    ensures { IsLineDone D.does_task W.contents (map string_bytes words.now) doer.old doer.new out.old out.new result
        ⊎ ((result ≡ Err OutOfMemory) × (doer.new ≡ doer.old) × (out.new ≡ out.old)) }
{
    let texts = texts_of(alloc, words)?;
    do_words(alloc, texts.as_slice(), doer, out)
}

/// The exit status of a program that ended so.
pub fn outcome_status(done: &Result<u8, HostError>) -> u8
    ensures { result ≡ outcome_status done.now }
{
    match done {
        Ok(status) => *status,
        Err(error) => error.code().status(),
    }
}
