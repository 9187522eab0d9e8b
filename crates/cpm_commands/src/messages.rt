//! What a person is told of a command, beside what it prints.
ghost use Rattle.std.specs.Prelude.{◌≡◌, ◌++◌, ℕ, Bool, List, Some, codes, string_bytes};
ghost use Rattle.cpm_commands.specs.Messages.{AreHintsTold, AreIllegalTold, IsEndTold, IsIllegalTold, end_line, list_hint, needs_z80};
ghost use Rattle.cpm_commands.specs.Messages.{z80_hint};
ghost use Rattle.cpm_run.specs.Ending.{illegal_text};

use crate::report::{typing_word, waiting_word};
use cpm_decode::rowz80;
use cpm_flags::Cpu;
use cpm_host::{End, Ending, IllegalBytes, PlayEnd, PlayTask, SessionReport};
use std::fmt;

/// Who is told what there is to say of a command, a line at a time. What can't be told there is told nowhere.
pub trait Messages {
    // From this state to that one by telling this line.
    ghost tells: { Self → List ℕ → Self → Type 0 };

    // Whether a person reads it.
    ghost is_read: { Self → Bool };

    /// Whether a person reads it, at a terminal.
    fn is_read(&self) -> bool
        ensures { result ≡ is_read self.now };

    /// Tells a line.
    fn tell<D: fmt::Display>(&mut self, line: &D)
        ensures { (text : List ℕ) → D.output line.now ≡ Some text → tells self.old text self.new };
}

/// The last line of a program: how it ended, whether it was to stop where it waits for a key, and did, and why no more was typed, where that ended it.
#[derive(Drop)]
struct EndLine {
    ending: Ending,
    waits: bool,
    end: Option<PlayEnd>,
}

impl fmt::Display for EndLine {
    ghost output = { λ line. Some (end_line line.ending line.waits line.end) };

    fn fmt<W: fmt::Write>(&self, f: &mut fmt::Formatter<W>) -> fmt::Result {
        let ending = self.ending;
        let waiting = waiting_word(self.waits);
        let typing = typing_word(self.end);
        write!(f, "{ending}{waiting}{typing}")
    }
}

/// What may help where a program for the Z80 ran on the 8080.
#[derive(Drop)]
struct Z80Hint;

impl fmt::Display for Z80Hint {
    ghost output = { λ _. Some z80_hint };

    fn fmt<W: fmt::Write>(&self, f: &mut fmt::Formatter<W>) -> fmt::Result {
        write!(f, "hint: the Z80 has this instruction; try --z80")
    }
}

/// What may help where what a machine printed was dropped.
#[derive(Drop)]
struct ListHint;

impl fmt::Display for ListHint {
    ghost output = { λ _. Some list_hint };

    fn fmt<W: fmt::Write>(&self, f: &mut fmt::Formatter<W>) -> fmt::Result {
        write!(
            f,
            "hint: what was sent to the printer was dropped; --list FILE keeps it"
        )
    }
}

/// Whether a program ended at bytes that are no instruction of the 8080 on which it ran, and are one of the Z80.
fn needs_z80(cpu: Cpu, ending: Ending) -> bool
    ensures { result ≡ needs_z80 cpu ending }
{
    cpu == Cpu::I8080 && ending.ended == End::Illegal && rowz80(ending.at_pc).is_some()
}

/// A session of a run that ended at bytes that are no instruction.
#[derive(Drop)]
struct IllegalLine<'a> {
    session: &'a SessionReport,
    illegal: IllegalBytes,
}

impl fmt::Display for IllegalLine<'_> {
    ghost output = { λ line. Some (string_bytes line.session.now.name ++ codes " " ++ illegal_text line.illegal) };

    fn fmt<W: fmt::Write>(&self, f: &mut fmt::Formatter<W>) -> fmt::Result {
        let name = self.session.name.as_str();
        let illegal = self.illegal;
        write!(f, "{name} {illegal}")
    }
}

/// Tells a person what may help, and where what a machine printed was dropped.
fn tell_hints<M: Messages>(ending: Ending, dropped: bool, task: &PlayTask<'_>, messages: &mut M)
    ensures { AreHintsTold M.tells M.is_read task.now ending dropped messages.old messages.new }
{
    if messages.is_read() && needs_z80(task.cpu, ending) {
        messages.tell(&Z80Hint);
    }
    if messages.is_read() && dropped {
        messages.tell(&ListHint);
    }
}

/// Tells how a program ended: the bytes that are no instruction, if it ended at such, and its last line, unless it is quiet; and a person what may help.
pub(crate) fn tell_end<M: Messages>(
    ending: Ending,
    waits: bool,
    end: Option<PlayEnd>,
    dropped: bool,
    task: &PlayTask<'_>,
    messages: &mut M,
)
    ensures { IsEndTold M.tells M.is_read task.now ending waits end dropped messages.old messages.new }
{
    if let Some(illegal) = ending.illegal() {
        messages.tell(&illegal);
    }
    if !task.is_quiet {
        messages.tell(&EndLine { ending, waits, end });
    }
    tell_hints(ending, dropped, task, messages);
}

/// Tells the bytes that are no instruction, if a session ended at such.
fn tell_illegal<M: Messages>(session: &SessionReport, messages: &mut M)
    ensures { IsIllegalTold M.tells session.now messages.old messages.new }
{
    if let Some(illegal) = session.ending.illegal() {
        messages.tell(&IllegalLine { session, illegal });
    }
}

/// Tells of each session that ended at bytes that are no instruction.
pub(crate) fn tell_all_illegal<M: Messages>(sessions: &[SessionReport], messages: &mut M)
    ensures { AreIllegalTold M.tells sessions.now messages.old messages.new }
{
    for session in sessions {
        tell_illegal(session, messages);
    }
}
