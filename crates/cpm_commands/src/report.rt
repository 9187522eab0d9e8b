//! What is printed of a run.
ghost use Rattle.std.specs.Prelude.{◌≡◌, ◌⊎◌, ◌∷◌, [], Some, IfErr, IfOk, OnOk, string_bytes, zip};
ghost use Rattle.std.specs.Io.KnownBytes.{Appends};
ghost use Rattle.cpm_commands.specs.Report.{report_line, report_text, stop_words, typing_word, waiting_word, IsReported, IsUnprinted};
ghost use Rattle.cpm_run.specs.Run.{report_view};

use cpm_host::{HostError, PlayEnd, Report, SessionReport, SessionStop, TypingEnd, end_word};
use std::alloc::{AllocError, Global};
use std::io::Write;
use std::{fmt, io};

/// A writer that knows whether what it got last ended a line.
pub trait LineWriter: Write {
    /// Ends the line that was begun, if one was.
    fn end_line(&mut self) -> io::Result<()>
        ensures { OnOk result (Appends (Self.contents self.old) (Self.contents self.new) []
            ⊎ Appends (Self.contents self.old) (Self.contents self.new) (0x0A ∷ [])) };
}

/// The fifth word of a report, where the session waits for a key and none comes.
pub fn waiting_word(waits: bool) -> &'static str
    ensures { result.now ≡ waiting_word waits }
{
    if waits { " waiting" } else { "" }
}

/// The word for why no more was typed, where that ended a session or a program.
pub(crate) fn typing_word(end: Option<PlayEnd>) -> &'static str
    ensures { result.now ≡ typing_word end }
{
    match end {
        Some(PlayEnd::Typing(TypingEnd::Quit)) => " quit",
        Some(PlayEnd::Typing(TypingEnd::InputEnd)) => " input-end",
        Some(PlayEnd::Typing(TypingEnd::Signal)) => " signal",
        _ => "",
    }
}

/// The words for how a session stopped: whether it was to stop where it waits for a key, and did, and why no more was typed at it.
#[derive(Drop)]
struct StopWords(SessionStop);

impl fmt::Display for StopWords {
    ghost output = { λ words. Some (stop_words words.0) };

    fn fmt<W: fmt::Write>(&self, f: &mut fmt::Formatter<W>) -> fmt::Result {
        let waiting = waiting_word(self.0.is_idle);
        let typing = typing_word(self.0.typing);
        write!(f, "{waiting}{typing}")
    }
}

/// The line of a session.
fn line_of(alloc: Global, session: &SessionReport, stop: SessionStop) -> Result<String, AllocError>
    ensures { IfOk result (λ line. string_bytes line ≡ report_line (report_view session.now) stop) }
{
    let name = session.name.as_str();
    let word = end_word(session.ending.ended);
    let (count, bytes) = (session.ending.count, session.bytes);
    let words = StopWords(stop);
    format!(in alloc; "{name} {word} {count} {bytes}{words}\n")
}

/// Writes a text, and all of what was written before it.
fn write_text<W: Write>(out: &mut W, text: &str) -> io::Result<()>
    ensures { OnOk result (Appends (W.contents out.old) (W.contents out.new) text.now) }
{
    out.write_all(text.as_bytes())?;
    out.flush()?;
    Ok(())
}

/// Prints a text.
pub(crate) fn print_text<W: Write>(out: &mut W, text: &str) -> Result<(), HostError>
    ensures printed { OnOk result (Appends (W.contents out.old) (W.contents out.new) text.now) }
    ensures refusal { IfErr result IsUnprinted }
{
    match write_text(out, text) {
        Ok(()) => Ok(()),
        Err(reason) => Err(HostError::OutputUnwritable(reason)),
    }
}

/// Writes the line of a session.
fn print_session<W: Write>(
    alloc: Global,
    session: &SessionReport,
    stop: SessionStop,
    out: &mut W,
) -> Result<(), HostError>
    ensures printed { OnOk result (Appends (W.contents out.old) (W.contents out.new) (report_line (report_view session.now) stop)) }
    ensures refusal { IfErr result IsUnprinted }
{
    let line = line_of(alloc, session, stop)?;
    print_text(out, line.as_str())
}

/// Prints the line of each session.
fn print_sessions<W: Write>(alloc: Global, report: &Report, out: &mut W) -> Result<(), HostError>
    ensures printed { OnOk result (Appends (W.contents out.old) (W.contents out.new) (report_text (zip report.now.sessions.items report.now.stops.items))) }
    ensures refusal { IfErr result IsUnprinted }
{
    for (session, stop) in report.sessions.iter().zip(&report.stops) {
        print_session(alloc, session, *stop, out)?;
    }
    Ok(())
}

/// Prints how each session ended, from the beginning of a line on.
pub(crate) fn print_report<W: LineWriter>(
    alloc: Global,
    report: &Report,
    out: &mut W,
) -> Result<(), HostError>
    ensures printed { OnOk result (IsReported (W.contents out.old) (W.contents out.new) (report_text (zip report.now.sessions.items report.now.stops.items))) }
    ensures refusal { IfErr result IsUnprinted }
{
    out.end_line().map_err(HostError::OutputUnwritable)?;
    print_sessions(alloc, report, out)
}
