//! A journal that is read and done again.
ghost use Rattle.std.specs.Prelude.{◌≡◌, IfErr, IfOk, IfSome, OnErr, OnOk};
ghost use Rattle.cpm_journal.specs.Lines.{journal_lines};
ghost use Rattle.cpm_serve.specs.Resumed.{AreLinesBroken, AreLinesRedone, IsLineRedone, IsLineFault, IsResumed, IsUnresumed};
ghost use Rattle.cpm_serve.specs.Resumed.{IsHeadFault, IsHeadTaken, host_head};

use crate::redo::RedoFault;
use crate::server::Server;
use cpm_journal::{
    EntryFault, HeadFault, JournalEntry, JournalHead, JournalLine, next_journal_line,
};
use std::alloc::Global;
use std::io;
use std::io::{BufRead, ErrorKind};
use thiserror::Error;

/// Why a line of a journal is not done again.
#[derive(Clone, Copy, Debug, Drop, Error)]
pub enum JournalFault {
    /// The first line is not that of the host's journals.
    #[error("{0}")]
    Head(HeadFault),
    /// It is no entry.
    #[error("{0}")]
    Entry(EntryFault),
    /// It can't be done.
    #[error("{0}")]
    Redo(RedoFault),
    /// It can't be read.
    #[error("{0}")]
    Unreadable(io::Error),
}

/// The line of a journal that is not done again, counted from 1, and why.
#[derive(Clone, Copy, Debug, Drop, Error)]
#[error("line {line}: {fault}")]
pub struct JournalError {
    pub line: u64,
    pub fault: JournalFault,
}

impl Server {
    /// The first line of this host's journals.
    pub fn head(&mut self) -> JournalHead
        ensures head { result ≡ host_head self.old.host.host }
        ensures unchanged { self.new ≡ self.old }
    {
        JournalHead {
            frames: self.host.frames(),
            system: self.host.system_digest(),
        }
    }
}

/// Reads the first line of a journal, which must be that of the host's journals.
fn check_head<R: BufRead>(
    server: &mut Server,
    alloc: Global,
    input: &mut R,
) -> Result<(), JournalFault>
    ensures taken { OnOk result (IfSome (R.remaining input.old) (IsHeadTaken (host_head server.old.host.host) (R.remaining input.new))) }
    ensures refused { IfErr result (λ why. IfSome (R.remaining input.old) (λ text. IsHeadFault (host_head server.old.host.host) (journal_lines text) why)) }
    ensures unchanged { server.new ≡ server.old }
{
    let head = server.head();
    let line = match next_journal_line(alloc, input) {
        Ok(JournalLine::Whole(line)) => line,
        Ok(JournalLine::Torn(_)) => return Err(JournalFault::Head(HeadFault::NoJournal)),
        Ok(JournalLine::End) => return Err(JournalFault::Head(HeadFault::NoJournal)),
        Err(error) => return Err(JournalFault::Unreadable(error)),
    };
    match head.check(alloc, &line) {
        Ok(()) => Ok(()),
        Err(fault) => Err(JournalFault::Head(fault)),
    }
}

/// Does the entry again that a line is.
fn redo_line(server: &mut Server, alloc: Global, line: &[u8]) -> Result<(), JournalFault>
    ensures done { OnOk result (IsLineRedone line.now server.old.host.host server.new.host.host) }
    ensures undone { IfErr result (IsLineFault line.now server.old.host.host) }
    ensures unchanged { OnErr result (server.new.host.host ≡ server.old.host.host) }
{
    let entry = match JournalEntry::read(alloc, line) {
        Ok(entry) => entry,
        Err(fault) => return Err(JournalFault::Entry(fault)),
    };
    match server.redo(alloc, &entry) {
        Ok(()) => Ok(()),
        Err(fault) => Err(JournalFault::Redo(fault)),
    }
}

/// Does the lines behind the first again, in order, up to the end or to one that can't be done. Says how many bytes are torn behind them.
fn redo_lines<R: BufRead>(
    server: &mut Server,
    alloc: Global,
    input: &mut R,
) -> Result<usize, JournalError>
    ensures done { IfOk result (λ torn. IfSome (R.remaining input.old) (λ text. AreLinesRedone text server.old.host.host server.new.host.host torn)) }
    ensures broken { IfErr result (λ e. IfSome (R.remaining input.old)
        (λ text. AreLinesBroken text server.old.host.host server.new.host.host e.line e.fault)) }
{
    for line in 2..u64::MAX {
        let text = match next_journal_line(alloc, input) {
            Ok(JournalLine::Whole(text)) => text,
            Ok(JournalLine::Torn(count)) => return Ok(count),
            Ok(JournalLine::End) => return Ok(0),
            Err(error) => {
                let fault = JournalFault::Unreadable(error);
                return Err(JournalError { line, fault });
            }
        };
        if let Err(fault) = redo_line(server, alloc, &text) {
            return Err(JournalError { line, fault });
        }
    }
    let fault = JournalFault::Unreadable(io::Error::from(ErrorKind::Other));
    let line = u64::MAX;
    Err(JournalError { line, fault })
}

/// Reads a journal, and does it again on a host that is as new: what it keeps, in order. Says how many bytes are torn at its end: what is kept next takes
/// their place. A journal of another host is refused, and so is one with a line that is wrong or can't be done: the lines before it are done, none behind it.
pub fn resume_journal<R: BufRead>(
    server: &mut Server,
    alloc: Global,
    input: &mut R,
) -> Result<usize, JournalError>
    ensures resumed { IfOk result (λ torn. IfSome (R.remaining input.old) (λ text. IsResumed text server.old.host.host server.new.host.host torn)) }
    ensures refused { IfErr result (λ e. IfSome (R.remaining input.old) (λ text. IsUnresumed text server.old.host.host server.new.host.host e.line e.fault)) }
{
    if let Err(fault) = check_head(server, alloc, input) {
        return Err(JournalError { line: 1, fault });
    }
    redo_lines(server, alloc, input)
}
