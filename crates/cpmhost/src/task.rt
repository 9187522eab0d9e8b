//! What a command line asks for, done: over which files, with which streams, and what is told on the way.

ghost use Rattle.std.specs.Prelude.{⊤, ◌≡◌};
ghost use Rattle.cpm_command_line.specs.Line.{HasUsers};

use crate::files::MachineFiles;
use crate::held::LockableFiles;
use crate::journal_folder::JournalFolder;
use crate::kept::{CheckpointFile, load_if_any};
use crate::output::Outputs;
use crate::paced::PacedTypist;
use crate::patient::{PatientInput, PatientOutput, StandardInput};
use crate::progress::{Form, Teller};
use crate::record::Record;
use crate::refused::{CommandRefusal, RefusalDetail};
use crate::screen::{Lines, Screen};
use crate::terminal::{TerminalTypist, TypingOutput};
use crate::typing::Terminals;
use crate::wanted::{
    drops_disks, files_of, folders_of, has_progress, is_raw, pace_of, pace_of_program, record_of,
    takes_raw,
};
use cpm_commands::TaskDoer;
use cpm_host::{HostError, KeyReader, Task, Typist};
use std::cell::Cell;
use std::io;
use std::io::{BufReader, BufWriter};

/// Tasks that are done over the files and the streams of the machine.
#[derive(Drop)]
pub struct MachineTasks<'a, R: LockableFiles + StandardInput> {
    rt: &'a R,
    outputs: Outputs,
    terminals: Terminals<'a>,
    /// What is said of the task that was refused.
    behind: RefusalDetail,
}

impl<'a, R: LockableFiles + StandardInput> MachineTasks<'a, R> {
    /// None so far.
    pub fn new(rt: &'a R, outputs: Outputs, terminals: Terminals<'a>) -> MachineTasks<'a, R> {
        MachineTasks {
            rt,
            outputs,
            terminals,
            behind: RefusalDetail::Nothing,
        }
    }

    /// A refusal with what is said of it.
    pub fn refusal(self, error: HostError) -> CommandRefusal
        ensures { result.error ≡ error }
    {
        CommandRefusal {
            error,
            behind: self.behind,
        }
    }
}

impl<R: LockableFiles + StandardInput> TaskDoer for MachineTasks<'_, R> {
    // Of what becomes of a task on the machine nothing can be said.
    ghost does_task = { λ _ _ _ _ _. ⊤ };

    fn do_task(&mut self, task: &Task<'_>, end: Option<&str>) -> Result<u8, HostError> {
        let (rt, outputs) = (self.rt, self.outputs);
        let terminals = Terminals {
            end,
            ..self.terminals
        };
        let keys = Cell::new(0);
        let mut files = files_of(rt, outputs, task);
        let mut record = Record::new(rt, outputs, record_of(task), &keys);
        let done = match end {
            Some(end) => do_at_terminal(
                rt,
                outputs,
                task,
                terminals,
                end,
                &mut files,
                &mut record,
                &keys,
            ),
            None => do_by_reads(rt, outputs, task, terminals, &mut files, &mut record, &keys),
        };
        match record.finish(files.end(done)) {
            Ok(status) => Ok(status),
            Err(CommandRefusal { error, behind }) => {
                self.behind = behind;
                Err(error)
            }
        }
    }
}

/// Does it by the keys of a terminal, until a file of this name comes. Where standard output can't be written, that is refused once all else is done. (It is
/// a function of its own, so that others need no room for the typist.)
#[inline(never)]
fn do_at_terminal<'a, R: LockableFiles + StandardInput>(
    rt: &'a R,
    outputs: Outputs,
    task: &Task<'_>,
    terminals: Terminals<'_>,
    end: &str,
    files: &mut MachineFiles<'a, R>,
    record: &mut Record<'_, R>,
    keys: &Cell<usize>,
) -> Result<u8, HostError>
    requires { HasUsers task.now }
{
    let lost = Cell::new(None);
    let mut typist = TerminalTypist::new(rt, end, &lost, pace_of(task));
    let done = do_over(
        rt,
        outputs,
        task,
        terminals,
        Some(&lost),
        files,
        record,
        keys,
        &mut typist,
    )?;
    match lost.get() {
        // (a terminal that is gone is nobody's any more)
        Some(reason) if !terminals.is_output_terminal => Err(HostError::OutputUnwritable(reason)),
        _ => Ok(done),
    }
}

/// Does it by the keys of standard input, which is read where one is wanted.
#[inline(never)]
fn do_by_reads<'a, R: LockableFiles + StandardInput>(
    rt: &'a R,
    outputs: Outputs,
    task: &Task<'_>,
    terminals: Terminals<'_>,
    files: &mut MachineFiles<'a, R>,
    record: &mut Record<'_, R>,
    keys: &Cell<usize>,
) -> Result<u8, HostError>
    requires { HasUsers task.now }
{
    let reader = KeyReader::new(PatientInput::new(rt));
    let mut typist = PacedTypist::new(rt, reader, pace_of(task));
    do_over(
        rt,
        outputs,
        task,
        terminals,
        None,
        files,
        record,
        keys,
        &mut typist,
    )
}

/// Does it over these files, with the standard streams, and by the keys of this typist. Where standard output may be lost, it is noted there why.
#[inline(never)]
fn do_over<'a, R: LockableFiles + StandardInput, P: Typist>(
    rt: &'a R,
    outputs: Outputs,
    task: &Task<'_>,
    terminals: Terminals<'_>,
    lost: Option<&Cell<Option<io::Error>>>,
    files: &mut MachineFiles<'a, R>,
    record: &mut Record<'_, R>,
    keys: &Cell<usize>,
    typist: &mut P,
) -> Result<u8, HostError>
    requires { HasUsers task.now }
{
    let is_at_line_start = Cell::new(true);
    let Ok(writer) = BufWriter::new(rt.alloc(), TypingOutput::new(PatientOutput::new(rt), lost))
    else {
        return Err(HostError::OutOfMemory);
    };
    let has_shown_escape = Cell::new(false);
    let shows_controls = terminals.shows_controls(is_raw(task));
    let screen = Screen::new(writer, shows_controls, Some(&has_shown_escape));
    let mut lines = Lines::new(screen, &is_at_line_start);
    let mut checkpoints = CheckpointFile::of(rt, outputs, task)?;
    let stood = load_if_any(rt, &mut checkpoints)?;
    let mut teller = Teller::new(
        rt,
        Form::of(has_progress(task), terminals.is_error_terminal),
        terminals,
        &is_at_line_start,
        keys,
        pace_of_program(task),
        checkpoints,
    );
    let Ok(mut input) = BufReader::new(rt.alloc(), PatientInput::new(rt)) else {
        return Err(HostError::OutOfMemory);
    };
    let folders = folders_of(rt.alloc(), task)?;
    let mut folder = JournalFolder::new(rt, outputs, &folders);
    let done = cpm_commands::do_task(
        rt.alloc(),
        task,
        stood.as_ref(),
        files,
        &mut input,
        typist,
        &mut lines,
        record,
        &mut teller,
        &mut folder,
    );
    teller.end_all();
    if has_shown_escape.get() && takes_raw(task) {
        teller.tell_shown_escape();
    }
    if done.is_ok() {
        teller.end_task(drops_disks(task));
    }
    done
}
