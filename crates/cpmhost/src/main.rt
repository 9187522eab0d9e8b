//! The program: it reads its words, does what they ask for, and ends with the status of a refusal.
#![tactic(auto)]

ghost use Rattle.std.specs.Prelude.{IfErr};
ghost use Rattle.cpm_host.specs.Refusals.{IsWordRefusal};

mod batch;
mod beside;
mod bounds;
mod files;
mod folder;
mod held;
mod journal;
mod journal_folder;
mod kept;
mod marks;
mod output;
mod paced;
mod patient;
mod place;
mod plan;
mod progress;
mod record;
mod refused;
mod repeated;
mod screen;
mod service_folder;
mod stream;
mod task;
mod tempo;
mod terminal;
mod typing;
mod wanted;

use cpm_commands::{do_line, outcome_status};
use cpm_host::HostError;
use held::LockableFiles;
use output::Outputs;
use patient::{PatientError, PatientOutput};
use std::env::Env;
use std::fs::{File, OpenOptions};
use std::io::{ErrorKind, IsTerminal};
use std::os::fd::AsRawFd;
use std::os::unix::fs::FileTypeExt;
use std::process::{self, ExitCode};
use std::{env, fs, io};
use task::MachineTasks;
use typing::Terminals;

/// How many standard streams there are: their numbers are those below.
const STANDARD_STREAMS: i32 = 3;

/// The words of the command line, of which the first is the program's own name.
fn arguments(rt: &(impl Env + AllocGlobal)) -> Result<Vec<String>, HostError>
    ensures { IfErr result IsWordRefusal }
{
    match env::args(rt) {
        Ok(words) => Ok(words.collect(rt.alloc())?),
        Err(error) if error.kind() == ErrorKind::OutOfMemory => Err(HostError::OutOfMemory),
        Err(_) => Err(HostError::NotText),
    }
}

/// The device that takes all and has nothing.
fn null_device(rt: &impl LockableFiles) -> io::Result<File> {
    let file = OpenOptions::new()
        .read(true)
        .write(true)
        .open(rt, "/dev/null")?;
    if file.metadata()?.file_type().is_char_device() {
        Ok(file)
    } else {
        Err(io::Error::from(ErrorKind::InvalidInput))
    }
}

/// A file that has the place of a standard stream that is closed, so that no file that is opened later has it. Where the machine has no such device, it is
/// the root folder, to which nothing can be written.
fn stand_in(rt: &impl LockableFiles) -> Option<File> {
    let found = match null_device(rt) {
        Ok(file) => Ok(file),
        Err(_) => fs::open(rt, "/"),
    };
    match found {
        Ok(file) if file.as_raw_fd() < STANDARD_STREAMS => Some(file),
        _ => None,
    }
}

fn main(rt: HostRuntime) -> ExitCode {
    let _stand_ins = (stand_in(&rt), stand_in(&rt), stand_in(&rt));
    let terminals = Terminals {
        is_output_terminal: rt.stdout().is_terminal(),
        is_error_terminal: rt.stderr().is_terminal(),
        end: None,
    };
    let outputs = Outputs::draw(&rt, process::id(rt.process()));
    let mut tasks = MachineTasks::new(&rt, outputs, terminals);
    let done = match arguments(&rt) {
        Ok(words) => do_line(rt.alloc(), &words, &mut tasks, &mut PatientOutput::new(&rt)),
        Err(error) => Err(error),
    };
    let status = outcome_status(&done);
    if let Err(error) = done {
        let refused = tasks.refusal(error);
        let _ = eprintln!(PatientError::new(&rt); "cpmhost: {refused}");
    }
    ExitCode::from(status)
}
