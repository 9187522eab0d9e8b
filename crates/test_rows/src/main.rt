//! Runs files of rows: `test_rows FILE..`. `docs/ROWS.md` says how a row is written. What it prints last is how many rows of how many files there were.
//!
//! Or it makes the calls that take memory, `test_rows --allocations` all of them and `test_rows --allocations NAME..` some, for `tests/allocations`.
#![tactic(auto)]

mod header;

use header::Header;
use std::alloc::{AllocError, Global};
use std::env::Env;
use std::io::ErrorKind;
use std::process::ExitCode;
use std::rt::Files;
use std::{env, fs, str};
use test_allocations::make_calls;
use test_bdos_rows::{Calls, Commands, Consoles, EditedLines};
use test_disk_command_rows::{Batches, DiskCommands, Stores};
use test_disk_rows::{Directories, Drives, ImageFiles, ImageLines, OneDrive};
use test_language::{Scene, Tally, run_rows};
use test_listing_rows::{Listings, Sources};
use test_machine_rows::{Hosts, Machines, RestoredSlots, SavedMachines};
use test_memory_rows::{Instructions, Memories};
use test_run_rows::{Programs, Runs};
use test_text_rows::{CommandLines, Configurations, Screens, Scripts};

/// A file of rows, of which the first line was read.
#[derive(Clone, Copy)]
struct RowFile<'a> {
    alloc: Global,
    name: &'a str,
    text: &'a str,
    header: Header<'a>,
}

impl RowFile<'_> {
    /// Runs its rows on a kind of scenes.
    fn run<S: Scene>(self, told: &mut String) -> Result<Option<Tally>, AllocError> {
        let are_wrong = self.header.are_wrong;
        let tally = run_rows::<S>(self.alloc, self.name, self.text, are_wrong, told)?;
        Ok(Some(tally))
    }

    /// Runs its rows. None where no rows are of its subject.
    fn run_subject(self, told: &mut String) -> Result<Option<Tally>, AllocError> {
        match self.header.subject {
            "calls" => self.run::<Calls>(told),
            "commands" => self.run::<Commands>(told),
            "consoles" => self.run::<Consoles>(told),
            "edited-lines" => self.run::<EditedLines>(told),
            "drives" => self.run::<Drives>(told),
            "one-drive" => self.run::<OneDrive>(told),
            "directories" => self.run::<Directories>(told),
            "images" => self.run::<ImageLines>(told),
            "image-files" => self.run::<ImageFiles>(told),
            _ => self.run_machines(told),
        }
    }

    /// The same of the subjects of machines and programs.
    fn run_machines(self, told: &mut String) -> Result<Option<Tally>, AllocError> {
        match self.header.subject {
            "memories" => self.run::<Memories>(told),
            "instructions" => self.run::<Instructions>(told),
            "machines" => self.run::<Machines>(told),
            "saved-machines" => self.run::<SavedMachines>(told),
            "restored-slots" => self.run::<RestoredSlots>(told),
            "hosts" => self.run::<Hosts>(told),
            "programs" | "debugger" => self.run::<Programs>(told),
            "runs" => self.run::<Runs>(told),
            _ => self.run_texts(told),
        }
    }

    /// The same of the subjects of texts, and of commands that write files.
    fn run_texts(self, told: &mut String) -> Result<Option<Tally>, AllocError> {
        match self.header.subject {
            "listings" => self.run::<Listings>(told),
            "sources" => self.run::<Sources>(told),
            "scripts" => self.run::<Scripts>(told),
            "configurations" => self.run::<Configurations>(told),
            "command-lines" => self.run::<CommandLines>(told),
            "screens" => self.run::<Screens>(told),
            "stores" => self.run::<Stores>(told),
            "batches" => self.run::<Batches>(told),
            "disk-commands" => self.run::<DiskCommands>(told),
            _ => Ok(None),
        }
    }
}

/// Runs the rows of a file, of which there must be as many as its first line says.
fn run_text(alloc: Global, name: &str, text: &str, told: &mut String) -> Result<Tally, AllocError> {
    let Some(header) = Header::of(text) else {
        return not_run(
            told,
            &[name, ":1: the first line is no 'N rows of SUBJECT'\n"],
        );
    };
    let file = RowFile {
        alloc,
        name,
        text,
        header,
    };
    match file.run_subject(told)? {
        Some(tally) => counted(file, tally, told),
        None => not_run(told, &[name, ":1: no rows are of '", header.subject, "'\n"]),
    }
}

/// The rows of a file that were run, where a wrong number of them is a failure more.
fn counted(file: RowFile<'_>, tally: Tally, told: &mut String) -> Result<Tally, AllocError> {
    if tally.rows == file.header.rows {
        return Ok(tally);
    }
    let (name, rows) = (file.name, tally.rows);
    told.push_str(format!(in file.alloc; "{name}:1: there are {rows} rows\n")?.as_str())?;
    Ok(Tally {
        failed: tally.failed.saturating_add(1),
        ..tally
    })
}

/// Tells why no rows of a file are run, which is a failure.
fn not_run(told: &mut String, why: &[&str]) -> Result<Tally, AllocError> {
    for text in why {
        told.push_str(text)?;
    }
    Ok(Tally {
        failed: 1,
        ..Tally::default()
    })
}

/// In which line of a file a byte stands.
fn line_of(bytes: &[u8], place: usize) -> usize {
    let before = bytes.iter().take(place);
    before
        .filter(|byte| **byte == b'\n')
        .count()
        .saturating_add(1)
}

/// Runs the rows of a file of these bytes.
fn run_bytes(
    alloc: Global,
    name: &str,
    bytes: &[u8],
    told: &mut String,
) -> Result<Tally, AllocError> {
    match str::from_utf8(bytes) {
        Ok(text) => run_text(alloc, name, text, told),
        Err(error) => {
            let line = line_of(bytes, error.valid_up_to());
            let why = format!(in alloc; ":{line}: a byte is no part of a text\n")?;
            not_run(told, &[name, why.as_str()])
        }
    }
}

/// Runs the rows of a file of this name.
fn run_file(
    rt: &(impl Files + AllocGlobal),
    name: &str,
    told: &mut String,
) -> Result<Tally, AllocError> {
    match fs::read(rt, name) {
        Ok(bytes) => run_bytes(rt.alloc(), name, bytes.as_slice(), told),
        Err(error) => {
            let why = format!(in rt.alloc(); "{error}")?;
            not_run(told, &[name, ": ", why.as_str(), "\n"])
        }
    }
}

/// Runs the rows of a file, and shows what is told of them.
fn show_file(rt: &(impl Files + Print + AllocGlobal), name: &str) -> Result<Tally, AllocError> {
    let mut told = String::new(rt.alloc());
    let tally = run_file(rt, name, &mut told)?;
    let _ = print!(rt; "{told}");
    Ok(tally)
}

/// The rows of two.
fn sum(one: Tally, other: Tally) -> Tally {
    Tally {
        rows: one.rows.saturating_add(other.rows),
        failed: one.failed.saturating_add(other.failed),
        expectations: one.expectations.saturating_add(other.expectations),
    }
}

/// Runs the rows of all files, and says whether all are as they should be.
fn run_all(rt: &(impl Files + Print + AllocGlobal), files: &[String]) -> Result<bool, AllocError> {
    let mut all = Tally::default();
    for file in files {
        all = sum(all, show_file(rt, file.as_str())?);
    }
    let is_said = say(rt, files.len(), all);
    Ok(all.failed == 0 && all.rows > 0 && is_said)
}

/// Says how many rows there were, and whether that was printed.
fn say(rt: &impl Print, count: usize, all: Tally) -> bool {
    let Tally {
        rows,
        failed,
        expectations,
    } = all;
    let said = println!(rt;
        "{rows} rows of {count} files with {expectations} expectations, {failed} failed"
    );
    said.is_ok()
}

/// The words of the command line after the program's own name.
fn words(rt: &(impl Env + AllocGlobal)) -> Result<Vec<String>, AllocError> {
    match env::args(rt) {
        Ok(words) => words.skip(1).collect(rt.alloc()),
        Err(error) if error.kind() == ErrorKind::OutOfMemory => Err(AllocError),
        Err(_) => Ok(Vec::new(rt.alloc())),
    }
}

/// Runs the files that the command line names, or makes the calls.
fn run(rt: &(impl Env + Files + Print + AllocGlobal)) -> Result<bool, AllocError> {
    let words = words(rt)?;
    match words.as_slice().split_first() {
        Some((first, names)) if first.as_str() == "--allocations" => Ok(make_calls(rt, names)),
        _ => run_all(rt, words.as_slice()),
    }
}

fn main(rt: HostRuntime) -> ExitCode {
    match run(&rt) {
        Ok(true) => ExitCode::SUCCESS,
        Ok(false) => ExitCode::from(1),
        Err(_) => {
            let _ = eprintln!(rt; "test_rows: out of memory");
            ExitCode::from(8)
        }
    }
}
