//! The commands, over bytes, writers and a store in memory.

ghost use Rattle.cpm_host.specs.Program.{IsFitSource};

use crate::CallOutcome;
use crate::machines::letter;
use crate::stores::{are_in_order, holds, put};
use crate::texts::{CONFIG, KEYS, SOURCE};
use cpm_flags::Cpu;
use cpm_geom::{Format, Image};
use cpm_host::{
    Config, DebugError, HostError, KeyReader, MemoryStore, NoWatcher, ProgramPlay, ProgramStart,
    RunError, RunOptions, Source, Tail, run_asm, run_debug, run_host, run_list, run_program,
    tail_of,
};
use std::alloc::{AllocError, Global};
use std::io;
use std::io::Write;

/// What the first session of the configuration shows, and the second.
const SHOWN: [&[u8]; 2] = [b"\r\nA>DIR\r\r\nNO FILE\r\nA>", b"\r\nA>"];

/// Counts the bytes that it is given.
#[derive(Drop)]
pub struct Counter {
    pub count: usize,
}

impl Write for Counter {
    fn write(&mut self, buf: &[u8]) -> io::Result<usize> {
        self.count = self.count.saturating_add(buf.len());
        Ok(buf.len())
    }

    fn flush(&mut self) -> io::Result<()> {
        Ok(())
    }
}

/// A blank drive A.
fn one_drive(alloc: Global) -> Result<Vec<Image>, AllocError> {
    let mut drives = Vec::new(alloc);
    drives.push(Image::blank(alloc, Format::Ibm3740)?)?;
    Ok(drives)
}

/// A program with a tail, or the prompt.
pub fn start(
    alloc: Global,
    program: Option<Vec<u8>>,
    system: Option<Image>,
) -> Result<ProgramStart, AllocError> {
    let drives = one_drive(alloc)?;
    Ok(ProgramStart {
        cpu: Cpu::I8080,
        program,
        tail: Tail::new(b" A.TXT"),
        drives,
        system,
        saved: None,
        is_saved: false,
    })
}

/// What came of a program that was run, and how many bytes were shown and recorded.
#[derive(Drop)]
pub struct PlayedCounts {
    pub answer: Result<ProgramPlay, HostError>,
    pub shown: usize,
    pub recorded: usize,
}

/// Runs a program at which these keys are typed.
pub fn play(
    alloc: Global,
    start: ProgramStart,
    steps: u64,
    source: Source<'_>,
    keys: &[u8],
) -> PlayedCounts
    requires fit { IsFitSource source }
{
    let mut out = Counter { count: 0 };
    let mut record = Counter { count: 0 };
    let answer = run_program(
        alloc,
        start,
        steps,
        source,
        &mut KeyReader::new(keys),
        &mut out,
        &mut io::sink(),
        &mut record,
        &mut NoWatcher,
    );
    PlayedCounts {
        answer,
        shown: out.count,
        recorded: record.count,
    }
}

pub fn tail(alloc: Global) -> CallOutcome {
    match tail_of(alloc, &["a.txt", "b:b.txt"]) {
        Ok(_) => CallOutcome::Made,
        Err(HostError::OutOfMemory) => CallOutcome::Refused,
        Err(_) => CallOutcome::Wrong,
    }
}

pub fn typed(alloc: Global) -> Result<CallOutcome, AllocError> {
    let start = start(alloc, Some(letter(alloc)?), None)?;
    let source = Source::Typed { cues: &[] };
    let typed = play(alloc, start, 100, source, b"a");
    Ok(match &typed.answer {
        Ok(play) if play.ending.count == 7 && typed.shown == 1 => CallOutcome::Made,
        Err(HostError::OutOfMemory) => CallOutcome::Refused,
        _ => CallOutcome::Wrong,
    })
}

pub fn asm(alloc: Global) -> CallOutcome {
    match run_asm(alloc, SOURCE) {
        Ok(_) => CallOutcome::Made,
        Err(HostError::OutOfMemory) => CallOutcome::Refused,
        Err(_) => CallOutcome::Wrong,
    }
}

pub fn debug(alloc: Global) -> Result<CallOutcome, AllocError> {
    let program = letter(alloc)?;
    let mut lines: &[u8] = b"S 2\nR\nK ^M\nG EC06 100\nO\nD 0100\nL 0100\nQ\n";
    let mut out = Counter { count: 0 };
    Ok(
        match run_debug(alloc, Cpu::Z80, program, &[], &mut lines, &mut out) {
            Ok(()) if out.count > 0 => CallOutcome::Made,
            Err(DebugError::OutOfMemory) => CallOutcome::Refused,
            _ => CallOutcome::Wrong,
        },
    )
}

/// It takes no memory.
pub fn list() -> CallOutcome {
    let mut out = Counter { count: 0 };
    match run_list(Cpu::Z80, SOURCE, &mut out) {
        Ok(()) if out.count > 0 => CallOutcome::Made,
        _ => CallOutcome::Wrong,
    }
}

/// A store with blank drives and the keys of the first session.
fn filled(alloc: Global, blank: &[u8]) -> Result<MemoryStore, AllocError> {
    let mut store = MemoryStore::new(alloc);
    fill(&mut store, blank)?;
    Ok(store)
}

fn fill(store: &mut MemoryStore, blank: &[u8]) -> Result<(), AllocError> {
    put(store, "p.img", blank)?;
    put(store, "a.img", blank)?;
    put(store, "one.keys", KEYS)
}

/// Whether a store has the files of the run up to one of them and none after it, and those that were read as they were.
fn are_written_in_order(store: &MemoryStore, blank: &[u8]) -> bool {
    let files: [(&str, &[u8]); 4] = [
        ("one.txt", SHOWN[0]),
        ("one.lst", b""),
        ("a.out", blank),
        ("two.txt", SHOWN[1]),
    ];
    are_in_order(store, &files)
        && holds(store, "p.img", blank)
        && holds(store, "a.img", blank)
        && holds(store, "one.keys", KEYS)
}

fn run_over(alloc: Global, config: &Config, store: &mut MemoryStore, blank: &[u8]) -> CallOutcome {
    let options = RunOptions {
        typed: None,
        stops_idle: false,
        records: &[],
        replays: &[],
        kept: None,
    };
    let nothing: &[u8] = &[];
    let mut out = Counter { count: 0 };
    let mut lines = Counter { count: 0 };
    let answer = run_host(
        alloc,
        config,
        options,
        store,
        &mut KeyReader::new(nothing),
        &mut out,
        &mut lines,
        &mut NoWatcher,
    );
    let is_right = are_written_in_order(store, blank) && out.count == 0 && lines.count == 0;
    match answer {
        Ok(_) if is_right && store.file("two.txt").is_some() => CallOutcome::Made,
        Err(RunError::OutOfMemory) => {
            CallOutcome::refused_if(is_right && store.file("two.txt").is_none())
        }
        _ => CallOutcome::Wrong,
    }
}

fn run_configured(alloc: Global, config: &Config) -> Result<CallOutcome, AllocError> {
    let blank = Image::blank(alloc, Format::Ibm3740)?.into_bytes();
    let mut store = filled(alloc, blank.as_slice())?;
    Ok(run_over(alloc, config, &mut store, blank.as_slice()))
}

pub fn run(alloc: Global) -> Result<CallOutcome, AllocError> {
    match Config::read(alloc, CONFIG.as_bytes()) {
        Ok(config) => run_configured(alloc, &config),
        Err(_) => Err(AllocError),
    }
}
