//! Runs of which a session is typed at: one whose reader or writer fails, and what the watcher is told that begins.

use crate::same::same;
use cpm_geom::{Format, Image};
use cpm_host::{
    Config, KeyReader, MemoryStore, NoWatcher, Progress, RecordFile, Replay, Report, RunError,
    RunOptions, RunStage, RunWatcher, Store, Typist, Watcher, run_host,
};
use std::io;
use std::io::{Read, Write};
use std::process::Abort;

/// A session without a script, and another one whose script waits.
const TWO: &str = "frames = 32
quantum = 1
system = \"p.img\"

[[session]]
name = \"one\"
cpu = \"8080\"
quota = 16
steps = 50
drives = [\"a.img\"]
console = \"one.txt\"

[[session]]
name = \"two\"
cpu = \"z80\"
quota = 16
steps = 50
drives = [\"a.img\"]
console = \"two.txt\"
keys = \"two.keys\"
";

/// A reader and a writer that always fails.
#[derive(Drop)]
struct DeadLine;

impl Read for DeadLine {
    fn read(&mut self, _buf: &mut [u8]) -> io::Result<usize> {
        Err(io::Error::other("the line is dead"))
    }
}

impl Write for DeadLine {
    fn write(&mut self, _buf: &[u8]) -> io::Result<usize> {
        Err(io::Error::other("the line is dead"))
    }

    fn flush(&mut self) -> io::Result<()> {
        Ok(())
    }
}

/// Keeps the stages that begin.
#[derive(Drop)]
struct Stages {
    begun: Vec<RunStage>,
}

impl Watcher for Stages {
    fn is_watching(&self) -> bool {
        true
    }

    fn most_steps(&self) -> u64 {
        u64::MAX
    }

    fn see(&mut self, _progress: Progress) {}
}

impl RunWatcher for Stages {
    fn begin(&mut self, stage: RunStage) {
        let _ = self.begun.push(stage);
    }
}

/// A store with the files of both sessions.
fn filled(rt: &(impl Abort + AllocGlobal)) -> MemoryStore {
    let mut store = MemoryStore::new(rt.alloc());
    let blank = Image::blank(rt.alloc(), Format::Ibm3740).expect(rt, "memory");
    let bytes = blank.into_bytes();
    store.write("p.img", bytes.as_slice()).expect(rt, "memory");
    store.write("a.img", bytes.as_slice()).expect(rt, "memory");
    store.write("two.keys", b"wait X^M").expect(rt, "memory");
    store
}

/// The configuration.
fn config(rt: &(impl Abort + AllocGlobal)) -> Config {
    Config::read(rt.alloc(), TWO.as_bytes()).expect(rt, "a configuration")
}

/// What is asked of a run at whose session of this name one types.
pub(crate) fn typed_at<'a>(
    name: &'a str,
    records: &'a [RecordFile<'a>],
    replays: &'a [Replay<'a>],
) -> RunOptions<'a> {
    RunOptions {
        typed: Some(name),
        stops_idle: false,
        records,
        replays,
        kept: None,
    }
}

/// Fails unless a run at which one types is refused so, before it writes a file.
fn is_refused<P: Typist, W: Write, R: Write>(
    rt: &(impl Abort + AllocGlobal),
    typist: &mut P,
    out: &mut W,
    lines: &mut R,
    status: u8,
    wanted: &str,
) {
    let config = config(rt);
    let mut store = filled(rt);
    let answer = run_host(
        rt.alloc(),
        &config,
        typed_at("one", &[], &[]),
        &mut store,
        typist,
        out,
        lines,
        &mut NoWatcher,
    );
    is_told(rt, answer, status, wanted);
    assert!(rt; store.file("one.txt").is_none());
}

/// Fails unless a refusal has this status, and this text after its code.
fn is_told(
    rt: &(impl Abort + AllocGlobal),
    answer: Result<Report, RunError>,
    status: u8,
    wanted: &str,
) {
    let Err(error) = answer else {
        panic!(rt; "run");
    };
    let code = error.code();
    same(rt, code.status(), status);
    let text = format!(in rt.alloc(); "{code} {error}").expect(rt, "memory");
    same(rt, text.as_str(), wanted);
}

/// The prompt is shown before the first key is read.
fn names_the_input(rt: &(impl Abort + AllocGlobal)) {
    let mut text: Vec<u8> = Vec::new(rt.alloc());
    let mut lines: Vec<u8> = Vec::new(rt.alloc());
    let wanted = "HO4 can't read standard input: the line is dead";
    let mut dead = KeyReader::new(DeadLine);
    is_refused(rt, &mut dead, &mut text, &mut lines, 4, wanted);
    same(rt, text.as_slice(), b"\r\nA>".as_slice());
    same(rt, lines.len(), 0);
}

fn names_the_output(rt: &(impl Abort + AllocGlobal), keys: &[u8]) {
    let mut lines: Vec<u8> = Vec::new(rt.alloc());
    let mut typed = KeyReader::new(keys);
    let wanted = "HO5 can't write to standard output: the line is dead";
    is_refused(rt, &mut typed, &mut DeadLine, &mut lines, 5, wanted);
    same(rt, lines.len(), 0);
    same(rt, typed.into_input().len(), 2);
}

/// A key is recorded before the machine gets it.
fn names_the_record(rt: &(impl Abort + AllocGlobal), keys: &[u8]) {
    let mut text: Vec<u8> = Vec::new(rt.alloc());
    let mut typed = KeyReader::new(keys);
    let wanted = "HO5 can't write the record of the keys: the line is dead";
    is_refused(rt, &mut typed, &mut text, &mut DeadLine, 5, wanted);
    same(rt, typed.into_input().len(), 1);
}

#[test]
fn a_run_names_the_stream_that_failed(rt: HostRuntime) {
    names_the_input(&rt);
    names_the_output(&rt, b"ab");
    names_the_record(&rt, b"ab");
}

/// The session that is typed at is played first, then each that waits, and at last all.
#[test]
fn a_watcher_is_told_what_begins(rt: HostRuntime) {
    let config = config(&rt);
    let mut store = filled(&rt);
    let mut text: Vec<u8> = Vec::new(rt.alloc());
    let mut lines: Vec<u8> = Vec::new(rt.alloc());
    let keys: &[u8] = b"a";
    let mut typed = KeyReader::new(keys);
    let mut stages = Stages {
        begun: Vec::new(rt.alloc()),
    };
    let options = typed_at("one", &[], &[]);
    let ran = run_host(
        rt.alloc(),
        &config,
        options,
        &mut store,
        &mut typed,
        &mut text,
        &mut lines,
        &mut stages,
    );
    assert!(rt; ran.is_ok());
    let begun = stages.begun.as_slice();
    assert!(rt; matches!(begun, [RunStage::Typing, RunStage::Alone(1), RunStage::All]));
}
