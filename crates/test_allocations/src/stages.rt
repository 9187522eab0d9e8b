//! A run in stages, over a store in memory: a session that is typed at behind its script, one that waits, and one that is forked from that. They stop idle, and
//! the keys of each are recorded.

use crate::CallOutcome;
use crate::commands::Counter;
use crate::stores::{are_in_order, holds, put};
use cpm_geom::{Format, Image};
use cpm_host::{
    Config, KeyReader, MemoryStore, NoWatcher, RecordFile, RunError, RunOptions, run_host,
};
use std::alloc::{AllocError, Global};

const CONFIG: &str = "frames = 64
quantum = 7
system = \"p.img\"

[[session]]
name = \"typed\"
cpu = \"8080\"
quota = 16
steps = 50
drives = [\"a.img\"]
console = \"typed.txt\"
keys = \"typed.keys\"

[[session]]
name = \"waits\"
cpu = \"z80\"
quota = 16
steps = 50
drives = [\"a.img\"]
console = \"waits.txt\"
keys = \"waits.keys\"

[[session]]
name = \"forked\"
fork = \"waits\"
at = 7
steps = 50
console = \"forked.txt\"
keys = \"forked.keys\"
";

const FIRST: &[u8] = b"wait DI\n";

const WAITS: &[u8] = b"wait DIR^M\n";

const FORKED: &[u8] = b"expect \"NO FILE\" X^M\n";

/// What is typed behind the first keys.
const KEYS: &[u8] = b"R\r";

/// The files for the keys of the sessions.
const RECORDS: [RecordFile<'static>; 3] = [
    RecordFile {
        name: "typed.rec",
        needs_key: true,
    },
    RecordFile {
        name: "waits.rec",
        needs_key: true,
    },
    RecordFile {
        name: "forked.rec",
        needs_key: true,
    },
];

/// What a session shows that lists an empty drive.
const SHOWN: &[u8] = b"\r\nA>DIR\r\r\nNO FILE\r\nA>";

/// The keys of the script and those that are typed, each at the count at which it comes.
const TYPED: &[u8] = b"1 D\n1 I\n101 R\n201 ^M\n";

/// What the sessions leave, in the order in which it is written.
const LEFT: [(&str, &[u8]); 6] = [
    ("typed.txt", SHOWN),
    ("waits.txt", SHOWN),
    ("forked.txt", b"\r\nA>DIR\r\r\nNO FILE\r\nA>X\r\r\nX?\r\nA>"),
    ("typed.rec", TYPED),
    ("waits.rec", b"1 D\n1 I\n1 R\n1 ^M\n"),
    ("forked.rec", b"7 X\n7 ^M\n"),
];

/// A store with blank drives and the scripts.
fn filled(alloc: Global, blank: &[u8]) -> Result<MemoryStore, AllocError> {
    let mut store = MemoryStore::new(alloc);
    fill(&mut store, blank)?;
    Ok(store)
}

fn fill(store: &mut MemoryStore, blank: &[u8]) -> Result<(), AllocError> {
    put(store, "p.img", blank)?;
    put(store, "a.img", blank)?;
    put(store, "typed.keys", FIRST)?;
    put(store, "waits.keys", WAITS)?;
    put(store, "forked.keys", FORKED)
}

/// Whether the files that are read are as they were.
fn are_as_filled(store: &MemoryStore, blank: &[u8]) -> bool {
    holds(store, "p.img", blank)
        && holds(store, "a.img", blank)
        && holds(store, "typed.keys", FIRST)
        && holds(store, "waits.keys", WAITS)
        && holds(store, "forked.keys", FORKED)
}

fn run_over(alloc: Global, config: &Config, store: &mut MemoryStore, blank: &[u8]) -> CallOutcome {
    let options = RunOptions {
        typed: Some("typed"),
        stops_idle: true,
        records: &RECORDS,
        replays: &[],
        kept: None,
    };
    let mut typed = KeyReader::new(KEYS);
    let mut out = Counter { count: 0 };
    let mut lines = Counter { count: 0 };
    let answer = run_host(
        alloc,
        config,
        options,
        store,
        &mut typed,
        &mut out,
        &mut lines,
        &mut NoWatcher,
    );
    let is_right = are_in_order(store, &LEFT) && are_as_filled(store, blank);
    let is_whole = store.file("forked.rec").is_some();
    let is_typed = out.count == SHOWN.len()
        && lines.count == TYPED.len()
        && typed.into_input().is_empty();
    match answer {
        Ok(_) => CallOutcome::made_if(is_right && is_whole && is_typed),
        Err(RunError::OutOfMemory) => CallOutcome::refused_if(is_right && !is_whole),
        Err(_) => CallOutcome::Wrong,
    }
}

fn run_configured(alloc: Global, config: &Config) -> Result<CallOutcome, AllocError> {
    let blank = Image::blank(alloc, Format::Ibm3740)?.into_bytes();
    let mut store = filled(alloc, blank.as_slice())?;
    Ok(run_over(alloc, config, &mut store, blank.as_slice()))
}

pub fn run(alloc: Global) -> Result<CallOutcome, AllocError> {
    match Config::read(alloc, CONFIG.as_bytes()) {
        Ok(config) => run_configured(alloc, &config),
        Err(_) => Err(AllocError),
    }
}
