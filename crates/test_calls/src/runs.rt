//! Readers that fail or never end, configurations that no text writes, and the texts and statuses of refusals.

use crate::same::{same, same_at};
use crate::streams::typed_at;
use cpm_asm::AsmErrorKind;
use cpm_flags::Cpu;
use cpm_geom::{Format, Image};
use cpm_host::{
    Config, DebugError, HostError, KeyReader, MOST_FILE, MemoryStore, NoWatcher, Origin, Page,
    Store, UsageError, UsageFault, UsageRefusal, read_whole, run_debug, run_host, shown,
};
use cpm_machine::OpenError;
use std::io;
use std::io::{BufReader, ErrorKind, Read};
use std::process::Abort;

/// Gives zeros without end, and counts them, but fails once at the read that begins at `fails_at`.
#[derive(Drop)]
struct Zeros {
    given: u64,
    fails_at: Option<u64>,
}

impl Read for Zeros {
    fn read(&mut self, buf: &mut [u8]) -> io::Result<usize> {
        if self.fails_at.is_some_and(|at| at <= self.given) {
            self.fails_at = None;
            return Err(io::Error::other("the disk is gone"));
        }
        for byte in buf.iter_mut() {
            *byte = 0;
        }
        self.given = self.given.saturating_add(buf.len() as u64);
        Ok(buf.len())
    }
}

fn reads_all(rt: &(impl Abort + AllocGlobal)) {
    let mut whole: &[u8] = b"all of it";
    let bytes = read_whole(rt.alloc(), &mut whole).expect(rt, "bytes");
    same(rt, bytes.as_slice(), b"all of it".as_slice());
}

/// Fails unless zeros that fail there are refused so, and says how many were read.
fn is_unread(rt: &(impl Abort + AllocGlobal), fails_at: Option<u64>, wanted: ErrorKind) -> u64 {
    let mut zeros = Zeros { given: 0, fails_at };
    let error = read_whole(rt.alloc(), &mut zeros).expect_err(rt, "an error");
    same(rt, error.kind(), wanted);
    zeros.given
}

#[test]
fn reads_no_more_than_a_file_may_have(rt: HostRuntime) {
    reads_all(&rt);
    let given = is_unread(&rt, None, ErrorKind::FileTooLarge);
    same(&rt, given, MOST_FILE + 1);
    is_unread(&rt, Some(50), ErrorKind::Other);
}

/// Compares the statuses of errors, and their texts after their codes, with what is wanted.
fn same_errors(rt: &(impl Abort + AllocGlobal), errors: &[(HostError, u8, &str)]) {
    for (error, status, wanted) in errors {
        let code = error.code();
        same_at(rt, *wanted, code.status(), *status);
        let text = format!(in rt.alloc(); "{code} {error}").expect(rt, "memory");
        same(rt, text.as_str(), *wanted);
    }
}

#[test]
fn names_code_and_status_of_words(rt: HostRuntime) {
    let errors = [
        (
            HostError::from(UsageError::Usage(UsageRefusal {
                fault: UsageFault::UnknownCommand(shown("x")),
                page: Page::Disk,
            })),
            1,
            "HO1 unknown command 'x'; try 'cpmhost help disk'",
        ),
        (
            HostError::NotText,
            1,
            "HO1 an argument is not UTF-8 text; try 'cpmhost --help'",
        ),
    ];
    same_errors(&rt, errors.as_slice());
}

#[test]
fn names_code_and_status_of_files(rt: HostRuntime) {
    let reason = io::Error::other("the disk is gone");
    let errors = [
        (
            HostError::FileUnreadable {
                name: shown("a\nb"),
                reason,
            },
            4,
            "HO4 can't read 'a?b': the disk is gone",
        ),
        (
            HostError::OutputUnwritable(reason),
            5,
            "HO5 can't write to standard output: the disk is gone",
        ),
        (
            HostError::ListUnwritable(reason),
            5,
            "HO5 can't write the list device: the disk is gone",
        ),
        (
            HostError::from(DebugError::Unreadable(reason)),
            4,
            "HO4 can't read standard input: the disk is gone",
        ),
        (
            HostError::FileUnwritable {
                name: shown("a.com"),
                reason,
            },
            5,
            "HO5 can't write 'a.com': the disk is gone",
        ),
    ];
    same_errors(&rt, errors.as_slice());
}

#[test]
fn names_code_and_status_of_programs_and_memory(rt: HostRuntime) {
    let errors = [
        (
            HostError::from(UsageError::OutOfMemory),
            8,
            "HO8 out of memory",
        ),
        (
            HostError::from(OpenError::BadQuota),
            9,
            "HO9 the quota is not 16 to 256 pages, or with a program not 256",
        ),
        (
            HostError::from(OpenError::OutOfMemory),
            8,
            "HO8 out of memory",
        ),
        (
            HostError::ProgramTooLong(60_000),
            9,
            "HO9 the program has 60000 bytes, and a machine takes at most 58112",
        ),
        (
            HostError::SourceRefused {
                line: 7,
                kind: AsmErrorKind::OutOfRange,
                found: shown("RST 8"),
            },
            7,
            "HO7 line 7, 'RST 8': AS4: a value is out of range (bytes 0 to 255 or FF80H to FFFFH, RST 0 to 7), \
             an address is past FFFFH, or something is divided by 0",
        ),
    ];
    same_errors(&rt, errors.as_slice());
}

/// Gives two orders and the beginning of a third, and then fails.
#[derive(Drop)]
struct FailingOrders {
    is_read: bool,
}

impl Read for FailingOrders {
    fn read(&mut self, buf: &mut [u8]) -> io::Result<usize> {
        if self.is_read {
            return Err(io::Error::other("the line is dead"));
        }
        self.is_read = true;
        let orders = b"S 2\nL 0104\nS ";
        let count = orders.len().min(buf.len());
        buf[..count].copy_from_slice(&orders[..count]);
        Ok(count)
    }
}

/// Prints `A` and returns.
const LETTER: &[u8] = &[0x0E, 0x02, 0x1E, 0x41, 0xCD, 0x05, 0x00, 0xC9];

/// Debugs that program by these orders.
fn debugs(rt: &(impl Abort + AllocGlobal), out: &mut Vec<u8>) -> DebugError {
    let orders = FailingOrders { is_read: false };
    let mut input = BufReader::new(rt.alloc(), orders).expect(rt, "memory");
    let program = Vec::from_slice(rt.alloc(), LETTER).expect(rt, "memory");
    let answer = run_debug(rt.alloc(), Cpu::I8080, program, &[], &mut input, out);
    answer.expect_err(rt, "not refused")
}

#[test]
fn answers_what_was_read_before_a_fault(rt: HostRuntime) {
    let mut out: Vec<u8> = Vec::new(rt.alloc());
    let error = debugs(&rt, &mut out);
    let text = error.to_string(rt.alloc()).expect(&rt, "memory");
    same(&rt, text.as_str(), "can't read orders: the line is dead");
    let wanted: &[u8] = b"2 All\n0104  CD 05 00  CALL 00005H\n";
    same(&rt, out.as_slice(), wanted);
}

/// One session on blank drives, and another that is forked from it.
const FORKED: &str = "frames = 64
quantum = 1
system = \"p.img\"

[[session]]
name = \"one\"
cpu = \"8080\"
quota = 16
steps = 50
drives = [\"a.img\"]
console = \"one.txt\"
keys = \"one.keys\"

[[session]]
name = \"two\"
fork = \"one\"
at = 7
steps = 20
console = \"two.txt\"
keys = \"two.keys\"
";

/// A store with the files of both.
fn filled(rt: &(impl Abort + AllocGlobal)) -> MemoryStore {
    let mut store = MemoryStore::new(rt.alloc());
    let blank = Image::blank(rt.alloc(), Format::Ibm3740).expect(rt, "memory");
    let bytes = blank.into_bytes();
    store.write("p.img", bytes.as_slice()).expect(rt, "memory");
    store.write("a.img", bytes.as_slice()).expect(rt, "memory");
    store.write("one.keys", b"0 DIR^M").expect(rt, "memory");
    store.write("two.keys", b"60 X^M").expect(rt, "memory");
    store
}

/// The configuration.
fn config(rt: &(impl Abort + AllocGlobal)) -> Config {
    Config::read(rt.alloc(), FORKED.as_bytes()).expect(rt, "a configuration")
}

/// Fails unless a run is refused, before it reads a key or writes anything.
fn is_refused(rt: &(impl Abort + AllocGlobal), config: &Config) {
    let mut store = filled(rt);
    let keys: &[u8] = b"DIR\r";
    let mut typed = KeyReader::new(keys);
    let mut out: Vec<u8> = Vec::new(rt.alloc());
    let answer = run_host(
        rt.alloc(),
        config,
        typed_at("one", &[], &[]),
        &mut store,
        &mut typed,
        &mut out,
        &mut io::sink(),
        &mut NoWatcher,
    );
    match answer {
        Ok(_) => panic!(rt; "run"),
        Err(error) => same(rt, error.code().status(), 2),
    }
    same(rt, typed.into_input().len(), 4);
    same(rt, out.len(), 0);
    assert!(rt; store.file("one.txt").is_none());
}

#[test]
fn refuses_what_no_host_has(rt: HostRuntime) {
    let mut config = config(&rt);
    config.frames = 15;
    is_refused(&rt, &config);
}

#[test]
fn a_fork_that_no_configuration_has_is_refused(rt: HostRuntime) {
    let mut config = config(&rt);
    for session in config.sessions.iter_mut() {
        if let Origin::Forked { at, .. } = &mut session.origin {
            *at = 51;
        }
    }
    is_refused(&rt, &config);
}
