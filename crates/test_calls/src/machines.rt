//! Memories, machines and hosts.

ghost use Rattle.std.specs.Prelude.{IfOk};
ghost use Rattle.cpm_play.specs.Playing.{IsFresh};

use crate::same::same;
use cpm_flags::Cpu;
use cpm_geom::{Format, Image};
use cpm_machine::{Machine, OpenError, Opening, Tail};
use cpm_memory::FrameStore;
use cpm_play::{KeyReader, LiveError, Typist, play_live};
use cpm_slots::{ForkError, Host, SlotId};
use std::alloc::Global;
use std::io;
use std::io::{ErrorKind, Read, Write};
use std::process::Abort;
use std::test::Fail;

/// A blank drive.
fn blank(alloc: Global) -> Result<Image, Fail> {
    Ok(Image::blank(alloc, Format::Ibm3740)?)
}

/// An opening with so many blank drives.
fn opening_of(alloc: Global, quota: u16, count: usize) -> Result<Opening, Fail> {
    let mut drives = Vec::with_capacity(alloc, count)?;
    for _ in 0..count {
        drives.push(blank(alloc)?)?;
    }
    Ok(Opening {
        cpu: Cpu::Z80,
        quota,
        drives,
    })
}

/// What was handed back is such an opening.
fn is_handed_back(rt: &impl Abort, back: &Opening, quota: u16, count: usize) {
    same(rt, back.cpu, Cpu::Z80);
    same(rt, back.quota, quota);
    same(rt, back.drives.len(), count);
}

/// With no memory `new` answers so, and else the store serves.
#[test]
fn a_store_answers_want_of_memory(rt: HostRuntime) -> Result<(), Fail> {
    if let Ok(mut store) = FrameStore::new(rt.alloc(), 4) {
        assert!(rt; store.taken() < 64);
        assert!(rt; store.reserve(4).is_ok());
    }
    Ok(())
}

#[test]
fn a_refused_machine_hands_its_opening_back(rt: HostRuntime) -> Result<(), Fail> {
    let opening = opening_of(rt.alloc(), 257, 5)?;
    let Err((back, error)) = Machine::new(rt.alloc(), opening) else {
        panic!(rt; "257 pages and 5 drives are taken");
    };
    same(&rt, error, OpenError::BadQuota);
    is_handed_back(&rt, &back, 257, 5);
    Ok(())
}

/// A machine with a program is refused for its length, and what was given comes back.
fn hands_the_program_back(
    rt: &impl Abort,
    made: Result<Machine, (Opening, Vec<u8>, OpenError)>,
) -> (Opening, Vec<u8>) {
    let Err((back, bytes, error)) = made else {
        panic!(rt; "58,113 bytes are taken");
    };
    same(rt, error, OpenError::ProgramTooLong);
    is_handed_back(rt, &back, 256, 1);
    same(rt, bytes.len(), 58_113);
    assert!(rt; bytes.iter().all(|byte| *byte == 7));
    (back, bytes)
}

#[test]
fn a_refused_program_is_handed_back(rt: HostRuntime) -> Result<(), Fail> {
    let tail = Tail::new(b" X").expect(&rt, "a tail");
    let opening = opening_of(rt.alloc(), 256, 1)?;
    let program = vec![in rt.alloc(); 7u8; 58_113]?;
    let made = Machine::with_program(rt.alloc(), opening, program);
    let (opening, program) = hands_the_program_back(&rt, made);
    let made = Machine::with_command(rt.alloc(), opening, program, &tail);
    let _given = hands_the_program_back(&rt, made);
    Ok(())
}

/// A host with a blank system drive.
fn host_of(alloc: Global) -> Result<Host, Fail> {
    match Host::new(alloc, blank(alloc)?, 32) {
        Ok(host) => Ok(host),
        Err((_, error)) => Err(Fail::from(error)),
    }
}

/// Passes with any one allocation refused: the drive comes back, and can be used again.
#[test]
fn want_of_memory_hands_the_system_drive_back(rt: HostRuntime) -> Result<(), Fail> {
    let Err((system, error)) = Host::new(rt.alloc(), blank(rt.alloc())?, 32) else {
        return Ok(());
    };
    same(&rt, error, OpenError::OutOfMemory);
    match Host::new(rt.alloc(), system, 32) {
        Ok(_) => Ok(()),
        Err((_, again)) => Err(Fail::from(again)),
    }
}

/// Passes with any one allocation refused: the opening comes back, and can be tried again.
fn hands_the_opening_back(rt: &(impl Abort + AllocGlobal), host: &mut Host) -> Result<(), Fail> {
    let opening = opening_of(rt.alloc(), 16, 2)?;
    if let Err((back, error)) = host.open(rt.alloc(), opening) {
        same(rt, error, OpenError::OutOfMemory);
        is_handed_back(rt, &back, 16, 2);
        if let Err((_, again)) = host.open(rt.alloc(), back) {
            return Err(Fail::from(again));
        }
    }
    same(rt, host.look(SlotId(0))?.count, 0);
    Ok(())
}

#[test]
fn want_of_memory_hands_the_opening_back(rt: HostRuntime) -> Result<(), Fail> {
    let mut host = host_of(rt.alloc())?;
    hands_the_opening_back(&rt, &mut host)
}

/// An opening that is refused for its drives comes back too.
fn hands_the_drives_back(rt: &(impl Abort + AllocGlobal), host: &mut Host) -> Result<(), Fail> {
    let opening = opening_of(rt.alloc(), 16, 5)?;
    let Err((back, error)) = host.open(rt.alloc(), opening) else {
        panic!(rt; "5 drives are taken");
    };
    same(rt, error, OpenError::BadDrives);
    is_handed_back(rt, &back, 16, 5);
    Ok(())
}

#[test]
fn a_refused_slot_hands_its_opening_back(rt: HostRuntime) -> Result<(), Fail> {
    let mut host = host_of(rt.alloc())?;
    hands_the_drives_back(&rt, &mut host)
}

/// Passes with any one allocation refused: nothing is changed, and the fork can be tried again.
fn forks(rt: &(impl Abort + AllocGlobal), host: &mut Host) -> Result<(), Fail> {
    if let Err((_, error)) = host.open(rt.alloc(), opening_of(rt.alloc(), 16, 1)?) {
        return Err(Fail::from(error));
    }
    same(rt, host.grant(SlotId(0), 20)?.executed, 20);
    let look = host.look(SlotId(0))?;
    if let Err(error) = host.fork(rt.alloc(), SlotId(0)) {
        same(rt, error, ForkError::OutOfMemory);
        same(rt, host.look(SlotId(0))?, look);
        host.fork(rt.alloc(), SlotId(0))?;
    }
    same(rt, host.look(SlotId(0))?, look);
    same(rt, host.look(SlotId(1))?, look);
    Ok(())
}

#[test]
fn want_of_memory_leaves_the_forked_slot(rt: HostRuntime) -> Result<(), Fail> {
    let mut host = host_of(rt.alloc())?;
    forks(&rt, &mut host)
}

/// Reads two keys, each with its echo.
const READS: &[u8] = &[
    0x0E, 0x01, 0xCD, 0x05, 0x00, 0x0E, 0x01, 0xCD, 0x05, 0x00, 0xC9,
];

/// Reads a key with its echo, and prints it on its list device.
const PRINTS: &[u8] = &[
    0x0E, 0x01, 0xCD, 0x05, 0x00, 0x5F, 0x0E, 0x05, 0xCD, 0x05, 0x00, 0xC9,
];

/// A reader and writer that always fails.
#[derive(Drop)]
struct FailingConsole;

impl Read for FailingConsole {
    fn read(&mut self, _buf: &mut [u8]) -> io::Result<usize> {
        Err(io::Error::from(ErrorKind::BrokenPipe))
    }
}

impl Write for FailingConsole {
    fn write(&mut self, _buf: &[u8]) -> io::Result<usize> {
        Err(io::Error::from(ErrorKind::StorageFull))
    }

    fn flush(&mut self) -> io::Result<()> {
        Ok(())
    }
}

/// A machine with a program that reads keys.
fn reading(alloc: Global, program: &[u8]) -> Result<Machine, Fail>
    ensures { IfOk result IsFresh }
{
    let bytes = Vec::from_slice(alloc, program)?;
    match Machine::with_program(alloc, opening_of(alloc, 256, 1)?, bytes) {
        Ok(machine) => Ok(machine),
        Err((_, _, error)) => Err(Fail::from(error)),
    }
}

/// The kind of the error with which a session of a program ends that reads keys, and whose it is.
fn fault<T: Typist, W: Write, L: Write, S: Write>(
    alloc: Global,
    program: &[u8],
    typist: &mut T,
    out: &mut W,
    list: &mut L,
    record: &mut S,
) -> Result<(&'static str, Option<ErrorKind>), Fail> {
    let system = blank(alloc)?;
    let mut machine = reading(alloc, program)?;
    let played = play_live(
        alloc,
        &system,
        &mut machine,
        100,
        &[],
        typist,
        out,
        list,
        record,
    );
    Ok(match played {
        Ok(_) => ("played", None),
        Err(error) => named(error),
    })
}

/// What failed, and the kind of its error.
fn named(error: LiveError) -> (&'static str, Option<ErrorKind>) {
    match error {
        LiveError::Unreadable(error) => ("unreadable", Some(error.kind())),
        LiveError::Unwritable(error) => ("unwritable", Some(error.kind())),
        LiveError::Unprinted(error) => ("unprinted", Some(error.kind())),
        LiveError::Unrecorded(error) => ("unrecorded", Some(error.kind())),
        LiveError::OutOfMemory => ("out of memory", None),
    }
}

fn input_fails(rt: &(impl Abort + AllocGlobal)) -> Result<(), Fail> {
    let mut text: Vec<u8> = Vec::new(rt.alloc());
    let mut lines: Vec<u8> = Vec::new(rt.alloc());
    let dead = &mut KeyReader::new(FailingConsole);
    let list = &mut io::sink();
    let found = fault(rt.alloc(), READS, dead, &mut text, list, &mut lines)?;
    same(rt, found, ("unreadable", Some(ErrorKind::BrokenPipe)));
    same(rt, text.len(), 0);
    same(rt, lines.len(), 0);
    Ok(())
}

/// The echo of the first key can't be written; the key was recorded.
fn output_fails<T: Typist>(rt: &(impl Abort + AllocGlobal), typed: &mut T) -> Result<(), Fail> {
    let mut lines: Vec<u8> = Vec::new(rt.alloc());
    let out = &mut FailingConsole;
    let list = &mut io::sink();
    let found = fault(rt.alloc(), READS, typed, out, list, &mut lines)?;
    same(rt, found, ("unwritable", Some(ErrorKind::StorageFull)));
    same(rt, lines.as_slice(), b"3 a\n".as_slice());
    Ok(())
}

fn record_fails<T: Typist>(rt: &(impl Abort + AllocGlobal), typed: &mut T) -> Result<(), Fail> {
    let mut text: Vec<u8> = Vec::new(rt.alloc());
    let record = &mut FailingConsole;
    let list = &mut io::sink();
    let found = fault(rt.alloc(), READS, typed, &mut text, list, record)?;
    same(rt, found, ("unrecorded", Some(ErrorKind::StorageFull)));
    same(rt, text.len(), 0);
    Ok(())
}

#[test]
fn a_live_session_names_what_failed(rt: HostRuntime) -> Result<(), Fail> {
    let keys: &[u8] = b"ab";
    let mut typed = KeyReader::new(keys);
    input_fails(&rt)?;
    output_fails(&rt, &mut typed)?;
    record_fails(&rt, &mut typed)
}

/// The text of the turn is shown before its list bytes fail.
#[test]
fn a_live_session_names_a_list_device_that_failed(rt: HostRuntime) -> Result<(), Fail> {
    let mut text = Vec::new(rt.alloc());
    let mut lines = Vec::new(rt.alloc());
    let keys: &[u8] = b"a";
    let mut typed = KeyReader::new(keys);
    let list = &mut FailingConsole;
    let found = fault(rt.alloc(), PRINTS, &mut typed, &mut text, list, &mut lines)?;
    same(&rt, found, ("unprinted", Some(ErrorKind::StorageFull)));
    same(&rt, text.as_slice(), b"a".as_slice());
    same(&rt, lines.as_slice(), b"3 a\n".as_slice());
    Ok(())
}
