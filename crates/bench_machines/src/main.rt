//! Runs a program by one grant of a machine, `machine CPU FILE STEPS`, or with IMAGE as its drive A, `machine CPU FILE STEPS IMAGE`, or
//! RUN.COM of a system drive in the sessions of a host by grants in turn, `host CPU IMAGE SESSIONS QUOTA STEPS ROUNDS`, and prints how
//! many steps were executed; or RUN.COM in one session in turn with sessions that wait at their prompts, `waiting IMAGE NUMBER STEPS ROUNDS`.
//! CPU is `8080` or `z80`. Or it looks at a session, `looks TIMES`, or opens and closes a slot with a new blank drive, `slots TIMES`, or makes such a
//! drive alone, `openings TIMES`.
//!
//! Or it makes memories to see what room they take: `sessions NUMBER` in one store, each with one written page, or `flats NUMBER` of
//! their own; or a host with up to 64 sessions of four blank drives each, `drives small NUMBER` or `drives large NUMBER`; or one whose sessions
//! have run RUN.COM of a system drive, each itself, `opened IMAGE NUMBER`, or all but the first as forks of it, `forked IMAGE NUMBER`. It prints
//! what Linux says of its own memory then. Or it forks such a session and closes the fork, `forks IMAGE TIMES`. Or it saves a session that has a small
//! drive, or four large ones, and says how many bytes that has, `saves small TIMES`, `saves large TIMES`; or opens a slot of its saving, and closes it,
//! `restores small TIMES`, `restores large TIMES`.
#![tactic(auto)]

mod forks;
mod savings;
mod sessions;

use cpm_flags::Cpu;
use cpm_geom::{Format, Image};
use cpm_memory::{FlatMemory, FrameStore, has_room};
use cpm_slots::Host;
use forks::{fork_and_close, host_of_forks, host_of_opened};
use savings::{restore_often, save_often};
use sessions::{
    HostTurns, host_of_drives, look_often, make_openings, open_and_close, run_beside, run_host,
    run_machine,
};
use std::alloc::Global;
use std::process::ExitCode;
use std::{env, fs};

/// The greatest resident memory of this process so far, in KiB, as Linux counts it.
fn resident(rt: &HostRuntime) -> Option<u64> {
    let status = fs::read_to_string(rt, "/proc/self/status").ok()?;
    most_resident(status.as_str())
}

/// The number of that memory in the status of a process.
fn most_resident(status: &str) -> Option<u64> {
    let (_, behind) = status.split_once("VmHWM:")?;
    let (number, _) = behind.trim_start().split_once(" kB")?;
    number.parse().ok()
}

/// Makes so many memories in one store, each with a quota of 16 pages and one page written, and keeps them to the end.
fn share(rt: &HostRuntime, number: u64) -> Option<u64> {
    let number = u16::try_from(number).ok()?;
    if number > 64 {
        return None;
    }
    let mut store = FrameStore::new(rt.alloc(), 16 * number).ok()?;
    share_all(&mut store, number)?;
    resident(rt)
}

fn share_all(store: &mut FrameStore, number: u16) -> Option<()> {
    for _ in 0..number {
        share_one(store)?;
    }
    Some(())
}

/// Makes one of them.
fn share_one(store: &mut FrameStore) -> Option<()> {
    if store.taken() >= 64 {
        return None;
    }
    let table = store.reserve(16).ok()?;
    if !store.is_taken(table) {
        return None;
    }
    let mut view = store.view(table);
    if !has_room(&view) {
        return None;
    }
    cpm_memory::set_byte(&mut view, 0x2000, 1);
    Some(())
}

/// Makes so many memories of their own, each with one page written, and keeps them to the end.
fn own(rt: &HostRuntime, number: u64) -> Option<u64> {
    let _memories = own_all(rt.alloc(), number)?;
    resident(rt)
}

fn own_all(alloc: Global, number: u64) -> Option<Vec<FlatMemory>> {
    let mut memories = Vec::new(alloc);
    for _ in 0..number {
        memories.push(own_one(alloc)?).ok()?;
    }
    Some(memories)
}

/// Makes one of them.
fn own_one(alloc: Global) -> Option<FlatMemory> {
    let mut memory = FlatMemory::new(alloc).ok()?;
    if has_room(&memory) {
        cpm_memory::set_byte(&mut memory, 0x2000, 1);
    }
    Some(memory)
}

/// The format of that size.
fn format_of(size: &str) -> Option<Format> {
    match size {
        "small" => Some(Format::Ibm3740),
        "large" => Some(Format::Large),
        _ => None,
    }
}

/// Makes a host with so many sessions, of the kind that is asked for: `drives SIZE`, `opened IMAGE` or `forked IMAGE`.
fn host_by(rt: &HostRuntime, kind: &str, of: &str, sessions: u16) -> Option<Host> {
    match kind {
        "drives" => host_of_drives(rt.alloc(), format_of(of)?, sessions),
        "opened" => host_of_opened(rt.alloc(), drive_of(rt, of)?, sessions),
        "forked" => host_of_forks(rt.alloc(), drive_of(rt, of)?, sessions),
        _ => None,
    }
}

/// Makes such a host, and keeps it to the end.
fn hold(rt: &HostRuntime, kind: &str, of: &str, sessions: u16) -> Option<u64> {
    let _host = host_by(rt, kind, of, sessions)?;
    resident(rt)
}

/// The processor of that name.
fn cpu_of(name: &str) -> Option<Cpu> {
    match name {
        "8080" => Some(Cpu::I8080),
        "z80" => Some(Cpu::Z80),
        _ => None,
    }
}

/// The drive in a file.
fn drive_of(rt: &HostRuntime, file: &str) -> Option<Image> {
    Image::from_bytes(fs::read(rt, file).ok()?).ok()
}

/// The drive in a file, where one is named, or a blank one.
fn drive_or_blank(rt: &HostRuntime, words: &[&str]) -> Option<Image> {
    match words {
        [] => Image::blank(rt.alloc(), Format::Ibm3740).ok(),
        [image] => drive_of(rt, image),
        _ => None,
    }
}

/// Runs a program by one grant of a machine, where the words ask for it.
fn measure_machine(rt: &HostRuntime, words: &[&str]) -> Option<u64> {
    let [cpu, file, steps, image @ ..] = words else {
        return None;
    };
    let (cpu, steps) = (cpu_of(cpu)?, steps.parse().ok()?);
    let drive = drive_or_blank(rt, image)?;
    run_machine(rt.alloc(), cpu, fs::read(rt, file).ok()?, steps, drive)
}

/// How many sessions of a host run by grants in turn, where four words say it.
fn turns_of(words: &[&str]) -> Option<HostTurns> {
    let [sessions, quota, steps, rounds] = words else {
        return None;
    };
    Some(HostTurns {
        sessions: sessions.parse().ok()?,
        quota: quota.parse().ok()?,
        steps: steps.parse().ok()?,
        rounds: rounds.parse().ok()?,
    })
}

/// Runs sessions of a host by grants in turn, where the words ask for it.
fn measure_host(rt: &HostRuntime, words: &[&str]) -> Option<u64> {
    let [cpu, file, rest @ ..] = words else {
        return None;
    };
    let (cpu, turns) = (cpu_of(cpu)?, turns_of(rest)?);
    run_host(rt.alloc(), cpu, drive_of(rt, file)?, &turns)
}

/// Runs one session in turn with sessions that wait, where the words ask for it.
fn measure_waiting(rt: &HostRuntime, words: &[&str]) -> Option<u64> {
    let [file, waiting, steps, rounds] = words else {
        return None;
    };
    let waiting = waiting.parse().ok()?;
    let steps = steps.parse().ok()?;
    let rounds = rounds.parse().ok()?;
    run_beside(rt.alloc(), drive_of(rt, file)?, waiting, steps, rounds)
}

/// Forks and closes sessions, where the words ask for it.
fn measure_forks(rt: &HostRuntime, words: &[&str]) -> Option<u64> {
    let [file, times] = words else {
        return None;
    };
    let times = times.parse().ok()?;
    fork_and_close(rt.alloc(), drive_of(rt, file)?, times)
}

/// Saves a session, or opens a slot of its saving, where the words ask for it.
fn measure_savings(rt: &HostRuntime, restores: bool, words: &[&str]) -> Option<u64> {
    let [size, times] = words else {
        return None;
    };
    let (is_large, times) = (format_of(size)? == Format::Large, times.parse().ok()?);
    if restores {
        restore_often(rt.alloc(), is_large, times)
    } else {
        save_often(rt.alloc(), is_large, times)
    }
}

/// Makes one of what it names so many times.
fn make(rt: &HostRuntime, what: &str, times: u64) -> Option<u64> {
    match what {
        "sessions" => share(rt, times),
        "flats" => own(rt, times),
        "looks" => look_often(rt.alloc(), times),
        "slots" => open_and_close(rt.alloc(), times),
        "openings" => make_openings(rt.alloc(), times),
        _ => None,
    }
}

/// Does what the words ask for, and gives the number to print.
fn measure(rt: &HostRuntime, words: &[&str]) -> Option<u64> {
    let [what, rest @ ..] = words else {
        return None;
    };
    match *what {
        "machine" => measure_machine(rt, rest),
        "host" => measure_host(rt, rest),
        "waiting" => measure_waiting(rt, rest),
        "forks" => measure_forks(rt, rest),
        "saves" => measure_savings(rt, false, rest),
        "restores" => measure_savings(rt, true, rest),
        what => make_or_hold(rt, what, rest),
    }
}

/// Makes what the words ask for.
fn make_or_hold(rt: &HostRuntime, what: &str, rest: &[&str]) -> Option<u64> {
    match rest {
        [times] => make(rt, what, times.parse().ok()?),
        [of, sessions] => hold(rt, what, of, sessions.parse().ok()?),
        _ => None,
    }
}

/// Does what the words after the program's own name ask for, and prints that number.
fn do_words(rt: &HostRuntime, words: &[&str]) -> Option<()> {
    let done = measure(rt, words)?;
    println!(rt; "{done}").ok()
}

/// Does what the command line asks for.
fn do_line(rt: &HostRuntime) -> Option<()> {
    let words: Vec<String> = env::args(rt).ok()?.skip(1).collect(rt.alloc()).ok()?;
    do_words(rt, texts_of(rt.alloc(), words.as_slice())?.as_slice())
}

/// The texts of words.
fn texts_of(alloc: Global, words: &[String]) -> Option<Vec<&str>> {
    let mut texts = Vec::with_capacity(alloc, words.len()).ok()?;
    for word in words {
        texts.push(word.as_str()).ok()?;
    }
    Some(texts)
}

fn main(rt: HostRuntime) -> ExitCode {
    match do_line(&rt) {
        Some(()) => ExitCode::SUCCESS,
        None => ExitCode::from(1),
    }
}
