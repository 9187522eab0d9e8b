//! Sessions of one machine, or of a host: programs that they run, and slots that are opened and closed.

use cpm_flags::Cpu;
use cpm_geom::{Format, Image};
use cpm_machine::{Machine, Opening};
use cpm_slots::{Host, SlotId};
use std::alloc::Global;

/// What starts the program RUN.COM of the system drive.
const KEYS: [u8; 6] = *b"P:RUN\r";

/// What a host's sessions do: so many of them, with a quota each, by grants in turn.
#[derive(Drop)]
pub struct HostTurns {
    pub sessions: u16,
    pub quota: u16,
    pub steps: u64,
    pub rounds: u64,
}

/// A blank drive.
fn blank(alloc: Global) -> Option<Image> {
    Image::blank(alloc, Format::Ibm3740).ok()
}

/// An opening with one blank drive.
fn opening_of(alloc: Global, cpu: Cpu, quota: u16) -> Option<Opening> {
    opening_with(alloc, cpu, quota, blank(alloc)?)
}

/// An opening with this drive.
fn opening_with(alloc: Global, cpu: Cpu, quota: u16, drive: Image) -> Option<Opening> {
    let mut drives = Vec::new(alloc);
    drives.push(drive).ok()?;
    Some(Opening { cpu, quota, drives })
}

/// Runs a program by one grant, with this drive, and says how many steps were executed.
pub fn run_machine(
    alloc: Global,
    cpu: Cpu,
    program: Vec<u8>,
    steps: u64,
    drive: Image,
) -> Option<u64> {
    let system = blank(alloc)?;
    let opening = opening_with(alloc, cpu, 256, drive)?;
    let mut machine = Machine::with_program(alloc, opening, program).ok()?;
    Some(machine.grant(&system, steps).executed)
}

/// Four blank drives of this format.
fn four_drives(alloc: Global, format: Format) -> Option<Vec<Image>> {
    let mut drives = Vec::new(alloc);
    for _ in 0..4 {
        drives.push(Image::blank(alloc, format).ok()?).ok()?;
    }
    Some(drives)
}

/// A host with so many sessions, each with four blank drives of this format and a quota of 16 pages.
pub fn host_of_drives(alloc: Global, format: Format, sessions: u16) -> Option<Host> {
    let mut host = host_of(alloc, blank(alloc)?, 4)?;
    open_all_with_four(alloc, &mut host, format, sessions)?;
    Some(host)
}

fn open_all_with_four(alloc: Global, host: &mut Host, format: Format, sessions: u16) -> Option<()> {
    for _ in 0..sessions {
        open_with_four(alloc, host, format)?;
    }
    Some(())
}

/// Opens a session with four blank drives.
fn open_with_four(alloc: Global, host: &mut Host, format: Format) -> Option<SlotId> {
    let drives = four_drives(alloc, format)?;
    let opening = Opening {
        cpu: Cpu::I8080,
        quota: 16,
        drives,
    };
    host.open(alloc, opening).ok()
}

/// A host with this system drive, whose frames are enough for all pages of so many sessions.
pub(crate) fn host_of(alloc: Global, system: Image, sessions: u16) -> Option<Host> {
    if sessions == 0 || sessions > 64 {
        return None;
    }
    Host::new(alloc, system, 256 * sessions).ok()
}

/// Opens a session with a blank drive and all its pages.
fn open_one(alloc: Global, host: &mut Host) -> Option<SlotId> {
    let opening = opening_of(alloc, Cpu::I8080, 256)?;
    host.open(alloc, opening).ok()
}

/// Opens a session that starts the program RUN.COM of the system drive.
pub(crate) fn start(alloc: Global, host: &mut Host, cpu: Cpu, quota: u16) -> Option<SlotId> {
    let id = host.open(alloc, opening_of(alloc, cpu, quota)?).ok()?;
    for key in KEYS {
        host.key(id, key).ok()?;
    }
    Some(id)
}

/// Grants each of these sessions so many steps, so many times, and says how many were executed in all.
fn in_turn(host: &mut Host, slots: &[SlotId], steps: u64, rounds: u64) -> Option<u64> {
    let mut total = 0u64;
    for _ in 0..rounds {
        for id in slots {
            let granted = host.grant(*id, steps).ok()?;
            total = total.saturating_add(granted.executed);
        }
    }
    Some(total)
}

/// Runs the program RUN.COM of the system drive in sessions in turn, and says how many steps were executed in all.
pub fn run_host(alloc: Global, cpu: Cpu, system: Image, turns: &HostTurns) -> Option<u64> {
    let mut host = host_of(alloc, system, turns.sessions)?;
    run_in_turn(alloc, cpu, &mut host, turns)
}

/// The same in this host.
fn run_in_turn(alloc: Global, cpu: Cpu, host: &mut Host, turns: &HostTurns) -> Option<u64> {
    let mut slots = Vec::new(alloc);
    for _ in 0..turns.sessions {
        slots.push(start(alloc, host, cpu, turns.quota)?).ok()?;
    }
    in_turn(host, slots.as_slice(), turns.steps, turns.rounds)
}

/// So many sessions that come to their prompts.
fn prompts(alloc: Global, host: &mut Host, count: u16) -> Option<Vec<SlotId>> {
    let mut slots = Vec::new(alloc);
    for _ in 0..count {
        slots.push(open_one(alloc, host)?).ok()?;
    }
    Some(slots)
}

/// Grants a session so many steps and then each of the others, so many times, and says how many that session executed.
fn beside(
    host: &mut Host,
    worker: SlotId,
    others: &[SlotId],
    steps: u64,
    rounds: u64,
) -> Option<u64> {
    let mut total = 0u64;
    for _ in 0..rounds {
        let granted = host.grant(worker, steps).ok()?;
        total = total.saturating_add(granted.executed);
        in_turn(host, others, steps, 1)?;
    }
    Some(total)
}

/// Runs the program RUN.COM of the system drive in one session, in turn with so many sessions at their prompts, and says how many steps it executed.
pub fn run_beside(
    alloc: Global,
    system: Image,
    waiting: u16,
    steps: u64,
    rounds: u64,
) -> Option<u64> {
    if waiting > 63 {
        return None;
    }
    let mut host = host_of(alloc, system, waiting + 1)?;
    run_one_beside(alloc, &mut host, waiting, steps, rounds)
}

/// The same in this host.
fn run_one_beside(
    alloc: Global,
    host: &mut Host,
    waiting: u16,
    steps: u64,
    rounds: u64,
) -> Option<u64> {
    let worker = start(alloc, host, Cpu::I8080, 256)?;
    let others = prompts(alloc, host, waiting)?;
    beside(host, worker, others.as_slice(), steps, rounds)
}

/// Looks at a session so many times.
pub fn look_often(alloc: Global, times: u64) -> Option<u64> {
    let mut host = host_of(alloc, blank(alloc)?, 1)?;
    look_at_one(alloc, &mut host, times)
}

fn look_at_one(alloc: Global, host: &mut Host, times: u64) -> Option<u64> {
    let id = open_one(alloc, host)?;
    for _ in 0..times {
        host.look(id).ok()?;
    }
    Some(times)
}

/// Opens and closes a slot so many times, each time with a new blank drive.
pub fn open_and_close(alloc: Global, times: u64) -> Option<u64> {
    let mut host = host_of(alloc, blank(alloc)?, 1)?;
    for _ in 0..times {
        open_and_close_one(alloc, &mut host)?;
    }
    Some(times)
}

fn open_and_close_one(alloc: Global, host: &mut Host) -> Option<()> {
    let id = open_one(alloc, host)?;
    host.close(id).ok()?;
    Some(())
}

/// Makes so many openings with a blank drive, and drops them.
pub fn make_openings(alloc: Global, times: u64) -> Option<u64> {
    for _ in 0..times {
        opening_of(alloc, Cpu::I8080, 256)?;
    }
    Some(times)
}
