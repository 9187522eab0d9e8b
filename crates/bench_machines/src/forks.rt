//! Forks of a session that has run a program: how fast they are made, and the room that they take.

use crate::sessions::{host_of, start};
use cpm_flags::Cpu;
use cpm_geom::Image;
use cpm_slots::{Host, SlotId};
use std::alloc::Global;

/// The pages that a session may write.
const QUOTA: u16 = 128;

/// Steps in which RUN.COM is loaded and comes to its end.
const STEPS: u64 = 1_000_000;

/// Opens a session that has run the program RUN.COM of the system drive.
fn run_one(alloc: Global, host: &mut Host) -> Option<SlotId> {
    let id = start(alloc, host, Cpu::I8080, QUOTA)?;
    host.grant(id, STEPS).ok()?;
    Some(id)
}

/// Forks a session that has run a program so many times, and closes each fork.
pub fn fork_and_close(alloc: Global, system: Image, times: u64) -> Option<u64> {
    let mut host = host_of(alloc, system, 2)?;
    let id = run_one(alloc, &mut host)?;
    for _ in 0..times {
        fork_and_close_one(alloc, &mut host, id)?;
    }
    Some(times)
}

fn fork_and_close_one(alloc: Global, host: &mut Host, id: SlotId) -> Option<()> {
    let fork = host.fork(alloc, id).ok()?;
    host.close(fork).ok()?;
    Some(())
}

/// A host with so many sessions, of which the first has run a program and the others are forks of it.
pub fn host_of_forks(alloc: Global, system: Image, sessions: u16) -> Option<Host> {
    let mut host = host_of(alloc, system, 64)?;
    fork_one(alloc, &mut host, sessions)?;
    Some(host)
}

/// Opens a session that has run a program, and forks it so that there are so many.
fn fork_one(alloc: Global, host: &mut Host, sessions: u16) -> Option<()> {
    let id = run_one(alloc, host)?;
    for _ in 1..sessions {
        host.fork(alloc, id).ok()?;
    }
    Some(())
}

/// A host with so many sessions, each of which was opened and has run the program itself.
pub fn host_of_opened(alloc: Global, system: Image, sessions: u16) -> Option<Host> {
    let mut host = host_of(alloc, system, 64)?;
    for _ in 0..sessions {
        run_one(alloc, &mut host)?;
    }
    Some(host)
}
