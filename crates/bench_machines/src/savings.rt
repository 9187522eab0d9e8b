//! Savings of a session: how fast they are made, and how fast a slot goes on from one.

use crate::sessions::{host_of, host_of_drives, start};
use cpm_flags::Cpu;
use cpm_geom::{Format, Image};
use cpm_slots::{Host, SlotId};
use std::alloc::Global;

/// Steps in which the command processor has listed its drive.
const STEPS: u64 = 100_000;

/// A host with a session of one small drive, or with `large` of four large ones, that has executed some steps.
fn host_of_one(alloc: Global, is_large: bool) -> Option<Host> {
    let mut host = if is_large {
        host_of_drives(alloc, Format::Large, 1)?
    } else {
        let mut host = host_of(alloc, Image::blank(alloc, Format::Ibm3740).ok()?, 4)?;
        start(alloc, &mut host, Cpu::I8080, 256)?;
        host
    };
    host.grant(SlotId(0), STEPS).ok()?;
    Some(host)
}

/// Saves such a session so many times, and says how many bytes a saving has.
pub fn save_often(alloc: Global, is_large: bool, times: u64) -> Option<u64> {
    let mut host = host_of_one(alloc, is_large)?;
    let mut length = 0;
    for _ in 0..times {
        length = host.save(alloc, SlotId(0)).ok()?.len();
    }
    u64::try_from(length).ok()
}

/// Opens a slot of such a saving so many times, and closes each.
pub fn restore_often(alloc: Global, is_large: bool, times: u64) -> Option<u64> {
    let mut host = host_of_one(alloc, is_large)?;
    let saved = host.save(alloc, SlotId(0)).ok()?;
    host.close(SlotId(0)).ok()?;
    for _ in 0..times {
        restore_one(alloc, &mut host, saved.as_slice())?;
    }
    Some(times)
}

/// Opens a slot of a saving, and closes it.
fn restore_one(alloc: Global, host: &mut Host, saved: &[u8]) -> Option<()> {
    let id = host.restore(alloc, saved).ok()?;
    host.close(id).ok()?;
    Some(())
}
