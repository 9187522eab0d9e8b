//! Copies: of an image, of a console, and of a session with its drives.

use crate::CallOutcome;
use crate::machines::{is_marked, marked, opening};
use cpm_bdos::Session;
use cpm_console::Console;
use cpm_flags::Cpu;
use cpm_geom::{Format, Image};
use cpm_machine::Opening;
use std::alloc::{AllocError, Global};

/// The key that is pending on a console, and the byte that waits on it.
const KEY: u8 = b'D';

const SHOWN: u8 = b'A';

pub fn image(alloc: Global) -> Result<CallOutcome, AllocError> {
    let drive = marked(alloc)?;
    Ok(match drive.copy(alloc) {
        Ok(copy) => CallOutcome::made_if(is_marked(&copy) && is_marked(&drive)),
        Err(AllocError) => CallOutcome::refused_if(is_marked(&drive)),
    })
}

/// A console with a key and a byte.
fn used(alloc: Global) -> Result<Console, AllocError> {
    let mut console = Console::new(alloc)?;
    console.give(KEY);
    console.put(SHOWN);
    Ok(console)
}

/// Whether a console is as `used` made it.
fn is_used(console: &Console) -> bool {
    console.first_key() == Some(KEY)
        && console.pending() == 1
        && console.held() == 1
        && console.held_list() == 0
        && console.column() == 1
}

pub fn console(alloc: Global) -> Result<CallOutcome, AllocError> {
    let console = used(alloc)?;
    Ok(match console.copy(alloc) {
        Ok(copy) => CallOutcome::made_if(is_used(&copy) && is_used(&console)),
        Err(AllocError) => CallOutcome::refused_if(is_used(&console)),
    })
}

/// Whether a session has the console of `used` and two drives as `marked` made them. Where it has no drive it gives the other one, which is blank.
fn is_whole(session: &Session, blank: &Image) -> bool {
    is_marked(session.disks.image_at(blank, 0))
        && is_marked(session.disks.image_at(blank, 1))
        && is_used(&session.console)
}

pub fn session(alloc: Global) -> Result<CallOutcome, AllocError> {
    let blank = Image::blank(alloc, Format::Ibm3740)?;
    let Opening { drives, .. } = opening(alloc, Cpu::I8080, 16)?;
    let session = Session::new(used(alloc)?, drives);
    Ok(match session.copy(alloc) {
        Ok(copy) => CallOutcome::made_if(is_whole(&copy, &blank) && is_whole(&session, &blank)),
        Err(AllocError) => CallOutcome::refused_if(is_whole(&session, &blank)),
    })
}
