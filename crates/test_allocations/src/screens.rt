//! Text screens.

use crate::CallOutcome;
use cpm_screen::{ScreenError, TerminalKind, TextScreen};
use std::alloc::{AllocError, Global};

/// A screen of the usual size, or why there is none.
fn vt100(alloc: Global) -> Result<TextScreen, ScreenError> {
    TextScreen::new(alloc, TerminalKind::Vt100, 24, 80)
}

pub fn new(alloc: Global) -> CallOutcome {
    match vt100(alloc) {
        Ok(_) => CallOutcome::Made,
        Err(ScreenError::OutOfMemory) => CallOutcome::Refused,
        Err(_) => CallOutcome::Wrong,
    }
}

/// A screen, which there must be.
fn screen(alloc: Global) -> Result<TextScreen, AllocError> {
    match vt100(alloc) {
        Ok(screen) => Ok(screen),
        Err(_) => Err(AllocError),
    }
}

pub fn copy(alloc: Global) -> Result<CallOutcome, AllocError> {
    let screen = screen(alloc)?;
    Ok(CallOutcome::of(screen.copy(alloc)))
}
